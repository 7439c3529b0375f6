//! The reference machine: the processor over one plain memory with its devices, and what happens to it.
//!
//! `FlatBus` is a bus that lacks no page; `FlatBus::input` is what an item does beside a processor. `Flat` is, in clauses, a `Machine`: `Flat::boot` is the
//! boot of the image, `Flat::step` the step of the definition, `Flat::input` what an item does, or nothing where it is refused. Nothing below the
//! commands stands on it.
#![tactic(auto)]

pub mod bus;
pub mod flat;
mod input;

pub use bus::FlatBus;
pub use flat::Flat;

#[cfg(test)]
mod tests;
