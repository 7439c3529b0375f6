//! The lines of the monitor, by which a person rules a host that runs.
//!
//! `parse` reads a line as an order, or finds its first fault, by the table of `specs/Orders` (`order_of`). `Fault::text` is
//! what is answered to a line that has a fault.
#![tactic(auto)]

pub mod fault;
pub mod order;
pub mod parsing;
#[cfg(test)]
mod tests;

pub use fault::Fault;
pub use order::Order;
pub use parsing::{MOST_BYTES, parse};
