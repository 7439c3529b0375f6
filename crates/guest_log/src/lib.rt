//! The log of what happened to a guest.
//!
//! The crates above use `Log`, in clauses a record of its items, its room and its limit (`LogIs`, `specs/Logs.antt`).
//! `make_room` and `make_item_room` ask for memory and say where the log is full; after them `step` adds a step, which
//! takes no memory and, after a step of the same seat, no room, and `add` any other item. `entries` and `last_steps` are
//! how it is stored: in the fewest runs that the items allow (`run_count`, `specs/Runs.antt`), the run of steps that the
//! items end in by itself (`last_run`). A `Stop` is why no item can be added.
#![tactic(auto)]

pub mod laws;
pub mod log;
mod run;
pub mod stop;

pub use log::Log;
pub use stop::Stop;

#[cfg(test)]
mod tests;
