//! The guest's console: bytes of input that wait and bytes of output that wait, in rooms that are made with it.
//!
//! The crates above use `Console`, in clauses its two lists (`ConsoleIs`). The guest's side is `status`, `next_input`,
//! `take_input` and `write_output` (`console_status`, `next_input`, `input_taken`, `output_written`), the host's side is
//! `feed`, `drain` and `copy_output` (`input_fed`, `output_drained`). No call but `new`, `drain` and `copy_output` takes
//! memory. `bounds` says that each list is within its room and each of its items a byte.
#![tactic(auto)]

pub mod console;
pub mod full;
pub mod laws;
#[cfg(test)]
mod tests;

pub use console::{Console, INPUT_ROOM, OUTPUT_ROOM};
pub use full::InputFull;
