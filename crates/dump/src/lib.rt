//! The text of the state that a machine is in: a line for each part of it, as `vmhost exec`, `replay` and `sim` print it.
//!
//! `dump` writes it of a view of a machine, exactly as `specs/Dumps.antt` has it (`dump_text`): the count of steps, the control
//! registers, the general and the system registers, and the console's output. `push_digits` and `push_output_digits` are
//! bytes as digits, and `push_word` is a word as digits. `steps_in` counts the steps of a log, which a dump begins with.
#![tactic(auto)]

pub mod steps;
pub mod text;

pub use steps::steps_in;
pub use text::{dump, push_digits, push_output_digits, push_word};
