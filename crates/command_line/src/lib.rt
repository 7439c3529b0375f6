//! The command line of the program `vmhost`, over any files, reader and writers.
//!
//! `program` has what the words of a command line ask for (`orders`) carried out and says how it went: its contract says what the
//! status that it gives tells of both outputs. The commands themselves are those of the library `commands`; the words behind the
//! line of a refusal are those of `diagnosis`. What no contract says, the texts that are printed, the tests of `vmhost` try.
#![tactic(auto)]

mod explaining;
mod fuzzing;
mod inputs;
mod printer;
pub mod program;
pub mod progress;
mod simulating;
