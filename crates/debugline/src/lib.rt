//! The lines that a debugger sends over a stream, and the replies to them.
//!
//! A `Framer` cuts a stream of bytes into lines, however the bytes come. `specs/Lines` says which lines a stream has
//! (`IsLines`), and `laws` that it has them and no others. `parse` reads a line as a command, by the table of
//! `specs/Commands` (`command_of`). `reply` is the text of an answer (`specs/Replies`).
#![tactic(auto)]

pub mod answer;
pub mod command;
pub mod framer;
pub mod laws;
pub mod line;
pub mod parsing;
#[cfg(test)]
mod tests;

pub use answer::{Answer, reply};
pub use command::Command;
pub use framer::Framer;
pub use line::{Line, MOST_BYTES};
pub use parsing::parse;
