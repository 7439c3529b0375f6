//! Scripts for a simulator of several guests: a text becomes a header and blocks of lines that say what is done, or its first refused line.
//!
//! What a script means stands in `specs/`: `Scripts` (a header, and then what it allows to be done), which rests on `Words` (a
//! line's words), `Numbers`, `Names` (the first words), `Headers`, `Events` and `Actions` (what each line's words mean), `Statements` and
//! `Allowed` (what a header allows). `read` answers exactly that; it runs nothing. Which events it comes to, one after another, says
//! `Courses`: the lines of a `repeat` so many times, and one for each guest where a line says `*`. The numbers of the header are not
//! compared with a host's limits here: a host refuses them when it starts.
#![tactic(auto)]

pub mod action;
mod allowed;
mod draft;
pub mod error;
pub mod event;
pub mod header;
pub mod laws;
mod name;
mod number;
mod part;
pub mod reading;
mod statement;
#[cfg(test)]
mod tests;
mod words;

pub use action::{Action, ActionLine, Block};
pub use error::ScriptError;
pub use event::Event;
pub use header::{Fail, GuestLine, Header, Script, StoreCall};
pub use reading::read;
