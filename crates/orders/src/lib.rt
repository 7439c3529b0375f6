//! What the words of a command line ask for.
//!
//! `parse` reads them into an `Order`, which has the order of its command (`commands`, `run_command`, `fuzz_command`), or into the
//! error that `clap` prints: help that was asked for among them. The commands with their arguments are those of `arguments`, the
//! pages of help those of `help`. No contract says which words ask for what: the cases of the built program do.
#![tactic(auto)]

mod arguments;
mod help;
mod parsing;

pub use parsing::{Order, Settings, parse};
