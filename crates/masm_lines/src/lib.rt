//! A line of assembly language: its label and its statement, or its fault.
//!
//! What a line says stands in `specs/`: `Grammar` (a line is a label and a statement), which rests on `Tokens` (names and
//! numbers), `Operands`, `Instructions` (which operands each has, and the instruction that they make), `Pseudo`, `Lists`, `Texts`, `Operations` and
//! `Statements`; the names of instructions and registers are those of `masm_names`. The crate above uses `line_of`, whose answer is that line or its first fault.
//! A statement may still name an address; what it means there, and where it stands, is for the crate above.
#![tactic(auto)]

mod argument;
mod character;
mod comment;
mod element;
mod elements;
pub mod fault;
mod forms;
pub mod line;
pub mod list;
mod numbers;
mod operands;
mod operation;
mod pseudo;
mod quoted;
mod range;
mod scan;
pub mod statement;
pub mod text;
mod token;
mod written;

pub use fault::AsmFault;
pub use line::{Line, line_of};
pub use list::List;
pub use range::{address_bits, word_bits};
pub use statement::Statement;
pub use text::Text;
pub use written::Value;
