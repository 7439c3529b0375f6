//! The names of assembly language: those of the instructions and of the general registers.
//!
//! Which instruction, with its operands all 0, and which register has a name stands in `specs/Mnemonics` and `specs/Registers`.
//! The crate above uses `named_instruction` and `register_named`, whose answers are those. By a law, `each_row_is_named`, the
//! instruction of each row of the table is found by the name by which it is printed.
#![tactic(auto)]

pub mod laws;
mod mnemonics;
mod registers;

pub use mnemonics::named_instruction;
pub use registers::register_named;
