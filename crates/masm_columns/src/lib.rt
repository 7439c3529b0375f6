//! The column of the word of a line of assembly language that a fault is about.
//!
//! The crate above uses `wrong_column`, whose answer is that of the definition `Columns.wrong_column`: where the word begins, in
//! bytes from the line's first one, which is 0. An operand is wrong where the line up to it can't be gone on with: what is a line of the
//! language says `masm_lines::line_of` alone. `operand_column` answers where an operand of a number begins.
#![tactic(auto)]

pub mod column;
pub mod goes_on;
mod place;

pub use column::{operand_column, wrong_column};
