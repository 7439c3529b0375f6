//! The assembler: a text in assembly language becomes an image.
//!
//! A line is read by `masm_lines`. What a text means stands in `specs/`, in stages: `Places` (where each line's statement
//! stands), `Names` (their addresses), `Meanings` (what a statement puts at its place), `Listings` (segments and the entry)
//! and `Assembly` (the listing that a text means, or its first fault). The crates above use `assemble_image`, which answers
//! the image of that listing or the first fault with its line, `assemble`, which answers that image's file, and `listing`,
//! the text's disassembly. The laws in `laws` say that a text means just the listing that it is assembled to, that this has one
//! image, and that the text's disassembly is its executable's.
#![tactic(auto)]

pub mod assembly;
pub mod disassembly;
pub mod error;
pub mod laws;
mod layout;
mod output;
mod reading;
mod target;
mod words;

pub use assembly::{assemble, assemble_image};
pub use disassembly::{HexByte, HexWord, disassembly_of, listing};
pub use error::AsmError;
pub use masm_lines::AsmFault;
