//! What the lines of a debugger and of the monitor are made of: words with exactly one blank between them, numbers and bytes.
//!
//! `words_of` parts a line (`specs/Words`), `decimal` and `hexadecimal` read a number (`specs/Numbers`), and `bytes` reads
//! bytes of two digits each (`specs/Bytes`). None but `bytes` asks for memory, and that only where the digits are bytes.
#![tactic(auto)]

pub mod hex_bytes;
pub mod laws;
pub mod number;
pub mod words;

pub use hex_bytes::{are_bytes, bytes};
pub use number::{decimal, hexadecimal};
pub use words::{Words, is, words_of};
