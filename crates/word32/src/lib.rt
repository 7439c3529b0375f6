//! Words of 32 bits: in lists of bytes, lowest byte first, of shorter numbers with their sign, and as addresses in
//! pages of 4,096 bytes.
//!
//! The crates above use `word_at` and `put_word` (a word in bytes, by `word_in` and `with_word`; half-words likewise), `sext8` and `sext16`
//! (the sign is copied), and `Ppn`, `page_of` and `offset_of` (the page of an address and the place in it).
#![tactic(auto)]

pub mod page;
pub mod sign;
pub mod words;

pub use page::{PAGE_SIZE, Ppn, offset_of, page_of};
pub use sign::{sext8, sext16};
pub use words::{half_at, put_half, put_word, word_at};
