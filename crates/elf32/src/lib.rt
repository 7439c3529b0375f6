//! What a guest boots from: an entry address and segments of bytes, and the ELF32 executables that hold them.
//!
//! The crates above use `Image` and `Segment`; `Image::raw` (one segment at the start of the unmapped addresses) and
//! `Image::fits`, the test whether a memory of some pages holds the image (`FitsPages`); `read`, whose image is the one
//! that the file stands for (`StandsFor`) and whose refusal is the file's first fault (`first_fault`); and `write`, whose
//! file (`file_of`) reads back as the image.
#![tactic(auto)]

pub mod fault;
pub mod header;
pub mod image;
pub mod laws;
pub mod range;
pub mod reader;
pub mod writer;

pub use fault::{ElfError, Fault};
pub use image::{Image, SEGMENT_BASE, Segment};
pub use reader::read;
pub use writer::write;
