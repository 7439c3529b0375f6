//! The file of a guest's log, version 1: a header of `MVL1`, the pages of the machine and the SHA-256 digest of its image
//! file, and then the items, each a tag byte, a seat byte and its fields.
//!
//! The crates above use `write`, whose file stands for the log (`StandsFor`, `file_entries`), and `append`, by which it grows by an
//! entry; `check_header` and
//! `read_entries`, which give the header and the entries that the file has (`HasHeader`, `HasEntries`), or its first fault
//! (`IsFault`, `IsRefusal`); and `image_digest`. `specs/FileItems.antt` has the bytes of an item and what one can hold,
//! `specs/Files.antt` the whole file, `specs/Faults.antt` the checks in their order, `specs/Runs.antt` how a long run of
//! steps is split. `laws` says that bytes are the items of one list at most, and that a log that was written reads back
//! with the same items. `specs/Reading.antt` serves the private readers alone.
#![tactic(auto)]

pub mod fault;
pub mod header;
mod item_reader;
pub mod laws;
pub mod reader;
mod tag;
pub mod version_laws;
pub mod versions;
pub mod writer;

pub use fault::{LogFault, ReadError};
pub use header::{HEADER_SIZE, check_header, image_digest};
pub use reader::read_entries;
pub use versions::{LogHeader, append_as, read_entries_as, read_header, write_as};
pub use writer::{append, write};

#[cfg(test)]
mod tests;
