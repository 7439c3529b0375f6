//! The log of a guest with the pen that alone appends to it, and the head by which others see how long it is.
//!
//! The type of `OwnedLog` keeps that its log has just the items that its pen appended. In clauses it is a record, `OwnedLogIs`
//! (`specs/OwnedLogs.antt`), which also has what an item adds to a log and to the seat that makes it (`Adds`). The crates above
//! use `make_room` and `step`, which is the part of a step on the hot path, `make_item_room` and `add` for every other item,
//! and `publish` and `settle`, after which other seats see what was added.
#![tactic(auto)]

pub mod owned_log;

pub use owned_log::OwnedLog;
