//! Which page of a guest leaves its frame for a slot: the first one in a frame at or after a place that is drawn, going round, but for pages
//! that are spared; and which pages a debugger's access wants to have supplied.
//!
//! A world and a host choose so alike, each with a word of its own generator; whose page it is to be is `taxpolicy`'s to say. The crates
//! above use `drawn_page`, which is `IsNextResident` (`specs/Victims.antt`), `spared_of` and `is_wanted`.
#![tactic(auto)]

mod choosing;
pub mod spared;
pub mod wanted;

pub use choosing::{drawn_page, next_resident};
pub use spared::{Spared, spared_of};
pub use wanted::{Access, is_wanted};
