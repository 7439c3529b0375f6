//! The table of shared frames: which frames several pages of guests read, and which page was last noted with which digest
//! (Waldspurger, OSDI 2002, section 4).
//!
//! Definitions: `specs/Entries.antt` has the entries, one for each shared frame at the place of its number, and what a ticket
//! that is given out or taken back does to them; `specs/Books.antt` what `admit`, `join` and `leave` do to the entries;
//! `specs/Hints.antt` the hints, `specs/Maps.antt` how they are read; `specs/Shares.antt` the table and what an offer is
//! answered. The laws of the books are in `laws`: `frames_shared` and `count_at` say what the table has of a number, and `admit`,
//! `join` and `leave` each move one ticket.
//!
//! The crates above use `Shares`: `offer` tells whether a page is worth sharing, `join` and `admit` share it, `leave` takes its
//! ticket back. The digest finds an entry, and a full comparison decides.
#![tactic(auto)]

mod digest_map;
mod entries;
mod entry;
pub mod guest_page;
mod hints;
pub mod laws;
mod page_map;
pub mod shares;
#[cfg(test)]
mod tests;

pub use guest_page::GuestPage;
pub use shares::{Offer, Shares};
