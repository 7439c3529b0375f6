//! The books of all frames, slots and tickets, kept over several locks: what each owner has is its account, a part of one ledger whose
//! rule is the exact books of `page_moves` over all accounts. A guest, the table of shared frames, the slot book and each free frame have an
//! account each, which lies where its owner lies, as a share without bytes.
//!
//! Definitions: `specs/Exact.antt` has the rule, `specs/OwnerShares.antt` the share of each owner, `specs/Settling.antt` what a move
//! did. A guest's account is the outline of its pages, so that accesses of memory leave it as it is, and the frames in its hand. While
//! its lock is held a share may be that of the pages before; `settle` and its neighbours bring it up to date.
//!
//! The crates above use `deal`, which deals all accounts, `free_frame`, `take` and `give` for a free frame's, and for each set of
//! locks a call that tells what exact books say (`meet`, `meet_table`, `meet_slots`, `meet_both`) and one that settles after a move
//! (`settle`, `settle_table`, `settle_slots`, `settle_both`). The laws in `laws` lead from what the moves of `page_moves` ensure to what
//! settling asks, and from the accounts of all owners to exact books.
#![tactic(auto)]

pub mod account;
pub mod dealing;
pub mod free;
pub mod guest;
pub mod guest_and_both;
pub mod guest_and_slots;
pub mod guest_and_table;
pub mod laws;
pub mod rule;
#[cfg(test)]
mod tests;

pub use account::{Account, Extent};
pub use dealing::deal;
pub use free::{free_frame, give, take};
pub use guest::{meet, settle};
pub use guest_and_both::{meet_both, settle_both};
pub use guest_and_slots::{meet_slots, settle_slots};
pub use guest_and_table::{meet_table, settle_table};
pub use rule::{BookShare, Books, ExactBooks};
