//! The moves of pages between free frames, frames of their own, shared frames and slots of a swap store, over parts that are
//! lent: pages (`Pages`, in a `GuestPages` or behind another owner), a `Pool`, a `SlotBook`, a `SwapStore` and `Shares`.
//!
//! Definitions: `specs/Moves.antt` has what a move does to the counts of each number (`Conserves`, or its parts where a number
//! is in the caller's hand), and which pages read which entries (`Reads`, `Covered`, `OwnOnce`); `specs/Books.antt` where each
//! frame, slot and ticket is (`Books`); `specs/Faith.antt` that pages are as their owner has them (`Faithful`), and their slots
//! too (`Kept`); `specs/Supplies.antt`, `specs/Returns.antt` and `specs/Scans.antt` what each call answers and what becomes of its page.
//!
//! The crates above use `supply_first`, `supply_copy`, `supply_swapped`, `evict_in`, `store_first`, `scan_in` and `give_back`,
//! and the laws of the books in `laws`: a move that conserves keeps the books, and books give each move what it asks for.
#![tactic(auto)]

pub mod evict;
pub mod laws;
pub mod pages;
pub mod returning;
pub mod scan;
mod stored;
pub mod storing;
pub mod supply;
#[cfg(test)]
mod tests;

pub use evict::evict_in;
pub use pages::Pages;
pub use returning::give_back;
pub use scan::{Scan, scan_in};
pub use storing::store_first;
pub use supply::{SupplyError, supply_copy, supply_first, supply_swapped};
