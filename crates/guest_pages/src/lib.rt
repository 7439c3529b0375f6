//! The pages of a guest: each is nowhere yet, in a frame of its own, in a shared frame, or in a slot of the swap store.
//!
//! The value of a `GuestPages` is the list of its pages, tokens and all. Definitions: `specs/Pages.antt` has what a page is and
//! shows, and the memory that all pages are (`kind_at`, `shown`, `memory_of`); `specs/Holdings.antt` which frames, tickets
//! and slots a map holds; `specs/Outline.antt` what no access changes. Laws of them are in `laws`. Which pages are in a frame is
//! kept as bits (`bits`, `residents`; `specs/Marks.antt`), so that `next_resident` looks at no page.
//!
//! The crates above use the remaps, each one equation `slice_set` of the list of pages with what comes back (`supply_zero`,
//! `supply_copy`, `supply_swapped`, `swap_out`, `share`, `admit`, `give`), and the accesses (`read_word`, `write_word` and the like),
//! whose clauses are those of one plain memory. A read needs no condition on the page's kind: what it gives are the bytes
//! that `memory_of` shows, zeros where the page has none. No call but `new` and `admit` takes memory.
#![tactic(auto)]

pub mod access;
mod bits;
mod counts;
pub mod laws;
pub mod map;
pub mod page;
pub mod remaps;
mod residents;
#[cfg(test)]
mod tests;

pub use map::GuestPages;
pub use page::{Page, PageKind, Returned};
