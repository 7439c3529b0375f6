//! Where the pages go that are swapped out: the free slots, and the stores that hold the slots' bytes.
//!
//! Definitions: `specs/Holding.antt` has what was last written to slots, before and after a call, `specs/Places.antt` which bytes
//! of a medium a slot has, `specs/Failures.antt` the count of failed calls, `specs/Memories.antt` a store in memory and what
//! damage does, `specs/Faults.antt` which call of a `FaultStore` fails. The crates above use `SlotBook`, in clauses a `FreeList`
//! of `frames`, whose `take` gives the lowest free slot; `SwapStore`, `Damage` and their stores; and `digest`.
//!
//! A store tells what was last written to a slot, where that is known, from what a read of it may give. A `MemStore` is honest
//! until a byte is damaged, and true to digests until a damage makes other bytes of one SHA-256, which it looks for. A
//! `FileStore` is both where its `Medium` has bytes that are known, as memory has; of a `File` nothing is known or claimed.
#![tactic(auto)]

pub mod damage;
pub mod digests;
pub mod fault;
pub mod file;
pub mod laws;
pub mod medium;
pub mod memory;
pub mod slots;
pub mod store;
mod stored_page;
mod stored_pages;
#[cfg(test)]
mod tests;

pub use damage::Damage;
pub use digests::digest;
pub use fault::{FaultStore, Op};
pub use file::FileStore;
pub use medium::Medium;
pub use memory::MemStore;
pub use slots::SlotBook;
pub use store::{Failed, SwapStore};
