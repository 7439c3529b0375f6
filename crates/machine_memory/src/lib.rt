//! What lies around the guests of a host whose threads run them at once: the free frames, which no lock guards, and the shared frames
//! and the swap book with its store, each under a lock of its own; with the books of all of it.
//!
//! The crates above use `MachineMemory`, in clauses a record, `MemoryIs`. A guest's pages and its `Stake` lie under the guest's own lock,
//! which is theirs: each call here is passed both. A stake that is level (`IsLevel`) says in the books what the pages are; each call needs
//! it so and leaves it so, and what the books say of other guests needs no lock. Locks are taken in one order: a guest's, the table's,
//! the swap book's. While a lock is held, no clause knows what other threads do under the others: so where a clause speaks of what was
//! found under a lock, it says that there was such a thing.
#![tactic(auto)]

pub mod audit;
pub mod boot;
pub mod evict;
pub mod finish;
pub mod free;
mod hand;
pub mod laws;
pub mod memory;
pub mod returning;
pub mod scan;
pub mod stake;
pub mod supply;
#[cfg(test)]
mod tests;

pub use audit::{BookCounts, Gathered, PageCounts};
pub use boot::{Around, Booted};
pub use lent_pages::EvictError;
pub use memory::MachineMemory;
pub use stake::Stake;
