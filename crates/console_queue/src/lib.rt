//! A guest's console queue: bytes that one thread puts and another takes, in the order in which they were put, each once.
//!
//! A queue has room for a number of bytes, one `FeedPass`, which alone puts bytes and knows what was put, and one `TakePass`, which
//! alone takes them and knows what was taken. Neither side takes a lock. `rest` ends both: what was put is what was taken and then
//! what still waits. The crates above rest on the clauses of `ConsoleQueue`; in clauses a queue and its passes are records
//! (`specs/Queues.antt`).
//!
//! No clause says when a byte that was put can be taken, nor when the room of a byte that was taken is there again: a `take` that
//! always answers `None` meets its clauses, and so does a `feed` that puts nothing once it has put as many bytes as there is room
//! for. That both do what they say is tested, with threads at once.
#![tactic(auto)]

mod log;
pub mod passes;
pub mod queue;
mod ring;
#[cfg(test)]
mod tests;

pub use passes::{FeedPass, TakePass};
pub use queue::ConsoleQueue;
