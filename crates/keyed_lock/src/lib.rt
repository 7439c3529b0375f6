//! A lock whose content fits a key that everyone can read without it.
//!
//! The key is told once, when the lock is made, and lasts as long as the lock. `take` and `try_take` hand out the value that is
//! under the lock, of which the clauses say that it fits the key (`Fits`), with a `Loan`; `put_back` takes both, and requires that
//! the value fits the key again. So the crates above prove of a value under a lock what they know of the lock's key, with no check
//! when it runs: they rest on the clauses `fits` of `KeyedLock`. In clauses a lock is a record, `LockIs`: its key, and which lock
//! it is.
//!
//! No clause says that a lock comes free, so a `put_back` that wakes nobody meets its own, and so do a `try_take` and an
//! `into_inner` that always answer `None`: that they do what they say is tested, with threads at once.
#![tactic(auto)]

pub mod fits;
pub mod loan;
pub mod lock;
mod rule;
mod table;
#[cfg(test)]
mod tests;

pub use fits::{Close, Fits};
pub use loan::Loan;
pub use lock::KeyedLock;
