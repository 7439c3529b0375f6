//! The free machine frames, in a queue that threads take from and give to with no lock; each goes with its account in the books.
//!
//! A `SharedPool` is made with no frame in it and one pass, which counts as having taken all of them: the owner then gives those
//! that are free, and others lie in pages already. Each thread has a `PoolPass` of its own, which knows what it took and what it
//! gave (`put`). The rule of the queue (`specs/Balance.antt`): the numbers that wait, with all that the passes took, less all that
//! they put, are those of all frames, each once. So a frame goes from whoever gives it to whoever takes it next, with its own
//! account of the one ledger that the passes know; none is handed out twice. A pass that has taken in all others knows that all
//! frames that it does not have wait.
//!
//! The crates above rest on the clauses of `SharedPool`; in clauses a pool and its passes are records (`specs/Pools.antt`). No
//! clause says that a `take` ever finds a frame that was given: that is tested, with threads at once. A free frame that still waits
//! when the pool is dropped is closed with it.
#![tactic(auto)]

pub mod hand;
pub mod pass;
pub mod pool;
mod queue;
pub mod resting;
mod rule;
#[cfg(test)]
mod tests;

pub use pass::PoolPass;
pub use pool::SharedPool;
