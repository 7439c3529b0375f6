//! The free machine frames, for one thread.
//!
//! The crates above use `Pool`, in clauses a `FreeList` of `frames`: the numbers that are free, and how many are out. What
//! `take` and `give` do to it is said by the counts of `frames` (`count_of`), so that what the pool gained is what another
//! collection lost. `new` makes the one `Numbers` of the frames, and all the room: no later call asks for memory.
#![tactic(auto)]

pub mod pool;
#[cfg(test)]
mod tests;

pub use pool::Pool;
