//! The balloon device's state: how many pages a guest is asked to give up, and which pages it gave (Waldspurger, OSDI
//! 2002, section 3.1).
//!
//! The crates above use `Balloon`, in clauses its target and of each page whether it is given (`BalloonIs`). `give`,
//! `take` and `touch` change the given pages (`page_given`, `page_taken`; an access to a page takes it, too), `set_target`
//! the target (`with_target`). `given` is their number (`given_count`), in constant time. Only `new` takes memory.
#![tactic(auto)]

pub mod balloon;
pub mod laws;
#[cfg(test)]
mod tests;

pub use balloon::Balloon;
