//! The head of a guest's log, which threads share: how long the log is, who may append to it, and what each of its seats has
//! seen of it and made in it.
//!
//! A log has one `Pen`, which alone appends and knows the log; each `Seat` has seen a beginning of it. A seat is `Legal` for a log
//! (`specs/Legal.antt`) where what it saw begins the log and what it made are the log's items of its number; `laws` says how that
//! lasts while a log grows. The crates above use `Head`: `append`, `append_many` and `append_step` add items of a seat, `look` and
//! `meet` lengthen what seats have seen, without the pen and without waiting, and `settle` shows that a seat is legal for the
//! pen's log. In clauses a head is which head it is, a pen and a seat are records (`specs/Heads.antt`).
//!
//! The log stands in the proofs alone: the crate that keeps its items ties them to the pen's. What threads share is one word, at
//! most the length of the log. No clause says how far it lags, so a `publish` that does nothing and a `look` that finds nothing
//! new meet theirs; that a look after `publish` or `append` finds the whole log is tested.
#![tactic(auto)]

pub mod head;
pub mod laws;
pub mod pen;
mod rule;
pub mod seat;
#[cfg(test)]
mod tests;
mod tokens;
mod view;

pub use head::Head;
pub use pen::Pen;
pub use seat::Seat;
