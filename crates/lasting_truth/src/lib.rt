//! A truth that lasts until it is lost: for proofs alone, a value that is true at first and can only become false, and witnesses of
//! what it was.
//!
//! A `Truth` is made with its one `Keeper`, which knows whether it still holds; it may lie under a lock. A `Witness` knows whether
//! it held when that looked last, and may be anywhere. By `look` a witness learns what holds now, and where it still holds, that it
//! held whenever this witness looked before. So what was proved of an answer because the truth held stands at the end, if it holds
//! then. Only `narrow` changes it, to what it was and what a proof chooses.
//!
//! The crates above rest on the clauses of `Truth`. In clauses a truth, a keeper and a witness are records (`specs/Truths.antt`).
//! All exist for the proofs: a truth is a ledger's one word, a keeper and a witness have no bytes, and a step is a load or a few.
#![tactic(auto)]

pub mod keeper;
pub mod part;
mod steps;
#[cfg(test)]
mod tests;
pub mod truth;
pub mod witness;

pub use keeper::{Keeper, Narrowing};
pub use truth::Truth;
pub use witness::Witness;
