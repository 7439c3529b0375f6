//! Shares of one whole, which may lie under several locks.
//!
//! A whole has parts, and a rule (`Rule`) says what they are to be together, about a key that is told once. A `Ledger` is made with
//! one share that has every part; after that each part is in one share. `lend` and `part` move parts from share to share. By
//! `settle` a share's parts become others, where the rule holds as well with those whatever the parts of other shares are
//! (`Become`). So each step needs only the shares that it changes, and the rule holds of all parts between any two steps: by `learn`
//! a share learns that there are others with which its parts meet the rule (`AreOf`), and the share with every part that they do.
//!
//! The crates above rest on the clauses of `Ledger`. In clauses a ledger and a share are records, `LedgerIs` and `ShareIs`. Both
//! exist for the proofs: a ledger is one word that stays 0, a share has no bytes, and a step is a load or two.
#![tactic(auto)]

mod hand;
pub mod ledger;
pub mod rule;
pub mod share;
#[cfg(test)]
mod tests;
mod tokens;

pub use ledger::Ledger;
pub use rule::{NewParts, Rule, SoundRule};
pub use share::Share;
