//! Which guest gives up memory, and how much each may keep, by shares and an idle memory tax (Waldspurger, "Memory Resource
//! Management in VMware ESX Server", OSDI 2002, section 5). It knows numbers alone: of each guest a `Stat`, and a `Tax`.
//!
//! The crates above use `victim`, whose answer is the guest of the least adjusted ratio (`IsLeast`, by `ratio` and
//! `RatioLess`) and the value of `victim_of`; `targets`, by `targets_of`, which takes a page from one victim after the other;
//! `ratio_less`, the exact comparison; and `pick_sample`, whose draws are the generator's next words (`drawn`).
//! The definitions are `specs/Ratio`, `Victim`, `Targets` and `Sample`; `laws` says what follows from them: what an idle page
//! costs, that there is one victim where anybody is eligible, and between which bounds targets lie.
#![tactic(auto)]

pub mod allotment;
pub mod laws;
mod ratio;
pub mod sample;
pub mod selection;
pub mod stat;
pub mod tax;
#[cfg(test)]
mod tests;

pub use allotment::targets;
pub use ratio::ratio_less;
pub use sample::{SAMPLE_SIZE, pick_sample};
pub use selection::victim;
pub use stat::{DEFAULT_MINIMUM, Stat};
pub use tax::Tax;
