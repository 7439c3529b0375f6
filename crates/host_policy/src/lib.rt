//! What a host's policy does over guests behind locks: which guest's page leaves its frame, and its turns (Waldspurger, "Memory Resource
//! Management in VMware ESX Server", OSDI 2002, sections 3, 5 and 6.3).
//!
//! The crates above use `Policy`, whose lock is held while no other is; `evict_one`, by which a page of the policy's victim leaves its
//! frame; and `turn`, which samples the guests' pages, finds the level of free memory, and asks of each guest what `reclaim::plan` has.
//! Each guest's numbers are read under its own lock, one guest after another, while others may run. So a clause says that there were such
//! numbers (`IsVictim`, `IsTurn`), and of the guests' logs what the policy's seats have made (`AreTurned`): at most one item each, which
//! asks for at most three quarters of the guest's pages; and that a seat which was used has found its guest to be its run, where the swap
//! store is true to digests.
//!
//! Of the policy's level a clause says that turns have reached it from high, by counts of free frames (`IsReached`).
//!
//! No clause says which page leaves, how many leave in a turn, nor who is blocked: `Cell::evict` and `Cell::block` tell of neither. Nor does
//! one say which tax is in force, since whoever shares the policy may set it meanwhile: its type has it below 100, and tests tell that a
//! policy begins with the tax that it is given, and has the one that was set last.
#![tactic(auto)]

pub mod aiming;
pub mod evicting;
pub mod made;
mod numbers;
pub mod policy;
#[cfg(test)]
mod policy_tests;
mod samples;
mod state;
mod swapping;
#[cfg(test)]
mod tests;
pub mod turning;

pub use aiming::Aim;
pub use evicting::{Evicted, evict_one};
pub use made::Turn;
pub use policy::Policy;
pub use state::MOST_GUESTS;
pub use turning::turn;
