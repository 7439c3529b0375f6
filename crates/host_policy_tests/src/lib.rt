//! The tests of `host_policy` over guests behind locks: what no clause of it says. Which page of which guest leaves its frame, how many
//! leave in a turn and who is blocked, that a balloon target is asked for once, and that what a sample finds idle is taxed.
//!
//! They stand apart from it, since they need guests that are booted.
#![tactic(auto)]

#[cfg(test)]
mod bench;
#[cfg(test)]
mod eviction_tests;
#[cfg(test)]
mod turn_tests;
