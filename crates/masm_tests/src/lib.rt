//! The tests of `masm`: sources with their words, listings and faults, worked out from the rules, and want of memory.
//!
//! They stand apart from it so that a run of the tests proves them alone.
#![tactic(auto)]

#[cfg(test)]
mod tests;
