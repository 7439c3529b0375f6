//! The tests of `elf32`: files and the images that they stand for, files that are refused, and want of memory.
//!
//! They stand apart from it so that a run of the tests proves them alone.
#![tactic(auto)]

#[cfg(test)]
mod tests;
