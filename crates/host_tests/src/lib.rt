//! The tests of `host`: what no clause says of slices, evictions, scans and a debugger's requests, and all of them at once by threads.
//!
//! They stand apart from it so that a run of the tests proves them alone.
#![tactic(auto)]

#[cfg(test)]
mod bench;
#[cfg(test)]
mod crews;
#[cfg(test)]
mod exec_tests;
#[cfg(test)]
mod gate_tests;
#[cfg(test)]
mod images;
#[cfg(test)]
mod pairs;
#[cfg(test)]
mod policy_tests;
#[cfg(test)]
mod race;
#[cfg(test)]
mod race_tests;
#[cfg(test)]
mod replaying;
#[cfg(test)]
mod rows_tests;
#[cfg(test)]
mod sharing_tests;
#[cfg(test)]
mod slice_tests;
#[cfg(test)]
mod waiting_tests;
