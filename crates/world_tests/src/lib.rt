//! The tests of `world`: what its events answer and leave in small worlds, worked out by hand; want of memory at each request; and thousands
//! of random events.
//!
//! They stand apart from it so that a run of the tests proves them alone.
#![tactic(auto)]

#[cfg(test)]
mod boot_tests;
#[cfg(test)]
mod debugging_tests;
#[cfg(test)]
mod event_tests;
#[cfg(test)]
mod random_event_tests;
#[cfg(test)]
mod running_tests;
#[cfg(test)]
mod sampling_tests;
#[cfg(test)]
mod turn_tests;
