//! A machine for many runs: after each it goes back to where it began, its home, by the pages that were written since alone.
//!
//! A `Home` is a machine that stands still: as an image boots, or where a run has come to. `ResetMachine` is a processor over one plain memory
//! with its devices, as the reference machine is, and is `Runnable` as that is. In clauses it is the machine as it stands and its home:
//! `ResetMachine::reset` makes the first the second. `WatchedBus` is a `FlatBus` that marks each page that a store changes, and `Marks` those
//! marks with a list of the pages. That a page which is not marked still has the bytes that it has at home is an invariant of the bus's type
//! (`IsWatched`), which each store keeps. `Cover` is which words of memory PC led to, where a machine keeps that.
//!
//! A machine belongs to one thread at a time, and may be handed to another; a home may be shared by the machines of several threads.
#![tactic(auto)]

pub mod bus;
pub mod cover;
pub mod home;
pub mod marks;
pub mod passing;
pub mod resetting;

pub use bus::WatchedBus;
pub use cover::Cover;
pub use home::Home;
pub use marks::Marks;
pub use passing::Passing;
pub use resetting::ResetMachine;

#[cfg(test)]
mod tests;
