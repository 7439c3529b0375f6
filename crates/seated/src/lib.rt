//! What is done with a guest by a seat that stands outside it: the calls that a lock round the guest makes for whoever has the seat.
//!
//! Definitions: `specs/Acts.antt`. Each call finds the guest with a log that the seat may not have seen whole, and leaves the seat seeing
//! all of it: with items that it has made added (`Acts`), or with none (`Sees`); what is answered is that of the log as it was found.
//! So whoever holds the seat knows of the guest behind the lock what the seat's record says, whatever others did in between. Many such
//! calls for one count of steps are a `Slice`, whose law is `slices_join`.
//!
//! The crates above use `run`, `input`, `take_in`, `read` and `seen`. `Sits` is what a lock keeps of the guest in it: its boot, its head,
//! and that it is its run.
#![tactic(auto)]

pub mod calls;
pub mod laws;

pub use calls::{input, read, run, seen, take_in};
