//! A host whose threads run its guests at once, each guest behind a lock of its own, over one machine memory: slices of steps, what a
//! debugger asks, evictions, scans and turns of the policy.
//!
//! The crates above use `Host`, which threads share by reference. Each call that is passed a seat says what it does to that seat, whatever
//! other threads do in between: its clauses are those of `cell`'s calls, of the front of the guest of that number (`specs/Places.antt`). A
//! slice is made of pieces (`cell::Cell::piece`); where a step needs a page and no frame is free, a page of the policy's victim leaves its
//! own with no lock held, 64 at most for one step.
//!
//! Where the swap store was true to digests at the boot, a seat has found in each call that takes its guest's lock that the guest's truth
//! holds (`lasts_with_store`), and each guest that ends is its run.
//!
//! No clause says that a slice makes a step, why it stops but for want of a frame or a slot, nor which page is scanned: `cell`'s calls tell
//! of none of these. What they do is tested by `host_tests`.
//!
//! Definitions: `specs/Stops.antt` and `specs/Slices.antt` have how a slice ends, `specs/Evictions.antt` why there is no room for a page,
//! `specs/Debugging.antt` what a debugger is answered, `specs/Leftover.antt` what is left over of frames and slots.
#![tactic(auto)]

pub mod console;
pub mod debugger;
mod debugging;
pub mod ends;
pub mod host;
mod leftover;
pub mod memory;
mod places;
pub mod requests;
mod room;
pub mod running;
mod slices;
pub mod status;
pub mod stops;

pub use ends::{Booted, PolicyConfig};
pub use host::Host;
pub use requests::{DebugError, Reply, Request};
pub use status::Status;
pub use stops::{Ran, Stop};
