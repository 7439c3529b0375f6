//! Guests at the boot of their images, and what lies around them: frames, slots, shared frames and a store. A world takes them into one
//! thread, and a host puts each behind a lock of its own.
//!
//! `boot` either boots all of the guests that are asked for or none. What it says of them has no premise on the store: each is the machine
//! that its image boots, by the bytes of its pages, and by their SHA-256 where they are in slots; and the books are exact. Which guests are
//! refused, and why, is `WhyNotBooted` (`specs/Boots.antt`); where the pages of their images come is said over the lists of their pages, by
//! `FramesComeFirst` and `SlotsComeInOrder` (`specs/Places.antt`).
#![tactic(auto)]

pub mod asked;
pub mod booted;
mod limits;

pub use asked::{Config, NewGuest};
pub use booted::{Booted, boot};
pub use limits::are_within_limits;
