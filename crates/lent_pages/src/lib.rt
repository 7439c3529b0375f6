//! The moves of one guest's pages where each lot of what lies around them is under a lock of its own: the shared frames (`Table`), and
//! the free slots with their store (`Swap`). Each lies there with its account in the books of all frames, slots and tickets (`accounts`),
//! and a guest's account lies with its pages.
//!
//! Each call is passed a guest's pages and share, and what lies under the locks that its move needs; after it the books are level with
//! what lies there (`guest_share`, `IsTable`, `IsSwap`). A free frame comes and goes in the hand, as its number, which a guest's share
//! says: a call answers the frame that is in hand then, beside what `page_moves` answers. The crate above takes the locks, and the frames
//! from the pool.
//!
//! Definitions: `specs/Locked.antt` has what lies under the locks, `specs/Stores.antt` what is said of a store that was found there,
//! `specs/Supplies.antt`, `specs/Evictions.antt` and `specs/Scans.antt` what each call answers, `specs/Returns.antt` a share that
//! lags behind its pages.
#![tactic(auto)]

pub mod evicting;
mod noting;
pub mod returning;
pub mod scanning;
pub mod supplying;
pub mod swap;
pub mod table;

pub use evicting::{EvictError, evicted};
pub use returning::{frame_returned, nothing_returned, slot_returned, ticket_returned};
pub use scanning::scanned;
pub use supplying::{copy_supplied, first_supplied, swapped_supplied};
pub use swap::{Swap, SwapKey};
pub use table::{Table, TableKey};
