//! A guest behind a lock of its own, with what threads reach without it (`Front`), and the calls that whoever has a seat of it makes.
//!
//! Whatever other threads do in between, what a call answers is that of the guest's own log. A call tells of the seat, with no premise,
//! that it has added its item to a log for which the seat was legal (`Happens`, `Answers`), or that it has seen a log that begins with what
//! it had seen (`Sees`). What the answer says of the machine is told where the guest's truth still held after the call, which the seat's
//! witness knows: a seat that knows it then knew it before (`Lasts`), and where the truth holds to the end (`Cell::finish`), each seat knew
//! it all along. At the end the bytes that were put for the console are the input of the log and then the rest.
//!
//! The guest's pages move over a `MachineMemory` while its lock is held: `Cell::piece`, `Cell::write` and `Cell::read` supply what they
//! need, `Cell::evict` and `Cell::scan` are for those who look after the memory. A supply alone narrows the guest's truth, to whether the
//! bytes that came are those of its own run (`specs/Narrowing.antt`). A guest's stake stays level for its pages in the memory that it was made over
//! (`IsMemoryOf`), and says what was written to their slots: so where the store was true to digests when the memory was made, the truth holds
//! at each call and to the end (`lasts_with_store`).
//!
//! A piece that ends as `AllMade` has made as many steps as it was to, and one that is held or blocked none. No clause says when it ends so,
//! that a byte that waits is taken, nor where a breakpoint ends it: `cell_tests` has them.
//!
//! Definitions: `specs/Sitting.antt` has what lies under the lock (`Sits`), `specs/Ends.antt` the seats at first and at the end,
//! `specs/Slices.antt` a slice of steps with its input, whose law is `slices_join`.
#![tactic(auto)]

mod acting;
pub mod breakpoints;
pub mod calls;
pub mod cell;
pub mod ends;
pub mod gate;
mod inside;
pub mod laws;
mod lending;
pub mod moves;
mod narrowing;
pub mod parts;
pub mod piece;
pub mod reading;
pub mod registers;
pub mod seat;
mod turning;
mod turns;
pub mod writing;

pub use breakpoints::Breakpoints;
pub use cell::{Cell, Front, Locked};
pub use ends::{Ended, Made};
pub use gate::{Gate, Open};
pub use moves::{Kept, PageStat};
pub use parts::Parts;
pub use piece::{End, Piece, Place};
pub use reading::ReadError;
pub use registers::Registers;
pub use seat::{Seat, Seats};
pub use writing::WriteError;
