//! What happens to a machine, and how a log keeps it.
//!
//! An `Item` is one thing that happens (`What`) and the seat that it comes from (`SeatNo`); an `Entry` is how a log keeps
//! items: a run of steps as one number, any other item by itself. A debugger names a register by a `DebugRegister`, and
//! what it writes are `WriteBytes`. The crates above use these types, which are plain data in clauses: a seat and a
//! register are numbers there, the bytes a list. `specs/Items.antt` has the items of one seat (`own`) and the test for a
//! step (`is_step`), `specs/Entries.antt` the items that entries keep (`steps_of`, `items_in`, `items_of`); `laws` says what
//! holds of them.
#![tactic(auto)]

pub mod entry;
pub mod item;
pub mod laws;
pub mod register;
pub mod seat;
pub mod write_bytes;

pub use entry::Entry;
pub use item::{Item, What};
pub use register::DebugRegister;
pub use seat::SeatNo;
pub use write_bytes::WriteBytes;

#[cfg(test)]
mod tests;
