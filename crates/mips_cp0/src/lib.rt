//! Coprocessor 0: the system registers, and the exceptions that are entered through them (MIPS32 Architecture For
//! Programmers, volume III).
//!
//! The crates above use `Cp0`, in clauses a record of its registers (`SystemRegisters`): `read` and `write` are the
//! table of registers with its masks (`value_at`, `written_at`), `enter` and `eret` the entry of an exception and the
//! return from it (`entered`, `returned`), `tick` and `interrupt_due` the timer and the interrupts (`ticked`,
//! `interrupt_taken`), `quiet_ticks` and `advance` many ticks before the timer's (`until_timer`, `after_ticks`). An exception is an `Exc`.
#![tactic(auto)]

mod bits;
pub mod cause;
pub mod cp0;
pub mod exception;
pub mod laws;
pub mod profile;
pub mod register;
pub mod status;

pub use cause::Cause;
pub use cp0::Cp0;
pub use exception::{Coprocessor, Exc};
pub use profile::{MOST_ENTRIES, Profile, ProfileNumbers};
pub use register::SystemRegister;
pub use status::Status;
