//! What may be printed of a machine behind its dump: the registers that the dump leaves out, the entries of the TLB, and bytes of memory.
//!
//! `push_extras` writes what `Extras` names, exactly as `specs/Extras.antt` has it (`extras_text`), of a machine that runs
//! (`runs::Runnable`): so what is printed is that of its state.
#![tactic(auto)]

pub mod extras;
mod memory;
mod registers;

pub use extras::{Extras, LONGEST_REGION, Region, push_extras};
