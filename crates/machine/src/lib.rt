//! What the machine is: the definitions that every contract above cites, their laws, and the types that they speak of.
//!
//! A processor (`specs/Processor.antt`) and the memory and devices that it reaches (`specs/Board.antt`) make a machine. What each instruction does
//! stands in one table (`specs/Operations.antt`, by `Meaning.antt`), and a step in `specs/Step.antt`; where virtual addresses lead in
//! `specs/Places.antt`, the pages that a step accesses in `specs/Accesses.antt`, what it does to the given pages in `specs/Given.antt`.
//! `specs/Boot.antt` has the machine that an image boots, `specs/Items.antt` which items a machine accepts, what they do and the run of a list of
//! items, `specs/Replies.antt` where virtual addresses lead a debugger, `specs/Answers.antt` the bytes of a `Reply`.
//!
//! `PhysBus` is what a processor reaches memory and devices by, with its law. `step_laws` and `run_laws` say what holds of the definitions.
#![tactic(auto)]

pub mod access;
pub mod bus;
pub mod reply;
pub mod run_laws;
pub mod step_laws;

pub use access::{Refusal, Size, StepOut, Why};
pub use bus::PhysBus;
pub use mips_tlb::{Kind, PhysAddr};
pub use reply::{Rejection, Reply, WRITE_LIMIT};
pub use word32::Ppn;
