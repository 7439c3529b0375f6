//! One step of the processor over any bus that keeps the law of `machine::PhysBus`, and what a debugger reads and writes.
//!
//! What a step is stands in `machine`. The crates above use `Cpu` (in clauses a record, `Processor`) and `Cpu::step`: it answers `Done`
//! where the machine has moved by the definition, `Need` exactly where the bus lacks a page that the step would access, and then
//! nothing has changed. `Cpu::need` tells that beforehand, and `Cpu::poke` is a debugger's write of a register. `debug` reads and writes
//! bytes at virtual addresses, or tells the first page that is away and is wanted for that. A `View` is what is seen of a machine
//! beside its memory.
//!
//! For many steps at once (`mips_clockless`, `mips_fast`) there are the parts of a step: `Counter`, `Cpu::direct_place`, `Cpu::put_loaded` and `put_stored`,
//! `Cpu::advance_clock`, and in `meaning` the values of the instructions.
#![tactic(auto)]

pub mod cpu;
pub mod debug;
pub mod meaning;
mod operating;
mod sign;
pub mod stepping;
pub mod transfer;
pub mod view;

pub use cpu::{Counter, Cpu};
pub use debug::Unreached;
pub use view::View;
