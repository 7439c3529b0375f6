//! The states that a run is to end at.
ghost use Rattle.std.specs.Prelude.{◌≡◌, ◌↔◌, true};
ghost use Rattle.machine.specs.Step.{Machine};
ghost use Rattle.runs.specs.Endings as spec;
ghost use Rattle.runs.specs.Endings.{IsNever};

use crate::Runnable;
use crate::entry::has_entered;
use crate::looping::is_loop;
use std::fmt::{self, Display, Formatter};

/// The kinds of states that a run is to end at, the first that it comes to.
#[derive(Debug, Drop)]
pub struct Until {
    /// A branch or jump to itself, with a NOP in its delay slot, while no interrupt comes: the machine stays there for ever.
    pub loops: bool,
    /// A state at which a step has entered an exception: EXL was clear before it and is set after it, and PC stands at a handler.
    pub exceptions: bool,
    /// A state at which PC is one of these.
    pub addresses: Vec<u32>,
}

impl Until {
    /// Whether no state is one of them.
    pub fn is_never(&self) -> bool
        ensures { (result ≡ true) ↔ IsNever self.now }
    {
        !self.loops && !self.exceptions && self.addresses.is_empty()
    }

    /// Whether PC at this address is one of them.
    pub fn has_address(&self, pc: u32) -> bool
        ensures { result ≡ spec.has_address self.now pc }
    {
        self.addresses.contains(&pc)
    }
}

/// A state that a run ended at.
#[derive(Clone, Copy, Debug, PartialEq, Eq)]
pub enum Ending {
    /// A loop at this address, for ever.
    Loop(u32),
    /// An exception was entered: its code, 0 to 31, and the address in EPC.
    Exception(u32, u32),
    /// PC is this address.
    Address(u32),
}

/// A state that a run ends at, whatever was before it.
pub fn state_ending<M: Runnable>(machine: &M, until: &Until) -> Option<Ending>
    ensures { result ≡ spec.state_ending until.now (M.state machine.now) }
{
    let pc = machine.view().cpu.pc();
    if until.loops && is_loop(machine) {
        Some(Ending::Loop(pc))
    } else if until.has_address(pc) {
        Some(Ending::Address(pc))
    } else {
        None
    }
}

/// A state that a run ends at after one before it, at which Status was this.
pub fn step_ending<M: Runnable>(machine: &M, until: &Until, before: u32) -> Option<Ending>
    ensures { (was : Machine) → was.cpu.cp0.status ≡ before → result ≡ spec.step_ending until.now was (M.state machine.now) }
{
    let view = machine.view();
    if until.exceptions && has_entered(view.cpu, before) {
        let cp0 = view.cpu.cp0();
        Some(Ending::Exception(cp0.cause() / 4 % 32, cp0.epc()))
    } else {
        state_ending(machine, until)
    }
}
