//! What a run goes past that is to end at the first state of some kinds.
ghost use Rattle.std.specs.Prelude.{◌≡◌, ◌/◌, ◌&&◌};
ghost use Rattle.runs.specs.Coverage.{is_reached};
ghost use Rattle.reset_machine.specs.Past as spec;

use crate::Cover;
use machine::PhysAddr;
use mips_fast::Filter;
use mips_instr::{Instr, branch_target_of, jump_target_of};
use runs::Until;

/// Admits the instructions that a run goes past which is to end at the first state of some kinds: a run of those alone comes to no loop
/// and no address that it is to end at.
#[derive(Clone, Copy)]
pub struct Passing<'a> {
    until: &'a Until,
}

impl Passing<'_> {
    /// Of a run that is to end at the first of these states.
    pub fn new(until: &Until) -> Passing<'_>
        ensures { result.until.now ≡ until.now }
    {
        Passing { until }
    }
}

impl Filter for Passing<'_> {
    ghost admits = { λ filter pc at instr. spec.goes_past filter.until.now pc at instr };

    fn is_admitted(&self, pc: u32, _at: PhysAddr, instr: Instr) -> bool {
        !(self.until.loops && targets_itself(pc, instr)) && !self.until.has_address(pc)
    }
}

/// Admits the instructions that another filter does, of the words that are reached.
#[derive(Clone, Copy)]
pub(crate) struct Reached<'a, F> {
    cover: &'a Cover,
    filter: &'a F,
}

impl<'a, F> Reached<'a, F> {
    /// Of these words, and with this filter.
    pub(crate) fn new(cover: &'a Cover, filter: &'a F) -> Reached<'a, F>
        ensures cover { result.cover.now ≡ cover.now }
        ensures filter { result.filter.now ≡ filter.now }
    {
        Reached { cover, filter }
    }
}

impl<F: Filter> Filter for Reached<'_, F> {
    ghost admits = { λ filter pc at instr. is_reached (at / 4) filter.cover.now.reached && F.admits filter.filter.now pc at instr };

    fn is_admitted(&self, pc: u32, at: PhysAddr, instr: Instr) -> bool {
        self.cover.has(at) && self.filter.is_admitted(pc, at, instr)
    }
}

/// Whether the target of a branch or jump at an address is that address.
fn targets_itself(pc: u32, instr: Instr) -> bool
    ensures { result ≡ spec.targets_itself pc instr }
{
    match instr {
        Instr::Branch { offset, .. } | Instr::BranchZero { offset, .. } => {
            branch_target_of(pc, offset) == pc
        }
        Instr::Jump { target, .. } => jump_target_of(pc, target) == pc,
        _ => false,
    }
}
