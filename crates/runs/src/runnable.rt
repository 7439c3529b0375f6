//! Machines that make steps.
ghost use Rattle.std.specs.Prelude.{◌≡◌, ℕ, ◌<◌, ◌≤◌, None, Some, length, IfErr, IfSome, OnOk, OnErr};
ghost use Rattle.items.specs.declared.item.What.TheVariants.{In};
ghost use Rattle.machine.specs.Step.{Machine as State};
ghost use Rattle.machine.specs.Items.{after};
ghost use Rattle.machine.specs.Replies.{bytes_at};
ghost use Rattle.guest_log.specs.declared.stop.Stop.{Stop};
ghost use Rattle.runs.specs.Coverage.{CoverageIs, covered};
ghost use Rattle.runs.specs.Endings.{IsPassed};
ghost use Rattle.runs.specs.Runs.{after_steps};

use crate::Until;
use guest_log::Stop;
use mips_step::View;

/// One of the bytes that were to be read has no place in memory.
#[derive(Clone, Copy, Debug, PartialEq, Eq)]
pub struct NoPlace;

/// A machine that makes steps.
pub trait Runnable {
    /// Its processor and its memory.
    ghost state: { Self → State };

    /// For which reason it may stop.
    ghost may_stop: { Self → Stop → Type 0 };

    /// What no call changes, as a type whose values clauses compare.
    type Kept;

    /// What no call changes: whatever its owner has to find again after a run.
    ghost kept: { Self → Self.Kept };

    /// Its coverage: the words of memory that PC led to before its steps, if it keeps that.
    ghost coverage: { Self → CoverageIs };

    /// Makes `count` steps, or fewer where it stops before: how many, and why no more.
    fn steps(&mut self, count: u32) -> (u32, Option<Stop>)
        ensures few { result.0 ≤ count }
        ensures all { result.1 ≡ None → result.0 ≡ count }
        ensures fewer { IfSome result.1 (λ stop. result.0 < count) }
        ensures state { state self.new ≡ after_steps result.0 (state self.old) }
        ensures kept { kept self.new ≡ kept self.old }
        ensures covered { coverage self.new ≡ covered result.0 (state self.old) (coverage self.old) }
        ensures reason { IfSome result.1 (may_stop self.new) };

    /// Makes steps, at most `count`, for a run that is to end at the first state of some kinds, and answers how many: it goes past each
    /// state that it makes one from. It may end anywhere, and may well answer 0; a machine that can't tell such states while it makes many
    /// steps at once makes none.
    fn steps_past(&mut self, count: u32, _until: &Until) -> u32
        ensures few { result ≤ count }
        ensures state { state self.new ≡ after_steps result (state self.old) }
        ensures passed { (k : ℕ) → k < result → IsPassed _until.now (after_steps k (state self.old)) }
        ensures kept { kept self.new ≡ kept self.old }
        ensures covered { coverage self.new ≡ covered result (state self.old) (coverage self.old) }
    {
        0
    }

    /// Takes a byte of console input, for which the console has room, or says why it stops; then the state is as before.
    fn feed(&mut self, byte: u8) -> Result<(), Stop>
        requires { length (state self.old).board.devices.console.input < 256 }
        ensures fed { OnOk result (state self.new ≡ after (In byte) (state self.old)) }
        ensures stopped { OnErr result (state self.new ≡ state self.old) }
        ensures kept { kept self.new ≡ kept self.old }
        ensures covered { coverage self.new ≡ coverage self.old }
        ensures reason { IfErr result (may_stop self.new) };

    /// What is seen of it beside its memory.
    fn view(&self) -> View<'_>
        ensures cpu { result.cpu.now ≡ (state self.now).cpu }
        ensures devices { result.devices.now ≡ (state self.now).board.devices };

    /// Reads as many bytes as there is room for, from a virtual address on, as a debugger does: byte k at that address + k modulo 2^32,
    /// where a load of kernel mode leads. An error says that one of them has no place in memory.
    fn read(&self, address: u32, bytes: &mut [u8]) -> Result<(), NoPlace>
        ensures read { OnOk result (bytes_at (state self.now) address (length bytes.old) ≡ Some bytes.new) }
        ensures no_place { OnErr result (bytes_at (state self.now) address (length bytes.old) ≡ None) }
        ensures length { length bytes.new ≡ length bytes.old };
}
