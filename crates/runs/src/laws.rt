//! Laws of the definitions.
ghost use Rattle.std.specs.Prelude.{◌≡◌, ◌⊎◌, ℕ, ◌+◌, ◌*◌, true, false};
ghost use Rattle.mips_cp0.specs.Bits.{has_bits};
ghost use Rattle.mips_cp0.specs.Status.{status_exl};
ghost use Rattle.mips_cp0.specs.declared.exception.Exc.{Exc};
ghost use Rattle.mips_instr.specs.Targets.{slot_address};
ghost use Rattle.machine.specs.Processor.{clocked, excepted};
ghost use Rattle.machine.specs.Board.{Board};
ghost use Rattle.machine.specs.Step.{Machine, machine_with, step};
ghost use Rattle.runs.specs.Entries.{has_entered};
ghost use Rattle.runs.specs.Loops.{at_branch, in_its_slot, is_loop};
ghost use Rattle.runs.specs.Runs.{after_steps};

/// A law: a machine in a loop stays there for ever, whatever the number of steps. After an even number it is as it was, and after an odd
/// number it stands in the delay slot, with nothing changed but Count, Random and the timer's bit of Cause.

pub fn a_loop_is_for_ever()
    ensures even { (m : Machine) (k : ℕ) → is_loop m ≡ true → after_steps (k + k) m ≡ at_branch (k + k) m }
    ensures odd { (m : Machine) (k : ℕ) → is_loop m ≡ true → after_steps (k + k + 1) m ≡ in_its_slot (k + k + 1) m }
    ensures pc { (m : Machine) (k : ℕ) → is_loop m ≡ true → ((after_steps k m).cpu.pc ≡ m.cpu.pc) ⊎ ((after_steps k m).cpu.pc ≡ slot_address m.cpu.pc) }
{}

/// A law: a step that enters an exception while EXL is clear is seen.
#[tactic(auto, using(crate::proofs::Entered::entry_seen))]
pub fn each_first_exception_is_seen()
    ensures { (m : Machine) (e : Exc) (board : Board) → has_bits status_exl m.cpu.cp0.status ≡ false
        → step m ≡ machine_with (excepted e (clocked m.cpu)) board → has_entered m (step m) ≡ true }
{}
