//! A run once more.
ghost use Rattle.std.specs.Prelude.{◌≡◌, ℕ, ◌+◌, ◌≤◌, None, length, take, IfSome};
ghost use Rattle.runs.specs.declared.ending.Until.{Until};
ghost use Rattle.runs.specs.Coverage.{covered};
ghost use Rattle.runs.specs.Endings.{IsFirst};
ghost use Rattle.runs.specs.Runs.{after_run, fed, IsCount};

use crate::feeding::feed_all;
use crate::running::make_all;
use crate::{Nobody, Ran, Runnable};

/// Makes a run once more that a machine made to its end, with a machine that stands as that one stood: it takes the input and makes as many steps,
/// or fewer where it stops before, and looks at no state. So it ends where that one did, whichever states that was to end at.
pub fn run_again<M: Runnable>(machine: &mut M, input: &[u8], found: Ran) -> Ran
    requires room { length (M.state machine.old).board.devices.console.input + length input.now ≤ 256 }
    requires whole { found.stop ≡ None }
    ensures count { (steps : ℕ) → IsCount input.now steps found → IsCount input.now steps result }
    ensures state { M.state machine.new ≡ after_run result input.now (M.state machine.old) }
    ensures first { (until : Until) → IsFirst until (fed input.now (M.state machine.old)) found → IsFirst until (fed (take result.taken input.now) (M.state machine.old)) result }
    ensures kept { M.kept machine.new ≡ M.kept machine.old }
    ensures covered { M.coverage machine.new ≡ covered result.steps (fed (take result.taken input.now) (M.state machine.old)) (M.coverage machine.old) }
    ensures reason { IfSome result.stop (M.may_stop machine.new) }
{
    let (taken, refused) = feed_all(machine, input);
    if refused.is_some() {
        return Ran {
            taken,
            steps: 0,
            stop: refused,
            ending: None,
        };
    }
    let Ran { steps, stop, .. } = make_all(machine, taken, found.steps, &mut Nobody);
    let ending = if stop.is_some() { None } else { found.ending };
    Ran {
        taken,
        steps,
        stop,
        ending,
    }
}
