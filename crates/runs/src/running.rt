//! A run: the console input, and then steps.
ghost use Rattle.std.specs.Prelude.{◌≡◌, ℕ, ◌+◌, ◌<◌, ◌≤◌, None, length, take, IfSome};
ghost use Rattle.runs.specs.Coverage.{covered};
ghost use Rattle.runs.specs.Endings.{IsFirst, ending_after};
ghost use Rattle.runs.specs.Runs.{after_run, after_steps, fed, IsCount};

use crate::ending::{state_ending, step_ending};
use crate::feeding::feed_all;
use crate::{Ending, Runnable, Until, Watch};
use guest_log::Stop;

/// After how many steps at most a run that looks for no state tells how far it is: a piece takes some hundredths of a second.
const PIECE: u32 = 1 << 24;

/// After how many steps at least a run that looks for states does.
const LOOKS: u32 = 1 << 16;

/// How a run went.
#[derive(Clone, Copy, Debug, PartialEq, Eq)]
pub struct Ran {
    /// How many bytes of console input were taken before the first step.
    pub taken: usize,
    /// How many steps were made.
    pub steps: u32,
    /// Why no more were made, where the machine stopped before the last.
    pub stop: Option<Stop>,
    /// Which state the run was to end at it ended at, if it did.
    pub ending: Option<Ending>,
}

/// Takes the console input, and makes `steps` steps, or fewer where the machine stops before or comes to a state that the run is to end at.
/// No state before the last was one of those, the machine's before the first step among them. `watch` is told now and then how many steps
/// are made, and at the end that the run is over.
pub fn run<M: Runnable, W: Watch>(
    machine: &mut M,
    input: &[u8],
    steps: u32,
    until: &Until,
    watch: &mut W,
) -> Ran
    requires { length (M.state machine.old).board.devices.console.input + length input.now ≤ 256 }
    ensures count { IsCount input.now steps result }
    ensures state { M.state machine.new ≡ after_run result input.now (M.state machine.old) }
    ensures first { IsFirst until.now (fed (take result.taken input.now) (M.state machine.old)) result }
    ensures kept { M.kept machine.new ≡ M.kept machine.old }
    ensures covered { M.coverage machine.new ≡ covered result.steps (fed (take result.taken input.now) (M.state machine.old)) (M.coverage machine.old) }
    ensures reason { IfSome result.stop (M.may_stop machine.new) }
{
    let ran = match feed_all(machine, input) {
        (taken, Some(stop)) => Ran {
            taken,
            steps: 0,
            stop: Some(stop),
            ending: None,
        },
        (taken, None) if until.is_never() => make_all(machine, taken, steps, watch),
        (taken, None) => make_until(machine, taken, steps, until, watch),
    };
    watch.over();
    ran
}

/// Makes `count` steps, or fewer where the machine stops before.
pub(crate) fn make_all<M: Runnable, W: Watch>(
    machine: &mut M,
    taken: usize,
    count: u32,
    watch: &mut W,
) -> Ran
    ensures taken { result.taken ≡ taken }
    ensures made { result.steps ≤ count }
    ensures all { result.stop ≡ None → result.steps ≡ count }
    ensures state { M.state machine.new ≡ after_steps result.steps (M.state machine.old) }
    ensures nowhere { result.ending ≡ None }
    ensures kept { M.kept machine.new ≡ M.kept machine.old }
    ensures covered { M.coverage machine.new ≡ covered result.steps (M.state machine.old) (M.coverage machine.old) }
    ensures reason { IfSome result.stop (M.may_stop machine.new) }
{
    let mut made: u32 = 0;
    while made < count {
        let (steps, stop) = machine.steps((count - made).min(PIECE));
        made += steps;
        if stop.is_some() {
            return Ran {
                taken,
                steps: made,
                stop,
                ending: None,
            };
        }
        watch.made(made);
    }
    Ran {
        taken,
        steps: made,
        stop: None,
        ending: None,
    }
}

/// Makes `count` steps, or fewer where the machine stops before or comes to a state that the run is to end at. The machine is looked at before
/// the first step, and then after each, but for those states that `Runnable::steps_past` goes past.
fn make_until<M: Runnable, W: Watch>(
    machine: &mut M,
    taken: usize,
    count: u32,
    until: &Until,
    watch: &mut W,
) -> Ran
    ensures taken { result.taken ≡ taken }
    ensures made { result.steps ≤ count }
    ensures all { result.stop ≡ None → result.ending ≡ None → result.steps ≡ count }
    ensures state { M.state machine.new ≡ after_steps result.steps (M.state machine.old) }
    ensures first { IsFirst until.now (M.state machine.old) result }
    ensures kept { M.kept machine.new ≡ M.kept machine.old }
    ensures covered { M.coverage machine.new ≡ covered result.steps (M.state machine.old) (M.coverage machine.old) }
    ensures reason { IfSome result.stop (M.may_stop machine.new) }
{
    let mut made: u32 = 0;
    let mut told = 0;
    let mut ending = state_ending(machine, until);
    while made < count && ending.is_none() {
        let piece = next_states(machine, count - made, until);
        made += piece.steps;
        ending = piece.ending;
        if piece.stop.is_some() {
            return Ran {
                taken,
                steps: made,
                stop: piece.stop,
                ending: None,
            };
        }
        if made / LOOKS != told {
            told = made / LOOKS;
            watch.made(made);
        }
    }
    Ran {
        taken,
        steps: made,
        stop: None,
        ending,
    }
}

/// How a piece of a run went that is to end at the first state of some kinds.
#[derive(Clone, Copy)]
struct Piece {
    /// How many steps were made.
    steps: u32,
    /// Why the machine stopped, if it did.
    stop: Option<Stop>,
    /// Whether and why the run ends at the state that it has come to.
    ending: Option<Ending>,
}

/// Makes steps, at least one and at most `count`, from a state that the run doesn't end at: those that go past states, and one more where the
/// run doesn't end there. No state between is one that it ends at.
fn next_states<M: Runnable>(machine: &mut M, count: u32, until: &Until) -> Piece
    requires some { 0 < count }
    ensures few { result.steps ≤ count }
    ensures some { result.stop ≡ None → 0 < result.steps }
    ensures state { M.state machine.new ≡ after_steps result.steps (M.state machine.old) }
    ensures none_before { (k : ℕ) → 0 < k → k < result.steps → ending_after until.now (M.state machine.old) k ≡ None }
    ensures there { result.stop ≡ None → result.ending ≡ ending_after until.now (M.state machine.old) result.steps }
    ensures stopped { IfSome result.stop (λ why. result.ending ≡ None) }
    ensures kept { M.kept machine.new ≡ M.kept machine.old }
    ensures covered { M.coverage machine.new ≡ covered result.steps (M.state machine.old) (M.coverage machine.old) }
    ensures reason { IfSome result.stop (M.may_stop machine.new) }
{
    let past = machine.steps_past(count, until);
    if past == 0 {
        return next_state(machine, until);
    }
    let ending = state_ending(machine, until);
    if past == count || ending.is_some() {
        return Piece {
            steps: past,
            stop: None,
            ending,
        };
    }
    let next = next_state(machine, until);
    Piece {
        steps: past + next.steps,
        stop: next.stop,
        ending: next.ending,
    }
}

/// `next_states` of one step.
fn next_state<M: Runnable>(machine: &mut M, until: &Until) -> Piece
    ensures few { result.steps ≤ 1 }
    ensures one { result.stop ≡ None → result.steps ≡ 1 }
    ensures state { M.state machine.new ≡ after_steps result.steps (M.state machine.old) }
    ensures there { result.stop ≡ None → result.ending ≡ ending_after until.now (M.state machine.old) 1 }
    ensures stopped { IfSome result.stop (λ why. (result.steps ≡ 0) × (result.ending ≡ None)) }
    ensures kept { M.kept machine.new ≡ M.kept machine.old }
    ensures covered { M.coverage machine.new ≡ covered result.steps (M.state machine.old) (M.coverage machine.old) }
    ensures reason { IfSome result.stop (M.may_stop machine.new) }
{
    let before = machine.view().cpu.cp0().status();
    let (steps, stop) = machine.steps(1);
    if stop.is_some() {
        Piece {
            steps,
            stop,
            ending: None,
        }
    } else {
        Piece {
            steps,
            stop: None,
            ending: step_ending(machine, until, before),
        }
    }
}
