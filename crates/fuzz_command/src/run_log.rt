//! The log of a run.
ghost use Rattle.std.specs.Prelude.{◌≡◌, ◌≤◌, ◌++◌, IfOk, OnOk, length};
ghost use Rattle.items.specs.Entries.{steps_of};
ghost use Rattle.machine.specs.Step.{Machine};
ghost use Rattle.machine.specs.Items.{run as after_items};
ghost use Rattle.runs.specs.Runs.{after_run, after_steps};
ghost use Rattle.fuzz_command.specs.Jobs.{input_items};

use guest_log::{Log, Stop};
use items::{Item, SeatNo, What};
use runs::Ran;
use std::alloc::Global;

/// The greatest number of runs of the log: a byte of input is one, and so are the steps.
const LOG_RUNS: u32 = 1 << 20;

// Adds so many steps of the runner's seat to a log.
#[tactic(auto, using(crate::proofs::RunLogs::no_steps))]
fn add_steps(log: &mut Log, count: u32) -> Result<(), Stop>
    ensures { OnOk result (log.new.items ≡ log.old.items ++ steps_of 0 count) }
{
    if count == 0 {
        return Ok(());
    }
    log.make_room()?;
    if log.steps_with_room(SeatNo::runner(), count) < count {
        return Err(Stop::LogFull);
    }
    log.steps(SeatNo::runner(), count);
    Ok(())
}

// Adds input to a log: each byte an item of the runner's seat, in order.
fn add_input(log: &mut Log, bytes: &[u8]) -> Result<(), Stop>
    ensures { OnOk result (log.new.items ≡ log.old.items ++ input_items bytes.now) }
{
    for byte in bytes {
        log.make_item_room()?;
        log.add(Item {
            seat: SeatNo::runner(),
            what: What::In(*byte),
        });
    }
    Ok(())
}

/// The log of a run of an input: the steps that make the machine ready, the bytes that were taken, and then the steps, as items of the runner's
/// seat. From where a machine boots it leads to where the run has led to.
///
/// An error says that there was no memory for it, or that it would have too many items.
#[tactic(auto, using(crate::proofs::RunLogs::leads))]
pub(crate) fn log_of(alloc: Global, made: u32, input: &[u8], ran: Ran) -> Result<Log, Stop>
    requires { ran.taken ≤ length input.now }
    ensures { IfOk result (λ log. (m : Machine) → after_items log.items m ≡ after_run ran input.now (after_steps made m)) }
{
    let mut log = Log::new(alloc, LOG_RUNS);
    add_steps(&mut log, made)?;
    add_input(&mut log, &input[..ran.taken])?;
    add_steps(&mut log, ran.steps)?;
    Ok(log)
}
