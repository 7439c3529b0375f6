//! The lines of inputs that are run.
ghost use Rattle.std.specs.Prelude.{◌≡◌, ◌≢◌, ◌<◌, ◌++◌, ℕ, All, IfErr, IfOk, OnOk, is_some, length, slice_index_or, string_bytes, take};
ghost use Rattle.std.specs.Io.KnownBytes.{Appends};
ghost use Rattle.fuzz_command.specs.Faults.{IsTrialFault};
ghost use Rattle.fuzz_command.specs.Jobs.{AreAmong, AreJobs, BeginJobs, Hands, HasRun, IsOver, IsReusable, handed_over, job_input, job_name, known_by};
ghost use Rattle.fuzz_command.specs.Settings as settings;
ghost use Rattle.fuzz_command.specs.Settings.{CanRun, setting_of};
ghost use Rattle.fuzz_command.specs.Writing.{Begins, Writes, WritesLine};

use crate::fault::FuzzFault;
use crate::job::{Job, Outcome, RunResult};
use crate::jobs::Jobs;
use crate::records::Keeper;
use crate::running::run_jobs;
use crate::setting::Setting;
use reset_machine::ResetMachine;
use std::alloc::Global;
use std::io::Write;
use std::thread::Threads;

// Hands over what the run of an input gave, and writes its line through, so that it can be seen. The answer is whether the guest stopped.
fn write_result<'a, K: Keeper, O: Write>(
    number: usize,
    name: &str,
    done: &RunResult,
    keeper: &mut K,
    out: &mut O,
) -> Result<bool, FuzzFault<'a>>
    ensures text { OnOk result (Appends (O.contents out.old) (O.contents out.new) (string_bytes done.now.text)) }
    ensures stops { IfOk result (λ stopped. stopped ≡ is_some done.now.ran.stop) }
    ensures faults { IfErr result (λ fault. fault ≡ FuzzFault.Output) }
{
    keeper.keep(number, name, done);
    if out.write_all(done.text.as_bytes()).is_err() || out.flush().is_err() {
        return Err(FuzzFault::Output);
    }
    Ok(done.ran.stop.is_some())
}

// The same of an input that is run.
fn write_job<'a, K: Keeper, O: Write>(
    job: &Job,
    keeper: &mut K,
    out: &mut O,
) -> Result<bool, FuzzFault<'a>>
    requires { IsOver job.now.outcome }
    ensures line { (s : settings.Setting) → HasRun s job.now → IfOk result (λ stopped. WritesLine s (job_name job.now) (job_input job.now) (O.contents out.old) (O.contents out.new) stopped) }
    ensures unwritten { IfErr result (λ fault. fault ≢ FuzzFault.Output → out.new ≡ out.old) }
    ensures faults { IfErr result IsTrialFault }
{
    match &job.outcome {
        Outcome::Done(done) => write_result(job.number, &job.name, done, keeper, out),
        Outcome::Refused(want) => Err(FuzzFault::Command(want.fault())),
        Outcome::Waiting => unreachable!(),
    }
}

// Writes the lines of inputs that are run, in order. The answer is whether a guest stopped.
fn write_jobs<'a, K: Keeper, O: Write>(
    jobs: &[Job],
    keeper: &mut K,
    out: &mut O,
) -> Result<bool, FuzzFault<'a>>
    requires { All (λ (job : _). IsOver job.outcome) jobs.now }
    ensures lines { (s : settings.Setting) → All (HasRun s) jobs.now → IfOk result (λ stopped. Writes s (AreJobs jobs.now) (O.contents out.old) (O.contents out.new) stopped) }
    ensures begun { (s : settings.Setting) → All (HasRun s) jobs.now → IfErr result (λ fault. fault ≢ FuzzFault.Output → Begins s (BeginJobs jobs.now) (O.contents out.old) (O.contents out.new)) }
    ensures faults { IfErr result IsTrialFault }
{
    let mut stopped = false;
    for job in jobs {
        let stops = write_job(job, keeper, out)?;
        if stops {
            stopped = true;
        }
    }
    Ok(stopped)
}

// Runs inputs, and then writes their lines, as `try_jobs` does.
fn run_and_write<'a, R: Threads + Sync, K: Keeper, O: Write>(
    rt: &R,
    alloc: Global,
    setting: &Setting<'_>,
    at_once: &Jobs,
    machine: &mut Option<ResetMachine>,
    jobs: &mut [Job],
    keeper: &mut K,
    out: &mut O,
) -> Result<bool, FuzzFault<'a>>
    requires can { CanRun setting.now }
    requires reusable { IsReusable (setting_of setting.now) machine.old }
    ensures lines { IfOk result (λ stopped. Writes (setting_of setting.now) (AreJobs jobs.old) (O.contents out.old) (O.contents out.new) stopped) }
    ensures begun { IfErr result (λ fault. fault ≢ FuzzFault.Output → Begins (setting_of setting.now) (BeginJobs jobs.old) (O.contents out.old) (O.contents out.new)) }
    ensures handed { (index : ℕ) (d : _) → index < length jobs.old → Hands (setting_of setting.now) (known_by machine.old ++ handed_over (take index jobs.new)) (slice_index_or jobs.new index d) }
    ensures known { AreAmong (known_by machine.new) (known_by machine.old ++ handed_over jobs.new) }
    ensures reusable { IsReusable (setting_of setting.now) machine.new }
    ensures faults { IfErr result IsTrialFault }
{
    let used = machine.take();
    *machine = run_jobs(rt, alloc, setting, at_once, used, jobs);
    write_jobs(jobs, keeper, out)
}

/// Runs inputs, as many at once as there are jobs, and then writes their lines, in order. The answer is whether a guest stopped. `machine` is the one
/// that the last inputs were run on, if there is one, and is the one for the next.
///
/// An error is that of the first input that has one: `Command` where memory was refused, and `Output` where a line could not be written. Where it
/// isn't the last, the lines of the inputs before stand.
pub(crate) fn try_jobs<'a, R: Threads + Sync, K: Keeper, O: Write>(
    rt: &R,
    alloc: Global,
    setting: &Setting<'_>,
    at_once: &Jobs,
    machine: &mut Option<ResetMachine>,
    mut jobs: Vec<Job>,
    keeper: &mut K,
    out: &mut O,
) -> Result<bool, FuzzFault<'a>>
    requires can { CanRun setting.now }
    requires reusable { IsReusable (setting_of setting.now) machine.old }
    ensures lines { IfOk result (λ stopped. Writes (setting_of setting.now) (AreJobs jobs.items) (O.contents out.old) (O.contents out.new) stopped) }
    ensures begun { IfErr result (λ fault. fault ≢ FuzzFault.Output → Begins (setting_of setting.now) (BeginJobs jobs.items) (O.contents out.old) (O.contents out.new)) }
    ensures reusable { IsReusable (setting_of setting.now) machine.new }
    ensures faults { IfErr result IsTrialFault }
{
    run_and_write(
        rt,
        alloc,
        setting,
        at_once,
        machine,
        jobs.as_mut_slice(),
        keeper,
        out,
    )
}
