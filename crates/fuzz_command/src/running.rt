//! The runs of inputs.
ghost use Rattle.std.specs.Prelude.{◌≡◌, ◌≤◌, ◌<◌, ◌++◌, ℕ, [], IfOk, IfSome, None, Some, if◌then◌else◌, drop, length, slice_index_or, string_bytes, take};
ghost use Rattle.fuzz_command.specs.Jobs.{AreAmong, Hands, IsReadyMachine, IsReusable, IsRunOf, RunsAgain, but_for, handed, handed_over, known_by};
ghost use Rattle.fuzz_command.specs.Lines.{IsTrial, line_text, reached_in, run_text};
ghost use Rattle.fuzz_command.specs.Logs.{IsCrashLog, IsRunLog, is_exception};
ghost use Rattle.fuzz_command.specs.Settings.{CanRun, setting_of};

use crate::job::{CrashLog, Job, Outcome, RunResult, Want};
use crate::jobs::Jobs;
use crate::line::line_of;
use crate::run_log::log_of;
use crate::setting::Setting;
use commands::log_file::log_bytes;
use reset_machine::ResetMachine;
use runs::{Ending, Nobody, Ran, run};
use std::alloc::{AllocError, Global};
use std::thread::{Threads, for_each_chunk_mut};

// Whether a run ended in an exception.
fn ends_in_exception(ran: Ran) -> bool
    ensures { result ≡ is_exception ran.ending }
{
    matches!(ran.ending, Some(Ending::Exception(_, _)))
}

// The bytes of the file of the log of a run of an input, of an image of this digest; none where there is no memory for them.
fn file_of(
    alloc: Global,
    setting: &Setting<'_>,
    digest: &[u8; 32],
    input: &[u8],
    ran: Ran,
) -> Option<Vec<u8>>
    requires { ran.taken ≤ length input.now }
    ensures { IfSome result (λ bytes. IsRunLog setting.now digest.now input.now ran bytes.items) }
{
    let log = log_of(alloc, setting.made, input, ran).ok()?;
    log_bytes(alloc, &log, setting.profile, setting.pages, digest).ok()
}

// The log of a run of an input, where such logs are kept: of one that ended in an exception.
fn crash_log(alloc: Global, setting: &Setting<'_>, input: &[u8], ran: Ran) -> CrashLog
    requires { ran.taken ≤ length input.now }
    ensures { IsCrashLog setting.now input.now ran result }
{
    let Some(digest) = &setting.logs else {
        return CrashLog::Unwanted;
    };
    if !ends_in_exception(ran) {
        return CrashLog::Unwanted;
    }
    match file_of(alloc, setting, digest, input, ran) {
        Some(bytes) => CrashLog::File(bytes),
        None => CrashLog::Lost,
    }
}

// A machine that is ready: where there is one that has run inputs before, it goes back. Where the words that each run reaches are not shown it
// knows those of the runs before, so that it makes steps from them many at a time.
#[tactic(auto, using(crate::proofs::Handing::among_is, crate::proofs::Handing::among_same, crate::proofs::Handing::none_among))]
fn ready_machine(
    alloc: Global,
    setting: &Setting<'_>,
    used: Option<ResetMachine>,
) -> Result<ResetMachine, AllocError>
    requires reusable { IsReusable (setting_of setting.now) used }
    ensures ready { IfOk result (IsReadyMachine (setting_of setting.now)) }
    ensures known { IfOk result (λ m. AreAmong m.coverage.reached (known_by used)) }
{
    match used {
        Some(mut machine) => {
            machine.reset()?;
            if setting.reached {
                machine.forget_reached();
            }
            Ok(machine)
        }
        None => new_machine(alloc, setting),
    }
}

// A machine that is ready and has run no input before.
fn new_machine(alloc: Global, setting: &Setting<'_>) -> Result<ResetMachine, AllocError>
    ensures ready { IfOk result (IsReadyMachine (setting_of setting.now)) }
    ensures known { IfOk result (λ m. m.coverage.reached ≡ []) }
{
    let home = setting.home.clone()?;
    if setting.covers {
        ResetMachine::with_coverage(alloc, home)
    } else {
        ResetMachine::new(alloc, home)
    }
}

// The line of a run of this name, after which the machine is this.
fn line_after(
    alloc: Global,
    setting: &Setting<'_>,
    name: &str,
    ran: Ran,
    machine: &ResetMachine,
) -> Result<String, AllocError>
    ensures { IfOk result (λ text. string_bytes text ≡ run_text setting.now.shown name.now ran machine.now.machine.board.devices.console.output
        (if setting.now.reached then Some machine.now.coverage.reached else None)) }
{
    let reached = if setting.reached {
        Some(machine.reached())
    } else {
        None
    };
    line_of(alloc, setting.shown, name, ran, machine, reached)
}

// The words that a machine has reached, but for so many first ones.
fn words_behind(alloc: Global, machine: &ResetMachine, known: usize) -> Result<Vec<u32>, AllocError>
    requires { known ≤ length machine.now.coverage.reached }
    ensures { IfOk result (λ words. words.items ≡ drop known machine.now.coverage.reached) }
{
    machine.reached()[known..].to_vec(alloc)
}

// Runs an input on a machine that is ready.
fn run_input(
    alloc: Global,
    setting: &Setting<'_>,
    name: &str,
    input: &[u8],
    machine: &mut ResetMachine,
) -> Result<RunResult, AllocError>
    requires can { CanRun setting.now }
    requires few { length input.now ≤ 256 }
    requires machine { IsReadyMachine (setting_of setting.now) machine.old }
    ensures trial { IfOk result (λ done. IsTrial (setting_of setting.now) (record { name = name.now; input = input.now; ran = done.ran })) }
    ensures text { IfOk result (λ done. string_bytes done.text ≡ line_text (setting_of setting.now) (record { name = name.now; input = input.now; ran = done.ran })) }
    ensures log { IfOk result (λ done. IsCrashLog setting.now input.now done.ran done.log) }
    ensures reached { let known = machine.old.coverage.reached in
        IfOk result (λ done. done.reached.items ≡ but_for known (reached_in (setting_of setting.now) (record { name = name.now; input = input.now; ran = done.ran }))) }
    ensures known { IfOk result (λ done. machine.new.coverage.reached ≡ machine.old.coverage.reached ++ done.reached.items) }
    ensures again { RunsAgain (setting_of setting.now) machine.new }
{
    let known = machine.reached().len();
    let ran = run(machine, input, setting.steps, setting.until, &mut Nobody);
    let log = crash_log(alloc, setting, input, ran);
    let text = line_after(alloc, setting, name, ran, machine)?;
    let reached = words_behind(alloc, machine, known)?;
    Ok(RunResult {
        text,
        ran,
        log,
        reached,
    })
}

// Runs an input on a machine that is ready, which comes back for the next one, but where memory was refused.
#[tactic(auto, using(crate::proofs::Handing::among_is, crate::proofs::Handing::none_among, crate::proofs::Handing::hands_over))]
fn run_on(
    alloc: Global,
    setting: &Setting<'_>,
    mut machine: ResetMachine,
    job: &mut Job,
) -> Option<ResetMachine>
    requires can { CanRun setting.now }
    requires machine { IsReadyMachine (setting_of setting.now) machine }
    ensures run { IsRunOf (setting_of setting.now) job.old job.new }
    ensures handed { Hands (setting_of setting.now) machine.coverage.reached job.new }
    ensures known { AreAmong (known_by result) (machine.coverage.reached ++ handed job.new) }
    ensures reusable { IsReusable (setting_of setting.now) result }
{
    match run_input(
        alloc,
        setting,
        &job.name,
        job.input.as_slice(),
        &mut machine,
    ) {
        Ok(done) => {
            job.outcome = Outcome::Done(done);
            Some(machine)
        }
        Err(_) => {
            job.outcome = Outcome::Refused(Want::Memory);
            None
        }
    }
}

// Runs an input on the machine that has run others before, if there is one, which comes back for the next one, but where memory was refused.
#[tactic(auto, using(crate::proofs::Handing::wider, crate::proofs::Handing::none_among))]
fn run_job(
    alloc: Global,
    setting: &Setting<'_>,
    used: Option<ResetMachine>,
    job: &mut Job,
) -> Option<ResetMachine>
    requires can { CanRun setting.now }
    requires reusable { IsReusable (setting_of setting.now) used }
    ensures run { IsRunOf (setting_of setting.now) job.old job.new }
    ensures handed { Hands (setting_of setting.now) (known_by used) job.new }
    ensures known { AreAmong (known_by result) (known_by used ++ handed job.new) }
    ensures reusable { IsReusable (setting_of setting.now) result }
{
    match ready_machine(alloc, setting, used) {
        Ok(machine) => run_on(alloc, setting, machine, job),
        Err(_) => {
            job.outcome = Outcome::Refused(Want::Boot);
            None
        }
    }
}

// Runs inputs, one after another, on one machine, which comes back for the next ones.
fn run_share(
    alloc: Global,
    setting: &Setting<'_>,
    used: Option<ResetMachine>,
    share: &mut [Job],
) -> Option<ResetMachine>
    requires can { CanRun setting.now }
    requires reusable { IsReusable (setting_of setting.now) used }
    ensures count { length share.new ≡ length share.old }
    ensures run { (index : ℕ) (d : _) → index < length share.old → IsRunOf (setting_of setting.now) (slice_index_or share.old index d) (slice_index_or share.new index d) }
    ensures handed { (index : ℕ) (d : _) → index < length share.old → Hands (setting_of setting.now) (known_by used ++ handed_over (take index share.new)) (slice_index_or share.new index d) }
    ensures known { AreAmong (known_by result) (known_by used ++ handed_over share.new) }
    ensures reusable { IsReusable (setting_of setting.now) result }
{
    let mut machine = used;
    for index in 0..share.len() {
        machine = run_job(alloc, setting, machine, &mut share[index]);
    }
    machine
}

/// Runs inputs, as many at once as there are jobs, each thread on a machine of its own. With one job that is the machine `used`, if there is
/// one, and it comes back for the next inputs.
pub(crate) fn run_jobs<R: Threads + Sync>(
    rt: &R,
    alloc: Global,
    setting: &Setting<'_>,
    at_once: &Jobs,
    used: Option<ResetMachine>,
    jobs: &mut [Job],
) -> Option<ResetMachine>
    requires can { CanRun setting.now }
    requires reusable { IsReusable (setting_of setting.now) used }
    ensures count { length jobs.new ≡ length jobs.old }
    ensures run { (index : ℕ) (d : _) → index < length jobs.old → IsRunOf (setting_of setting.now) (slice_index_or jobs.old index d) (slice_index_or jobs.new index d) }
    ensures handed { (index : ℕ) (d : _) → index < length jobs.old → Hands (setting_of setting.now) (known_by used ++ handed_over (take index jobs.new)) (slice_index_or jobs.new index d) }
    ensures known { AreAmong (known_by result) (known_by used ++ handed_over jobs.new) }
    ensures reusable { IsReusable (setting_of setting.now) result }
{
    let threads = at_once.threads();
    if threads == 1 {
        return run_share(alloc, setting, used, jobs);
    }
    let run = |_start: usize, share: &mut [Job]|
        requires { CanRun setting.now }
        ensures run { (index : ℕ) (d : _) → index < length share.entry.now → IsRunOf (setting_of setting.entry.now) (slice_index_or share.entry.now index d) (slice_index_or share.exit.now index d) }
        ensures handed { (index : ℕ) (d : _) → index < length share.entry.now → Hands (setting_of setting.entry.now) (handed_over (take index share.exit.now)) (slice_index_or share.exit.now index d) }
    { run_alone(alloc, setting, share) };
    for_each_chunk_mut(rt, jobs, share_of(jobs.len(), threads), &run);
    used
}

// Runs inputs, one after another, on a machine of their own.
fn run_alone(alloc: Global, setting: &Setting<'_>, share: &mut [Job])
    requires can { CanRun setting.now }
    ensures count { length share.new ≡ length share.old }
    ensures run { (index : ℕ) (d : _) → index < length share.old → IsRunOf (setting_of setting.now) (slice_index_or share.old index d) (slice_index_or share.new index d) }
    ensures handed { (index : ℕ) (d : _) → index < length share.old → Hands (setting_of setting.now) (handed_over (take index share.new)) (slice_index_or share.new index d) }
{
    let machine = run_share(alloc, setting, None, share);
    drop(machine);
}

// How many of so many inputs each of so many threads runs at most.
fn share_of(inputs: usize, threads: usize) -> usize
    requires { 0 < threads }
    ensures { 0 < result }
{
    inputs.div_ceil(threads).max(1)
}
