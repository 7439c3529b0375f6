//! Inputs that are the lines of what is read.
ghost use Rattle.std.specs.Prelude.{◌≡◌, ◌≢◌, ◌+◌, ◌++◌, ◌∷◌, ℕ, [], length, Some, None, IfErr, IfOk, IfSome, IsErrOf};
ghost use Rattle.std.specs.Io.BufRead.{strip_last};
ghost use Rattle.std.specs.Io.KnownBytes.{IsAtEnd};
ghost use Rattle.commands.specs.declared.fault.Fault.{Fault};
ghost use Rattle.fuzz_command.specs.declared.fault.FuzzFault.{FuzzFault};
ghost use Rattle.fuzz_command.specs.declared.job.Then.{Then};
ghost use Rattle.fuzz_command.specs.Faults.{IsLinesFault, IsReadFault};
ghost use Rattle.fuzz_command.specs.Inputs as spec;
ghost use Rattle.fuzz_command.specs.Inputs.{AreBefore, AreInputs, BeginInputs, IsNext, IsNoLine};
ghost use Rattle.fuzz_command.specs.Jobs.{IfFault, IsNextJob, IsNumbered, TakesLine, TakesLines};
ghost use Rattle.fuzz_command.specs.Settings.{CanRun, setting_of};
ghost use Rattle.fuzz_command.specs.Writing.{Begins, Writes};

use crate::fault::FuzzFault;
use crate::job::{Batch, Job, Outcome, Then};
use crate::jobs::Jobs;
use crate::records::Keeper;
use crate::setting::Setting;
use crate::writing::try_jobs;
use commands::{ConsoleInput, Fault};
use hex::FromHexError;
use std::alloc::{AllocError, Global};
use std::io::{BufRead, BufReader, ErrorKind, Read, Write};
use std::thread::Threads;

/// The greatest number of bytes of an input.
pub(crate) const MOST_INPUT: usize = 256;

/// The greatest number of bytes of a line that is an input: its digits, and the line feed.
pub(crate) const MOST_LINE: usize = 2 * MOST_INPUT + 1;

/// A reader that reads ahead.
pub(crate) trait ReadAhead: BufRead {
    /// Whether a whole line has come, so that the next one is read without waiting for it.
    fn has_line(&self) -> bool;
}

impl<R: Read> ReadAhead for BufReader<R, Global> {
    fn has_line(&self) -> bool {
        self.buffer().contains(&b'\n')
    }
}

// The input that hexadecimal digits are; none where they are no such digits, or more than 512.
fn input_of(alloc: Global, digits: &[u8]) -> Result<Option<ConsoleInput>, AllocError>
    ensures { IfOk result (λ input. spec.input_of digits.now ≡ input) }
{
    match hex::decode(alloc, digits) {
        Ok(bytes) if bytes.len() <= MOST_INPUT => Ok(Some(ConsoleInput::new(bytes))),
        Err(FromHexError::OutOfMemory) => Err(AllocError),
        _ => Ok(None),
    }
}

// Takes the line feed from the end of a line, where there is one.
fn without_feed(mut line: Vec<u8>) -> Vec<u8>
    ensures { result.items ≡ strip_last 10 line.items }
{
    let count = line.len();
    if count > 0 && line[count - 1] == b'\n' {
        line.truncate(count - 1);
    }
    line
}

// The next line, without its line feed; none at the end.
fn next_line<'a, B: BufRead>(alloc: Global, input: &mut B) -> Result<Option<Vec<u8>>, FuzzFault<'a>>
    ensures line { IfSome (B.remaining input.old) (λ text. IfOk result (λ next. IfSome next (λ line. IsNext text line.items (B.remaining input.new)))) }
    ensures end { IfOk result (λ next. next ≡ None → IsAtEnd (B.remaining input.old)) }
    ensures faults { IfErr result IsReadFault }
{
    let mut line = Vec::new(alloc);
    match input.read_until(b'\n', &mut line) {
        Ok(0) => Ok(None),
        Ok(_) => Ok(Some(without_feed(line))),
        Err(error) => match error.kind() {
            ErrorKind::OutOfMemory => Err(FuzzFault::from(AllocError)),
            _ => Err(FuzzFault::Unread),
        },
    }
}

// The input of the line of this number.
fn input_in<'a>(alloc: Global, number: usize, line: &[u8]) -> Result<ConsoleInput, FuzzFault<'a>>
    ensures input { IfOk result (λ input. spec.input_of line.now ≡ Some input) }
    ensures none { (n : ℕ) → IsErrOf result (FuzzFault.Line n) → (n ≡ number) × (spec.input_of line.now ≡ None) }
    ensures faults { IfErr result IsLinesFault }
{
    match input_of(alloc, line)? {
        Some(input) => Ok(input),
        None => Err(FuzzFault::Line(number)),
    }
}

// The input of the next line, which has this number; none at the end.
fn next_job<'a, B: BufRead>(
    alloc: Global,
    number: usize,
    input: &mut B,
) -> Result<Option<Job>, FuzzFault<'a>>
    ensures line { IfSome (B.remaining input.old) (λ text. IfOk result (λ next. IfSome next (λ job. IsNextJob number text job (B.remaining input.new)))) }
    ensures end { IfOk result (λ next. next ≡ None → IsAtEnd (B.remaining input.old)) }
    ensures none { (n : ℕ) → IsErrOf result (FuzzFault.Line n) → (n ≡ number) × IfSome (B.remaining input.old) IsNoLine }
    ensures faults { IfErr result IsLinesFault }
{
    let Some(line) = next_line(alloc, input)? else {
        return Ok(None);
    };
    let input = input_in(alloc, number, &line)?;
    let name = format!(in alloc; "{number}")?;
    Ok(Some(Job {
        number,
        name,
        input,
        outcome: Outcome::Waiting,
    }))
}

// Adds an input to others; where there is no memory for it, that is what comes behind them.
fn add_job<'a>(jobs: &mut Vec<Job>, job: Job) -> Option<Then<'a>>
    ensures added { result ≡ None → jobs.new.items ≡ jobs.old.items ++ job ∷ [] }
    ensures same { IfSome result (λ then. (then ≡ Then.Fault (FuzzFault.Command Fault.Memory)) × (jobs.new.items ≡ jobs.old.items)) }
{
    match jobs.push(job) {
        Ok(()) => None,
        Err(_) => Some(Then::Fault(FuzzFault::Command(Fault::Memory))),
    }
}

// Reads the next line, which has this number, behind others; where it is no input, or there is none, the answer is what comes behind them.
#[tactic(auto, using(crate::proofs::Batches::line_added))]
fn take_line<'a, B: BufRead>(
    alloc: Global,
    number: usize,
    jobs: &mut Vec<Job>,
    input: &mut B,
) -> Option<Then<'a>>
    ensures line { TakesLine number (B.remaining input.old) jobs.old.items jobs.new.items (B.remaining input.new) result }
    ensures faults { IfSome result (λ then. IfFault then IsLinesFault) }
{
    match next_job(alloc, number, input) {
        Ok(Some(job)) => add_job(jobs, job),
        Ok(None) => Some(Then::End),
        Err(fault) => Some(Then::Fault(fault)),
    }
}

// The inputs of the next lines, of which the first has this number, and so many at most: of those that have come, and at least of one.
fn next_lines<'a, B: ReadAhead>(
    alloc: Global,
    first: usize,
    most: usize,
    input: &mut B,
) -> Batch<'a>
    ensures lines { IfSome (B.remaining input.old) (λ text. TakesLines first text result.jobs.items (B.remaining input.new) result.then) }
    ensures numbers { IsNumbered (first + length result.jobs.items) result.then }
    ensures faults { IfFault result.then IsLinesFault }
{
    let mut jobs = Vec::new(alloc);
    let last = first.saturating_add(most);
    for number in first..last {
        if number > first && !input.has_line() {
            return Batch {
                jobs,
                then: Then::More(number),
            };
        }
        if let Some(then) = take_line(alloc, number, &mut jobs, input) {
            return Batch { jobs, then };
        }
    }
    Batch {
        jobs,
        then: Then::More(last),
    }
}

/// Runs the input of each line that is read, in order and as many at once as there are jobs, and writes its line. The answer is whether a guest
/// stopped.
///
/// An error is `Line` with the number of the first line that is no input, `Unread` where the lines can't be read, `Command` where memory was
/// refused, and `Output` where a line could not be written: the first in the order of the inputs. Where it isn't the last, the lines of the inputs
/// before stand.
pub(crate) fn fuzz_lines<'a, R: AllocGlobal + Threads + Sync, B: ReadAhead, K: Keeper, O: Write>(
    rt: &R,
    setting: &Setting<'_>,
    at_once: &Jobs,
    input: &mut B,
    keeper: &mut K,
    out: &mut O,
) -> Result<bool, FuzzFault<'a>>
    requires can { CanRun setting.now }
    ensures lines { IfOk result (λ stopped. Writes (setting_of setting.now) (AreInputs [] (B.remaining input.old)) (O.contents out.old) (O.contents out.new) stopped) }
    ensures broken { (n : ℕ) → IsErrOf result (FuzzFault.Line n) → Begins (setting_of setting.now) (AreBefore n (B.remaining input.old)) (O.contents out.old) (O.contents out.new) }
    ensures begun { IfErr result (λ fault. fault ≢ FuzzFault.Output → Begins (setting_of setting.now) (BeginInputs [] (B.remaining input.old)) (O.contents out.old) (O.contents out.new)) }
    ensures faults { IfErr result IsLinesFault }
{
    let mut stopped = false;
    let mut machine = None;
    let mut number = 1;
    for _ in 0..u64::MAX {
        let Batch { jobs, then } = next_lines(
            rt.alloc(),
            number,
            at_once.batch(setting.steps),
            input,
        );
        let stops = try_jobs(
            rt,
            rt.alloc(),
            setting,
            at_once,
            &mut machine,
            jobs,
            keeper,
            out,
        )?;
        if stops {
            stopped = true;
        }
        match then {
            Then::More(next) => number = next,
            Then::End => return Ok(stopped),
            Then::Fault(fault) => return Err(fault),
        }
    }
    Err(FuzzFault::Unread)
}
