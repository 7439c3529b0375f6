//! Inputs that are files.
ghost use Rattle.std.specs.Prelude.{◌≡◌, ◌≢◌, ◌<◌, ◌≤◌, IfErr, IfOk, IfSome, length, string_bytes};
ghost use Rattle.fuzz_command.specs.Faults.{IsFileFault, IsFilesFault};
ghost use Rattle.fuzz_command.specs.Inputs.{AreFiles, BeginFiles};
ghost use Rattle.fuzz_command.specs.Jobs.{TakesFiles, job_name};
ghost use Rattle.fuzz_command.specs.Settings.{CanRun, setting_of};
ghost use Rattle.fuzz_command.specs.Writing.{Begins, Writes};

use crate::fault::FuzzFault;
use crate::job::{Batch, Job, Outcome, Then};
use crate::jobs::Jobs;
use crate::lines::MOST_INPUT;
use crate::order::InputFile;
use crate::records::Keeper;
use crate::setting::Setting;
use crate::writing::try_jobs;
use commands::fault::of_file;
use commands::{ConsoleInput, Fault};
use std::alloc::Global;
use std::fs::File;
use std::io;
use std::io::{Read, Write};
use std::rt::Files;
use std::thread::Threads;

// The bytes of a file, of which one more is read than an input has at most.
fn first_bytes<F: Read + Drop>(alloc: Global, file: F) -> io::Result<Vec<u8>>
    ensures { IfSome (F.remaining file) (λ all. IfOk result (λ bytes. length bytes.items ≤ 256 → bytes.items ≡ all)) }
{
    let mut bytes = Vec::new(alloc);
    file.take(MOST_INPUT as u64 + 1).read_to_end(&mut bytes)?;
    Ok(bytes)
}

/// The input that a file holds.
///
/// An error is `File` where it can't be read or has more than 256 bytes, and `Memory` where a request for memory was refused.
fn file_input<'a, F: Read + Drop>(
    alloc: Global,
    file: F,
    of: InputFile<'a>,
) -> Result<ConsoleInput, Fault<'a>>
    ensures input { IfSome (F.remaining file) (λ all. IfOk result (λ input. input ≡ all)) }
    ensures faults { IfErr result (IsFileFault of.entry) }
{
    let bytes = of_file(of.place, first_bytes(alloc, file))?;
    if bytes.len() <= MOST_INPUT {
        Ok(ConsoleInput::new(bytes))
    } else {
        Err(Fault::File { name: of.place })
    }
}

// The input that the file of a name holds.
fn read_input<'a, R: Files + AllocGlobal>(
    rt: &R,
    of: InputFile<'a>,
) -> Result<ConsoleInput, Fault<'a>>
    ensures { IfErr result (IsFileFault of.entry) }
{
    let file = of_file(of.place, File::open(rt, of.place))?;
    file_input(rt.alloc(), file, of)
}

// The input that a file of this number, from 1, holds.
fn file_job<'a, R: Files + AllocGlobal>(
    rt: &R,
    number: usize,
    of: InputFile<'a>,
) -> Result<Job, Fault<'a>>
    ensures name { IfOk result (λ job. job_name job ≡ of.entry.name.now) }
    ensures faults { IfErr result (IsFileFault of.entry) }
{
    let input = read_input(rt, of)?;
    let name = String::from_str(rt.alloc(), of.name)?;
    Ok(Job {
        number,
        name,
        input,
        outcome: Outcome::Waiting,
    })
}

// The inputs of the next files, of which the first has this index, and so many at most.
fn next_files<'a, R: Files + AllocGlobal>(
    rt: &R,
    first: usize,
    most: usize,
    files: &[InputFile<'a>],
) -> Batch<'a>
    requires inside { first ≤ length files.now }
    requires some { 0 < most }
    ensures { TakesFiles files.now first result.jobs.items result.then }
{
    let mut jobs = Vec::new(rt.alloc());
    let count = most.min(files.len() - first);
    let last = first + count;
    for index in first..last {
        match file_job(rt, index.saturating_add(1), files[index]) {
            Ok(job) => if jobs.push(job).is_err() {
                return Batch {
                    jobs,
                    then: Then::Fault(FuzzFault::Command(Fault::Memory)),
                };
            },
            Err(fault) => {
                return Batch {
                    jobs,
                    then: Then::Fault(FuzzFault::Command(fault)),
                };
            }
        }
    }
    let then = if last == files.len() {
        Then::End
    } else {
        Then::More(last)
    };
    Batch { jobs, then }
}

/// Runs the input of each file, in order and as many at once as there are jobs, and writes its line. The answer is whether a guest stopped.
///
/// An error is `Command` where a file can't be read or has too many bytes, or memory was refused, and `Output` where a line could not be written:
/// the first in the order of the inputs. Where it isn't the last, the lines of the inputs before stand.
pub(crate) fn fuzz_files<'a, R: Files + AllocGlobal + Threads + Sync, K: Keeper, O: Write>(
    rt: &R,
    setting: &Setting<'_>,
    at_once: &Jobs,
    files: &[InputFile<'a>],
    keeper: &mut K,
    out: &mut O,
) -> Result<bool, FuzzFault<'a>>
    requires can { CanRun setting.now }
    ensures lines { IfOk result (λ stopped. Writes (setting_of setting.now) (AreFiles files.now) (O.contents out.old) (O.contents out.new) stopped) }
    ensures begun { IfErr result (λ fault. fault ≢ FuzzFault.Output → Begins (setting_of setting.now) (BeginFiles files.now) (O.contents out.old) (O.contents out.new)) }
    ensures faults { IfErr result (IsFilesFault files.now) }
{
    let mut stopped = false;
    let mut machine = None;
    let mut first = 0;
    while first < files.len() {
        let Batch { jobs, then } = next_files(rt, first, at_once.batch(setting.steps), files);
        let stops = try_jobs(
            rt,
            rt.alloc(),
            setting,
            at_once,
            &mut machine,
            jobs,
            keeper,
            out,
        )?;
        if stops {
            stopped = true;
        }
        match then {
            Then::More(next) => first = next,
            Then::End => return Ok(stopped),
            Then::Fault(fault) => return Err(fault),
        }
    }
    Ok(stopped)
}
