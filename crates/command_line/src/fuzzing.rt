//! The command `fuzz`: the inputs that its command line names, and how the runs went.
ghost use Rattle.std.specs.Prelude.{◌≡◌, ◌≢◌, IfOk};
ghost use Rattle.command_line.specs.Exit.{code_of};

use crate::explaining::Subject;
use crate::inputs::{input_files, named_files};
use crate::program::{Status, write_refusal};
use commands::Fault;
use fuzz_command::{FuzzEnd, FuzzFault, FuzzOrder, fuzz_order};
use std::alloc::AllocError;
use std::io;
use std::io::{BufRead, ErrorKind, Write};
use std::rt::Files;
use std::thread::Threads;

/// Runs an image on many inputs, of which `input` has the lines where no files are named. A directory among them stands for its files.
pub(crate) fn answer_fuzz<R, I, O, E>(
    rt: &R,
    order: FuzzOrder<'_>,
    input: &mut I,
    out: &mut O,
    err: &mut E,
) -> io::Result<Status>
where
    R: Files + AllocGlobal + Threads + Sync,
    I: BufRead,
    O: Write,
    E: Write,
    ensures usage { IfOk result (λ s. code_of s ≢ 2) }
    ensures carried_out { IfOk result (λ s. code_of s ≢ 1 → err.new ≡ err.old) }
{
    let named = match named_files(rt, &order.inputs) {
        Ok(named) => named,
        Err(fault) => return write_refusal(rt, Subject::Fuzz(&order), &fault, err),
    };
    let inputs = match input_files(rt.alloc(), &named) {
        Ok(inputs) => inputs,
        Err(AllocError) => {
            return write_refusal(rt, Subject::Fuzz(&order), &Fault::Memory, err);
        }
    };
    let FuzzOrder {
        run,
        ready,
        until,
        shown,
        reached,
        logs,
        coverage,
        inputs: _,
        jobs,
    } = order;
    let order = FuzzOrder {
        run,
        ready,
        until,
        shown,
        reached,
        logs,
        coverage,
        inputs,
        jobs,
    };
    answer_files(rt, &order, input, out, err)
}

/// Runs an image on many inputs, of which each that is named is a file.
fn answer_files<R, I, O, E>(
    rt: &R,
    order: &FuzzOrder<'_>,
    input: &mut I,
    out: &mut O,
    err: &mut E,
) -> io::Result<Status>
where
    R: Files + AllocGlobal + Threads + Sync,
    I: BufRead,
    O: Write,
    E: Write,
    ensures usage { IfOk result (λ s. code_of s ≢ 2) }
    ensures carried_out { IfOk result (λ s. code_of s ≢ 1 → err.new ≡ err.old) }
{
    match fuzz_order(rt, order, input, out) {
        Ok(end) => answer_end(order, end, err),
        Err(FuzzFault::Command(fault)) => write_refusal(rt, Subject::Fuzz(order), &fault, err),
        Err(FuzzFault::Output) => Err(io::Error::from(ErrorKind::Other)),
        Err(FuzzFault::Unready) => write_line_fault(FuzzFault::Unready, UNREADY_WORDS, err),
        Err(FuzzFault::Line(number)) => write_line_fault(FuzzFault::Line(number), LINE_WORDS, err),
        Err(FuzzFault::Unread) => write_line_fault(FuzzFault::Unread, UNREAD_WORDS, err),
    }
}

/// Says how the runs went, and what could not be written.
fn answer_end<E: Write>(order: &FuzzOrder<'_>, end: FuzzEnd, err: &mut E) -> io::Result<Status>
    ensures usage { IfOk result (λ s. code_of s ≢ 2) }
    ensures carried_out { IfOk result (λ s. code_of s ≢ 1 → err.new ≡ err.old) }
{
    if let Some(number) = end.unwritten {
        return write_unlogged(order.logs.unwrap_or(""), number, err);
    }
    if !end.is_covered {
        return write_uncovered(order.coverage.unwrap_or(""), err);
    }
    if end.stopped {
        Ok(Status::Stopped)
    } else {
        Ok(Status::Done)
    }
}

/// Words for a machine that is never ready, for a line that is no input, and for lines that can't be read.
const UNREADY_WORDS: &str =
    "PC never is the address of --ready while the machine, without input, makes 1073741824 steps or comes to a loop for ever";

const LINE_WORDS: &str =
    "an input is an even number of hexadecimal digits, at most 512; an empty line is an empty one";

const UNREAD_WORDS: &str = "the lines of inputs can't be read there";

/// Writes what is wrong with the lines of inputs, and words for it.
fn write_line_fault<E: Write>(fault: FuzzFault<'_>, words: &str, err: &mut E) -> io::Result<Status>
    ensures { IfOk result (λ s. code_of s ≡ 1) }
{
    writeln!(err, "vmhost: {fault}")?;
    writeln!(err, "  {words}")?;
    err.flush()?;
    Ok(Status::Refused)
}

/// Writes that the log of an input, and perhaps of others behind it, is not written, and words for it.
fn write_unlogged<E: Write>(directory: &str, number: usize, err: &mut E) -> io::Result<Status>
    ensures { IfOk result (λ s. code_of s ≡ 1) }
{
    writeln!(err, "vmhost: file {directory}/{number}.log")?;
    writeln!(
        err,
        "  the log of input {number} can't be written; what was done is done, and the logs that can be are written"
    )?;
    err.flush()?;
    Ok(Status::Refused)
}

/// Writes that the file of the words that were reached is not written, and words for it.
fn write_uncovered<E: Write>(name: &str, err: &mut E) -> io::Result<Status>
    ensures { IfOk result (λ s. code_of s ≡ 1) }
{
    writeln!(err, "vmhost: file {name}")?;
    writeln!(
        err,
        "  the words of memory that PC led to can't be written there; what was done is done"
    )?;
    err.flush()?;
    Ok(Status::Refused)
}
