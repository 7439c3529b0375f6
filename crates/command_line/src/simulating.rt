//! The command `sim`: what a script says, and what became of it.
ghost use Rattle.std.specs.Prelude.{◌≡◌, ◌≢◌, IfOk};
ghost use Rattle.command_line.specs.Exit.{code_of};

use crate::explaining::Subject;
use crate::program::{Status, write_refusal};
use commands::{Fault, Sim, SimFault, run_script, script_text};
use guest_number::GuestNo;
use std::io;
use std::io::{ErrorKind, Write};
use std::rt::Files;

/// Does what a script says, whose faults name files by its text. Want of memory for the rest of the replies, or a log that can't be written, is told
/// in `err` behind the replies.
pub(crate) fn answer_script<R, O, E>(
    rt: &R,
    order: Sim<'_>,
    out: &mut O,
    err: &mut E,
) -> io::Result<Status>
where
    R: Files + AllocGlobal,
    O: Write,
    E: Write,
    ensures usage { IfOk result (λ s. code_of s ≢ 2) }
    ensures carried_out { IfOk result (λ s. code_of s ≢ 1 → err.new ≡ err.old) }
{
    let text = match script_text(rt, order) {
        Ok(text) => text,
        Err(fault) => return write_refusal(rt, Subject::ScriptFile, &fault, err),
    };
    let subject = Subject::Script(&text, order.logs);
    match run_script(rt, order, &text, out) {
        Ok(unwritten) => answer_logs(order.logs, unwritten, err),
        Err(SimFault::Refused(fault)) => write_refusal(rt, subject, &fault, err),
        Err(SimFault::Memory) => write_refusal(rt, subject, &Fault::Memory, err),
        Err(SimFault::Output) => Err(io::Error::from(ErrorKind::Other)),
    }
}

/// Says which log could not be written, where one could not.
fn answer_logs<E: Write>(
    directory: Option<&str>,
    unwritten: Option<GuestNo>,
    err: &mut E,
) -> io::Result<Status>
    ensures usage { IfOk result (λ s. code_of s ≢ 2) }
    ensures carried_out { IfOk result (λ s. code_of s ≢ 1 → err.new ≡ err.old) }
{
    match unwritten {
        None => Ok(Status::Done),
        Some(guest) => write_unwritten(directory.unwrap_or(""), guest, err),
    }
}

/// Writes that the log of a guest, and perhaps of others behind it, is not written, and words for it.
fn write_unwritten<E: Write>(directory: &str, guest: GuestNo, err: &mut E) -> io::Result<Status>
    ensures { IfOk result (λ s. code_of s ≡ 1) }
{
    let guest = guest.number();
    writeln!(err, "vmhost: file {directory}/{guest}.log")?;
    writeln!(
        err,
        "  the log of guest {guest} can't be written; what was done is done, and the logs that can be are written"
    )?;
    err.flush()?;
    Ok(Status::Refused)
}
