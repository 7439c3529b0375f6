//! The command `run`.
ghost use Rattle.std.specs.Prelude.{◌≡◌, ◌≢◌, ◌⊎◌, IfErr, IfOk, OnErr, codes, false, true};
ghost use Rattle.std.specs.Io.KnownBytes.{Appends};
ghost use Rattle.run_command.specs.Faults.{IsRunFault, MayBoot};

use crate::boot::{boot, open_doors, port_of};
use crate::fault::RunFault;
use crate::files::{LoadedGuests, load_guests, logs_are_apart, open_swap};
use crate::logs::{close_all, write_logs};
use crate::order::RunOrder;
use commands::Fault;
use commands::log_file::make_directory;
use guest_cells::Finished;
use host::Booted;
use host_run::{Leave, RunEnd, run};
use std::fs::File;
use std::io;
use std::io::{Read, Write};
use std::net::{Net, TcpListener, TcpStream};
use std::rt::Files;
use std::sync::Wait;
use std::thread::Threads;

/// How a run ended.
#[derive(Clone, Copy, Debug, PartialEq, Eq)]
pub enum RunStatus {
    /// All that was asked for is done.
    Done,
    /// The last slice of a guest ended by a stop.
    Stopped,
    /// A log could not be written, and its fault is told.
    Unwritten,
    /// A reply could not be written.
    Unprinted,
}

/// Runs the guests of an order, on a thread each, until a line of `input` says `quit` or the input ends; the replies to its lines come to `out`. A line in
/// `err` first says which guests run at which ports. At the end it writes each guest's log, and then replies `ok` to `quit`.
///
/// An error comes before any guest runs, and before `input` is read and `out` written: the first of these, `File` for the swap file, the directory for
/// the logs, an image that a log would be written over, then one that can't be read, and `Elf` where it is refused; `Boot`; `Port`. `Memory` where a
/// request for memory was refused.
pub fn run_order<'a, R, I, O, E>(
    rt: &R,
    order: &RunOrder<'a>,
    input: &mut I,
    out: &mut O,
    err: &mut E,
) -> Result<RunStatus, RunFault<'a>>
where
    R: Files<File = File>
        + AllocGlobal
        + Threads
        + Wait
        + Net<Listener = TcpListener, Stream = TcpStream>
        + Sync,
    I: Read,
    O: Write,
    E: Write,
    ensures booted { IfOk result (λ status. MayBoot order.now) }
    ensures faults { IfErr result (λ fault. IsRunFault order.now fault) }
    ensures unread { OnErr result (input.new ≡ input.old) }
    ensures unwritten { OnErr result (out.new ≡ out.old) }
    ensures unsaid { IfErr result (λ fault. fault ≢ RunFault.Command Fault.Memory → err.new ≡ err.old) }
{
    let swap = open_swap(rt, order)?;
    make_directory(rt, order.logs)?;
    logs_are_apart(rt, order.logs, &order.guests)?;
    let LoadedGuests { guests, digests } = load_guests(rt, order.profile, &order.guests)?;
    let Booted { host, handles } = boot(rt, rt.alloc(), order, guests, swap)?;
    let doors = match open_doors(rt, rt.alloc(), order) {
        Ok(doors) => doors,
        Err(fault) => {
            drop(handles);
            return Err(fault);
        }
    };
    // Where nobody reads this line, the run goes on.
    let _ = announce(order, err);
    let left = run(rt, rt.alloc(), host, handles, &doors, input, out)?;
    Ok(end(rt, order, &digests, left, out, err))
}

// Says which guests run, and at which ports debuggers can have them.
fn announce<E: Write>(order: &RunOrder<'_>, err: &mut E) -> io::Result<()> {
    write!(err, "vmhost:")?;
    for (number, guest) in order.guests.iter().enumerate() {
        write!(err, " guest {number} {}", guest.image)?;
        if order.port == 0 {
            write!(err, " no port,")?;
        } else {
            write!(err, " port {},", port_of(order.port, number))?;
        }
    }
    writeln!(err, " help lists the monitor's lines")?;
    err.flush()
}

// Writes the logs, replies to `quit`, and gives up what is left.
fn end<S: Drop, R: Files + AllocGlobal, O: Write, E: Write>(
    rt: &R,
    order: &RunOrder<'_>,
    digests: &[[u8; 32]],
    left: RunEnd<S>,
    out: &mut O,
    err: &mut E,
) -> RunStatus
    ensures done { result ≡ RunStatus.Done → left.stopped ≡ false }
    ensures stopped { result ≡ RunStatus.Stopped → left.stopped ≡ true }
    ensures failed { left.leave ≡ Leave.OutputFailed → (result ≡ RunStatus.Unwritten) ⊎ (result ≡ RunStatus.Unprinted) }
    ensures silent { left.leave ≢ Leave.Quit → out.new ≡ out.old }
{
    let RunEnd {
        finished,
        leave,
        stopped,
    } = left;
    let Finished {
        books: _,
        guests,
        store,
    } = finished;
    drop(store);
    let written = write_logs(rt, order, &guests, digests, err);
    close_all(guests);
    if !written {
        return RunStatus::Unwritten;
    }
    if !take_leave(leave, out) {
        return RunStatus::Unprinted;
    }
    if stopped {
        RunStatus::Stopped
    } else {
        RunStatus::Done
    }
}

// Replies to `quit`. Whether all replies were written.
fn take_leave<O: Write>(leave: Leave, out: &mut O) -> bool
    ensures quit { leave ≡ Leave.Quit → result ≡ true → Appends (O.contents out.old) (O.contents out.new) (codes "ok\n") }
    ensures failed { leave ≡ Leave.OutputFailed → result ≡ false }
    ensures silent { leave ≢ Leave.Quit → out.new ≡ out.old }
{
    match leave {
        Leave::Quit => {
            let said = writeln!(out, "ok");
            said.is_ok() && out.flush().is_ok()
        }
        Leave::InputEnded => true,
        Leave::OutputFailed => false,
    }
}
