//! The thread that serves a guest's debugger port.
ghost use Rattle.std.specs.Prelude.{◌≡◌, ◌<◌, ◌≤◌, ℕ, length};
ghost use Rattle.host.specs.Places.{AtGuest};
ghost use Rattle.host_run.specs.Seats.{IsSeat};

use crate::switches::Switches;
use cell::{Gate, Seat};
use debug_session::{Session, State};
use guest_number::GuestNo;
use host::Host;
use std::alloc::Global;
use std::io::{ErrorKind, Read, Write};
use std::net::{TcpListener, TcpStream};
use std::sync::Wait;
use std::thread::Parker;
use std::time::Duration;
use swapstore::SwapStore;

/// How many bytes of a connection are read at once.
const PIECE: usize = 4096;

/// How long the thread rests where no connection can be taken, in milliseconds.
const REST: u64 = 50;

// What came over a connection: so many bytes, none yet, or its end.
#[derive(Clone, Copy)]
enum Came {
    Bytes(usize),
    Nothing,
    End,
}

// Reads what has come. Where `waits` says so, it waits until something has.
fn read(mut stream: &TcpStream, piece: &mut [u8], waits: bool) -> Came
    requires { 0 < length piece.old }
    ensures { (n : ℕ) → result ≡ Came.Bytes n → n ≤ length piece.new }
{
    if stream.set_nonblocking(!waits).is_err() {
        return Came::End;
    }
    let got = stream.read(piece);
    // Replies are written without this mode.
    if stream.set_nonblocking(false).is_err() {
        return Came::End;
    }
    match got {
        Ok(0) => Came::End,
        Ok(count) => Came::Bytes(count),
        Err(error) => match error.kind() {
            ErrorKind::WouldBlock | ErrorKind::Interrupted => Came::Nothing,
            _ => Came::End,
        },
    }
}

// Writes replies, and takes them from `out`. Whether that succeeded.
fn write(mut stream: &TcpStream, out: &mut String) -> bool {
    let done = stream.write_all(out.as_bytes()).is_ok();
    out.clear();
    done
}

// Serves a connection to its end.
#[tactic(auto, using(crate::proofs::Seats::is_of, crate::proofs::Seats::after_going))]
fn serve<S: SwapStore + Drop, G: Gate + Drop, R: Wait>(
    rt: &R,
    alloc: Global,
    host: &Host<S, G>,
    guest: GuestNo,
    seat: &mut Seat,
    stream: &TcpStream,
)
    requires guest { guest < length host.now.guests.cells.items }
    requires seat { AtGuest host.now.guests.cells.items guest (λ front. IsSeat front 3 seat.old) }
    ensures seat { AtGuest host.now.guests.cells.items guest (λ front. IsSeat front 3 seat.new) }
{
    let mut session = Session::open(rt, alloc, host, guest);
    let mut out = String::new(alloc);
    let mut piece = [0u8; PIECE];
    for _ in rt.forever() {
        let runs = match session.state {
            State::Ready => false,
            State::Running => true,
            State::Detached | State::Ended => break,
        };
        let said = match read(stream, &mut piece, !runs) {
            Came::Bytes(count) => {
                session.take(rt, alloc, host, guest, seat, &piece[..count], &mut out)
            }
            Came::Nothing if runs => session.go_on(rt, alloc, host, guest, seat, &mut out),
            Came::Nothing => continue,
            Came::End => break,
        };
        if !write(stream, &mut out) {
            break;
        }
        if said.is_err() {
            break;
        }
    }
    let _ = session.leave(rt, alloc, host, guest, &mut out);
    let _ = write(stream, &mut out);
}

/// Serves the connections to a guest's port, one after another, by its seat 3, until the run ends; another that comes meanwhile waits. One that
/// is open then is served to its end.
pub(crate) fn serve_port<S: SwapStore + Drop, G: Gate + Drop, R: Wait>(
    rt: &R,
    alloc: Global,
    host: &Host<S, G>,
    switches: &Switches,
    door: &TcpListener,
    guest: GuestNo,
    seat: &mut Seat,
)
    requires guest { guest < length host.now.guests.cells.items }
    requires switches { length switches.now.stops.items ≡ length host.now.guests.cells.items }
    requires seat { AtGuest host.now.guests.cells.items guest (λ front. IsSeat front 3 seat.old) }
    ensures seat { AtGuest host.now.guests.cells.items guest (λ front. IsSeat front 3 seat.new) }
{
    for _ in rt.forever() {
        if switches.is_ending() {
            return;
        }
        let accepted = door.accept();
        if switches.is_ending() {
            return;
        }
        match accepted {
            Ok((stream, _)) => {
                serve(rt, alloc, host, guest, seat, &stream);
                switches.wake(guest);
            }
            // Too many files are open, or the like: it may be better later.
            Err(_) => Parker::new().park_timeout(rt, Duration::from_millis(REST)),
        }
    }
    unreachable!()
}
