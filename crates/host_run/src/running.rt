//! The thread that runs a guest.
ghost use Rattle.std.specs.Prelude.{◌≡◌, ◌<◌, length};
ghost use Rattle.host.specs.Places.{AtGuest};
ghost use Rattle.host_run.specs.Seats.{IsSeat};

use crate::switches::Switches;
use cell::{Gate, Seat};
use guest_number::GuestNo;
use host::{Host, Ran};
use std::alloc::Global;
use std::sync::Wait;
use swapstore::SwapStore;

/// How many steps a slice has.
const SLICE: u32 = 65_536;

// How a slice ended: 0, or the number of its stop.
fn stop_number(ran: Ran) -> u32 {
    match ran {
        Ran::Stopped(_, stop) => stop.number(),
        Ran::Ran(_) | Ran::Break(_) | Ran::Held(_) => 0,
    }
}

// Whether the runner makes the next slice at once: it rests where the guest is held, blocked or stopped.
fn goes_on(ran: Ran) -> bool {
    match ran {
        Ran::Ran(_) | Ran::Break(_) => true,
        Ran::Held(_) | Ran::Stopped(_, _) => false,
    }
}

/// Makes the guest's steps until the run ends, by slices of its seat 0. Where the guest is held, blocked or stopped, the thread rests until it
/// is woken, and tries again.
#[tactic(auto, using(crate::proofs::Seats::is_of, crate::proofs::Seats::after_slice))]
pub(crate) fn run_guest<S: SwapStore + Drop, G: Gate + Drop, R: Wait>(
    rt: &R,
    alloc: Global,
    host: &Host<S, G>,
    switches: &Switches,
    guest: GuestNo,
    seat: &mut Seat,
)
    requires guest { guest < length host.now.guests.cells.items }
    requires switches { length switches.now.stops.items ≡ length host.now.guests.cells.items }
    requires seat { AtGuest host.now.guests.cells.items guest (λ front. IsSeat front 0 seat.old) }
    ensures seat { AtGuest host.now.guests.cells.items guest (λ front. IsSeat front 0 seat.new) }
{
    for _ in rt.forever() {
        if switches.is_ending() {
            return;
        }
        let ran = host.run_slice(rt, alloc, guest, seat, SLICE);
        switches.note(guest, stop_number(ran));
        if !goes_on(ran) {
            switches.rest(rt, guest);
        }
    }
    unreachable!()
}
