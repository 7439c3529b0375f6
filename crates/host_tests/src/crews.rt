//! Those who use one guest of a host: its runner, and whoever keeps its console and debugs it.
ghost use Rattle.std.specs.Prelude.{◌≡◌, ◌<◌, length};
ghost use Rattle.cell.specs.Sitting.{IsOf};
ghost use Rattle.host.specs.Debugging.{IsSmall};
ghost use Rattle.host.specs.Places.{AtGuest};
ghost use Rattle.host_tests.specs.Crews.{IsCrewOf};

use crate::race::Hosts;
use cell::Seat;
use console_queue::FeedPass;
use guest_number::GuestNo;
use host::{DebugError, Ran, Request, Stop};
use items::{DebugRegister, WriteBytes};
use std::alloc::Global;
use std::sync::Wait;
use std::thread::{Threads, join};

/// How many steps a slice of a runner has.
const SLICE: u32 = 200;

/// What is handed out of a guest, but for the policy's seat; and how many answers went astray.
#[derive(Drop)]
pub(crate) struct Crew {
    /// Seat 0.
    pub(crate) runner: Seat,
    /// Seat 1.
    pub(crate) console: Seat,
    /// Seat 3.
    pub(crate) debugger: Seat,
    /// The right to put bytes for its console.
    pub(crate) feed: FeedPass,
    /// How many answers went astray.
    pub(crate) strays: u32,
}

// Whether a slice of so many steps may have ended so while other threads use the guest and its memory, whose store may fail once.
fn may_end(ran: Ran, count: u32) -> bool {
    match ran {
        Ran::Ran(made) => made == count,
        Ran::Held(_) => true,
        Ran::Break(_) => true,
        Ran::Stopped(_, stop) => stop != Stop::LogFull && stop != Stop::SwapDamaged,
    }
}

// The same of a request that is refused.
fn may_be_refused(error: DebugError) -> bool {
    match error {
        DebugError::NoPlace => false,
        DebugError::NoBreakpoint => false,
        DebugError::Stop(stop) => stop != Stop::LogFull && stop != Stop::SwapDamaged,
    }
}

// Slices of a guest. The answer is how many ended as they must not.
fn runs<R: Wait>(
    rt: &R,
    alloc: Global,
    host: &Hosts,
    guest: GuestNo,
    mut seat: Seat,
    slices: u32,
) -> (Seat, u32)
    requires guest { guest < length host.now.guests.cells.items }
    requires seat { AtGuest host.now.guests.cells.items guest (λ front. IsOf front seat) }
    ensures { AtGuest host.now.guests.cells.items guest (λ front. IsOf front result.0) }
{
    let mut strays = 0u32;
    for _ in 0..slices {
        let ran = host.run_slice(rt, alloc, guest, &mut seat, SLICE);
        if !may_end(ran, SLICE) {
            strays = strays.saturating_add(1);
        }
    }
    (seat, strays)
}

// What a debugger asks. The answer is 1 where it was refused and must not be.
fn ask<R: Wait>(
    rt: &R,
    alloc: Global,
    host: &Hosts,
    guest: GuestNo,
    seat: &mut Seat,
    request: Request,
) -> u32
    requires guest { guest < length host.now.guests.cells.items }
    requires seat { AtGuest host.now.guests.cells.items guest (λ front. IsOf front seat.old) }
    requires small { IsSmall request }
    ensures { AtGuest host.now.guests.cells.items guest (λ front. IsOf front seat.new) }
{
    match host.debug(rt, alloc, guest, seat, request) {
        Ok(reply) => {
            drop(reply);
            0
        }
        Err(error) => if may_be_refused(error) { 0 } else { 1 },
    }
}

// Two bytes are written over the border of two pages.
fn write<R: Wait>(
    rt: &R,
    alloc: Global,
    host: &Hosts,
    guest: GuestNo,
    seat: &mut Seat,
    address: u32,
) -> u32
    requires guest { guest < length host.now.guests.cells.items }
    requires seat { AtGuest host.now.guests.cells.items guest (λ front. IsOf front seat.old) }
    ensures { AtGuest host.now.guests.cells.items guest (λ front. IsOf front seat.new) }
{
    let Ok(bytes) = Vec::from_array(alloc, [0xa5, 0x5a]) else {
        return 0;
    };
    let request = Request::Write(address, WriteBytes::from_vec(bytes));
    ask(rt, alloc, host, guest, seat, request)
}

// A debugger holds the guest, reads and writes, makes three steps up to a breakpoint, and lets it go. The answer is how often it was refused
// and must not be.
fn debugs<R: Wait>(
    rt: &R,
    alloc: Global,
    host: &Hosts,
    guest: GuestNo,
    seat: &mut Seat,
    round: u32,
) -> u32
    requires guest { guest < length host.now.guests.cells.items }
    requires seat { AtGuest host.now.guests.cells.items guest (λ front. IsOf front seat.old) }
    ensures { AtGuest host.now.guests.cells.items guest (λ front. IsOf front seat.new) }
{
    let border = 0x8000_0fff + (round % 7) * 0x1000;
    host.hold(rt, guest);
    let read = ask(rt, alloc, host, guest, seat, Request::Read(border, 2));
    let written = write(rt, alloc, host, guest, seat, border);
    let register = DebugRegister::new(20);
    let poked = ask(rt, alloc, host, guest, seat, Request::Poke(register, round));
    let set = ask(rt, alloc, host, guest, seat, Request::Break(0x8000_0010));
    let ran = host.run_slice(rt, alloc, guest, seat, 3);
    host.clear_breaks(rt, guest);
    let shown = ask(rt, alloc, host, guest, seat, Request::Regs);
    host.go(rt, guest);
    let stepped = if may_end(ran, 3) { 0 } else { 1 };
    read.saturating_add(written)
        .saturating_add(poked)
        .saturating_add(set)
        .saturating_add(stepped)
        .saturating_add(shown)
}

// Bytes are put for the console, its output is taken, and the balloon is asked for some pages.
fn keeps_console<R: Wait>(
    rt: &R,
    host: &Hosts,
    guest: GuestNo,
    seat: &mut Seat,
    feed: &mut FeedPass,
    round: u32,
)
    requires guest { guest < length host.now.guests.cells.items }
    requires seat { AtGuest host.now.guests.cells.items guest (λ front. IsOf front seat.old) }
    requires feed { AtGuest host.now.guests.cells.items guest (λ front. feed.old.queue ≡ front.queue.id) }
    ensures seat { AtGuest host.now.guests.cells.items guest (λ front. IsOf front seat.new) }
    ensures feed { AtGuest host.now.guests.cells.items guest (λ front. feed.new.queue ≡ front.queue.id) }
{
    let _ = host.feed(rt, guest, feed, &[1, 2, 3]);
    drop(host.drain(rt, guest, seat));
    drop(host.set_target(rt, guest, seat, round % 4));
    let _ = host.seen(guest, seat);
}

// What is kept of a guest beside its runner.
#[derive(Drop)]
struct Kept {
    console: Seat,
    debugger: Seat,
    feed: FeedPass,
    strays: u32,
}

// A guest's console is kept and the guest is debugged, in turn.
fn keeps<R: Wait>(
    rt: &R,
    alloc: Global,
    host: &Hosts,
    guest: GuestNo,
    mut kept: Kept,
    rounds: u32,
) -> Kept
    requires guest { guest < length host.now.guests.cells.items }
    requires console { AtGuest host.now.guests.cells.items guest (λ front. IsOf front kept.console) }
    requires debugger { AtGuest host.now.guests.cells.items guest (λ front. IsOf front kept.debugger) }
    requires feed { AtGuest host.now.guests.cells.items guest (λ front. kept.feed.queue ≡ front.queue.id) }
    ensures console { AtGuest host.now.guests.cells.items guest (λ front. IsOf front result.console) }
    ensures debugger { AtGuest host.now.guests.cells.items guest (λ front. IsOf front result.debugger) }
    ensures feed { AtGuest host.now.guests.cells.items guest (λ front. result.feed.queue ≡ front.queue.id) }
{
    for round in 0..rounds {
        keeps_console(rt, host, guest, &mut kept.console, &mut kept.feed, round);
        let strays = debugs(rt, alloc, host, guest, &mut kept.debugger, round);
        kept.strays = kept.strays.saturating_add(strays);
    }
    kept
}

/// A guest is run by one thread, by so many slices, while another keeps its console and debugs it, as often.
pub(crate) fn run_guest<R: Threads + Wait + Sync>(
    rt: &R,
    alloc: Global,
    host: &Hosts,
    guest: GuestNo,
    crew: Crew,
    rounds: u32,
) -> Crew
    requires guest { guest < length host.now.guests.cells.items }
    requires crew { IsCrewOf host.now.guests.cells.items guest crew.runner crew.console crew.debugger crew.feed }
    ensures { IsCrewOf host.now.guests.cells.items guest result.runner result.console result.debugger result.feed }
{
    let Crew {
        runner,
        console,
        debugger,
        feed,
        strays,
    } = crew;
    let kept = Kept {
        console,
        debugger,
        feed,
        strays,
    };
    let ((runner, more), kept) = join(
        rt,
        || -> (Seat, u32)
            requires guest { guest < length host.now.guests.cells.items }
            requires seat { AtGuest host.now.guests.cells.items guest (λ front. IsOf front runner) }
            ensures { AtGuest host.entry.now.guests.cells.items guest (λ front. IsOf front result.0) }
        { runs(rt, alloc, host, guest, runner, rounds) },
        || -> Kept
            requires guest { guest < length host.now.guests.cells.items }
            requires console { AtGuest host.now.guests.cells.items guest (λ front. IsOf front kept.console) }
            requires debugger { AtGuest host.now.guests.cells.items guest (λ front. IsOf front kept.debugger) }
            requires feed { AtGuest host.now.guests.cells.items guest (λ front. kept.feed.queue ≡ front.queue.id) }
            ensures console { AtGuest host.entry.now.guests.cells.items guest (λ front. IsOf front result.console) }
            ensures debugger { AtGuest host.entry.now.guests.cells.items guest (λ front. IsOf front result.debugger) }
            ensures feed { AtGuest host.entry.now.guests.cells.items guest (λ front. result.feed.queue ≡ front.queue.id) }
        { keeps(rt, alloc, host, guest, kept, rounds) },
    );
    let Kept {
        console,
        debugger,
        feed,
        strays,
    } = kept;
    Crew {
        runner,
        console,
        debugger,
        feed,
        strays: strays.saturating_add(more),
    }
}
