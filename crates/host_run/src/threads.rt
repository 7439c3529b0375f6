//! The threads of a run.
ghost use Rattle.std.specs.Prelude.{◌≡◌, ◌<◌, All, IfOk, OnErr, length};
ghost use Rattle.guest.specs.Guests.{Intact};
ghost use Rattle.lent_pages.specs.Stores.{IsStill};
ghost use Rattle.machine_memory.specs.Audits.{IsCountOf};
ghost use Rattle.guest_cells.specs.Ends.{pages_left};
ghost use Rattle.host.specs.Places.{AtGuest};
ghost use Rattle.monitor_answers.specs.Hands.{AreHands};
ghost use Rattle.host_run.specs.Hands.{AreAllHands};
ghost use Rattle.host_run.specs.Runs.{HaveRun};
ghost use Rattle.host_run.specs.Seats.{AreHandedOut, AreSeats, IsSeat};

use crate::debugging::serve_port;
use crate::hands::Hands;
use crate::monitoring::{Leave, rule};
use crate::running::run_guest;
use crate::sharing::share;
use crate::switches::Switches;
use cell::{Gate, Seat};
use guest_cells::{Finished, Handles};
use guest_number::GuestNo;
use host::Host;
use monitor_answers::MonitorHand;
use std::alloc::{AllocError, Global};
use std::io::{Read, Write};
use std::net::{Net, TcpListener, TcpStream};
use std::sync::Wait;
use std::thread::{Threads, for_each_mut, join};
use std::time::Duration;
use swapstore::SwapStore;

/// How long a run that ends tries to wake a thread that waits for a connection, in seconds.
const PATIENCE: u64 = 1;

/// What is left of a run.
pub struct RunEnd<S> {
    /// What is left of the host.
    pub finished: Finished<S>,
    /// Why the monitor ended.
    pub leave: Leave,
    /// Whether the last slice of a guest ended by a stop.
    pub stopped: bool,
}

// The runners of all guests, a thread each.
#[tactic(auto, using(crate::proofs::Seats::seat_there, crate::proofs::Seats::seats_left))]
fn run_guests<S, G, R>(
    rt: &R,
    alloc: Global,
    host: &Host<S, G>,
    switches: &Switches,
    mut seats: Vec<Seat>,
) -> Vec<Seat>
where
    S: SwapStore + Drop + Send,
    G: Gate + Drop + Sync,
    R: Threads + Wait + Sync,
    requires switches { length switches.now.stops.items ≡ length host.now.guests.cells.items }
    requires seats { AreSeats 0 host.now.guests.cells.items seats.items }
    requires some { 0 < length host.now.guests.cells.items }
    ensures seats { AreSeats 0 host.now.guests.cells.items result.items }
{
    let count = seats.len();
    let run = |guest: usize, seat: &mut Seat|
        requires { (guest < length host.now.guests.cells.items) × (length switches.now.stops.items ≡ length host.now.guests.cells.items) × AtGuest host.now.guests.cells.items guest (λ front. IsSeat front 0 seat.now) }
        ensures { AtGuest host.entry.now.guests.cells.items guest (λ front. IsSeat front 0 seat.exit.now) }
    { run_guest(rt, alloc, host, switches, number_of(host, guest), seat) };
    for_each_mut(rt, seats.as_mut_slice(), count, &run);
    seats
}

// The guest at a place among all. Its number is small, as the count says.
fn number_of<S: SwapStore + Drop, G: Gate + Drop>(host: &Host<S, G>, place: usize) -> GuestNo
    requires { place < length host.now.guests.cells.items }
    ensures { result ≡ place }
{
    let _count = host.count();
    GuestNo::new(place as u32)
}

// The debugger ports of all guests, a thread each; none where there are no doors.
#[tactic(auto, using(crate::proofs::Seats::seat_there, crate::proofs::Seats::seats_left))]
fn serve_ports<S, G, R>(
    rt: &R,
    alloc: Global,
    host: &Host<S, G>,
    switches: &Switches,
    doors: &[TcpListener],
    mut seats: Vec<Seat>,
) -> Vec<Seat>
where
    S: SwapStore + Drop + Send,
    G: Gate + Drop + Sync,
    R: Threads + Wait + Sync,
    requires switches { length switches.now.stops.items ≡ length host.now.guests.cells.items }
    requires seats { AreSeats 3 host.now.guests.cells.items seats.items }
    requires some { 0 < length host.now.guests.cells.items }
    ensures seats { AreSeats 3 host.now.guests.cells.items result.items }
{
    let count = seats.len();
    let serve = |guest: usize, seat: &mut Seat|
        requires { (guest < length host.now.guests.cells.items) × (length switches.now.stops.items ≡ length host.now.guests.cells.items) × AtGuest host.now.guests.cells.items guest (λ front. IsSeat front 3 seat.now) }
        ensures { AtGuest host.entry.now.guests.cells.items guest (λ front. IsSeat front 3 seat.exit.now) }
    {
        if let Some(door) = doors.get(guest) {
            serve_port(
                rt,
                alloc,
                host,
                switches,
                door,
                number_of(host, guest),
                seat,
            );
        }
    };
    for_each_mut(rt, seats.as_mut_slice(), count, &serve);
    seats
}

// The sharer.
#[tactic(auto, using(crate::proofs::Seats::of_policy, crate::proofs::Seats::to_policy))]
fn share_pages<S, G, R>(
    rt: &R,
    alloc: Global,
    host: &Host<S, G>,
    switches: &Switches,
    mut seats: Vec<Seat>,
) -> Vec<Seat>
where
    S: SwapStore + Drop,
    G: Gate + Drop,
    R: Wait,
    requires { AreSeats 2 host.now.guests.cells.items seats.items }
    ensures { AreSeats 2 host.now.guests.cells.items result.items }
{
    share(rt, alloc, host, switches, seats.as_mut_slice());
    seats
}

// Ends all threads of a run: no guest makes a step for its runner any more, who rests wakes, and who waits for a connection gets one.
fn end<S: SwapStore + Drop, G: Gate + Drop, R: Wait + Net>(
    rt: &R,
    host: &Host<S, G>,
    switches: &Switches,
    doors: &[TcpListener],
) {
    for guest in 0..host.count() {
        host.hold(rt, GuestNo::new(guest as u32));
    }
    switches.end();
    for door in doors {
        if let Ok(address) = door.local_addr() {
            let _ = TcpStream::connect_timeout(rt, &address, Duration::from_secs(PATIENCE));
        }
    }
}

// The monitor, and then the end of all threads.
fn rule_to_end<S, G, R, I, O>(
    rt: &R,
    alloc: Global,
    host: &Host<S, G>,
    switches: &Switches,
    doors: &[TcpListener],
    mut hands: Vec<MonitorHand>,
    input: &mut I,
    out: &mut O,
) -> (Vec<MonitorHand>, Leave)
where
    S: SwapStore + Drop,
    G: Gate + Drop,
    R: Wait + Net,
    I: Read,
    O: Write,
    requires switches { length switches.now.stops.items ≡ length host.now.guests.cells.items }
    requires hands { AreHands host.now.guests.cells.items hands.items }
    ensures hands { AreHands host.now.guests.cells.items result.0.items }
{
    let leave = rule(rt, alloc, host, switches, hands.as_mut_slice(), input, out);
    end(rt, host, switches, doors);
    (hands, leave)
}

// Those who run guests at once: their runners, and those who serve their debugger ports.
fn work<S, G, R>(
    rt: &R,
    alloc: Global,
    host: &Host<S, G>,
    switches: &Switches,
    doors: &[TcpListener],
    runners: Vec<Seat>,
    debuggers: Vec<Seat>,
) -> (Vec<Seat>, Vec<Seat>)
where
    S: SwapStore + Drop + Send,
    G: Gate + Drop + Sync,
    R: Threads + Wait + Sync,
    requires switches { length switches.now.stops.items ≡ length host.now.guests.cells.items }
    requires runners { AreSeats 0 host.now.guests.cells.items runners.items }
    requires debuggers { AreSeats 3 host.now.guests.cells.items debuggers.items }
    requires some { 0 < length host.now.guests.cells.items }
    ensures runners { AreSeats 0 host.now.guests.cells.items result.0.items }
    ensures debuggers { AreSeats 3 host.now.guests.cells.items result.1.items }
{
    join(
        rt,
        || -> Vec<Seat>
            requires switches { length switches.now.stops.items ≡ length host.now.guests.cells.items }
            requires runners { AreSeats 0 host.now.guests.cells.items runners.items }
            requires some { 0 < length host.now.guests.cells.items }
            ensures { AreSeats 0 host.entry.now.guests.cells.items result.items }
        { run_guests(rt, alloc, host, switches, runners) },
        || -> Vec<Seat>
            requires switches { length switches.now.stops.items ≡ length host.now.guests.cells.items }
            requires debuggers { AreSeats 3 host.now.guests.cells.items debuggers.items }
            requires some { 0 < length host.now.guests.cells.items }
            ensures { AreSeats 3 host.entry.now.guests.cells.items result.items }
        { serve_ports(rt, alloc, host, switches, doors, debuggers) },
    )
}

// Those who look after all guests at once: the sharer, and the monitor, which ends all threads.
fn look_after<S, G, R, I, O>(
    rt: &R,
    alloc: Global,
    host: &Host<S, G>,
    switches: &Switches,
    doors: &[TcpListener],
    policies: Vec<Seat>,
    monitors: Vec<MonitorHand>,
    input: &mut I,
    out: &mut O,
) -> (Vec<Seat>, (Vec<MonitorHand>, Leave))
where
    S: SwapStore + Drop + Send,
    G: Gate + Drop + Sync,
    R: Threads + Wait + Net + Sync,
    I: Read,
    O: Write,
    requires switches { length switches.now.stops.items ≡ length host.now.guests.cells.items }
    requires policies { AreSeats 2 host.now.guests.cells.items policies.items }
    requires monitors { AreHands host.now.guests.cells.items monitors.items }
    ensures policies { AreSeats 2 host.now.guests.cells.items result.0.items }
    ensures monitors { AreHands host.now.guests.cells.items result.1.0.items }
{
    join(
        rt,
        || -> Vec<Seat>
            requires { AreSeats 2 host.now.guests.cells.items policies.items }
            ensures { AreSeats 2 host.entry.now.guests.cells.items result.items }
        { share_pages(rt, alloc, host, switches, policies) },
        || -> (Vec<MonitorHand>, Leave)
            requires switches { length switches.now.stops.items ≡ length host.now.guests.cells.items }
            requires monitors { AreHands host.now.guests.cells.items monitors.items }
            ensures { AreHands host.entry.now.guests.cells.items result.0.items }
        { rule_to_end(rt, alloc, host, switches, doors, monitors, input, out) },
    )
}

// All threads at once, until the monitor has ended them.
fn at_once<S, G, R, I, O>(
    rt: &R,
    alloc: Global,
    host: &Host<S, G>,
    switches: &Switches,
    doors: &[TcpListener],
    hands: Hands,
    input: &mut I,
    out: &mut O,
) -> (Hands, Leave)
where
    S: SwapStore + Drop + Send,
    G: Gate + Drop + Sync,
    R: Threads + Wait + Net + Sync,
    I: Read,
    O: Write,
    requires switches { length switches.now.stops.items ≡ length host.now.guests.cells.items }
    requires some { 0 < length host.now.guests.cells.items }
    requires hands { AreAllHands host.now.guests.cells.items hands }
    ensures hands { AreAllHands host.now.guests.cells.items result.0 }
{
    let Hands {
        runners,
        monitors,
        policies,
        debuggers,
        room,
    } = hands;
    let ((runners, debuggers), (policies, (monitors, leave))) = join(
        rt,
        || -> (Vec<Seat>, Vec<Seat>)
            requires switches { length switches.now.stops.items ≡ length host.now.guests.cells.items }
            requires runners { AreSeats 0 host.now.guests.cells.items runners.items }
            requires debuggers { AreSeats 3 host.now.guests.cells.items debuggers.items }
            requires some { 0 < length host.now.guests.cells.items }
            ensures { AreSeats 0 host.entry.now.guests.cells.items result.0.items × AreSeats 3 host.entry.now.guests.cells.items result.1.items }
        { work(rt, alloc, host, switches, doors, runners, debuggers) },
        || -> (Vec<Seat>, (Vec<MonitorHand>, Leave))
            requires switches { length switches.now.stops.items ≡ length host.now.guests.cells.items }
            requires policies { AreSeats 2 host.now.guests.cells.items policies.items }
            requires monitors { AreHands host.now.guests.cells.items monitors.items }
            ensures { AreSeats 2 host.entry.now.guests.cells.items result.0.items × AreHands host.entry.now.guests.cells.items result.1.0.items }
        {
            look_after(
                rt, alloc, host, switches, doors, policies, monitors, input, out,
            )
        },
    );
    let hands = Hands {
        runners,
        monitors,
        policies,
        debuggers,
        room,
    };
    (hands, leave)
}

/// Runs the guests of a host until the monitor ends, which reads `input` and replies to `out`; then ends the host. Guest g has the debugger port of
/// the door at place g; with no doors there are no ports.
///
/// `AllocError` where there was no memory for it before any guest ran: the guests are given up, nothing is read and nothing written.
#[tactic(auto, using(crate::proofs::Dealing::all_hands, crate::proofs::Dealing::handed_back, crate::proofs::Dealing::hands_alike, crate::proofs::Seats::of_all, crate::proofs::Seats::have_run))]
pub fn run<S, G, R, I, O>(
    rt: &R,
    alloc: Global,
    host: Host<S, G>,
    handles: Vec<Handles>,
    doors: &[TcpListener],
    input: &mut I,
    out: &mut O,
) -> Result<RunEnd<S>, AllocError>
where
    S: SwapStore + Drop + Send,
    G: Gate + Drop + Sync,
    R: Threads + Wait + Net + Sync,
    I: Read,
    O: Write,
    requires handles { AreHandedOut host.guests.cells.items handles.items }
    ensures guests { IfOk result (λ left. HaveRun S.true_to_digests host.guests.cells.items left.finished.guests.items) }
    ensures runs { S.true_to_digests host.guests.memory.first → IfOk result (λ left. All (λ e. Intact e.guest) left.finished.guests.items) }
    ensures books { IfOk result (λ left. IsCountOf host.guests.memory.books.key (pages_left left.finished.guests.items) left.finished.books) }
    ensures store { IfOk result (λ left. IsStill S.honest S.true_to_digests host.guests.memory.first left.finished.store) }
    ensures slots { IfOk result (λ left. S.slots left.finished.store ≡ host.guests.memory.books.key.slots) }
    ensures unread { OnErr result (input.new ≡ input.old) }
    ensures unwritten { OnErr result (out.new ≡ out.old) }
{
    let switches = Switches::new(alloc, host.count())?;
    let hands = match Hands::of(alloc, handles) {
        Ok(hands) => hands,
        Err(handles) => {
            drop(handles);
            return Err(AllocError);
        }
    };
    let (hands, leave) = at_once(rt, alloc, &host, &switches, doors, hands, input, out);
    let handles = hands.into_handles();
    let stopped = switches.has_stopped();
    Ok(RunEnd {
        finished: host.finish(rt, handles),
        leave,
        stopped,
    })
}
