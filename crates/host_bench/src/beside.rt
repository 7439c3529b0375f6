//! Calls to a guest while another thread runs it.
ghost use Rattle.std.specs.Prelude.{◌≡◌, ◌<◌, ◌≤◌, ◌*◌, length, IfOk};
ghost use Rattle.cell.specs.Sitting.{IsOf};
ghost use Rattle.host.specs.Places.{AtGuest};
ghost use Rattle.guest_cells.specs.Handles.{AreHandlesOf};
ghost use Rattle.host_bench.specs.Answers.{CallsAnswer};

use crate::guests::STEPS;
use crate::hosts::{Hosted, OneHost, boot_host};
use crate::reading::is_first_word;
use cell::{Seat, Seats};
use console_queue::FeedPass;
use guest_cells::Handles;
use guest_number::GuestNo;
use std::alloc::{AllocError, Global};
use std::sync::Wait;
use std::sync::atomic::{AtomicU32, Ordering};
use std::thread::{Threads, join};

/// What is called.
#[derive(Clone, Copy)]
pub enum Call {
    /// Three bytes are put for the guest's console. It never takes any, so none is put once the queue and the console are full.
    Feed,
    /// A seat looks how long the guest's log is.
    Seen,
    /// A debugger reads four bytes of the guest.
    Read,
}

/// What the two threads tell each other.
#[derive(Drop)]
struct Switches {
    /// 1 once the guest has had a slice.
    running: AtomicU32,
    /// 1 once all calls are made.
    done: AtomicU32,
}

// Slices of the guest, at least one, until all calls are made.
fn run_on<R: Wait>(rt: &R, alloc: Global, host: &OneHost, mut seat: Seat, switches: &Switches)
    requires guest { 0 < length host.now.guests.cells.items }
    requires seat { AtGuest host.now.guests.cells.items 0 (λ front. IsOf front seat) }
{
    for _ in rt.forever() {
        let _ran = host.run_slice(rt, alloc, GuestNo::new(0), &mut seat, STEPS);
        switches.running.store(1, Ordering::SeqCst);
        if switches.done.load(Ordering::SeqCst) == 1 {
            return;
        }
    }
    unreachable!()
}

// Waits for the guest's first slice.
fn await_running<R: Wait>(rt: &R, switches: &Switches) {
    for _ in rt.forever() {
        if switches.running.load(Ordering::SeqCst) == 1 {
            return;
        }
    }
    unreachable!()
}

// How many bytes were put.
fn feed_each<R: Wait>(rt: &R, host: &OneHost, mut feed: FeedPass, count: u32) -> u64
    requires guest { 0 < length host.now.guests.cells.items }
    requires feed { AtGuest host.now.guests.cells.items 0 (λ front. feed.queue ≡ front.queue.id) }
    ensures { result ≤ 3 * count }
{
    let mut put: u64 = 0;
    for _round in 0..count {
        put += host.feed(rt, GuestNo::new(0), &mut feed, &[1, 2, 3]) as u64;
    }
    put
}

// How often a log was seen as long as before, or longer.
#[tactic(auto, using(crate::proofs::Looks::no_less))]
fn look_each(host: &OneHost, mut seat: Seat, count: u32) -> u64
    requires guest { 0 < length host.now.guests.cells.items }
    requires seat { AtGuest host.now.guests.cells.items 0 (λ front. IsOf front seat) }
    ensures { result ≡ count }
{
    let mut longer: u64 = 0;
    let mut before = 0;
    for _round in 0..count {
        let now = host.seen(GuestNo::new(0), &mut seat);
        if now >= before {
            longer += 1;
        }
        before = now;
    }
    longer
}

// How often the guest's first word was read.
fn read_each<R: Wait>(rt: &R, alloc: Global, host: &OneHost, mut seat: Seat, count: u32) -> u64
    requires guest { 0 < length host.now.guests.cells.items }
    requires seat { AtGuest host.now.guests.cells.items 0 (λ front. IsOf front seat) }
    ensures { result ≤ count }
{
    let mut read: u64 = 0;
    for _round in 0..count {
        if is_first_word(rt, alloc, host, &mut seat, 0) {
            read += 1;
        }
    }
    read
}

/// What calls go by.
#[derive(Drop)]
struct Caller {
    console: Seat,
    debugger: Seat,
    feed: FeedPass,
}

// Calls while the guest runs.
fn call_each<R: Wait>(
    rt: &R,
    alloc: Global,
    host: &OneHost,
    caller: Caller,
    call: Call,
    count: u32,
) -> u64
    requires guest { 0 < length host.now.guests.cells.items }
    requires console { AtGuest host.now.guests.cells.items 0 (λ front. IsOf front caller.console) }
    requires debugger { AtGuest host.now.guests.cells.items 0 (λ front. IsOf front caller.debugger) }
    requires feed { AtGuest host.now.guests.cells.items 0 (λ front. caller.feed.queue ≡ front.queue.id) }
    ensures { CallsAnswer call count result }
{
    let Caller {
        console,
        debugger,
        feed,
    } = caller;
    match call {
        Call::Feed => feed_each(rt, host, feed, count),
        Call::Seen => look_each(host, console, count),
        Call::Read => read_each(rt, alloc, host, debugger, count),
    }
}

// The same, from the guest's first slice on; and the other thread is told when all calls are made.
fn call_and_tell<R: Wait>(
    rt: &R,
    alloc: Global,
    host: &OneHost,
    caller: Caller,
    call: Call,
    count: u32,
    switches: &Switches,
) -> u64
    requires guest { 0 < length host.now.guests.cells.items }
    requires console { AtGuest host.now.guests.cells.items 0 (λ front. IsOf front caller.console) }
    requires debugger { AtGuest host.now.guests.cells.items 0 (λ front. IsOf front caller.debugger) }
    requires feed { AtGuest host.now.guests.cells.items 0 (λ front. caller.feed.queue ≡ front.queue.id) }
    ensures { CallsAnswer call count result }
{
    await_running(rt, switches);
    let answer = call_each(rt, alloc, host, caller, call, count);
    switches.done.store(1, Ordering::SeqCst);
    answer
}

// One thread runs the guest, and the other calls.
fn at_once<R: Threads + Wait + Sync>(
    rt: &R,
    alloc: Global,
    host: &OneHost,
    runner: Seat,
    caller: Caller,
    call: Call,
    count: u32,
) -> u64
    requires guest { 0 < length host.now.guests.cells.items }
    requires runner { AtGuest host.now.guests.cells.items 0 (λ front. IsOf front runner) }
    requires console { AtGuest host.now.guests.cells.items 0 (λ front. IsOf front caller.console) }
    requires debugger { AtGuest host.now.guests.cells.items 0 (λ front. IsOf front caller.debugger) }
    requires feed { AtGuest host.now.guests.cells.items 0 (λ front. caller.feed.queue ≡ front.queue.id) }
    ensures { CallsAnswer call count result }
{
    let switches = Switches {
        running: AtomicU32::new(0),
        done: AtomicU32::new(0),
    };
    let ((), answer) = join(
        rt,
        || -> ()
            requires guest { 0 < length host.now.guests.cells.items }
            requires runner { AtGuest host.now.guests.cells.items 0 (λ front. IsOf front runner) }
        { run_on(rt, alloc, host, runner, &switches) },
        || -> u64
            requires guest { 0 < length host.now.guests.cells.items }
            requires console { AtGuest host.now.guests.cells.items 0 (λ front. IsOf front caller.console) }
            requires debugger { AtGuest host.now.guests.cells.items 0 (λ front. IsOf front caller.debugger) }
            requires feed { AtGuest host.now.guests.cells.items 0 (λ front. caller.feed.queue ≡ front.queue.id) }
            ensures { CallsAnswer call count result }
        { call_and_tell(rt, alloc, host, caller, call, count, &switches) },
    );
    answer
}

/// Calls so many times while another thread runs the guest by slices of 1,024 steps; how many bytes were put, or how many calls were
/// answered as they must be. `AllocError` where memory is refused.
#[tactic(auto, using(crate::proofs::Seats::runner_of, crate::proofs::Seats::console_of, crate::proofs::Seats::debugger_of, crate::proofs::Seats::feed_of))]
pub fn calls<R: Threads + Wait + Sync>(
    rt: &R,
    alloc: Global,
    call: Call,
    count: u32,
) -> Result<u64, AllocError>
    ensures { IfOk result (CallsAnswer call count) }
{
    let Hosted { host, handles } = boot_host(rt, alloc)?;
    let Handles { seats, feed } = handles;
    let Seats {
        runner,
        console,
        policy: _,
        debugger,
    } = seats;
    let caller = Caller {
        console,
        debugger,
        feed,
    };
    Ok(at_once(rt, alloc, &host, runner, caller, call, count))
}
