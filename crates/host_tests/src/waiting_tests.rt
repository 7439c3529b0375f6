//! A guest that waits under its lock before a step, while a thread runs another one, a thread scans pages, and a thread makes the policy's turns.
ghost use Rattle.std.specs.Prelude.{◌≡◌, ◌<◌, length};
ghost use Rattle.cell.specs.Sitting.{IsOf};
ghost use Rattle.host.specs.Places.{AtGuest};
ghost use Rattle.host_policy.specs.Turns.{ArePolicySeats};

use crate::bench::expect;
use crate::images::STANDING;
use crate::pairs::{Asked, Pair, at_level, books, booted_pair, memory_store};
use cell::{Gate, Seat};
use guest_number::GuestNo;
use host::{Host, Ran};
use reclaim::Level;
use std::alloc::Global;
use std::process::Abort;
use std::sync::Wait;
use std::sync::atomic::{AtomicU32, Ordering};
use std::thread::{Threads, join};
use swapstore::MemStore;

/// How often guest 0 looks at most.
const LOOKS: u32 = 2_000_000_000;

/// How many steps guest 1 makes, and how often its pages are scanned, before guest 0 may make its first.
const MOST: u32 = 100;

/// How many turns the policy makes.
const TURNS: u32 = 10;

/// Holds guest 0 before a step until guest 1 has made 100 steps and its pages were scanned 100 times, or it has looked 2,000,000,000 times.
#[derive(Drop)]
struct Waiting {
    made: AtomicU32,
    scanned: AtomicU32,
    in_vain: AtomicU32,
}

impl Gate for Waiting {
    fn before_step(&self, guest: GuestNo, done: u32) {
        if guest.number() == 1 {
            self.made.store(done, Ordering::SeqCst);
            return;
        }
        for _ in 0..LOOKS {
            let made = self.made.load(Ordering::SeqCst);
            if made >= MOST && self.scanned.load(Ordering::SeqCst) >= MOST {
                return;
            }
        }
        self.in_vain.store(1, Ordering::SeqCst);
    }

    fn quiet(&self, _guest: GuestNo, _done: u32) -> u32 {
        1
    }
}

/// A host with that gate.
type Held = Host<MemStore, Waiting>;

// A slice of a guest.
fn slice<R: Wait>(
    rt: &R,
    alloc: Global,
    host: &Held,
    guest: GuestNo,
    mut seat: Seat,
    count: u32,
) -> Ran
    requires guest { guest < length host.now.guests.cells.items }
    requires seat { AtGuest host.now.guests.cells.items guest (λ front. IsOf front seat) }
{
    host.run_slice(rt, alloc, guest, &mut seat, count)
}

// The pages of guest 1 are scanned.
fn shares_second<R: Wait>(rt: &R, host: &Held) {
    for k in 0..MOST {
        let _ = host.scan_page(rt, GuestNo::new(1), k % 16);
        host.gate.scanned.store(k + 1, Ordering::SeqCst);
    }
}

// The pages of both are.
fn shares<R: Wait>(rt: &R, host: &Held) {
    shares_second(rt, host);
    for k in 0..MOST {
        let _ = host.scan_page(rt, GuestNo::new(k % 2), k / 2 % 16);
    }
}

// Turns of the policy. The answer is how many were not at the level high.
fn turns<R: Wait>(rt: &R, alloc: Global, host: &Held, mut seats: Vec<Seat>) -> u32
    requires { ArePolicySeats host.now.guests.cells.items seats.items }
{
    let mut strays = 0u32;
    for _ in 0..TURNS {
        let made = host.policy_turn(rt, alloc, &mut seats);
        if made != Ok(at_level(Level::High)) {
            strays = strays.saturating_add(1);
        }
    }
    strays
}

// The sharer and the policy at once.
fn look_after<R: Threads + Wait + Sync>(
    rt: &R,
    alloc: Global,
    host: &Held,
    policies: Vec<Seat>,
) -> u32
    requires { ArePolicySeats host.now.guests.cells.items policies.items }
{
    let ((), strays) = join(
        rt,
        || shares(rt, host),
        || -> u32
            requires { ArePolicySeats host.now.guests.cells.items policies.items }
        { turns(rt, alloc, host, policies) },
    );
    strays
}

// Guest 1 and those who look after the memory at once.
fn run_second<R: Threads + Wait + Sync>(
    rt: &R,
    alloc: Global,
    host: &Held,
    second: Seat,
    policies: Vec<Seat>,
) -> (Ran, u32)
    requires guests { length host.now.guests.cells.items ≡ 2 }
    requires seat { AtGuest host.now.guests.cells.items 1 (λ front. IsOf front second) }
    requires policies { ArePolicySeats host.now.guests.cells.items policies.items }
{
    join(
        rt,
        || -> Ran
            requires guests { length host.now.guests.cells.items ≡ 2 }
            requires seat { AtGuest host.now.guests.cells.items 1 (λ front. IsOf front second) }
        { slice(rt, alloc, host, GuestNo::new(1), second, MOST + 1) },
        || -> u32
            requires policies { ArePolicySeats host.now.guests.cells.items policies.items }
        { look_after(rt, alloc, host, policies) },
    )
}

// All of them at once, and the host that they leave.
fn all_at_once<R: Abort + Threads + Wait + Sync>(
    rt: &R,
    alloc: Global,
    pair: Pair<MemStore, Waiting>,
) -> Held {
    let Pair {
        host,
        first,
        second,
        first_debugger: _,
        second_debugger: _,
        policies,
    } = pair;
    let (one, (two, strays)) = join(
        rt,
        || -> Ran
            requires guests { length host.guests.cells.items ≡ 2 }
            requires seat { AtGuest host.guests.cells.items 0 (λ front. IsOf front first) }
        { slice(rt, alloc, &host, GuestNo::new(0), first, 1) },
        || -> (Ran, u32)
            requires guests { length host.guests.cells.items ≡ 2 }
            requires seat { AtGuest host.guests.cells.items 1 (λ front. IsOf front second) }
            requires policies { ArePolicySeats host.guests.cells.items policies.items }
        { run_second(rt, alloc, &host, second, policies) },
    );
    expect(rt, "slices", (one, two), (Ran::Ran(1), Ran::Ran(101)));
    expect(rt, "turns", strays, 0);
    host
}

#[test]
fn a_guest_that_waits_holds_up_neither_another_nor_its_scans_while_the_policy_makes_turns(
    rt: HostRuntime,
) {
    let alloc = rt.alloc();
    let asked = Asked {
        words: &STANDING,
        first: 1,
        others: &[],
        pages: 16,
    };
    let gate = Waiting {
        made: AtomicU32::new(0),
        scanned: AtomicU32::new(0),
        in_vain: AtomicU32::new(0),
    };
    let store = memory_store(&rt, alloc, 0);
    let pair = booted_pair(&rt, alloc, 40, &[asked, asked], store, gate);
    let host = all_at_once(&rt, alloc, pair);
    expect(&rt, "in vain", host.gate.in_vain.load(Ordering::SeqCst), 0);
    // Page 0 is the only one in a frame, and has the same words in both: guest 1's was noted first, and then guest 0's was admitted.
    let shared = books(40, 39, 0, 1, 2, 0, 0);
    expect(&rt, "books", host.audit(&rt), shared);
}
