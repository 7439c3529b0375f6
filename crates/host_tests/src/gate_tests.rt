//! Threads that really run at once: one guest waits before a step until the other has made its own.
ghost use Rattle.std.specs.Prelude.{◌≡◌, ◌<◌, length};
ghost use Rattle.cell.specs.Sitting.{IsOf};
ghost use Rattle.host.specs.Places.{AtGuest};

use crate::bench::{Bench, Wanted, booted, expect};
use crate::images::STANDING;
use cell::{Gate, Seat, Seats};
use guest_cells::Handles;
use guest_number::GuestNo;
use host::{Host, Ran};
use std::alloc::Global;
use std::sync::Wait;
use std::sync::atomic::{AtomicU32, Ordering};
use std::thread::{Threads, join};
use swapstore::MemStore;

/// How often guest 0 looks at most.
const LOOKS: u32 = 2_000_000_000;

/// How many steps guest 1 makes before guest 0 may make its first.
const STEPS: u32 = 100;

/// Holds guest 0 before a step until guest 1 has made 100 steps, or it has looked 2,000,000,000 times.
#[derive(Drop)]
struct Waiting {
    made: AtomicU32,
    in_vain: AtomicU32,
}

impl Gate for Waiting {
    fn before_step(&self, guest: GuestNo, done: u32) {
        if guest.number() == 1 {
            self.made.store(done, Ordering::SeqCst);
            return;
        }
        for _ in 0..LOOKS {
            if self.made.load(Ordering::SeqCst) >= STEPS {
                return;
            }
        }
        self.in_vain.store(1, Ordering::SeqCst);
    }

    fn quiet(&self, _guest: GuestNo, _done: u32) -> u32 {
        1
    }
}

// A slice of a guest.
fn runs<R: Wait>(
    rt: &R,
    alloc: Global,
    host: &Host<MemStore, Waiting>,
    guest: GuestNo,
    mut seat: Seat,
    count: u32,
) -> Ran
    requires guest { guest < length host.now.guests.cells.items }
    requires seat { AtGuest host.now.guests.cells.items guest (λ front. IsOf front seat) }
{
    host.run_slice(rt, alloc, guest, &mut seat, count)
}

// Both guests at once. The answers are how their slices ended.
#[tactic(auto, using(crate::proofs::Seats::runner_of))]
fn at_once<R: Threads + Wait + Sync>(
    rt: &R,
    alloc: Global,
    bench: Bench<Waiting>,
) -> (Ran, Ran, u32) {
    let Bench { host, one, two } = bench;
    let Handles { seats, feed } = one;
    drop(feed);
    let Seats {
        runner: first,
        console: _,
        policy: _,
        debugger: _,
    } = seats;
    let Handles { seats, feed } = two;
    drop(feed);
    let Seats {
        runner: second,
        console: _,
        policy: _,
        debugger: _,
    } = seats;
    let (one, two) = join(
        rt,
        || -> Ran
            requires guests { length host.guests.cells.items ≡ 2 }
            requires seat { AtGuest host.guests.cells.items 0 (λ front. IsOf front first) }
        { runs(rt, alloc, &host, GuestNo::new(0), first, 1) },
        || -> Ran
            requires guests { length host.guests.cells.items ≡ 2 }
            requires seat { AtGuest host.guests.cells.items 1 (λ front. IsOf front second) }
        { runs(rt, alloc, &host, GuestNo::new(1), second, STEPS + 1) },
    );
    (one, two, host.gate.in_vain.load(Ordering::SeqCst))
}

#[test]
fn a_guest_waits_under_its_lock_while_another_runs(rt: HostRuntime) {
    let alloc = rt.alloc();
    let wanted = Wanted {
        frames: 40,
        slots: 0,
        pages: 16,
        minimum: 2,
    };
    let gate = Waiting {
        made: AtomicU32::new(0),
        in_vain: AtomicU32::new(0),
    };
    let bench = booted(&rt, alloc, &STANDING, &wanted, gate);
    let ended = at_once(&rt, alloc, bench);
    expect(&rt, "both", ended, (Ran::Ran(1), Ran::Ran(101), 0));
}
