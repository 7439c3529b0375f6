//! A host of two guests.
ghost use Rattle.std.specs.Prelude.{◌≡◌, ◌<◌, length};
ghost use Rattle.guest_cells.specs.Handles.{AreHandlesOf};
ghost use Rattle.host_tests.specs.Each.{AreHandedOut};
ghost use Rattle.host.specs.Debugging.{IsSmall};
ghost use Rattle.host.specs.Places.{AtGuest};

use crate::images::shared_image;
use booting::{Config, NewGuest};
use cell::Gate;
use guest_cells::Handles;
use guest_number::GuestNo;
use host::{Booted, DebugError, Host, PolicyConfig, Ran, Reply, Request};
use mips_cp0::Profile;
use std::alloc::Global;
use std::fmt::Debug;
use std::process::Abort;
use std::sync::Wait;
use swapstore::MemStore;
use taxpolicy::Tax;

/// What a bench is to have.
#[derive(Clone, Copy)]
pub(crate) struct Wanted {
    /// How many frames.
    pub(crate) frames: u32,
    /// How many slots.
    pub(crate) slots: u32,
    /// How many pages each guest has.
    pub(crate) pages: u32,
    /// How many of its resident pages each guest always keeps.
    pub(crate) minimum: u32,
}

/// Asserts one case. The tests share it, since each assertion in a function's own body makes its proof much longer.
pub(crate) fn expect<T: PartialEq + Debug + Drop>(
    rt: &impl Abort,
    case: &'static str,
    got: T,
    wanted: T,
) {
    assert!(rt; got == wanted, "{case}: {got:?}, not {wanted:?}");
}

fn new_guest(rt: &impl Abort, alloc: Global, words: &[u32], wanted: &Wanted) -> NewGuest {
    NewGuest {
        profile: Profile::One,
        image: shared_image(rt, alloc, words),
        pages: wanted.pages,
        shares: 100,
        minimum: wanted.minimum,
    }
}

fn two_guests(rt: &impl Abort, alloc: Global, words: &[u32], wanted: &Wanted) -> Vec<NewGuest> {
    let mut guests = Vec::new(alloc);
    for _ in 0..2 {
        if guests.push(new_guest(rt, alloc, words, wanted)).is_err() {
            panic!(rt; "no memory for the guests");
        }
    }
    guests
}

/// A host of two guests, and what was handed out of them.
#[derive(Drop)]
pub(crate) struct Bench<G: Gate + Drop> {
    /// The host.
    pub(crate) host: Host<MemStore, G>,
    /// What was handed out of guest 0.
    pub(crate) one: Handles,
    /// What was handed out of guest 1.
    pub(crate) two: Handles,
    /// There are two guests.
    pub(crate) ghost two_guests: { length host.guests.cells.items ≡ 2 },
    /// The first handles are guest 0's.
    pub(crate) ghost of_one: { AtGuest host.guests.cells.items 0 (λ front. AreHandlesOf front one) },
    /// The second ones are guest 1's.
    pub(crate) ghost of_two: { AtGuest host.guests.cells.items 1 (λ front. AreHandlesOf front two) },
}

// A host of two guests with their handles.
fn bench_of<G: Gate + Drop>(
    rt: &impl Abort,
    host: Host<MemStore, G>,
    mut handles: Vec<Handles>,
) -> Bench<G>
    requires { AreHandedOut host.guests.cells.items handles.items }
{
    if host.count() != 2 {
        panic!(rt; "not two guests");
    }
    if handles.len() != 2 {
        panic!(rt; "not two handles");
    }
    let Some(two) = handles.pop() else {
        panic!(rt; "no handles");
    };
    let Some(one) = handles.pop() else {
        panic!(rt; "no handles");
    };
    Bench { host, one, two }
}

/// A host of two guests that run the same words.
#[tactic(auto, using(crate::proofs::Places::handed_out))]
pub(crate) fn booted<R: Abort + Wait, G: Gate + Drop>(
    rt: &R,
    alloc: Global,
    words: &[u32],
    wanted: &Wanted,
    gate: G,
) -> Bench<G> {
    let guests = two_guests(rt, alloc, words, wanted);
    let Ok(store) = MemStore::new(alloc, wanted.slots) else {
        panic!(rt; "no memory for the store");
    };
    let config = Config {
        frames: wanted.frames,
        log_runs: 65_536,
        admit: false,
    };
    let policy = PolicyConfig {
        tax: Tax { percent: 75 },
        seed: 1,
    };
    match Host::boot(rt, alloc, config, policy, guests, store, gate) {
        Ok(booted) => {
            let Booted { host, handles } = booted;
            bench_of(rt, host, handles)
        }
        Err((error, _store)) => panic!(rt; "no host: {error:?}"),
    }
}

/// A slice of a guest's runner.
#[tactic(auto, using(crate::proofs::Seats::runner_of, crate::proofs::Seats::with_runner))]
pub(crate) fn run<R: Wait, G: Gate + Drop>(
    rt: &R,
    alloc: Global,
    host: &Host<MemStore, G>,
    guest: GuestNo,
    handles: &mut Handles,
    count: u32,
) -> Ran
    requires guest { guest < length host.now.guests.cells.items }
    requires handles { AtGuest host.now.guests.cells.items guest (λ front. AreHandlesOf front handles.old) }
    ensures { AtGuest host.now.guests.cells.items guest (λ front. AreHandlesOf front handles.new) }
{
    host.run_slice(rt, alloc, guest, &mut handles.seats.runner, count)
}

// A slice of a guest's debugger.
#[tactic(auto, using(crate::proofs::Seats::debugger_of, crate::proofs::Seats::with_debugger))]
fn step<R: Wait, G: Gate + Drop>(
    rt: &R,
    alloc: Global,
    host: &Host<MemStore, G>,
    guest: GuestNo,
    handles: &mut Handles,
    count: u32,
) -> Ran
    requires guest { guest < length host.now.guests.cells.items }
    requires handles { AtGuest host.now.guests.cells.items guest (λ front. AreHandlesOf front handles.old) }
    ensures { AtGuest host.now.guests.cells.items guest (λ front. AreHandlesOf front handles.new) }
{
    host.run_slice(rt, alloc, guest, &mut handles.seats.debugger, count)
}

// What a debugger asks of a guest.
#[tactic(auto, using(crate::proofs::Seats::debugger_of, crate::proofs::Seats::with_debugger))]
fn ask<R: Wait, G: Gate + Drop>(
    rt: &R,
    alloc: Global,
    host: &Host<MemStore, G>,
    guest: GuestNo,
    handles: &mut Handles,
    request: Request,
) -> Result<Reply, DebugError>
    requires guest { guest < length host.now.guests.cells.items }
    requires handles { AtGuest host.now.guests.cells.items guest (λ front. AreHandlesOf front handles.old) }
    requires small { IsSmall request }
    ensures { AtGuest host.now.guests.cells.items guest (λ front. AreHandlesOf front handles.new) }
{
    host.debug(rt, alloc, guest, &mut handles.seats.debugger, request)
}

impl<G: Gate + Drop> Bench<G> {
    /// A slice of guest 0's runner.
    pub(crate) fn run_one<R: Wait>(&mut self, rt: &R, alloc: Global, count: u32) -> Ran {
        run(rt, alloc, &self.host, GuestNo::new(0), &mut self.one, count)
    }

    /// A slice of guest 1's runner.
    pub(crate) fn run_two<R: Wait>(&mut self, rt: &R, alloc: Global, count: u32) -> Ran {
        run(rt, alloc, &self.host, GuestNo::new(1), &mut self.two, count)
    }

    /// A slice of guest 0's debugger.
    pub(crate) fn step_one<R: Wait>(&mut self, rt: &R, alloc: Global, count: u32) -> Ran {
        step(rt, alloc, &self.host, GuestNo::new(0), &mut self.one, count)
    }

    /// What a debugger asks of guest 0.
    pub(crate) fn ask_one<R: Wait>(
        &mut self,
        rt: &R,
        alloc: Global,
        request: Request,
    ) -> Result<Reply, DebugError>
        requires { IsSmall request }
    {
        ask(
            rt,
            alloc,
            &self.host,
            GuestNo::new(0),
            &mut self.one,
            request,
        )
    }

    /// What a debugger asks of guest 1.
    pub(crate) fn ask_two<R: Wait>(
        &mut self,
        rt: &R,
        alloc: Global,
        request: Request,
    ) -> Result<Reply, DebugError>
        requires { IsSmall request }
    {
        ask(
            rt,
            alloc,
            &self.host,
            GuestNo::new(1),
            &mut self.two,
            request,
        )
    }
}
