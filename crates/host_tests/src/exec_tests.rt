//! One guest of a host, run by one thread in slices, beside the reference machine.
ghost use Rattle.std.specs.Prelude.{◌≡◌, ◌<◌, length};
ghost use Rattle.guest_cells.specs.Handles.{AreHandlesOf};
ghost use Rattle.host.specs.Places.{AtGuest};
ghost use Rattle.host_tests.specs.Each.{AreHandedOut};

use crate::bench::{expect, run};
use crate::images::{BUSY, STANDING, WALKING, image_of, shared_image};
use booting::{Config, NewGuest};
use cell::{Ended, Open};
use dump::{dump, steps_in};
use flatvm::Flat;
use guest::Guest;
use guest_cells::{Finished, Handles};
use guest_number::GuestNo;
use host::{Booted, Host, PolicyConfig, Ran};
use items::What;
use mips_cp0::Profile;
use std::alloc::Global;
use std::process::Abort;
use std::sync::Wait;
use swapstore::MemStore;
use taxpolicy::Tax;

/// How many pages the guest has, and how many frames there are.
const PAGES: u32 = 16;

/// How many steps a slice has.
const SLICE: u32 = 1024;

/// How many steps are made.
static COUNTS: [u32; 6] = [0, 1, 1023, 1024, 1025, 30_000];

/// How many bytes are put for the console before the first step: fewer than it has room for.
const INPUT: usize = 200;

// The bytes that are put for the console.
fn input_bytes() -> [u8; 200] {
    let mut bytes = [0; 200];
    for k in 0..INPUT {
        bytes[k] = (k + 1) as u8;
    }
    bytes
}

fn only_guest(rt: &impl Abort, alloc: Global, words: &[u32]) -> Vec<NewGuest> {
    let guest = NewGuest {
        profile: Profile::One,
        image: shared_image(rt, alloc, words),
        pages: PAGES,
        shares: 100,
        minimum: 2,
    };
    match Vec::from_array(alloc, [guest]) {
        Ok(guests) => guests,
        Err(_) => panic!(rt; "no memory for the guest"),
    }
}

// A host of one guest that runs these words.
#[tactic(auto, using(crate::proofs::Places::handed_out))]
fn booted<R: Abort + Wait>(rt: &R, alloc: Global, words: &[u32]) -> Booted<MemStore, Open>
    ensures { AreHandedOut result.host.guests.cells.items result.handles.items }
{
    let Ok(store) = MemStore::new(alloc, 0) else {
        panic!(rt; "no memory for the store");
    };
    let config = Config {
        frames: PAGES,
        log_runs: 1 << 20,
        admit: false,
    };
    let policy = PolicyConfig {
        tax: Tax { percent: 75 },
        seed: 0,
    };
    let guests = only_guest(rt, alloc, words);
    match Host::boot(rt, alloc, config, policy, guests, store, Open) {
        Ok(booted) => booted,
        Err((error, _store)) => panic!(rt; "no host: {error:?}"),
    }
}

// What was handed out of the only guest.
#[tactic(auto, using(crate::proofs::TwoGuests::only_one, crate::proofs::Seats::its_handles))]
fn only_handles(rt: &impl Abort, host: &Host<MemStore, Open>, mut handles: Vec<Handles>) -> Handles
    requires { AreHandedOut host.now.guests.cells.items handles.items }
    ensures guests { length host.now.guests.cells.items ≡ 1 }
    ensures handles { AtGuest host.now.guests.cells.items 0 (λ front. AreHandlesOf front result) }
{
    if host.count() != 1 {
        panic!(rt; "not one guest");
    }
    if handles.len() != 1 {
        panic!(rt; "not one's handles");
    }
    match handles.pop() {
        Some(one) => one,
        None => panic!(rt; "no handles"),
    }
}

// Bytes are put for the console.
#[tactic(auto, using(crate::proofs::Seats::feed_of, crate::proofs::Seats::with_feed))]
fn feed<R: Wait>(rt: &R, host: &Host<MemStore, Open>, handles: &mut Handles, bytes: &[u8]) -> usize
    requires guest { 0 < length host.now.guests.cells.items }
    requires handles { AtGuest host.now.guests.cells.items 0 (λ front. AreHandlesOf front handles.old) }
    ensures { AtGuest host.now.guests.cells.items 0 (λ front. AreHandlesOf front handles.new) }
{
    host.feed(rt, GuestNo::new(0), &mut handles.feed, bytes)
}

// So many steps, in slices.
fn run_on<R: Abort + Wait>(
    rt: &R,
    alloc: Global,
    host: &Host<MemStore, Open>,
    handles: &mut Handles,
    steps: u32,
)
    requires guest { 0 < length host.now.guests.cells.items }
    requires handles { AtGuest host.now.guests.cells.items 0 (λ front. AreHandlesOf front handles.old) }
    ensures { AtGuest host.now.guests.cells.items 0 (λ front. AreHandlesOf front handles.new) }
{
    let mut left = steps;
    for _ in 0..steps.div_ceil(SLICE) {
        let count = left.min(SLICE);
        let ran = run(rt, alloc, host, GuestNo::new(0), handles, count);
        expect(rt, "a slice", ran, Ran::Ran(count));
        left = left.saturating_sub(count);
    }
}

// The host ends.
fn finish<R: Abort + Wait>(
    rt: &R,
    alloc: Global,
    host: Host<MemStore, Open>,
    handles: Handles,
) -> Finished<MemStore>
    requires guests { length host.guests.cells.items ≡ 1 }
    requires handles { AtGuest host.guests.cells.items 0 (λ front. AreHandlesOf front handles) }
{
    match Vec::from_array(alloc, [handles]) {
        Ok(handles) => host.finish(rt, handles),
        Err(_) => panic!(rt; "no memory for the handles"),
    }
}

// What the host leaves once its guest has made so many steps of these words.
fn run_in_host<R: Abort + Wait>(
    rt: &R,
    alloc: Global,
    words: &[u32],
    steps: u32,
) -> Finished<MemStore> {
    let Booted { host, handles } = booted(rt, alloc, words);
    let mut handles = only_handles(rt, &host, handles);
    let put = feed(rt, &host, &mut handles, &input_bytes());
    expect(rt, "input", put, INPUT);
    run_on(rt, alloc, &host, &mut handles, steps);
    finish(rt, alloc, host, handles)
}

// The bytes come to the console of the reference machine.
fn feed_flat(rt: &impl Abort, flat: &mut Flat) {
    for byte in &input_bytes() {
        match flat.input(&What::In(*byte)) {
            Ok(reply) => drop(reply),
            Err(_) => panic!(rt; "the console is full"),
        }
    }
}

fn step_flat(flat: &mut Flat, steps: u32) {
    for _ in 0..steps {
        flat.step();
    }
}

// The reference machine after so many steps of these words. The bytes come before the first one, if there is one.
fn run_flat(rt: &impl Abort, alloc: Global, words: &[u32], steps: u32) -> Flat {
    let image = image_of(rt, alloc, words);
    if !image.fits(PAGES) {
        panic!(rt; "the image has no room");
    }
    let Ok(mut flat) = Flat::boot(alloc, Profile::One, &image, PAGES) else {
        panic!(rt; "no memory for the reference machine");
    };
    if steps > 0 {
        feed_flat(rt, &mut flat);
    }
    step_flat(&mut flat, steps);
    flat
}

// The guest has made so many steps, and is what the reference machine is.
fn compare(rt: &impl Abort, alloc: Global, guest: &Guest, flat: &Flat, steps: u32) {
    let made = steps_in(guest.log());
    expect(rt, "steps", made, u64::from(steps));
    let (Ok(wanted), Ok(got)) = (
        dump(alloc, flat.view(), made, None),
        dump(alloc, guest.view(), made, None),
    ) else {
        panic!(rt; "no memory for the dumps");
    };
    assert!(rt; got == wanted, "{got}, not {wanted}");
}

// How many bytes still wait for the console: all where no step was made.
fn waiting(steps: u32) -> usize {
    if steps == 0 { INPUT } else { 0 }
}

// The only guest has left what the reference machine comes to.
fn compare_left(rt: &impl Abort, alloc: Global, mut ended: Vec<Ended>, flat: &Flat, steps: u32) {
    while let Some(one) = ended.pop() {
        let Ended {
            guest,
            stake,
            seats,
            rest,
            keeper,
        } = one;
        drop(stake);
        drop(seats);
        drop(keeper);
        expect(rt, "waiting", rest.len(), waiting(steps));
        drop(rest);
        compare(rt, alloc, &guest, flat, steps);
        guest.close();
    }
    ended.destroy_empty();
}

fn check<R: Abort + Wait>(rt: &R, alloc: Global, words: &[u32], steps: u32) {
    let flat = run_flat(rt, alloc, words, steps);
    let Finished {
        books,
        guests,
        store,
    } = run_in_host(rt, alloc, words, steps);
    drop(store);
    let frames = books.free.saturating_add(books.private);
    expect(rt, "frames", frames, u64::from(PAGES));
    compare_left(rt, alloc, guests, &flat, steps);
}

fn check_all<R: Abort + Wait>(rt: &R, alloc: Global, words: &[u32]) {
    for steps in &COUNTS {
        check(rt, alloc, words, *steps);
    }
}

#[test]
fn a_guest_in_a_host_comes_to_what_the_reference_machine_comes_to(rt: HostRuntime) {
    let alloc = rt.alloc();
    check_all(&rt, alloc, &STANDING);
    check_all(&rt, alloc, &WALKING);
    check_all(&rt, alloc, &BUSY);
}
