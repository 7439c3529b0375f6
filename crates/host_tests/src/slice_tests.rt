//! Slices of guests of a host, and what its memory lacks.
use crate::bench::{Wanted, booted, expect};
use crate::images::{STANDING, WALKING};
use cell::Open;
use guest_number::GuestNo;
use host::{Ran, Stop};
use std::process::Abort;

/// Room for all pages of both guests.
const AMPLE: Wanted = Wanted {
    frames: 40,
    slots: 0,
    pages: 16,
    minimum: 2,
};

/// Fewer frames than pages, and slots for the others.
const SCARCE: Wanted = Wanted {
    frames: 8,
    slots: 40,
    pages: 16,
    minimum: 2,
};

#[test]
fn a_slice_makes_its_steps(rt: HostRuntime) {
    let alloc = rt.alloc();
    let mut bench = booted(&rt, alloc, &STANDING, &AMPLE, Open);
    expect(&rt, "none", bench.run_one(&rt, alloc, 0), Ran::Ran(0));
    expect(&rt, "one", bench.run_one(&rt, alloc, 1), Ran::Ran(1));
    expect(
        &rt,
        "pieces",
        bench.run_one(&rt, alloc, 3000),
        Ran::Ran(3000),
    );
    expect(
        &rt,
        "items",
        bench.host.status(&rt, GuestNo::new(0)).items,
        3001,
    );
    expect(
        &rt,
        "the other's",
        bench.host.status(&rt, GuestNo::new(1)).items,
        0,
    );
}

#[test]
fn a_held_guest_makes_the_debuggers_steps_alone(rt: HostRuntime) {
    let alloc = rt.alloc();
    let mut bench = booted(&rt, alloc, &STANDING, &AMPLE, Open);
    bench.host.hold(&rt, GuestNo::new(0));
    expect(&rt, "held", bench.run_one(&rt, alloc, 10), Ran::Held(0));
    expect(
        &rt,
        "debugger",
        bench.step_one(&rt, alloc, 10),
        Ran::Ran(10),
    );
    expect(
        &rt,
        "the other",
        bench.run_two(&rt, alloc, 10),
        Ran::Ran(10),
    );
    bench.host.go(&rt, GuestNo::new(0));
    expect(&rt, "on", bench.run_one(&rt, alloc, 10), Ran::Ran(10));
}

#[test]
fn pages_leave_for_those_that_are_needed(rt: HostRuntime) {
    let alloc = rt.alloc();
    let mut bench = booted(&rt, alloc, &WALKING, &SCARCE, Open);
    expect(&rt, "one", bench.run_one(&rt, alloc, 500), Ran::Ran(500));
    expect(&rt, "two", bench.run_two(&rt, alloc, 500), Ran::Ran(500));
    expect(
        &rt,
        "one again",
        bench.run_one(&rt, alloc, 500),
        Ran::Ran(500),
    );
    let books = bench.host.audit(&rt);
    expect(&rt, "frames", books.free + books.private + books.shared, 8);
    let pages = books
        .private
        .saturating_add(books.references)
        .saturating_add(books.swapped);
    expect(&rt, "pages", pages, 32);
}

#[test]
fn no_slot_is_stop_2(rt: HostRuntime) {
    let alloc = rt.alloc();
    let wanted = Wanted { slots: 0, ..SCARCE };
    let mut bench = booted(&rt, alloc, &WALKING, &wanted, Open);
    match bench.run_one(&rt, alloc, 500) {
        Ran::Stopped(_, stop) => expect(&rt, "stop", stop, Stop::NoSwap),
        _ => panic!(&rt; "it ran on"),
    }
}

#[test]
fn nobody_to_evict_is_stop_1(rt: HostRuntime) {
    let alloc = rt.alloc();
    let wanted = Wanted {
        minimum: 16,
        ..SCARCE
    };
    let mut bench = booted(&rt, alloc, &WALKING, &wanted, Open);
    match bench.run_one(&rt, alloc, 500) {
        Ran::Stopped(_, stop) => expect(&rt, "stop", stop, Stop::NoFrame),
        _ => panic!(&rt; "it ran on"),
    }
}
