//! Breakpoints.
use crate::bench::{Bench, PLAIN, Which, Who, expect};
use crate::boot::booted;
use crate::slice_tests::{LOOPING, expect_left, expect_piece, left, running};
use cell::{Breakpoints, End};
use std::process::Abort;
use std::sync::Wait;

/// Whether the first guest has a breakpoint at an address from then on.
fn is_set<R: Wait>(rt: &R, bench: &Bench, address: u32) -> bool {
    bench.cell(Which::One).set_break(rt, address)
}

/// It has none there any more.
fn cleared<R: Wait>(rt: &R, bench: &Bench, address: u32) {
    bench.cell(Which::One).clear_break(rt, address);
}

#[test]
fn a_guest_has_32_breakpoints(rt: HostRuntime) {
    let bench = booted(&rt, rt.alloc(), PLAIN);
    for k in 0..32u32 {
        expect(&rt, "one of 32", is_set(&rt, &bench, k), true);
    }
    expect(&rt, "the 33rd", is_set(&rt, &bench, 32), false);
    expect(&rt, "still", is_set(&rt, &bench, 32), false);
    expect(&rt, "one that is there", is_set(&rt, &bench, 5), true);
    cleared(&rt, &bench, 32);
    expect(&rt, "none was cleared", is_set(&rt, &bench, 33), false);
    cleared(&rt, &bench, 5);
    expect(&rt, "room for one", is_set(&rt, &bench, 32), true);
    expect(&rt, "for no other", is_set(&rt, &bench, 5), false);
    expect_left(&rt, bench, left(0, 0, 0, 0));
}

#[test]
fn addresses_come_and_go(rt: HostRuntime) {
    let mut breakpoints = Breakpoints::new();
    expect(&rt, "none", breakpoints.is_empty(), true);
    expect(&rt, "one", breakpoints.set(8), true);
    expect(&rt, "the same", breakpoints.set(8), true);
    expect(&rt, "another", breakpoints.set(0xffff_fffc), true);
    let has = (breakpoints.has(8), breakpoints.has(4));
    expect(&rt, "two", has, (true, false));
    breakpoints.clear(8);
    let has = (breakpoints.has(8), breakpoints.has(0xffff_fffc));
    expect(&rt, "the other", has, (false, true));
    expect(&rt, "is there", breakpoints.is_empty(), false);
    breakpoints.clear(0xffff_fffc);
    expect(&rt, "none again", breakpoints.is_empty(), true);
}

/// PC of the first guest.
fn pc<R: Wait>(rt: &R, bench: &mut Bench) -> u32 {
    bench.registers(rt, Which::One)[37]
}

#[test]
fn the_debuggers_slices_stop_at_a_breakpoint(rt: HostRuntime) {
    let alloc = rt.alloc();
    let mut bench = booted(&rt, alloc, PLAIN);
    expect(&rt, "set", is_set(&rt, &bench, 0x8000_0010), true);
    let stopped = (4, End::Break);
    expect_piece(&rt, alloc, &mut bench, "four", Who::Debugger, 100, stopped);
    expect(&rt, "there", pc(&rt, &mut bench), 0x8000_0010);
    let made = (100, End::AllMade);
    expect_piece(&rt, alloc, &mut bench, "past it", Who::Debugger, 100, made);
    expect(&rt, "further", pc(&rt, &mut bench), 0x8000_01a0);
    let poked = bench.poke(&rt, Which::One, 37, 0x8000_0010);
    expect(&rt, "back", poked, Ok(()));
    let made = (1, End::AllMade);
    expect_piece(&rt, alloc, &mut bench, "from it", Who::Debugger, 1, made);
    expect_left(&rt, bench, left(105, 0, 1, 0));
}

#[test]
fn other_slices_pass_a_breakpoint(rt: HostRuntime) {
    let alloc = rt.alloc();
    let mut bench = booted(&rt, alloc, PLAIN);
    expect(&rt, "set", is_set(&rt, &bench, 0x8000_0010), true);
    let made = (3, End::AllMade);
    expect_piece(&rt, alloc, &mut bench, "of seat 1", Who::Console, 3, made);
    let made = (7, End::AllMade);
    expect_piece(&rt, alloc, &mut bench, "of seat 0", Who::Runner, 7, made);
    expect(&rt, "past it", pc(&rt, &mut bench), 0x8000_0028);
    let other = bench.piece(&rt, alloc, Which::Two, Who::Debugger, 9);
    expect(&rt, "of another guest", other, (9, End::AllMade));
    expect_left(&rt, bench, left(10, 0, 0, 0));
}

#[test]
fn a_cleared_breakpoint_stops_nothing(rt: HostRuntime) {
    let alloc = rt.alloc();
    let mut bench = running(&rt, alloc, PLAIN, &LOOPING);
    expect(&rt, "set", is_set(&rt, &bench, 0x8000_0000), true);
    expect(&rt, "too", is_set(&rt, &bench, 0x8000_0004), true);
    let stopped = (1, End::Break);
    expect_piece(&rt, alloc, &mut bench, "a slot", Who::Debugger, 9, stopped);
    cleared(&rt, &bench, 0x8000_0004);
    expect_piece(&rt, alloc, &mut bench, "a round", Who::Debugger, 9, stopped);
    let stopped = (2, End::Break);
    expect_piece(&rt, alloc, &mut bench, "another", Who::Debugger, 9, stopped);
    expect_piece(
        &rt,
        alloc,
        &mut bench,
        "the last",
        Who::Debugger,
        2,
        stopped,
    );
    cleared(&rt, &bench, 0x8000_0000);
    let made = (9, End::AllMade);
    expect_piece(&rt, alloc, &mut bench, "on", Who::Debugger, 9, made);
    expect_left(&rt, bench, left(15, 0, 1, 0));
}
