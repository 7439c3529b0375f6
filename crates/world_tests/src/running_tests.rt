//! Runs of steps of guests of three pages, which make a step, load from page 1, store to page 2, and then make steps of no effect.

use crate::event_tests::{TAX, apply, booted, evict, expect, input, log_len, room, started};
use guest_number::GuestNo;
use machine::Why;
use rand_pcg::Pcg32;
use std::alloc::Global;
use std::process::Abort;
use swapstore::MemStore;
use world::{End, Evicted, RunStop, World};

/// How many steps were made, the page that the next one needs, and why they stopped.
fn told(steps: u32, end: End) -> (u32, Option<(u32, Why)>, Option<RunStop>) {
    match end {
        End::Done => (steps, None, None),
        End::Need(page, why) => (steps, Some((page.number(), why)), None),
        End::Stop(why) => (steps, None, Some(why)),
    }
}

fn steps(
    rt: &impl Abort,
    world: &mut World<MemStore>,
    g: usize,
    count: u32,
) -> (u32, Option<(u32, Why)>, Option<RunStop>) {
    if g >= world.count() {
        panic!(rt; "there is no guest {g}");
    }
    let ran = world.steps(g, count);
    told(ran.steps, ran.end)
}

fn run_steps(
    rt: &impl Abort,
    alloc: Global,
    world: &mut World<MemStore>,
    g: usize,
    count: u32,
) -> (u32, Option<(u32, Why)>, Option<RunStop>) {
    if g >= world.count() {
        panic!(rt; "there is no guest {g}");
    }
    let ran = world.run_steps(alloc, g, count, TAX, &mut Pcg32::new(42, 54));
    told(ran.steps, ran.end)
}

#[test]
fn steps_are_made_up_to_the_first_that_needs_a_page(rt: HostRuntime) {
    let alloc = rt.alloc();
    let mut world = started(&rt, alloc);
    let first = (1, Some((1, Why::First)), None);
    expect(&rt, "one", steps(&rt, &mut world, 0, 3), first);
    let again = (0, Some((1, Why::First)), None);
    expect(&rt, "no more", steps(&rt, &mut world, 0, 3), again);
    expect(&rt, "one item", log_len(&rt, &world, 0), 1);
    let ran = run_steps(&rt, alloc, &mut world, 0, 3);
    expect(&rt, "three more", ran, (3, None, None));
    expect(&rt, "four items", log_len(&rt, &world, 0), 4);
    expect(&rt, "no step of guest 1", log_len(&rt, &world, 1), 0);
    expect(&rt, "no frame free", room(&world), (0, 0));
    expect(&rt, "steps", steps(&rt, &mut world, 0, 2), (2, None, None));
    let _store = world.close();
}

#[test]
fn a_run_of_no_steps_is_done(rt: HostRuntime) {
    let alloc = rt.alloc();
    let mut world = started(&rt, alloc);
    expect(
        &rt,
        "one step",
        steps(&rt, &mut world, 1, 1),
        (1, None, None),
    );
    expect(&rt, "none", steps(&rt, &mut world, 1, 0), (0, None, None));
    let ran = run_steps(&rt, alloc, &mut world, 1, 0);
    expect(&rt, "none, none supplied", ran, (0, None, None));
    expect(&rt, "two frames free", room(&world), (2, 0));
    expect(&rt, "one item", log_len(&rt, &world, 1), 1);
    let _store = world.close();
}

#[test]
fn one_step_is_supplied_two_pages(rt: HostRuntime) {
    let alloc = rt.alloc();
    let mut world = started(&rt, alloc);
    expect(
        &rt,
        "one step",
        steps(&rt, &mut world, 0, 1),
        (1, None, None),
    );
    let evicted = evict(&rt, alloc, &mut world, GuestNo::new(0), 0);
    expect(&rt, "its words", evicted, Ok(Evicted::Done));
    let away = (0, Some((0, Why::Swapped)), None);
    expect(&rt, "away", steps(&rt, &mut world, 0, 1), away);
    expect(&rt, "in a slot", room(&world), (3, 1));
    let ran = run_steps(&rt, alloc, &mut world, 0, 1);
    expect(&rt, "loaded", ran, (1, None, None));
    expect(&rt, "two pages", room(&world), (1, 0));
    let _store = world.close();
}

#[test]
fn a_run_stops_where_a_page_gets_no_frame(rt: HostRuntime) {
    let alloc = rt.alloc();
    let mut world = booted(&rt, alloc, 0, 3);
    let ran = run_steps(&rt, alloc, &mut world, 0, 3);
    let no_frame = (2, None, Some(RunStop::NoFrame));
    expect(&rt, "two resident pages", ran, no_frame);
    expect(&rt, "two items", log_len(&rt, &world, 0), 2);
    let _store = world.close();
}

#[test]
fn a_run_stops_where_a_victim_gets_no_slot(rt: HostRuntime) {
    let alloc = rt.alloc();
    let mut world = booted(&rt, alloc, 0, 2);
    let ran = run_steps(&rt, alloc, &mut world, 0, 3);
    expect(&rt, "three pages", ran, (3, None, None));
    let ran = run_steps(&rt, alloc, &mut world, 1, 3);
    let no_slot = (1, None, Some(RunStop::NoSwap));
    expect(&rt, "no page leaves", ran, no_slot);
    let _store = world.close();
}

#[test]
fn a_run_stops_where_the_log_is_full(rt: HostRuntime) {
    let alloc = rt.alloc();
    let mut world = started(&rt, alloc);
    for _ in 0..8 {
        let _accepted = apply(alloc, &mut world, input(GuestNo::new(0), 7));
        let ran = run_steps(&rt, alloc, &mut world, 0, 1);
        expect(&rt, "one step", ran, (1, None, None));
    }
    let full = (0, None, Some(RunStop::LogFull));
    expect(&rt, "sixteen runs", steps(&rt, &mut world, 0, 2), full);
    let ran = run_steps(&rt, alloc, &mut world, 0, 2);
    expect(&rt, "still", ran, full);
    expect(&rt, "sixteen items", log_len(&rt, &world, 0), 16);
    let _store = world.close();
}
