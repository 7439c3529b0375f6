//! A debugger's reads and writes of guests of three pages, of which page 0 has its words and the others were never touched.

use crate::event_tests::{
    TAX, apply, booted, evict, expect, kind, log_len, room, share, started, supply,
};
use guest_number::GuestNo;
use guest_pages::PageKind;
use rand_pcg::Pcg32;
use std::alloc::Global;
use std::process::Abort;
use swapstore::MemStore;
use world::{Answer, DebugError, Event, Evicted, RunStop, World};

/// What is answered to a write of two sevens.
fn write(
    rt: &impl Abort,
    alloc: Global,
    world: &mut World<MemStore>,
    g: GuestNo,
    address: u32,
) -> Result<(), DebugError> {
    let Ok(bytes) = vec![in alloc; 7; 2] else {
        panic!(rt; "no memory for the bytes");
    };
    match apply(alloc, world, Event::Write(g, address, bytes)) {
        Answer::Written(answer) => answer,
        _ => panic!(rt; "no write"),
    }
}

/// What is answered to a read of two bytes, and those bytes after it.
fn read(
    rt: &impl Abort,
    alloc: Global,
    world: &mut World<MemStore>,
    g: usize,
    address: u32,
) -> (Result<(), DebugError>, [u8; 2]) {
    if g >= world.count() {
        panic!(rt; "there is no guest {g}");
    }
    let mut bytes = [0xa5; 2];
    let mut rng = Pcg32::new(42, 54);
    let answer = world.debug_read(alloc, g, address, &mut bytes, TAX, &mut rng);
    (answer, bytes)
}

/// Where the pages of a guest are.
fn kinds(rt: &impl Abort, world: &World<MemStore>, g: usize) -> [Option<PageKind>; 3] {
    [
        kind(rt, world, g, 0),
        kind(rt, world, g, 1),
        kind(rt, world, g, 2),
    ]
}

const PRIVATE: Option<PageKind> = Some(PageKind::Private);

const ZERO: Option<PageKind> = Some(PageKind::Zero);

const SWAPPED: Option<PageKind> = Some(PageKind::Swapped);

#[test]
fn what_is_written_is_read(rt: HostRuntime) {
    let alloc = rt.alloc();
    let mut world = started(&rt, alloc);
    let answer = write(&rt, alloc, &mut world, GuestNo::new(0), 0x8000_1000);
    expect(&rt, "page 1", answer, Ok(()));
    expect(
        &rt,
        "a frame",
        kinds(&rt, &world, 0),
        [PRIVATE, PRIVATE, ZERO],
    );
    let bytes = read(&rt, alloc, &mut world, 0, 0x8000_1000);
    expect(&rt, "written", bytes, (Ok(()), [7, 7]));
    let bytes = read(&rt, alloc, &mut world, 0, 0x8000_1001);
    expect(&rt, "one of them", bytes, (Ok(()), [7, 0]));
    expect(&rt, "one item", log_len(&rt, &world, 0), 1);
    let bytes = read(&rt, alloc, &mut world, 1, 0x8000_1000);
    expect(&rt, "not of guest 1", bytes, (Ok(()), [0, 0]));
    expect(&rt, "one frame free", room(&world), (1, 0));
    let _store = world.close();
}

#[test]
fn a_read_brings_back_what_is_in_a_slot(rt: HostRuntime) {
    let alloc = rt.alloc();
    let mut world = started(&rt, alloc);
    let answer = write(&rt, alloc, &mut world, GuestNo::new(0), 0x8000_1ffe);
    expect(&rt, "page 1", answer, Ok(()));
    let evicted = evict(&rt, alloc, &mut world, GuestNo::new(0), 1);
    expect(&rt, "its slot", evicted, Ok(Evicted::Done));
    let bytes = read(&rt, alloc, &mut world, 0, 0x8000_1fff);
    expect(&rt, "across the border", bytes, (Ok(()), [7, 0]));
    expect(
        &rt,
        "page 1 alone",
        kinds(&rt, &world, 0),
        [PRIVATE, PRIVATE, ZERO],
    );
    expect(&rt, "no slot", room(&world), (1, 0));
    expect(&rt, "one item", log_len(&rt, &world, 0), 1);
    let _store = world.close();
}

#[test]
fn a_write_across_a_border_gets_both_pages(rt: HostRuntime) {
    let alloc = rt.alloc();
    let mut world = started(&rt, alloc);
    let answer = write(&rt, alloc, &mut world, GuestNo::new(0), 0x8000_1fff);
    expect(&rt, "both", answer, Ok(()));
    let all = [PRIVATE, PRIVATE, PRIVATE];
    expect(&rt, "frames", kinds(&rt, &world, 0), all);
    let bytes = read(&rt, alloc, &mut world, 0, 0x8000_1fff);
    expect(&rt, "written", bytes, (Ok(()), [7, 7]));
    expect(&rt, "none free", room(&world), (0, 0));
    let _store = world.close();
}

#[test]
fn bytes_without_a_place_change_nothing(rt: HostRuntime) {
    let alloc = rt.alloc();
    let mut world = started(&rt, alloc);
    let no_place = Err(DebugError::NoPlace);
    let answer = write(&rt, alloc, &mut world, GuestNo::new(0), 0x8000_2fff);
    expect(&rt, "the second", answer, no_place);
    let bytes = read(&rt, alloc, &mut world, 0, 0x8000_2fff);
    expect(&rt, "as before", bytes, (no_place, [0xa5; 2]));
    let bytes = read(&rt, alloc, &mut world, 0, 0xc000_0000);
    expect(&rt, "no entry", bytes, (no_place, [0xa5; 2]));
    expect(&rt, "no page", kinds(&rt, &world, 0), [PRIVATE, ZERO, ZERO]);
    expect(&rt, "two free", room(&world), (2, 0));
    expect(&rt, "no item", log_len(&rt, &world, 0), 0);
    let _store = world.close();
}

#[test]
fn a_write_parts_a_shared_page(rt: HostRuntime) {
    let alloc = rt.alloc();
    let mut world = started(&rt, alloc);
    share(&rt, alloc, &mut world);
    let bytes = read(&rt, alloc, &mut world, 0, 0x8000_0800);
    expect(&rt, "read of it", bytes, (Ok(()), [0, 0]));
    expect(&rt, "still shared", room(&world), (3, 0));
    let answer = write(&rt, alloc, &mut world, GuestNo::new(0), 0x8000_0800);
    expect(&rt, "parted", answer, Ok(()));
    expect(&rt, "a frame less", room(&world), (2, 0));
    let bytes = read(&rt, alloc, &mut world, 0, 0x8000_0800);
    expect(&rt, "guest 0", bytes, (Ok(()), [7, 7]));
    let bytes = read(&rt, alloc, &mut world, 1, 0x8000_0800);
    expect(&rt, "guest 1", bytes, (Ok(()), [0, 0]));
    let _store = world.close();
}

/// No frame is free. Guest 0 has three resident pages, of which page 0 is shared with guest 1, which has two.
fn crowded(rt: &impl Abort, alloc: Global) -> World<MemStore> {
    let mut world = started(rt, alloc);
    share(rt, alloc, &mut world);
    expect(
        rt,
        "page 1",
        supply(rt, alloc, &mut world, GuestNo::new(0), 1),
        Ok(()),
    );
    expect(
        rt,
        "page 2",
        supply(rt, alloc, &mut world, GuestNo::new(0), 2),
        Ok(()),
    );
    expect(
        rt,
        "of guest 1",
        supply(rt, alloc, &mut world, GuestNo::new(1), 1),
        Ok(()),
    );
    expect(rt, "none free", room(&world), (0, 0));
    world
}

// The generator's first word, a15c02b7, is a multiple of 3: without the pages that are spared, page 0 would leave its frame.
#[test]
fn an_eviction_passes_over_the_pages_that_are_reached(rt: HostRuntime) {
    let alloc = rt.alloc();
    let mut world = crowded(&rt, alloc);
    let answer = write(&rt, alloc, &mut world, GuestNo::new(0), 0x8000_0fff);
    expect(&rt, "both", answer, Ok(()));
    let left = [PRIVATE, PRIVATE, SWAPPED];
    expect(&rt, "page 2", kinds(&rt, &world, 0), left);
    expect(&rt, "in a slot", room(&world), (0, 1));
    let _store = world.close();
}

#[test]
fn a_stop_leaves_the_first_page(rt: HostRuntime) {
    let alloc = rt.alloc();
    let mut world = booted(&rt, alloc, 0, 3);
    let answer = write(&rt, alloc, &mut world, GuestNo::new(0), 0x8000_1fff);
    let no_frame = Err(DebugError::Stop(RunStop::NoFrame));
    expect(&rt, "two resident pages", answer, no_frame);
    expect(
        &rt,
        "page 1 alone",
        kinds(&rt, &world, 0),
        [PRIVATE, PRIVATE, ZERO],
    );
    expect(&rt, "no item", log_len(&rt, &world, 0), 0);
    let _store = world.close();
}

#[test]
fn a_stop_for_want_of_a_slot(rt: HostRuntime) {
    let alloc = rt.alloc();
    let mut world = booted(&rt, alloc, 0, 2);
    let answer = write(&rt, alloc, &mut world, GuestNo::new(0), 0x8000_1fff);
    expect(&rt, "three pages", answer, Ok(()));
    let answer = write(&rt, alloc, &mut world, GuestNo::new(1), 0x8000_1000);
    let no_slot = Err(DebugError::Stop(RunStop::NoSwap));
    expect(&rt, "no page leaves", answer, no_slot);
    let bytes = read(&rt, alloc, &mut world, 1, 0x8000_1000);
    expect(&rt, "zeros", bytes, (Ok(()), [0, 0]));
    let _store = world.close();
}
