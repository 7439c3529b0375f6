//! A debugger's reads of pages that are in slots.
use crate::bench::{Bench, PLAIN, Wanted, Which, expect};
use crate::boot::booted;
use crate::memory_tests::{fill, stat};
use crate::slice_tests::{expect_left, expect_written, left};
use cell::ReadError;
use page_moves::SupplyError;
use std::alloc::Global;
use std::process::Abort;
use std::sync::Wait;

/// The first guest reads two bytes at an address, and then has so many pages in frames.
fn expect_read<R: Wait + Abort>(
    rt: &R,
    alloc: Global,
    bench: &mut Bench,
    case: &'static str,
    address: u32,
    wanted: (Result<(), ReadError>, [u8; 2]),
    resident: u32,
) {
    let bytes = bench.read(rt, alloc, Which::One, address);
    expect(rt, case, bytes, wanted);
    let found = stat(rt, bench, Which::One).0;
    expect(rt, case, found, resident);
}

/// A page of the first guest leaves its frame, and it has so many in frames then.
fn expect_evicted<R: Wait + Abort>(rt: &R, bench: &Bench, page: u32, resident: u32) {
    let evicted = bench.evict(rt, Which::One, page);
    expect(rt, "evicted", evicted, Ok(page));
    let found = stat(rt, bench, Which::One).0;
    expect(rt, "one fewer", found, resident);
}

/// What a read finds in front of the last byte of a page that was filled.
const WHOLE: (Result<(), ReadError>, [u8; 2]) = (Ok(()), [0x22, 0x11]);

/// What it finds over the border of one page and the next, where the first was filled.
const BORDER: (Result<(), ReadError>, [u8; 2]) = (Ok(()), [0x11, 0]);

// Of six pages just the one that is answered is in a slot: no other needs a frame to be read.
#[test]
fn just_one_page_leaves_its_frame(rt: HostRuntime) {
    let alloc = rt.alloc();
    let mut bench = booted(&rt, alloc, PLAIN);
    fill(&rt, alloc, &mut bench, Which::One, 6);
    expect_evicted(&rt, &bench, 2, 5);
    let others = [
        0x8000_0ffe,
        0x8000_1ffe,
        0x8000_3ffe,
        0x8000_4ffe,
        0x8000_5ffe,
    ];
    for address in others {
        expect_read(&rt, alloc, &mut bench, "in its frame", address, WHOLE, 5);
    }
    expect_read(&rt, alloc, &mut bench, "back", 0x8000_2ffe, WHOLE, 6);
    expect_left(&rt, bench, left(0, 0, 6, 0));
}

#[test]
fn a_read_over_a_border_supplies_each_page_in_a_slot(rt: HostRuntime) {
    let alloc = rt.alloc();
    let mut bench = booted(&rt, alloc, PLAIN);
    fill(&rt, alloc, &mut bench, Which::One, 4);
    expect_evicted(&rt, &bench, 0, 3);
    expect_evicted(&rt, &bench, 1, 2);
    expect_read(&rt, alloc, &mut bench, "both", 0x8000_0fff, BORDER, 4);
    expect_evicted(&rt, &bench, 0, 3);
    expect_read(&rt, alloc, &mut bench, "the first", 0x8000_0fff, BORDER, 4);
    expect_evicted(&rt, &bench, 1, 3);
    expect_read(&rt, alloc, &mut bench, "the second", 0x8000_0fff, BORDER, 4);
    expect_evicted(&rt, &bench, 3, 3);
    expect_read(
        &rt,
        alloc,
        &mut bench,
        "beside zeros",
        0x8000_3fff,
        BORDER,
        4,
    );
    let zeros = (Ok(()), [0, 0]);
    expect_read(&rt, alloc, &mut bench, "zeros", 0x8000_4fff, zeros, 4);
    expect_left(&rt, bench, left(0, 0, 4, 0));
}

#[test]
fn bytes_beside_a_page_in_a_slot_can_have_no_place(rt: HostRuntime) {
    let alloc = rt.alloc();
    let mut bench = booted(&rt, alloc, PLAIN);
    fill(&rt, alloc, &mut bench, Which::One, 2);
    expect_written(
        &rt,
        alloc,
        &mut bench,
        "the last page",
        Which::One,
        0x8000_fffc,
        &[0x1122_3344],
    );
    expect_evicted(&rt, &bench, 15, 2);
    let no_place = (Err(ReadError::NoPlace), [0xa5; 2]);
    expect_read(&rt, alloc, &mut bench, "beside", 0x8000_ffff, no_place, 2);
    expect_read(&rt, alloc, &mut bench, "within", 0x8000_fffe, WHOLE, 3);
    expect_read(&rt, alloc, &mut bench, "beside", 0x8000_ffff, no_place, 3);
    expect_left(&rt, bench, left(0, 0, 3, 0));
}

#[test]
fn a_read_without_a_frame_keeps_the_pages_that_came(rt: HostRuntime) {
    let alloc = rt.alloc();
    let mut bench = booted(&rt, alloc, PLAIN);
    fill(&rt, alloc, &mut bench, Which::One, 4);
    expect_evicted(&rt, &bench, 0, 3);
    expect_evicted(&rt, &bench, 1, 2);
    fill(&rt, alloc, &mut bench, Which::Two, 5);
    let lacks = (Err(ReadError::Lacks(SupplyError::NoFrame)), [0xa5; 2]);
    expect_read(&rt, alloc, &mut bench, "one frame", 0x8000_0fff, lacks, 3);
    expect_read(&rt, alloc, &mut bench, "none", 0x8000_0fff, lacks, 3);
    let evicted = bench.evict(&rt, Which::Two, 4);
    expect(&rt, "one more", evicted, Ok(4));
    expect_read(&rt, alloc, &mut bench, "both", 0x8000_0fff, BORDER, 4);
    expect_left(&rt, bench, left(0, 0, 4, 0));
}

#[test]
fn a_read_meets_what_the_store_does(rt: HostRuntime) {
    let alloc = rt.alloc();
    let wanted = Wanted {
        failing: 2,
        crooked_read: 1,
        ..PLAIN
    };
    let mut bench = booted(&rt, alloc, wanted);
    fill(&rt, alloc, &mut bench, Which::One, 3);
    expect_evicted(&rt, &bench, 1, 2);
    let lacks = (Err(ReadError::Lacks(SupplyError::SwapDamaged)), [0xa5; 2]);
    expect_read(&rt, alloc, &mut bench, "a lie", 0x8000_1ffe, lacks, 2);
    let lacks = (Err(ReadError::Lacks(SupplyError::SwapRead)), [0xa5; 2]);
    expect_read(&rt, alloc, &mut bench, "a failure", 0x8000_1ffe, lacks, 2);
    expect_read(&rt, alloc, &mut bench, "then", 0x8000_1ffe, WHOLE, 3);
    expect_left(&rt, bench, left(0, 0, 3, 0));
}

/// Whether a read from the end of page 0 to the beginning of page 4 of the first guest finds what they have.
fn reads_five_pages<R: Wait + Abort>(rt: &R, alloc: Global, bench: &mut Bench) -> bool {
    let mut bytes = [0xa5; 12_292];
    let read = bench
        .one
        .read_into(rt, alloc, &bench.memory, 0x8000_0ffe, &mut bytes);
    read.is_ok() && bytes[..4] == [0x22, 0x11, 0, 0] && bytes[12_288..] == [0x22, 0x11, 0, 0]
}

#[test]
fn a_read_supplies_as_many_pages_as_it_has(rt: HostRuntime) {
    let alloc = rt.alloc();
    let mut bench = booted(&rt, alloc, PLAIN);
    fill(&rt, alloc, &mut bench, Which::One, 6);
    expect_evicted(&rt, &bench, 0, 5);
    expect_evicted(&rt, &bench, 1, 4);
    expect_evicted(&rt, &bench, 2, 3);
    expect_evicted(&rt, &bench, 3, 2);
    let is_read = reads_five_pages(&rt, alloc, &mut bench);
    expect(&rt, "five pages", is_read, true);
    expect(&rt, "all are there", stat(&rt, &bench, Which::One).0, 6);
    expect(&rt, "no item", bench.seen(Which::One), 6);
    expect_left(&rt, bench, left(0, 0, 6, 0));
}
