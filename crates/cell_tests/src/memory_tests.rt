//! Pages of guests over one memory, of which there are 8 frames and 16 slots.
ghost use Rattle.std.specs.Prelude.{◌<◌};

use crate::bench::{Bench, PLAIN, Wanted, Which, Who, expect};
use crate::boot::booted;
use crate::slice_tests::{LOOPING, expect_left, expect_piece, expect_written, left, running};
use cell::{End, Kept, PageStat, WriteError};
use guest_number::GuestNo;
use page_moves::{Scan, SupplyError};
use sharetab::GuestPage;
use std::alloc::Global;
use std::process::Abort;
use std::sync::Wait;
use swapstore::Op;
use word32::Ppn;

/// A guest gets a word in each of so many pages from page 0 on, and with it a frame for each.
pub(crate) fn fill<R: Wait + Abort>(
    rt: &R,
    alloc: Global,
    bench: &mut Bench,
    which: Which,
    pages: u32,
) {
    for page in 0..pages.min(16) {
        let address = 0x8000_0ffc + page * 4096;
        let written = bench.write(rt, alloc, which, address, &[0x1122_3344]);
        expect(rt, "a page", written, Ok(()));
    }
}

/// How many of its pages a guest has in frames, how many its balloon has, and how many it is asked for.
pub(crate) fn stat<R: Wait + Abort>(rt: &R, bench: &Bench, which: Which) -> (u32, u32, u32) {
    let PageStat {
        pages,
        resident,
        given,
        target,
    } = bench.cell(which).stat(rt);
    expect(rt, "all pages", pages, 16);
    (resident, given, target)
}

/// It writes to page 1, and makes steps of no effect after that.
static STORING: [u32; 2] = [
    0x3c01_8000, // lui $1,0x8000
    0xac21_1000, // sw $1,0x1000($1)
];

#[test]
fn a_piece_without_a_frame_goes_on_once_one_is_free(rt: HostRuntime) {
    let alloc = rt.alloc();
    let mut bench = running(&rt, alloc, PLAIN, &STORING);
    fill(&rt, alloc, &mut bench, Which::Two, 7);
    let needs = (1, End::NeedsFrame);
    expect_piece(&rt, alloc, &mut bench, "one step", Who::Runner, 10, needs);
    let needs = (0, End::NeedsFrame);
    expect_piece(&rt, alloc, &mut bench, "no other", Who::Runner, 9, needs);
    let written = bench.write(&rt, alloc, Which::One, 0x8000_2000, &[1]);
    let lacks = Err(WriteError::Lacks(SupplyError::NoFrame));
    expect(&rt, "no frame to write to", written, lacks);
    expect(&rt, "evicted", bench.evict(&rt, Which::Two, 3), Ok(3));
    let made = (9, End::AllMade);
    expect_piece(&rt, alloc, &mut bench, "on", Who::Runner, 9, made);
    let word = bench.read(&rt, alloc, Which::One, 0x8000_1002);
    expect(&rt, "stored", word, (Ok(()), [0, 0x80]));
    expect_left(&rt, bench, left(10, 0, 1, 0));
}

#[test]
fn a_page_in_a_slot_comes_back_as_it_was(rt: HostRuntime) {
    let alloc = rt.alloc();
    let mut bench = booted(&rt, alloc, PLAIN);
    fill(&rt, alloc, &mut bench, Which::One, 3);
    expect(&rt, "page 0", bench.evict(&rt, Which::One, 0), Ok(0));
    expect(&rt, "two", stat(&rt, &bench, Which::One), (2, 0, 0));
    let made = (1, End::AllMade);
    expect_piece(&rt, alloc, &mut bench, "a step", Who::Runner, 1, made);
    expect(&rt, "three", stat(&rt, &bench, Which::One), (3, 0, 0));
    let bytes = bench.read(&rt, alloc, Which::One, 0x8000_0ffc);
    expect(&rt, "back", bytes, (Ok(()), [0x44, 0x33]));
    expect(&rt, "again", bench.evict(&rt, Which::One, 0), Ok(0));
    expect_written(
        &rt,
        alloc,
        &mut bench,
        "a write brings it",
        Which::One,
        0x8000_0ff8,
        &[5],
    );
    expect(&rt, "three", stat(&rt, &bench, Which::One), (3, 0, 0));
    let bytes = bench.read(&rt, alloc, Which::One, 0x8000_0ffe);
    expect(&rt, "with the rest", bytes, (Ok(()), [0x22, 0x11]));
    expect_left(&rt, bench, left(1, 0, 4, 0));
}

#[test]
fn a_read_that_fails_ends_a_piece_which_can_be_asked_for_again(rt: HostRuntime) {
    let alloc = rt.alloc();
    let wanted = Wanted {
        failing: 2,
        ..PLAIN
    };
    let mut bench = running(&rt, alloc, wanted, &LOOPING);
    fill(&rt, alloc, &mut bench, Which::One, 3);
    let made = (4, End::AllMade);
    expect(&rt, "page 0", bench.evict(&rt, Which::One, 0), Ok(0));
    expect_piece(&rt, alloc, &mut bench, "read", Who::Runner, 4, made);
    expect(&rt, "once more", bench.evict(&rt, Which::One, 0), Ok(0));
    let failed = (0, End::SwapRead);
    expect_piece(&rt, alloc, &mut bench, "failed", Who::Runner, 4, failed);
    expect(&rt, "in its slot", stat(&rt, &bench, Which::One).0, 2);
    expect_piece(&rt, alloc, &mut bench, "read then", Who::Runner, 4, made);
    expect_left(&rt, bench, left(8, 0, 4, 0));
}

#[test]
fn a_read_that_lies_ends_a_piece_and_its_bytes_are_not_used(rt: HostRuntime) {
    let alloc = rt.alloc();
    let wanted = Wanted {
        crooked_read: 1,
        ..PLAIN
    };
    let mut bench = running(&rt, alloc, wanted, &LOOPING);
    fill(&rt, alloc, &mut bench, Which::One, 3);
    expect(&rt, "page 0", bench.evict(&rt, Which::One, 0), Ok(0));
    let damaged = (0, End::SwapDamaged);
    expect_piece(&rt, alloc, &mut bench, "a lie", Who::Runner, 4, damaged);
    expect(&rt, "in its slot", stat(&rt, &bench, Which::One).0, 2);
    let made = (4, End::AllMade);
    expect_piece(&rt, alloc, &mut bench, "the truth", Who::Runner, 4, made);
    let bytes = bench.read(&rt, alloc, Which::One, 0x8000_0002);
    expect(&rt, "its bytes", bytes, (Ok(()), [0, 8]));
    expect_left(&rt, bench, left(4, 0, 4, 0));
}

#[test]
fn a_write_meets_what_the_store_does(rt: HostRuntime) {
    let alloc = rt.alloc();
    let wanted = Wanted {
        failing: 2,
        crooked_read: 1,
        ..PLAIN
    };
    let mut bench = booted(&rt, alloc, wanted);
    fill(&rt, alloc, &mut bench, Which::One, 3);
    expect(&rt, "page 1", bench.evict(&rt, Which::One, 1), Ok(1));
    let written = bench.write(&rt, alloc, Which::One, 0x8000_1000, &[1]);
    let lacks = Err(WriteError::Lacks(SupplyError::SwapDamaged));
    expect(&rt, "a lie", written, lacks);
    let written = bench.write(&rt, alloc, Which::One, 0x8000_1000, &[1]);
    let lacks = Err(WriteError::Lacks(SupplyError::SwapRead));
    expect(&rt, "a failure", written, lacks);
    let written = bench.write(&rt, alloc, Which::One, 0x8000_1000, &[1]);
    expect(&rt, "then", written, Ok(()));
    expect_left(&rt, bench, left(0, 0, 4, 0));
}

#[test]
fn a_write_that_fails_leaves_the_page_in_its_frame(rt: HostRuntime) {
    let alloc = rt.alloc();
    let wanted = Wanted {
        op: Op::Write,
        failing: 1,
        ..PLAIN
    };
    let mut bench = booted(&rt, alloc, wanted);
    fill(&rt, alloc, &mut bench, Which::One, 3);
    let kept = bench.evict(&rt, Which::One, 1);
    expect(&rt, "not written", kept, Err(Kept::SwapWrite));
    expect(&rt, "three", stat(&rt, &bench, Which::One), (3, 0, 0));
    expect(&rt, "written", bench.evict(&rt, Which::One, 1), Ok(1));
    expect(&rt, "two", stat(&rt, &bench, Which::One), (2, 0, 0));
    expect_left(&rt, bench, left(0, 0, 3, 0));
}

#[test]
fn a_guest_keeps_its_minimum(rt: HostRuntime) {
    let alloc = rt.alloc();
    let wanted = Wanted {
        minimum: 4,
        ..PLAIN
    };
    let mut bench = booted(&rt, alloc, wanted);
    let kept = Err(Kept::AtMinimum);
    expect(&rt, "no page", bench.evict(&rt, Which::One, 0), kept);
    fill(&rt, alloc, &mut bench, Which::One, 4);
    expect(&rt, "four", bench.evict(&rt, Which::One, 0), kept);
    fill(&rt, alloc, &mut bench, Which::One, 6);
    expect(&rt, "six", stat(&rt, &bench, Which::One), (6, 0, 0));
    // The first page in a frame at or after the word modulo 16, going round.
    expect(&rt, "19", bench.evict(&rt, Which::One, 19), Ok(3));
    expect(&rt, "27", bench.evict(&rt, Which::One, 27), Ok(0));
    expect(&rt, "four again", bench.evict(&rt, Which::One, 3), kept);
    expect(&rt, "four", stat(&rt, &bench, Which::One), (4, 0, 0));
    expect(&rt, "untouched", stat(&rt, &bench, Which::Two), (0, 0, 0));
    expect_left(&rt, bench, left(0, 0, 10, 0));
}

#[test]
fn a_guest_keeps_two_pages_at_least(rt: HostRuntime) {
    let alloc = rt.alloc();
    let wanted = Wanted {
        minimum: 0,
        ..PLAIN
    };
    let mut bench = booted(&rt, alloc, wanted);
    fill(&rt, alloc, &mut bench, Which::One, 3);
    expect(&rt, "after 1", bench.evict(&rt, Which::One, 1), Ok(1));
    let kept = bench.evict(&rt, Which::One, 1);
    expect(&rt, "two", kept, Err(Kept::AtMinimum));
    expect_left(&rt, bench, left(0, 0, 3, 0));
}

/// The pages of a guest from page 2 on get a frame and leave it for a slot, one after another.
fn swap_out<R: Wait + Abort>(rt: &R, alloc: Global, bench: &mut Bench, which: Which, pages: u32) {
    fill(rt, alloc, bench, which, 2);
    for page in 2..pages.min(16) {
        let address = 0x8000_0000 + page * 4096;
        let written = bench.write(rt, alloc, which, address, &[page]);
        expect(rt, "a page", written, Ok(()));
        expect(rt, "leaves", bench.evict(rt, which, page), Ok(page));
    }
}

#[test]
fn a_page_without_a_slot_stays(rt: HostRuntime) {
    let alloc = rt.alloc();
    let mut bench = booted(&rt, alloc, PLAIN);
    swap_out(&rt, alloc, &mut bench, Which::One, 16);
    swap_out(&rt, alloc, &mut bench, Which::Two, 4);
    expect_written(
        &rt,
        alloc,
        &mut bench,
        "one more",
        Which::Two,
        0x8000_5000,
        &[5],
    );
    let kept = bench.evict(&rt, Which::Two, 5);
    expect(&rt, "no slot", kept, Err(Kept::NoSwap));
    expect(&rt, "three", stat(&rt, &bench, Which::Two), (3, 0, 0));
    expect_written(
        &rt,
        alloc,
        &mut bench,
        "a slot is free",
        Which::One,
        0x8000_9000,
        &[5],
    );
    expect(&rt, "now", bench.evict(&rt, Which::Two, 5), Ok(5));
    let bytes = bench.read(&rt, alloc, Which::One, 0x8000_9000);
    expect(&rt, "new", bytes, (Ok(()), [5, 0]));
    expect_left(&rt, bench, left(0, 0, 17, 0));
}

/// It gives page 2 to the balloon, and takes it out again.
static GIVING: [u32; 6] = [
    0x3c01_bf00, // lui $1,0xbf00
    0x8c23_0010, // lw $3,16($1): BAL_TARGET
    0x2402_0002, // addiu $2,$0,2
    0xac22_0018, // sw $2,24($1): BAL_GIVE
    0x8c24_0014, // lw $4,20($1): BAL_COUNT
    0xac22_001c, // sw $2,28($1): BAL_TAKE
];

#[test]
fn a_page_that_is_given_leaves_its_frame(rt: HostRuntime) {
    let alloc = rt.alloc();
    let mut bench = running(&rt, alloc, PLAIN, &GIVING);
    fill(&rt, alloc, &mut bench, Which::One, 3);
    fill(&rt, alloc, &mut bench, Which::Two, 5);
    let target = bench.set_target(&rt, Which::One, 7);
    expect(&rt, "a target", target, Ok(()));
    expect(&rt, "asked for", stat(&rt, &bench, Which::One), (3, 0, 7));
    let made = (5, End::AllMade);
    expect_piece(&rt, alloc, &mut bench, "given", Who::Runner, 5, made);
    expect(&rt, "given", stat(&rt, &bench, Which::One), (2, 1, 7));
    let registers = bench.registers(&rt, Which::One);
    let read = (registers[3], registers[4]);
    expect(&rt, "the program's reads", read, (7, 1));
    fill(&rt, alloc, &mut bench, Which::Two, 6);
    expect(&rt, "its frame", stat(&rt, &bench, Which::Two), (6, 0, 0));
    let made = (1, End::AllMade);
    expect_piece(&rt, alloc, &mut bench, "taken", Who::Runner, 1, made);
    expect(&rt, "no page", stat(&rt, &bench, Which::One), (2, 0, 7));
    let bytes = bench.read(&rt, alloc, Which::One, 0x8000_2ffc);
    expect(&rt, "zeros", bytes, (Ok(()), [0, 0]));
    expect_left(&rt, bench, left(6, 0, 5, 0));
}

/// A page of a guest, by the numbers of both.
fn page_of(guest: u32, page: u32) -> GuestPage
    requires { page < 1048576 }
{
    GuestPage {
        guest: GuestNo::new(guest),
        page: Ppn::new(page),
    }
}

#[test]
fn equal_pages_share_a_frame_until_one_is_written(rt: HostRuntime) {
    let alloc = rt.alloc();
    let mut bench = booted(&rt, alloc, PLAIN);
    fill(&rt, alloc, &mut bench, Which::One, 4);
    fill(&rt, alloc, &mut bench, Which::Two, 4);
    let noted = bench.scan(&rt, Which::One, 2) == Scan::Noted;
    let admitted = bench.scan(&rt, Which::Two, 2) == Scan::Admitted(page_of(0, 2));
    let joined = bench.scan(&rt, Which::One, 2) == Scan::Joined;
    expect(&rt, "shared", (noted, admitted, joined), (true, true, true));
    let skipped = bench.scan(&rt, Which::One, 9) == Scan::Skipped;
    expect(&rt, "one without a frame", skipped, true);
    expect(&rt, "resident", stat(&rt, &bench, Which::One), (4, 0, 0));
    let written = bench.write(&rt, alloc, Which::One, 0x8000_5000, &[5]);
    expect(&rt, "a frame more", written, Ok(()));
    let written = bench.write(&rt, alloc, Which::Two, 0x8000_2ffc, &[5]);
    let lacks = Err(WriteError::Lacks(SupplyError::NoFrame));
    expect(&rt, "none to part it", written, lacks);
    expect(&rt, "evicted", bench.evict(&rt, Which::One, 5), Ok(5));
    let written = bench.write(&rt, alloc, Which::Two, 0x8000_2ffc, &[5]);
    expect(&rt, "parted", written, Ok(()));
    let one = bench.read(&rt, alloc, Which::One, 0x8000_2ffc);
    let two = bench.read(&rt, alloc, Which::Two, 0x8000_2ffc);
    let wanted = ((Ok(()), [0x44, 0x33]), (Ok(()), [5, 0]));
    expect(&rt, "apart", (one, two), wanted);
    expect_left(&rt, bench, left(0, 0, 5, 0));
}

#[test]
fn accesses_mark_a_page_until_it_is_drawn(rt: HostRuntime) {
    let alloc = rt.alloc();
    let mut bench = running(&rt, alloc, PLAIN, &STORING);
    let mut draws = [0; 100];
    draws[7] = 1;
    draws[8] = 1;
    let cell = bench.cell(Which::One);
    cell.clear_touched(&rt, &draws);
    expect(&rt, "cleared", cell.touched(&rt, &draws), 0);
    let made = (1, End::AllMade);
    expect_piece(&rt, alloc, &mut bench, "a fetch", Who::Runner, 1, made);
    let touched = bench.cell(Which::One).touched(&rt, &draws);
    expect(&rt, "draws of page 0", touched, 98);
    expect_piece(&rt, alloc, &mut bench, "a store", Who::Runner, 1, made);
    let touched = bench.cell(Which::One).touched(&rt, &draws);
    expect(&rt, "all", touched, 100);
    expect_left(&rt, bench, left(2, 0, 1, 0));
}
