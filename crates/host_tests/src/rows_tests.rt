//! Slots that are wanting and come free, slots that are damaged, and writes that fail, with books that are counted by hand.
ghost use Rattle.std.specs.Prelude.{None};

use crate::bench::expect;
use crate::images::STANDING;
use crate::pairs::{Asked, Pair, books, booted_pair, memory_store, refusal, write};
use cell::Open;
use guest_number::GuestNo;
use host::{DebugError, Ran, Request, Stop};
use host_policy::Evicted;
use std::alloc::Global;
use std::io;
use std::process::Abort;
use std::sync::Wait;
use swapstore::{FaultStore, FileStore, Medium, MemStore, Op, SwapStore};
use word32::Ppn;

/// A guest that stores a byte to its page 7 in its third step.
static STORING: [u32; 5] = [
    0x3c01_8000, // lui $1,0x8000
    0x3421_7000, // ori $1,$1,0x7000
    0xa020_0000, // sb $0,0($1)
    0x1000_ffff, // beq $0,$0,-1
    0x0000_0000, // sll $0,$0,0
];

/// A guest that gives its page 9 in its third step.
static GIVING: [u32; 5] = [
    0x3c06_bf00, // lui $6,0xbf00
    0x240b_0009, // addiu $11,$0,9
    0xaccb_0018, // sw $11,24($6)
    0x1000_ffff, // beq $0,$0,-1
    0x0000_0000, // sll $0,$0,0
];

/// A guest that loads the first word of its page 5 into register 5 in its third step.
static LOADING: [u32; 5] = [
    0x3c01_8000, // lui $1,0x8000
    0x3421_5000, // ori $1,$1,0x5000
    0x8c25_0000, // lw $5,0($1)
    0x1000_ffff, // beq $0,$0,-1
    0x0000_0000, // sll $0,$0,0
];

// Of 8 frames guest 0 has 5, for its pages 0 to 4, and guest 1 has 3, for its pages 0 to 2. The page 9 of guest 1 is in the only slot: no frame
// was left for it at the boot.
fn full_host<R: Abort + Wait>(rt: &R, alloc: Global) -> Pair<MemStore, Open> {
    let asked = [
        Asked {
            words: &STORING,
            first: 5,
            others: &[],
            pages: 16,
        },
        Asked {
            words: &GIVING,
            first: 3,
            others: &[(9, 0x99)],
            pages: 16,
        },
    ];
    let pair = booted_pair(rt, alloc, 8, &asked, memory_store(rt, alloc, 1), Open);
    pair.expect_books(rt, "full", books(8, 0, 8, 0, 0, 1, 1));
    pair
}

// Guest 1 gives its page 9, whose slot comes free.
fn give<R: Abort + Wait>(rt: &R, alloc: Global, pair: &mut Pair<MemStore, Open>) {
    expect(rt, "giving", pair.run_second(rt, alloc, 3), Ran::Ran(3));
    expect(rt, "a page", pair.host.status(rt, GuestNo::new(1)).given, 1);
    pair.expect_books(rt, "a slot", books(8, 0, 8, 0, 0, 0, 1));
}

// Guest 0 has got the page that it wanted: of both guests it has more pages in frames, five to three, for as many shares, so one of its own has
// left for the slot.
fn has_got_it<R: Abort + Wait>(rt: &R, pair: &Pair<MemStore, Open>) {
    expect(rt, "in frames", pair.resident(rt), (5, 3));
    expect(rt, "in slots", pair.swapped(rt), (1, 0));
    pair.expect_books(rt, "full again", books(8, 0, 8, 0, 0, 1, 1));
}

#[test]
fn a_write_that_was_refused_for_want_of_a_slot_is_done_once_a_page_is_given(rt: HostRuntime) {
    let alloc = rt.alloc();
    let mut pair = full_host(&rt, alloc);
    let before = pair.registers_of_first(&rt, alloc);
    let byte = write(&rt, alloc, 0x8000_7000, 0x77);
    let refused = refusal(pair.ask_first(&rt, alloc, byte));
    let no_slot = Some(DebugError::Stop(Stop::NoSwap));
    expect(&rt, "refused", refused, no_slot);
    expect(
        &rt,
        "as before",
        pair.registers_of_first(&rt, alloc),
        before,
    );
    expect(
        &rt,
        "its log",
        pair.host.status(&rt, GuestNo::new(0)).items,
        0,
    );
    pair.expect_books(&rt, "books", books(8, 0, 8, 0, 0, 1, 1));
    give(&rt, alloc, &mut pair);
    let byte = write(&rt, alloc, 0x8000_7000, 0x77);
    expect(&rt, "done", refusal(pair.ask_first(&rt, alloc, byte)), None);
    expect(
        &rt,
        "one item",
        pair.host.status(&rt, GuestNo::new(0)).items,
        1,
    );
    has_got_it(&rt, &pair);
}

#[test]
fn a_step_that_was_refused_for_want_of_a_slot_is_made_once_a_page_is_given(rt: HostRuntime) {
    let alloc = rt.alloc();
    let mut pair = full_host(&rt, alloc);
    let stopped = Ran::Stopped(2, Stop::NoSwap);
    expect(&rt, "refused", pair.run_first(&rt, alloc, 3), stopped);
    let registers = pair.registers_of_first(&rt, alloc);
    let at = (registers[1], registers[37]);
    expect(&rt, "before the store", at, (0x8000_7000, 0x8000_0008));
    expect(
        &rt,
        "its log",
        pair.host.status(&rt, GuestNo::new(0)).items,
        2,
    );
    pair.expect_books(&rt, "books", books(8, 0, 8, 0, 0, 1, 1));
    give(&rt, alloc, &mut pair);
    // By the second word page 1 leaves, and not page 0, in which the program lies.
    expect(&rt, "stored", pair.run_first(&rt, alloc, 1), Ran::Ran(1));
    expect(
        &rt,
        "one step",
        pair.host.status(&rt, GuestNo::new(0)).items,
        3,
    );
    has_got_it(&rt, &pair);
}

/// Memory that inverts the first byte of whatever is written to it.
#[derive(Drop)]
struct Inverting {
    memory: Vec<u8>,
}

impl Medium for Inverting {
    ghost byte_at = { λ _. None };

    fn read_from(&mut self, place: u64, bytes: &mut [u8]) -> io::Result<()> {
        self.memory.read_from(place, bytes)
    }

    fn write_from(&mut self, place: u64, bytes: &[u8]) -> io::Result<()> {
        self.memory.write_from(place, bytes)?;
        match bytes.first() {
            Some(byte) => self.memory.write_from(place, &[!*byte]),
            None => Ok(()),
        }
    }
}

// Of 8 frames guest 0 has one, for its page 0, and guest 1 has three, for its pages 0, 5 and 6. It has made two steps, and loads from page 5 in the
// next. By the first word as by the second it is its page 5 that an eviction takes: guest 0 has fewer pages than it always keeps.
fn about_to_load<R: Abort + Wait, S: SwapStore + Drop>(
    rt: &R,
    alloc: Global,
    store: S,
) -> Pair<S, Open> {
    let asked = [
        Asked {
            words: &STANDING,
            first: 1,
            others: &[],
            pages: 16,
        },
        Asked {
            words: &LOADING,
            first: 1,
            others: &[(5, 0x11), (6, 0x66)],
            pages: 16,
        },
    ];
    let mut pair = booted_pair(rt, alloc, 8, &asked, store, Open);
    expect(rt, "two steps", pair.run_second(rt, alloc, 2), Ran::Ran(2));
    let all = books(8, 4, 4, 0, 0, 0, 16);
    pair.expect_books(rt, "four pages", all);
    pair
}

fn inverting_store(rt: &impl Abort, alloc: Global) -> FileStore<Inverting> {
    match vec![in alloc; 0; 65_536] {
        Ok(memory) => FileStore::new(Inverting { memory }, 16),
        Err(_) => panic!(rt; "no memory for the slots"),
    }
}

#[test]
fn a_page_whose_slot_was_damaged_is_stop_4(rt: HostRuntime) {
    let alloc = rt.alloc();
    let mut pair = about_to_load(&rt, alloc, inverting_store(&rt, alloc));
    let left = Evicted::Page(1, Ppn::new(5));
    expect(&rt, "page 5", pair.host.evict_one(&rt), left);
    let away = books(8, 5, 3, 0, 0, 1, 16);
    pair.expect_books(&rt, "in a slot", away);
    let before = pair.registers_of_second(&rt, alloc);
    let stopped = Ran::Stopped(0, Stop::SwapDamaged);
    for _ in 0..2 {
        expect(&rt, "damaged", pair.run_second(&rt, alloc, 8), stopped);
        expect(
            &rt,
            "as before",
            pair.registers_of_second(&rt, alloc),
            before,
        );
        expect(
            &rt,
            "its log",
            pair.host.status(&rt, GuestNo::new(1)).items,
            2,
        );
        pair.expect_books(&rt, "in the slot", away);
    }
    let read = pair.ask_second(&rt, alloc, Request::Read(0x8000_5000, 4));
    let damaged = Some(DebugError::Stop(Stop::SwapDamaged));
    expect(&rt, "a debugger", refusal(read), damaged);
    expect(&rt, "guest 0", pair.run_first(&rt, alloc, 8), Ran::Ran(8));
    pair.expect_books(&rt, "still", away);
}

#[test]
fn a_page_that_could_not_be_written_stays_in_its_frame(rt: HostRuntime) {
    let alloc = rt.alloc();
    let store = FaultStore::new(memory_store(&rt, alloc, 16), Op::Write, 1);
    let mut pair = about_to_load(&rt, alloc, store);
    let refused = Evicted::SwapWrite;
    expect(&rt, "refused", pair.host.evict_one(&rt), refused);
    expect(&rt, "in frames", pair.resident(&rt), (1, 3));
    let all = books(8, 4, 4, 0, 0, 0, 16);
    pair.expect_books(&rt, "no slot", all);
    let left = Evicted::Page(1, Ppn::new(5));
    expect(&rt, "the next", pair.host.evict_one(&rt), left);
    let away = books(8, 5, 3, 0, 0, 1, 16);
    pair.expect_books(&rt, "in a slot", away);
    expect(&rt, "a load", pair.run_second(&rt, alloc, 1), Ran::Ran(1));
    let registers = pair.registers_of_second(&rt, alloc);
    expect(&rt, "its bytes", registers[5], 0x1111_1111);
    pair.expect_books(&rt, "back", all);
}
