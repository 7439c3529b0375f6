//! Slices: input that comes before steps, pieces that make their steps, guests that are held or blocked, and a gate that is asked.
//! What a guest does that nobody has written to is steps of no effect, since a word of zeros is `sll $0,$0,0`.
use crate::bench::{Bench, PLAIN, Wanted, Which, Who, expect};
use crate::boot::booted;
use crate::side::Left;
use cell::{End, Gate};
use guest_number::GuestNo;
use std::alloc::Global;
use std::process::Abort;
use std::sync::Wait;
use std::sync::atomic::{AtomicU64, Ordering};

/// A loop of two steps.
pub(crate) static LOOPING: [u32; 2] = [
    0x0800_0000, // j 0x80000000
    0x0000_0000, // sll $0,$0,0
];

/// The debugger writes words to a guest.
pub(crate) fn expect_written<R: Wait + Abort>(
    rt: &R,
    alloc: Global,
    bench: &mut Bench,
    case: &'static str,
    which: Which,
    address: u32,
    words: &[u32],
) {
    let written = bench.write(rt, alloc, which, address, words);
    expect(rt, case, written, Ok(()));
}

/// A bench whose first guest runs these words.
pub(crate) fn running<R: Wait + Abort>(
    rt: &R,
    alloc: Global,
    wanted: Wanted,
    words: &[u32],
) -> Bench {
    let mut bench = booted(rt, alloc, wanted);
    let written = bench.write(rt, alloc, Which::One, 0x8000_0000, words);
    expect(rt, "words", written, Ok(()));
    bench
}

/// What the first guest leaves.
pub(crate) fn left(steps: u64, bytes: u64, others: u64, waiting: usize) -> Left {
    Left {
        steps,
        bytes,
        others,
        waiting,
    }
}

/// The end, with what the first guest leaves.
pub(crate) fn expect_left<R: Wait + Abort>(rt: &R, bench: Bench, wanted: Left) {
    let (one, _two) = bench.finish(rt);
    expect(rt, "left", one, wanted);
}

/// A piece of the first guest.
pub(crate) fn expect_piece<R: Wait + Abort>(
    rt: &R,
    alloc: Global,
    bench: &mut Bench,
    case: &'static str,
    who: Who,
    count: u32,
    wanted: (u32, End),
) {
    let piece = bench.piece(rt, alloc, Which::One, who, count);
    expect(rt, case, piece, wanted);
}

#[test]
fn bytes_come_before_a_step_while_the_console_has_room(rt: HostRuntime) {
    let mut bench = booted(&rt, rt.alloc(), PLAIN);
    let put = bench.feed(&rt, Which::One, &[7; 300]);
    expect(&rt, "all are put", put, 300);
    expect(&rt, "none is taken", bench.seen(Which::One), 0);
    expect_piece(
        &rt,
        rt.alloc(),
        &mut bench,
        "a step",
        Who::Runner,
        1,
        (1, End::AllMade),
    );
    expect(&rt, "256 and it", bench.seen(Which::One), 257);
    expect_left(&rt, bench, left(1, 256, 0, 44));
}

#[test]
fn a_queue_has_room_for_1024_bytes(rt: HostRuntime) {
    let mut bench = booted(&rt, rt.alloc(), PLAIN);
    expect(&rt, "1000", bench.feed(&rt, Which::One, &[7; 1000]), 1000);
    expect(&rt, "24", bench.feed(&rt, Which::One, &[7; 25]), 24);
    expect(&rt, "none", bench.feed(&rt, Which::One, &[7; 1]), 0);
    expect(&rt, "another's", bench.feed(&rt, Which::Two, &[7; 1]), 1);
    expect_left(&rt, bench, left(0, 0, 0, 1024));
}

/// It takes a byte of input every second step.
static READING: [u32; 3] = [
    0x3c01_bf00, // lui $1,0xbf00
    0x0800_0001, // j 0x80000004
    0x8c23_0004, // lw $3,4($1): CON_IN
];

#[test]
fn bytes_come_as_the_console_gets_room(rt: HostRuntime) {
    let alloc = rt.alloc();
    let mut bench = running(&rt, alloc, PLAIN, &READING);
    let mut bytes = [1; 300];
    bytes[299] = 9;
    expect(&rt, "300", bench.feed(&rt, Which::One, &bytes), 300);
    let made = (601, End::AllMade);
    expect_piece(&rt, alloc, &mut bench, "300", Who::Runner, 601, made);
    let last = bench.registers(&rt, Which::One)[3];
    expect(&rt, "the last one", last, 9);
    let made = (2, End::AllMade);
    expect_piece(&rt, alloc, &mut bench, "none", Who::Runner, 2, made);
    let none = bench.registers(&rt, Which::One)[3];
    expect(&rt, "no byte", none, 0xffff_ffff);
    expect_left(&rt, bench, left(603, 300, 1, 0));
}

#[test]
fn a_piece_makes_its_steps(rt: HostRuntime) {
    let alloc = rt.alloc();
    let mut bench = running(&rt, alloc, PLAIN, &LOOPING);
    let cases = [
        ("none", Who::Runner, 0, 0),
        ("one", Who::Runner, 1, 1),
        ("8191", Who::Runner, 8191, 8191),
        ("8192", Who::Runner, 8192, 8192),
        ("8192 at most", Who::Runner, 8193, 8192),
        ("of many", Who::Debugger, 4_000_000_000, 8192),
        ("of seat 1", Who::Console, 5, 5),
        ("of seat 2", Who::Policy, 7, 7),
    ];
    for (case, who, count, made) in cases {
        expect_piece(
            &rt,
            alloc,
            &mut bench,
            case,
            who,
            count,
            (made, End::AllMade),
        );
    }
    expect(&rt, "all of them", bench.seen(Which::One), 32_781);
    expect_left(&rt, bench, left(32_780, 0, 1, 0));
}

#[test]
fn a_held_guest_makes_the_debuggers_steps_alone(rt: HostRuntime) {
    let alloc = rt.alloc();
    let mut bench = running(&rt, alloc, PLAIN, &LOOPING);
    bench.cell(Which::One).hold(&rt);
    bench.cell(Which::One).hold(&rt);
    expect(&rt, "put", bench.feed(&rt, Which::One, &[1, 2]), 2);
    let held = (0, End::Held);
    expect_piece(&rt, alloc, &mut bench, "held", Who::Runner, 5, held);
    expect_piece(&rt, alloc, &mut bench, "of seat 1", Who::Console, 5, held);
    expect_piece(&rt, alloc, &mut bench, "of seat 2", Who::Policy, 5, held);
    expect(&rt, "no byte is taken", bench.seen(Which::One), 1);
    let other = bench.piece(&rt, alloc, Which::Two, Who::Runner, 5);
    expect(&rt, "the other runs", other, (5, End::AllMade));
    let made = (5, End::AllMade);
    expect_piece(&rt, alloc, &mut bench, "seat 3", Who::Debugger, 5, made);
    expect(&rt, "with the bytes", bench.seen(Which::One), 8);
    let poked = bench.poke(&rt, Which::One, 4, 44);
    expect(&rt, "a register", poked, Ok(()));
    bench.cell(Which::One).go(&rt);
    expect_piece(&rt, alloc, &mut bench, "again", Who::Runner, 5, made);
    expect_left(&rt, bench, left(10, 2, 2, 0));
}

#[test]
fn a_blocked_guest_makes_no_step(rt: HostRuntime) {
    let alloc = rt.alloc();
    let mut bench = running(&rt, alloc, PLAIN, &LOOPING);
    bench.cell(Which::One).block(&rt, true);
    let blocked = (0, End::Blocked);
    expect_piece(&rt, alloc, &mut bench, "blocked", Who::Runner, 5, blocked);
    expect_piece(&rt, alloc, &mut bench, "seat 3", Who::Debugger, 5, blocked);
    bench.cell(Which::One).hold(&rt);
    let held = (0, End::Held);
    expect_piece(&rt, alloc, &mut bench, "both", Who::Runner, 5, held);
    expect_piece(&rt, alloc, &mut bench, "seat 3", Who::Debugger, 5, blocked);
    bench.cell(Which::One).go(&rt);
    expect_piece(&rt, alloc, &mut bench, "still", Who::Runner, 5, blocked);
    bench.cell(Which::One).block(&rt, false);
    let made = (5, End::AllMade);
    expect_piece(&rt, alloc, &mut bench, "again", Who::Runner, 5, made);
    expect_left(&rt, bench, left(5, 0, 1, 0));
}

/// A gate that counts how often it is asked, and adds up the steps that the slice had by then.
#[derive(Drop)]
struct Counting {
    asked: AtomicU64,
    steps: AtomicU64,
    quiet: u32,
}

impl Counting {
    fn new(quiet: u32) -> Counting {
        Counting {
            asked: AtomicU64::new(0),
            steps: AtomicU64::new(0),
            quiet,
        }
    }

    /// How often it was asked, and the sum of the steps.
    fn found(&self) -> (u64, u64) {
        let asked = self.asked.load(Ordering::SeqCst);
        (asked, self.steps.load(Ordering::SeqCst))
    }
}

impl Gate for Counting {
    fn before_step(&self, guest: GuestNo, done: u32) {
        if guest.number() == 3 {
            self.asked.fetch_add(1, Ordering::SeqCst);
            self.steps.fetch_add(u64::from(done), Ordering::SeqCst);
        }
    }

    fn quiet(&self, _guest: GuestNo, _done: u32) -> u32 {
        self.quiet.max(1)
    }
}

/// A piece of eight steps of the first guest, before which the slice had ten: how often the gate was asked, and the sum of the steps.
fn asked<R: Wait>(
    rt: &R,
    alloc: Global,
    bench: &mut Bench,
    who: Who,
    gate: Counting,
) -> (u32, (u64, u64)) {
    let piece = bench.one.piece(rt, alloc, &bench.memory, who, 8, &gate);
    (piece.steps, gate.found())
}

#[test]
fn a_gate_is_asked_before_its_steps(rt: HostRuntime) {
    let alloc = rt.alloc();
    let mut bench = running(&rt, alloc, PLAIN, &LOOPING);
    let got = asked(&rt, alloc, &mut bench, Who::Runner, Counting::new(3));
    expect(&rt, "10, 13 and 16", got, (8, (3, 39)));
    let got = asked(&rt, alloc, &mut bench, Who::Runner, Counting::new(100));
    expect(&rt, "once", got, (8, (1, 10)));
    let got = asked(&rt, alloc, &mut bench, Who::Debugger, Counting::new(8));
    expect(&rt, "of seat 3", got, (8, (1, 10)));
    let set = bench.cell(Which::One).set_break(&rt, 0x8000_0100);
    expect(&rt, "a breakpoint", set, true);
    let got = asked(&rt, alloc, &mut bench, Who::Debugger, Counting::new(8));
    expect(&rt, "each step", got, (8, (8, 108)));
    let got = asked(&rt, alloc, &mut bench, Who::Runner, Counting::new(8));
    expect(&rt, "not of seat 0", got, (8, (1, 10)));
    bench.cell(Which::One).block(&rt, true);
    let got = asked(&rt, alloc, &mut bench, Who::Runner, Counting::new(8));
    expect(&rt, "of no step", got, (0, (0, 0)));
    expect_left(&rt, bench, left(40, 0, 1, 0));
}
