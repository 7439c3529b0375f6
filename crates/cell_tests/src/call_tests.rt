//! What the calls of seats answer of small programs, by the manual.
ghost use Rattle.std.specs.Prelude.{◌<◌};

use crate::bench::{Bench, PLAIN, Wanted, Which, Who, expect};
use crate::boot::booted;
use crate::slice_tests::{expect_left, expect_piece, left, running};
use cell::{End, ReadError, WriteError};
use guest::{Refused, Stop};
use std::alloc::Global;
use std::process::Abort;
use std::sync::Wait;

/// Of the first guest a general register, and by the debugger's numbers Status, LO, HI, BadVAddr, Cause and PC.
fn registers<R: Wait>(rt: &R, bench: &mut Bench, general: usize) -> [u32; 7]
    requires { general < 32 }
{
    let words = bench.registers(rt, Which::One);
    [
        words[general],
        words[32],
        words[33],
        words[34],
        words[35],
        words[36],
        words[37],
    ]
}

// A machine boots with zeros in its registers, at the entry of its image.
#[test]
fn registers_at_the_boot(rt: HostRuntime) {
    let mut bench = booted(&rt, rt.alloc(), PLAIN);
    let words = registers(&rt, &mut bench, 1);
    let wanted = [0, 0, 0, 0, 0, 0, 0x8000_0000];
    expect(&rt, "words", words, wanted);
    expect_left(&rt, bench, left(0, 0, 0, 0));
}

// Of Status the bits CU0, BEV, IM, UM, ERL, EXL and IE can be written, of Cause IV and IP1 to IP0; BadVAddr and register 0 can't.
#[test]
fn registers_are_written_as_far_as_they_can_be(rt: HostRuntime) {
    let mut bench = booted(&rt, rt.alloc(), PLAIN);
    let pokes = [
        (0, 1),
        (9, 0x9999_9999),
        (32, 0xffff_ffff),
        (33, 33),
        (34, 34),
        (35, 35),
        (36, 0xffff_ffff),
        (37, 0x8000_0100),
    ];
    for (register, value) in pokes {
        let poked = bench.poke(&rt, Which::One, register, value);
        expect(&rt, "poked", poked, Ok(()));
    }
    let words = registers(&rt, &mut bench, 9);
    let wanted = [
        0x9999_9999,
        0x1040_ff17,
        33,
        34,
        0,
        0x0080_0300,
        0x8000_0100,
    ];
    expect(&rt, "words", words, wanted);
    let zero = registers(&rt, &mut bench, 0)[0];
    expect(&rt, "register 0", zero, 0);
    expect(&rt, "eight items", bench.seen(Which::One), 8);
    expect_left(&rt, bench, left(0, 0, 8, 0));
}

/// It prints "hi", and then makes steps of no effect.
static PRINTING: [u32; 5] = [
    0x3c01_bf00, // lui $1,0xbf00
    0x2402_0068, // addiu $2,$0,'h'
    0xac22_0008, // sw $2,8($1): CON_OUT
    0x2402_0069, // addiu $2,$0,'i'
    0xac22_0008, // sw $2,8($1): CON_OUT
];

#[test]
fn output_is_drained_once(rt: HostRuntime) {
    let alloc = rt.alloc();
    let mut bench = running(&rt, alloc, PLAIN, &PRINTING);
    let none = Ok((0, None, None));
    expect(&rt, "nothing", bench.drain(&rt, Which::One), none);
    let made = (3, End::AllMade);
    expect_piece(&rt, alloc, &mut bench, "one", Who::Runner, 3, made);
    let one = Ok((1, Some(b'h'), None));
    expect(&rt, "h", bench.drain(&rt, Which::One), one);
    expect(&rt, "nothing more", bench.drain(&rt, Which::One), none);
    let made = (7, End::AllMade);
    expect_piece(&rt, alloc, &mut bench, "rest", Who::Runner, 7, made);
    let one = Ok((1, Some(b'i'), None));
    expect(&rt, "i", bench.drain(&rt, Which::One), one);
    expect(&rt, "not the other's", bench.drain(&rt, Which::Two), none);
    expect_left(&rt, bench, left(10, 0, 5, 0));
}

// IP2 is bit 10 of Cause, and IP3 bit 11.
#[test]
fn interrupt_lines_show_in_cause(rt: HostRuntime) {
    let alloc = rt.alloc();
    let mut bench = booted(&rt, alloc, PLAIN);
    expect(&rt, "put", bench.feed(&rt, Which::One, &[7]), 1);
    let cause = registers(&rt, &mut bench, 0)[5];
    expect(&rt, "in the queue", cause, 0);
    let made = (1, End::AllMade);
    expect_piece(&rt, alloc, &mut bench, "a step", Who::Runner, 1, made);
    let cause = registers(&rt, &mut bench, 0)[5];
    expect(&rt, "in the console", cause, 0x400);
    let target = bench.set_target(&rt, Which::One, 3);
    expect(&rt, "three pages", target, Ok(()));
    let cause = registers(&rt, &mut bench, 0)[5];
    expect(&rt, "a target", cause, 0xc00);
    let target = bench.set_target(&rt, Which::One, 0);
    expect(&rt, "no page", target, Ok(()));
    let cause = registers(&rt, &mut bench, 0)[5];
    expect(&rt, "no target", cause, 0x400);
    expect_left(&rt, bench, left(1, 1, 2, 0));
}

/// The guest refuses the write.
const REFUSED: Result<(), WriteError> = Err(WriteError::Refused(Refused::Machine));

/// A write to this address and a read of it are refused.
fn expect_no_place<R: Wait + Abort>(
    rt: &R,
    alloc: Global,
    bench: &mut Bench,
    case: &'static str,
    address: u32,
) {
    let written = bench.write(rt, alloc, Which::One, address, &[1]);
    expect(rt, case, written, REFUSED);
    let bytes = bench.read(rt, alloc, Which::One, address);
    expect(rt, case, bytes, (Err(ReadError::NoPlace), [0xa5; 2]));
}

#[test]
fn bytes_without_a_place_are_refused(rt: HostRuntime) {
    let alloc = rt.alloc();
    let mut bench = booted(&rt, alloc, PLAIN);
    let cases = [
        ("past the end", 0x8001_0000),
        ("a TLB entry is wanted", 0xc000_0000),
        ("a device", 0xbf00_0000),
    ];
    for (case, address) in cases {
        expect_no_place(&rt, alloc, &mut bench, case, address);
    }
    let written = bench.write(&rt, alloc, Which::One, 0x8000_fffd, &[1]);
    expect(&rt, "its last byte", written, REFUSED);
    let bytes = bench.read(&rt, alloc, Which::One, 0x8000_fffe);
    expect(&rt, "none is written", bytes, (Ok(()), [0, 0]));
    expect(&rt, "no item", bench.seen(Which::One), 0);
    expect_left(&rt, bench, left(0, 0, 0, 0));
}

#[test]
fn a_write_is_1024_bytes_at_most(rt: HostRuntime) {
    let alloc = rt.alloc();
    let mut bench = booted(&rt, alloc, PLAIN);
    let written = bench.write(&rt, alloc, Which::One, 0x8000_0e00, &[0x0102_0304; 256]);
    expect(&rt, "1,024 over a border", written, Ok(()));
    let bytes = bench.read(&rt, alloc, Which::One, 0x8000_0fff);
    expect(&rt, "on both sides", bytes, (Ok(()), [1, 4]));
    let bytes = bench.read(&rt, alloc, Which::One, 0x8000_11ff);
    expect(&rt, "the last", bytes, (Ok(()), [1, 0]));
    let bytes = bench.read(&rt, alloc, Which::One, 0xa000_0e00);
    expect(&rt, "in kseg1", bytes, (Ok(()), [4, 3]));
    let written = bench.write(&rt, alloc, Which::One, 0x8000_0e00, &[7; 257]);
    expect(&rt, "1,028", written, REFUSED);
    let written = bench.write(&rt, alloc, Which::One, 0xc000_0000, &[]);
    expect(&rt, "none", written, Ok(()));
    expect_left(&rt, bench, left(0, 0, 2, 0));
}

#[test]
fn a_full_log_takes_nothing_more(rt: HostRuntime) {
    let alloc = rt.alloc();
    let wanted = Wanted { limit: 3, ..PLAIN };
    let mut bench = booted(&rt, alloc, wanted);
    let made = (9, End::AllMade);
    expect_piece(&rt, alloc, &mut bench, "steps", Who::Runner, 9, made);
    expect(&rt, "put", bench.feed(&rt, Which::One, &[7, 8, 9]), 3);
    let full = (0, End::LogFull);
    expect_piece(&rt, alloc, &mut bench, "two bytes", Who::Runner, 9, full);
    expect(&rt, "11 items", bench.seen(Which::One), 11);
    expect_piece(&rt, alloc, &mut bench, "seat 3", Who::Debugger, 9, full);
    let stop = Err(Stop::LogFull);
    expect(&rt, "a register", bench.poke(&rt, Which::One, 1, 1), stop);
    let target = bench.set_target(&rt, Which::One, 3);
    expect(&rt, "a target", target, stop);
    let drained = bench.drain(&rt, Which::One);
    expect(&rt, "a drain", drained, Err(Stop::LogFull));
    let written = bench.write(&rt, alloc, Which::One, 0x8000_0000, &[7]);
    let refused = Err(WriteError::Refused(Refused::Stop(Stop::LogFull)));
    expect(&rt, "a write", written, refused);
    let bytes = bench.read(&rt, alloc, Which::One, 0x8000_0000);
    expect(&rt, "a read", bytes, (Ok(()), [0, 0]));
    expect_left(&rt, bench, left(9, 2, 0, 1));
}
