//! Values worked by hand from the standard's Operation sections.
use super::expect;
use mips_alu::Accumulation::*;
use mips_alu::Signedness::*;
use mips_alu::*;

static RESULTS: [(ArithOp, u32, u32, Option<u32>); 26] = [
    (ArithOp::Add, 0x7fff_ffff, 1, None),
    (ArithOp::Add, 0x8000_0000, 0xffff_ffff, None),
    (ArithOp::Add, 0x7fff_ffff, 0xffff_ffff, Some(0x7fff_fffe)),
    (ArithOp::Add, 0xffff_ffff, 1, Some(0)),
    (ArithOp::Addu, 0x7fff_ffff, 1, Some(0x8000_0000)),
    (ArithOp::Addu, 0xffff_ffff, 0xffff_ffff, Some(0xffff_fffe)),
    (ArithOp::Sub, 0x8000_0000, 1, None),
    (ArithOp::Sub, 0x7fff_ffff, 0xffff_ffff, None),
    (ArithOp::Sub, 0, 0x8000_0000, None),
    (ArithOp::Sub, 0xffff_ffff, 0x8000_0000, Some(0x7fff_ffff)),
    (ArithOp::Sub, 5, 7, Some(0xffff_fffe)),
    (ArithOp::Subu, 0, 0x8000_0000, Some(0x8000_0000)),
    (ArithOp::Subu, 5, 5, Some(0)),
    (ArithOp::Subu, 0, 1, Some(0xffff_ffff)),
    (ArithOp::And, 0x0ff0_ff00, 0xf0f0_ffff, Some(0x00f0_ff00)),
    (ArithOp::Or, 0x0ff0_ff00, 0xf0f0_00ff, Some(0xfff0_ffff)),
    (ArithOp::Xor, 0x0ff0_ff00, 0xf0f0_ffff, Some(0xff00_00ff)),
    (ArithOp::Nor, 0x0ff0_ff00, 0xf0f0_00ff, Some(0x000f_0000)),
    (ArithOp::Slt, 0xffff_ffff, 0, Some(1)),
    (ArithOp::Slt, 0, 0xffff_ffff, Some(0)),
    (ArithOp::Slt, 0x8000_0000, 0x7fff_ffff, Some(1)),
    (ArithOp::Slt, 3, 3, Some(0)),
    (ArithOp::Sltu, 0xffff_ffff, 0, Some(0)),
    (ArithOp::Sltu, 0, 0xffff_ffff, Some(1)),
    (ArithOp::Mul, 0xffff_ffff, 0xffff_ffff, Some(1)),
    (ArithOp::Mul, 0x1_0000, 0x1_0001, Some(0x1_0000)),
];

#[test]
fn arithmetic(rt: HostRuntime) {
    for row in &RESULTS {
        let (op, a, b, want) = *row;
        expect(&rt, (op, a, b), arith(op, a, b), want);
    }
}

/// Each comparison of -1 with 1, of 1 with -1, and of 1 with 1.
static COMPARISONS: [(Comparison, [bool; 3]); 8] = [
    (Comparison::Equal, [false, false, true]),
    (Comparison::NotEqual, [true, true, false]),
    (Comparison::Less, [true, false, false]),
    (Comparison::LessUnsigned, [false, true, false]),
    (Comparison::AtLeast, [false, true, true]),
    (Comparison::AtLeastUnsigned, [true, false, true]),
    (Comparison::AtMost, [true, false, true]),
    (Comparison::Greater, [false, true, false]),
];

fn compared(comparison: Comparison) -> [bool; 3] {
    [
        compare(comparison, 0xffff_ffff, 1),
        compare(comparison, 1, 0xffff_ffff),
        compare(comparison, 1, 1),
    ]
}

#[test]
fn comparisons(rt: HostRuntime) {
    for row in &COMPARISONS {
        let (comparison, want) = *row;
        expect(&rt, comparison, compared(comparison), want);
    }
}

static SHIFTS: [(ShiftKind, u32, u32, u32); 10] = [
    (ShiftKind::LeftLogical, 0x8000_0001, 1, 2),
    (ShiftKind::LeftLogical, 0xffff_ffff, 31, 0x8000_0000),
    (ShiftKind::LeftLogical, 0x7fff, 16, 0x7fff_0000),
    (ShiftKind::RightLogical, 0x8000_0000, 31, 1),
    (ShiftKind::RightLogical, 0xffff_fff0, 4, 0x0fff_ffff),
    (ShiftKind::RightArithmetic, 0x8000_0000, 31, 0xffff_ffff),
    (ShiftKind::RightArithmetic, 0x8000_0000, 4, 0xf800_0000),
    (ShiftKind::RightArithmetic, 0x7fff_ffff, 4, 0x07ff_ffff),
    (ShiftKind::RightArithmetic, 0xffff_fffd, 1, 0xffff_fffe),
    (ShiftKind::RightArithmetic, 0x1234_5678, 0, 0x1234_5678),
];

#[test]
fn shifts(rt: HostRuntime) {
    for row in &SHIFTS {
        let (kind, word, amount, want) = *row;
        let got = shift(kind, word, amount % 32);
        expect(&rt, (kind, word, amount), got, want);
    }
}

static COUNTS: [(LeadingBits, u32, u32); 8] = [
    (LeadingBits::Zeros, 0x0001_0000, 15),
    (LeadingBits::Zeros, 0, 32),
    (LeadingBits::Zeros, 0xffff_ffff, 0),
    (LeadingBits::Zeros, 1, 31),
    (LeadingBits::Ones, 0xffff_ffff, 32),
    (LeadingBits::Ones, 0, 0),
    (LeadingBits::Ones, 0xfffe_ffff, 15),
    (LeadingBits::Ones, 0x8000_0000, 1),
];

#[test]
fn counts(rt: HostRuntime) {
    for row in &COUNTS {
        let (bits, word, want) = *row;
        expect(&rt, (bits, word), count_leading(bits, word), want);
    }
}

/// The words, HI and LO before, HI and LO after.
static PRODUCTS: [(Signedness, Accumulation, u32, u32, (u32, u32), (u32, u32)); 14] = [
    (Signed, Set, 0xffff_ffff, 0xffff_ffff, (5, 6), (0, 1)),
    (
        Signed,
        Set,
        0x8000_0000,
        0x8000_0000,
        (0, 0),
        (0x4000_0000, 0),
    ),
    (
        Signed,
        Set,
        0x8000_0000,
        1,
        (0, 0),
        (0xffff_ffff, 0x8000_0000),
    ),
    (
        Signed,
        Set,
        3,
        0xffff_fffe,
        (0, 0),
        (0xffff_ffff, 0xffff_fffa),
    ),
    (
        Unsigned,
        Set,
        0xffff_ffff,
        0xffff_ffff,
        (0, 0),
        (0xffff_fffe, 1),
    ),
    (Unsigned, Set, 0x8000_0000, 2, (9, 9), (1, 0)),
    (
        Signed,
        Add,
        0xffff_ffff,
        1,
        (0, 0),
        (0xffff_ffff, 0xffff_ffff),
    ),
    (Signed, Add, 1, 1, (0xffff_ffff, 0xffff_ffff), (0, 0)),
    (Signed, Add, 2, 3, (1, 0xffff_ffff), (2, 5)),
    (Unsigned, Add, 0xffff_ffff, 1, (0, 1), (1, 0)),
    (Signed, Subtract, 1, 1, (0, 0), (0xffff_ffff, 0xffff_ffff)),
    (Signed, Subtract, 0xffff_ffff, 1, (0, 0xffff_ffff), (1, 0)),
    (Unsigned, Subtract, 0xffff_ffff, 1, (1, 0), (0, 1)),
    (Unsigned, Subtract, 2, 3, (0, 5), (0xffff_ffff, 0xffff_ffff)),
];

/// HI and LO after a product.
fn product(
    signedness: Signedness,
    accumulation: Accumulation,
    a: u32,
    b: u32,
    old: (u32, u32),
) -> (u32, u32) {
    let (hi, lo) = old;
    let after = multiply(signedness, accumulation, a, b, HiLo { hi, lo });
    (after.hi, after.lo)
}

#[test]
fn products(rt: HostRuntime) {
    for row in &PRODUCTS {
        let (signedness, accumulation, a, b, old, new) = *row;
        let case = (signedness, accumulation, a, b);
        let after = product(signedness, accumulation, a, b, old);
        expect(&rt, case, after, new);
    }
}

/// The words, LO and HI.
static QUOTIENTS: [(Signedness, u32, u32, u32, u32); 12] = [
    (Unsigned, 7, 0, 0xffff_ffff, 7),
    (Signed, 0x8000_0000, 0xffff_ffff, 0x8000_0000, 0),
    (Signed, 7, 0, 0xffff_ffff, 7),
    (Signed, 0xffff_fff9, 0, 0xffff_ffff, 0xffff_fff9),
    (Signed, 0xffff_fff9, 2, 0xffff_fffd, 0xffff_ffff),
    (Signed, 7, 0xffff_fffe, 0xffff_fffd, 1),
    (Signed, 0xffff_fff9, 0xffff_fffe, 3, 0xffff_ffff),
    (Signed, 0x8000_0000, 2, 0xc000_0000, 0),
    (Signed, 0x8000_0001, 0xffff_ffff, 0x7fff_ffff, 0),
    (Unsigned, 0x8000_0000, 0xffff_ffff, 0, 0x8000_0000),
    (Unsigned, 0xffff_fff9, 2, 0x7fff_fffc, 1),
    (Unsigned, 100, 7, 14, 2),
];

#[test]
fn quotients(rt: HostRuntime) {
    for row in &QUOTIENTS {
        let (signedness, a, b, lo, hi) = *row;
        let after = divide(signedness, a, b);
        let case = (signedness, a, b);
        expect(&rt, case, (after.lo, after.hi), (lo, hi));
    }
}

const MEMORY: u32 = 0x4433_2211;

const REGISTER: u32 = 0xaabb_ccdd;

/// For each address modulo 4, what LWL, LWR, SWL and SWR make of these two words.
static PARTS: [(u32, [u32; 4]); 4] = [
    (0, [0x11bb_ccdd, 0x4433_2211, 0x4433_22aa, 0xaabb_ccdd]),
    (1, [0x2211_ccdd, 0xaa44_3322, 0x4433_aabb, 0xbbcc_dd11]),
    (2, [0x3322_11dd, 0xaabb_4433, 0x44aa_bbcc, 0xccdd_2211]),
    (3, [0x4433_2211, 0xaabb_cc44, 0xaabb_ccdd, 0xdd33_2211]),
];

fn parts(k: u32) -> [u32; 4] {
    [
        merge_left(MEMORY, REGISTER, k % 4),
        merge_right(MEMORY, REGISTER, k % 4),
        store_left(MEMORY, REGISTER, k % 4),
        store_right(MEMORY, REGISTER, k % 4),
    ]
}

#[test]
fn parts_of_words(rt: HostRuntime) {
    for row in &PARTS {
        let (k, want) = *row;
        expect(&rt, k, parts(k), want);
    }
    // the bytes 11 22 33 44 55 66 77 88, loaded from the second on
    let first = merge_right(0x4433_2211, 0, 1);
    let both = merge_left(0x8877_6655, first, 0);
    expect(&rt, "across two words", both, 0x5544_3322);
}
