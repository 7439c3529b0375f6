//! Every beginning of a good source has the verdict that the rules give it.
use super::{expect, fault_of, taken};
use masm::assemble_image;
use std::process::Abort;

/// The first length from which on, up to the next row's, a beginning has this fault and line; 0 and 0 where it is taken.
type Run = (usize, u32, u64);

const SHORT: &str = "x: addi $1,$0,-5\n.entry x\nj x #e\n";

static SHORT_RUNS: [Run; 13] = [
    // Nothing, then `x`, then a label with nothing behind it.
    (0, 8, 0),
    (1, 2, 1),
    (2, 8, 0),
    // `a`, `ad`; `add` is an instruction, and so is `addi`; the last operand begins with `-`.
    (4, 2, 1),
    (6, 3, 1),
    (16, 0, 0),
    // `.`, then `.e` to `.entr`, then an operand is missing.
    (18, 1, 2),
    (19, 2, 2),
    (23, 3, 2),
    (25, 0, 0),
    // `j`, then its target.
    (27, 3, 3),
    (29, 0, 0),
    // The comment and the line's end.
    (31, 0, 0),
];

const LONG: &str = "a: .byte 9\n.space 3\nc: beq $0,$0,ab\nab: .org 0x80000010\n.word ac\nac:\n";

static LONG_RUNS: [Run; 39] = [
    (0, 8, 0),
    (1, 2, 1),
    (2, 8, 0),
    (4, 1, 1),
    (5, 2, 1),
    (8, 3, 1),
    (10, 0, 0),
    (12, 1, 2),
    (13, 2, 2),
    (17, 3, 2),
    (19, 0, 0),
    (21, 2, 3),
    (22, 0, 0),
    // `b` is a branch, `be` nothing.
    (24, 3, 3),
    (25, 2, 3),
    (26, 3, 3),
    // `a` is a label, and `ab` isn't yet.
    (34, 0, 0),
    (35, 5, 3),
    // A fault of the first pass comes before that of line 3.
    (37, 2, 4),
    (39, 0, 0),
    (41, 1, 4),
    (42, 2, 4),
    (44, 3, 4),
    // `.org 0` with nothing behind it; a lone `0x`.
    (46, 0, 0),
    (47, 3, 4),
    (48, 0, 0),
    (50, 0, 0),
    (55, 0, 0),
    (56, 0, 0),
    (57, 1, 5),
    (58, 2, 5),
    (61, 3, 5),
    (63, 0, 0),
    (64, 5, 5),
    (65, 5, 5),
    (66, 2, 6),
    (67, 2, 6),
    (68, 0, 0),
    (69, 0, 0),
];

/// What is wanted at this length: what the run says that begins there, or else what was wanted before.
fn want_at(runs: &[Run], length: usize, before: (u32, u64)) -> (u32, u64) {
    match runs.iter().find(|run| run.0 == length) {
        Some((_, kind, line)) => (*kind, *line),
        None => before,
    }
}

fn beginning(rt: &(impl Abort + AllocGlobal), source: &str, length: usize, want: (u32, u64)) {
    let beginning = taken(rt, length, source.get(..length).ok_or("no such beginning"));
    let found = fault_of(assemble_image(rt.alloc(), beginning));
    expect(rt, length, found, want);
}

fn beginnings(rt: &(impl Abort + AllocGlobal), source: &str, runs: &[Run]) {
    let mut want = (0, 0);
    for length in 0..=source.len() {
        want = want_at(runs, length, want);
        beginning(rt, source, length, want);
    }
}

#[test]
fn every_beginning(rt: HostRuntime) {
    expect(&rt, "lengths", (SHORT.len(), LONG.len()), (33, 69));
    beginnings(&rt, SHORT, &SHORT_RUNS);
    beginnings(&rt, LONG, &LONG_RUNS);
}
