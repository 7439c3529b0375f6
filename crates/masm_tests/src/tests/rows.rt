//! A whole loop, and a fault of each pass.
use super::images::{Row, images};
use super::{Listed, Verdict, listings, verdicts};

const LOOP: &str = "addiu $1,$0,5\nloop: addu $2,$2,$1\nbne $1,$0,loop\naddiu $1,$1,-1\n";

static LOOP_LISTED: [Listed; 1] = [(
    LOOP,
    "80000000 24010005 addiu $1,$0,5\n80000004 00411021 addu $2,$2,$1\n80000008 1420fffe bne $1,$0,0x80000004\n8000000c 2421ffff addiu $1,$1,-1\n",
)];

static LOOP_IMAGE: [Row; 1] = [(LOOP, 0x8000_0000, &[(0x8000_0000, 16)])];

#[test]
fn a_loop(rt: HostRuntime) {
    listings(&rt, &LOOP_LISTED);
    images(&rt, &LOOP_IMAGE);
}

static FIRST: [Verdict; 7] = [
    ("a: a: eret", 1, 1),
    ("x: eret\nx: eret\n", 6, 2),
    ("j nowhere", 5, 1),
    (".org 0x80000002\neret\n", 7, 2),
    ("", 8, 0),
    ("beq $0,$0,0x80020004", 4, 1),
    ("beq $0,$0,0x80020000", 0, 0),
];

static FARTHEST: [Listed; 1] = [(
    "beq $0,$0,0x80020000",
    "80000000 10007fff beq $0,$0,0x80020000\n",
)];

#[test]
fn first_faults(rt: HostRuntime) {
    verdicts(&rt, &FIRST);
    listings(&rt, &FARTHEST);
}
