//! The names of the registers.
use super::{Verdict, is_listed, taken, verdicts};
use std::alloc::{AllocError, Global};

/// Each name, without its `$`, and the register's number.
static NAMES: [(&str, u32); 33] = [
    ("zero", 0),
    ("at", 1),
    ("v0", 2),
    ("v1", 3),
    ("a0", 4),
    ("a1", 5),
    ("a2", 6),
    ("a3", 7),
    ("t0", 8),
    ("t1", 9),
    ("t2", 10),
    ("t3", 11),
    ("t4", 12),
    ("t5", 13),
    ("t6", 14),
    ("t7", 15),
    ("s0", 16),
    ("s1", 17),
    ("s2", 18),
    ("s3", 19),
    ("s4", 20),
    ("s5", 21),
    ("s6", 22),
    ("s7", 23),
    ("t8", 24),
    ("t9", 25),
    ("k0", 26),
    ("k1", 27),
    ("gp", 28),
    ("sp", 29),
    ("fp", 30),
    ("s8", 30),
    ("ra", 31),
];

/// MTHI of a register by its name, and as it is printed. The number stands at bit 21, and the word ends in 11.
fn named(alloc: Global, name: &str, number: u32) -> Result<(String, String), AllocError> {
    let source = format!(in alloc; "mthi ${name}")?;
    let upper = number % 32 * 2;
    let line = format!(in alloc; "80000000 {upper:03x}00011 mthi ${number}\n")?;
    Ok((source, line))
}

#[test]
fn each_name(rt: HostRuntime) {
    for (name, number) in &NAMES {
        let (source, line) = taken(&rt, *name, named(rt.alloc(), name, *number));
        is_listed(&rt, source.as_str(), line.as_str());
    }
}

static REFUSED: [Verdict; 14] = [
    ("mthi $", 3, 1),
    ("mthi $zer", 3, 1),
    ("mthi $zeros", 3, 1),
    ("mthi $Zero", 3, 1),
    ("mthi $SP", 3, 1),
    ("mthi $a4", 3, 1),
    ("mthi $v2", 3, 1),
    ("mthi $t10", 3, 1),
    ("mthi $s9", 3, 1),
    ("mthi $k2", 3, 1),
    ("mthi $t", 3, 1),
    ("mthi sp", 3, 1),
    ("lw $t0,4($sp )", 3, 1),
    ("lw $t0,4($sp)\nsw $ra,-4($fp)", 0, 0),
];

#[test]
fn no_names(rt: HostRuntime) {
    verdicts(&rt, &REFUSED);
}
