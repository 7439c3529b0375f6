//! Each kind of access at the last place of memory and at the first place past it.
use super::code::Code;
use super::code::Code::*;
use super::layout::{JoinedRun, check_joined};
use super::run::{Run, check_runs};
use std::process::Abort;
use std::test::Fail;

/// A load or store, of register 2 with register 1 as its base. The base is the end of memory, register 2 has aabbccdd, and
/// the last word of memory has the bytes 81 82 83 84.
struct Access {
    name: &'static str,
    /// At the first place past memory.
    past: Code,
    /// At the last place of memory.
    last: Code,
    /// Register 2 after that.
    register: u32,
    /// The last word of memory after that.
    word: u32,
}

const UNCHANGED: u32 = 0x8483_8281;

const REGISTER: u32 = 0xaabb_ccdd;

static ACCESSES: [Access; 16] = [
    Access {
        name: "lb",
        past: Lb(2, 0, 1),
        last: Lb(2, 0xffff, 1),
        register: 0xffff_ff84,
        word: UNCHANGED,
    },
    Access {
        name: "lbu",
        past: Lbu(2, 0, 1),
        last: Lbu(2, 0xffff, 1),
        register: 0x84,
        word: UNCHANGED,
    },
    Access {
        name: "lh",
        past: Lh(2, 0, 1),
        last: Lh(2, 0xfffe, 1),
        register: 0xffff_8483,
        word: UNCHANGED,
    },
    Access {
        name: "lhu",
        past: Lhu(2, 0, 1),
        last: Lhu(2, 0xfffe, 1),
        register: 0x8483,
        word: UNCHANGED,
    },
    Access {
        name: "lw",
        past: Lw(2, 0, 1),
        last: Lw(2, 0xfffc, 1),
        register: 0x8483_8281,
        word: UNCHANGED,
    },
    Access {
        name: "lwl of four bytes",
        past: Lwl(2, 3, 1),
        last: Lwl(2, 0xffff, 1),
        register: 0x8483_8281,
        word: UNCHANGED,
    },
    Access {
        name: "lwl of one byte",
        past: Lwl(2, 0, 1),
        last: Lwl(2, 0xfffc, 1),
        register: 0x81bb_ccdd,
        word: UNCHANGED,
    },
    Access {
        name: "lwr of four bytes",
        past: Lwr(2, 0, 1),
        last: Lwr(2, 0xfffc, 1),
        register: 0x8483_8281,
        word: UNCHANGED,
    },
    Access {
        name: "lwr of one byte",
        past: Lwr(2, 3, 1),
        last: Lwr(2, 0xffff, 1),
        register: 0xaabb_cc84,
        word: UNCHANGED,
    },
    Access {
        name: "ll",
        past: Ll(2, 0, 1),
        last: Ll(2, 0xfffc, 1),
        register: 0x8483_8281,
        word: UNCHANGED,
    },
    Access {
        name: "sb",
        past: Sb(2, 0, 1),
        last: Sb(2, 0xffff, 1),
        register: REGISTER,
        word: 0xdd83_8281,
    },
    Access {
        name: "sh",
        past: Sh(2, 0, 1),
        last: Sh(2, 0xfffe, 1),
        register: REGISTER,
        word: 0xccdd_8281,
    },
    Access {
        name: "sw",
        past: Sw(2, 0, 1),
        last: Sw(2, 0xfffc, 1),
        register: REGISTER,
        word: 0xaabb_ccdd,
    },
    Access {
        name: "swl of one byte",
        past: Swl(2, 0, 1),
        last: Swl(2, 0xfffc, 1),
        register: REGISTER,
        word: 0x8483_82aa,
    },
    Access {
        name: "swr of one byte",
        past: Swr(2, 3, 1),
        last: Swr(2, 0xffff, 1),
        register: REGISTER,
        word: 0xdd83_8281,
    },
    Access {
        name: "sc with LLbit 1",
        past: Sc(2, 0, 1),
        last: Sc(2, 0xfffc, 1),
        register: 1,
        word: 0xaabb_ccdd,
    },
];

/// The word 84838281 at the end of two pages.
const LAST_WORD: [Code; 2] = [At(0x1ffc), Word(0x8483_8281)];

/// Five steps: the registers, and LLbit.
const SETUP: [Code; 5] = [
    Lui(1, 0x8000),
    Ori(1, 1, 0x2000),
    Lui(2, 0xaabb),
    Ori(2, 2, 0xccdd),
    Ll(3, 0xfffc, 1),
];

fn check_past<R: AllocGlobal + Abort>(rt: &R, access: &Access) -> Result<(), Fail> {
    let regs = [(1, 0x8000_2000), (2, REGISTER), (3, UNCHANGED)];
    let parts = JoinedRun {
        code: &[&SETUP, &[access.past, Lw(4, 0, 1)], &LAST_WORD],
        pages: 2,
        steps: 6,
        pc: 0x8000_0180,
        regs: &[&regs],
        system: [0x02, 0x1c, 0x8000_0014, 0],
    };
    check_joined(rt, access.name, &parts)
}

#[test]
fn accesses_past_memory_are_bus_errors(rt: HostRuntime) -> Result<(), Fail> {
    for access in &ACCESSES {
        check_past(&rt, access)?;
    }
    Ok(())
}

fn check_last<R: AllocGlobal + Abort>(rt: &R, access: &Access) -> Result<(), Fail> {
    let regs = [
        (1, 0x8000_2000),
        (2, access.register),
        (3, UNCHANGED),
        (4, access.word),
    ];
    let parts = JoinedRun {
        code: &[&SETUP, &[access.last, Lw(4, 0xfffc, 1)], &LAST_WORD],
        pages: 2,
        steps: 7,
        pc: 0x8000_001c,
        regs: &[&regs],
        system: [0, 0, 0, 0],
    };
    check_joined(rt, access.name, &parts)
}

#[test]
fn accesses_at_the_end_of_memory_succeed(rt: HostRuntime) -> Result<(), Fail> {
    for access in &ACCESSES {
        check_last(&rt, access)?;
    }
    Ok(())
}

/// What else is special at the end of memory.
static RUNS: [Run<'static>; 14] = [
    Run {
        name: "sc with LLbit 0 past memory, which reaches no memory",
        code: &[
            Lui(1, 0x8000),
            Ori(1, 1, 0x2000),
            Ori(2, 0, 9),
            Sc(2, 0, 1),
            Addiu(4, 0, 1),
        ],
        pages: 2,
        steps: 5,
        pc: 0x8000_0014,
        hi_lo: [0, 0],
        regs: &[(1, 0x8000_2000), (4, 1)],
        system: [0, 0, 0, 0],
    },
    Run {
        name: "sc with LLbit 0 at the last word",
        code: &[
            Lui(1, 0x8000),
            Ori(1, 1, 0x2000),
            Ori(2, 0, 9),
            Sc(2, 0xfffc, 1),
            Lw(4, 0xfffc, 1),
            At(0x1ffc),
            Word(0x8483_8281),
        ],
        pages: 2,
        steps: 5,
        pc: 0x8000_0014,
        hi_lo: [0, 0],
        regs: &[(1, 0x8000_2000), (4, 0x8483_8281)],
        system: [0, 0, 0, 0],
    },
    Run {
        name: "sc with LLbit 1 past memory, which leaves LLbit",
        code: &[
            Lui(1, 0x8000),
            Ori(1, 1, 0x2000),
            Ori(2, 0, 9),
            Ll(3, 0xfffc, 1),
            Sc(2, 0, 1),
            At(0x180),
            Sc(2, 0xfffc, 1),
            Lw(4, 0xfffc, 1),
            At(0x1ffc),
            Word(0x8483_8281),
        ],
        pages: 2,
        steps: 7,
        pc: 0x8000_0188,
        hi_lo: [0, 0],
        regs: &[(1, 0x8000_2000), (2, 1), (3, 0x8483_8281), (4, 9)],
        system: [2, 0x1c, 0x8000_0010, 0],
    },
    Run {
        name: "a word that begins past memory by one byte",
        code: &[Lui(1, 0x8000), Ori(1, 1, 0x2000), Lw(2, 1, 1)],
        pages: 2,
        steps: 3,
        pc: 0x8000_0180,
        hi_lo: [0, 0],
        regs: &[(1, 0x8000_2000)],
        system: [2, 0x10, 0x8000_0008, 0x8000_2001],
    },
    Run {
        name: "a pair over the end of memory",
        code: &[
            Lui(1, 0x8000),
            Ori(1, 1, 0x2000),
            Lwr(2, 0xfffd, 1), // the last three bytes
            Lwl(2, 0, 1), // past memory
            At(0x1ffc),
            Word(0x8483_8281),
        ],
        pages: 2,
        steps: 4,
        pc: 0x8000_0180,
        hi_lo: [0, 0],
        regs: &[(1, 0x8000_2000), (2, 0x0084_8382)],
        system: [2, 0x1c, 0x8000_000c, 0],
    },
    Run {
        name: "cache and pref past memory",
        code: &[
            Lui(1, 0x8000),
            Ori(1, 1, 0x2000),
            Cache(0, 1, 1),
            Pref(0, 1, 1),
            Addiu(4, 0, 1),
        ],
        pages: 2,
        steps: 5,
        pc: 0x8000_0014,
        hi_lo: [0, 0],
        regs: &[(1, 0x8000_2000), (4, 1)],
        system: [0, 0, 0, 0],
    },
    Run {
        name: "a fetch of the last word, and then past memory",
        code: &[
            Lui(1, 0x8000),
            Ori(1, 1, 0x1ffc),
            Jr(1),
            Nop,
            At(0x1ffc),
            Addiu(4, 0, 1),
        ],
        pages: 2,
        steps: 6,
        pc: 0x8000_0180,
        hi_lo: [0, 0],
        regs: &[(1, 0x8000_1ffc), (4, 1)],
        system: [2, 0x18, 0x8000_2000, 0],
    },
    Run {
        name: "a jump past memory",
        code: &[Lui(1, 0x8000), Ori(1, 1, 0x2000), Jr(1), Addiu(4, 0, 1)],
        pages: 2,
        steps: 5,
        pc: 0x8000_0180,
        hi_lo: [0, 0],
        regs: &[(1, 0x8000_2000), (4, 1)],
        system: [2, 0x18, 0x8000_2000, 0],
    },
    Run {
        name: "a branch at the last word, its slot past memory",
        code: &[
            Lui(1, 0x8000),
            Ori(1, 1, 0x1ffc),
            Jr(1),
            Nop,
            At(0x1ffc),
            Beq(0, 0, 0xf000),
        ],
        pages: 2,
        steps: 6,
        pc: 0x8000_0180,
        hi_lo: [0, 0],
        regs: &[(1, 0x8000_1ffc)],
        system: [2, 0x8000_0018, 0x8000_1ffc, 0],
    },
    Run {
        name: "a likely branch at the last word that is not taken",
        code: &[
            Lui(1, 0x8000),
            Ori(1, 1, 0x1ffc),
            Jr(1),
            Nop,
            At(0x1ffc),
            Bnel(0, 0, 0xf000),
        ],
        pages: 2,
        steps: 6,
        pc: 0x8000_0180,
        hi_lo: [0, 0],
        regs: &[(1, 0x8000_1ffc)],
        system: [2, 0x18, 0x8000_2004, 0],
    },
    Run {
        name: "a branch whose slot is the last word",
        code: &[
            Lui(1, 0x8000),
            Ori(1, 1, 0x1ff8),
            Jr(1),
            Nop,
            At(0x1ff8),
            Beq(0, 0, 0xf805), // 2043 instructions back from its slot: to 80000010
            Addiu(4, 0, 1),
        ],
        pages: 2,
        steps: 6,
        pc: 0x8000_0010,
        hi_lo: [0, 0],
        regs: &[(1, 0x8000_1ff8), (4, 1)],
        system: [0, 0, 0, 0],
    },
    Run {
        name: "a load at the end of kseg1",
        code: &[
            Lui(1, 0xc000),
            Lw(2, 0xfffc, 1), // at bffffffc
        ],
        pages: 2,
        steps: 2,
        pc: 0x8000_0180,
        hi_lo: [0, 0],
        regs: &[(1, 0xc000_0000)],
        system: [2, 0x1c, 0x8000_0004, 0],
    },
    Run {
        name: "an address below its base",
        code: &[
            Lui(1, 0x8000),
            Lw(2, 0x8000, 1), // at 7fff8000, of which the TLB has no entry
        ],
        pages: 2,
        steps: 2,
        pc: 0x8000_0000,
        hi_lo: [0, 0],
        regs: &[(1, 0x8000_0000)],
        system: [2, 8, 0x8000_0004, 0x7fff_8000],
    },
    Run {
        name: "an address past the last one",
        code: &[
            Addiu(1, 0, 0xfffc),
            Lw(2, 8, 1), // at 00000004, of which the TLB's entries are not valid
        ],
        pages: 2,
        steps: 2,
        pc: 0x8000_0180,
        hi_lo: [0, 0],
        regs: &[(1, 0xffff_fffc)],
        system: [2, 8, 0x8000_0004, 4],
    },
];

#[test]
fn runs_at_the_end_of_memory(rt: HostRuntime) -> Result<(), Fail> {
    check_runs(&rt, &RUNS)
}
