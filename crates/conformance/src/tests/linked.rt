//! Load linked and store conditional, and what stands between them.
use super::code::Code::*;
use super::code::{COMPARE, Code, ENTRY_LO0, ENTRY_LO1, EPC, ERROR_EPC, STATUS};
use super::layout::joined;
use super::run::{Run, check_run, check_runs};
use std::process::Abort;
use std::test::Fail;

/// The start of the images of `BETWEEN`: a word at 100, and a handler that returns past the instruction. Four steps are
/// made before 208.
const START: [Code; 12] = [
    J(0x8000_0200),
    Nop,
    At(0x100),
    Word(0x1234),
    At(0x180),
    Mfc0(26, EPC),
    Addiu(26, 26, 4),
    Mtc0(26, EPC),
    Eret,
    At(0x200),
    Lui(5, 0x8000),
    Ori(2, 0, 9),
];

/// What stands from 208 on.
static BETWEEN: [Run<'static>; 8] = [
    Run {
        name: "nothing between",
        code: &[Ll(1, 0x0100, 5), Sc(2, 0x0100, 5), Lw(3, 0x0100, 5)],
        pages: 16,
        steps: 7,
        pc: 0x8000_0214,
        hi_lo: [0, 0],
        regs: &[(1, 0x1234), (2, 1), (3, 9), (5, 0x8000_0000)],
        system: [0, 0, 0, 0],
    },
    Run {
        name: "no load linked",
        code: &[Sc(2, 0x0100, 5), Lw(3, 0x0100, 5)],
        pages: 16,
        steps: 6,
        pc: 0x8000_0210,
        hi_lo: [0, 0],
        regs: &[(3, 0x1234), (5, 0x8000_0000)],
        system: [0, 0, 0, 0],
    },
    Run {
        name: "a second store conditional",
        code: &[
            Ll(1, 0x0100, 5),
            Sc(2, 0x0100, 5),
            Ori(4, 0, 8),
            Sc(4, 0x0100, 5),
            Lw(3, 0x0100, 5),
        ],
        pages: 16,
        steps: 9,
        pc: 0x8000_021c,
        hi_lo: [0, 0],
        regs: &[(1, 0x1234), (2, 1), (3, 9), (5, 0x8000_0000)],
        system: [0, 0, 0, 0],
    },
    Run {
        name: "a return from an exception between",
        code: &[
            Ll(1, 0x0100, 5),
            Syscall,
            Sc(2, 0x0100, 5),
            Lw(3, 0x0100, 5),
        ],
        pages: 16,
        steps: 12,
        pc: 0x8000_0218,
        hi_lo: [0, 0],
        regs: &[
            (1, 0x1234),
            (3, 0x1234),
            (5, 0x8000_0000),
            (26, 0x8000_0210),
        ],
        system: [0, 0x20, 0x8000_0210, 0],
    },
    Run {
        name: "a return from an exception between, the load linked anew",
        code: &[
            Ll(1, 0x0100, 5),
            Syscall,
            Ll(1, 0x0100, 5),
            Sc(2, 0x0100, 5),
            Lw(3, 0x0100, 5),
        ],
        pages: 16,
        steps: 13,
        pc: 0x8000_021c,
        hi_lo: [0, 0],
        regs: &[
            (1, 0x1234),
            (2, 1),
            (3, 9),
            (5, 0x8000_0000),
            (26, 0x8000_0210),
        ],
        system: [0, 0x20, 0x8000_0210, 0],
    },
    Run {
        name: "a store to the same word between",
        code: &[
            Ll(1, 0x0100, 5),
            Sw(5, 0x0100, 5),
            Sc(2, 0x0100, 5),
            Lw(3, 0x0100, 5),
        ],
        pages: 16,
        steps: 8,
        pc: 0x8000_0218,
        hi_lo: [0, 0],
        regs: &[(1, 0x1234), (2, 1), (3, 9), (5, 0x8000_0000)],
        system: [0, 0, 0, 0],
    },
    Run {
        name: "a branch between",
        code: &[
            Ll(1, 0x0100, 5),
            Bne(1, 0, 2),
            Nop,
            Nop,
            Sc(2, 0x0100, 5), // the target
            Lw(3, 0x0100, 5),
        ],
        pages: 16,
        steps: 9,
        pc: 0x8000_0220,
        hi_lo: [0, 0],
        regs: &[(1, 0x1234), (2, 1), (3, 9), (5, 0x8000_0000)],
        system: [0, 0, 0, 0],
    },
    Run {
        name: "another word",
        code: &[
            Ll(1, 0x0100, 5),
            Sc(2, 0x0104, 5),
            Lw(3, 0x0100, 5),
            Lw(4, 0x0104, 5),
        ],
        pages: 16,
        steps: 8,
        pc: 0x8000_0218,
        hi_lo: [0, 0],
        regs: &[(1, 0x1234), (2, 1), (3, 0x1234), (4, 9), (5, 0x8000_0000)],
        system: [0, 0, 0, 0],
    },
];

/// Whole images.
static RUNS: [Run<'static>; 10] = [
    Run {
        name: "a return from an interrupt between",
        code: &[
            J(0x8000_0200),
            Nop,
            At(0x180), // a handler that takes the timer's interrupt back
            Mtc0(0, COMPARE),
            Eret,
            At(0x200),
            Ori(6, 0, 10),
            Mtc0(6, COMPARE),
            Ori(7, 0, 0x8001), // IM7 and IE
            Mtc0(7, STATUS),
            Lui(5, 0x8000),
            Ori(2, 0, 9),
            Ll(1, 0x0400, 5), // step 9
            Sc(2, 0x0400, 5),
            Lw(3, 0x0400, 5),
            At(0x400),
            Word(0x1234),
        ],
        pages: 16,
        steps: 14,
        pc: 0x8000_0224,
        hi_lo: [0, 0],
        regs: &[
            (1, 0x1234),
            (3, 0x1234),
            (5, 0x8000_0000),
            (6, 0x0a),
            (7, 0x8001),
        ],
        system: [0x8001, 0, 0x8000_021c, 0],
    },
    Run {
        name: "an exception between, and no return",
        code: &[
            Lui(5, 0x8000),
            Ori(2, 0, 9),
            Ll(1, 0x0400, 5),
            Syscall,
            At(0x180),
            Sc(2, 0x0400, 5),
            Lw(3, 0x0400, 5),
            At(0x400),
            Word(0x1234),
        ],
        pages: 16,
        steps: 6,
        pc: 0x8000_0188,
        hi_lo: [0, 0],
        regs: &[(1, 0x1234), (2, 1), (3, 9), (5, 0x8000_0000)],
        system: [2, 0x20, 0x8000_000c, 0],
    },
    Run {
        name: "a return from a level of error between",
        code: &[
            Lui(5, 0x8000),
            Ori(2, 0, 9),
            Ori(6, 5, 0x0020),
            Mtc0(6, ERROR_EPC),
            Ori(7, 0, 4), // ERL
            Mtc0(7, STATUS),
            Ll(1, 0x0400, 5),
            Eret,
            Sc(2, 0x0400, 5), // at 020
            Lw(3, 0x0400, 5),
            At(0x400),
            Word(0x1234),
        ],
        pages: 16,
        steps: 10,
        pc: 0x8000_0028,
        hi_lo: [0, 0],
        regs: &[
            (1, 0x1234),
            (3, 0x1234),
            (5, 0x8000_0000),
            (6, 0x8000_0020),
            (7, 4),
        ],
        system: [0, 0, 0, 0],
    },
    Run {
        name: "a load linked that faults",
        code: &[
            Lui(5, 0x8000),
            Ori(2, 0, 9),
            Ll(1, 0x0402, 5),
            At(0x180),
            Sc(2, 0x0400, 5),
            Lw(3, 0x0400, 5),
            At(0x400),
            Word(0x1234),
        ],
        pages: 16,
        steps: 5,
        pc: 0x8000_0188,
        hi_lo: [0, 0],
        regs: &[(3, 0x1234), (5, 0x8000_0000)],
        system: [2, 0x10, 0x8000_0008, 0x8000_0402],
    },
    Run {
        name: "a load linked past memory",
        code: &[
            Lui(5, 0x8001),
            Ori(2, 0, 9),
            Ll(1, 0, 5),
            At(0x180),
            Lui(5, 0x8000),
            Sc(2, 0x0400, 5),
            Lw(3, 0x0400, 5),
            At(0x400),
            Word(0x1234),
        ],
        pages: 16,
        steps: 6,
        pc: 0x8000_018c,
        hi_lo: [0, 0],
        regs: &[(3, 0x1234), (5, 0x8000_0000)],
        system: [2, 0x1c, 0x8000_0008, 0],
    },
    Run {
        name: "a store conditional at an odd place, LLbit 0",
        code: &[Ori(2, 0, 9), Sc(2, 2, 0)],
        pages: 16,
        steps: 2,
        pc: 0x8000_0180,
        hi_lo: [0, 0],
        regs: &[(2, 9)],
        system: [2, 0x14, 0x8000_0004, 2],
    },
    Run {
        name: "a store conditional through an entry that is not valid, LLbit 0",
        code: &[Ori(2, 0, 9), Sc(2, 0x1004, 0)],
        pages: 16,
        steps: 2,
        pc: 0x8000_0180,
        hi_lo: [0, 0],
        regs: &[(2, 9)],
        system: [2, 0x0c, 0x8000_0004, 0x1004],
    },
    Run {
        name: "a store conditional that no entry has, LLbit 0",
        code: &[Lui(5, 0xc000), Ori(2, 0, 9), Sc(2, 4, 5)],
        pages: 16,
        steps: 3,
        pc: 0x8000_0000,
        hi_lo: [0, 0],
        regs: &[(2, 9), (5, 0xc000_0000)],
        system: [2, 0x0c, 0x8000_0008, 0xc000_0004],
    },
    Run {
        name: "a store conditional to a page that is not writable, LLbit 0",
        code: &[
            Ori(3, 0, 0x0003), // 00000000 to page 0, not writable
            Mtc0(3, ENTRY_LO0),
            Mtc0(3, ENTRY_LO1),
            Tlbwi,
            Ori(2, 0, 9),
            Sc(2, 0x0400, 0),
        ],
        pages: 16,
        steps: 6,
        pc: 0x8000_0180,
        hi_lo: [0, 0],
        regs: &[(2, 9), (3, 3)],
        system: [2, 4, 0x8000_0014, 0x400],
    },
    Run {
        name: "a store conditional to a page that is not writable, LLbit 1, and then one that stores",
        code: &[
            Ori(3, 0, 0x0003), // 00000000 to page 0, not writable
            Mtc0(3, ENTRY_LO0),
            Mtc0(3, ENTRY_LO1),
            Tlbwi,
            Lui(5, 0x8000),
            Ori(2, 0, 9),
            Ll(1, 0x0400, 0),
            Sc(2, 0x0400, 0),
            At(0x180),
            Sc(2, 0x0400, 5),
            Lw(4, 0x0400, 5),
            At(0x400),
            Word(0x1234),
        ],
        pages: 16,
        steps: 10,
        pc: 0x8000_0188,
        hi_lo: [0, 0],
        regs: &[(1, 0x1234), (2, 1), (3, 3), (4, 9), (5, 0x8000_0000)],
        system: [2, 4, 0x8000_001c, 0x400],
    },
];

/// The run with `START` before its own code.
fn check_between<R: AllocGlobal + Abort>(rt: &R, run: &Run) -> Result<(), Fail> {
    let code = joined(rt.alloc(), &[&START, run.code])?;
    let whole = Run {
        code: code.as_slice(),
        ..*run
    };
    check_run(rt, &whole)
}

#[test]
fn a_store_conditional_is_tied_to_a_load_linked(rt: HostRuntime) -> Result<(), Fail> {
    for run in &BETWEEN {
        check_between(&rt, run)?;
    }
    check_runs(&rt, &RUNS)
}
