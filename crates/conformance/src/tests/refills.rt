//! Refills: a handler at the vector writes an entry and returns, and the access succeeds.
use super::code::Code::*;
use super::code::{CONTEXT, Code, ENTRY_LO0, ENTRY_LO1, EPC, INDEX, STATUS};
use super::layout::joined;
use super::run::{Run, check_run};
use std::process::Abort;
use std::test::Fail;

/// The start of each image. The vector of a refill is the entry of the image too; register 27 tells the two apart. The
/// handler takes the two words of an entry from the place of a table that Context has, and counts in register 24.
const HANDLER: [Code; 22] = [
    Bne(27, 0, 3), // at the second time and later, to 010
    Nop,
    J(0x8000_0200),
    Ori(27, 0, 1),
    Mfc0(26, CONTEXT),
    Lw(25, 0, 26),
    Lw(26, 4, 26),
    Mtc0(25, ENTRY_LO0),
    Mtc0(26, ENTRY_LO1),
    Tlbwr,
    Addiu(24, 24, 1),
    Eret,
    At(0x40), // the table's place for 00008000 and 00009000: pages 5 and 6, the second writable
    Word(0x0143),
    Word(0x0187),
    At(0x50), // and for 0000a000 and 0000b000: pages 7 and 8
    Word(0x01c3),
    Word(0x0203),
    At(0x200),
    Lui(1, 0x8000),
    Mtc0(1, CONTEXT), // the table begins at 80000000
    Ori(2, 0, 0x8000),
];

/// What stands from 20c on. Seven steps are made before it, and ten in the handler.
static RUNS: [Run<'static>; 9] = [
    Run {
        name: "a load",
        code: &[
            Lw(3, 0x0124, 2),
            Tlbp, // EntryHi has the page's number
            Mfc0(5, INDEX),
            At(0x5124),
            Word(0x1234_5678),
        ],
        pages: 16,
        steps: 21,
        pc: 0x8000_0218,
        hi_lo: [0, 0],
        regs: &[
            (1, 0x8000_0000),
            (2, 0x8000),
            (3, 0x1234_5678),
            (5, 0x0f),
            (24, 1),
            (25, 0x143),
            (26, 0x187),
            (27, 1),
        ],
        system: [0, 8, 0x8000_020c, 0x8124],
    },
    Run {
        name: "a load in a slot",
        code: &[
            Beq(0, 0, 2),
            Lw(3, 0x0124, 2),
            Addiu(4, 0, 1),
            Addiu(5, 0, 1), // the target
            At(0x5124),
            Word(0x1234_5678),
        ],
        pages: 16,
        steps: 22,
        pc: 0x8000_021c,
        hi_lo: [0, 0],
        regs: &[
            (1, 0x8000_0000),
            (2, 0x8000),
            (3, 0x1234_5678),
            (5, 1),
            (24, 1),
            (25, 0x143),
            (26, 0x187),
            (27, 1),
        ],
        system: [0, 0x8000_0008, 0x8000_020c, 0x8124],
    },
    Run {
        name: "a load in the slot of a jump that links",
        code: &[
            Ori(6, 1, 0x0300),
            Jalr(31, 6),
            Lw(3, 0x0124, 2),
            At(0x300),
            Addiu(5, 31, 0),
            At(0x5124),
            Word(0x1234_5678),
        ],
        pages: 16,
        steps: 23,
        pc: 0x8000_0304,
        hi_lo: [0, 0],
        regs: &[
            (1, 0x8000_0000),
            (2, 0x8000),
            (3, 0x1234_5678),
            (5, 0x8000_0218),
            (6, 0x8000_0300),
            (24, 1),
            (25, 0x143),
            (26, 0x187),
            (27, 1),
            (31, 0x8000_0218),
        ],
        system: [0, 0x8000_0008, 0x8000_0210, 0x8124],
    },
    Run {
        name: "a store",
        code: &[
            Sw(1, 0x1124, 2),
            Lw(3, 0x6124, 1), // the same word, in kseg0
        ],
        pages: 16,
        steps: 20,
        pc: 0x8000_0214,
        hi_lo: [0, 0],
        regs: &[
            (1, 0x8000_0000),
            (2, 0x8000),
            (3, 0x8000_0000),
            (24, 1),
            (25, 0x143),
            (26, 0x187),
            (27, 1),
        ],
        system: [0, 0x0c, 0x8000_020c, 0x9124],
    },
    Run {
        name: "a store in a slot",
        code: &[
            Beq(0, 0, 2),
            Sw(1, 0x1124, 2),
            Addiu(4, 0, 1),
            Lw(3, 0x6124, 1), // the target; the same word, in kseg0
        ],
        pages: 16,
        steps: 22,
        pc: 0x8000_021c,
        hi_lo: [0, 0],
        regs: &[
            (1, 0x8000_0000),
            (2, 0x8000),
            (3, 0x8000_0000),
            (24, 1),
            (25, 0x143),
            (26, 0x187),
            (27, 1),
        ],
        system: [0, 0x8000_000c, 0x8000_020c, 0x9124],
    },
    Run {
        name: "a store to a page that is not writable: a refill, then Mod",
        code: &[Sw(1, 0x0124, 2)],
        pages: 16,
        steps: 19,
        pc: 0x8000_0180,
        hi_lo: [0, 0],
        regs: &[
            (1, 0x8000_0000),
            (2, 0x8000),
            (24, 1),
            (25, 0x143),
            (26, 0x187),
            (27, 1),
        ],
        system: [2, 4, 0x8000_020c, 0x8124],
    },
    Run {
        name: "a fetch",
        code: &[
            Jr(2),
            Nop,
            At(0x5000), // at 00008000
            Addiu(4, 0, 7),
        ],
        pages: 16,
        steps: 21,
        pc: 0x8004,
        hi_lo: [0, 0],
        regs: &[
            (1, 0x8000_0000),
            (2, 0x8000),
            (4, 7),
            (24, 1),
            (25, 0x143),
            (26, 0x187),
            (27, 1),
        ],
        system: [0, 8, 0x8000, 0x8000],
    },
    Run {
        name: "a fetch in a slot",
        code: &[
            Ori(3, 2, 0x1ffc),
            Jr(3), // to the last word of two pages
            Nop,
            At(0x6ffc), // at 00009ffc: over the slot, to 0000a004
            Beq(0, 0, 1),
            At(0x7000), // at 0000a000
            Addiu(4, 4, 1),
            Addiu(5, 5, 1),
        ],
        pages: 16,
        steps: 36,
        pc: 0xa008,
        hi_lo: [0, 0],
        regs: &[
            (1, 0x8000_0000),
            (2, 0x8000),
            (3, 0x9ffc),
            (4, 1),
            (5, 1),
            (24, 2),
            (25, 0x1c3),
            (26, 0x203),
            (27, 1),
        ],
        system: [0, 0x8000_0008, 0x9ffc, 0xa000],
    },
    Run {
        name: "in user mode, of a fetch and of a load",
        code: &[
            Mtc0(2, EPC),
            Ori(3, 0, 0x0012), // UM and EXL
            Mtc0(3, STATUS),
            Eret,
            At(0x5000), // at 00008000
            Lw(4, 0x3124, 2),
            Addiu(5, 5, 1),
            At(0x8124), // at 0000b124
            Word(0x1234_5678),
        ],
        pages: 16,
        steps: 35,
        pc: 0x8008,
        hi_lo: [0, 0],
        regs: &[
            (1, 0x8000_0000),
            (2, 0x8000),
            (3, 0x12),
            (4, 0x1234_5678),
            (5, 1),
            (24, 2),
            (25, 0x1c3),
            (26, 0x203),
            (27, 1),
        ],
        system: [0x10, 8, 0x8000, 0xb124],
    },
];

/// The run with the handler before its own code.
fn check_refill<R: AllocGlobal + Abort>(rt: &R, run: &Run) -> Result<(), Fail> {
    let code = joined(rt.alloc(), &[&HANDLER, run.code])?;
    let whole = Run {
        code: code.as_slice(),
        ..*run
    };
    check_run(rt, &whole)
}

#[test]
fn handlers_of_refills_return_to_the_access(rt: HostRuntime) -> Result<(), Fail> {
    for run in &RUNS {
        check_refill(&rt, run)?;
    }
    Ok(())
}
