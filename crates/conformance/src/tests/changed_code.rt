//! Stores to the page that is being executed: an instruction is fetched as it is when its step comes.
use super::code::Code::*;
use super::code::{ENTRY_HI, ENTRY_LO0, ENTRY_LO1};
use super::run::{Run, check_runs};
use std::test::Fail;

static RUNS: [Run<'static>; 8] = [
    Run {
        name: "a store to the next instruction",
        code: &[
            Lui(1, 0x8000),
            Lui(2, 0x2403), // addiu $3,$0,7
            Ori(2, 2, 0x0007),
            Sw(2, 0x0010, 1),
            Addiu(3, 0, 1),
        ],
        pages: 16,
        steps: 5,
        pc: 0x8000_0014,
        hi_lo: [0, 0],
        regs: &[(1, 0x8000_0000), (2, 0x2403_0007), (3, 7)],
        system: [0, 0, 0, 0],
    },
    Run {
        name: "a store of a byte to the next instruction",
        code: &[
            Lui(1, 0x8000),
            Ori(2, 0, 0x0007),
            Sb(2, 0x000c, 1),
            Addiu(3, 0, 1),
        ],
        pages: 16,
        steps: 4,
        pc: 0x8000_0010,
        hi_lo: [0, 0],
        regs: &[(1, 0x8000_0000), (2, 7), (3, 7)],
        system: [0, 0, 0, 0],
    },
    Run {
        name: "a store by way of kseg1 to the next instruction",
        code: &[
            Lui(1, 0xa000),
            Ori(2, 0, 0x0007),
            Sh(2, 0x000c, 1),
            Addiu(3, 0, 1),
        ],
        pages: 16,
        steps: 4,
        pc: 0x8000_0010,
        hi_lo: [0, 0],
        regs: &[(1, 0xa000_0000), (2, 7), (3, 7)],
        system: [0, 0, 0, 0],
    },
    Run {
        name: "a store by way of the TLB to the next instruction",
        code: &[
            Lui(1, 0x0040), // 00400000 to page 0
            Mtc0(1, ENTRY_HI),
            Ori(2, 0, 7),
            Mtc0(2, ENTRY_LO0),
            Mtc0(2, ENTRY_LO1),
            Tlbwi,
            Sb(2, 0x001c, 1),
            Addiu(3, 0, 1),
        ],
        pages: 16,
        steps: 8,
        pc: 0x8000_0020,
        hi_lo: [0, 0],
        regs: &[(1, 0x0040_0000), (2, 7), (3, 7)],
        system: [0, 0, 0, 0],
    },
    Run {
        name: "a store of a part of a word to the next instruction",
        code: &[
            Lui(1, 0x8000),
            Ori(2, 0, 0x2403), // the upper half of addiu $3,$0,7
            Swr(2, 0x000e, 1),
            Word(0x0000_0007), // the lower half alone
        ],
        pages: 16,
        steps: 4,
        pc: 0x8000_0010,
        hi_lo: [0, 0],
        regs: &[(1, 0x8000_0000), (2, 0x2403), (3, 7)],
        system: [0, 0, 0, 0],
    },
    Run {
        name: "a store in a slot to the branch's target",
        code: &[
            Lui(1, 0x8000),
            Ori(2, 0, 0x0007),
            Beq(0, 0, 2),
            Sb(2, 0x0014, 1),
            Nop,
            Addiu(3, 0, 1), // the target
        ],
        pages: 16,
        steps: 5,
        pc: 0x8000_0018,
        hi_lo: [0, 0],
        regs: &[(1, 0x8000_0000), (2, 7), (3, 7)],
        system: [0, 0, 0, 0],
    },
    Run {
        name: "a store to the slot of the next branch",
        code: &[
            Lui(1, 0x8000),
            Ori(2, 0, 0x0007),
            Sb(2, 0x0010, 1),
            Beq(0, 0, 2),
            Addiu(3, 0, 1),
            Nop,
            Addiu(4, 0, 1), // the target
        ],
        pages: 16,
        steps: 6,
        pc: 0x8000_001c,
        hi_lo: [0, 0],
        regs: &[(1, 0x8000_0000), (2, 7), (3, 7), (4, 1)],
        system: [0, 0, 0, 0],
    },
    Run {
        name: "a loop that changes its own instruction at each turn",
        code: &[
            Lui(1, 0x8000),
            Ori(2, 0, 3),
            Addiu(3, 3, 0), // adds 0, then 3, then 2
            Sb(2, 0x0008, 1),
            Addiu(2, 2, 0xffff),
            Bne(2, 0, 0xfffc),
            Nop,
        ],
        pages: 16,
        steps: 17,
        pc: 0x8000_001c,
        hi_lo: [0, 0],
        regs: &[(1, 0x8000_0000), (3, 5)],
        system: [0, 0, 0, 0],
    },
];

#[test]
fn changed_instructions_are_executed_as_changed(rt: HostRuntime) -> Result<(), Fail> {
    check_runs(&rt, &RUNS)
}
