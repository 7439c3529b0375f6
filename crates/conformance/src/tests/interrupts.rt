//! Interrupts, of the timer and of software. A step adds 1 to Count first, so a Compare of n is met in step n.
use super::code::Code::*;
use super::code::{CAUSE, COMPARE, COUNT, ENTRY_HI, ENTRY_LO0, ENTRY_LO1, EPC, STATUS};
use super::run::{Run, check_runs};
use std::test::Fail;

static RUNS: [Run<'static>; 25] = [
    Run {
        name: "the timer, between two instructions",
        code: &[
            Ori(1, 0, 6),
            Mtc0(1, COMPARE),
            Ori(2, 0, 0x8001), // IM7 and IE
            Mtc0(2, STATUS),
            Nop,
            Nop,
        ],
        pages: 16,
        steps: 6,
        pc: 0x8000_0180,
        hi_lo: [0, 0],
        regs: &[(1, 6), (2, 0x8001)],
        system: [0x8003, 0x8000, 0x8000_0014, 0],
    },
    Run {
        name: "the timer, at a branch",
        code: &[
            Ori(1, 0, 5),
            Mtc0(1, COMPARE),
            Ori(2, 0, 0x8001), // IM7 and IE
            Mtc0(2, STATUS),
            Beq(0, 0, 3),
            Nop,
        ],
        pages: 16,
        steps: 5,
        pc: 0x8000_0180,
        hi_lo: [0, 0],
        regs: &[(1, 5), (2, 0x8001)],
        system: [0x8003, 0x8000, 0x8000_0010, 0],
    },
    Run {
        name: "the timer, in the slot of a taken branch",
        code: &[
            Ori(1, 0, 6),
            Mtc0(1, COMPARE),
            Ori(2, 0, 0x8001), // IM7 and IE
            Mtc0(2, STATUS),
            Beq(0, 0, 3),
            Addiu(3, 0, 1),
        ],
        pages: 16,
        steps: 6,
        pc: 0x8000_0180,
        hi_lo: [0, 0],
        regs: &[(1, 6), (2, 0x8001)],
        system: [0x8003, 0x8000_8000, 0x8000_0010, 0],
    },
    Run {
        name: "the timer, in the slot of a branch that is not taken",
        code: &[
            Ori(1, 0, 6),
            Mtc0(1, COMPARE),
            Ori(2, 0, 0x8001), // IM7 and IE
            Mtc0(2, STATUS),
            Bne(0, 0, 3),
            Addiu(3, 0, 1),
        ],
        pages: 16,
        steps: 6,
        pc: 0x8000_0180,
        hi_lo: [0, 0],
        regs: &[(1, 6), (2, 0x8001)],
        system: [0x8003, 0x8000_8000, 0x8000_0010, 0],
    },
    Run {
        name: "the timer, in the slot of a jump that links",
        code: &[
            Ori(1, 0, 6),
            Mtc0(1, COMPARE),
            Ori(2, 0, 0x8001), // IM7 and IE
            Mtc0(2, STATUS),
            Jalr(31, 2), // to 00008001, which is not reached
            Addiu(3, 0, 1),
        ],
        pages: 16,
        steps: 6,
        pc: 0x8000_0180,
        hi_lo: [0, 0],
        regs: &[(1, 6), (2, 0x8001), (31, 0x8000_0018)],
        system: [0x8003, 0x8000_8000, 0x8000_0010, 0],
    },
    Run {
        name: "the timer, at the target of a branch",
        code: &[
            Ori(1, 0, 7),
            Mtc0(1, COMPARE),
            Ori(2, 0, 0x8001), // IM7 and IE
            Mtc0(2, STATUS),
            Beq(0, 0, 3),
            Addiu(3, 0, 1),
        ],
        pages: 16,
        steps: 7,
        pc: 0x8000_0180,
        hi_lo: [0, 0],
        regs: &[(1, 7), (2, 0x8001), (3, 1)],
        system: [0x8003, 0x8000, 0x8000_0020, 0],
    },
    Run {
        name: "the timer, after a likely branch that is not taken",
        code: &[
            Ori(1, 0, 6),
            Mtc0(1, COMPARE),
            Ori(2, 0, 0x8001), // IM7 and IE
            Mtc0(2, STATUS),
            Bnel(0, 0, 3),
            Addiu(3, 0, 1),
            Addiu(4, 0, 1),
        ],
        pages: 16,
        steps: 6,
        pc: 0x8000_0180,
        hi_lo: [0, 0],
        regs: &[(1, 6), (2, 0x8001)],
        system: [0x8003, 0x8000, 0x8000_0018, 0],
    },
    Run {
        name: "the timer, in a slot, and a return to the branch",
        code: &[
            Ori(1, 0, 6),
            Mtc0(1, COMPARE),
            Ori(2, 0, 0x8001), // IM7 and IE
            Mtc0(2, STATUS),
            Beq(0, 0, 3),
            Addiu(3, 3, 1),
            At(0x20), // the target
            Addiu(4, 4, 1),
            At(0x180),
            Mtc0(0, COMPARE),
            Eret,
        ],
        pages: 16,
        steps: 11,
        pc: 0x8000_0024,
        hi_lo: [0, 0],
        regs: &[(1, 6), (2, 0x8001), (3, 1), (4, 1)],
        system: [0x8001, 0x8000_0000, 0x8000_0010, 0],
    },
    Run {
        name: "the timer, at a target, and a return to it",
        code: &[
            Ori(1, 0, 7),
            Mtc0(1, COMPARE),
            Ori(2, 0, 0x8001), // IM7 and IE
            Mtc0(2, STATUS),
            Beq(0, 0, 3),
            Addiu(3, 3, 1),
            At(0x20), // the target
            Addiu(4, 4, 1),
            At(0x180),
            Mtc0(0, COMPARE),
            Eret,
        ],
        pages: 16,
        steps: 10,
        pc: 0x8000_0024,
        hi_lo: [0, 0],
        regs: &[(1, 7), (2, 0x8001), (3, 1), (4, 1)],
        system: [0x8001, 0, 0x8000_0020, 0],
    },
    Run {
        name: "the timer, before a fetch at an odd place, and a return to that",
        code: &[
            Ori(1, 0, 7),
            Mtc0(1, COMPARE),
            Ori(2, 0, 0x8001), // IM7 and IE
            Mtc0(2, STATUS),
            Jr(2), // to 00008001
            Nop,
            At(0x180),
            Mtc0(0, COMPARE),
            Eret,
        ],
        pages: 16,
        steps: 10,
        pc: 0x8000_0180,
        hi_lo: [0, 0],
        regs: &[(1, 7), (2, 0x8001)],
        system: [0x8003, 0x10, 0x8001, 0x8001],
    },
    Run {
        name: "the timer, before an exception of an instruction",
        code: &[
            Ori(1, 0, 5),
            Mtc0(1, COMPARE),
            Ori(2, 0, 0x8001), // IM7 and IE
            Mtc0(2, STATUS),
            Syscall,
        ],
        pages: 16,
        steps: 5,
        pc: 0x8000_0180,
        hi_lo: [0, 0],
        regs: &[(1, 5), (2, 0x8001)],
        system: [0x8003, 0x8000, 0x8000_0010, 0],
    },
    Run {
        name: "the timer while EXL is 1",
        code: &[
            Ori(1, 0, 5),
            Mtc0(1, COMPARE),
            Ori(2, 0, 0x8003), // IM7, EXL and IE
            Mtc0(2, STATUS),
            Nop,
            Nop,
        ],
        pages: 16,
        steps: 6,
        pc: 0x8000_0018,
        hi_lo: [0, 0],
        regs: &[(1, 5), (2, 0x8003)],
        system: [0x8003, 0x8000, 0, 0],
    },
    Run {
        name: "the timer, at the return from a handler",
        code: &[
            Ori(1, 0, 5),
            Mtc0(1, COMPARE),
            Ori(2, 0, 0x8003), // IM7, EXL and IE
            Mtc0(2, STATUS),
            Lui(3, 0x8000),
            Ori(3, 3, 0x0024),
            Mtc0(3, EPC),
            Eret,
        ],
        pages: 16,
        steps: 9,
        pc: 0x8000_0180,
        hi_lo: [0, 0],
        regs: &[(1, 5), (2, 0x8003), (3, 0x8000_0024)],
        system: [0x8003, 0x8000, 0x8000_0024, 0],
    },
    Run {
        name: "the timer while ERL is 1",
        code: &[
            Ori(1, 0, 5),
            Mtc0(1, COMPARE),
            Ori(2, 0, 0x8005), // IM7, ERL and IE
            Mtc0(2, STATUS),
            Nop,
            Nop,
        ],
        pages: 16,
        steps: 6,
        pc: 0x8000_0018,
        hi_lo: [0, 0],
        regs: &[(1, 5), (2, 0x8005)],
        system: [0x8005, 0x8000, 0, 0],
    },
    Run {
        name: "the timer while IE is 0",
        code: &[
            Ori(1, 0, 5),
            Mtc0(1, COMPARE),
            Ori(2, 0, 0xff00), // IM7 to IM0
            Mtc0(2, STATUS),
            Nop,
            Nop,
        ],
        pages: 16,
        steps: 6,
        pc: 0x8000_0018,
        hi_lo: [0, 0],
        regs: &[(1, 5), (2, 0xff00)],
        system: [0xff00, 0x8000, 0, 0],
    },
    Run {
        name: "the timer while IM7 is 0",
        code: &[
            Ori(1, 0, 5),
            Mtc0(1, COMPARE),
            Ori(2, 0, 0x7f01), // IM6 to IM0 and IE
            Mtc0(2, STATUS),
            Nop,
            Nop,
        ],
        pages: 16,
        steps: 6,
        pc: 0x8000_0018,
        hi_lo: [0, 0],
        regs: &[(1, 5), (2, 0x7f01)],
        system: [0x7f01, 0x8000, 0, 0],
    },
    Run {
        name: "software's interrupt 0",
        code: &[
            Ori(1, 0, 0x0100), // IP0
            Mtc0(1, CAUSE),
            Ori(2, 0, 0x0101), // IM0 and IE
            Mtc0(2, STATUS),
            Nop,
        ],
        pages: 16,
        steps: 5,
        pc: 0x8000_0180,
        hi_lo: [0, 0],
        regs: &[(1, 0x100), (2, 0x101)],
        system: [0x103, 0x100, 0x8000_0010, 0],
    },
    Run {
        name: "software's interrupt 1, raised while it is enabled",
        code: &[
            Ori(2, 0, 0x0201), // IM1 and IE
            Mtc0(2, STATUS),
            Ori(1, 0, 0x0200), // IP1
            Mtc0(1, CAUSE),
            Nop,
        ],
        pages: 16,
        steps: 5,
        pc: 0x8000_0180,
        hi_lo: [0, 0],
        regs: &[(1, 0x200), (2, 0x201)],
        system: [0x203, 0x200, 0x8000_0010, 0],
    },
    Run {
        name: "software's interrupt 0, raised in a slot",
        code: &[
            Ori(2, 0, 0x0101), // IM0 and IE
            Mtc0(2, STATUS),
            Ori(1, 0, 0x0100), // IP0
            Beq(0, 0, 3),
            Mtc0(1, CAUSE),
        ],
        pages: 16,
        steps: 6,
        pc: 0x8000_0180,
        hi_lo: [0, 0],
        regs: &[(1, 0x100), (2, 0x101)],
        system: [0x103, 0x100, 0x8000_001c, 0],
    },
    Run {
        name: "the timer in user mode, at a branch",
        code: &[
            Lui(1, 0x0040), // 00400000 to page 0
            Mtc0(1, ENTRY_HI),
            Ori(2, 0, 3),
            Mtc0(2, ENTRY_LO0),
            Ori(2, 0, 1),
            Mtc0(2, ENTRY_LO1),
            Tlbwi,
            Ori(3, 0, 15),
            Mtc0(3, COMPARE),
            Ori(4, 0, 0x8013), // IM7, UM, EXL and IE
            Mtc0(4, STATUS),
            Ori(1, 1, 0x0100),
            Mtc0(1, EPC),
            Eret,
            At(0x100), // in user mode at 00400100
            Beq(0, 0, 2),
            Nop,
        ],
        pages: 16,
        steps: 15,
        pc: 0x8000_0180,
        hi_lo: [0, 0],
        regs: &[(1, 0x0040_0100), (2, 1), (3, 0x0f), (4, 0x8013)],
        system: [0x8013, 0x8000, 0x0040_0100, 0],
    },
    Run {
        name: "the timer in user mode, in a slot",
        code: &[
            Lui(1, 0x0040), // 00400000 to page 0
            Mtc0(1, ENTRY_HI),
            Ori(2, 0, 3),
            Mtc0(2, ENTRY_LO0),
            Ori(2, 0, 1),
            Mtc0(2, ENTRY_LO1),
            Tlbwi,
            Ori(3, 0, 16),
            Mtc0(3, COMPARE),
            Ori(4, 0, 0x8013), // IM7, UM, EXL and IE
            Mtc0(4, STATUS),
            Ori(1, 1, 0x0100),
            Mtc0(1, EPC),
            Eret,
            At(0x100), // in user mode at 00400100
            Beq(0, 0, 2),
            Nop,
        ],
        pages: 16,
        steps: 16,
        pc: 0x8000_0180,
        hi_lo: [0, 0],
        regs: &[(1, 0x0040_0100), (2, 1), (3, 0x10), (4, 0x8013)],
        system: [0x8013, 0x8000_8000, 0x0040_0100, 0],
    },
    Run {
        name: "the timer in user mode, at a target",
        code: &[
            Lui(1, 0x0040), // 00400000 to page 0
            Mtc0(1, ENTRY_HI),
            Ori(2, 0, 3),
            Mtc0(2, ENTRY_LO0),
            Ori(2, 0, 1),
            Mtc0(2, ENTRY_LO1),
            Tlbwi,
            Ori(3, 0, 17),
            Mtc0(3, COMPARE),
            Ori(4, 0, 0x8013), // IM7, UM, EXL and IE
            Mtc0(4, STATUS),
            Ori(1, 1, 0x0100),
            Mtc0(1, EPC),
            Eret,
            At(0x100), // in user mode at 00400100
            Beq(0, 0, 2),
            Nop,
        ],
        pages: 16,
        steps: 17,
        pc: 0x8000_0180,
        hi_lo: [0, 0],
        regs: &[(1, 0x0040_0100), (2, 1), (3, 0x11), (4, 0x8013)],
        system: [0x8013, 0x8000, 0x0040_010c, 0],
    },
    Run {
        name: "a write of Compare takes the interrupt back",
        code: &[
            Ori(1, 0, 4),
            Mtc0(1, COMPARE),
            Nop,
            Nop,
            Mfc0(2, CAUSE),
            Mtc0(1, COMPARE),
            Mfc0(3, CAUSE),
        ],
        pages: 16,
        steps: 7,
        pc: 0x8000_001c,
        hi_lo: [0, 0],
        regs: &[(1, 4), (2, 0x8000)],
        system: [0, 0, 0, 0],
    },
    Run {
        name: "Count goes on from what is written to it",
        code: &[
            Ori(1, 0, 0x0050),
            Mtc0(1, COMPARE),
            Ori(2, 0, 0x004e),
            Mtc0(2, COUNT),
            Mfc0(3, CAUSE),
            Mfc0(4, CAUSE),
            Mfc0(5, COUNT),
        ],
        pages: 16,
        steps: 7,
        pc: 0x8000_001c,
        hi_lo: [0, 0],
        regs: &[(1, 0x50), (2, 0x4e), (4, 0x8000), (5, 0x51)],
        system: [0, 0x8000, 0, 0],
    },
    Run {
        name: "Compare gets the number that Count has",
        code: &[Ori(1, 0, 2), Mtc0(1, COMPARE), Mfc0(2, CAUSE)],
        pages: 16,
        steps: 3,
        pc: 0x8000_000c,
        hi_lo: [0, 0],
        regs: &[(1, 2)],
        system: [0, 0, 0, 0],
    },
];

#[test]
fn interrupts_are_taken_and_held_back(rt: HostRuntime) -> Result<(), Fail> {
    check_runs(&rt, &RUNS)
}
