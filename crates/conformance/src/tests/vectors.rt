//! The vectors that IV, BEV and EXL choose.
use super::code::Code::*;
use super::code::{CAUSE, COMPARE, STATUS};
use super::run::{Run, check_runs};
use std::test::Fail;

static RUNS: [Run<'static>; 10] = [
    Run {
        name: "an interrupt with IV",
        code: &[
            Ori(1, 0, 7),
            Mtc0(1, COMPARE),
            Lui(3, 0x0080), // IV
            Mtc0(3, CAUSE),
            Ori(2, 0, 0x8001),
            Mtc0(2, STATUS),
            Nop,
        ],
        pages: 16,
        steps: 7,
        pc: 0x8000_0200,
        hi_lo: [0, 0],
        regs: &[(1, 7), (2, 0x8001), (3, 0x0080_0000)],
        system: [0x8003, 0x0080_8000, 0x8000_0018, 0],
    },
    Run {
        name: "an interrupt with BEV",
        code: &[
            Ori(1, 0, 6),
            Mtc0(1, COMPARE),
            Lui(2, 0x0040), // BEV
            Ori(2, 2, 0x8001),
            Mtc0(2, STATUS),
            Nop,
        ],
        pages: 16,
        steps: 6,
        pc: 0xbfc0_0380,
        hi_lo: [0, 0],
        regs: &[(1, 6), (2, 0x0040_8001)],
        system: [0x0040_8003, 0x8000, 0x8000_0014, 0],
    },
    Run {
        name: "an interrupt with IV and BEV",
        code: &[
            Ori(1, 0, 8),
            Mtc0(1, COMPARE),
            Lui(3, 0x0080), // IV
            Mtc0(3, CAUSE),
            Lui(2, 0x0040), // BEV
            Ori(2, 2, 0x8001),
            Mtc0(2, STATUS),
            Nop,
        ],
        pages: 16,
        steps: 8,
        pc: 0xbfc0_0400,
        hi_lo: [0, 0],
        regs: &[(1, 8), (2, 0x0040_8001), (3, 0x0080_0000)],
        system: [0x0040_8003, 0x0080_8000, 0x8000_001c, 0],
    },
    Run {
        name: "another exception with IV",
        code: &[
            Lui(3, 0x0080), // IV
            Mtc0(3, CAUSE),
            Syscall,
        ],
        pages: 16,
        steps: 3,
        pc: 0x8000_0180,
        hi_lo: [0, 0],
        regs: &[(3, 0x0080_0000)],
        system: [2, 0x0080_0020, 0x8000_0008, 0],
    },
    Run {
        name: "another exception with BEV",
        code: &[
            Lui(2, 0x0040), // BEV
            Mtc0(2, STATUS),
            Syscall,
        ],
        pages: 16,
        steps: 3,
        pc: 0xbfc0_0380,
        hi_lo: [0, 0],
        regs: &[(2, 0x0040_0000)],
        system: [0x0040_0002, 0x20, 0x8000_0008, 0],
    },
    Run {
        name: "a refill with BEV",
        code: &[
            Lui(2, 0x0040), // BEV
            Mtc0(2, STATUS),
            Lw(3, 0, 2),
        ],
        pages: 16,
        steps: 3,
        pc: 0xbfc0_0200,
        hi_lo: [0, 0],
        regs: &[(2, 0x0040_0000)],
        system: [0x0040_0002, 8, 0x8000_0008, 0x0040_0000],
    },
    Run {
        name: "a refill inside a handler with BEV",
        code: &[
            Lui(2, 0x0040), // BEV
            Ori(3, 2, 0x0002), // and EXL
            Mtc0(3, STATUS),
            Lw(4, 0, 2),
        ],
        pages: 16,
        steps: 4,
        pc: 0xbfc0_0380,
        hi_lo: [0, 0],
        regs: &[(2, 0x0040_0000), (3, 0x0040_0002)],
        system: [0x0040_0002, 8, 0, 0x0040_0000],
    },
    Run {
        name: "a refill with IV",
        code: &[
            Lui(3, 0x0080), // IV
            Mtc0(3, CAUSE),
            Lw(4, 0, 3),
        ],
        pages: 16,
        steps: 3,
        pc: 0x8000_0000,
        hi_lo: [0, 0],
        regs: &[(3, 0x0080_0000)],
        system: [2, 0x0080_0008, 0x8000_0008, 0x0080_0000],
    },
    Run {
        name: "a handler at a vector without memory",
        code: &[
            Lui(2, 0x0040), // BEV
            Mtc0(2, STATUS),
            Syscall,
        ],
        pages: 16,
        steps: 4,
        pc: 0xbfc0_0380,
        hi_lo: [0, 0],
        regs: &[(2, 0x0040_0000)],
        system: [0x0040_0002, 0x18, 0x8000_0008, 0],
    },
    Run {
        name: "an exception while ERL is 1",
        code: &[
            Ori(1, 0, 4), // ERL
            Mtc0(1, STATUS),
            Syscall,
        ],
        pages: 16,
        steps: 3,
        pc: 0x8000_0180,
        hi_lo: [0, 0],
        regs: &[(1, 4)],
        system: [6, 0x20, 0x8000_0008, 0],
    },
];

#[test]
fn exceptions_are_entered_at_their_vectors(rt: HostRuntime) -> Result<(), Fail> {
    check_runs(&rt, &RUNS)
}
