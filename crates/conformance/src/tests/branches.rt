//! Branches, likely branches and jumps, beside one another and to odd places.
use super::code::Code::*;
use super::code::{ENTRY_HI, ENTRY_LO0, ENTRY_LO1, EPC, INDEX, STATUS};
use super::run::{Run, check_runs};
use std::test::Fail;

static RUNS: [Run<'static>; 26] = [
    Run {
        name: "a likely branch in the slot of a likely branch that is not taken",
        code: &[
            Bnel(0, 0, 3),
            Beql(0, 0, 5), // skipped
            Addiu(2, 0, 1),
        ],
        pages: 16,
        steps: 2,
        pc: 0x8000_000c,
        hi_lo: [0, 0],
        regs: &[(2, 1)],
        system: [0, 0, 0, 0],
    },
    Run {
        name: "likely branches one after the other, not taken, taken, not taken",
        code: &[
            Bnel(0, 0, 9),
            Addiu(1, 1, 1), // skipped
            Beql(0, 0, 2),
            Addiu(2, 2, 1), // its slot
            Addiu(3, 3, 1), // jumped over
            Bnel(0, 0, 9), // its target
            Addiu(4, 4, 1), // skipped
            Addiu(5, 5, 1),
        ],
        pages: 16,
        steps: 5,
        pc: 0x8000_0020,
        hi_lo: [0, 0],
        regs: &[(2, 1), (5, 1)],
        system: [0, 0, 0, 0],
    },
    Run {
        name: "three likely branches that would not be taken, the second of them in a slot",
        code: &[
            Bnel(0, 0, 1),
            Bnel(0, 0, 1), // skipped
            Bnel(0, 0, 1),
            Addiu(1, 1, 1), // skipped
            Addiu(2, 2, 1),
        ],
        pages: 16,
        steps: 3,
        pc: 0x8000_0014,
        hi_lo: [0, 0],
        regs: &[(2, 1)],
        system: [0, 0, 0, 0],
    },
    Run {
        name: "a likely branch that is taken, in the slot of one that is taken",
        code: &[Beql(0, 0, 4), Beql(0, 0, 4)],
        pages: 16,
        steps: 2,
        pc: 0x8000_0180,
        hi_lo: [0, 0],
        regs: &[],
        system: [2, 0x8000_0028, 0x8000_0000, 0],
    },
    Run {
        name: "a likely branch that is not taken, in the slot of one that is taken",
        code: &[Beql(0, 0, 4), Bnel(0, 0, 4)],
        pages: 16,
        steps: 2,
        pc: 0x8000_0180,
        hi_lo: [0, 0],
        regs: &[],
        system: [2, 0x8000_0028, 0x8000_0000, 0],
    },
    Run {
        name: "a likely branch in the slot of a branch that is not taken",
        code: &[Bne(0, 0, 4), Bnel(0, 0, 4)],
        pages: 16,
        steps: 2,
        pc: 0x8000_0180,
        hi_lo: [0, 0],
        regs: &[],
        system: [2, 0x8000_0028, 0x8000_0000, 0],
    },
    Run {
        name: "a branch that links, in a slot: nothing is linked",
        code: &[Beq(0, 0, 4), Jalr(31, 1)],
        pages: 16,
        steps: 2,
        pc: 0x8000_0180,
        hi_lo: [0, 0],
        regs: &[],
        system: [2, 0x8000_0028, 0x8000_0000, 0],
    },
    Run {
        name: "a return from an exception in a slot",
        code: &[Beq(0, 0, 4), Eret],
        pages: 16,
        steps: 2,
        pc: 0x8000_0180,
        hi_lo: [0, 0],
        regs: &[],
        system: [2, 0x8000_0028, 0x8000_0000, 0],
    },
    Run {
        name: "the target is what would be the slot of a likely branch",
        code: &[
            Beql(0, 0, 2),
            Nop,
            Bnel(0, 0, 9), // jumped over
            Syscall, // the target, and no slot
        ],
        pages: 16,
        steps: 3,
        pc: 0x8000_0180,
        hi_lo: [0, 0],
        regs: &[],
        system: [2, 0x20, 0x8000_000c, 0],
    },
    Run {
        name: "the target is what would be the slot of a branch, and is a branch",
        code: &[
            Beq(0, 0, 2),
            Nop,
            Bne(0, 0, 9), // jumped over
            Beq(0, 0, 1), // the target, and no slot
            Addiu(1, 1, 1),
            Addiu(2, 2, 1),
        ],
        pages: 16,
        steps: 5,
        pc: 0x8000_0018,
        hi_lo: [0, 0],
        regs: &[(1, 1), (2, 1)],
        system: [0, 0, 0, 0],
    },
    Run {
        name: "a loop that ends by a likely branch that is not taken",
        code: &[
            Ori(1, 0, 3),
            Addiu(1, 1, 0xffff),
            Bnel(1, 0, 0xfffe),
            Addiu(2, 2, 1), // at each turn but the last
        ],
        pages: 16,
        steps: 9,
        pc: 0x8000_0010,
        hi_lo: [0, 0],
        regs: &[(2, 2)],
        system: [0, 0, 0, 0],
    },
    Run {
        name: "a branch to itself",
        code: &[Beq(0, 0, 0xffff), Addiu(1, 1, 1)],
        pages: 16,
        steps: 5,
        pc: 0x8000_0004,
        hi_lo: [0, 0],
        regs: &[(1, 2)],
        system: [0, 0, 0, 0],
    },
    Run {
        name: "an exception in the slot of a likely branch",
        code: &[Beql(0, 0, 4), Syscall],
        pages: 16,
        steps: 2,
        pc: 0x8000_0180,
        hi_lo: [0, 0],
        regs: &[],
        system: [2, 0x8000_0020, 0x8000_0000, 0],
    },
    Run {
        name: "a likely branch that links and is not taken",
        code: &[
            Bltzall(0, 4),
            Addiu(2, 2, 1), // skipped
            Addiu(3, 31, 0),
        ],
        pages: 16,
        steps: 2,
        pc: 0x8000_000c,
        hi_lo: [0, 0],
        regs: &[(3, 0x8000_0008), (31, 0x8000_0008)],
        system: [0, 0, 0, 0],
    },
    Run {
        name: "a likely branch that links and is taken",
        code: &[
            Lui(1, 0x8000),
            Bltzall(1, 3),
            Addiu(2, 31, 0), // its slot
            Nop,
            Nop,
            Addiu(3, 0, 1), // its target
        ],
        pages: 16,
        steps: 4,
        pc: 0x8000_0018,
        hi_lo: [0, 0],
        regs: &[
            (1, 0x8000_0000),
            (2, 0x8000_000c),
            (3, 1),
            (31, 0x8000_000c),
        ],
        system: [0, 0, 0, 0],
    },
    Run {
        name: "a jump that links into the register that it goes by",
        code: &[
            Lui(1, 0x8000),
            Ori(1, 1, 0x0020),
            Jalr(1, 1),
            Addiu(2, 1, 0),
            At(0x20),
            Addiu(3, 0, 1),
        ],
        pages: 16,
        steps: 5,
        pc: 0x8000_0024,
        hi_lo: [0, 0],
        regs: &[(1, 0x8000_0010), (2, 0x8000_0010), (3, 1)],
        system: [0, 0, 0, 0],
    },
    Run {
        name: "a slot that changes the register that the jump went by",
        code: &[
            Lui(1, 0x8000),
            Ori(1, 1, 0x0020),
            Jr(1),
            Ori(1, 0, 5),
            At(0x20),
            Addiu(3, 0, 1),
        ],
        pages: 16,
        steps: 5,
        pc: 0x8000_0024,
        hi_lo: [0, 0],
        regs: &[(1, 5), (3, 1)],
        system: [0, 0, 0, 0],
    },
    Run {
        name: "a jump at the last word of 256 MB goes by the place of its slot",
        code: &[
            Lui(1, 0x1000), // entry 0: 10000000 to page 2
            Mtc0(1, ENTRY_HI),
            Ori(2, 0, 0x0083),
            Mtc0(2, ENTRY_LO0),
            Ori(3, 0, 1),
            Mtc0(3, ENTRY_LO1),
            Tlbwi,
            Addiu(1, 1, 0xe000), // entry 1: 0ffff000 to page 1
            Mtc0(1, ENTRY_HI),
            Mtc0(3, ENTRY_LO0),
            Ori(2, 0, 0x0043),
            Mtc0(2, ENTRY_LO1),
            Mtc0(3, INDEX),
            Tlbwi,
            Ori(1, 1, 0x1ffc),
            Jr(1),
            Nop,
            At(0x1ffc), // at 0ffffffc
            J(0x0000_0100),
            Addiu(4, 0, 1), // at 10000000
            At(0x2100), // at 10000100
            Addiu(5, 0, 1),
        ],
        pages: 16,
        steps: 20,
        pc: 0x1000_0104,
        hi_lo: [0, 0],
        regs: &[(1, 0x0fff_fffc), (2, 0x43), (3, 1), (4, 1), (5, 1)],
        system: [0, 0, 0, 0],
    },
    Run {
        name: "a jump to 1 modulo 4",
        code: &[
            Lui(1, 0x8000),
            Ori(1, 1, 0x0101),
            Jr(1),
            Addiu(2, 0, 1), // its slot
        ],
        pages: 16,
        steps: 5,
        pc: 0x8000_0180,
        hi_lo: [0, 0],
        regs: &[(1, 0x8000_0101), (2, 1)],
        system: [2, 0x10, 0x8000_0101, 0x8000_0101],
    },
    Run {
        name: "a jump to 2 modulo 4",
        code: &[
            Lui(1, 0x8000),
            Ori(1, 1, 0x0102),
            Jr(1),
            Addiu(2, 0, 1), // its slot
        ],
        pages: 16,
        steps: 5,
        pc: 0x8000_0180,
        hi_lo: [0, 0],
        regs: &[(1, 0x8000_0102), (2, 1)],
        system: [2, 0x10, 0x8000_0102, 0x8000_0102],
    },
    Run {
        name: "a jump to 3 modulo 4",
        code: &[
            Lui(1, 0x8000),
            Ori(1, 1, 0x0103),
            Jr(1),
            Addiu(2, 0, 1), // its slot
        ],
        pages: 16,
        steps: 5,
        pc: 0x8000_0180,
        hi_lo: [0, 0],
        regs: &[(1, 0x8000_0103), (2, 1)],
        system: [2, 0x10, 0x8000_0103, 0x8000_0103],
    },
    Run {
        name: "a jump that links to 1 modulo 4",
        code: &[
            Ori(1, 0, 0x0101),
            Jalr(31, 1),
            Addiu(2, 0, 1), // its slot
        ],
        pages: 16,
        steps: 4,
        pc: 0x8000_0180,
        hi_lo: [0, 0],
        regs: &[(1, 0x101), (2, 1), (31, 0x8000_000c)],
        system: [2, 0x10, 0x101, 0x101],
    },
    Run {
        name: "a jump to an odd place that no entry of the TLB has",
        code: &[Lui(1, 0xc000), Ori(1, 1, 0x0002), Jr(1), Nop],
        pages: 16,
        steps: 5,
        pc: 0x8000_0180,
        hi_lo: [0, 0],
        regs: &[(1, 0xc000_0002)],
        system: [2, 0x10, 0xc000_0002, 0xc000_0002],
    },
    Run {
        name: "an exception in the slot of a jump to an odd place",
        code: &[Ori(1, 0, 0x0101), Jr(1), Syscall],
        pages: 16,
        steps: 3,
        pc: 0x8000_0180,
        hi_lo: [0, 0],
        regs: &[(1, 0x101)],
        system: [2, 0x8000_0020, 0x8000_0004, 0],
    },
    Run {
        name: "a return from an exception in user mode with CU0",
        code: &[
            Lui(1, 0x0040), // 00400000 to page 0
            Mtc0(1, ENTRY_HI),
            Ori(2, 0, 3),
            Mtc0(2, ENTRY_LO0),
            Ori(2, 0, 1),
            Mtc0(2, ENTRY_LO1),
            Tlbwi,
            Lui(4, 0x1000), // CU0
            Ori(4, 4, 0x0012), // UM and EXL
            Mtc0(4, STATUS),
            Ori(1, 1, 0x0100),
            Mtc0(1, EPC),
            Eret,
            At(0x100), // at 00400100
            Addiu(3, 3, 1),
            Eret,
        ],
        pages: 16,
        steps: 16,
        pc: 0x0040_0104,
        hi_lo: [0, 0],
        regs: &[(1, 0x0040_0100), (2, 1), (3, 2), (4, 0x1000_0012)],
        system: [0x1000_0010, 0, 0x0040_0100, 0],
    },
    Run {
        name: "a return from an exception to 3 modulo 4",
        code: &[
            Ori(1, 0, 0x0103),
            Mtc0(1, EPC),
            Ori(2, 0, 2), // EXL
            Mtc0(2, STATUS),
            Eret,
        ],
        pages: 16,
        steps: 6,
        pc: 0x8000_0180,
        hi_lo: [0, 0],
        regs: &[(1, 0x103), (2, 2)],
        system: [2, 0x10, 0x103, 0x103],
    },
];

#[test]
fn branches_and_jumps_go_where_they_should(rt: HostRuntime) -> Result<(), Fail> {
    check_runs(&rt, &RUNS)
}
