//! Many steps of code in mapped pages: address spaces, entries of the TLB that are changed, and code that goes on in the next page.
use super::super::code::Code::*;
use super::super::code::{
    COMPARE, COUNT, ENTRY_HI, ENTRY_LO0, ENTRY_LO1, EPC, INDEX, RANDOM, STATUS, WIRED,
};
use super::{Program, check_programs};
use std::test::Fail;

static PROGRAMS: [Program<'static>; 4] = [
    Program {
        name: "two address spaces, and an entry whose pages change places",
        code: &[
            Lui(1, 0x0040),
            Ori(2, 1, 1), // ASID 1
            Mtc0(2, ENTRY_HI),
            Ori(3, 0, 0x0082), // frame 2
            Mtc0(3, ENTRY_LO0),
            Ori(4, 0, 0x00c2), // frame 3
            Mtc0(4, ENTRY_LO1),
            Tlbwi,
            Ori(2, 1, 2), // ASID 2
            Mtc0(2, ENTRY_HI),
            Ori(5, 0, 0x0102), // frame 4
            Mtc0(5, ENTRY_LO0),
            Ori(5, 0, 0x0142), // frame 5
            Mtc0(5, ENTRY_LO1),
            Ori(6, 0, 1),
            Mtc0(6, INDEX),
            Tlbwi,
            Ori(7, 1, 0x0ff4),
            Jalr(31, 7), // in address space 2
            Nop,
            Ori(2, 1, 1),
            Mtc0(2, ENTRY_HI),
            Jalr(31, 7), // in address space 1
            Nop,
            Mtc0(4, ENTRY_LO0),
            Mtc0(3, ENTRY_LO1),
            Mtc0(0, INDEX),
            Tlbwi,
            Jalr(31, 7), // the pages have changed places
            Nop,
            Beq(0, 0, 0xffe1), // again, from the start
            Ori(8, 0, 1),
            At(0x2000),
            Jr(31),
            Addiu(9, 9, 1),
            At(0x2ff4),
            Addiu(10, 10, 1),
            Addiu(10, 10, 2),
            Addiu(10, 10, 4),
            Jr(31), // frame 3
            Addiu(11, 11, 1),
            At(0x3ff4),
            Addiu(12, 12, 1),
            Addiu(12, 12, 2),
            Addiu(12, 12, 4),
            At(0x4ff4),
            Addiu(13, 13, 1),
            Addiu(13, 13, 2),
            Beq(0, 0, 1),
            Addiu(13, 13, 4), // frame 5, a slot
            Jr(31),
            Addiu(13, 13, 8),
        ],
        steps: 110,
    },
    Program {
        name: "an entry that is taken away, and brought back after the exception",
        code: &[
            Lui(1, 0x0040),
            Mtc0(1, ENTRY_HI),
            Ori(3, 0, 0x0083), // frame 2, global
            Ori(4, 0, 0x0081), // not valid
            Mtc0(3, ENTRY_LO0),
            Mtc0(4, ENTRY_LO1),
            Tlbwi,
            Ori(7, 1, 0x0100),
            Jalr(31, 7),
            Nop,
            Mtc0(4, ENTRY_LO0),
            Tlbwi,
            Jalr(31, 7), // a fetch that is not valid
            Nop,
            Beq(9, 0, 0xfff1), // from the start, once
            Ori(9, 0, 1),
            Sw(9, 0x0108, 1), // D is 0: the handler returns to it with no end
            At(0x180),
            Mtc0(3, ENTRY_LO0),
            Addiu(20, 20, 1),
            Tlbwi,
            Eret,
            At(0x2100),
            Addiu(10, 10, 1),
            Lw(11, 0x0104, 7),
            Jr(31),
            Addiu(10, 10, 2),
        ],
        steps: 70,
    },
    Program {
        name: "entries at places that Random gives after so many steps",
        code: &[
            Lui(1, 0x0040),
            Ori(5, 0, 6),
            Mtc0(5, WIRED),
            Ori(3, 0, 0x0087), // frame 2, dirty, global
            Mtc0(3, ENTRY_LO0),
            Mtc0(3, ENTRY_LO1),
            Mtc0(1, ENTRY_HI),
            Addiu(6, 6, 1),
            Tlbwr,
            Tlbp,
            Mfc0(8, INDEX),
            Mfc0(9, RANDOM),
            Sw(8, 0x0010, 1),
            Lw(10, 0x1010, 1), // the same page
            Addiu(6, 6, 2),
            Addiu(1, 1, 0x2000), // the next pair
            Bne(1, 0, 0xfff5),
            Tlbr,
            Nop,
        ],
        steps: 100,
    },
    Program {
        name: "the timer in user mode",
        code: &[
            Lui(1, 0x0040),
            Mtc0(1, ENTRY_HI),
            Ori(2, 0, 0x0087), // frame 2, dirty, global
            Mtc0(2, ENTRY_LO0),
            Ori(2, 0, 0x00c7), // frame 3
            Mtc0(2, ENTRY_LO1),
            Tlbwi,
            Ori(3, 0, 28),
            Mtc0(3, COMPARE),
            Ori(4, 0, 0x8013), // IM7, UM, EXL and IE
            Mtc0(4, STATUS),
            Ori(5, 1, 0x0ff8),
            Mtc0(5, EPC),
            Eret,
            At(0x180),
            Mfc0(26, COUNT),
            Addiu(26, 26, 9),
            Mtc0(26, COMPARE),
            Eret,
            At(0x2ff8), // from one page to the next, and back
            Addiu(10, 10, 1),
            Sw(10, 0x0020, 1),
            Lb(11, 0x0020, 1), // frame 3
            Beq(0, 0, 0xfffc),
            Sh(10, 0x1022, 1),
        ],
        steps: 80,
    },
];

#[test]
fn mapped_code_runs_many_steps(rt: HostRuntime) -> Result<(), Fail> {
    check_programs(&rt, &PROGRAMS)
}
