//! LL and SC among many steps, with other stores between them.
use super::super::code::Code::*;
use super::super::code::{COMPARE, EPC, STATUS};
use super::{Program, check_programs};
use std::test::Fail;

static PROGRAMS: [Program<'static>; 4] = [
    Program {
        name: "stores between, to the word and beside it",
        code: &[
            Lui(1, 0x8000),
            Ll(2, 0x1000, 1),
            Sw(1, 0x1004, 1),
            Addiu(2, 2, 5),
            Sc(2, 0x1000, 1),
            Ll(3, 0x1000, 1),
            Sw(1, 0x1000, 1),
            Addiu(3, 3, 6),
            Sc(3, 0x1000, 1),
            Lw(4, 0x1000, 1),
            Sc(4, 0x1000, 1), // no load linked since the last
            Lw(5, 0x1000, 1),
            Ll(6, 0x1000, 1),
            Sb(1, 0x1001, 1),
            Swl(1, 0x1002, 1),
            Sc(6, 0x2000, 1), // to another place
            Sc(6, 0x1000, 1),
            Lw(7, 0x2000, 1),
        ],
        steps: 24,
    },
    Program {
        name: "a counter that is added to with no end",
        code: &[
            Lui(1, 0x8000),
            Ll(2, 0x1000, 1),
            Addiu(2, 2, 1),
            Sc(2, 0x1000, 1),
            Beq(2, 0, 0xfffc),
            Nop,
            Beq(0, 0, 0xfffa),
            Lw(3, 0x1000, 1),
        ],
        steps: 40,
    },
    Program {
        name: "exceptions and their returns between",
        code: &[
            Lui(1, 0x8000),
            Ll(2, 0x1000, 1),
            Addiu(2, 2, 1),
            Syscall,
            Sc(2, 0x1000, 1), // given up
            Ll(2, 0x1000, 1),
            Addiu(2, 2, 2),
            Sc(2, 0x1002, 1), // not aligned
            Sc(2, 0x1000, 1), // given up
            Sc(2, 0x1002, 1), // given up, or not aligned
            Lw(3, 0x1000, 1),
            At(0x180),
            Mfc0(26, EPC),
            Addiu(26, 26, 4),
            Mtc0(26, EPC),
            Addiu(5, 5, 1),
            Eret,
        ],
        steps: 32,
    },
    Program {
        name: "the timer's interrupt between",
        code: &[
            Lui(1, 0x8000),
            Ori(2, 0, 9),
            Mtc0(2, COMPARE),
            Ori(2, 0, 0x8001), // IM7 and IE
            Mtc0(2, STATUS),
            Ll(2, 0x1000, 1),
            Addiu(2, 2, 1),
            Sw(2, 0x1008, 1),
            Sw(2, 0x1004, 1), // the interrupt is taken before it
            Sc(2, 0x1000, 1),
            Beq(2, 0, 0xfffa),
            Nop,
            Lw(3, 0x1000, 1),
            At(0x180),
            Mtc0(0, COMPARE),
            Eret,
        ],
        steps: 30,
    },
];

#[test]
fn words_are_linked_among_many_steps(rt: HostRuntime) -> Result<(), Fail> {
    check_programs(&rt, &PROGRAMS)
}
