//! Exceptions in delay slots after many steps.
use super::super::code::Code::*;
use super::super::code::{CAUSE, Code, ENTRY_HI, ENTRY_LO0, ENTRY_LO1, EPC};
use super::super::layout::joined;
use super::{Program, check_each_end};
use std::process::Abort;
use std::test::Fail;

/// Adds Cause to register 20, and returns to what stands two words behind EPC, which is past the slot.
const HANDLER: [Code; 8] = [
    At(0x180),
    Mfc0(26, EPC),
    Mfc0(27, CAUSE),
    Addu(20, 20, 27),
    Addiu(26, 26, 8),
    Mtc0(26, EPC),
    Addiu(21, 21, 1),
    Eret,
];

/// What stands before the handler.
static PROGRAMS: [Program<'static>; 4] = [
    Program {
        name: "exceptions of instructions",
        code: &[
            Lui(1, 0x8000),
            Addiu(3, 3, 1),
            Beq(0, 0, 3),
            Syscall,
            Addiu(3, 3, 1),
            Bne(0, 0, 3),
            Break,
            Addiu(3, 3, 1),
            Beql(0, 0, 2),
            Lw(4, 2, 1), // not aligned
            Bnel(0, 0, 3),
            Syscall, // not executed
            Bltzall(1, 1),
            Add(4, 1, 1), // overflows
            Addiu(3, 3, 1),
            Jalr(31, 1),
            Word(0x0020_0000), // of no row
            Jr(1),
            Beq(0, 0, 1), // reserved in a slot
            J(0x8000_0100),
            Jr(1),
            Beq(0, 0, 1),
            Sc(5, 0x1001, 1), // not aligned
            Beq(0, 0, 1),
            Teq(0, 0),
            Addiu(3, 3, 1),
            Beq(0, 0, 1),
            Lb(4, 0x5fff, 1), // the last byte of memory
            Ori(2, 1, 0x6000),
            Beq(0, 0, 1),
            Lb(4, 0, 2), // past memory
            Addiu(3, 3, 1),
        ],
        steps: 110,
    },
    Program {
        name: "a slot that is past memory",
        code: &[
            Lui(1, 0x8000),
            Lui(2, 0x1000), // beq $0,$0,1
            Ori(2, 2, 1),
            Sw(2, 0x5ffc, 1),
            Ori(1, 1, 0x5ff0),
            Jr(1),
            Nop,
        ],
        steps: 30,
    },
    Program {
        name: "a slot in a page that no valid entry maps",
        code: &[
            Lui(1, 0x0040),
            Mtc0(1, ENTRY_HI), // 00400000 to page 1, 00401000 not valid
            Ori(2, 0, 0x0042),
            Mtc0(2, ENTRY_LO0),
            Mtc0(0, ENTRY_LO1),
            Tlbwi,
            Lui(3, 0x8000),
            Lui(2, 0x1000), // beq $0,$0,1
            Ori(2, 2, 1),
            Sw(2, 0x1ffc, 3),
            Ori(1, 1, 0x0ff0),
            Jr(1),
            Nop,
        ],
        steps: 40,
    },
    Program {
        name: "a load in a slot for which there is no entry, and again in the handler",
        code: &[
            // the entry, and the vector of a refill
            Addiu(3, 3, 1),
            Lui(1, 0xc000),
            Addiu(3, 3, 2),
            Beq(0, 0, 0xfffc),
            Lw(2, 0x0120, 1),
        ],
        steps: 40,
    },
];

fn check_handled<R: AllocGlobal + Abort>(rt: &R, program: &Program) -> Result<(), Fail> {
    let code = joined(rt.alloc(), &[program.code, &HANDLER])?;
    let program = Program {
        name: program.name,
        code: &code,
        steps: program.steps,
    };
    check_each_end(rt, &program)
}

#[test]
fn exceptions_come_in_slots_after_many_steps(rt: HostRuntime) -> Result<(), Fail> {
    for program in &PROGRAMS {
        check_handled(&rt, program)?;
    }
    Ok(())
}
