//! Interrupts that come among many steps, and reads of Count and Random.
use super::super::code::Code::*;
use super::super::code::{CAUSE, COMPARE, COUNT, Code, EPC, RANDOM, STATUS, WIRED};
use super::super::expect;
use super::super::run::{boot_world, guest_of, make_steps, raw_image};
use super::{Memory, PAGES, Program, check_programs, check_slices};
use mips_cp0::Profile;
use mips_instr::Reg;
use std::alloc::{AllocError, Global};
use std::process::Abort;
use std::test::Fail;

static PROGRAMS: [Program<'static>; 7] = [
    Program {
        name: "the timer, again and again",
        code: &[
            Ori(1, 0, 11),
            Mtc0(1, COMPARE),
            Ori(2, 0, 0x8001), // IM7 and IE
            Mtc0(2, STATUS),
            Addiu(3, 3, 1),
            Bne(3, 0, 0xfffe), // with no end
            Addiu(4, 4, 1),
            At(0x180),
            Mfc0(26, COUNT),
            Addiu(26, 26, 13),
            Mtc0(26, COMPARE),
            Mfc0(27, CAUSE),
            Addu(5, 5, 27),
            Eret,
        ],
        steps: 80,
    },
    Program {
        name: "the timer again at once",
        code: &[
            Ori(1, 0, 8),
            Mtc0(1, COMPARE),
            Ori(2, 0, 0x8001), // IM7 and IE
            Mtc0(2, STATUS),
            J(0x8000_0010), // its own place
            Addiu(4, 4, 1),
            At(0x180),
            Mfc0(26, COUNT),
            Addiu(26, 26, 4), // Count as ERET is executed
            Mtc0(26, COMPARE),
            Nop,
            Eret,
        ],
        steps: 40,
    },
    Program {
        name: "Compare is met while interrupts are off, and they are enabled later",
        code: &[
            Ori(1, 0, 7),
            Mtc0(1, COMPARE),
            Ori(2, 0, 0x8001), // IM7 and IE
            Addiu(3, 3, 1),
            Addiu(3, 3, 1),
            Addiu(3, 3, 1),
            Addiu(3, 3, 1), // Count meets Compare
            Addiu(3, 3, 1),
            Mfc0(4, CAUSE),
            Addiu(3, 3, 1),
            Mtc0(2, STATUS),
            Addiu(3, 3, 0x0100),
            Addiu(3, 3, 0x0200),
            At(0x180),
            Addiu(5, 5, 1),
            Mfc0(6, CAUSE),
            Mtc0(0, COMPARE),
            Mfc0(7, CAUSE),
            Eret,
        ],
        steps: 24,
    },
    Program {
        name: "an interrupt of software that is enabled among many steps",
        code: &[
            Ori(1, 0, 0x0300), // IP1 and IP0
            Mtc0(1, CAUSE),
            Addiu(3, 3, 1),
            Ori(2, 0, 0x0201), // IM1 and IE
            Addiu(3, 3, 1),
            Mtc0(2, STATUS),
            Addiu(3, 3, 0x0100),
            Addiu(3, 3, 0x0200),
            At(0x180),
            Mfc0(26, EPC),
            Mtc0(0, CAUSE),
            Addiu(5, 5, 1),
            Eret,
        ],
        steps: 20,
    },
    Program {
        name: "a write of Count, so that it soon goes from the greatest number to 0 and meets Compare",
        code: &[
            Ori(1, 0, 3),
            Mtc0(1, COMPARE),
            Addiu(2, 0, 0xfffa),
            Mtc0(2, COUNT),
            Addiu(3, 3, 1),
            Bne(3, 0, 0xfffe),
            Mfc0(4, COUNT),
        ],
        steps: 40,
    },
    Program {
        name: "Random before and after writes of Wired",
        code: &[
            Mfc0(1, RANDOM),
            Nop,
            Mfc0(2, RANDOM),
            Ori(16, 0, 12),
            Mtc0(16, WIRED), // Random is the last entry then
            Mfc0(3, RANDOM),
            Nop,
            Nop,
            Mfc0(4, RANDOM),
            Nop,
            Nop,
            Nop,
            Nop,
            Nop,
            Mfc0(5, RANDOM),
            Ori(16, 0, 15),
            Mtc0(16, WIRED),
            Nop,
            Nop,
            Mfc0(6, RANDOM),
            Mtc0(0, WIRED),
            Nop,
            Mfc0(7, RANDOM),
            Tlbwr,
        ],
        steps: 60,
    },
    Program {
        name: "the timer in slots and after likely branches",
        code: &[
            Ori(1, 0, 9),
            Mtc0(1, COMPARE),
            Ori(2, 0, 0x8001), // IM7 and IE
            Mtc0(2, STATUS),
            Beql(0, 0, 1),
            Addiu(3, 3, 1),
            Bnel(0, 0, 4),
            Addiu(3, 3, 0x0100), // never
            Bne(2, 0, 0xfffb),
            Addiu(4, 4, 1),
            At(0x180),
            Mfc0(26, COUNT),
            Addiu(26, 26, 8),
            Mtc0(26, COMPARE),
            Mfc0(27, EPC),
            Addu(5, 5, 27),
            Eret,
        ],
        steps: 90,
    },
];

#[test]
fn interrupts_come_among_many_steps(rt: HostRuntime) -> Result<(), Fail> {
    check_programs(&rt, &PROGRAMS)
}

/// The most steps between two reads of the clock.
const MOST_BETWEEN: u32 = 20;

/// `or $4,$4,$3`
const KEEP: Code = Word(0x0083_2025);

/// So many steps more, and then reads of Count and Random. Count less how many steps were made joins what register 4 has.
fn read_after(code: &mut Vec<Code>, between: u32) -> Result<(), AllocError> {
    for _ in 0..between {
        code.push(Addiu(5, 5, 1))?;
    }
    let made = (code.len() % 0x8000) as u32 + 1;
    code.extend_from_slice(&[
        Mfc0(3, COUNT),
        Addiu(3, 3, 0x1_0000 - made),
        KEEP,
        Mfc0(6, RANDOM),
        Addu(7, 7, 6),
    ])
}

/// Reads of Count and Random after each number of other steps.
fn reads_of_the_clock(alloc: Global) -> Result<Vec<Code>, AllocError> {
    let mut code = Vec::new(alloc);
    for between in 0..MOST_BETWEEN + 1 {
        read_after(&mut code, between)?;
    }
    Ok(code)
}

/// Register 4 after all steps of a program of reads, made at once.
fn check_counted<R: AllocGlobal + Abort>(rt: &R, code: &[Code]) -> Result<(), Fail> {
    let image = raw_image(rt, "Count", code)?;
    let mut world = boot_world(rt, "Count", Profile::Two, image, PAGES)?;
    make_steps(rt, &mut world, code.len());
    let left = guest_of(rt, &world).view().cpu.reg(Reg::new(4));
    let _store = world.close();
    expect(rt, "Count less the steps that were made", left, 0);
    Ok(())
}

/// Makes all steps of a program in slices of each of these lengths, and the last of those that are left.
fn check_in_slices<R: AllocGlobal + Abort>(rt: &R, name: &str, code: &[Code]) -> Result<(), Fail> {
    let steps = (code.len() % 0x1_0000) as u32;
    for length in [1, 4, 21, 315] {
        let mut slices = vec![in rt.alloc(); length; (steps / length) as usize]?;
        slices.push(steps % length)?;
        check_slices(rt, name, code, &slices, Memory::Compared)?;
    }
    Ok(())
}

#[test]
fn count_is_how_many_steps_were_made(rt: HostRuntime) -> Result<(), Fail> {
    let code = reads_of_the_clock(rt.alloc())?;
    check_in_slices(&rt, "Count and Random after each number of steps", &code)?;
    check_counted(&rt, &code)
}
