//! Programs of words that are drawn by lot, which change themselves.
//!
//! | Address | What stands there |
//! |---|---|
//! | 80000000 | entry, and vector of a refill: `SETUP`, which gives addresses of the code to registers |
//! | 80000180 | vector of the other exceptions: `HANDLER` |
//! | 80002000 | the end of the code |
//! | 80003000 | a page that is given to the balloon at times |
//!
//! The code is mapped at 00400000 too, in address space 0.
use super::super::code::Code::*;
use super::super::code::{
    COMPARE, COUNT, Code, ENTRY_HI, ENTRY_LO0, ENTRY_LO1, EPC, INDEX, STATUS,
};
use super::fields::drawn_word;
use super::{Memory, check_slices};
use rand_core::SeedableRng;
use rand_pcg::Pcg32;
use std::alloc::{AllocError, Global};
use std::process::Abort;
use std::test::Fail;

/// How many programs a test has.
const PROGRAMS: u64 = 8;

/// How many steps of a program are made, about, in slices of each of these lengths.
const STEPS: u32 = 2000;

static LENGTHS: [u32; 6] = [1, 2, 3, 7, 100, 1000];

const SETUP: [Code; 30] = [
    Lui(1, 0x8000),
    Ori(1, 1, 0x0400),
    Lui(2, 0x8000),
    Ori(2, 2, 0x0800),
    Lui(3, 0x8000),
    Ori(3, 3, 0x3800),
    Lui(4, 0x8000),
    Ori(4, 4, 0x1400),
    Lui(5, 0xa000),
    Ori(5, 5, 0x1800),
    Lui(6, 0x0040),
    Mtc0(6, ENTRY_HI),
    Ori(6, 6, 0x0600),
    Lui(7, 0x0040),
    Ori(7, 7, 0x1600),
    Lui(8, 0xbf00), // the devices
    Ori(9, 0, 0x0006), // frame 0, dirty
    Mtc0(9, ENTRY_LO0),
    Ori(9, 0, 0x0046), // frame 1, dirty
    Mtc0(9, ENTRY_LO1),
    Mtc0(0, INDEX),
    Tlbwi,
    Ori(25, 0, 3), // the page that is given
    Ori(28, 0, 0x8003), // IM7, EXL and IE
    Ori(29, 0, 0x8011), // IM7, UM and IE
    Ori(30, 0, 0xff01), // IM7 to IM0 and IE
    Mfc0(9, COUNT),
    Addiu(9, 9, 0x0040),
    Mtc0(9, COMPARE),
    Mtc0(30, STATUS),
];

/// The word of the handler.
const VECTOR: usize = 0x180 / 4;

/// It returns to the word behind EPC, in the code in any case, and the timer's interrupt comes soon again.
const HANDLER: [Code; 11] = [
    Mfc0(26, EPC),
    Lui(27, 0x8040),
    Ori(27, 27, 0x1ffc),
    Word(0x035b_d024), // and $26,$26,$27
    Addiu(26, 26, 4),
    Mtc0(26, EPC),
    Mfc0(26, COUNT),
    Addiu(26, 26, 0x0065),
    Mtc0(26, COMPARE),
    Mtc0(28, STATUS),
    Eret,
];

/// How many words the code has: two pages.
const WORDS: usize = 2048;

/// Words by lot until there are so many.
fn fill(code: &mut Vec<Code>, dice: &mut Pcg32, count: usize) -> Result<(), AllocError> {
    for _ in code.len()..count {
        code.push(Word(drawn_word(dice)))?;
    }
    Ok(())
}

fn drawn_code(alloc: Global, seed: u64) -> Result<Vec<Code>, AllocError> {
    let mut dice = Pcg32::seed_from_u64(seed);
    let mut code = SETUP.to_vec(alloc)?;
    fill(&mut code, &mut dice, VECTOR)?;
    code.extend_from_slice(&HANDLER)?;
    fill(&mut code, &mut dice, WORDS)?;
    Ok(code)
}

fn check_lengths<R: AllocGlobal + Abort>(rt: &R, name: &str, code: &[Code]) -> Result<(), Fail> {
    for length in &LENGTHS {
        let count = STEPS / (*length).max(1);
        let slices = vec![in rt.alloc(); *length; count as usize]?;
        check_slices(rt, name, code, &slices, Memory::Compared)?;
    }
    Ok(())
}

/// Checks so many programs of seeds one after another.
fn check_seeds<R: AllocGlobal + Abort>(rt: &R, first: u64) -> Result<(), Fail> {
    for index in 0..PROGRAMS {
        let seed = first.wrapping_add(index);
        let name = format!(in rt.alloc(); "code of seed {seed}")?;
        let code = drawn_code(rt.alloc(), seed)?;
        check_lengths(rt, &name, &code)?;
    }
    Ok(())
}

// The programs are those of several tests, since one may take no more than a minute where it is tried before it is proved.

#[test]
fn code_that_changes_itself_runs_many_steps(rt: HostRuntime) -> Result<(), Fail> {
    check_seeds(&rt, 0)
}

#[test]
fn more_code_that_changes_itself_runs_many_steps(rt: HostRuntime) -> Result<(), Fail> {
    check_seeds(&rt, 100)
}

#[test]
fn code_of_other_seeds_runs_many_steps(rt: HostRuntime) -> Result<(), Fail> {
    check_seeds(&rt, 200)
}

#[test]
fn code_of_more_seeds_runs_many_steps(rt: HostRuntime) -> Result<(), Fail> {
    check_seeds(&rt, 300)
}
