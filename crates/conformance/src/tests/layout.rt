//! The layout that the images of many exceptions share.
//!
//! | Offset | What stands there |
//! |---|---|
//! | 000 | entry, and vector of a refill: EntryHi and Context go to registers 6 and 7, then on to 200 |
//! | 180 | vector of the other exceptions: the same; what a handler does next stands at 188 |
//! | 200 | `TLB_SETUP`, what else is to be set up, and the way to 300 |
//! | 300 | the place; in user mode it is reached at 00400300 |
//!
//! `TLB_SETUP` maps these pages, for every address space:
//!
//! | Page | Physical |
//! |---|---|
//! | 00400000, 7fffe000 | page 0, which has the image; no stores |
//! | 00401000, 7ffff000, 00abc000, 00abe000 | page 4; no stores |
//! | 00abd000 | an entry that is not valid |
//! | 00abf000 | page 16, past a memory of 16 pages; stores too |
//!
//! It leaves the ASID 5a, and in registers 3, 4 and 5 what `SETUP_REGS` has.
use super::code::Code::*;
use super::code::{CONTEXT, Code, ENTRY_HI, ENTRY_LO0, ENTRY_LO1, EPC, INDEX, STATUS};
use super::run::{Run, check_run};
use std::alloc::{AllocError, Global};
use std::fmt::Debug;
use std::process::Abort;
use std::test::Fail;

/// The entry and the two vectors. Four steps are made before 200.
pub const VECTORS: [Code; 7] = [
    Mfc0(6, ENTRY_HI),
    Mfc0(7, CONTEXT),
    J(0x8000_0200),
    Nop,
    At(0x180),
    Mfc0(6, ENTRY_HI),
    Mfc0(7, CONTEXT),
];

pub const STEPS_TO_SETUP: usize = 4;

/// An EntryLo has the frame's number from bit 6 on, D in bit 2, V in bit 1 and G in bit 0.
pub const TLB_SETUP: [Code; 32] = [
    // entry 0: 00400000 to page 0, 00401000 to page 4
    Lui(4, 0x0040),
    Mtc0(4, ENTRY_HI),
    Ori(5, 0, 0x0003),
    Mtc0(5, ENTRY_LO0),
    Ori(5, 0, 0x0103),
    Mtc0(5, ENTRY_LO1),
    Tlbwi,
    // entry 1: 7fffe000 to page 0, 7ffff000 to page 4
    Lui(4, 0x7fff),
    Ori(4, 4, 0xe000),
    Mtc0(4, ENTRY_HI),
    Ori(3, 0, 1),
    Mtc0(3, INDEX),
    Tlbwi,
    // entry 2: 00abe000 to page 4, 00abf000 to page 16
    Lui(4, 0x00ab),
    Ori(4, 4, 0xe000),
    Mtc0(4, ENTRY_HI),
    Mtc0(5, ENTRY_LO0),
    Ori(5, 0, 0x0407),
    Mtc0(5, ENTRY_LO1),
    Ori(3, 0, 2),
    Mtc0(3, INDEX),
    Tlbwi,
    // entry 3: 00abc000 to page 4, 00abd000 not valid
    Lui(4, 0x00ab),
    Ori(4, 4, 0xc000),
    Mtc0(4, ENTRY_HI),
    Ori(5, 0, 0x0001),
    Mtc0(5, ENTRY_LO1),
    Ori(3, 0, 3),
    Mtc0(3, INDEX),
    Tlbwi,
    Ori(5, 0, 0x005a),
    Mtc0(5, ENTRY_HI),
];

pub const SETUP_REGS: [(u32, u32); 3] = [(3, 3), (4, 0x00ab_c000), (5, 0x5a)];

/// To 80000300, in kernel mode.
const TO_KERNEL: [Code; 2] = [J(0x8000_0300), Nop];

/// To 00400300, in user mode.
const TO_USER: [Code; 6] = [
    Lui(8, 0x0040),
    Ori(8, 8, 0x0300),
    Mtc0(8, EPC),
    Ori(9, 0, 0x0012), // UM and EXL, which the return takes away
    Mtc0(9, STATUS),
    Eret,
];

const USER_REGS: [(u32, u32); 2] = [(8, 0x0040_0300), (9, 0x12)];

/// To 00400300, in user mode with coprocessor 0.
const TO_USER_WITH_CP0: [Code; 7] = [
    Lui(8, 0x0040),
    Ori(8, 8, 0x0300),
    Mtc0(8, EPC),
    Lui(9, 0x1000), // CU0
    Ori(9, 9, 0x0012),
    Mtc0(9, STATUS),
    Eret,
];

const USER_WITH_CP0_REGS: [(u32, u32); 2] = [(8, 0x0040_0300), (9, 0x1000_0012)];

/// The mode that 300 is reached in.
#[derive(Clone, Copy)]
pub enum Mode {
    Kernel,
    User,
    /// User mode with CU0 1.
    UserWithCp0,
}

/// The way to 300, and what it leaves in registers.
#[derive(Clone, Copy)]
pub struct Way {
    pub code: &'static [Code],
    pub regs: &'static [(u32, u32)],
}

impl Mode {
    pub fn way_there(self) -> Way {
        match self {
            Mode::Kernel => Way {
                code: &TO_KERNEL,
                regs: &[],
            },
            Mode::User => Way {
                code: &TO_USER,
                regs: &USER_REGS,
            },
            Mode::UserWithCp0 => Way {
                code: &TO_USER_WITH_CP0,
                regs: &USER_WITH_CP0_REGS,
            },
        }
    }
}

/// A run of an image that is put together from parts. It leaves 0 in HI and LO.
#[derive(Clone, Copy)]
pub struct JoinedRun<'a> {
    pub code: &'a [&'a [Code]],
    pub pages: u32,
    pub steps: usize,
    pub pc: u32,
    /// General registers; those that have no entry here are 0.
    pub regs: &'a [&'a [(u32, u32)]],
    /// Status, Cause, EPC and BadVAddr.
    pub system: [u32; 4],
}

/// Puts the run of this name together, and makes its steps on both machines.
pub fn check_joined<R: AllocGlobal + Abort, N: Debug + Copy>(
    rt: &R,
    name: N,
    parts: &JoinedRun,
) -> Result<(), Fail> {
    let name = format!(in rt.alloc(); "{name:?}")?;
    check_named(rt, name.as_str(), parts)
}

fn check_named<R: AllocGlobal + Abort>(rt: &R, name: &str, parts: &JoinedRun) -> Result<(), Fail> {
    let code = joined(rt.alloc(), parts.code)?;
    let regs = joined(rt.alloc(), parts.regs)?;
    let run = Run {
        name,
        code: code.as_slice(),
        pages: parts.pages,
        steps: parts.steps,
        pc: parts.pc,
        hi_lo: [0, 0],
        regs: regs.as_slice(),
        system: parts.system,
    };
    check_run(rt, &run)
}

/// The parts, one after the other.
pub fn joined<T: Copy>(alloc: Global, parts: &[&[T]]) -> Result<Vec<T>, AllocError> {
    let mut all = Vec::new(alloc);
    for part in parts {
        all.extend_from_slice(part)?;
    }
    Ok(all)
}

/// Where two steps of the handler lead: that of a refill, or that of the other exceptions.
pub fn handler_of(is_refill: bool) -> u32 {
    if is_refill { 0x8000_0008 } else { 0x8000_0188 }
}

/// The sum of numbers of steps.
pub fn total(parts: &[usize]) -> usize {
    let mut sum: usize = 0;
    for part in parts {
        sum = sum.wrapping_add(*part);
    }
    sum
}
