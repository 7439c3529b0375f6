//! Which mode may execute what of the coprocessors.
use super::code::Code::*;
use super::code::{CONFIG, CONTEXT, Code};
use super::layout::{
    JoinedRun, Mode, SETUP_REGS, STEPS_TO_SETUP, TLB_SETUP, VECTORS, check_joined, total,
};
use std::process::Abort;
use std::test::Fail;

/// What comes of an instruction.
#[derive(Clone, Copy)]
enum Outcome {
    /// It is executed, and register 2 has this.
    Done(u32),
    /// An exception with this ExcCode and CE, in their places in Cause.
    Exception(u32),
}

/// A reserved instruction.
const RI: Outcome = Outcome::Exception(0x28);

/// Coprocessors 0, 1 and 2 unusable.
const CPU0: Outcome = Outcome::Exception(0x0000_002c);

const CPU1: Outcome = Outcome::Exception(0x1000_002c);

const CPU2: Outcome = Outcome::Exception(0x2000_002c);

/// It is executed, and register 2 has what Config has.
const CONFIG_READ: Outcome = Outcome::Done(0x8000_0082);

/// It is executed, and register 2 has 0 as before.
const DONE: Outcome = Outcome::Done(0);

/// What comes of some instructions, in kernel mode, in user mode, and in user mode with CU0 1.
struct Row {
    name: &'static str,
    instructions: &'static [Code],
    outcomes: [Outcome; 3],
}

static ROWS: [Row; 8] = [
    Row {
        name: "mfc0 of Config",
        instructions: &[Mfc0(2, CONFIG)],
        outcomes: [CONFIG_READ, CPU0, CONFIG_READ],
    },
    Row {
        name: "an instruction of coprocessor 0",
        instructions: &[
            Mfc0(2, CONTEXT),
            Mtc0(2, CONTEXT),
            Mtc0(2, CONFIG),
            Word(0x4002_0007), // mfc0 of register 0, select 7
            Word(0x4082_f807), // mtc0 of register 31, select 7
            Tlbr,
            Tlbwi,
            Tlbwr,
            Tlbp,
            Wait,
            Word(0x43ff_ffe0), // wait with the greatest code
        ],
        outcomes: [DONE, CPU0, DONE],
    },
    Row {
        name: "cache",
        instructions: &[Cache(0, 0, 0), Cache(31, 1, 4), Cache(1, 0x8000, 0)],
        outcomes: [DONE, CPU0, DONE],
    },
    Row {
        name: "pref",
        instructions: &[Pref(0, 0, 0), Pref(31, 1, 4), Pref(1, 0x8000, 0)],
        outcomes: [DONE, DONE, DONE],
    },
    Row {
        name: "a word of coprocessor 0 that is no instruction",
        instructions: &[
            Word(0x4002_0008), // mfc0 and a bit above its select
            Word(0x4082_0400), // mtc0 and a bit below its register
            Word(0x4020_0000), // rs 1
            Word(0x4040_0000), // rs 2
            Word(0x4060_0000), // rs 3
            Word(0x40a0_0000), // rs 5
            Word(0x41e0_0000), // rs 15
            Word(0x4200_0000), // function 0
            Word(0x4200_0003), // function 3
            Word(0x4200_001f), // function 1f, which returns from debug mode elsewhere
            Word(0x4200_003f), // function 3f
            Word(0x4210_0018), // eret and a bit of its code
            Word(0x4200_0046), // tlbwr and a bit of its code
        ],
        outcomes: [RI, CPU0, RI],
    },
    Row {
        name: "coprocessor 1",
        instructions: &[
            Word(0x4400_0000),
            Word(0x47ff_ffff),
            Word(0xc400_0000), // lwc1
            Word(0xc400_0001), // lwc1 at an odd address
            Word(0xd400_0000), // ldc1
            Word(0xe400_0000), // swc1
            Word(0xf400_0000), // sdc1
            Word(0xf7ff_ffff),
        ],
        outcomes: [CPU1, CPU1, CPU1],
    },
    Row {
        name: "coprocessor 2",
        instructions: &[
            Word(0x4800_0000),
            Word(0x4bff_ffff),
            Word(0xc800_0000), // lwc2
            Word(0xd800_0000), // ldc2
            Word(0xe800_0000), // swc2
            Word(0xe800_0001), // swc2 at an odd address
            Word(0xf800_0000), // sdc2
            Word(0xfbff_ffff),
        ],
        outcomes: [CPU2, CPU2, CPU2],
    },
    Row {
        name: "a word of coprocessor 3, or of no coprocessor, that is no instruction",
        instructions: &[
            Word(0x4c00_0000), // opcode 13
            Word(0xdc00_0000), // opcode 37
            Word(0xec00_0000), // opcode 3b
            Word(0xfc00_0000), // opcode 3f
            Word(0x7000_003f), // a breakpoint of debug mode elsewhere
        ],
        outcomes: [RI, RI, RI],
    },
];

/// What stands in the slot of a branch: first it must be usable, and then it is reserved there.
static IN_SLOT: [Row; 4] = [
    Row {
        name: "eret or wait",
        instructions: &[Eret, Wait],
        outcomes: [RI, CPU0, RI],
    },
    Row {
        name: "a branch or jump",
        instructions: &[
            Beq(0, 0, 1),
            Bne(0, 0, 1),
            Bnel(0, 0, 1),
            J(0x8000_0300),
            Jr(4),
            Jalr(31, 4),
            Bltzall(0, 1),
        ],
        outcomes: [RI, RI, RI],
    },
    Row {
        name: "cache",
        instructions: &[Cache(0, 0, 0)],
        outcomes: [DONE, CPU0, DONE],
    },
    Row {
        name: "coprocessor 2",
        instructions: &[Word(0x4800_0000)],
        outcomes: [CPU2, CPU2, CPU2],
    },
];

/// Where an instruction stands.
struct Place {
    mode: Mode,
    /// The instruction's address, or that of the branch before it.
    pc: u32,
    /// Status and EPC as the way there leaves them.
    status: u32,
    epc: u32,
}

/// A place for each mode, in the order of a row's outcomes.
static PLACES: [Place; 3] = [
    Place {
        mode: Mode::Kernel,
        pc: 0x8000_0300,
        status: 0,
        epc: 0,
    },
    Place {
        mode: Mode::User,
        pc: 0x0040_0300,
        status: 0x10,
        epc: 0x0040_0300,
    },
    Place {
        mode: Mode::UserWithCp0,
        pc: 0x0040_0300,
        status: 0x1000_0010,
        epc: 0x0040_0300,
    },
];

/// What stands before an instruction.
struct Before {
    name: &'static str,
    code: &'static [Code],
    /// The bit BD of an exception's Cause.
    in_slot: u32,
    /// How far it is from the place to where an instruction goes on.
    next: u32,
}

static NOTHING: Before = Before {
    name: "outside a slot",
    code: &[],
    in_slot: 0,
    next: 4,
};

static BRANCH: Before = Before {
    name: "in a slot",
    code: &[Beq(0, 0, 3)],
    in_slot: 0x8000_0000,
    next: 0x10,
};

/// What register 2, PC and the system registers have after a step of that outcome.
fn state_after(before: &Before, place: &Place, outcome: Outcome) -> (u32, u32, [u32; 4]) {
    match outcome {
        Outcome::Done(result) => (
            result,
            place.pc.wrapping_add(before.next),
            [place.status, 0, place.epc, 0],
        ),
        Outcome::Exception(cause) => (
            0,
            0x8000_0180,
            [place.status | 0x02, before.in_slot | cause, place.pc, 0],
        ),
    }
}

/// One step of the instruction of this number of the row, in that place.
fn check_instruction<R: AllocGlobal + Abort>(
    rt: &R,
    (name, number, instruction): (&str, usize, Code),
    before: &Before,
    place: &Place,
    outcome: Outcome,
) -> Result<(), Fail> {
    let way = place.mode.way_there();
    let (result, pc, system) = state_after(before, place, outcome);
    let parts = JoinedRun {
        code: &[
            &VECTORS,
            &[At(0x200)],
            &TLB_SETUP,
            way.code,
            &[At(0x300)],
            before.code,
            &[instruction],
        ],
        pages: 16,
        steps: total(&[
            STEPS_TO_SETUP,
            TLB_SETUP.len(),
            way.code.len(),
            before.code.len(),
            1,
        ]),
        pc,
        regs: &[&[(2, result)], &SETUP_REGS, way.regs],
        system,
    };
    check_joined(rt, (name, before.name, number), &parts)
}

/// One step of each instruction of the row in that place.
fn check_row<R: AllocGlobal + Abort>(
    rt: &R,
    row: &Row,
    before: &Before,
    place: &Place,
    outcome: Outcome,
) -> Result<(), Fail> {
    for (number, instruction) in row.instructions.iter().enumerate() {
        let case = (row.name, number, *instruction);
        check_instruction(rt, case, before, place, outcome)?;
    }
    Ok(())
}

fn check_in_each_mode<R: AllocGlobal + Abort>(
    rt: &R,
    row: &Row,
    before: &Before,
) -> Result<(), Fail> {
    for (place, outcome) in PLACES.iter().zip(row.outcomes.iter()) {
        check_row(rt, row, before, place, *outcome)?;
    }
    Ok(())
}

#[test]
fn coprocessors_in_each_mode(rt: HostRuntime) -> Result<(), Fail> {
    for row in &ROWS {
        check_in_each_mode(&rt, row, &NOTHING)?;
    }
    for row in &IN_SLOT {
        check_in_each_mode(&rt, row, &BRANCH)?;
    }
    Ok(())
}
