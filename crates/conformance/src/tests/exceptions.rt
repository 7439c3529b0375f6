//! Each exception of an instruction that was fetched, from each place where it can come.
use super::code::Code::*;
use super::code::{Code, STATUS};
use super::layout::{
    JoinedRun, Mode, SETUP_REGS, STEPS_TO_SETUP, TLB_SETUP, VECTORS, check_joined, handler_of,
    total,
};
use std::process::Abort;
use std::test::Fail;

/// An instruction that raises an exception, and what that leaves behind wherever it stands.
struct Fault {
    name: &'static str,
    /// What it needs beside the entries of the TLB.
    setup: &'static [Code],
    instruction: Code,
    /// ExcCode and CE, in their places in Cause.
    cause: u32,
    /// Whether no entry of the TLB matches.
    refill: bool,
    bad_address: u32,
    entry_hi: u32,
    context: u32,
    regs: &'static [(u32, u32)],
}

/// EntryHi where no exception has written it: the ASID.
const ASID: u32 = 0x5a;

static FAULTS: [Fault; 17] = [
    Fault {
        name: "AdEL of a load",
        setup: &[],
        instruction: Lw(2, 0x0126, 4),
        cause: 0x10,
        refill: false,
        bad_address: 0x00ab_c126,
        entry_hi: ASID,
        context: 0,
        regs: &[],
    },
    Fault {
        name: "AdES",
        setup: &[],
        instruction: Sh(4, 0x0125, 4),
        cause: 0x14,
        refill: false,
        bad_address: 0x00ab_c125,
        entry_hi: ASID,
        context: 0,
        regs: &[],
    },
    Fault {
        name: "TLBL, no entry",
        setup: &[Lui(1, 0x0040)],
        instruction: Lw(2, 0x3124, 1),
        cause: 0x08,
        refill: true,
        bad_address: 0x0040_3124,
        entry_hi: 0x0040_205a,
        context: 0x2010,
        regs: &[(1, 0x0040_0000)],
    },
    Fault {
        name: "TLBS, no entry",
        setup: &[Lui(1, 0x0040)],
        instruction: Sw(1, 0x3124, 1),
        cause: 0x0c,
        refill: true,
        bad_address: 0x0040_3124,
        entry_hi: 0x0040_205a,
        context: 0x2010,
        regs: &[(1, 0x0040_0000)],
    },
    Fault {
        name: "TLBL, an entry that is not valid",
        setup: &[],
        instruction: Lbu(2, 0x1127, 4),
        cause: 0x08,
        refill: false,
        bad_address: 0x00ab_d127,
        entry_hi: 0x00ab_c05a,
        context: 0x55e0,
        regs: &[],
    },
    Fault {
        name: "TLBS, an entry that is not valid",
        setup: &[],
        instruction: Sb(4, 0x1127, 4),
        cause: 0x0c,
        refill: false,
        bad_address: 0x00ab_d127,
        entry_hi: 0x00ab_c05a,
        context: 0x55e0,
        regs: &[],
    },
    Fault {
        name: "Mod",
        setup: &[],
        instruction: Sw(4, 0x0124, 4),
        cause: 0x04,
        refill: false,
        bad_address: 0x00ab_c124,
        entry_hi: 0x00ab_c05a,
        context: 0x55e0,
        regs: &[],
    },
    Fault {
        name: "DBE of a load",
        setup: &[],
        instruction: Lw(2, 0x3124, 4),
        cause: 0x1c,
        refill: false,
        bad_address: 0,
        entry_hi: ASID,
        context: 0,
        regs: &[],
    },
    Fault {
        name: "DBE of a store",
        setup: &[],
        instruction: Sw(4, 0x3124, 4),
        cause: 0x1c,
        refill: false,
        bad_address: 0,
        entry_hi: ASID,
        context: 0,
        regs: &[],
    },
    Fault {
        name: "Sys",
        setup: &[],
        instruction: Syscall,
        cause: 0x20,
        refill: false,
        bad_address: 0,
        entry_hi: ASID,
        context: 0,
        regs: &[],
    },
    Fault {
        name: "Bp",
        setup: &[],
        instruction: Break,
        cause: 0x24,
        refill: false,
        bad_address: 0,
        entry_hi: ASID,
        context: 0,
        regs: &[],
    },
    Fault {
        name: "RI",
        setup: &[],
        instruction: Word(0x0020_0000), // a shift by sa that has rs
        cause: 0x28,
        refill: false,
        bad_address: 0,
        entry_hi: ASID,
        context: 0,
        regs: &[],
    },
    Fault {
        name: "CpU of coprocessor 1",
        setup: &[],
        instruction: Word(0x4400_0000),
        cause: 0x1000_002c,
        refill: false,
        bad_address: 0,
        entry_hi: ASID,
        context: 0,
        regs: &[],
    },
    Fault {
        name: "CpU of coprocessor 2",
        setup: &[],
        instruction: Word(0x4800_0000),
        cause: 0x2000_002c,
        refill: false,
        bad_address: 0,
        entry_hi: ASID,
        context: 0,
        regs: &[],
    },
    Fault {
        name: "Ov",
        setup: &[Lui(1, 0x4000)],
        instruction: Add(2, 1, 1), // 40000000 twice is no signed word
        cause: 0x30,
        refill: false,
        bad_address: 0,
        entry_hi: ASID,
        context: 0,
        regs: &[(1, 0x4000_0000)],
    },
    Fault {
        name: "Ov of an immediate",
        setup: &[Lui(1, 0x8000)],
        instruction: Addi(2, 1, 0xffff), // 1 below the least signed word
        cause: 0x30,
        refill: false,
        bad_address: 0,
        entry_hi: ASID,
        context: 0,
        regs: &[(1, 0x8000_0000)],
    },
    Fault {
        name: "Tr",
        setup: &[],
        instruction: Teq(0, 0),
        cause: 0x34,
        refill: false,
        bad_address: 0,
        entry_hi: ASID,
        context: 0,
        regs: &[],
    },
];

/// What is none in kernel mode.
static USER_FAULTS: [Fault; 4] = [
    Fault {
        name: "AdEL of a load from kseg0",
        setup: &[Lui(1, 0x8000)],
        instruction: Lw(2, 0x0300, 1),
        cause: 0x10,
        refill: false,
        bad_address: 0x8000_0300,
        entry_hi: ASID,
        context: 0,
        regs: &[(1, 0x8000_0000)],
    },
    Fault {
        name: "AdES to kseg2",
        setup: &[Lui(1, 0xc000)],
        instruction: Sw(1, 0, 1),
        cause: 0x14,
        refill: false,
        bad_address: 0xc000_0000,
        entry_hi: ASID,
        context: 0,
        regs: &[(1, 0xc000_0000)],
    },
    Fault {
        name: "CpU of coprocessor 0",
        setup: &[],
        instruction: Mfc0(2, STATUS),
        cause: 0x2c,
        refill: false,
        bad_address: 0,
        entry_hi: ASID,
        context: 0,
        regs: &[],
    },
    Fault {
        name: "CpU of coprocessor 0, of a return",
        setup: &[],
        instruction: Eret,
        cause: 0x2c,
        refill: false,
        bad_address: 0,
        entry_hi: ASID,
        context: 0,
        regs: &[],
    },
];

/// Where an instruction stands, and what an exception of it records.
struct Place {
    name: &'static str,
    mode: Mode,
    /// What stands at 300; the instruction follows where no handler does.
    code: &'static [Code],
    /// What the handler of an exception at 300 does; the instruction follows.
    handler: Option<&'static [Code]>,
    /// How many steps it takes from 300 to the exception, that step too.
    steps: usize,
    status: u32,
    epc: u32,
    /// The bit BD of Cause.
    in_slot: u32,
}

const BD: u32 = 0x8000_0000;

static PLACES: [Place; 6] = [
    Place {
        name: "outside a slot",
        mode: Mode::Kernel,
        code: &[],
        handler: None,
        steps: 1,
        status: 0x02,
        epc: 0x8000_0300,
        in_slot: 0,
    },
    Place {
        name: "in the slot of a taken branch",
        mode: Mode::Kernel,
        code: &[Beq(0, 0, 3)],
        handler: None,
        steps: 2,
        status: 0x02,
        epc: 0x8000_0300,
        in_slot: BD,
    },
    Place {
        name: "in the slot of a branch that is not taken",
        mode: Mode::Kernel,
        code: &[Bne(0, 0, 3)],
        handler: None,
        steps: 2,
        status: 0x02,
        epc: 0x8000_0300,
        in_slot: BD,
    },
    Place {
        name: "in the slot of a jump",
        mode: Mode::Kernel,
        code: &[J(0x8000_0400)],
        handler: None,
        steps: 2,
        status: 0x02,
        epc: 0x8000_0300,
        in_slot: BD,
    },
    Place {
        name: "in the handler of an exception in a slot",
        mode: Mode::Kernel,
        code: &[Beq(0, 0, 3), Syscall],
        handler: Some(&[]),
        steps: 5,
        status: 0x02,
        epc: 0x8000_0300,
        in_slot: BD,
    },
    Place {
        name: "in a slot in the handler of an exception outside one",
        mode: Mode::Kernel,
        code: &[Syscall],
        handler: Some(&[Beq(0, 0, 3)]),
        steps: 5,
        status: 0x02,
        epc: 0x8000_0300,
        in_slot: 0,
    },
];

static USER_PLACES: [Place; 2] = [
    Place {
        name: "in user mode",
        mode: Mode::User,
        code: &[],
        handler: None,
        steps: 1,
        status: 0x12,
        epc: 0x0040_0300,
        in_slot: 0,
    },
    Place {
        name: "in a slot in user mode",
        mode: Mode::User,
        code: &[Beq(0, 0, 3)],
        handler: None,
        steps: 2,
        status: 0x12,
        epc: 0x0040_0300,
        in_slot: BD,
    },
];

/// The code, or nothing.
fn only_if(wanted: bool, code: &[Code]) -> &[Code] {
    if wanted { code } else { &[] }
}

/// The exception of the fault in that place, and two steps of its handler.
fn check_fault<R: AllocGlobal + Abort>(rt: &R, fault: &Fault, place: &Place) -> Result<(), Fail> {
    let way = place.mode.way_there();
    let last = [fault.instruction];
    let first_level = place.handler.is_none();
    let seen = [(6, fault.entry_hi), (7, fault.context)];
    let parts = JoinedRun {
        code: &[
            &VECTORS,
            place.handler.unwrap_or(&[]),
            only_if(!first_level, &last),
            &[At(0x200)],
            &TLB_SETUP,
            fault.setup,
            way.code,
            &[At(0x300)],
            place.code,
            only_if(first_level, &last),
        ],
        pages: 16,
        steps: steps_of(fault, place),
        pc: handler_of(fault.refill && first_level),
        regs: &[fault.regs, &SETUP_REGS, way.regs, &seen],
        system: [
            place.status,
            place.in_slot | fault.cause,
            place.epc,
            fault.bad_address,
        ],
    };
    check_joined(rt, (fault.name, place.name), &parts)
}

/// From the entry to two steps of the handler.
fn steps_of(fault: &Fault, place: &Place) -> usize {
    total(&[
        STEPS_TO_SETUP,
        TLB_SETUP.len(),
        fault.setup.len(),
        place.mode.way_there().code.len(),
        place.steps,
        2,
    ])
}

fn check_faults<R: AllocGlobal + Abort>(
    rt: &R,
    faults: &[Fault],
    place: &Place,
) -> Result<(), Fail> {
    for fault in faults {
        check_fault(rt, fault, place)?;
    }
    Ok(())
}

fn check_user_faults<R: AllocGlobal + Abort>(rt: &R, place: &Place) -> Result<(), Fail> {
    check_faults(rt, &FAULTS, place)?;
    check_faults(rt, &USER_FAULTS, place)
}

#[test]
fn exceptions_from_each_place(rt: HostRuntime) -> Result<(), Fail> {
    for place in &PLACES {
        check_faults(&rt, &FAULTS, place)?;
    }
    for place in &USER_PLACES {
        check_user_faults(&rt, place)?;
    }
    Ok(())
}
