//! Each exception of a fetch, from each place where it can come.
use super::code::Code;
use super::code::Code::*;
use super::layout::{
    JoinedRun, Mode, SETUP_REGS, STEPS_TO_SETUP, TLB_SETUP, VECTORS, check_joined, handler_of,
    total,
};
use std::process::Abort;
use std::test::Fail;

/// A place that can't be fetched from. The word before it, where there is one, is the last of page 4: a branch.
struct Fault {
    name: &'static str,
    /// Puts the place into register 1, and that of the branch before it into register 2.
    setup: &'static [Code],
    place: u32,
    branch: Option<u32>,
    cause: u32,
    /// Whether no entry of the TLB matches.
    refill: bool,
    bad_address: u32,
    entry_hi: u32,
    context: u32,
}

/// EntryHi where no exception has written it: the ASID.
const ASID: u32 = 0x5a;

static FAULTS: [Fault; 4] = [
    Fault {
        name: "AdEL at an odd place",
        setup: &[Lui(1, 0x0040), Ori(1, 1, 0x0302)],
        place: 0x0040_0302,
        branch: None,
        cause: 0x10,
        refill: false,
        bad_address: 0x0040_0302,
        entry_hi: ASID,
        context: 0,
    },
    Fault {
        name: "TLBL, no entry",
        setup: &[Lui(1, 0x0040), Ori(1, 1, 0x2000), Addiu(2, 1, 0xfffc)],
        place: 0x0040_2000,
        branch: Some(0x0040_1ffc),
        cause: 0x08,
        refill: true,
        bad_address: 0x0040_2000,
        entry_hi: 0x0040_205a,
        context: 0x2010,
    },
    Fault {
        name: "TLBL, an entry that is not valid",
        setup: &[Addiu(1, 4, 0x1000), Addiu(2, 1, 0xfffc)],
        place: 0x00ab_d000,
        branch: Some(0x00ab_cffc),
        cause: 0x08,
        refill: false,
        bad_address: 0x00ab_d000,
        entry_hi: 0x00ab_c05a,
        context: 0x55e0,
    },
    Fault {
        name: "IBE",
        setup: &[Addiu(1, 4, 0x3000), Addiu(2, 1, 0xfffc)],
        place: 0x00ab_f000,
        branch: Some(0x00ab_effc),
        cause: 0x18,
        refill: false,
        bad_address: 0,
        entry_hi: ASID,
        context: 0,
    },
];

/// What is none in kernel mode.
static USER_FAULT: Fault = Fault {
    name: "AdEL at the start of kseg0",
    setup: &[Lui(1, 0x8000), Addiu(2, 1, 0xfffc)],
    place: 0x8000_0000,
    branch: Some(0x7fff_fffc),
    cause: 0x10,
    refill: false,
    bad_address: 0x8000_0000,
    entry_hi: ASID,
    context: 0,
};

/// What EPC has after the exception.
#[derive(Clone, Copy)]
enum Return {
    /// The place that could not be fetched from.
    Place,
    /// The branch before it.
    Branch,
    /// What it had before: 80000300.
    Kept,
}

/// How the place is reached, and what an exception there records.
struct Path {
    name: &'static str,
    mode: Mode,
    /// Whether it is reached as the slot of the branch before it.
    by_branch: bool,
    /// What stands at 300.
    code: &'static [Code],
    /// What the handler of an exception at 300 does.
    handler: &'static [Code],
    /// How many steps it takes from 300 to the exception, that step too.
    steps: usize,
    status: u32,
    epc: Return,
    /// The bit BD of Cause.
    in_slot: u32,
}

const BD: u32 = 0x8000_0000;

static PATHS: [Path; 4] = [
    Path {
        name: "outside a slot",
        mode: Mode::Kernel,
        by_branch: false,
        code: &[Jr(1), Nop],
        handler: &[],
        steps: 3,
        status: 0x02,
        epc: Return::Place,
        in_slot: 0,
    },
    Path {
        name: "in a slot",
        mode: Mode::Kernel,
        by_branch: true,
        code: &[Jr(2), Nop],
        handler: &[],
        steps: 4,
        status: 0x02,
        epc: Return::Branch,
        in_slot: BD,
    },
    Path {
        name: "in the handler of an exception in a slot",
        mode: Mode::Kernel,
        by_branch: false,
        code: &[Beq(0, 0, 3), Syscall],
        handler: &[Jr(1), Nop],
        steps: 7,
        status: 0x02,
        epc: Return::Kept,
        in_slot: BD,
    },
    Path {
        name: "in a slot in the handler of an exception outside one",
        mode: Mode::Kernel,
        by_branch: true,
        code: &[Syscall],
        handler: &[Jr(2), Nop],
        steps: 7,
        status: 0x02,
        epc: Return::Kept,
        in_slot: 0,
    },
];

static USER_PATHS: [Path; 2] = [
    Path {
        name: "in user mode",
        mode: Mode::User,
        by_branch: false,
        code: &[Jr(1), Nop],
        handler: &[],
        steps: 3,
        status: 0x12,
        epc: Return::Place,
        in_slot: 0,
    },
    Path {
        name: "in a slot in user mode",
        mode: Mode::User,
        by_branch: true,
        code: &[Jr(2), Nop],
        handler: &[],
        steps: 4,
        status: 0x12,
        epc: Return::Branch,
        in_slot: BD,
    },
];

/// The exception of the fetch on that path, and two steps of its handler. Nothing where there is no such path.
fn check_fault<R: AllocGlobal + Abort>(rt: &R, fault: &Fault, path: &Path) -> Result<(), Fail> {
    match fault.branch {
        Some(branch) => check_fetch(rt, fault, path, branch),
        None if path.by_branch => Ok(()),
        None => check_fetch(rt, fault, path, 0),
    }
}

/// With the place of the branch, 0 where there is none, which register 2 has.
fn check_fetch<R: AllocGlobal + Abort>(
    rt: &R,
    fault: &Fault,
    path: &Path,
    branch: u32,
) -> Result<(), Fail> {
    let way = path.mode.way_there();
    let seen = [(6, fault.entry_hi), (7, fault.context)];
    let (epc, first_level) = path.epc.of(fault, branch);
    let parts = JoinedRun {
        code: &[
            &VECTORS,
            path.handler,
            &[At(0x200)],
            &TLB_SETUP,
            fault.setup,
            way.code,
            &[At(0x300)],
            path.code,
            &[At(0x4ffc), Beq(0, 0, 1)],
        ],
        pages: 16,
        steps: steps_of(fault, path),
        pc: handler_of(fault.refill && first_level),
        regs: &[
            &[(1, fault.place), (2, branch)],
            &SETUP_REGS,
            way.regs,
            &seen,
        ],
        system: [
            path.status,
            path.in_slot | fault.cause,
            epc,
            fault.bad_address,
        ],
    };
    check_joined(rt, (fault.name, path.name), &parts)
}

impl Return {
    /// EPC, and whether the exception is one outside a handler.
    fn of(self, fault: &Fault, branch: u32) -> (u32, bool) {
        match self {
            Return::Place => (fault.place, true),
            Return::Branch => (branch, true),
            Return::Kept => (0x8000_0300, false),
        }
    }
}

/// From the entry to two steps of the handler.
fn steps_of(fault: &Fault, path: &Path) -> usize {
    total(&[
        STEPS_TO_SETUP,
        TLB_SETUP.len(),
        fault.setup.len(),
        path.mode.way_there().code.len(),
        path.steps,
        2,
    ])
}

fn check_faults<R: AllocGlobal + Abort>(rt: &R, path: &Path) -> Result<(), Fail> {
    for fault in &FAULTS {
        check_fault(rt, fault, path)?;
    }
    Ok(())
}

#[test]
fn exceptions_of_fetches_from_each_place(rt: HostRuntime) -> Result<(), Fail> {
    for path in &PATHS {
        check_faults(&rt, path)?;
    }
    for path in &USER_PATHS {
        check_faults(&rt, path)?;
        check_fault(&rt, &USER_FAULT, path)?;
    }
    Ok(())
}
