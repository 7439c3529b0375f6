//! Programs of which each leaves something behind: after a reset the machine is the one that its image boots, and runs as it did.
ghost use Rattle.std.specs.Prelude.{◌<◌, ◌≤◌};

use crate::{Home, ResetMachine};
use devices::Devices;
use dump::dump;
use masm::assemble_image;
use mips_cp0::Profile;
use mips_instr::Reg;
use mips_step::Cpu;
use mips_tlb::{Entry, KSEG0};
use runs::{Runnable, Table};
use std::process::Abort;
use std::sync::Arc;
use std::test::Fail;
use std::thread::for_each_mut;
use word32::{PAGE_SIZE, Ppn};

/// How many pages each machine has: its memory ends at 80010000.
const PAGES: u32 = 16;

/// A program, the profile that it runs on, its console input, how many steps are made of it, and how many pages they write.
#[derive(Clone, Copy)]
struct Case {
    profile: Profile,
    text: &'static str,
    input: &'static [u8],
    steps: u32,
    written: u32,
}

/// A program behind each of which something is left.
static CASES: [Case; 12] = [
    // bytes, half-words, words and parts of words, in five pages
    Case {
        profile: Profile::One,
        text: "lui $8,0x8000\nori $8,$8,0x8000\nlui $9,0x1234\nori $9,$9,0x5678\nsb $9,1($8)\nsh $9,0x1002($8)\nsw $9,0x2004($8)\nswl $9,0x3005($8)\nswr $9,0x400a($8)\nend: beq $0,$0,end\nsll $0,$0,0\n",
        input: &[],
        steps: 40,
        written: 5,
    },
    // a store by SC, with the link that LL made left behind
    Case {
        profile: Profile::One,
        text: "lui $8,0x8000\nori $8,$8,0x9000\nll $9,0($8)\naddiu $9,$9,1\nsc $9,0($8)\nll $10,4($8)\nend: beq $0,$0,end\nsll $0,$0,0\n",
        input: &[],
        steps: 21,
        written: 1,
    },
    // its own page, the page behind it with bytes of the image, and the last
    Case {
        profile: Profile::One,
        text: "lui $8,0x8000\nsw $8,0x1000($8)\nori $9,$8,0xfffc\nsw $9,0($9)\nsw $9,0xf0($8)\nend: beq $0,$0,end\nsll $0,$0,0\n.org 0x80001000\n.word 0x11223344\n.word 0x55667788\n",
        input: &[],
        steps: 33,
        written: 3,
    },
    // a page that is written and then given to the balloon, and one that is given without a store
    Case {
        profile: Profile::One,
        text: "lui $8,0xbf00\nlui $9,0x8000\nori $9,$9,0x8000\nsw $9,0x10($9)\naddiu $10,$0,8\nsw $10,0x18($8)\naddiu $10,$0,1\nsw $10,0x18($8)\nend: beq $0,$0,end\nsll $0,$0,0\n.org 0x80001000\n.word 0x11223344\n",
        input: &[],
        steps: 30,
        written: 2,
    },
    // a page that is given, and taken back by a load, and one by a store to BAL_TAKE
    Case {
        profile: Profile::One,
        text: "lui $8,0xbf00\nlui $9,0x8000\naddiu $10,$0,1\nsw $10,0x18($8)\nlw $11,0x1000($9)\naddiu $10,$0,2\nsw $10,0x18($8)\nsw $10,0x1c($8)\nend: beq $0,$0,end\nsll $0,$0,0\n.org 0x80001000\n.word 0x11223344\n.org 0x80002000\n.word 0x55667788\n",
        input: &[],
        steps: 30,
        written: 2,
    },
    // pages of numbers that there aren't, and other registers
    Case {
        profile: Profile::One,
        text: "lui $8,0xbf00\naddiu $9,$0,16\nsw $9,0x18($8)\naddiu $9,$0,-1\nsw $9,0x18($8)\nsw $9,0x1c($8)\nsw $9,0x10($8)\nend: beq $0,$0,end\nsll $0,$0,0\n",
        input: &[],
        steps: 25,
        written: 0,
    },
    // a TLB entry, and a store through it
    Case {
        profile: Profile::One,
        text: "lui $8,0x40\nmtc0 $8,$10,0\naddiu $9,$0,0x207\nmtc0 $9,$2,0\nmtc0 $9,$3,0\naddiu $10,$0,3\nmtc0 $10,$0,0\ntlbwi\nsw $9,0x20($8)\nend: beq $0,$0,end\nsll $0,$0,0\n",
        input: &[],
        steps: 30,
        written: 1,
    },
    // two of four bytes of input, and output
    Case {
        profile: Profile::One,
        text: "lui $8,0xbf00\nlw $9,4($8)\nsw $9,8($8)\nlw $9,4($8)\nsw $9,8($8)\nend: beq $0,$0,end\nsll $0,$0,0\n",
        input: b"abcd",
        steps: 23,
        written: 0,
    },
    // HI, LO, Count and Compare, and the end in a delay slot
    Case {
        profile: Profile::One,
        text: "addiu $8,$0,77\nmult $8,$8\nmthi $8\nmtc0 $8,$9,0\naddiu $9,$0,500\nmtc0 $9,$11,0\nend: beq $0,$0,end\naddiu $10,$10,1\n",
        input: &[],
        steps: 27,
        written: 0,
    },
    // an exception, in whose handler it ends
    Case {
        profile: Profile::One,
        text: "lui $8,0x8000\nlw $9,1($8)\n.org 0x80000180\naddiu $10,$10,1\nend: beq $0,$0,end\nsw $10,0x2000($8)\n",
        input: &[],
        steps: 26,
        written: 1,
    },
    // entries that TLBWR writes, of which each number is above the last one of the first profile
    Case {
        profile: Profile::Two,
        text: "addiu $8,$0,20\nmtc0 $8,$6,0\nlui $9,0x40\nmtc0 $9,$10,0\naddiu $10,$0,0x207\nmtc0 $10,$2,0\nmtc0 $10,$3,0\nlui $12,0x8000\nnext: tlbwr\nmfc0 $11,$1,0\naddu $13,$13,$11\naddiu $9,$9,0x2000\nmtc0 $9,$10,0\nbne $11,$8,next\nsw $13,0x6000($12)\nend: beq $0,$0,end\nsll $0,$0,0\n",
        input: &[],
        steps: 100,
        written: 1,
    },
    // a store through entry 31
    Case {
        profile: Profile::Two,
        text: "lui $8,0x40\nmtc0 $8,$10,0\naddiu $9,$0,0x207\nmtc0 $9,$2,0\nmtc0 $9,$3,0\naddiu $10,$0,31\nmtc0 $10,$0,0\ntlbwi\nsw $9,0x20($8)\nend: beq $0,$0,end\nsll $0,$0,0\n",
        input: &[],
        steps: 30,
        written: 1,
    },
];

/// What there is of a machine.
#[derive(Drop, PartialEq)]
struct Held {
    /// Its registers and its console's output.
    text: String,
    /// The first and the last bytes of each page.
    memory: Vec<u8>,
    slot: Option<u32>,
    link: bool,
    entries: Vec<Entry>,
    target: u32,
    /// Of each page, whether it is given.
    given: Vec<bool>,
}

/// Asserts one fact. The tests share it, since each assertion in a function's own body makes its proof much longer.
fn expect(rt: &impl Abort, what: &str, case: &str, holds: bool) {
    assert!(rt; holds, "{what} of {case}");
}

/// Bytes of each page from an offset on, where the programs store.
fn push_bytes<R: AllocGlobal + Abort, M: Runnable>(
    rt: &R,
    machine: &M,
    offset: u32,
    memory: &mut Vec<u8>,
) -> Result<(), Fail>
    requires { offset ≤ 3840 }
{
    let mut bytes = [0; 256];
    for page in 0..PAGES {
        let read = machine.read(KSEG0 + page * PAGE_SIZE + offset, &mut bytes);
        expect(rt, "the bytes", "a page", read.is_ok());
        memory.extend_from_slice(&bytes)?;
    }
    Ok(())
}

fn entries_of<R: AllocGlobal>(rt: &R, cpu: &Cpu) -> Result<Vec<Entry>, Fail> {
    let mut entries = Vec::new(rt.alloc());
    entries.extend_from_slice(cpu.tlb().entries())?;
    Ok(entries)
}

fn given_of<R: AllocGlobal>(rt: &R, devices: &Devices) -> Result<Vec<bool>, Fail> {
    let mut given = Vec::new(rt.alloc());
    for page in 0..PAGES {
        given.push(devices.is_given(Ppn::new(page)))?;
    }
    Ok(given)
}

fn seen<R: AllocGlobal + Abort, M: Runnable>(rt: &R, machine: &M) -> Result<Held, Fail> {
    let mut memory = Vec::new(rt.alloc());
    push_bytes(rt, machine, 0, &mut memory)?;
    push_bytes(rt, machine, 0xf00, &mut memory)?;
    let text = dump(rt.alloc(), machine.view(), 0, None)?;
    let view = machine.view();
    Ok(Held {
        slot: view.cpu.slot(),
        link: view.cpu.ll_bit(),
        target: view.devices.target(),
        entries: entries_of(rt, view.cpu)?,
        given: given_of(rt, view.devices)?,
        text,
        memory,
    })
}

fn is_seen<R: AllocGlobal + Abort, M: Runnable>(
    rt: &R,
    machine: &M,
    wanted: &Held,
) -> Result<bool, Fail> {
    Ok(seen(rt, machine)? == *wanted)
}

fn feed_all<M: Runnable>(machine: &mut M, input: &[u8]) {
    for byte in input {
        if machine.view().devices.has_input_room() {
            let _fed = machine.feed(*byte);
        }
    }
}

/// So many steps, so many at a time.
fn make_steps<M: Runnable>(machine: &mut M, steps: u32, piece: u32)
    requires { 0 < piece }
{
    for _ in 0..steps / piece {
        machine.steps(piece);
    }
    machine.steps(steps % piece);
}

/// The machine and the reference machine of a profile that a text boots.
fn boot<R: AllocGlobal + Abort>(
    rt: &R,
    profile: Profile,
    text: &str,
) -> Result<(ResetMachine, Table), Fail> {
    let image = assemble_image(rt.alloc(), text)?;
    assert!(rt; image.fits(PAGES));
    let table = Table::boot(rt.alloc(), profile, &image, PAGES)?;
    let home = Home::boot(rt.alloc(), profile, &image, PAGES)?;
    let machine = ResetMachine::new(rt.alloc(), Arc::new(rt.alloc(), home)?)?;
    Ok((machine, table))
}

/// A run, so many steps at a time, and a reset.
fn run_and_reset<R: AllocGlobal + Abort>(
    rt: &R,
    machine: &mut ResetMachine,
    case: &Case,
    piece: u32,
    fresh: &Held,
    wanted: &Held,
) -> Result<(), Fail>
    requires { 0 < piece }
{
    feed_all(machine, case.input);
    make_steps(machine, case.steps, piece);
    expect(rt, "a run", case.text, is_seen(rt, machine, wanted)?);
    expect(
        rt,
        "the pages",
        case.text,
        machine.written() == case.written,
    );
    machine.reset()?;
    expect(rt, "the reset", case.text, is_seen(rt, machine, fresh)?);
    expect(rt, "no pages", case.text, machine.written() == 0);
    Ok(())
}

/// Runs that end as the reference machine's does, each from the boot.
fn run_case<R: AllocGlobal + Abort>(rt: &R, case: &Case) -> Result<(), Fail> {
    let (mut machine, mut table) = boot(rt, case.profile, case.text)?;
    let fresh = seen(rt, &table)?;
    feed_all(&mut table, case.input);
    table.steps(case.steps);
    let wanted = seen(rt, &table)?;
    run_and_reset(rt, &mut machine, case, 1000, &fresh, &wanted)?;
    run_and_reset(rt, &mut machine, case, 1, &fresh, &wanted)?;
    run_and_reset(rt, &mut machine, case, 17, &fresh, &wanted)
}

#[test]
fn what_a_run_leaves_is_gone(rt: HostRuntime) -> Result<(), Fail> {
    for case in &CASES {
        run_case(&rt, case)?;
    }
    Ok(())
}

/// What the reference machine of a case is after its input and so many steps, and what it is at the end.
fn held_at<R: AllocGlobal + Abort>(rt: &R, case: &Case, steps: u32) -> Result<(Held, Held), Fail> {
    let mut table = boot(rt, case.profile, case.text)?.1;
    feed_all(&mut table, case.input);
    table.steps(steps);
    let midst = seen(rt, &table)?;
    table.steps(case.steps.saturating_sub(steps));
    Ok((midst, seen(rt, &table)?))
}

/// A machine whose home is one of a case after its input and so many steps.
fn from_the_midst<R: AllocGlobal + Abort>(
    rt: &R,
    case: &Case,
    steps: u32,
) -> Result<ResetMachine, Fail> {
    let mut machine = boot(rt, case.profile, case.text)?.0;
    feed_all(&mut machine, case.input);
    machine.steps(steps);
    let home = Arc::new(rt.alloc(), machine.into_home())?;
    Ok(ResetMachine::new(rt.alloc(), home)?)
}

/// From its home a machine runs to the end, and goes back.
fn end_and_back<R: AllocGlobal + Abort>(
    rt: &R,
    machine: &mut ResetMachine,
    case: &Case,
    left: u32,
    midst: &Held,
    end: &Held,
) -> Result<(), Fail> {
    expect(rt, "the midst", case.text, is_seen(rt, machine, midst)?);
    machine.steps(left);
    expect(rt, "the end", case.text, is_seen(rt, machine, end)?);
    machine.reset()?;
    expect(rt, "no pages", case.text, machine.written() == 0);
    Ok(())
}

/// From a step of a case on a machine runs to the end and goes back, twice.
fn go_back_to_the_midst<R: AllocGlobal + Abort>(
    rt: &R,
    case: &Case,
    steps: u32,
) -> Result<(), Fail> {
    let (midst, end) = held_at(rt, case, steps)?;
    let mut machine = from_the_midst(rt, case, steps)?;
    let left = case.steps.saturating_sub(steps);
    end_and_back(rt, &mut machine, case, left, &midst, &end)?;
    end_and_back(rt, &mut machine, case, left, &midst, &end)
}

#[test]
fn a_home_may_be_in_the_midst_of_a_run(rt: HostRuntime) -> Result<(), Fail> {
    for case in &CASES {
        for steps in 1..14 {
            go_back_to_the_midst(&rt, case, steps)?;
        }
    }
    Ok(())
}

/// Two machines of one home.
fn two_of_one_home<R: AllocGlobal + Abort>(
    rt: &R,
    case: &Case,
) -> Result<(ResetMachine, ResetMachine), Fail> {
    let machine = boot(rt, case.profile, case.text)?.0;
    let home = Arc::new(rt.alloc(), machine.into_home())?;
    let first = ResetMachine::new(rt.alloc(), home.clone()?)?;
    Ok((first, ResetMachine::new(rt.alloc(), home)?))
}

/// What one of them does is nothing to the other, nor to their home.
fn keep_apart<R: AllocGlobal + Abort>(rt: &R, case: &Case) -> Result<(), Fail> {
    let (mut first, second) = two_of_one_home(rt, case)?;
    let fresh = seen(rt, &second)?;
    first.steps(case.steps);
    expect(rt, "the second", case.text, is_seen(rt, &second, &fresh)?);
    first.reset()?;
    expect(rt, "the first", case.text, is_seen(rt, &first, &fresh)?);
    Ok(())
}

#[test]
fn machines_of_one_home_are_apart(rt: HostRuntime) -> Result<(), Fail> {
    for case in &CASES {
        keep_apart(&rt, case)?;
    }
    Ok(())
}

#[test]
fn threads_have_a_machine_each(rt: HostRuntime) -> Result<(), Fail> {
    let mut machines = Vec::new(rt.alloc());
    for case in &CASES[..4] {
        machines.push(boot(&rt, case.profile, case.text)?.0)?;
    }
    for_each_mut(
        &rt,
        machines.as_mut_slice(),
        4,
        &|_, machine: &mut ResetMachine| {
            machine.steps(100);
        },
    );
    for (case, machine) in CASES[..4].iter().zip(&machines) {
        let mut table = boot(&rt, case.profile, case.text)?.1;
        table.steps(100);
        let wanted = seen(&rt, &table)?;
        expect(&rt, "a thread", case.text, is_seen(&rt, machine, &wanted)?);
    }
    Ok(())
}

/// A profile, Random and Config1 as its first two instructions read them, and the number of its last TLB entry.
static PROFILES: [(Profile, u32, u32, u8); 2] = [
    (Profile::One, 0x0e, 0x1e00_0000, 15),
    (Profile::Two, 0x1e, 0x3e00_0000, 31),
];

/// A program that reads Random and Config1, and writes the entry of 00400000 to the last of the TLB.
const READING: &str =
    "mfc0 $9,$1,0\nmfc0 $10,$16,1\naddiu $8,$0,31\nmtc0 $8,$0,0\nlui $11,0x40\nmtc0 $11,$10,0\ntlbwi\nend: beq $0,$0,end\nsll $0,$0,0\n";

/// What the program has read.
fn read_by(cpu: &Cpu) -> [u32; 2] {
    [cpu.reg(Reg::new(9)), cpu.reg(Reg::new(10))]
}

/// How many TLB entries there are, and the number of the one of 00400000.
fn entries_by(cpu: &Cpu) -> (usize, Option<usize>) {
    (cpu.tlb().len(), cpu.tlb().find(0x0040_0000, 0))
}

/// A run of a machine that is as it boots.
fn run_reading(rt: &impl Abort, machine: &mut ResetMachine, row: &(Profile, u32, u32, u8)) {
    let (_, random, config1, last) = *row;
    let last = usize::from(last);
    let count = last + 1;
    let entries = entries_by(machine.view().cpu);
    expect(rt, "no entry", READING, entries == (count, None));
    machine.steps(20);
    let read = read_by(machine.view().cpu);
    expect(rt, "what is read", READING, read == [random, config1]);
    let entries = entries_by(machine.view().cpu);
    expect(rt, "an entry", READING, entries == (count, Some(last)));
}

#[test]
fn a_reset_keeps_the_profile(rt: HostRuntime) -> Result<(), Fail> {
    for row in &PROFILES {
        let mut machine = boot(&rt, row.0, READING)?.0;
        run_reading(&rt, &mut machine, row);
        machine.reset()?;
        run_reading(&rt, &mut machine, row);
    }
    Ok(())
}
