//! Many steps at once, over a bus that may lack a page: how many of them are made, and that the machine is then as after so many single
//! steps.
mod case;
mod changed_words;
mod clock;
mod instructions;
mod pages;
mod steady;

use super::expect;
use super::sparse::Sparse;
use case::Case;
use mips_cp0::Profile;
use mips_fast::{Everything, RunCache, run};
use mips_isa::Reg;
use mips_step::Cpu;
use mips_tlb::Tlb;
use std::process::Abort;
use std::test::Fail;

/// A processor and its bus.
#[derive(Drop)]
struct Machine {
    cpu: Cpu,
    bus: Sparse,
}

/// The machine of a case, after the steps that are made first.
fn booted(rt: &impl AllocGlobal, case: &Case) -> Result<Machine, Fail> {
    let mut machine = Machine {
        cpu: Cpu::boot(Profile::One, 0x8000_0000),
        bus: Sparse::new(rt, case.words)?,
    };
    step_by_step(&mut machine, case.before);
    if let Some(page) = case.absent {
        machine.bus.leave_out(page);
    }
    Ok(machine)
}

/// So many steps one by one, or none for each that needs the absent page.
fn step_by_step(machine: &mut Machine, count: u32) {
    for _ in 0..count {
        machine.cpu.step(&mut machine.bus);
    }
}

/// General registers, system registers and entries of the TLB.
fn check_registers(rt: &impl Abort, name: &str, cpu: &Cpu, twin: &Cpu) {
    for number in 0..32 {
        let (r, case) = (Reg::new(number), (name, "register", number));
        expect(rt, case, cpu.reg(r), twin.reg(r));
        let case = (name, "system register", number);
        let wanted = twin.cp0().read(number, 0, 0);
        expect(rt, case, cpu.cp0().read(number, 0, 0), wanted);
    }
    check_entries(rt, name, cpu.tlb(), twin.tlb());
}

fn check_entries(rt: &impl Abort, name: &str, tlb: &Tlb, twin: &Tlb) {
    let (entries, wanted) = (tlb.entries(), twin.entries());
    expect(rt, (name, "entries"), entries, wanted);
}

/// The two pages of memory.
fn check_words(rt: &impl Abort, name: &str, bus: &Sparse, twin: &Sparse) {
    for index in 0..2048 {
        let at = index * 4;
        expect(rt, (name, "word", at), bus.word(at), twin.word(at));
    }
}

/// PC, the target of the delay slot, HI and LO, and LLbit.
fn control(cpu: &Cpu) -> (u32, Option<u32>, [u32; 2], bool) {
    (cpu.pc(), cpu.slot(), [cpu.hi(), cpu.lo()], cpu.ll_bit())
}

/// The interrupt lines, the console's output and which pages are given.
fn check_devices<R: AllocGlobal + Abort>(
    rt: &R,
    name: &str,
    bus: &Sparse,
    twin: &Sparse,
) -> Result<(), Fail> {
    expect(
        rt,
        (name, "devices"),
        bus.devices_show(),
        twin.devices_show(),
    );
    let (output, wanted) = (bus.output()?, twin.output()?);
    expect(rt, (name, "output"), output.as_slice(), wanted.as_slice());
    Ok(())
}

fn check_same<R: AllocGlobal + Abort>(
    rt: &R,
    name: &str,
    machine: &Machine,
    twin: &Machine,
) -> Result<(), Fail> {
    expect(rt, name, control(&machine.cpu), control(&twin.cpu));
    check_registers(rt, name, &machine.cpu, &twin.cpu);
    check_words(rt, name, &machine.bus, &twin.bus);
    check_devices(rt, name, &machine.bus, &twin.bus)
}

/// Some steps at once, `first` and then the others, and as many one by one. Where they are fewer than were asked for the next isn't made
/// at once either, and nothing is changed until it is made by itself.
fn check_split<R: AllocGlobal + Abort>(
    rt: &R,
    cache: &mut RunCache,
    case: &Case,
    first: u32,
) -> Result<(), Fail> {
    let (mut machine, mut twin) = (booted(rt, case)?, booted(rt, case)?);
    let Machine { cpu, bus } = &mut machine;
    let asked = (
        run(cpu, bus, cache, &Everything, first),
        case.count.saturating_sub(first),
    );
    let others = run(cpu, bus, cache, &Everything, asked.1);
    let made = case.made.saturating_sub(first);
    expect(rt, (case.name, first), (asked.0, others), (first, made));
    step_by_step(&mut twin, case.made);
    check_same(rt, case.name, &machine, &twin)?;
    if case.made < case.count {
        let Machine { cpu, bus } = &mut machine;
        expect(rt, case.name, run(cpu, bus, cache, &Everything, 1), 0);
        check_same(rt, case.name, &machine, &twin)?;
        let stepped = machine.cpu.step(&mut machine.bus);
        expect(rt, case.name, stepped, twin.cpu.step(&mut twin.bus));
        check_same(rt, case.name, &machine, &twin)?;
    }
    Ok(())
}

fn check_case<R: AllocGlobal + Abort>(
    rt: &R,
    cache: &mut RunCache,
    case: &Case,
) -> Result<(), Fail> {
    for first in 0..case.made.saturating_add(1) {
        check_split(rt, cache, case, first)?;
    }
    Ok(())
}

/// Checks each case over the words that were decoded for those before.
fn check_cases<R: AllocGlobal + Abort>(rt: &R, cases: &[Case]) -> Result<(), Fail> {
    let mut cache = RunCache::new(rt.alloc())?;
    for case in cases {
        check_case(rt, &mut cache, case)?;
    }
    Ok(())
}
