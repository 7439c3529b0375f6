//! Steps over a bus that may lack a page: what a step needs is answered, and nothing has changed; and steps at a register.
use super::expect;
use super::sparse::Sparse;
use machine::{Ppn, StepOut, Why};
use mips_cp0::{Profile, SystemRegister};
use mips_isa::Reg;
use mips_step::Cpu;
use std::process::Abort;
use std::test::Fail;

/// `lw $2,0($1)` and `sw $2,4($1)` behind `lui $1,0x8000` and `ori $1,$1,0x1000`: code in page 0, data in page 1.
static WORDS: [(u32, u32); 5] = [
    (0x0000, 0x3c01_8000),
    (0x0004, 0x3421_1000),
    (0x0008, 0x8c22_0000),
    (0x000c, 0xac22_0004),
    (0x1000, 0x1234_5678),
];

/// PC, register 2 and the word at 1004.
fn state(cpu: &Cpu, bus: &Sparse) -> (u32, u32, Option<u32>) {
    (cpu.pc(), cpu.reg(Reg::new(2)), bus.word(0x1004))
}

/// The step with this page absent stops for want of it, and leaves the state as it was.
fn stops(rt: &impl Abort, step: u32, cpu: &mut Cpu, bus: &mut Sparse, page: Ppn) {
    bus.leave_out(page.number());
    let (pc, two, _) = state(cpu, bus);
    let got = (cpu.need(bus), cpu.step(bus), state(cpu, bus));
    let need = (page, Why::First);
    let stop = StepOut::Need(page, Why::First);
    let wanted = (Some(need), stop, (pc, two, Some(0)));
    expect(rt, ("step", step), got, wanted);
}

/// The step needs no page and goes on to the next word.
fn is_made(rt: &impl Abort, step: u32, cpu: &mut Cpu, bus: &mut Sparse) {
    let next = cpu.pc().wrapping_add(4);
    let got = (cpu.need(bus), cpu.step(bus), cpu.pc());
    expect(rt, ("step", step), got, (None, StepOut::Done, next));
}

/// Each of four steps stops for want of the fetch's page, and those that have data for want of the data's.
fn steps_stop(rt: &impl Abort, cpu: &mut Cpu, bus: &mut Sparse) {
    for step in 0..4 {
        stops(rt, step, cpu, bus, Ppn::new(0));
        bus.leave_out(1);
        if step >= 2 {
            stops(rt, step, cpu, bus, Ppn::new(1));
            bus.leave_out(2);
        }
        is_made(rt, step, cpu, bus);
    }
}

#[test]
fn a_lacking_page_stops_a_step_before_anything_changes(rt: HostRuntime) -> Result<(), Fail> {
    let mut bus = Sparse::new(&rt, &WORDS)?;
    let mut cpu = Cpu::boot(Profile::One, 0x8000_0000);
    steps_stop(&rt, &mut cpu, &mut bus);
    let after = (0x8000_0010, 0x1234_5678, Some(0x1234_5678));
    expect(&rt, "after the steps", state(&cpu, &bus), after);
    Ok(())
}

/// PC, EPC, Cause and BadVAddr.
fn exception(cpu: &Cpu) -> [u32; 4] {
    let cp0 = cpu.cp0();
    [cpu.pc(), cp0.epc(), cp0.cause(), cp0.bad_vaddr()]
}

/// Past memory no page is lacking, whatever the bus says of its number.
fn past_memory(rt: &impl Abort, bus: &mut Sparse) {
    let mut cpu = Cpu::boot(Profile::One, 0x8000_2000);
    let got = (cpu.need(bus), cpu.step(bus), exception(&cpu));
    let registers = [0x8000_0180, 0x8000_2000, 6 << 2, 0];
    expect(rt, "past memory", got, (None, StepOut::Done, registers));
}

/// An address that is not aligned, before its page is asked for.
fn not_aligned(rt: &impl Abort, bus: &mut Sparse) {
    let mut cpu = Cpu::boot(Profile::One, 0x8000_0000);
    bus.leave_out(0);
    let need = Some((Ppn::new(0), Why::First));
    expect(rt, "the fetch's page", cpu.need(bus), need);
    bus.leave_out(2);
    let got = (cpu.step(bus), exception(&cpu));
    let registers = [0x8000_0180, 0x8000_0000, 4 << 2, 2];
    expect(rt, "not aligned", got, (StepOut::Done, registers));
}

#[test]
fn an_exception_comes_where_no_page_is_needed(rt: HostRuntime) -> Result<(), Fail> {
    let mut bus = Sparse::new(&rt, &[(0, 0x8c01_0002)])?;
    past_memory(&rt, &mut bus);
    not_aligned(&rt, &mut bus);
    Ok(())
}

/// `beq $0,$0` to 80000008, and in its slot a load from page 1.
static SLOT_WORDS: [(u32, u32); 3] = [(0, 0x1000_0001), (4, 0x8c22_1000), (0x1000, 7)];

/// The target of the delay slot, Count and Random.
fn counters(cpu: &Cpu) -> (Option<u32>, u32, u32) {
    let cp0 = cpu.cp0();
    (
        cpu.slot(),
        cp0.value(SystemRegister::Count, 0),
        cp0.random(),
    )
}

/// With the fetch's page absent, nothing that a step counts has changed.
fn slot_stays(rt: &impl Abort, cpu: &mut Cpu, bus: &mut Sparse) {
    bus.leave_out(0);
    let before = counters(cpu);
    let got = (cpu.step(bus), counters(cpu));
    let need = StepOut::Need(Ppn::new(0), Why::First);
    expect(rt, "the slot's page", got, (need, before));
}

/// The load is at 1000 by way of register 1, which is 0: it is mapped, and no entry is valid.
fn slot_is_left(rt: &impl Abort, cpu: &mut Cpu, bus: &mut Sparse) {
    bus.leave_out(2);
    let (_, count, _) = counters(cpu);
    let stepped = (cpu.step(bus), cpu.slot());
    expect(rt, "the slot", stepped, (StepOut::Done, None));
    let [_, epc, cause, _] = exception(cpu);
    let (_, counted, _) = counters(cpu);
    let wanted = [0x8000_0000, 0x8000_0008, count.wrapping_add(1)];
    expect(rt, "EPC, Cause and Count", [epc, cause, counted], wanted);
}

#[test]
fn a_lacking_page_leaves_the_delay_slot_and_count(rt: HostRuntime) -> Result<(), Fail> {
    let mut bus = Sparse::new(&rt, &SLOT_WORDS)?;
    let mut cpu = Cpu::boot(Profile::One, 0x8000_0000);
    let branched = (cpu.step(&mut bus), cpu.slot(), cpu.need(&bus));
    let slot = Some(0x8000_0008);
    expect(&rt, "the branch", branched, (StepOut::Done, slot, None));
    slot_stays(&rt, &mut cpu, &mut bus);
    slot_is_left(&rt, &mut cpu, &mut bus);
    Ok(())
}

/// At the devices' registers by way of kseg1: page 1 is given to the balloon, the given pages are counted before and after
/// a load from that page, whose word was 12345678.
static GIVING_WORDS: [(u32, u32); 8] = [
    (0x0000, 0x3c01_bf00),
    (0x0004, 0x3402_0001),
    (0x0008, 0xac22_0018),
    (0x000c, 0x8c23_0014),
    (0x0010, 0x3c04_8000),
    (0x0014, 0x8c85_1000),
    (0x0018, 0x8c26_0014),
    (0x1000, 0x1234_5678),
];

#[test]
fn a_page_is_given_by_a_store_and_taken_by_a_load(rt: HostRuntime) -> Result<(), Fail> {
    let mut bus = Sparse::new(&rt, &GIVING_WORDS)?;
    let mut cpu = Cpu::boot(Profile::One, 0x8000_0000);
    for step in 0..7 {
        expect(&rt, step, cpu.step(&mut bus), StepOut::Done);
    }
    let counts = (cpu.reg(Reg::new(3)), cpu.reg(Reg::new(6)));
    let words = (cpu.reg(Reg::new(5)), bus.word(0x1000));
    expect(&rt, "given pages", counts, (1, 0));
    expect(&rt, "the page's word", words, (0, Some(0)));
    Ok(())
}
