//! A debugger's writes of registers.
use super::expect;
use super::sparse::Sparse;
use items::DebugRegister;
use machine::StepOut;
use mips_cp0::Profile;
use mips_isa::Reg;
use mips_step::Cpu;
use std::process::Abort;
use std::test::Fail;

/// `beq $0,$0` to 80000008, and in its slot `lw $1,2($0)`, whose address is not aligned.
static WORDS: [(u32, u32); 2] = [(0, 0x1000_0001), (4, 0x8c01_0002)];

/// Registers 0 and 31, Status, LO, HI, BadVAddr, Cause, EPC and PC.
type State = [u32; 9];

/// In the delay slot of the branch.
static IN_THE_SLOT: State = [0, 0, 0, 0, 0, 0, 0, 0, 0x8000_0004];

/// After the exception of the load in the slot: EXL is set, Cause has BD and the code of a load's address.
static AFTER_THE_LOAD: State = [0, 0, 2, 0, 0, 2, 0x8000_0010, 0x8000_0000, 0x8000_0180];

/// The number of a register, a value that is written to it, and the place in the state that then has the last number; all
/// other places stay.
static WRITES_IN_THE_SLOT: [(u8, u32, usize, u32); 10] = [
    (0, 0xffff_ffff, 0, 0),
    (31, 0x89ab_cdef, 1, 0x89ab_cdef),
    (32, 0xffff_ffff, 2, 0x1040_ff17),
    (33, 0x0123_4567, 3, 0x0123_4567),
    (34, 0xfedc_ba98, 4, 0xfedc_ba98),
    (35, 0xffff_ffff, 5, 0),
    (36, 0xffff_ffff, 6, 0x0080_0300),
    (32, 0, 2, 0),
    (36, 0, 6, 0),
    (37, 0xffff_ffff, 8, 0xffff_ffff),
];

/// The same: what the exception put into BadVAddr and Cause stays, but for the bits of Cause that MTC0 writes.
static WRITES_AFTER_THE_LOAD: [(u8, u32, usize, u32); 5] = [
    (35, 0xffff_ffff, 5, 2),
    (36, 0xffff_ffff, 6, 0x8080_0310),
    (36, 0, 6, 0x8000_0010),
    (32, 0x0000_ff01, 2, 0x0000_ff01),
    (37, 0x8000_0000, 8, 0x8000_0000),
];

fn state(cpu: &Cpu) -> State {
    let cp0 = cpu.cp0();
    let (zero, last) = (cpu.reg(Reg::new(0)), cpu.reg(Reg::new(31)));
    let (status, bad, cause, epc) = (cp0.status(), cp0.bad_vaddr(), cp0.cause(), cp0.epc());
    let (lo, hi, pc) = (cpu.lo(), cpu.hi(), cpu.pc());
    [zero, last, status, lo, hi, bad, cause, epc, pc]
}

/// Makes each write in turn, and compares the state after each. A write of PC alone leaves the delay slot.
fn writes_in_turn(rt: &impl Abort, cpu: &mut Cpu, start: State, writes: &[(u8, u32, usize, u32)]) {
    let mut wanted = start;
    expect(rt, "the state at first", state(cpu), wanted);
    for row in writes {
        let (number, value, place, shown) = *row;
        if place < 9 {
            wanted[place] = shown;
        }
        let slot = if number == 37 { None } else { cpu.slot() };
        if let Some(register) = DebugRegister::find(number) {
            cpu.poke(register, value);
        }
        let got = (state(cpu), cpu.slot());
        expect(rt, ("register", number, value), got, (wanted, slot));
    }
}

#[test]
fn a_debugger_writes_each_register(rt: HostRuntime) -> Result<(), Fail> {
    let mut bus = Sparse::new(&rt, &WORDS)?;
    let mut cpu = Cpu::boot(Profile::One, 0x8000_0000);
    let slot = Some(0x8000_0008);
    let branched = (cpu.step(&mut bus), cpu.slot());
    expect(&rt, "the branch", branched, (StepOut::Done, slot));
    writes_in_turn(&rt, &mut cpu, IN_THE_SLOT, &WRITES_IN_THE_SLOT);
    expect(&rt, "the slot", cpu.slot(), None);
    Ok(())
}

#[test]
fn a_debugger_writes_after_an_exception(rt: HostRuntime) -> Result<(), Fail> {
    let mut bus = Sparse::new(&rt, &WORDS)?;
    let mut cpu = Cpu::boot(Profile::One, 0x8000_0000);
    let steps = (cpu.step(&mut bus), cpu.step(&mut bus));
    expect(&rt, "the steps", steps, (StepOut::Done, StepOut::Done));
    writes_in_turn(&rt, &mut cpu, AFTER_THE_LOAD, &WRITES_AFTER_THE_LOAD);
    Ok(())
}
