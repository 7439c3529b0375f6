//! The registers that a debugger reads.
ghost use Rattle.std.specs.Prelude.{◌≡◌, ℕ, ◌<◌, slice_index};
ghost use Rattle.cell.specs.Registers.{register_of};

use mips_cp0::SystemRegister;
use mips_instr::Reg;
use mips_step::Cpu;

/// The words of the registers that a debugger can name (`items::DebugRegister`), by their numbers 0 to 37: the general registers, Status,
/// LO, HI, BadVAddr, Cause with the interrupt lines that are raised, and PC.
pub type Registers = [u32; 38];

// The register of this number, while these interrupt lines are raised.
fn register_of(cpu: &Cpu, lines: u8, number: u32) -> u32
    requires { number < 38 }
    ensures { result ≡ register_of number lines cpu.now }
{
    if number < 32 {
        return cpu.reg(Reg::new(number));
    }
    if number == 32 {
        return cpu.cp0().value(SystemRegister::Status, lines);
    }
    if number == 33 {
        return cpu.lo();
    }
    if number == 34 {
        return cpu.hi();
    }
    if number == 35 {
        return cpu.cp0().value(SystemRegister::BadVAddr, lines);
    }
    if number == 36 {
        return cpu.cp0().value(SystemRegister::Cause, lines);
    }
    cpu.pc()
}

// The registers of a processor, while these interrupt lines are raised.
pub(crate) fn registers_of(cpu: &Cpu, lines: u8) -> Registers
    ensures { (number : ℕ) → number < 38 → slice_index result number ≡ register_of number lines cpu.now }
{
    let mut words = [0; 38];
    for number in 0..38u32 {
        words[number as usize] = register_of(cpu, lines, number);
    }
    words
}
