//! The dump of a machine.
ghost use Rattle.std.specs.Prelude.{◌≡◌, ◌+◌, ◌<◌, ◌++◌, IfOk, OnOk, string_bytes};
ghost use Rattle.machine.specs.Step.{Machine};
ghost use Rattle.masm.specs.Disassembly.{hex_word};
ghost use Rattle.mips_instr.specs.Operands.{hex_byte, hex_digit};
ghost use Rattle.dump.specs.Dumps as spec;

use guest_log::Stop;
use masm::HexWord;
use mips_cp0::SystemRegister;
use mips_instr::Reg;
use mips_step::{Cpu, View};
use std::alloc::{AllocError, Global};

/// The text of the state that a machine is in after so many steps: a line for each part of it, and last why no more were
/// made, where that was before the last.
pub fn dump(
    alloc: Global,
    view: View<'_>,
    steps: u64,
    stop: Option<Stop>,
) -> Result<String, AllocError>
    ensures { (m : Machine) → view.entry.cpu.now ≡ m.cpu → view.entry.devices.now ≡ m.board.devices
        → IfOk result (λ text. string_bytes text ≡ spec.dump_text m steps stop) }
{
    let mut out = String::new(alloc);
    writeln!(out, "steps {steps}")?;
    push_cpu(&mut out, view.cpu, view.devices.lines())?;
    push_output(&mut out, &view.devices.copy_output()?)?;
    push_stop(&mut out, stop)?;
    Ok(out)
}

/// The processor's lines, while these interrupt lines are raised.
fn push_cpu(out: &mut String, cpu: &Cpu, lines: u8) -> Result<(), AllocError>
    ensures { OnOk result (string_bytes out.new ≡ string_bytes out.old ++ spec.control_text cpu.now ++ spec.lower_registers_text cpu.now
        ++ spec.upper_registers_text cpu.now ++ spec.system_text lines cpu.now) }
{
    push_control(out, cpu)?;
    push_lower_registers(out, cpu)?;
    push_upper_registers(out, cpu)?;
    push_system_registers(out, cpu, lines)
}

/// A word behind its label.
#[tactic(auto, unfolding(crate::specs::Dumps::field_text))]
fn push_field(out: &mut String, label: &str, word: u32) -> Result<(), AllocError>
    ensures { OnOk result (string_bytes out.new ≡ string_bytes out.old ++ spec.field_text label.now word) }
{
    let word = HexWord(word);
    write!(out, "{label}{word}")
}

fn push_control(out: &mut String, cpu: &Cpu) -> Result<(), AllocError>
    ensures { OnOk result (string_bytes out.new ≡ string_bytes out.old ++ spec.control_text cpu.now) }
{
    push_field(out, "pc ", cpu.pc())?;
    push_field(out, " hi ", cpu.hi())?;
    push_field(out, " lo ", cpu.lo())?;
    out.push_str("\n")
}

fn push_lower_registers(out: &mut String, cpu: &Cpu) -> Result<(), AllocError>
    ensures { OnOk result (string_bytes out.new ≡ string_bytes out.old ++ spec.lower_registers_text cpu.now) }
{
    push_registers(out, "r00", cpu, 0)?;
    push_registers(out, "r04", cpu, 4)?;
    push_registers(out, "r08", cpu, 8)?;
    push_registers(out, "r12", cpu, 12)
}

fn push_upper_registers(out: &mut String, cpu: &Cpu) -> Result<(), AllocError>
    ensures { OnOk result (string_bytes out.new ≡ string_bytes out.old ++ spec.upper_registers_text cpu.now) }
{
    push_registers(out, "r16", cpu, 16)?;
    push_registers(out, "r20", cpu, 20)?;
    push_registers(out, "r24", cpu, 24)?;
    push_registers(out, "r28", cpu, 28)
}

/// A line of the general register of a number and the three behind it.
fn push_registers(out: &mut String, label: &str, cpu: &Cpu, first: u32) -> Result<(), AllocError>
    requires { first + 3 < 32 }
    ensures { OnOk result (string_bytes out.new ≡ string_bytes out.old ++ spec.registers_text label.now first cpu.now) }
{
    out.push_str(label)?;
    push_pair(out, cpu.reg(Reg::new(first)), cpu.reg(Reg::new(first + 1)))?;
    push_pair(
        out,
        cpu.reg(Reg::new(first + 2)),
        cpu.reg(Reg::new(first + 3)),
    )?;
    out.push_str("\n")
}

/// Two words, each behind a blank.
fn push_pair(out: &mut String, a: u32, b: u32) -> Result<(), AllocError>
    ensures { OnOk result (string_bytes out.new ≡ string_bytes out.old ++ spec.pair_text a b) }
{
    push_field(out, " ", a)?;
    push_field(out, " ", b)
}

/// The line of the system registers, of which Cause is as MFC0 reads it while these interrupt lines are raised.
fn push_system_registers(out: &mut String, cpu: &Cpu, lines: u8) -> Result<(), AllocError>
    ensures { OnOk result (string_bytes out.new ≡ string_bytes out.old ++ spec.system_text lines cpu.now) }
{
    let cp0 = cpu.cp0();
    push_field(out, "sr ", cp0.status())?;
    push_field(out, " cause ", cp0.value(SystemRegister::Cause, lines))?;
    push_field(out, " epc ", cp0.epc())?;
    push_field(out, " badva ", cp0.bad_vaddr())?;
    out.push_str("\n")
}

/// The console's output on a line of its own.
fn push_output(out: &mut String, output: &[u8]) -> Result<(), AllocError>
    ensures { OnOk result (string_bytes out.new ≡ string_bytes out.old ++ spec.output_text output.now) }
{
    out.push_str("out ")?;
    push_output_digits(out, output)?;
    out.push_str("\n")
}

/// A console's output in hexadecimal digits, two a byte, or a dash where there is none.
pub fn push_output_digits(out: &mut String, output: &[u8]) -> Result<(), AllocError>
    ensures { OnOk result (string_bytes out.new ≡ string_bytes out.old ++ spec.output_digits output.now) }
{
    match output {
        [] => out.push_str("-"),
        _ => push_digits(out, output),
    }
}

/// Bytes in hexadecimal digits, two a byte.
pub fn push_digits(out: &mut String, bytes: &[u8]) -> Result<(), AllocError>
    ensures { OnOk result (string_bytes out.new ≡ string_bytes out.old ++ spec.digits_of bytes.now) }
{
    for &byte in bytes {
        push_byte(out, byte)?;
    }
    Ok(())
}

/// The character of a hexadecimal digit, in lower case.
fn digit_of(value: u8) -> char
    requires { value < 16 }
    ensures value { result ≡ hex_digit value }
    ensures ascii { result < 128 }
{
    if value < 10 {
        (b'0' + value) as char
    } else {
        (b'a' - 10 + value) as char
    }
}

/// A byte in two hexadecimal digits.
fn push_byte(out: &mut String, byte: u8) -> Result<(), AllocError>
    ensures { OnOk result (string_bytes out.new ≡ string_bytes out.old ++ hex_byte byte) }
{
    out.push(digit_of(byte / 16))?;
    out.push(digit_of(byte % 16))
}

/// A word in eight hexadecimal digits.
pub fn push_word(out: &mut String, word: u32) -> Result<(), AllocError>
    ensures { OnOk result (string_bytes out.new ≡ string_bytes out.old ++ hex_word word) }
{
    push_byte(out, (word >> 24) as u8)?;
    push_byte(out, ((word >> 16) % 0x100) as u8)?;
    push_byte(out, ((word >> 8) % 0x100) as u8)?;
    push_byte(out, (word % 0x100) as u8)
}

/// Why a run ended before its last step, where it did.
fn push_stop(out: &mut String, stop: Option<Stop>) -> Result<(), AllocError>
    ensures { OnOk result (string_bytes out.new ≡ string_bytes out.old ++ spec.stop_text stop) }
{
    match stop {
        None => Ok(()),
        Some(stop) => {
            let number = stop.number();
            writeln!(out, "stop {number}")
        }
    }
}
