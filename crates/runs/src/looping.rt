//! Whether a machine goes round in one place for ever.
ghost use Rattle.std.specs.Prelude.{◌≡◌};
ghost use Rattle.mips_cp0.specs.Interrupts.{is_taken};
ghost use Rattle.mips_alu.specs.Comparing.{compare_result};
ghost use Rattle.machine.specs.Meaning.{branch_condition, zero_condition, links};
ghost use Rattle.devices.specs.Lines.{device_lines};
ghost use Rattle.machine.specs.Operations.{instruction_of};
ghost use Rattle.runs.specs.Loops as spec;

use crate::Runnable;
use crate::words::fetched_word;
use bitflags::Flags;
use mips_alu::{Comparison, compare};
use mips_cp0::{Cause, Status};
use mips_isa::{BranchOp, BranchZeroOp, Instr, JumpOp, branch_target_of, decode, jump_target_of};
use mips_step::{Cpu, View};

/// Whether PC stands in no delay slot, at a branch or jump to itself that writes no register, before a NOP, while no interrupt comes.
pub fn is_loop<M: Runnable>(machine: &M) -> bool
    ensures { result ≡ spec.is_loop (M.state machine.now) }
{
    let view = machine.view();
    let pc = view.cpu.pc();
    view.cpu.slot().is_none()
        && leads_back(view.cpu, fetched_word(machine, pc))
        && fetched_word(machine, pc.wrapping_add(4)) == Some(0)
        && is_quiet(view)
}

/// Whether a word that is fetched at PC leads back to PC.
fn leads_back(cpu: &Cpu, word: Option<u32>) -> bool
    ensures { result ≡ spec.leads_back cpu.now word }
{
    match word {
        Some(word) => word_leads(cpu, word) == Some(cpu.pc()),
        None => false,
    }
}

/// Where a word leads from PC, where it is a branch that is taken or a jump, and writes no register.
fn word_leads(cpu: &Cpu, word: u32) -> Option<u32>
    ensures { result ≡ spec.word_leads cpu.now (instruction_of word) }
{
    match decode(word) {
        Some(instr) => led_to(cpu, instr),
        None => None,
    }
}

/// Where an instruction leads from PC, where it is a branch that is taken or a jump, and writes no register.
fn led_to(cpu: &Cpu, instr: Instr) -> Option<u32>
    ensures { result ≡ spec.led_to cpu.now instr }
{
    match instr {
        Instr::Branch { op, rs, rt, offset } => taken_to(
            is_taken_branch(op, cpu.reg(rs), cpu.reg(rt)),
            branch_target_of(cpu.pc(), offset),
        ),
        Instr::BranchZero { op, rs, offset } => taken_to(
            !is_linking(op) && is_taken_with_zero(op, cpu.reg(rs)),
            branch_target_of(cpu.pc(), offset),
        ),
        Instr::Jump { op, target } => jumped_to(op, jump_target_of(cpu.pc(), target)),
        Instr::JumpRegister { rs } => Some(cpu.reg(rs)),
        _ => None,
    }
}

fn taken_to(taken: bool, target: u32) -> Option<u32>
    ensures { result ≡ spec.taken_to taken target }
{
    if taken { Some(target) } else { None }
}

fn jumped_to(op: JumpOp, target: u32) -> Option<u32>
    ensures { result ≡ spec.jumped_to op target }
{
    match op {
        JumpOp::J => Some(target),
        JumpOp::Jal => None,
    }
}

fn is_taken_branch(op: BranchOp, a: u32, b: u32) -> bool
    ensures { result ≡ compare_result (branch_condition op) a b }
{
    match op {
        BranchOp::Beq | BranchOp::Beql => compare(Comparison::Equal, a, b),
        BranchOp::Bne | BranchOp::Bnel => compare(Comparison::NotEqual, a, b),
    }
}

fn is_taken_with_zero(op: BranchZeroOp, a: u32) -> bool
    ensures { result ≡ compare_result (zero_condition op) a 0 }
{
    match op {
        BranchZeroOp::Bltz | BranchZeroOp::Bltzl | BranchZeroOp::Bltzal | BranchZeroOp::Bltzall =>
            compare(Comparison::Less, a, 0),
        BranchZeroOp::Bgez | BranchZeroOp::Bgezl | BranchZeroOp::Bgezal | BranchZeroOp::Bgezall =>
            compare(Comparison::AtLeast, a, 0),
        BranchZeroOp::Blez | BranchZeroOp::Blezl => compare(Comparison::AtMost, a, 0),
        BranchZeroOp::Bgtz | BranchZeroOp::Bgtzl => compare(Comparison::Greater, a, 0),
    }
}

/// Whether a branch writes register 31.
fn is_linking(op: BranchZeroOp) -> bool
    ensures { result ≡ links op }
{
    match op {
        BranchZeroOp::Bltzal
        | BranchZeroOp::Bgezal
        | BranchZeroOp::Bltzall
        | BranchZeroOp::Bgezall => true,
        BranchZeroOp::Bltz
        | BranchZeroOp::Bgez
        | BranchZeroOp::Bltzl
        | BranchZeroOp::Bgezl
        | BranchZeroOp::Blez
        | BranchZeroOp::Bgtz
        | BranchZeroOp::Blezl
        | BranchZeroOp::Bgtzl => false,
    }
}

/// Whether no interrupt comes: none is taken with the timer's interrupt as it stands, and none if it is pending.
fn is_quiet(view: View<'_>) -> bool
    ensures { result ≡ spec.is_quiet (device_lines view.entry.devices.now) view.entry.cpu.now.cp0 }
{
    let cp0 = view.cpu.cp0();
    let lines = view.devices.lines();
    let status = Status(cp0.status());
    let cause = Cause(cp0.cause());
    let mut timed = cause;
    timed.insert(Cause::IP7);
    !takes(status, cause, lines) && !takes(status, timed, lines)
}

/// Whether an interrupt is taken with this Status and this Cause while these lines are raised.
fn takes(status: Status, cause: Cause, lines: u8) -> bool
    ensures { result ≡ is_taken lines status.0 cause.0 }
{
    let pending = status.0 & cause.shown(lines).0 & Cause::IP.0;
    status.contains(Status::IE)
        && !status.contains(Status::EXL)
        && !status.contains(Status::ERL)
        && pending != 0
}
