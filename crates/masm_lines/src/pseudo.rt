//! Instructions that are written under another name.
ghost use Rattle.std.specs.Prelude.{◌≡◌, bytes_eq};
ghost use Rattle.std.specs.Result.{result_map_both};
ghost use Rattle.masm_lines.specs.Pseudo as spec;
ghost use Rattle.mips_instr.specs.declared.instr.Instr.TheVariants as instr;
ghost use Rattle.mips_instr.specs.declared.instr.ShiftOp.TheVariants.{Sll};
ghost use Rattle.mips_instr.specs.declared.instr.ThreeRegisterOp.TheVariants.{Addu};
ghost use Rattle.masm_lines.specs.Views.{arguments_view, statement_view, written_view};

use crate::AsmFault;
use crate::argument::Arguments;
use crate::range::{half_bits, signed_half_bits, word_bits};
use crate::statement::Statement;
use crate::written::Written;
use mips_instr::{BranchOp, ImmediateOp, Instr, Reg, ShiftAmount, ShiftOp, ThreeRegisterOp};

/// A name that is no instruction's own.
#[derive(Clone, Copy)]
pub enum Pseudo {
    /// `nop`: the word 0.
    Nop,
    /// `move`: a register's value into another.
    Move,
    /// `b`: a branch that is always taken.
    Branch,
    /// `beqz`: a branch where a register is 0.
    BranchEqualZero,
    /// `bnez`: a branch where a register is not 0.
    BranchNotZero,
    /// `li`: a number into a register.
    LoadImmediate,
    /// `la`: an address into a register.
    LoadAddress,
}

impl Pseudo {
    fn name(self) -> &'static str
        ensures { result.now ≡ spec.pseudo_name self }
    {
        match self {
            Pseudo::Nop => "nop",
            Pseudo::Move => "move",
            Pseudo::Branch => "b",
            Pseudo::BranchEqualZero => "beqz",
            Pseudo::BranchNotZero => "bnez",
            Pseudo::LoadImmediate => "li",
            Pseudo::LoadAddress => "la",
        }
    }

    /// Whether this is its name.
    fn is_named(self, name: &[u8]) -> bool
        ensures { result ≡ bytes_eq (spec.pseudo_name self) name.now }
    {
        self.name().as_bytes() == name
    }
}

/// The first of some that has a name.
macro_rules! first_named {
    ($name:expr; $($pseudo:expr),+) => {{
        $(
            if $pseudo.is_named($name) {
                return Some($pseudo);
            }
        )+
        None
    }};
}

/// What a name that is no instruction's own stands for.
#[tactic(auto, unfolding(crate::specs::Pseudo::named_pseudo))]
pub fn named_pseudo(name: &[u8]) -> Option<Pseudo>
    ensures { result ≡ spec.named_pseudo name.now }
{
    use Pseudo::*;
    first_named!(name; Nop, Move, Branch, BranchEqualZero, BranchNotZero, LoadImmediate, LoadAddress)
}

/// The statement with the operands that are written, or its fault.
#[tactic(auto, unfolding(crate::specs::Pseudo::pseudo_statement))]
pub fn pseudo_statement<'a>(
    pseudo: Pseudo,
    written: &Arguments<'a>,
) -> Result<Statement<'a>, AsmFault>
    ensures { result_map_both statement_view (λ f. f) result ≡ spec.pseudo_statement pseudo (arguments_view written.now) }
{
    match (pseudo, written) {
        (Pseudo::Nop, Arguments::None) => Ok(Statement::Instruction(no_operation())),
        (Pseudo::Move, Arguments::Two(Written::Register(rd), Written::Register(rs))) => {
            Ok(Statement::Instruction(moved(*rd, *rs)))
        }
        (Pseudo::Branch, Arguments::One(target)) => {
            branch_to(branch(BranchOp::Beq, Reg::new(0)), target)
        }
        (Pseudo::BranchEqualZero, Arguments::Two(Written::Register(rs), target)) => {
            branch_to(branch(BranchOp::Beq, *rs), target)
        }
        (Pseudo::BranchNotZero, Arguments::Two(Written::Register(rs), target)) => {
            branch_to(branch(BranchOp::Bne, *rs), target)
        }
        (Pseudo::LoadImmediate, Arguments::Two(Written::Register(rt), Written::Number(number))) => {
            immediate_load(*rt, *number)
        }
        (Pseudo::LoadAddress, Arguments::Two(Written::Register(rt), Written::Number(number))) => {
            Ok(Statement::Load(*rt, *number))
        }
        (Pseudo::LoadAddress, Arguments::Two(Written::Register(rt), Written::Name(name))) => {
            Ok(Statement::LoadOf(*rt, name))
        }
        _ => Err(AsmFault::Operand),
    }
}

fn no_operation() -> Instr
    ensures { result ≡ instr.Shift Sll 0 0 0 }
{
    Instr::Shift {
        op: ShiftOp::Sll,
        rd: Reg::new(0),
        rt: Reg::new(0),
        sa: ShiftAmount::new(0),
    }
}

fn moved(rd: Reg, rs: Reg) -> Instr
    ensures { result ≡ instr.ThreeRegister Addu rd rs 0 }
{
    Instr::ThreeRegister {
        op: ThreeRegisterOp::Addu,
        rd,
        rs,
        rt: Reg::new(0),
    }
}

fn branch(op: BranchOp, rs: Reg) -> Instr
    ensures { result ≡ instr.Branch op rs 0 0 }
{
    Instr::Branch {
        op,
        rs,
        rt: Reg::new(0),
        offset: 0,
    }
}

/// A branch to an operand that is a number or a name.
fn branch_to<'a>(instr: Instr, target: &Written<'a>) -> Result<Statement<'a>, AsmFault>
    ensures { result_map_both statement_view (λ f. f) result ≡ spec.branch_to instr (written_view target.now) }
{
    match *target {
        Written::Number(number) => Ok(Statement::Transfer(instr, number)),
        Written::Name(name) => Ok(Statement::TransferTo(instr, name)),
        Written::Register(_) | Written::Based(_, _) => Err(AsmFault::Operand),
    }
}

/// A number in a register: one instruction where it is a half-word, with a sign or without, and else two.
fn immediate_load<'a>(rt: Reg, number: i64) -> Result<Statement<'a>, AsmFault>
    ensures { result_map_both statement_view (λ f. f) result ≡ spec.immediate_load rt number }
{
    if let Ok(imm) = signed_half_bits(number) {
        return Ok(Statement::Instruction(with_zero(ImmediateOp::Addiu, rt, imm)));
    }
    if let Ok(imm) = half_bits(number) {
        return Ok(Statement::Instruction(with_zero(ImmediateOp::Ori, rt, imm)));
    }
    match word_bits(number) {
        Ok(bits) => Ok(Statement::Load(rt, i64::from(bits))),
        Err(fault) => Err(fault),
    }
}

/// An operation on `$0` and a half-word.
fn with_zero(op: ImmediateOp, rt: Reg, imm: u16) -> Instr
    ensures { result ≡ instr.Immediate op rt 0 imm }
{
    Instr::Immediate {
        op,
        rt,
        rs: Reg::new(0),
        imm,
    }
}
