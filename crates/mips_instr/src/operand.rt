//! The operands of the instructions.
ghost use Rattle.std.specs.Prelude.{◌≡◌, ◌<◌, ◌^◌, pos};
ghost use Rattle.mips_instr.specs.Operands.{operands, immediate_operand, signed_half};
ghost use Rattle.mips_instr.specs.declared.operand.Operand.TheVariants.{Number, Based};

use crate::target::{branch_target_of, jump_target_of};
use crate::{ImmediateOp, Instr, Reg};
use std::fmt;

/// An operand as it is written.
#[derive(Clone, Copy, PartialEq, Eq)]
pub enum Operand {
    /// `$` and the number of a register.
    Register(Reg),
    /// A decimal number.
    Number(i32),
    /// `0x` and four hexadecimal digits.
    Half(u16),
    /// `0x` and eight hexadecimal digits.
    Word(u32),
    /// An offset and a base register in parentheses.
    Based(i16, Reg),
}

/// The operands of an instruction, in the order in which they are written.
#[derive(Clone, Copy, PartialEq, Eq)]
pub enum Operands {
    None,
    One(Operand),
    Two(Operand, Operand),
    Three(Operand, Operand, Operand),
}

/// A field of at most 26 bits as a number.
fn number(bits: u32) -> Operand
    requires { bits < 2 ^ 26 }
    ensures { result ≡ Number (pos bits) }
{
    Operand::Number(bits as i32)
}

/// A signed half-word as a number.
fn signed(half: u16) -> Operand
    ensures { result ≡ Number (signed_half half) }
{
    Operand::Number(i32::from(half.cast_signed()))
}

/// A signed offset from a base register.
fn based(offset: u16, base: Reg) -> Operand
    ensures { result ≡ Based (signed_half offset) base }
{
    Operand::Based(offset.cast_signed(), base)
}

fn immediate(op: ImmediateOp, imm: u16) -> Operand
    ensures { result ≡ immediate_operand op imm }
{
    match op {
        ImmediateOp::Addi | ImmediateOp::Addiu | ImmediateOp::Slti | ImmediateOp::Sltiu => signed(
            imm,
        ),
        ImmediateOp::Andi | ImmediateOp::Ori | ImmediateOp::Xori => Operand::Half(imm),
    }
}

/// The operands of an instruction that stands at an address.
pub fn operands_of(instr: Instr, address: u32) -> Operands
    ensures { result ≡ operands instr address }
{
    use Operand::Register;
    match instr {
        Instr::ThreeRegister { rd, rs, rt, .. } | Instr::ConditionalMove { rd, rs, rt, .. } => {
            Operands::Three(Register(rd), Register(rs), Register(rt))
        }
        Instr::Shift { rd, rt, sa, .. } => Operands::Three(
            Register(rd),
            Register(rt),
            number(sa.bits()),
        ),
        Instr::ShiftVariable { rd, rt, rs, .. } => Operands::Three(
            Register(rd),
            Register(rt),
            Register(rs),
        ),
        Instr::MoveFrom { rd, .. } => Operands::One(Register(rd)),
        Instr::MoveTo { rs, .. } | Instr::JumpRegister { rs } => Operands::One(Register(rs)),
        Instr::Multiply { rs, rt, .. } | Instr::Divide { rs, rt, .. } => Operands::Two(
            Register(rs),
            Register(rt),
        ),
        Instr::Count { rd, rs, .. } | Instr::JumpLinkRegister { rd, rs } => Operands::Two(
            Register(rd),
            Register(rs),
        ),
        Instr::Trap { rs, rt, code, .. } => Operands::Three(
            Register(rs),
            Register(rt),
            number(code.bits()),
        ),
        Instr::TrapImmediate { rs, imm, .. } => Operands::Two(Register(rs), signed(imm)),
        Instr::Syscall { code } | Instr::Break { code } => Operands::One(number(code.bits())),
        Instr::Sync { stype } => Operands::One(number(stype.bits())),
        Instr::Wait { code } => Operands::One(number(code.bits())),
        Instr::Branch { rs, rt, offset, .. } => {
            Operands::Three(
                Register(rs),
                Register(rt),
                Operand::Word(branch_target_of(address, offset)),
            )
        }
        Instr::BranchZero { rs, offset, .. } => {
            Operands::Two(
                Register(rs),
                Operand::Word(branch_target_of(address, offset)),
            )
        }
        Instr::Jump { target, .. } => Operands::One(Operand::Word(jump_target_of(address, target))),
        Instr::Immediate { op, rt, rs, imm } => Operands::Three(
            Register(rt),
            Register(rs),
            immediate(op, imm),
        ),
        Instr::LoadUpper { rt, imm } => Operands::Two(Register(rt), Operand::Half(imm)),
        Instr::Load {
            rt,
            base,
            offset,
            ..
        }
        | Instr::Store {
            rt,
            base,
            offset,
            ..
        } => { Operands::Two(Register(rt), based(offset, base)) }
        Instr::Cache {
            hint,
            base,
            offset,
            ..
        } => Operands::Two(number(hint.bits()), based(offset, base)),
        Instr::Cp0Move { rt, rd, select, .. } => Operands::Three(
            Register(rt),
            Register(rd),
            number(select.bits()),
        ),
        Instr::Coprocessor { op, code } => Operands::One(Operand::Word(op.word(code))),
        Instr::Tlb { .. } | Instr::Eret => Operands::None,
    }
}

impl fmt::Display for Operand {
    ghost use Rattle.std.specs.Prelude.{Some};
    ghost use Rattle.mips_instr.specs.Operands.{operand_text};

    ghost output = { λ operand. Some (operand_text operand) };

    #[tactic(auto, using(crate::proofs::Hex::two_digits))]
    fn fmt<W: fmt::Write>(&self, f: &mut fmt::Formatter<W>) -> fmt::Result {
        match *self {
            Operand::Register(register) => {
                let number = register.number();
                write!(f, "${number}")
            }
            Operand::Number(number) => write!(f, "{number}"),
            Operand::Half(half) => {
                let (high, low) = (half >> 8, half % 0x100);
                write!(f, "0x{high:02x}{low:02x}")
            }
            Operand::Word(word) => {
                let (a, b) = (word >> 24, (word >> 16) % 0x100);
                let (c, d) = ((word >> 8) % 0x100, word % 0x100);
                write!(f, "0x{a:02x}{b:02x}{c:02x}{d:02x}")
            }
            Operand::Based(offset, base) => {
                let number = base.number();
                write!(f, "{offset}(${number})")
            }
        }
    }
}
