//! The operation of the arithmetic unit that each instruction uses.
ghost use Rattle.std.specs.Prelude.{◌≡◌};
ghost use Rattle.machine.specs.Meaning.{register_result, immediate_result, shifted, shifted_by, moves, multiplied, divided};
ghost use Rattle.machine.specs.Meaning.{counted, trap_condition, trap_immediate_condition, branch_condition, zero_condition};
ghost use Rattle.machine.specs.Meaning.{is_likely, is_likely_zero, links};

use crate::sign::extended;
use mips_alu::{
    Accumulation, ArithOp, Comparison, HiLo, LeadingBits, ShiftKind, Signedness, arith, compare,
    count_leading, divide, multiply, shift,
};
use mips_instr::{
    BranchOp, BranchZeroOp, ConditionalMoveOp, CountOp, DivideOp, ImmediateOp, MultiplyOp,
    ShiftAmount, ShiftOp, ShiftVariableOp, ThreeRegisterOp, TrapImmediateOp, TrapOp,
};

#[inline(always)]
pub fn register_value(op: ThreeRegisterOp, a: u32, b: u32) -> Option<u32>
    ensures { result ≡ register_result op a b }
{
    match op {
        ThreeRegisterOp::Add => arith(ArithOp::Add, a, b),
        ThreeRegisterOp::Addu => arith(ArithOp::Addu, a, b),
        ThreeRegisterOp::Sub => arith(ArithOp::Sub, a, b),
        ThreeRegisterOp::Subu => arith(ArithOp::Subu, a, b),
        ThreeRegisterOp::And => arith(ArithOp::And, a, b),
        ThreeRegisterOp::Or => arith(ArithOp::Or, a, b),
        ThreeRegisterOp::Xor => arith(ArithOp::Xor, a, b),
        ThreeRegisterOp::Nor => arith(ArithOp::Nor, a, b),
        ThreeRegisterOp::Slt => arith(ArithOp::Slt, a, b),
        ThreeRegisterOp::Sltu => arith(ArithOp::Sltu, a, b),
        ThreeRegisterOp::Mul => arith(ArithOp::Mul, a, b),
    }
}

#[inline(always)]
pub fn immediate_value(op: ImmediateOp, a: u32, imm: u16) -> Option<u32>
    ensures { result ≡ immediate_result op a imm }
{
    match op {
        ImmediateOp::Addi => arith(ArithOp::Add, a, extended(imm)),
        ImmediateOp::Addiu => arith(ArithOp::Addu, a, extended(imm)),
        ImmediateOp::Slti => arith(ArithOp::Slt, a, extended(imm)),
        ImmediateOp::Sltiu => arith(ArithOp::Sltu, a, extended(imm)),
        ImmediateOp::Andi => arith(ArithOp::And, a, u32::from(imm)),
        ImmediateOp::Ori => arith(ArithOp::Or, a, u32::from(imm)),
        ImmediateOp::Xori => arith(ArithOp::Xor, a, u32::from(imm)),
    }
}

#[inline(always)]
pub fn shift_value(op: ShiftOp, word: u32, amount: ShiftAmount) -> u32
    ensures { result ≡ shifted op word amount }
{
    match op {
        ShiftOp::Sll => shift(ShiftKind::LeftLogical, word, amount.bits()),
        ShiftOp::Srl => shift(ShiftKind::RightLogical, word, amount.bits()),
        ShiftOp::Sra => shift(ShiftKind::RightArithmetic, word, amount.bits()),
    }
}

#[inline(always)]
pub fn shift_value_by(op: ShiftVariableOp, word: u32, a: u32) -> u32
    ensures { result ≡ shifted_by op word a }
{
    match op {
        ShiftVariableOp::Sllv => shift(ShiftKind::LeftLogical, word, a % 32),
        ShiftVariableOp::Srlv => shift(ShiftKind::RightLogical, word, a % 32),
        ShiftVariableOp::Srav => shift(ShiftKind::RightArithmetic, word, a % 32),
    }
}

pub fn is_moved(op: ConditionalMoveOp, b: u32) -> bool
    ensures { result ≡ moves op b }
{
    match op {
        ConditionalMoveOp::Movz => compare(Comparison::Equal, b, 0),
        ConditionalMoveOp::Movn => compare(Comparison::NotEqual, b, 0),
    }
}

pub fn multiply_value(op: MultiplyOp, a: u32, b: u32, old: HiLo) -> HiLo
    ensures { result ≡ multiplied op a b old }
{
    match op {
        MultiplyOp::Mult => multiply(Signedness::Signed, Accumulation::Set, a, b, old),
        MultiplyOp::Multu => multiply(Signedness::Unsigned, Accumulation::Set, a, b, old),
        MultiplyOp::Madd => multiply(Signedness::Signed, Accumulation::Add, a, b, old),
        MultiplyOp::Maddu => multiply(Signedness::Unsigned, Accumulation::Add, a, b, old),
        MultiplyOp::Msub => multiply(Signedness::Signed, Accumulation::Subtract, a, b, old),
        MultiplyOp::Msubu => multiply(Signedness::Unsigned, Accumulation::Subtract, a, b, old),
    }
}

pub fn divide_value(op: DivideOp, a: u32, b: u32) -> HiLo
    ensures { result ≡ divided op a b }
{
    match op {
        DivideOp::Div => divide(Signedness::Signed, a, b),
        DivideOp::Divu => divide(Signedness::Unsigned, a, b),
    }
}

pub fn count_value(op: CountOp, a: u32) -> u32
    ensures { result ≡ counted op a }
{
    match op {
        CountOp::Clz => count_leading(LeadingBits::Zeros, a),
        CountOp::Clo => count_leading(LeadingBits::Ones, a),
    }
}

pub fn condition_of_trap(op: TrapOp) -> Comparison
    ensures { result ≡ trap_condition op }
{
    match op {
        TrapOp::Tge => Comparison::AtLeast,
        TrapOp::Tgeu => Comparison::AtLeastUnsigned,
        TrapOp::Tlt => Comparison::Less,
        TrapOp::Tltu => Comparison::LessUnsigned,
        TrapOp::Teq => Comparison::Equal,
        TrapOp::Tne => Comparison::NotEqual,
    }
}

pub fn condition_of_trap_immediate(op: TrapImmediateOp) -> Comparison
    ensures { result ≡ trap_immediate_condition op }
{
    match op {
        TrapImmediateOp::Tgei => Comparison::AtLeast,
        TrapImmediateOp::Tgeiu => Comparison::AtLeastUnsigned,
        TrapImmediateOp::Tlti => Comparison::Less,
        TrapImmediateOp::Tltiu => Comparison::LessUnsigned,
        TrapImmediateOp::Teqi => Comparison::Equal,
        TrapImmediateOp::Tnei => Comparison::NotEqual,
    }
}

#[inline(always)]
pub fn condition_of_branch(op: BranchOp) -> Comparison
    ensures { result ≡ branch_condition op }
{
    match op {
        BranchOp::Beq | BranchOp::Beql => Comparison::Equal,
        BranchOp::Bne | BranchOp::Bnel => Comparison::NotEqual,
    }
}

#[inline(always)]
pub fn condition_with_zero(op: BranchZeroOp) -> Comparison
    ensures { result ≡ zero_condition op }
{
    match op {
        BranchZeroOp::Bltz | BranchZeroOp::Bltzl | BranchZeroOp::Bltzal | BranchZeroOp::Bltzall =>
            Comparison::Less,
        BranchZeroOp::Bgez | BranchZeroOp::Bgezl | BranchZeroOp::Bgezal | BranchZeroOp::Bgezall =>
            Comparison::AtLeast,
        BranchZeroOp::Blez | BranchZeroOp::Blezl => Comparison::AtMost,
        BranchZeroOp::Bgtz | BranchZeroOp::Bgtzl => Comparison::Greater,
    }
}

#[inline(always)]
pub fn is_likely_branch(op: BranchOp) -> bool
    ensures { result ≡ is_likely op }
{
    match op {
        BranchOp::Beq | BranchOp::Bne => false,
        BranchOp::Beql | BranchOp::Bnel => true,
    }
}

#[inline(always)]
pub fn is_likely_with_zero(op: BranchZeroOp) -> bool
    ensures { result ≡ is_likely_zero op }
{
    match op {
        BranchZeroOp::Bltzl
        | BranchZeroOp::Bgezl
        | BranchZeroOp::Bltzall
        | BranchZeroOp::Bgezall
        | BranchZeroOp::Blezl
        | BranchZeroOp::Bgtzl => true,
        BranchZeroOp::Bltz
        | BranchZeroOp::Bgez
        | BranchZeroOp::Bltzal
        | BranchZeroOp::Bgezal
        | BranchZeroOp::Blez
        | BranchZeroOp::Bgtz => false,
    }
}

#[inline(always)]
pub fn is_linking(op: BranchZeroOp) -> bool
    ensures { result ≡ links op }
{
    match op {
        BranchZeroOp::Bltzal
        | BranchZeroOp::Bgezal
        | BranchZeroOp::Bltzall
        | BranchZeroOp::Bgezall => true,
        BranchZeroOp::Bltz
        | BranchZeroOp::Bgez
        | BranchZeroOp::Bltzl
        | BranchZeroOp::Bgezl
        | BranchZeroOp::Blez
        | BranchZeroOp::Bgtz
        | BranchZeroOp::Blezl
        | BranchZeroOp::Bgtzl => false,
    }
}
