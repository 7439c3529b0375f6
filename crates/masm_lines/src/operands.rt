//! Instructions with the operands that are written.
ghost use Rattle.std.specs.Prelude.{◌≡◌, IsTrue, Ok, option_map};
ghost use Rattle.masm_lines.specs.Instructions as spec;
ghost use Rattle.masm_lines.specs.Shapes.{has_half, has_code, has_destination, has_registers, has_target};
ghost use Rattle.masm_lines.specs.Views.{arguments_view, value_view};
ghost use Rattle.mips_instr.specs.declared.instr.Instr.TheVariants as instr;

use crate::AsmFault;
use crate::argument::Arguments;
use crate::range::{field_bits, half_bits, signed_half_bits};
use crate::written::Value;
use mips_instr::{
    CacheOp, CallCode, Cp0MoveOp, Hint, ImmediateOp, Instr, JumpTarget, Select, ShiftAmount,
    ShiftOp, SyncType, TrapCode, TrapOp, WaitCode,
};

/// An instruction with the operands that are written, each of which has its form, or the fault that a number is out of
/// its range. A target is left 0.
#[tactic(auto, unfolding(crate::specs::Instructions::with_operands))]
pub fn with_operands(blank: &Instr, written: &Arguments) -> Result<Instr, AsmFault>
    ensures { result ≡ spec.with_operands blank.now (arguments_view written.now) }
{
    match *blank {
        Instr::Shift { op, .. } => shift(op, written),
        Instr::Trap { op, .. } => trap(op, written),
        Instr::Immediate { op, .. } => immediate(op, written),
        Instr::Cache { op, .. } => cache(op, written),
        Instr::Cp0Move { op, .. } => cp0_move(op, written),
        Instr::TrapImmediate { .. }
        | Instr::LoadUpper { .. }
        | Instr::Load { .. }
        | Instr::Store { .. } => with_half(*blank, written),
        Instr::Syscall { .. } | Instr::Break { .. } | Instr::Sync { .. } | Instr::Wait { .. } =>
            with_code(*blank, written),
        Instr::MoveFrom { .. }
        | Instr::MoveTo { .. }
        | Instr::Multiply { .. }
        | Instr::Divide { .. }
        | Instr::JumpRegister { .. }
        | Instr::JumpLinkRegister { .. } => Ok(with_registers(*blank, written)),
        Instr::Branch { .. } | Instr::BranchZero { .. } | Instr::Jump { .. } => {
            Ok(without_target(*blank, written))
        }
        Instr::ThreeRegister { .. }
        | Instr::ConditionalMove { .. }
        | Instr::ShiftVariable { .. }
        | Instr::Count { .. }
        | Instr::Tlb { .. }
        | Instr::Eret
        | Instr::Coprocessor { .. } => Ok(with_destination(*blank, written)),
    }
}

#[tactic(auto, unfolding(crate::specs::Instructions::with_operands))]
fn shift(op: ShiftOp, written: &Arguments) -> Result<Instr, AsmFault>
    ensures { result ≡ spec.with_operands (instr.Shift op 0 0 0) (arguments_view written.now) }
{
    let sa = field_bits(31, written.number(2))?;
    Ok(Instr::Shift {
        op,
        rd: written.register(0),
        rt: written.register(1),
        sa: ShiftAmount::new(sa),
    })
}

#[tactic(auto, unfolding(crate::specs::Instructions::with_operands))]
fn trap(op: TrapOp, written: &Arguments) -> Result<Instr, AsmFault>
    ensures { result ≡ spec.with_operands (instr.Trap op 0 0 0) (arguments_view written.now) }
{
    let code = field_bits(1023, written.number(2))?;
    Ok(Instr::Trap {
        op,
        rs: written.register(0),
        rt: written.register(1),
        code: TrapCode::new(code),
    })
}

fn immediate_bits(op: ImmediateOp, written: &Arguments) -> Result<u16, AsmFault>
    ensures { result ≡ spec.immediate_bits op (arguments_view written.now) }
{
    match op {
        ImmediateOp::Addi | ImmediateOp::Addiu | ImmediateOp::Slti | ImmediateOp::Sltiu => {
            signed_half_bits(written.number(2))
        }
        ImmediateOp::Andi | ImmediateOp::Ori | ImmediateOp::Xori => half_bits(written.number(2)),
    }
}

#[tactic(auto, unfolding(crate::specs::Instructions::with_operands))]
fn immediate(op: ImmediateOp, written: &Arguments) -> Result<Instr, AsmFault>
    ensures { result ≡ spec.with_operands (instr.Immediate op 0 0 0) (arguments_view written.now) }
{
    let imm = immediate_bits(op, written)?;
    Ok(Instr::Immediate {
        op,
        rt: written.register(0),
        rs: written.register(1),
        imm,
    })
}

#[tactic(auto, unfolding(crate::specs::Instructions::with_operands))]
fn cache(op: CacheOp, written: &Arguments) -> Result<Instr, AsmFault>
    ensures { result ≡ spec.with_operands (instr.Cache op 0 0 0) (arguments_view written.now) }
{
    let hint = field_bits(31, written.number(0))?;
    let offset = signed_half_bits(written.number(1))?;
    Ok(Instr::Cache {
        op,
        hint: Hint::new(hint),
        base: written.register(1),
        offset,
    })
}

#[tactic(auto, unfolding(crate::specs::Instructions::with_operands))]
fn cp0_move(op: Cp0MoveOp, written: &Arguments) -> Result<Instr, AsmFault>
    ensures { result ≡ spec.with_operands (instr.Cp0Move op 0 0 0) (arguments_view written.now) }
{
    let select = field_bits(7, written.number(2))?;
    Ok(Instr::Cp0Move {
        op,
        rt: written.register(0),
        rd: written.register(1),
        select: Select::new(select),
    })
}

/// An instruction whose last operand is a half-word, or an offset with its base.
#[tactic(auto, unfolding(crate::specs::Instructions::with_operands))]
fn with_half(blank: Instr, written: &Arguments) -> Result<Instr, AsmFault>
    ensures { IsTrue (has_half blank) → result ≡ spec.with_operands blank (arguments_view written.now) }
{
    let first = written.register(0);
    let number = written.number(1);
    match blank {
        Instr::TrapImmediate { op, .. } => {
            let imm = signed_half_bits(number)?;
            Ok(Instr::TrapImmediate { op, rs: first, imm })
        }
        Instr::LoadUpper { .. } => Ok(Instr::LoadUpper {
            rt: first,
            imm: half_bits(number)?,
        }),
        Instr::Load { op, .. } => {
            let offset = signed_half_bits(number)?;
            Ok(Instr::Load {
                op,
                rt: first,
                base: written.register(1),
                offset,
            })
        }
        Instr::Store { op, .. } => {
            let offset = signed_half_bits(number)?;
            Ok(Instr::Store {
                op,
                rt: first,
                base: written.register(1),
                offset,
            })
        }
        other => Ok(other),
    }
}

/// An instruction whose one operand is a code.
#[tactic(auto, unfolding(crate::specs::Instructions::with_operands))]
fn with_code(blank: Instr, written: &Arguments) -> Result<Instr, AsmFault>
    ensures { IsTrue (has_code blank) → result ≡ spec.with_operands blank (arguments_view written.now) }
{
    let number = written.number(0);
    match blank {
        Instr::Syscall { .. } => {
            let code = CallCode::new(field_bits(0xf_ffff, number)?);
            Ok(Instr::Syscall { code })
        }
        Instr::Break { .. } => {
            let code = CallCode::new(field_bits(0xf_ffff, number)?);
            Ok(Instr::Break { code })
        }
        Instr::Sync { .. } => Ok(Instr::Sync {
            stype: SyncType::new(field_bits(31, number)?),
        }),
        Instr::Wait { .. } => {
            let code = WaitCode::new(field_bits(0x7_ffff, number)?);
            Ok(Instr::Wait { code })
        }
        other => Ok(other),
    }
}

/// An instruction with a destination and one or two sources, all of them registers; others as they are.
#[tactic(auto, unfolding(crate::specs::Instructions::with_operands))]
fn with_destination(blank: Instr, written: &Arguments) -> Instr
    ensures { IsTrue (has_destination blank) → Ok result ≡ spec.with_operands blank (arguments_view written.now) }
{
    let (first, second) = (written.register(0), written.register(1));
    let third = written.register(2);
    match blank {
        Instr::ThreeRegister { op, .. } => Instr::ThreeRegister {
            op,
            rd: first,
            rs: second,
            rt: third,
        },
        Instr::ConditionalMove { op, .. } => {
            Instr::ConditionalMove {
                op,
                rd: first,
                rs: second,
                rt: third,
            }
        }
        Instr::ShiftVariable { op, .. } => {
            Instr::ShiftVariable {
                op,
                rd: first,
                rt: second,
                rs: third,
            }
        }
        Instr::Count { op, .. } => Instr::Count {
            op,
            rd: first,
            rs: second,
        },
        other => other,
    }
}

/// An instruction with one or two registers.
#[tactic(auto, unfolding(crate::specs::Instructions::with_operands))]
fn with_registers(blank: Instr, written: &Arguments) -> Instr
    ensures { IsTrue (has_registers blank) → Ok result ≡ spec.with_operands blank (arguments_view written.now) }
{
    let (first, second) = (written.register(0), written.register(1));
    match blank {
        Instr::MoveFrom { op, .. } => Instr::MoveFrom { op, rd: first },
        Instr::MoveTo { op, .. } => Instr::MoveTo { op, rs: first },
        Instr::Multiply { op, .. } => Instr::Multiply {
            op,
            rs: first,
            rt: second,
        },
        Instr::Divide { op, .. } => Instr::Divide {
            op,
            rs: first,
            rt: second,
        },
        Instr::JumpRegister { .. } => Instr::JumpRegister { rs: first },
        Instr::JumpLinkRegister { .. } => Instr::JumpLinkRegister {
            rd: first,
            rs: second,
        },
        other => other,
    }
}

/// A branch or a jump with its registers; the target is left 0.
#[tactic(auto, unfolding(crate::specs::Instructions::with_operands))]
fn without_target(blank: Instr, written: &Arguments) -> Instr
    ensures { IsTrue (has_target blank) → Ok result ≡ spec.with_operands blank (arguments_view written.now) }
{
    let first = written.register(0);
    match blank {
        Instr::Branch { op, .. } => {
            Instr::Branch {
                op,
                rs: first,
                rt: written.register(1),
                offset: 0,
            }
        }
        Instr::BranchZero { op, .. } => Instr::BranchZero {
            op,
            rs: first,
            offset: 0,
        },
        Instr::Jump { op, .. } => Instr::Jump {
            op,
            target: JumpTarget::new(0),
        },
        other => other,
    }
}

/// Where a branch or a jump leads, as it is written. The other instructions have no target.
pub fn written_target<'a>(blank: &Instr, written: &Arguments<'a>) -> Option<Value<'a>>
    ensures { option_map value_view result ≡ spec.written_target blank.now (arguments_view written.now) }
{
    match *blank {
        Instr::Branch { .. } => Some(written.value(2)),
        Instr::BranchZero { .. } => Some(written.value(1)),
        Instr::Jump { .. } => Some(written.value(0)),
        _ => None,
    }
}
