//! The instruction of a name. The names are those by which the instructions are printed.
ghost use Rattle.std.specs.Prelude.{◌≡◌, bytes_eq};
ghost use Rattle.masm_names.specs.Mnemonics as spec;

use mips_instr::{
    BranchOp, BranchZeroOp, CacheOp, CallCode, ConditionalMoveOp, CountOp, Cp0MoveOp, DivideOp,
    Hint, ImmediateOp, Instr, JumpOp, JumpTarget, LoadOp, MoveFromOp, MoveToOp, MultiplyOp, Reg,
    Select, ShiftAmount, ShiftOp, ShiftVariableOp, StoreOp, SyncType, ThreeRegisterOp, TlbOp,
    TrapCode, TrapImmediateOp, TrapOp, WaitCode,
};

/// The first of some operations that has a name.
macro_rules! first_named {
    ($name:expr; $($op:expr),+) => {{
        $(
            if is_mnemonic($op.mnemonic(), $name) {
                return Some($op);
            }
        )+
        None
    }};
}

/// Whether a mnemonic is this name.
fn is_mnemonic(mnemonic: &str, name: &[u8]) -> bool
    ensures { result ≡ bytes_eq mnemonic.now name.now }
{
    mnemonic.as_bytes() == name
}

#[tactic(auto, unfolding(crate::specs::Mnemonics::named_register))]
fn named_register(name: &[u8]) -> Option<ThreeRegisterOp>
    ensures { result ≡ spec.named_register name.now }
{
    use ThreeRegisterOp::*;
    first_named!(name; Add, Addu, Sub, Subu, And, Or, Xor, Nor, Slt, Sltu, Mul)
}

#[tactic(auto, unfolding(crate::specs::Mnemonics::named_conditional_move))]
fn named_conditional_move(name: &[u8]) -> Option<ConditionalMoveOp>
    ensures { result ≡ spec.named_conditional_move name.now }
{
    use ConditionalMoveOp::*;
    first_named!(name; Movz, Movn)
}

#[tactic(auto, unfolding(crate::specs::Mnemonics::named_shift))]
fn named_shift(name: &[u8]) -> Option<ShiftOp>
    ensures { result ≡ spec.named_shift name.now }
{
    use ShiftOp::*;
    first_named!(name; Sll, Srl, Sra)
}

#[tactic(auto, unfolding(crate::specs::Mnemonics::named_shift_variable))]
fn named_shift_variable(name: &[u8]) -> Option<ShiftVariableOp>
    ensures { result ≡ spec.named_shift_variable name.now }
{
    use ShiftVariableOp::*;
    first_named!(name; Sllv, Srlv, Srav)
}

#[tactic(auto, unfolding(crate::specs::Mnemonics::named_count))]
fn named_count(name: &[u8]) -> Option<CountOp>
    ensures { result ≡ spec.named_count name.now }
{
    use CountOp::*;
    first_named!(name; Clz, Clo)
}

#[tactic(auto, unfolding(crate::specs::Mnemonics::named_move_from))]
fn named_move_from(name: &[u8]) -> Option<MoveFromOp>
    ensures { result ≡ spec.named_move_from name.now }
{
    use MoveFromOp::*;
    first_named!(name; Mfhi, Mflo)
}

#[tactic(auto, unfolding(crate::specs::Mnemonics::named_move_to))]
fn named_move_to(name: &[u8]) -> Option<MoveToOp>
    ensures { result ≡ spec.named_move_to name.now }
{
    use MoveToOp::*;
    first_named!(name; Mthi, Mtlo)
}

#[tactic(auto, unfolding(crate::specs::Mnemonics::named_multiply))]
fn named_multiply(name: &[u8]) -> Option<MultiplyOp>
    ensures { result ≡ spec.named_multiply name.now }
{
    use MultiplyOp::*;
    first_named!(name; Mult, Multu, Madd, Maddu, Msub, Msubu)
}

#[tactic(auto, unfolding(crate::specs::Mnemonics::named_divide))]
fn named_divide(name: &[u8]) -> Option<DivideOp>
    ensures { result ≡ spec.named_divide name.now }
{
    use DivideOp::*;
    first_named!(name; Div, Divu)
}

#[tactic(auto, unfolding(crate::specs::Mnemonics::named_immediate))]
fn named_immediate(name: &[u8]) -> Option<ImmediateOp>
    ensures { result ≡ spec.named_immediate name.now }
{
    use ImmediateOp::*;
    first_named!(name; Addi, Addiu, Slti, Sltiu, Andi, Ori, Xori)
}

#[tactic(auto, unfolding(crate::specs::Mnemonics::named_load))]
fn named_load(name: &[u8]) -> Option<LoadOp>
    ensures { result ≡ spec.named_load name.now }
{
    use LoadOp::*;
    first_named!(name; Lb, Lh, Lwl, Lw, Lbu, Lhu, Lwr, Ll)
}

#[tactic(auto, unfolding(crate::specs::Mnemonics::named_store))]
fn named_store(name: &[u8]) -> Option<StoreOp>
    ensures { result ≡ spec.named_store name.now }
{
    use StoreOp::*;
    first_named!(name; Sb, Sh, Swl, Sw, Swr, Sc)
}

#[tactic(auto, unfolding(crate::specs::Mnemonics::named_cache))]
fn named_cache(name: &[u8]) -> Option<CacheOp>
    ensures { result ≡ spec.named_cache name.now }
{
    use CacheOp::*;
    first_named!(name; Cache, Pref)
}

#[tactic(auto, unfolding(crate::specs::Mnemonics::named_branch))]
fn named_branch(name: &[u8]) -> Option<BranchOp>
    ensures { result ≡ spec.named_branch name.now }
{
    use BranchOp::*;
    first_named!(name; Beq, Bne, Beql, Bnel)
}

#[tactic(auto, unfolding(crate::specs::Mnemonics::named_branch_zero))]
fn named_branch_zero(name: &[u8]) -> Option<BranchZeroOp>
    ensures { result ≡ spec.named_branch_zero name.now }
{
    use BranchZeroOp::*;
    first_named!(name; Bltz, Bgez, Bltzl, Bgezl, Bltzal, Bgezal, Bltzall, Bgezall, Blez, Bgtz, Blezl, Bgtzl)
}

#[tactic(auto, unfolding(crate::specs::Mnemonics::named_jump))]
fn named_jump(name: &[u8]) -> Option<JumpOp>
    ensures { result ≡ spec.named_jump name.now }
{
    use JumpOp::*;
    first_named!(name; J, Jal)
}

#[tactic(auto, unfolding(crate::specs::Mnemonics::named_trap))]
fn named_trap(name: &[u8]) -> Option<TrapOp>
    ensures { result ≡ spec.named_trap name.now }
{
    use TrapOp::*;
    first_named!(name; Tge, Tgeu, Tlt, Tltu, Teq, Tne)
}

#[tactic(auto, unfolding(crate::specs::Mnemonics::named_trap_immediate))]
fn named_trap_immediate(name: &[u8]) -> Option<TrapImmediateOp>
    ensures { result ≡ spec.named_trap_immediate name.now }
{
    use TrapImmediateOp::*;
    first_named!(name; Tgei, Tgeiu, Tlti, Tltiu, Teqi, Tnei)
}

#[tactic(auto, unfolding(crate::specs::Mnemonics::named_cp0_move))]
fn named_cp0_move(name: &[u8]) -> Option<Cp0MoveOp>
    ensures { result ≡ spec.named_cp0_move name.now }
{
    use Cp0MoveOp::*;
    first_named!(name; Mfc0, Mtc0)
}

#[tactic(auto, unfolding(crate::specs::Mnemonics::named_tlb))]
fn named_tlb(name: &[u8]) -> Option<TlbOp>
    ensures { result ≡ spec.named_tlb name.now }
{
    use TlbOp::*;
    first_named!(name; Tlbr, Tlbwi, Tlbwr, Tlbp)
}

/// An operation on general registers, by its name.
#[tactic(auto, unfolding(crate::specs::Mnemonics::arithmetic_named))]
fn arithmetic_named(name: &[u8]) -> Option<Instr>
    ensures { result ≡ spec.arithmetic_named name.now }
{
    let zero = Reg::new(0);
    if let Some(op) = named_register(name) {
        return Some(Instr::ThreeRegister {
            op,
            rd: zero,
            rs: zero,
            rt: zero,
        });
    }
    if let Some(op) = named_conditional_move(name) {
        return Some(Instr::ConditionalMove {
            op,
            rd: zero,
            rs: zero,
            rt: zero,
        });
    }
    if let Some(op) = named_shift(name) {
        return Some(Instr::Shift {
            op,
            rd: zero,
            rt: zero,
            sa: ShiftAmount::new(0),
        });
    }
    if let Some(op) = named_shift_variable(name) {
        return Some(Instr::ShiftVariable {
            op,
            rd: zero,
            rt: zero,
            rs: zero,
        });
    }
    if let Some(op) = named_count(name) {
        return Some(Instr::Count {
            op,
            rd: zero,
            rs: zero,
        });
    }
    None
}

/// An operation with HI and LO, by its name.
#[tactic(auto, unfolding(crate::specs::Mnemonics::hi_lo_named))]
fn hi_lo_named(name: &[u8]) -> Option<Instr>
    ensures { result ≡ spec.hi_lo_named name.now }
{
    let zero = Reg::new(0);
    if let Some(op) = named_move_from(name) {
        return Some(Instr::MoveFrom { op, rd: zero });
    }
    if let Some(op) = named_move_to(name) {
        return Some(Instr::MoveTo { op, rs: zero });
    }
    if let Some(op) = named_multiply(name) {
        return Some(Instr::Multiply {
            op,
            rs: zero,
            rt: zero,
        });
    }
    if let Some(op) = named_divide(name) {
        return Some(Instr::Divide {
            op,
            rs: zero,
            rt: zero,
        });
    }
    None
}

/// An operation with an immediate or an offset, by its name.
#[tactic(auto, unfolding(crate::specs::Mnemonics::memory_named))]
fn memory_named(name: &[u8]) -> Option<Instr>
    ensures { result ≡ spec.memory_named name.now }
{
    let zero = Reg::new(0);
    if let Some(op) = named_immediate(name) {
        return Some(Instr::Immediate {
            op,
            rt: zero,
            rs: zero,
            imm: 0,
        });
    }
    if let Some(op) = named_load(name) {
        return Some(Instr::Load {
            op,
            rt: zero,
            base: zero,
            offset: 0,
        });
    }
    if let Some(op) = named_store(name) {
        return Some(Instr::Store {
            op,
            rt: zero,
            base: zero,
            offset: 0,
        });
    }
    if let Some(op) = named_cache(name) {
        return Some(Instr::Cache {
            op,
            hint: Hint::new(0),
            base: zero,
            offset: 0,
        });
    }
    None
}

/// A branch, a jump or a trap, by its name.
#[tactic(auto, unfolding(crate::specs::Mnemonics::control_named))]
fn control_named(name: &[u8]) -> Option<Instr>
    ensures { result ≡ spec.control_named name.now }
{
    let zero = Reg::new(0);
    if let Some(op) = named_branch(name) {
        return Some(Instr::Branch {
            op,
            rs: zero,
            rt: zero,
            offset: 0,
        });
    }
    if let Some(op) = named_branch_zero(name) {
        return Some(Instr::BranchZero {
            op,
            rs: zero,
            offset: 0,
        });
    }
    if let Some(op) = named_jump(name) {
        return Some(Instr::Jump {
            op,
            target: JumpTarget::new(0),
        });
    }
    if let Some(op) = named_trap(name) {
        return Some(Instr::Trap {
            op,
            rs: zero,
            rt: zero,
            code: TrapCode::new(0),
        });
    }
    if let Some(op) = named_trap_immediate(name) {
        return Some(Instr::TrapImmediate {
            op,
            rs: zero,
            imm: 0,
        });
    }
    None
}

/// An operation on coprocessor 0, by its name.
#[tactic(auto, unfolding(crate::specs::Mnemonics::system_named))]
fn system_named(name: &[u8]) -> Option<Instr>
    ensures { result ≡ spec.system_named name.now }
{
    let zero = Reg::new(0);
    if let Some(op) = named_cp0_move(name) {
        return Some(Instr::Cp0Move {
            op,
            rt: zero,
            rd: zero,
            select: Select::new(0),
        });
    }
    if let Some(op) = named_tlb(name) {
        return Some(Instr::Tlb { op });
    }
    None
}

/// An instruction whose name no other shares a shape with.
#[tactic(auto, unfolding(crate::specs::Mnemonics::single_named))]
fn single_named(name: &[u8]) -> Option<Instr>
    ensures { result ≡ spec.single_named name.now }
{
    let zero = Reg::new(0);
    if is_mnemonic("syscall", name) {
        Some(Instr::Syscall {
            code: CallCode::new(0),
        })
    } else if is_mnemonic("break", name) {
        Some(Instr::Break {
            code: CallCode::new(0),
        })
    } else if is_mnemonic("sync", name) {
        Some(Instr::Sync {
            stype: SyncType::new(0),
        })
    } else if is_mnemonic("jr", name) {
        Some(Instr::JumpRegister { rs: zero })
    } else if is_mnemonic("jalr", name) {
        Some(Instr::JumpLinkRegister { rd: zero, rs: zero })
    } else if is_mnemonic("lui", name) {
        Some(Instr::LoadUpper { rt: zero, imm: 0 })
    } else if is_mnemonic("eret", name) {
        Some(Instr::Eret)
    } else if is_mnemonic("wait", name) {
        Some(Instr::Wait {
            code: WaitCode::new(0),
        })
    } else {
        None
    }
}

/// The instruction of a name, with all operands 0.
#[tactic(auto, unfolding(crate::specs::Mnemonics::named_instruction))]
pub fn named_instruction(name: &[u8]) -> Option<Instr>
    ensures { result ≡ spec.named_instruction name.now }
{
    if let Some(instr) = arithmetic_named(name) {
        Some(instr)
    } else if let Some(instr) = memory_named(name) {
        Some(instr)
    } else if let Some(instr) = control_named(name) {
        Some(instr)
    } else if let Some(instr) = hi_lo_named(name) {
        Some(instr)
    } else if let Some(instr) = system_named(name) {
        Some(instr)
    } else {
        single_named(name)
    }
}
