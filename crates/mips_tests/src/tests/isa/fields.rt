//! Instructions as data, since the types of their fields are made by calls, which a static table cannot make.
use super::build::*;
use mips_isa::*;

/// The fields of an instruction in the order of its text, a register by its number.
#[derive(Clone, Copy)]
pub enum Fields {
    ThreeRegister(ThreeRegisterOp, u32, u32, u32),
    ConditionalMove(ConditionalMoveOp, u32, u32, u32),
    Shift(ShiftOp, u32, u32, u32),
    ShiftVariable(ShiftVariableOp, u32, u32, u32),
    MoveFrom(MoveFromOp, u32),
    MoveTo(MoveToOp, u32),
    Multiply(MultiplyOp, u32, u32),
    Divide(DivideOp, u32, u32),
    Count(CountOp, u32, u32),
    Trap(TrapOp, u32, u32, u32),
    TrapImmediate(TrapImmediateOp, u32, u16),
    Syscall(u32),
    Break(u32),
    Sync(u32),
    Branch(BranchOp, u32, u32, u16),
    BranchZero(BranchZeroOp, u32, u16),
    Jump(JumpOp, u32),
    JumpRegister(u32),
    JumpLinkRegister(u32, u32),
    Immediate(ImmediateOp, u32, u32, u16),
    LoadUpper(u32, u16),
    /// A load, a store and a cache operation have the base register before the offset.
    Load(LoadOp, u32, u32, u16),
    Store(StoreOp, u32, u32, u16),
    Cache(CacheOp, u32, u32, u16),
    Cp0Move(Cp0MoveOp, u32, u32, u32),
    Tlb(TlbOp),
    Eret,
    Wait(u32),
    Coprocessor(CoprocessorOp, u32),
}

impl Fields {
    /// The instruction with these fields.
    pub fn instr(self) -> Instr {
        match self {
            Fields::ThreeRegister(op, rd, rs, rt) => register(op, rd, rs, rt),
            Fields::ConditionalMove(op, rd, rs, rt) => conditional(op, rd, rs, rt),
            Fields::Shift(op, rd, rt, sa) => shift(op, rd, rt, sa),
            Fields::ShiftVariable(op, rd, rt, rs) => shift_by(op, rd, rt, rs),
            Fields::MoveFrom(op, rd) => Instr::MoveFrom { op, rd: r(rd) },
            Fields::MoveTo(op, rs) => Instr::MoveTo { op, rs: r(rs) },
            Fields::Multiply(op, rs, rt) => multiply(op, rs, rt),
            Fields::Divide(op, rs, rt) => divide(op, rs, rt),
            Fields::Count(op, rd, rs) => count(op, rd, rs),
            Fields::Trap(op, rs, rt, code) => trap(op, rs, rt, code),
            Fields::TrapImmediate(op, rs, imm) => trap_immediate(op, rs, imm),
            Fields::Syscall(code) => Instr::Syscall {
                code: call_code(code),
            },
            Fields::Break(code) => Instr::Break {
                code: call_code(code),
            },
            Fields::Sync(bits) => Instr::Sync {
                stype: SyncType::new(bits % 32),
            },
            Fields::Branch(op, rs, rt, offset) => branch(op, rs, rt, offset),
            Fields::BranchZero(op, rs, offset) => branch_zero(op, rs, offset),
            Fields::Jump(op, target) => jump(op, target),
            Fields::JumpRegister(rs) => Instr::JumpRegister { rs: r(rs) },
            Fields::JumpLinkRegister(rd, rs) => Instr::JumpLinkRegister {
                rd: r(rd),
                rs: r(rs),
            },
            Fields::Immediate(op, rt, rs, imm) => immediate(op, rt, rs, imm),
            Fields::LoadUpper(rt, imm) => Instr::LoadUpper { rt: r(rt), imm },
            Fields::Load(op, rt, base, offset) => load(op, rt, base, offset),
            Fields::Store(op, rt, base, offset) => store(op, rt, base, offset),
            Fields::Cache(op, hint, base, offset) => cache(op, hint, base, offset),
            Fields::Cp0Move(op, rt, rd, select) => cp0(op, rt, rd, select),
            Fields::Tlb(op) => Instr::Tlb { op },
            Fields::Eret => Instr::Eret,
            Fields::Wait(code) => Instr::Wait {
                code: wait_code(code),
            },
            Fields::Coprocessor(op, code) => coprocessor(op, code),
        }
    }
}
