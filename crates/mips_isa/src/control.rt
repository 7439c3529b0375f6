//! The words of traps, branches and jumps.
ghost use Rattle.std.specs.Prelude.{◌≡◌, ◌∷◌, []};
ghost use Rattle.mips_isa.specs.Table.{readings};
ghost use Rattle.mips_instr.specs.declared.instr.Instr.TheVariants as instr;

use crate::joining::{join, join_call, join_imm, join_index, join_trap, zero};
use crate::{
    BranchOp, BranchZeroOp, CallCode, JumpOp, JumpTarget, Reg, SyncType, TrapCode, TrapImmediateOp,
    TrapOp,
};

#[tactic(auto, using(crate::proofs::Groups::special_at), unfolding(crate::specs::Table::special_readings))]
pub fn trap_word(op: TrapOp, rs: Reg, rt: Reg, code: TrapCode) -> u32
    ensures { readings result ≡ instr.Trap op rs rt code ∷ [] }
{
    match op {
        TrapOp::Tge => join_trap(rs, rt, code, 0x30),
        TrapOp::Tgeu => join_trap(rs, rt, code, 0x31),
        TrapOp::Tlt => join_trap(rs, rt, code, 0x32),
        TrapOp::Tltu => join_trap(rs, rt, code, 0x33),
        TrapOp::Teq => join_trap(rs, rt, code, 0x34),
        TrapOp::Tne => join_trap(rs, rt, code, 0x36),
    }
}

#[tactic(auto, using(crate::proofs::Groups::regimm_at), unfolding(crate::specs::Table::regimm_readings))]
pub fn trap_immediate_word(op: TrapImmediateOp, rs: Reg, imm: u16) -> u32
    ensures { readings result ≡ instr.TrapImmediate op rs imm ∷ [] }
{
    match op {
        TrapImmediateOp::Tgei => join_imm(0x01, rs, 0x08, imm),
        TrapImmediateOp::Tgeiu => join_imm(0x01, rs, 0x09, imm),
        TrapImmediateOp::Tlti => join_imm(0x01, rs, 0x0a, imm),
        TrapImmediateOp::Tltiu => join_imm(0x01, rs, 0x0b, imm),
        TrapImmediateOp::Teqi => join_imm(0x01, rs, 0x0c, imm),
        TrapImmediateOp::Tnei => join_imm(0x01, rs, 0x0e, imm),
    }
}

#[tactic(auto, using(crate::proofs::Groups::special_at), unfolding(crate::specs::Table::special_readings))]
pub fn syscall_word(code: CallCode) -> u32
    ensures { readings result ≡ instr.Syscall code ∷ [] }
{
    join_call(code, 0x0c)
}

#[tactic(auto, using(crate::proofs::Groups::special_at), unfolding(crate::specs::Table::special_readings))]
pub fn break_word(code: CallCode) -> u32
    ensures { readings result ≡ instr.Break code ∷ [] }
{
    join_call(code, 0x0d)
}

#[tactic(auto, using(crate::proofs::Groups::special_at), unfolding(crate::specs::Table::special_readings))]
pub fn sync_word(stype: SyncType) -> u32
    ensures { readings result ≡ instr.Sync stype ∷ [] }
{
    join(0x00, zero(), zero(), zero(), stype.bits(), 0x0f)
}

#[tactic(auto, using(crate::proofs::Groups::opcode_at), unfolding(crate::specs::Table::opcode_readings))]
pub fn branch_word(op: BranchOp, rs: Reg, rt: Reg, offset: u16) -> u32
    ensures { readings result ≡ instr.Branch op rs rt offset ∷ [] }
{
    match op {
        BranchOp::Beq => join_imm(0x04, rs, rt.number(), offset),
        BranchOp::Bne => join_imm(0x05, rs, rt.number(), offset),
        BranchOp::Beql => join_imm(0x14, rs, rt.number(), offset),
        BranchOp::Bnel => join_imm(0x15, rs, rt.number(), offset),
    }
}

#[tactic(auto, using(crate::proofs::Groups::regimm_at, crate::proofs::Groups::opcode_at), unfolding(crate::specs::Table::regimm_readings, crate::specs::Table::opcode_readings))]
pub fn branch_zero_word(op: BranchZeroOp, rs: Reg, offset: u16) -> u32
    ensures { readings result ≡ instr.BranchZero op rs offset ∷ [] }
{
    match op {
        BranchZeroOp::Bltz => join_imm(0x01, rs, 0x00, offset),
        BranchZeroOp::Bgez => join_imm(0x01, rs, 0x01, offset),
        BranchZeroOp::Bltzl => join_imm(0x01, rs, 0x02, offset),
        BranchZeroOp::Bgezl => join_imm(0x01, rs, 0x03, offset),
        BranchZeroOp::Bltzal => join_imm(0x01, rs, 0x10, offset),
        BranchZeroOp::Bgezal => join_imm(0x01, rs, 0x11, offset),
        BranchZeroOp::Bltzall => join_imm(0x01, rs, 0x12, offset),
        BranchZeroOp::Bgezall => join_imm(0x01, rs, 0x13, offset),
        BranchZeroOp::Blez => join_imm(0x06, rs, 0, offset),
        BranchZeroOp::Bgtz => join_imm(0x07, rs, 0, offset),
        BranchZeroOp::Blezl => join_imm(0x16, rs, 0, offset),
        BranchZeroOp::Bgtzl => join_imm(0x17, rs, 0, offset),
    }
}

#[tactic(auto, using(crate::proofs::Groups::opcode_at), unfolding(crate::specs::Table::opcode_readings))]
pub fn jump_word(op: JumpOp, target: JumpTarget) -> u32
    ensures { readings result ≡ instr.Jump op target ∷ [] }
{
    match op {
        JumpOp::J => join_index(0x02, target.bits()),
        JumpOp::Jal => join_index(0x03, target.bits()),
    }
}

#[tactic(auto, using(crate::proofs::Groups::special_at), unfolding(crate::specs::Table::special_readings))]
pub fn jump_register_word(rs: Reg) -> u32
    ensures { readings result ≡ instr.JumpRegister rs ∷ [] }
{
    join(0x00, rs, zero(), zero(), 0, 0x08)
}

#[tactic(auto, using(crate::proofs::Groups::special_at), unfolding(crate::specs::Table::special_readings))]
pub fn jump_link_register_word(rd: Reg, rs: Reg) -> u32
    ensures { readings result ≡ instr.JumpLinkRegister rd rs ∷ [] }
{
    join(0x00, rs, zero(), rd, 0, 0x09)
}
