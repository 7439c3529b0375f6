//! The words of instructions with an immediate or an offset, and of those of coprocessors 1 and 2.
ghost use Rattle.std.specs.Prelude.{◌≡◌, ◌∷◌, []};
ghost use Rattle.mips_instr.specs.Coprocessor.{coprocessor_word};
ghost use Rattle.mips_isa.specs.Table.{readings};
ghost use Rattle.mips_instr.specs.declared.instr.Instr.TheVariants as instr;

use crate::joining::{join_imm, join_index, zero};
use crate::{CacheOp, CoprocessorCode, CoprocessorOp, Hint, ImmediateOp, LoadOp, Reg, StoreOp};

#[tactic(auto, using(crate::proofs::Groups::opcode_at), unfolding(crate::specs::Table::opcode_readings))]
pub fn immediate_word(op: ImmediateOp, rt: Reg, rs: Reg, imm: u16) -> u32
    ensures { readings result ≡ instr.Immediate op rt rs imm ∷ [] }
{
    match op {
        ImmediateOp::Addi => join_imm(0x08, rs, rt.number(), imm),
        ImmediateOp::Addiu => join_imm(0x09, rs, rt.number(), imm),
        ImmediateOp::Slti => join_imm(0x0a, rs, rt.number(), imm),
        ImmediateOp::Sltiu => join_imm(0x0b, rs, rt.number(), imm),
        ImmediateOp::Andi => join_imm(0x0c, rs, rt.number(), imm),
        ImmediateOp::Ori => join_imm(0x0d, rs, rt.number(), imm),
        ImmediateOp::Xori => join_imm(0x0e, rs, rt.number(), imm),
    }
}

#[tactic(auto, using(crate::proofs::Groups::opcode_at), unfolding(crate::specs::Table::opcode_readings))]
pub fn load_upper_word(rt: Reg, imm: u16) -> u32
    ensures { readings result ≡ instr.LoadUpper rt imm ∷ [] }
{
    join_imm(0x0f, zero(), rt.number(), imm)
}

#[tactic(auto, using(crate::proofs::Groups::memory_at), unfolding(crate::specs::Table::memory_readings))]
pub fn load_word(op: LoadOp, rt: Reg, base: Reg, offset: u16) -> u32
    ensures { readings result ≡ instr.Load op rt base offset ∷ [] }
{
    match op {
        LoadOp::Lb => join_imm(0x20, base, rt.number(), offset),
        LoadOp::Lh => join_imm(0x21, base, rt.number(), offset),
        LoadOp::Lwl => join_imm(0x22, base, rt.number(), offset),
        LoadOp::Lw => join_imm(0x23, base, rt.number(), offset),
        LoadOp::Lbu => join_imm(0x24, base, rt.number(), offset),
        LoadOp::Lhu => join_imm(0x25, base, rt.number(), offset),
        LoadOp::Lwr => join_imm(0x26, base, rt.number(), offset),
        LoadOp::Ll => join_imm(0x30, base, rt.number(), offset),
    }
}

#[tactic(auto, using(crate::proofs::Groups::memory_at), unfolding(crate::specs::Table::memory_readings))]
pub fn store_word(op: StoreOp, rt: Reg, base: Reg, offset: u16) -> u32
    ensures { readings result ≡ instr.Store op rt base offset ∷ [] }
{
    match op {
        StoreOp::Sb => join_imm(0x28, base, rt.number(), offset),
        StoreOp::Sh => join_imm(0x29, base, rt.number(), offset),
        StoreOp::Swl => join_imm(0x2a, base, rt.number(), offset),
        StoreOp::Sw => join_imm(0x2b, base, rt.number(), offset),
        StoreOp::Swr => join_imm(0x2e, base, rt.number(), offset),
        StoreOp::Sc => join_imm(0x38, base, rt.number(), offset),
    }
}

#[tactic(auto, using(crate::proofs::Groups::memory_at), unfolding(crate::specs::Table::memory_readings))]
pub fn cache_word(op: CacheOp, hint: Hint, base: Reg, offset: u16) -> u32
    ensures { readings result ≡ instr.Cache op hint base offset ∷ [] }
{
    match op {
        CacheOp::Cache => join_imm(0x2f, base, hint.bits(), offset),
        CacheOp::Pref => join_imm(0x33, base, hint.bits(), offset),
    }
}

#[tactic(auto, using(crate::proofs::Groups::opcode_at, crate::proofs::Groups::memory_at), unfolding(crate::specs::Table::opcode_readings, crate::specs::Table::memory_readings))]
pub fn coprocessor_bits(op: CoprocessorOp, code: CoprocessorCode) -> u32
    ensures reads { readings result ≡ instr.Coprocessor op code ∷ [] }
    ensures word { result ≡ coprocessor_word op code }
{
    join_index(op.opcode(), code.bits())
}
