//! The words of the instructions of coprocessor 0.
ghost use Rattle.std.specs.Prelude.{◌≡◌, ◌∷◌, []};
ghost use Rattle.mips_isa.specs.Table.{readings};
ghost use Rattle.mips_instr.specs.declared.instr.Instr.TheVariants as instr;

use crate::joining::{join, join_wait, zero};
use crate::{Cp0MoveOp, Reg, Select, TlbOp, WaitCode};

#[tactic(auto, using(crate::proofs::Groups::cop0_at), unfolding(crate::specs::Table::cop0_readings))]
pub fn cp0_move_word(op: Cp0MoveOp, rt: Reg, rd: Reg, select: Select) -> u32
    ensures { readings result ≡ instr.Cp0Move op rt rd select ∷ [] }
{
    match op {
        Cp0MoveOp::Mfc0 => join(0x10, Reg::new(0x00), rt, rd, 0, select.bits()),
        Cp0MoveOp::Mtc0 => join(0x10, Reg::new(0x04), rt, rd, 0, select.bits()),
    }
}

#[tactic(auto, using(crate::proofs::Groups::cop0_at), unfolding(crate::specs::Table::cop0_readings))]
pub fn tlb_word(op: TlbOp) -> u32
    ensures { readings result ≡ instr.Tlb op ∷ [] }
{
    match op {
        TlbOp::Tlbr => join(0x10, Reg::new(0x10), zero(), zero(), 0, 0x01),
        TlbOp::Tlbwi => join(0x10, Reg::new(0x10), zero(), zero(), 0, 0x02),
        TlbOp::Tlbwr => join(0x10, Reg::new(0x10), zero(), zero(), 0, 0x06),
        TlbOp::Tlbp => join(0x10, Reg::new(0x10), zero(), zero(), 0, 0x08),
    }
}

#[tactic(auto, using(crate::proofs::Groups::cop0_at), unfolding(crate::specs::Table::cop0_readings))]
pub fn eret_word() -> u32
    ensures { readings result ≡ instr.Eret ∷ [] }
{
    join(0x10, Reg::new(0x10), zero(), zero(), 0, 0x18)
}

#[tactic(auto, using(crate::proofs::Groups::cop0_at), unfolding(crate::specs::Table::cop0_readings))]
pub fn wait_word(code: WaitCode) -> u32
    ensures { readings result ≡ instr.Wait code ∷ [] }
{
    join_wait(code)
}
