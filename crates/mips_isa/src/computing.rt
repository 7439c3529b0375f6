//! The words of instructions that compute from registers.
ghost use Rattle.std.specs.Prelude.{◌≡◌, ◌∷◌, []};
ghost use Rattle.mips_isa.specs.Table.{readings};
ghost use Rattle.mips_instr.specs.declared.instr.Instr.TheVariants as instr;

use crate::joining::{join, zero};
use crate::{
    ConditionalMoveOp, CountOp, DivideOp, MoveFromOp, MoveToOp, MultiplyOp, Reg, ShiftAmount,
    ShiftOp, ShiftVariableOp, ThreeRegisterOp,
};

#[tactic(auto, using(crate::proofs::Groups::special_at, crate::proofs::Groups::special2_at), unfolding(crate::specs::Table::special_readings, crate::specs::Table::special2_readings))]
pub fn register_word(op: ThreeRegisterOp, rd: Reg, rs: Reg, rt: Reg) -> u32
    ensures { readings result ≡ instr.ThreeRegister op rd rs rt ∷ [] }
{
    match op {
        ThreeRegisterOp::Add => join(0x00, rs, rt, rd, 0, 0x20),
        ThreeRegisterOp::Addu => join(0x00, rs, rt, rd, 0, 0x21),
        ThreeRegisterOp::Sub => join(0x00, rs, rt, rd, 0, 0x22),
        ThreeRegisterOp::Subu => join(0x00, rs, rt, rd, 0, 0x23),
        ThreeRegisterOp::And => join(0x00, rs, rt, rd, 0, 0x24),
        ThreeRegisterOp::Or => join(0x00, rs, rt, rd, 0, 0x25),
        ThreeRegisterOp::Xor => join(0x00, rs, rt, rd, 0, 0x26),
        ThreeRegisterOp::Nor => join(0x00, rs, rt, rd, 0, 0x27),
        ThreeRegisterOp::Slt => join(0x00, rs, rt, rd, 0, 0x2a),
        ThreeRegisterOp::Sltu => join(0x00, rs, rt, rd, 0, 0x2b),
        ThreeRegisterOp::Mul => join(0x1c, rs, rt, rd, 0, 0x02),
    }
}

#[tactic(auto, using(crate::proofs::Groups::special_at), unfolding(crate::specs::Table::special_readings))]
pub fn conditional_move_word(op: ConditionalMoveOp, rd: Reg, rs: Reg, rt: Reg) -> u32
    ensures { readings result ≡ instr.ConditionalMove op rd rs rt ∷ [] }
{
    match op {
        ConditionalMoveOp::Movz => join(0x00, rs, rt, rd, 0, 0x0a),
        ConditionalMoveOp::Movn => join(0x00, rs, rt, rd, 0, 0x0b),
    }
}

#[tactic(auto, using(crate::proofs::Groups::special_at), unfolding(crate::specs::Table::special_readings))]
pub fn shift_word(op: ShiftOp, rd: Reg, rt: Reg, sa: ShiftAmount) -> u32
    ensures { readings result ≡ instr.Shift op rd rt sa ∷ [] }
{
    match op {
        ShiftOp::Sll => join(0x00, zero(), rt, rd, sa.bits(), 0x00),
        ShiftOp::Srl => join(0x00, zero(), rt, rd, sa.bits(), 0x02),
        ShiftOp::Sra => join(0x00, zero(), rt, rd, sa.bits(), 0x03),
    }
}

#[tactic(auto, using(crate::proofs::Groups::special_at), unfolding(crate::specs::Table::special_readings))]
pub fn shift_variable_word(op: ShiftVariableOp, rd: Reg, rt: Reg, rs: Reg) -> u32
    ensures { readings result ≡ instr.ShiftVariable op rd rt rs ∷ [] }
{
    match op {
        ShiftVariableOp::Sllv => join(0x00, rs, rt, rd, 0, 0x04),
        ShiftVariableOp::Srlv => join(0x00, rs, rt, rd, 0, 0x06),
        ShiftVariableOp::Srav => join(0x00, rs, rt, rd, 0, 0x07),
    }
}

#[tactic(auto, using(crate::proofs::Groups::special_at), unfolding(crate::specs::Table::special_readings))]
pub fn move_from_word(op: MoveFromOp, rd: Reg) -> u32
    ensures { readings result ≡ instr.MoveFrom op rd ∷ [] }
{
    match op {
        MoveFromOp::Mfhi => join(0x00, zero(), zero(), rd, 0, 0x10),
        MoveFromOp::Mflo => join(0x00, zero(), zero(), rd, 0, 0x12),
    }
}

#[tactic(auto, using(crate::proofs::Groups::special_at), unfolding(crate::specs::Table::special_readings))]
pub fn move_to_word(op: MoveToOp, rs: Reg) -> u32
    ensures { readings result ≡ instr.MoveTo op rs ∷ [] }
{
    match op {
        MoveToOp::Mthi => join(0x00, rs, zero(), zero(), 0, 0x11),
        MoveToOp::Mtlo => join(0x00, rs, zero(), zero(), 0, 0x13),
    }
}

#[tactic(auto, using(crate::proofs::Groups::special_at, crate::proofs::Groups::special2_at), unfolding(crate::specs::Table::special_readings, crate::specs::Table::special2_readings))]
pub fn multiply_word(op: MultiplyOp, rs: Reg, rt: Reg) -> u32
    ensures { readings result ≡ instr.Multiply op rs rt ∷ [] }
{
    match op {
        MultiplyOp::Mult => join(0x00, rs, rt, zero(), 0, 0x18),
        MultiplyOp::Multu => join(0x00, rs, rt, zero(), 0, 0x19),
        MultiplyOp::Madd => join(0x1c, rs, rt, zero(), 0, 0x00),
        MultiplyOp::Maddu => join(0x1c, rs, rt, zero(), 0, 0x01),
        MultiplyOp::Msub => join(0x1c, rs, rt, zero(), 0, 0x04),
        MultiplyOp::Msubu => join(0x1c, rs, rt, zero(), 0, 0x05),
    }
}

#[tactic(auto, using(crate::proofs::Groups::special_at), unfolding(crate::specs::Table::special_readings))]
pub fn divide_word(op: DivideOp, rs: Reg, rt: Reg) -> u32
    ensures { readings result ≡ instr.Divide op rs rt ∷ [] }
{
    match op {
        DivideOp::Div => join(0x00, rs, rt, zero(), 0, 0x1a),
        DivideOp::Divu => join(0x00, rs, rt, zero(), 0, 0x1b),
    }
}

/// The field rt has the number of rd too.
#[tactic(auto, using(crate::proofs::Groups::special2_at), unfolding(crate::specs::Table::special2_readings))]
pub fn count_word(op: CountOp, rd: Reg, rs: Reg) -> u32
    ensures { readings result ≡ instr.Count op rd rs ∷ [] }
{
    match op {
        CountOp::Clz => join(0x1c, rs, rd, rd, 0, 0x20),
        CountOp::Clo => join(0x1c, rs, rd, rd, 0, 0x21),
    }
}
