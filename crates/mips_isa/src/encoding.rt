//! From an instruction to its word.
ghost use Rattle.std.specs.Prelude.{◌≡◌, ℕ, ◌∷◌, []};
ghost use Rattle.mips_instr.specs.Coprocessor.{coprocessor_word};
ghost use Rattle.mips_isa.specs.Table.{readings};
ghost use Rattle.mips_instr.specs.declared.instr.Instr.{Instr};
ghost use Rattle.mips_instr.specs.declared.instr.Instr.TheVariants as instr;

use crate::computing::{
    conditional_move_word, count_word, divide_word, move_from_word, move_to_word, multiply_word,
    register_word, shift_variable_word, shift_word,
};
use crate::control::{
    branch_word, branch_zero_word, break_word, jump_link_register_word, jump_register_word,
    jump_word, sync_word, syscall_word, trap_immediate_word, trap_word,
};
use crate::immediates::{
    cache_word, coprocessor_bits, immediate_word, load_upper_word, load_word, store_word,
};
use crate::system::{cp0_move_word, eret_word, tlb_word, wait_word};
use crate::{CoprocessorCode, CoprocessorOp, Instr};

/// The word that encodes an instruction: its row, and no other, fits the word and means the instruction. No other word
/// encodes it.
#[tactic(auto, using(crate::proofs::Words::one_word))]
pub fn encode(instr: Instr) -> u32
    ensures reads { readings result ≡ instr ∷ [] }
    // What decodes to the instruction is this word: a word that decodes encodes back to itself.
    ensures only { (word : ℕ) → readings word ≡ instr ∷ [] → word ≡ result }
{
    match instr {
        Instr::ThreeRegister { op, rd, rs, rt } => register_word(op, rd, rs, rt),
        Instr::ConditionalMove { op, rd, rs, rt } => conditional_move_word(op, rd, rs, rt),
        Instr::Shift { op, rd, rt, sa } => shift_word(op, rd, rt, sa),
        Instr::ShiftVariable { op, rd, rt, rs } => shift_variable_word(op, rd, rt, rs),
        Instr::MoveFrom { op, rd } => move_from_word(op, rd),
        Instr::MoveTo { op, rs } => move_to_word(op, rs),
        Instr::Multiply { op, rs, rt } => multiply_word(op, rs, rt),
        Instr::Divide { op, rs, rt } => divide_word(op, rs, rt),
        Instr::Count { op, rd, rs } => count_word(op, rd, rs),
        Instr::Trap { op, rs, rt, code } => trap_word(op, rs, rt, code),
        Instr::TrapImmediate { op, rs, imm } => trap_immediate_word(op, rs, imm),
        Instr::Syscall { code } => syscall_word(code),
        Instr::Break { code } => break_word(code),
        Instr::Sync { stype } => sync_word(stype),
        Instr::Branch { op, rs, rt, offset } => branch_word(op, rs, rt, offset),
        Instr::BranchZero { op, rs, offset } => branch_zero_word(op, rs, offset),
        Instr::Jump { op, target } => jump_word(op, target),
        Instr::JumpRegister { rs } => jump_register_word(rs),
        Instr::JumpLinkRegister { rd, rs } => jump_link_register_word(rd, rs),
        Instr::Immediate { op, rt, rs, imm } => immediate_word(op, rt, rs, imm),
        Instr::LoadUpper { rt, imm } => load_upper_word(rt, imm),
        Instr::Load {
            op,
            rt,
            base,
            offset,
        } => load_word(op, rt, base, offset),
        Instr::Store {
            op,
            rt,
            base,
            offset,
        } => store_word(op, rt, base, offset),
        Instr::Cache {
            op,
            hint,
            base,
            offset,
        } => cache_word(op, hint, base, offset),
        Instr::Cp0Move { op, rt, rd, select } => cp0_move_word(op, rt, rd, select),
        Instr::Tlb { op } => tlb_word(op),
        Instr::Eret => eret_word(),
        Instr::Wait { code } => wait_word(code),
        Instr::Coprocessor { op, code } => coprocessor_bits(op, code),
    }
}

/// A law: no two words encode one instruction.
#[tactic(auto, using(crate::proofs::Words::one_word))]
pub fn one_word_encodes_an_instruction()
    ensures { (a b : ℕ) (i : Instr) → readings a ≡ i ∷ [] → readings b ≡ i ∷ [] → a ≡ b }
{}

/// A law: the word by which an instruction of coprocessor 1 or 2 is written, its opcode and 26 bits, encodes it.
pub fn written_word_encodes(op: CoprocessorOp, code: CoprocessorCode)
    ensures { readings (coprocessor_word op code) ≡ instr.Coprocessor op code ∷ [] }
{
    let _ = coprocessor_bits(op, code);
}
