//! From a word to its instruction.
ghost use Rattle.std.specs.Prelude.{◌≡◌, ◌<◌, ◌≤◌, ◌/◌, ◌%◌, ◌^◌, ◌∷◌, [], option_to_list, length, IfSome, false};
ghost use Rattle.mips_isa.specs.Fields.{fields};
ghost use Rattle.mips_isa.specs.Memory.{touches_memory};
ghost use Rattle.mips_isa.specs.Table.{readings, special_readings, regimm_readings, special2_readings, cop0_readings, opcode_readings, memory_readings};

use crate::shapes::{
    branch_in, branch_zero_in, cache_in, compare_zero_in, conditional_move_in, coprocessor_in,
    count_in, cp0_move_in, divide_in, immediate_in, jump_in, jump_link_register_in,
    jump_register_in, load_in, load_upper_in, move_from_in, move_to_in, multiply_in, register_in,
    shift_in, shift_variable_in, store_in, sync_in, trap_immediate_in, trap_in,
};
use crate::word::{call_code_of, wait_code_of};
use crate::{
    BranchOp, BranchZeroOp, CacheOp, ConditionalMoveOp, CoprocessorOp, CountOp, Cp0MoveOp,
    DivideOp, ImmediateOp, Instr, JumpOp, LoadOp, MoveFromOp, MoveToOp, MultiplyOp, ShiftOp,
    ShiftVariableOp, StoreOp, ThreeRegisterOp, TlbOp, TrapImmediateOp, TrapOp,
};

/// The instruction that a word encodes: `Some` exactly where one row of the table fits the word, `None` exactly where
/// no row does. It is a match over the fields, with no loop and no table search.
#[inline(never)]
pub fn decode(word: u32) -> Option<Instr>
    ensures { readings word ≡ option_to_list result }
{
    if word < 0x8000_0000 {
        decode_operation(word)
    } else {
        decode_access(word)
    }
}

/// The instruction that a word of an opcode below 0x20 encodes, as `decode` answers it. It touches no memory.
#[tactic(auto, using(crate::proofs::Operations::reads_operation))]
#[inline(always)]
pub fn decode_operation(word: u32) -> Option<Instr>
    requires { word < 2 ^ 31 }
    ensures value { readings word ≡ option_to_list result }
    ensures operation { IfSome result (λ i. touches_memory i ≡ false) }
{
    below_memory(word)
}

/// The instruction that a word of an opcode from 0x20 on encodes, as `decode` answers it: loads, stores and the like.
#[tactic(auto, using(crate::proofs::Groups::memory_at))]
#[inline(always)]
pub fn decode_access(word: u32) -> Option<Instr>
    requires { 2 ^ 31 ≤ word }
    ensures { readings word ≡ option_to_list result }
{
    memory(word)
}

#[tactic(auto, using(crate::proofs::Groups::special_at, crate::proofs::Groups::regimm_at, crate::proofs::Groups::special2_at, crate::proofs::Groups::cop0_at, crate::proofs::Groups::opcode_at))]
#[inline(always)]
fn below_memory(word: u32) -> Option<Instr>
    requires { word < 2 ^ 31 }
    ensures { readings word ≡ option_to_list result }
{
    match word >> 26 {
        0x00 => special(word),
        0x01 => regimm(word),
        0x10 => cop0(word),
        0x1c => special2(word),
        _ => by_opcode(word),
    }
}

/// A law: no word fits two rows.
pub fn fits_one_row_at_most(word: u32)
    ensures { length (readings word) ≤ 1 }
{
    let _ = decode(word);
}

#[tactic(auto, unfolding(crate::specs::Table::special_readings))]
#[inline(always)]
fn special(word: u32) -> Option<Instr>
    requires { word / 2 ^ 26 ≡ 0 }
    ensures { special_readings (fields word) ≡ option_to_list result }
{
    match word % 64 {
        0x00 => shift_in(word, ShiftOp::Sll),
        0x02 => shift_in(word, ShiftOp::Srl),
        0x03 => shift_in(word, ShiftOp::Sra),
        0x04 => shift_variable_in(word, ShiftVariableOp::Sllv),
        0x06 => shift_variable_in(word, ShiftVariableOp::Srlv),
        0x07 => shift_variable_in(word, ShiftVariableOp::Srav),
        0x08 => jump_register_in(word),
        0x09 => jump_link_register_in(word),
        0x0a => conditional_move_in(word, ConditionalMoveOp::Movz),
        0x0b => conditional_move_in(word, ConditionalMoveOp::Movn),
        0x0c => Some(Instr::Syscall {
            code: call_code_of(word),
        }),
        0x0d => Some(Instr::Break {
            code: call_code_of(word),
        }),
        0x0f => sync_in(word),
        0x10 => move_from_in(word, MoveFromOp::Mfhi),
        0x11 => move_to_in(word, MoveToOp::Mthi),
        0x12 => move_from_in(word, MoveFromOp::Mflo),
        0x13 => move_to_in(word, MoveToOp::Mtlo),
        0x18 => multiply_in(word, MultiplyOp::Mult),
        0x19 => multiply_in(word, MultiplyOp::Multu),
        0x1a => divide_in(word, DivideOp::Div),
        0x1b => divide_in(word, DivideOp::Divu),
        0x20 => register_in(word, ThreeRegisterOp::Add),
        0x21 => register_in(word, ThreeRegisterOp::Addu),
        0x22 => register_in(word, ThreeRegisterOp::Sub),
        0x23 => register_in(word, ThreeRegisterOp::Subu),
        0x24 => register_in(word, ThreeRegisterOp::And),
        0x25 => register_in(word, ThreeRegisterOp::Or),
        0x26 => register_in(word, ThreeRegisterOp::Xor),
        0x27 => register_in(word, ThreeRegisterOp::Nor),
        0x2a => register_in(word, ThreeRegisterOp::Slt),
        0x2b => register_in(word, ThreeRegisterOp::Sltu),
        0x30 => trap_in(word, TrapOp::Tge),
        0x31 => trap_in(word, TrapOp::Tgeu),
        0x32 => trap_in(word, TrapOp::Tlt),
        0x33 => trap_in(word, TrapOp::Tltu),
        0x34 => trap_in(word, TrapOp::Teq),
        0x36 => trap_in(word, TrapOp::Tne),
        _ => None,
    }
}

#[tactic(auto, unfolding(crate::specs::Table::regimm_readings))]
fn regimm(word: u32) -> Option<Instr>
    requires { word / 2 ^ 26 ≡ 1 }
    ensures { regimm_readings (fields word) ≡ option_to_list result }
{
    match (word >> 16) % 32 {
        0x00 => branch_zero_in(word, BranchZeroOp::Bltz),
        0x01 => branch_zero_in(word, BranchZeroOp::Bgez),
        0x02 => branch_zero_in(word, BranchZeroOp::Bltzl),
        0x03 => branch_zero_in(word, BranchZeroOp::Bgezl),
        0x08 => trap_immediate_in(word, TrapImmediateOp::Tgei),
        0x09 => trap_immediate_in(word, TrapImmediateOp::Tgeiu),
        0x0a => trap_immediate_in(word, TrapImmediateOp::Tlti),
        0x0b => trap_immediate_in(word, TrapImmediateOp::Tltiu),
        0x0c => trap_immediate_in(word, TrapImmediateOp::Teqi),
        0x0e => trap_immediate_in(word, TrapImmediateOp::Tnei),
        0x10 => branch_zero_in(word, BranchZeroOp::Bltzal),
        0x11 => branch_zero_in(word, BranchZeroOp::Bgezal),
        0x12 => branch_zero_in(word, BranchZeroOp::Bltzall),
        0x13 => branch_zero_in(word, BranchZeroOp::Bgezall),
        _ => None,
    }
}

#[tactic(auto, unfolding(crate::specs::Table::special2_readings))]
fn special2(word: u32) -> Option<Instr>
    requires { word / 2 ^ 26 ≡ 0x1c }
    ensures { special2_readings (fields word) ≡ option_to_list result }
{
    match word % 64 {
        0x00 => multiply_in(word, MultiplyOp::Madd),
        0x01 => multiply_in(word, MultiplyOp::Maddu),
        0x02 => register_in(word, ThreeRegisterOp::Mul),
        0x04 => multiply_in(word, MultiplyOp::Msub),
        0x05 => multiply_in(word, MultiplyOp::Msubu),
        0x20 => count_in(word, CountOp::Clz),
        0x21 => count_in(word, CountOp::Clo),
        _ => None,
    }
}

#[tactic(auto, unfolding(crate::specs::Table::cop0_readings))]
fn cop0(word: u32) -> Option<Instr>
    requires { word / 2 ^ 26 ≡ 0x10 }
    ensures { cop0_readings (fields word) ≡ option_to_list result }
{
    let rs = (word >> 21) % 32;
    match rs {
        0x00 => cp0_move_in(word, Cp0MoveOp::Mfc0),
        0x04 => cp0_move_in(word, Cp0MoveOp::Mtc0),
        _ => {
            if rs >= 0x10 && word % 64 == 0x20 {
                Some(Instr::Wait {
                    code: wait_code_of(word),
                })
            } else if rs == 0x10 && (word >> 6) % 0x8000 == 0 {
                cop0_function(word)
            } else {
                None
            }
        }
    }
}

/// The instructions of coprocessor 0 that only fn tells apart.
#[tactic(auto, unfolding(crate::specs::Table::cop0_readings))]
fn cop0_function(word: u32) -> Option<Instr>
    requires op { word / 2 ^ 26 ≡ 0x10 }
    requires rs { word / 2 ^ 21 % 32 ≡ 0x10 }
    requires zeros { word / 2 ^ 6 % 2 ^ 15 ≡ 0 }
    requires other { ¬ (word % 64 ≡ 0x20) }
    ensures { cop0_readings (fields word) ≡ option_to_list result }
{
    match word % 64 {
        0x01 => Some(Instr::Tlb { op: TlbOp::Tlbr }),
        0x02 => Some(Instr::Tlb { op: TlbOp::Tlbwi }),
        0x06 => Some(Instr::Tlb { op: TlbOp::Tlbwr }),
        0x08 => Some(Instr::Tlb { op: TlbOp::Tlbp }),
        0x18 => Some(Instr::Eret),
        _ => None,
    }
}

#[tactic(auto, unfolding(crate::specs::Table::opcode_readings))]
#[inline(always)]
fn by_opcode(word: u32) -> Option<Instr>
    requires { word / 2 ^ 26 < 0x20 }
    ensures { opcode_readings (fields word) ≡ option_to_list result }
{
    match word >> 26 {
        0x02 => jump_in(word, JumpOp::J),
        0x03 => jump_in(word, JumpOp::Jal),
        0x04 => branch_in(word, BranchOp::Beq),
        0x05 => branch_in(word, BranchOp::Bne),
        0x06 => compare_zero_in(word, BranchZeroOp::Blez),
        0x07 => compare_zero_in(word, BranchZeroOp::Bgtz),
        0x08 => immediate_in(word, ImmediateOp::Addi),
        0x09 => immediate_in(word, ImmediateOp::Addiu),
        0x0a => immediate_in(word, ImmediateOp::Slti),
        0x0b => immediate_in(word, ImmediateOp::Sltiu),
        0x0c => immediate_in(word, ImmediateOp::Andi),
        0x0d => immediate_in(word, ImmediateOp::Ori),
        0x0e => immediate_in(word, ImmediateOp::Xori),
        0x0f => load_upper_in(word),
        0x11 => coprocessor_in(word, CoprocessorOp::Cop1),
        0x12 => coprocessor_in(word, CoprocessorOp::Cop2),
        0x14 => branch_in(word, BranchOp::Beql),
        0x15 => branch_in(word, BranchOp::Bnel),
        0x16 => compare_zero_in(word, BranchZeroOp::Blezl),
        0x17 => compare_zero_in(word, BranchZeroOp::Bgtzl),
        _ => None,
    }
}

#[tactic(auto, unfolding(crate::specs::Table::memory_readings))]
#[inline(always)]
fn memory(word: u32) -> Option<Instr>
    requires { 0x20 ≤ word / 2 ^ 26 }
    ensures { memory_readings (fields word) ≡ option_to_list result }
{
    match word >> 26 {
        0x20 => load_in(word, LoadOp::Lb),
        0x21 => load_in(word, LoadOp::Lh),
        0x22 => load_in(word, LoadOp::Lwl),
        0x23 => load_in(word, LoadOp::Lw),
        0x24 => load_in(word, LoadOp::Lbu),
        0x25 => load_in(word, LoadOp::Lhu),
        0x26 => load_in(word, LoadOp::Lwr),
        0x28 => store_in(word, StoreOp::Sb),
        0x29 => store_in(word, StoreOp::Sh),
        0x2a => store_in(word, StoreOp::Swl),
        0x2b => store_in(word, StoreOp::Sw),
        0x2e => store_in(word, StoreOp::Swr),
        0x2f => cache_in(word, CacheOp::Cache),
        0x30 => load_in(word, LoadOp::Ll),
        0x31 => coprocessor_in(word, CoprocessorOp::Lwc1),
        0x32 => coprocessor_in(word, CoprocessorOp::Lwc2),
        0x33 => cache_in(word, CacheOp::Pref),
        0x35 => coprocessor_in(word, CoprocessorOp::Ldc1),
        0x36 => coprocessor_in(word, CoprocessorOp::Ldc2),
        0x38 => store_in(word, StoreOp::Sc),
        0x39 => coprocessor_in(word, CoprocessorOp::Swc1),
        0x3a => coprocessor_in(word, CoprocessorOp::Swc2),
        0x3d => coprocessor_in(word, CoprocessorOp::Sdc1),
        0x3e => coprocessor_in(word, CoprocessorOp::Sdc2),
        _ => None,
    }
}
