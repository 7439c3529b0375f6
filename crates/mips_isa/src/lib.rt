//! The instruction table of the processor (MIPS32 Architecture For Programmers, volume II): which words encode which
//! instruction.
//!
//! The table of rows stands in `specs/Table.antt`. The crates above use `decode` (`Some` of an instruction exactly
//! where one row fits the word, `None` exactly where none does) and `encode`, its inverse: by the contract of `decode` and
//! the two clauses of `encode`, `reads` and `only`, the word that `encode` answers decodes to the instruction, and a word
//! that decodes is the one that `encode` answers for its instruction. The laws `fits_one_row_at_most` and
//! `one_word_encodes_an_instruction` say that the rows are apart and that decoding loses nothing. The instructions themselves,
//! where they lead and how they are written are those of `mips_instr`, whose types and calls are named here too.
#![tactic(auto)]

mod computing;
mod control;
pub mod decoding;
pub mod encoding;
mod immediates;
mod joining;
mod shapes;
mod system;
mod word;

pub use decoding::{decode, decode_access, decode_operation};
pub use encoding::encode;
pub use mips_instr::{
    BranchOp, BranchZeroOp, CacheOp, CallCode, ConditionalMoveOp, CoprocessorCode, CoprocessorOp,
    CountOp, Cp0MoveOp, DivideOp, Hint, ImmediateOp, Instr, JumpOp, JumpTarget, LoadOp, MoveFromOp,
    MoveToOp, MultiplyOp, Operand, Operands, Reg, Select, ShiftAmount, ShiftOp, ShiftVariableOp,
    StoreOp, SyncType, ThreeRegisterOp, TlbOp, TrapCode, TrapImmediateOp, TrapOp, WaitCode,
    branch_target_of, jump_target_of, mnemonic_of, operands_of, text,
};
