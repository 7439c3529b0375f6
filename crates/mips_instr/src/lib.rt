//! The instructions of the processor (MIPS32 Architecture For Programmers, volume II), and how they are written.
//!
//! An `Instr` has its fields in the ranges that their types allow. `branch_target_of` and `jump_target_of` say where it leads
//! (`specs/Targets.antt`), `text` the line of assembly language that it is (`specs/Text.antt`: its name, by `mnemonic_of`, and
//! its operands, by `operands_of`). Which words encode it stands in `mips_isa`, by which the crates above use all of this.
#![tactic(auto)]

pub mod assembly;
pub mod code;
pub mod instr;
pub mod mnemonic;
pub mod operand;
pub mod reg;
pub mod target;

pub use assembly::text;
pub use code::{CallCode, CoprocessorCode, Hint, JumpTarget, Select, SyncType, TrapCode, WaitCode};
pub use instr::{
    BranchOp, BranchZeroOp, CacheOp, ConditionalMoveOp, CoprocessorOp, CountOp, Cp0MoveOp,
    DivideOp, ImmediateOp, Instr, JumpOp, LoadOp, MoveFromOp, MoveToOp, MultiplyOp, ShiftOp,
    ShiftVariableOp, StoreOp, ThreeRegisterOp, TlbOp, TrapImmediateOp, TrapOp,
};
pub use mnemonic::mnemonic_of;
pub use operand::{Operand, Operands, operands_of};
pub use reg::{Reg, ShiftAmount};
pub use target::{branch_target_of, jump_target_of};
