//! An instruction from the fields of a word, for the rows of each shape: `None` where a field that must be zero is not.
ghost use Rattle.std.specs.Prelude.{◌≡◌, ◌/◌, ◌%◌, ◌^◌, ◌==◌, ◌&&◌, nat_lt, if◌then◌else◌, Some, None};
ghost use Rattle.mips_isa.specs.Fields.{fields};
ghost use Rattle.mips_isa.specs.Forms.{branch, branch_zero, cache, conditional_move, coprocessor, count, cp0_move, divide, jump, jump_link_register, jump_register, load, load_upper, move_from, move_to, multiply, register, shift, shift_variable, store, sync, trap, trap_immediate, with_immediate};

use crate::word::{
    coprocessor_code_of, hint_of, imm_of, rd_of, rs_of, rt_of, sa_of, select_of, stype_of,
    target_of, trap_code_of,
};
use crate::{
    BranchOp, BranchZeroOp, CacheOp, ConditionalMoveOp, CoprocessorOp, CountOp, Cp0MoveOp,
    DivideOp, ImmediateOp, Instr, JumpOp, LoadOp, MoveFromOp, MoveToOp, MultiplyOp, ShiftOp,
    ShiftVariableOp, StoreOp, ThreeRegisterOp, TrapImmediateOp, TrapOp,
};

pub fn register_in(word: u32, op: ThreeRegisterOp) -> Option<Instr>
    ensures { result ≡ (if word / 2 ^ 6 % 32 == 0 then Some (register op (fields word)) else None) }
{
    if (word >> 6) % 32 == 0 {
        Some(Instr::ThreeRegister {
            op,
            rd: rd_of(word),
            rs: rs_of(word),
            rt: rt_of(word),
        })
    } else {
        None
    }
}

pub fn conditional_move_in(word: u32, op: ConditionalMoveOp) -> Option<Instr>
    ensures { result ≡ (if word / 2 ^ 6 % 32 == 0 then Some (conditional_move op (fields word)) else None) }
{
    if (word >> 6) % 32 == 0 {
        Some(Instr::ConditionalMove {
            op,
            rd: rd_of(word),
            rs: rs_of(word),
            rt: rt_of(word),
        })
    } else {
        None
    }
}

pub fn shift_in(word: u32, op: ShiftOp) -> Option<Instr>
    ensures { result ≡ (if word / 2 ^ 21 % 32 == 0 then Some (shift op (fields word)) else None) }
{
    if (word >> 21) % 32 == 0 {
        Some(Instr::Shift {
            op,
            rd: rd_of(word),
            rt: rt_of(word),
            sa: sa_of(word),
        })
    } else {
        None
    }
}

pub fn shift_variable_in(word: u32, op: ShiftVariableOp) -> Option<Instr>
    ensures { result ≡ (if word / 2 ^ 6 % 32 == 0 then Some (shift_variable op (fields word)) else None) }
{
    if (word >> 6) % 32 == 0 {
        Some(Instr::ShiftVariable {
            op,
            rd: rd_of(word),
            rt: rt_of(word),
            rs: rs_of(word),
        })
    } else {
        None
    }
}

pub fn move_from_in(word: u32, op: MoveFromOp) -> Option<Instr>
    ensures { result ≡ (if word / 2 ^ 21 % 32 == 0 && word / 2 ^ 16 % 32 == 0 && word / 2 ^ 6 % 32 == 0 then Some (move_from op (fields word)) else None) }
{
    if (word >> 21) % 32 == 0 && (word >> 16) % 32 == 0 && (word >> 6) % 32 == 0 {
        Some(Instr::MoveFrom {
            op,
            rd: rd_of(word),
        })
    } else {
        None
    }
}

pub fn move_to_in(word: u32, op: MoveToOp) -> Option<Instr>
    ensures { result ≡ (if word / 2 ^ 16 % 32 == 0 && word / 2 ^ 11 % 32 == 0 && word / 2 ^ 6 % 32 == 0 then Some (move_to op (fields word)) else None) }
{
    if (word >> 16) % 32 == 0 && (word >> 11) % 32 == 0 && (word >> 6) % 32 == 0 {
        Some(Instr::MoveTo {
            op,
            rs: rs_of(word),
        })
    } else {
        None
    }
}

pub fn multiply_in(word: u32, op: MultiplyOp) -> Option<Instr>
    ensures { result ≡ (if word / 2 ^ 11 % 32 == 0 && word / 2 ^ 6 % 32 == 0 then Some (multiply op (fields word)) else None) }
{
    if (word >> 11) % 32 == 0 && (word >> 6) % 32 == 0 {
        Some(Instr::Multiply {
            op,
            rs: rs_of(word),
            rt: rt_of(word),
        })
    } else {
        None
    }
}

pub fn divide_in(word: u32, op: DivideOp) -> Option<Instr>
    ensures { result ≡ (if word / 2 ^ 11 % 32 == 0 && word / 2 ^ 6 % 32 == 0 then Some (divide op (fields word)) else None) }
{
    if (word >> 11) % 32 == 0 && (word >> 6) % 32 == 0 {
        Some(Instr::Divide {
            op,
            rs: rs_of(word),
            rt: rt_of(word),
        })
    } else {
        None
    }
}

pub fn count_in(word: u32, op: CountOp) -> Option<Instr>
    ensures { result ≡ (if word / 2 ^ 16 % 32 == word / 2 ^ 11 % 32 && word / 2 ^ 6 % 32 == 0 then Some (count op (fields word)) else None) }
{
    if (word >> 16) % 32 == (word >> 11) % 32 && (word >> 6) % 32 == 0 {
        Some(Instr::Count {
            op,
            rd: rd_of(word),
            rs: rs_of(word),
        })
    } else {
        None
    }
}

pub fn trap_in(word: u32, op: TrapOp) -> Option<Instr>
    ensures { result ≡ Some (trap op (fields word)) }
{
    Some(Instr::Trap {
        op,
        rs: rs_of(word),
        rt: rt_of(word),
        code: trap_code_of(word),
    })
}

pub fn trap_immediate_in(word: u32, op: TrapImmediateOp) -> Option<Instr>
    ensures { result ≡ Some (trap_immediate op (fields word)) }
{
    Some(Instr::TrapImmediate {
        op,
        rs: rs_of(word),
        imm: imm_of(word),
    })
}

pub fn sync_in(word: u32) -> Option<Instr>
    ensures { result ≡ (if word / 2 ^ 21 % 32 == 0 && word / 2 ^ 16 % 32 == 0 && word / 2 ^ 11 % 32 == 0 then Some (sync (fields word)) else None) }
{
    if (word >> 21) % 32 == 0 && (word >> 16) % 32 == 0 && (word >> 11) % 32 == 0 {
        Some(Instr::Sync {
            stype: stype_of(word),
        })
    } else {
        None
    }
}

pub fn branch_in(word: u32, op: BranchOp) -> Option<Instr>
    ensures { result ≡ Some (branch op (fields word)) }
{
    Some(Instr::Branch {
        op,
        rs: rs_of(word),
        rt: rt_of(word),
        offset: imm_of(word),
    })
}

pub fn branch_zero_in(word: u32, op: BranchZeroOp) -> Option<Instr>
    ensures { result ≡ Some (branch_zero op (fields word)) }
{
    Some(Instr::BranchZero {
        op,
        rs: rs_of(word),
        offset: imm_of(word),
    })
}

pub fn compare_zero_in(word: u32, op: BranchZeroOp) -> Option<Instr>
    ensures { result ≡ (if word / 2 ^ 16 % 32 == 0 then Some (branch_zero op (fields word)) else None) }
{
    if (word >> 16) % 32 == 0 {
        Some(Instr::BranchZero {
            op,
            rs: rs_of(word),
            offset: imm_of(word),
        })
    } else {
        None
    }
}

pub fn jump_in(word: u32, op: JumpOp) -> Option<Instr>
    ensures { result ≡ Some (jump op (fields word)) }
{
    Some(Instr::Jump {
        op,
        target: target_of(word),
    })
}

pub fn jump_register_in(word: u32) -> Option<Instr>
    ensures { result ≡ (if word / 2 ^ 16 % 32 == 0 && word / 2 ^ 11 % 32 == 0 && word / 2 ^ 6 % 32 == 0 then Some (jump_register (fields word)) else None) }
{
    if (word >> 16) % 32 == 0 && (word >> 11) % 32 == 0 && (word >> 6) % 32 == 0 {
        Some(Instr::JumpRegister { rs: rs_of(word) })
    } else {
        None
    }
}

pub fn jump_link_register_in(word: u32) -> Option<Instr>
    ensures { result ≡ (if word / 2 ^ 16 % 32 == 0 && word / 2 ^ 6 % 32 == 0 then Some (jump_link_register (fields word)) else None) }
{
    if (word >> 16) % 32 == 0 && (word >> 6) % 32 == 0 {
        Some(Instr::JumpLinkRegister {
            rd: rd_of(word),
            rs: rs_of(word),
        })
    } else {
        None
    }
}

pub fn immediate_in(word: u32, op: ImmediateOp) -> Option<Instr>
    ensures { result ≡ Some (with_immediate op (fields word)) }
{
    Some(Instr::Immediate {
        op,
        rt: rt_of(word),
        rs: rs_of(word),
        imm: imm_of(word),
    })
}

pub fn load_upper_in(word: u32) -> Option<Instr>
    ensures { result ≡ (if word / 2 ^ 21 % 32 == 0 then Some (load_upper (fields word)) else None) }
{
    if (word >> 21) % 32 == 0 {
        Some(Instr::LoadUpper {
            rt: rt_of(word),
            imm: imm_of(word),
        })
    } else {
        None
    }
}

pub fn load_in(word: u32, op: LoadOp) -> Option<Instr>
    ensures { result ≡ Some (load op (fields word)) }
{
    Some(Instr::Load {
        op,
        rt: rt_of(word),
        base: rs_of(word),
        offset: imm_of(word),
    })
}

pub fn store_in(word: u32, op: StoreOp) -> Option<Instr>
    ensures { result ≡ Some (store op (fields word)) }
{
    Some(Instr::Store {
        op,
        rt: rt_of(word),
        base: rs_of(word),
        offset: imm_of(word),
    })
}

pub fn cache_in(word: u32, op: CacheOp) -> Option<Instr>
    ensures { result ≡ Some (cache op (fields word)) }
{
    Some(Instr::Cache {
        op,
        hint: hint_of(word),
        base: rs_of(word),
        offset: imm_of(word),
    })
}

pub fn coprocessor_in(word: u32, op: CoprocessorOp) -> Option<Instr>
    ensures { result ≡ Some (coprocessor op (fields word)) }
{
    Some(Instr::Coprocessor {
        op,
        code: coprocessor_code_of(word),
    })
}

pub fn cp0_move_in(word: u32, op: Cp0MoveOp) -> Option<Instr>
    ensures { result ≡ (if word / 2 ^ 6 % 32 == 0 && nat_lt (word % 64) 8 then Some (cp0_move op (fields word)) else None) }
{
    if (word >> 6) % 32 == 0 && word % 64 < 8 {
        Some(Instr::Cp0Move {
            op,
            rt: rt_of(word),
            rd: rd_of(word),
            select: select_of(word),
        })
    } else {
        None
    }
}
