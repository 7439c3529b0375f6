//! Instructions by short calls.
use mips_isa::*;

pub fn r(number: u32) -> Reg {
    Reg::new(number % 32)
}

pub fn call_code(bits: u32) -> CallCode {
    CallCode::new(bits % 0x10_0000)
}

pub fn wait_code(bits: u32) -> WaitCode {
    WaitCode::new(bits % 0x8_0000)
}

pub fn register(op: ThreeRegisterOp, rd: u32, rs: u32, rt: u32) -> Instr {
    Instr::ThreeRegister {
        op,
        rd: r(rd),
        rs: r(rs),
        rt: r(rt),
    }
}

pub fn conditional(op: ConditionalMoveOp, rd: u32, rs: u32, rt: u32) -> Instr {
    Instr::ConditionalMove {
        op,
        rd: r(rd),
        rs: r(rs),
        rt: r(rt),
    }
}

pub fn shift(op: ShiftOp, rd: u32, rt: u32, sa: u32) -> Instr {
    Instr::Shift {
        op,
        rd: r(rd),
        rt: r(rt),
        sa: ShiftAmount::new(sa % 32),
    }
}

pub fn shift_by(op: ShiftVariableOp, rd: u32, rt: u32, rs: u32) -> Instr {
    Instr::ShiftVariable {
        op,
        rd: r(rd),
        rt: r(rt),
        rs: r(rs),
    }
}

pub fn multiply(op: MultiplyOp, rs: u32, rt: u32) -> Instr {
    Instr::Multiply {
        op,
        rs: r(rs),
        rt: r(rt),
    }
}

pub fn divide(op: DivideOp, rs: u32, rt: u32) -> Instr {
    Instr::Divide {
        op,
        rs: r(rs),
        rt: r(rt),
    }
}

pub fn count(op: CountOp, rd: u32, rs: u32) -> Instr {
    Instr::Count {
        op,
        rd: r(rd),
        rs: r(rs),
    }
}

pub fn trap(op: TrapOp, rs: u32, rt: u32, code: u32) -> Instr {
    Instr::Trap {
        op,
        rs: r(rs),
        rt: r(rt),
        code: TrapCode::new(code % 0x400),
    }
}

pub fn trap_immediate(op: TrapImmediateOp, rs: u32, imm: u16) -> Instr {
    Instr::TrapImmediate { op, rs: r(rs), imm }
}

pub fn branch(op: BranchOp, rs: u32, rt: u32, offset: u16) -> Instr {
    Instr::Branch {
        op,
        rs: r(rs),
        rt: r(rt),
        offset,
    }
}

pub fn branch_zero(op: BranchZeroOp, rs: u32, offset: u16) -> Instr {
    Instr::BranchZero {
        op,
        rs: r(rs),
        offset,
    }
}

pub fn jump(op: JumpOp, target: u32) -> Instr {
    Instr::Jump {
        op,
        target: JumpTarget::new(target % 0x400_0000),
    }
}

pub fn immediate(op: ImmediateOp, rt: u32, rs: u32, imm: u16) -> Instr {
    Instr::Immediate {
        op,
        rt: r(rt),
        rs: r(rs),
        imm,
    }
}

pub fn load(op: LoadOp, rt: u32, base: u32, offset: u16) -> Instr {
    Instr::Load {
        op,
        rt: r(rt),
        base: r(base),
        offset,
    }
}

pub fn store(op: StoreOp, rt: u32, base: u32, offset: u16) -> Instr {
    Instr::Store {
        op,
        rt: r(rt),
        base: r(base),
        offset,
    }
}

pub fn cache(op: CacheOp, hint: u32, base: u32, offset: u16) -> Instr {
    Instr::Cache {
        op,
        hint: Hint::new(hint % 32),
        base: r(base),
        offset,
    }
}

pub fn cp0(op: Cp0MoveOp, rt: u32, rd: u32, select: u32) -> Instr {
    Instr::Cp0Move {
        op,
        rt: r(rt),
        rd: r(rd),
        select: Select::new(select % 8),
    }
}

pub fn coprocessor(op: CoprocessorOp, code: u32) -> Instr {
    Instr::Coprocessor {
        op,
        code: CoprocessorCode::new(code % 0x400_0000),
    }
}
