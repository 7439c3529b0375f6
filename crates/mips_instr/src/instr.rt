//! The instructions, in groups of one shape.
ghost use Rattle.std.specs.Prelude.{◌≡◌, ◌<◌, ◌^◌};
ghost use Rattle.mips_instr.specs.Coprocessor.{coprocessor_unit, coprocessor_opcode, coprocessor_word};

use crate::{
    CallCode, CoprocessorCode, Hint, JumpTarget, Reg, Select, ShiftAmount, SyncType, TrapCode,
    WaitCode,
};

/// An operation on two registers, with its result in a third.
#[derive(Clone, Copy, PartialEq, Eq)]
pub enum ThreeRegisterOp {
    Add,
    Addu,
    Sub,
    Subu,
    And,
    Or,
    Xor,
    Nor,
    Slt,
    Sltu,
    Mul,
}

/// A move of rs to rd where rt is zero (MOVZ) or is not (MOVN).
#[derive(Clone, Copy, PartialEq, Eq)]
pub enum ConditionalMoveOp {
    Movz,
    Movn,
}

/// A shift by an amount that stands in the word.
#[derive(Clone, Copy, PartialEq, Eq)]
pub enum ShiftOp {
    Sll,
    Srl,
    Sra,
}

/// A shift by an amount in a register.
#[derive(Clone, Copy, PartialEq, Eq)]
pub enum ShiftVariableOp {
    Sllv,
    Srlv,
    Srav,
}

/// A move from HI or LO.
#[derive(Clone, Copy, PartialEq, Eq)]
pub enum MoveFromOp {
    Mfhi,
    Mflo,
}

/// A move to HI or LO.
#[derive(Clone, Copy, PartialEq, Eq)]
pub enum MoveToOp {
    Mthi,
    Mtlo,
}

/// A product of two registers that goes to HI and LO, or is added to them or subtracted.
#[derive(Clone, Copy, PartialEq, Eq)]
pub enum MultiplyOp {
    Mult,
    Multu,
    Madd,
    Maddu,
    Msub,
    Msubu,
}

/// A division, with the quotient in LO and the remainder in HI.
#[derive(Clone, Copy, PartialEq, Eq)]
pub enum DivideOp {
    Div,
    Divu,
}

/// A count of leading zeros or ones.
#[derive(Clone, Copy, PartialEq, Eq)]
pub enum CountOp {
    Clz,
    Clo,
}

/// A trap on a comparison of two registers.
#[derive(Clone, Copy, PartialEq, Eq)]
pub enum TrapOp {
    Tge,
    Tgeu,
    Tlt,
    Tltu,
    Teq,
    Tne,
}

/// A trap on a comparison of a register with the 16 bits of the word.
#[derive(Clone, Copy, PartialEq, Eq)]
pub enum TrapImmediateOp {
    Tgei,
    Tgeiu,
    Tlti,
    Tltiu,
    Teqi,
    Tnei,
}

/// A branch on a comparison of two registers.
#[derive(Clone, Copy, PartialEq, Eq)]
pub enum BranchOp {
    Beq,
    Bne,
    Beql,
    Bnel,
}

/// A branch on a comparison of a register with zero.
#[derive(Clone, Copy, PartialEq, Eq)]
pub enum BranchZeroOp {
    Bltz,
    Bgez,
    Bltzl,
    Bgezl,
    Bltzal,
    Bgezal,
    Bltzall,
    Bgezall,
    Blez,
    Bgtz,
    Blezl,
    Bgtzl,
}

/// A jump within the region of its delay slot.
#[derive(Clone, Copy, PartialEq, Eq)]
pub enum JumpOp {
    J,
    Jal,
}

/// An operation on a register and the 16 bits of the word.
#[derive(Clone, Copy, PartialEq, Eq)]
pub enum ImmediateOp {
    Addi,
    Addiu,
    Slti,
    Sltiu,
    Andi,
    Ori,
    Xori,
}

/// A load from memory.
#[derive(Clone, Copy, PartialEq, Eq)]
pub enum LoadOp {
    Lb,
    Lh,
    Lwl,
    Lw,
    Lbu,
    Lhu,
    Lwr,
    Ll,
}

/// A store to memory.
#[derive(Clone, Copy, PartialEq, Eq)]
pub enum StoreOp {
    Sb,
    Sh,
    Swl,
    Sw,
    Swr,
    Sc,
}

/// An operation on the caches.
#[derive(Clone, Copy, PartialEq, Eq)]
pub enum CacheOp {
    Cache,
    Pref,
}

/// A move from a register of coprocessor 0, or to one.
#[derive(Clone, Copy, PartialEq, Eq)]
pub enum Cp0MoveOp {
    Mfc0,
    Mtc0,
}

/// An operation on the TLB.
#[derive(Clone, Copy, PartialEq, Eq)]
pub enum TlbOp {
    Tlbr,
    Tlbwi,
    Tlbwr,
    Tlbp,
}

/// An instruction of coprocessor 1 or 2. The processor has neither.
#[derive(Clone, Copy, PartialEq, Eq)]
pub enum CoprocessorOp {
    Cop1,
    Cop2,
    Lwc1,
    Lwc2,
    Ldc1,
    Ldc2,
    Swc1,
    Swc2,
    Sdc1,
    Sdc2,
}

impl CoprocessorOp {
    /// The number of the coprocessor that the instruction is for, 1 or 2.
    pub fn unit(self) -> u32
        ensures { result ≡ coprocessor_unit self }
    {
        match self {
            CoprocessorOp::Cop1
            | CoprocessorOp::Lwc1
            | CoprocessorOp::Ldc1
            | CoprocessorOp::Swc1
            | CoprocessorOp::Sdc1 => 1,
            CoprocessorOp::Cop2
            | CoprocessorOp::Lwc2
            | CoprocessorOp::Ldc2
            | CoprocessorOp::Swc2
            | CoprocessorOp::Sdc2 => 2,
        }
    }

    /// The opcode of its word.
    pub fn opcode(self) -> u32
        ensures value { result ≡ coprocessor_opcode self }
        ensures small { result < 2 ^ 6 }
    {
        match self {
            CoprocessorOp::Cop1 => 0x11,
            CoprocessorOp::Cop2 => 0x12,
            CoprocessorOp::Lwc1 => 0x31,
            CoprocessorOp::Lwc2 => 0x32,
            CoprocessorOp::Ldc1 => 0x35,
            CoprocessorOp::Ldc2 => 0x36,
            CoprocessorOp::Swc1 => 0x39,
            CoprocessorOp::Swc2 => 0x3a,
            CoprocessorOp::Sdc1 => 0x3d,
            CoprocessorOp::Sdc2 => 0x3e,
        }
    }

    /// Its word: the opcode in the upper six bits, and `code` in the others.
    pub fn word(self, code: CoprocessorCode) -> u32
        ensures { result ≡ coprocessor_word self code }
    {
        (self.opcode() << 26) + code.bits()
    }
}

/// An instruction with its operands. The fields are named as in the standard's formats; `imm` and `offset` are the
/// 16 bits of the word, and the instruction says whether their sign is extended.
#[derive(Clone, Copy, PartialEq, Eq)]
pub enum Instr {
    /// rd = rs `op` rt.
    ThreeRegister {
        op: ThreeRegisterOp,
        rd: Reg,
        rs: Reg,
        rt: Reg,
    },
    /// rd = rs, on a condition on rt.
    ConditionalMove {
        op: ConditionalMoveOp,
        rd: Reg,
        rs: Reg,
        rt: Reg,
    },
    /// rd = rt shifted by `sa`.
    Shift {
        op: ShiftOp,
        rd: Reg,
        rt: Reg,
        sa: ShiftAmount,
    },
    /// rd = rt shifted by the lower five bits of rs.
    ShiftVariable {
        op: ShiftVariableOp,
        rd: Reg,
        rt: Reg,
        rs: Reg,
    },
    /// rd = HI or LO.
    MoveFrom {
        op: MoveFromOp,
        rd: Reg,
    },
    /// HI or LO = rs.
    MoveTo {
        op: MoveToOp,
        rs: Reg,
    },
    /// HI:LO from rs times rt.
    Multiply {
        op: MultiplyOp,
        rs: Reg,
        rt: Reg,
    },
    /// HI and LO from rs divided by rt.
    Divide {
        op: DivideOp,
        rs: Reg,
        rt: Reg,
    },
    /// rd = the count in rs. The word has the number of rd in its field rt too.
    Count {
        op: CountOp,
        rd: Reg,
        rs: Reg,
    },
    /// A trap where rs compares to rt; `code` is for software.
    Trap {
        op: TrapOp,
        rs: Reg,
        rt: Reg,
        code: TrapCode,
    },
    /// A trap where rs compares to `imm`, whose sign is extended.
    TrapImmediate {
        op: TrapImmediateOp,
        rs: Reg,
        imm: u16,
    },
    /// SYSCALL.
    Syscall {
        code: CallCode,
    },
    /// BREAK.
    Break {
        code: CallCode,
    },
    /// SYNC.
    Sync {
        stype: SyncType,
    },
    /// A branch where rs compares to rt, by `offset` words from the delay slot, whose sign is extended.
    Branch {
        op: BranchOp,
        rs: Reg,
        rt: Reg,
        offset: u16,
    },
    /// A branch where rs compares to zero, by `offset` words from the delay slot, whose sign is extended.
    BranchZero {
        op: BranchZeroOp,
        rs: Reg,
        offset: u16,
    },
    /// A jump to `target` words in the delay slot's region of 2^28 bytes.
    Jump {
        op: JumpOp,
        target: JumpTarget,
    },
    /// JR, to rs.
    JumpRegister {
        rs: Reg,
    },
    /// JALR, to rs, with the return address in rd.
    JumpLinkRegister {
        rd: Reg,
        rs: Reg,
    },
    /// rt = rs `op` `imm`.
    Immediate {
        op: ImmediateOp,
        rt: Reg,
        rs: Reg,
        imm: u16,
    },
    /// LUI: rt = `imm` in the upper half.
    LoadUpper {
        rt: Reg,
        imm: u16,
    },
    /// A load of rt from `base` plus `offset`, whose sign is extended.
    Load {
        op: LoadOp,
        rt: Reg,
        base: Reg,
        offset: u16,
    },
    /// A store of rt to `base` plus `offset`, whose sign is extended.
    Store {
        op: StoreOp,
        rt: Reg,
        base: Reg,
        offset: u16,
    },
    /// An operation on the caches at `base` plus `offset`, whose sign is extended.
    Cache {
        op: CacheOp,
        hint: Hint,
        base: Reg,
        offset: u16,
    },
    /// Between rt and register rd, `select`, of coprocessor 0.
    Cp0Move {
        op: Cp0MoveOp,
        rt: Reg,
        rd: Reg,
        select: Select,
    },
    /// An operation on the TLB.
    Tlb {
        op: TlbOp,
    },
    /// ERET.
    Eret,
    /// WAIT.
    Wait {
        code: WaitCode,
    },
    /// An instruction of coprocessor 1 or 2.
    Coprocessor {
        op: CoprocessorOp,
        code: CoprocessorCode,
    },
}
