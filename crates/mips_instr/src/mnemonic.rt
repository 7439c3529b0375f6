//! The names of the instructions in assembly language.
ghost use Rattle.std.specs.Prelude.{◌≡◌};
ghost use Rattle.mips_instr.specs.Mnemonics.{register_mnemonic, conditional_move_mnemonic, shift_mnemonic, shift_variable_mnemonic, move_from_mnemonic, move_to_mnemonic, multiply_mnemonic, divide_mnemonic, count_mnemonic, trap_mnemonic, trap_immediate_mnemonic, branch_mnemonic, branch_zero_mnemonic, jump_mnemonic, immediate_mnemonic, load_mnemonic, store_mnemonic, cache_mnemonic, cp0_move_mnemonic, tlb_mnemonic, mnemonic};

use crate::{
    BranchOp, BranchZeroOp, CacheOp, ConditionalMoveOp, CountOp, Cp0MoveOp, DivideOp, ImmediateOp,
    Instr, JumpOp, LoadOp, MoveFromOp, MoveToOp, MultiplyOp, ShiftOp, ShiftVariableOp, StoreOp,
    ThreeRegisterOp, TlbOp, TrapImmediateOp, TrapOp,
};

impl ThreeRegisterOp {
    /// Its name in lower case.
    pub fn mnemonic(self) -> &'static str
        ensures { result.now ≡ register_mnemonic self }
    {
        match self {
            ThreeRegisterOp::Add => "add",
            ThreeRegisterOp::Addu => "addu",
            ThreeRegisterOp::Sub => "sub",
            ThreeRegisterOp::Subu => "subu",
            ThreeRegisterOp::And => "and",
            ThreeRegisterOp::Or => "or",
            ThreeRegisterOp::Xor => "xor",
            ThreeRegisterOp::Nor => "nor",
            ThreeRegisterOp::Slt => "slt",
            ThreeRegisterOp::Sltu => "sltu",
            ThreeRegisterOp::Mul => "mul",
        }
    }
}

impl ConditionalMoveOp {
    /// Its name in lower case.
    pub fn mnemonic(self) -> &'static str
        ensures { result.now ≡ conditional_move_mnemonic self }
    {
        match self {
            ConditionalMoveOp::Movz => "movz",
            ConditionalMoveOp::Movn => "movn",
        }
    }
}

impl ShiftOp {
    /// Its name in lower case.
    pub fn mnemonic(self) -> &'static str
        ensures { result.now ≡ shift_mnemonic self }
    {
        match self {
            ShiftOp::Sll => "sll",
            ShiftOp::Srl => "srl",
            ShiftOp::Sra => "sra",
        }
    }
}

impl ShiftVariableOp {
    /// Its name in lower case.
    pub fn mnemonic(self) -> &'static str
        ensures { result.now ≡ shift_variable_mnemonic self }
    {
        match self {
            ShiftVariableOp::Sllv => "sllv",
            ShiftVariableOp::Srlv => "srlv",
            ShiftVariableOp::Srav => "srav",
        }
    }
}

impl MoveFromOp {
    /// Its name in lower case.
    pub fn mnemonic(self) -> &'static str
        ensures { result.now ≡ move_from_mnemonic self }
    {
        match self {
            MoveFromOp::Mfhi => "mfhi",
            MoveFromOp::Mflo => "mflo",
        }
    }
}

impl MoveToOp {
    /// Its name in lower case.
    pub fn mnemonic(self) -> &'static str
        ensures { result.now ≡ move_to_mnemonic self }
    {
        match self {
            MoveToOp::Mthi => "mthi",
            MoveToOp::Mtlo => "mtlo",
        }
    }
}

impl MultiplyOp {
    /// Its name in lower case.
    pub fn mnemonic(self) -> &'static str
        ensures { result.now ≡ multiply_mnemonic self }
    {
        match self {
            MultiplyOp::Mult => "mult",
            MultiplyOp::Multu => "multu",
            MultiplyOp::Madd => "madd",
            MultiplyOp::Maddu => "maddu",
            MultiplyOp::Msub => "msub",
            MultiplyOp::Msubu => "msubu",
        }
    }
}

impl DivideOp {
    /// Its name in lower case.
    pub fn mnemonic(self) -> &'static str
        ensures { result.now ≡ divide_mnemonic self }
    {
        match self {
            DivideOp::Div => "div",
            DivideOp::Divu => "divu",
        }
    }
}

impl CountOp {
    /// Its name in lower case.
    pub fn mnemonic(self) -> &'static str
        ensures { result.now ≡ count_mnemonic self }
    {
        match self {
            CountOp::Clz => "clz",
            CountOp::Clo => "clo",
        }
    }
}

impl TrapOp {
    /// Its name in lower case.
    pub fn mnemonic(self) -> &'static str
        ensures { result.now ≡ trap_mnemonic self }
    {
        match self {
            TrapOp::Tge => "tge",
            TrapOp::Tgeu => "tgeu",
            TrapOp::Tlt => "tlt",
            TrapOp::Tltu => "tltu",
            TrapOp::Teq => "teq",
            TrapOp::Tne => "tne",
        }
    }
}

impl TrapImmediateOp {
    /// Its name in lower case.
    pub fn mnemonic(self) -> &'static str
        ensures { result.now ≡ trap_immediate_mnemonic self }
    {
        match self {
            TrapImmediateOp::Tgei => "tgei",
            TrapImmediateOp::Tgeiu => "tgeiu",
            TrapImmediateOp::Tlti => "tlti",
            TrapImmediateOp::Tltiu => "tltiu",
            TrapImmediateOp::Teqi => "teqi",
            TrapImmediateOp::Tnei => "tnei",
        }
    }
}

impl BranchOp {
    /// Its name in lower case.
    pub fn mnemonic(self) -> &'static str
        ensures { result.now ≡ branch_mnemonic self }
    {
        match self {
            BranchOp::Beq => "beq",
            BranchOp::Bne => "bne",
            BranchOp::Beql => "beql",
            BranchOp::Bnel => "bnel",
        }
    }
}

impl BranchZeroOp {
    /// Its name in lower case.
    pub fn mnemonic(self) -> &'static str
        ensures { result.now ≡ branch_zero_mnemonic self }
    {
        match self {
            BranchZeroOp::Bltz => "bltz",
            BranchZeroOp::Bgez => "bgez",
            BranchZeroOp::Bltzl => "bltzl",
            BranchZeroOp::Bgezl => "bgezl",
            BranchZeroOp::Bltzal => "bltzal",
            BranchZeroOp::Bgezal => "bgezal",
            BranchZeroOp::Bltzall => "bltzall",
            BranchZeroOp::Bgezall => "bgezall",
            BranchZeroOp::Blez => "blez",
            BranchZeroOp::Bgtz => "bgtz",
            BranchZeroOp::Blezl => "blezl",
            BranchZeroOp::Bgtzl => "bgtzl",
        }
    }
}

impl JumpOp {
    /// Its name in lower case.
    pub fn mnemonic(self) -> &'static str
        ensures { result.now ≡ jump_mnemonic self }
    {
        match self {
            JumpOp::J => "j",
            JumpOp::Jal => "jal",
        }
    }
}

impl ImmediateOp {
    /// Its name in lower case.
    pub fn mnemonic(self) -> &'static str
        ensures { result.now ≡ immediate_mnemonic self }
    {
        match self {
            ImmediateOp::Addi => "addi",
            ImmediateOp::Addiu => "addiu",
            ImmediateOp::Slti => "slti",
            ImmediateOp::Sltiu => "sltiu",
            ImmediateOp::Andi => "andi",
            ImmediateOp::Ori => "ori",
            ImmediateOp::Xori => "xori",
        }
    }
}

impl LoadOp {
    /// Its name in lower case.
    pub fn mnemonic(self) -> &'static str
        ensures { result.now ≡ load_mnemonic self }
    {
        match self {
            LoadOp::Lb => "lb",
            LoadOp::Lh => "lh",
            LoadOp::Lwl => "lwl",
            LoadOp::Lw => "lw",
            LoadOp::Lbu => "lbu",
            LoadOp::Lhu => "lhu",
            LoadOp::Lwr => "lwr",
            LoadOp::Ll => "ll",
        }
    }
}

impl StoreOp {
    /// Its name in lower case.
    pub fn mnemonic(self) -> &'static str
        ensures { result.now ≡ store_mnemonic self }
    {
        match self {
            StoreOp::Sb => "sb",
            StoreOp::Sh => "sh",
            StoreOp::Swl => "swl",
            StoreOp::Sw => "sw",
            StoreOp::Swr => "swr",
            StoreOp::Sc => "sc",
        }
    }
}

impl CacheOp {
    /// Its name in lower case.
    pub fn mnemonic(self) -> &'static str
        ensures { result.now ≡ cache_mnemonic self }
    {
        match self {
            CacheOp::Cache => "cache",
            CacheOp::Pref => "pref",
        }
    }
}

impl Cp0MoveOp {
    /// Its name in lower case.
    pub fn mnemonic(self) -> &'static str
        ensures { result.now ≡ cp0_move_mnemonic self }
    {
        match self {
            Cp0MoveOp::Mfc0 => "mfc0",
            Cp0MoveOp::Mtc0 => "mtc0",
        }
    }
}

impl TlbOp {
    /// Its name in lower case.
    pub fn mnemonic(self) -> &'static str
        ensures { result.now ≡ tlb_mnemonic self }
    {
        match self {
            TlbOp::Tlbr => "tlbr",
            TlbOp::Tlbwi => "tlbwi",
            TlbOp::Tlbwr => "tlbwr",
            TlbOp::Tlbp => "tlbp",
        }
    }
}

/// The name of an instruction, in lower case, and `.word` for those of coprocessors 1 and 2.
pub fn mnemonic_of(instr: &Instr) -> &'static str
    ensures { result.now ≡ mnemonic instr.now }
{
    match *instr {
        Instr::ThreeRegister { op, .. } => op.mnemonic(),
        Instr::ConditionalMove { op, .. } => op.mnemonic(),
        Instr::Shift { op, .. } => op.mnemonic(),
        Instr::ShiftVariable { op, .. } => op.mnemonic(),
        Instr::MoveFrom { op, .. } => op.mnemonic(),
        Instr::MoveTo { op, .. } => op.mnemonic(),
        Instr::Multiply { op, .. } => op.mnemonic(),
        Instr::Divide { op, .. } => op.mnemonic(),
        Instr::Count { op, .. } => op.mnemonic(),
        Instr::Trap { op, .. } => op.mnemonic(),
        Instr::TrapImmediate { op, .. } => op.mnemonic(),
        Instr::Syscall { .. } => "syscall",
        Instr::Break { .. } => "break",
        Instr::Sync { .. } => "sync",
        Instr::Branch { op, .. } => op.mnemonic(),
        Instr::BranchZero { op, .. } => op.mnemonic(),
        Instr::Jump { op, .. } => op.mnemonic(),
        Instr::JumpRegister { .. } => "jr",
        Instr::JumpLinkRegister { .. } => "jalr",
        Instr::Immediate { op, .. } => op.mnemonic(),
        Instr::LoadUpper { .. } => "lui",
        Instr::Load { op, .. } => op.mnemonic(),
        Instr::Store { op, .. } => op.mnemonic(),
        Instr::Cache { op, .. } => op.mnemonic(),
        Instr::Cp0Move { op, .. } => op.mnemonic(),
        Instr::Tlb { op } => op.mnemonic(),
        Instr::Eret => "eret",
        Instr::Wait { .. } => "wait",
        Instr::Coprocessor { .. } => ".word",
    }
}
