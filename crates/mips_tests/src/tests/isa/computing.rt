//! Words, the instructions that they encode, and their text at the address 80001000:
//! instructions that compute from registers, and traps.
use super::fields::Fields;
use mips_isa::*;

pub static COMPUTING_ROWS: [(u32, Fields, &'static str); 65] = [
    (
        0x003f_1820,
        Fields::ThreeRegister(ThreeRegisterOp::Add, 3, 1, 31),
        "add $3,$1,$31",
    ),
    (
        0x007e_2021,
        Fields::ThreeRegister(ThreeRegisterOp::Addu, 4, 3, 30),
        "addu $4,$3,$30",
    ),
    (
        0x00bd_2822,
        Fields::ThreeRegister(ThreeRegisterOp::Sub, 5, 5, 29),
        "sub $5,$5,$29",
    ),
    (
        0x00fc_3023,
        Fields::ThreeRegister(ThreeRegisterOp::Subu, 6, 7, 28),
        "subu $6,$7,$28",
    ),
    (
        0x013b_3824,
        Fields::ThreeRegister(ThreeRegisterOp::And, 7, 9, 27),
        "and $7,$9,$27",
    ),
    (
        0x017a_4025,
        Fields::ThreeRegister(ThreeRegisterOp::Or, 8, 11, 26),
        "or $8,$11,$26",
    ),
    (
        0x01b9_4826,
        Fields::ThreeRegister(ThreeRegisterOp::Xor, 9, 13, 25),
        "xor $9,$13,$25",
    ),
    (
        0x01f8_5027,
        Fields::ThreeRegister(ThreeRegisterOp::Nor, 10, 15, 24),
        "nor $10,$15,$24",
    ),
    (
        0x0237_582a,
        Fields::ThreeRegister(ThreeRegisterOp::Slt, 11, 17, 23),
        "slt $11,$17,$23",
    ),
    (
        0x0276_602b,
        Fields::ThreeRegister(ThreeRegisterOp::Sltu, 12, 19, 22),
        "sltu $12,$19,$22",
    ),
    (
        0x70a6_2002,
        Fields::ThreeRegister(ThreeRegisterOp::Mul, 4, 5, 6),
        "mul $4,$5,$6",
    ),
    (
        0x0022_1820,
        Fields::ThreeRegister(ThreeRegisterOp::Add, 3, 1, 2),
        "add $3,$1,$2",
    ),
    (
        0x0041_1021,
        Fields::ThreeRegister(ThreeRegisterOp::Addu, 2, 2, 1),
        "addu $2,$2,$1",
    ),
    (
        0x0000_0025,
        Fields::ThreeRegister(ThreeRegisterOp::Or, 0, 0, 0),
        "or $0,$0,$0",
    ),
    (
        0x03ff_f82b,
        Fields::ThreeRegister(ThreeRegisterOp::Sltu, 31, 31, 31),
        "sltu $31,$31,$31",
    ),
    (
        0x73fe_e802,
        Fields::ThreeRegister(ThreeRegisterOp::Mul, 29, 31, 30),
        "mul $29,$31,$30",
    ),
    (
        0x00e0_100a,
        Fields::ConditionalMove(ConditionalMoveOp::Movz, 2, 7, 0),
        "movz $2,$7,$0",
    ),
    (
        0x012a_400b,
        Fields::ConditionalMove(ConditionalMoveOp::Movn, 8, 9, 10),
        "movn $8,$9,$10",
    ),
    (
        0x0000_0000,
        Fields::Shift(ShiftOp::Sll, 0, 0, 0),
        "sll $0,$0,0",
    ),
    (
        0x0005_27c0,
        Fields::Shift(ShiftOp::Sll, 4, 5, 31),
        "sll $4,$5,31",
    ),
    (
        0x0003_1042,
        Fields::Shift(ShiftOp::Srl, 2, 3, 1),
        "srl $2,$3,1",
    ),
    (
        0x001e_fc02,
        Fields::Shift(ShiftOp::Srl, 31, 30, 16),
        "srl $31,$30,16",
    ),
    (
        0x0009_41c3,
        Fields::Shift(ShiftOp::Sra, 8, 9, 7),
        "sra $8,$9,7",
    ),
    (
        0x001f_0fc3,
        Fields::Shift(ShiftOp::Sra, 1, 31, 31),
        "sra $1,$31,31",
    ),
    (
        0x00c5_2004,
        Fields::ShiftVariable(ShiftVariableOp::Sllv, 4, 5, 6),
        "sllv $4,$5,$6",
    ),
    (
        0x0022_1806,
        Fields::ShiftVariable(ShiftVariableOp::Srlv, 3, 2, 1),
        "srlv $3,$2,$1",
    ),
    (
        0x03be_f807,
        Fields::ShiftVariable(ShiftVariableOp::Srav, 31, 30, 29),
        "srav $31,$30,$29",
    ),
    (
        0x0000_4010,
        Fields::MoveFrom(MoveFromOp::Mfhi, 8),
        "mfhi $8",
    ),
    (
        0x0000_f812,
        Fields::MoveFrom(MoveFromOp::Mflo, 31),
        "mflo $31",
    ),
    (0x0120_0011, Fields::MoveTo(MoveToOp::Mthi, 9), "mthi $9"),
    (0x03e0_0013, Fields::MoveTo(MoveToOp::Mtlo, 31), "mtlo $31"),
    (
        0x0085_0018,
        Fields::Multiply(MultiplyOp::Mult, 4, 5),
        "mult $4,$5",
    ),
    (
        0x00c7_0019,
        Fields::Multiply(MultiplyOp::Multu, 6, 7),
        "multu $6,$7",
    ),
    (
        0x7022_0000,
        Fields::Multiply(MultiplyOp::Madd, 1, 2),
        "madd $1,$2",
    ),
    (
        0x707f_0001,
        Fields::Multiply(MultiplyOp::Maddu, 3, 31),
        "maddu $3,$31",
    ),
    (
        0x73c4_0004,
        Fields::Multiply(MultiplyOp::Msub, 30, 4),
        "msub $30,$4",
    ),
    (
        0x70a6_0005,
        Fields::Multiply(MultiplyOp::Msubu, 5, 6),
        "msubu $5,$6",
    ),
    (
        0x0022_001a,
        Fields::Divide(DivideOp::Div, 1, 2),
        "div $1,$2",
    ),
    (
        0x0020_001b,
        Fields::Divide(DivideOp::Divu, 1, 0),
        "divu $1,$0",
    ),
    (
        0x0109_001a,
        Fields::Divide(DivideOp::Div, 8, 9),
        "div $8,$9",
    ),
    (
        0x03fe_001b,
        Fields::Divide(DivideOp::Divu, 31, 30),
        "divu $31,$30",
    ),
    (0x7022_1020, Fields::Count(CountOp::Clz, 2, 1), "clz $2,$1"),
    (
        0x712a_5021,
        Fields::Count(CountOp::Clo, 10, 9),
        "clo $10,$9",
    ),
    (
        0x701f_f820,
        Fields::Count(CountOp::Clz, 31, 0),
        "clz $31,$0",
    ),
    (
        0x0034_0030,
        Fields::Trap(TrapOp::Tge, 1, 20, 0),
        "tge $1,$20,0",
    ),
    (
        0x0055_0071,
        Fields::Trap(TrapOp::Tgeu, 2, 21, 1),
        "tgeu $2,$21,1",
    ),
    (
        0x0076_0172,
        Fields::Trap(TrapOp::Tlt, 3, 22, 5),
        "tlt $3,$22,5",
    ),
    (
        0x0097_3ff3,
        Fields::Trap(TrapOp::Tltu, 4, 23, 255),
        "tltu $4,$23,255",
    ),
    (
        0x00b8_fff4,
        Fields::Trap(TrapOp::Teq, 5, 24, 1023),
        "teq $5,$24,1023",
    ),
    (
        0x00d9_aab6,
        Fields::Trap(TrapOp::Tne, 6, 25, 682),
        "tne $6,$25,682",
    ),
    (
        0x03e0_0034,
        Fields::Trap(TrapOp::Teq, 31, 0, 0),
        "teq $31,$0,0",
    ),
    (
        0x04e8_ffff,
        Fields::TrapImmediate(TrapImmediateOp::Tgei, 7, 0xffff),
        "tgei $7,-1",
    ),
    (
        0x0509_8000,
        Fields::TrapImmediate(TrapImmediateOp::Tgeiu, 8, 0x8000),
        "tgeiu $8,-32768",
    ),
    (
        0x052a_0000,
        Fields::TrapImmediate(TrapImmediateOp::Tlti, 9, 0x0000),
        "tlti $9,0",
    ),
    (
        0x054b_7fff,
        Fields::TrapImmediate(TrapImmediateOp::Tltiu, 10, 0x7fff),
        "tltiu $10,32767",
    ),
    (
        0x056c_fffe,
        Fields::TrapImmediate(TrapImmediateOp::Teqi, 11, 0xfffe),
        "teqi $11,-2",
    ),
    (
        0x058e_0064,
        Fields::TrapImmediate(TrapImmediateOp::Tnei, 12, 0x0064),
        "tnei $12,100",
    ),
    (0x0000_000c, Fields::Syscall(0), "syscall 0"),
    (0x03ff_ffcc, Fields::Syscall(1048575), "syscall 1048575"),
    (0x0048_d14c, Fields::Syscall(0x12345), "syscall 74565"),
    (0x0000_000d, Fields::Break(0), "break 0"),
    (0x0000_01cd, Fields::Break(7), "break 7"),
    (0x03ff_ffcd, Fields::Break(1048575), "break 1048575"),
    (0x0000_000f, Fields::Sync(0), "sync 0"),
    (0x0000_07cf, Fields::Sync(31), "sync 31"),
];
