//! Words, the instructions that they encode, and their text at the address 80001000:
//! branches, jumps and immediates.
use super::fields::Fields;
use mips_isa::*;

pub static CONTROL_ROWS: [(u32, Fields, &'static str); 54] = [
    (
        0x1002_0005,
        Fields::Branch(BranchOp::Beq, 0, 2, 0x0005),
        "beq $0,$2,0x80001018",
    ),
    (
        0x13fe_fffe,
        Fields::Branch(BranchOp::Beq, 31, 30, 0xfffe),
        "beq $31,$30,0x80000ffc",
    ),
    (
        0x1423_ffff,
        Fields::Branch(BranchOp::Bne, 1, 3, 0xffff),
        "bne $1,$3,0x80001000",
    ),
    (
        0x17fd_0001,
        Fields::Branch(BranchOp::Bne, 31, 29, 0x0001),
        "bne $31,$29,0x80001008",
    ),
    (
        0x5044_7fff,
        Fields::Branch(BranchOp::Beql, 2, 4, 0x7fff),
        "beql $2,$4,0x80021000",
    ),
    (
        0x53fc_0000,
        Fields::Branch(BranchOp::Beql, 31, 28, 0x0000),
        "beql $31,$28,0x80001004",
    ),
    (
        0x5465_8000,
        Fields::Branch(BranchOp::Bnel, 3, 5, 0x8000),
        "bnel $3,$5,0x7ffe1004",
    ),
    (
        0x57fb_0100,
        Fields::Branch(BranchOp::Bnel, 31, 27, 0x0100),
        "bnel $31,$27,0x80001404",
    ),
    (
        0x0420_0002,
        Fields::BranchZero(BranchZeroOp::Bltz, 1, 0x0002),
        "bltz $1,0x8000100c",
    ),
    (
        0x0481_ffff,
        Fields::BranchZero(BranchZeroOp::Bgez, 4, 0xffff),
        "bgez $4,0x80001000",
    ),
    (
        0x04e2_8000,
        Fields::BranchZero(BranchZeroOp::Bltzl, 7, 0x8000),
        "bltzl $7,0x7ffe1004",
    ),
    (
        0x0543_7fff,
        Fields::BranchZero(BranchZeroOp::Bgezl, 10, 0x7fff),
        "bgezl $10,0x80021000",
    ),
    (
        0x05b0_0000,
        Fields::BranchZero(BranchZeroOp::Bltzal, 13, 0x0000),
        "bltzal $13,0x80001004",
    ),
    (
        0x0611_0003,
        Fields::BranchZero(BranchZeroOp::Bgezal, 16, 0x0003),
        "bgezal $16,0x80001010",
    ),
    (
        0x0672_fffc,
        Fields::BranchZero(BranchZeroOp::Bltzall, 19, 0xfffc),
        "bltzall $19,0x80000ff4",
    ),
    (
        0x06d3_0400,
        Fields::BranchZero(BranchZeroOp::Bgezall, 22, 0x0400),
        "bgezall $22,0x80002004",
    ),
    (
        0x1920_fffd,
        Fields::BranchZero(BranchZeroOp::Blez, 9, 0xfffd),
        "blez $9,0x80000ff8",
    ),
    (
        0x1dc0_0010,
        Fields::BranchZero(BranchZeroOp::Bgtz, 14, 0x0010),
        "bgtz $14,0x80001044",
    ),
    (
        0x5a60_fbff,
        Fields::BranchZero(BranchZeroOp::Blezl, 19, 0xfbff),
        "blezl $19,0x80000000",
    ),
    (
        0x5f00_1fff,
        Fields::BranchZero(BranchZeroOp::Bgtzl, 24, 0x1fff),
        "bgtzl $24,0x80009000",
    ),
    (
        0x1420_fffe,
        Fields::Branch(BranchOp::Bne, 1, 0, 0xfffe),
        "bne $1,$0,0x80000ffc",
    ),
    (
        0x1000_0005,
        Fields::Branch(BranchOp::Beq, 0, 0, 0x0005),
        "beq $0,$0,0x80001018",
    ),
    (
        0x0423_0002,
        Fields::BranchZero(BranchZeroOp::Bgezl, 1, 0x0002),
        "bgezl $1,0x8000100c",
    ),
    (0x0800_0000, Fields::Jump(JumpOp::J, 0), "j 0x80000000"),
    (
        0x0bff_ffff,
        Fields::Jump(JumpOp::J, 0x3ff_ffff),
        "j 0x8ffffffc",
    ),
    (0x0800_0400, Fields::Jump(JumpOp::J, 0x400), "j 0x80001000"),
    (
        0x0c12_3456,
        Fields::Jump(JumpOp::Jal, 0x12_3456),
        "jal 0x8048d158",
    ),
    (
        0x0e00_0000,
        Fields::Jump(JumpOp::Jal, 0x200_0000),
        "jal 0x88000000",
    ),
    (0x03e0_0008, Fields::JumpRegister(31), "jr $31"),
    (0x0040_0008, Fields::JumpRegister(2), "jr $2"),
    (
        0x0320_f809,
        Fields::JumpLinkRegister(31, 25),
        "jalr $31,$25",
    ),
    (0x0080_2809, Fields::JumpLinkRegister(5, 4), "jalr $5,$4"),
    (
        0x20a2_0001,
        Fields::Immediate(ImmediateOp::Addi, 2, 5, 0x0001),
        "addi $2,$5,1",
    ),
    (
        0x201f_8000,
        Fields::Immediate(ImmediateOp::Addi, 31, 0, 0x8000),
        "addi $31,$0,-32768",
    ),
    (
        0x24c3_0005,
        Fields::Immediate(ImmediateOp::Addiu, 3, 6, 0x0005),
        "addiu $3,$6,5",
    ),
    (
        0x243e_ffff,
        Fields::Immediate(ImmediateOp::Addiu, 30, 1, 0xffff),
        "addiu $30,$1,-1",
    ),
    (
        0x28e4_ffff,
        Fields::Immediate(ImmediateOp::Slti, 4, 7, 0xffff),
        "slti $4,$7,-1",
    ),
    (
        0x285d_7fff,
        Fields::Immediate(ImmediateOp::Slti, 29, 2, 0x7fff),
        "slti $29,$2,32767",
    ),
    (
        0x2d05_8000,
        Fields::Immediate(ImmediateOp::Sltiu, 5, 8, 0x8000),
        "sltiu $5,$8,-32768",
    ),
    (
        0x2c7c_0007,
        Fields::Immediate(ImmediateOp::Sltiu, 28, 3, 0x0007),
        "sltiu $28,$3,7",
    ),
    (
        0x3128_ffff,
        Fields::Immediate(ImmediateOp::Andi, 8, 9, 0xffff),
        "andi $8,$9,0xffff",
    ),
    (
        0x301e_0001,
        Fields::Immediate(ImmediateOp::Andi, 30, 0, 0x0001),
        "andi $30,$0,0x0001",
    ),
    (
        0x3549_8000,
        Fields::Immediate(ImmediateOp::Ori, 9, 10, 0x8000),
        "ori $9,$10,0x8000",
    ),
    (
        0x343d_abcd,
        Fields::Immediate(ImmediateOp::Ori, 29, 1, 0xabcd),
        "ori $29,$1,0xabcd",
    ),
    (
        0x396a_0000,
        Fields::Immediate(ImmediateOp::Xori, 10, 11, 0x0000),
        "xori $10,$11,0x0000",
    ),
    (
        0x385c_00ff,
        Fields::Immediate(ImmediateOp::Xori, 28, 2, 0x00ff),
        "xori $28,$2,0x00ff",
    ),
    (
        0x2402_0005,
        Fields::Immediate(ImmediateOp::Addiu, 2, 0, 0x0005),
        "addiu $2,$0,5",
    ),
    (
        0x2401_ffff,
        Fields::Immediate(ImmediateOp::Addiu, 1, 0, 0xffff),
        "addiu $1,$0,-1",
    ),
    (
        0x2421_ffff,
        Fields::Immediate(ImmediateOp::Addiu, 1, 1, 0xffff),
        "addiu $1,$1,-1",
    ),
    (
        0x2023_0001,
        Fields::Immediate(ImmediateOp::Addi, 3, 1, 0x0001),
        "addi $3,$1,1",
    ),
    (
        0x3421_ffff,
        Fields::Immediate(ImmediateOp::Ori, 1, 1, 0xffff),
        "ori $1,$1,0xffff",
    ),
    (0x3c01_7fff, Fields::LoadUpper(1, 0x7fff), "lui $1,0x7fff"),
    (0x3c05_8000, Fields::LoadUpper(5, 0x8000), "lui $5,0x8000"),
    (0x3c1f_0000, Fields::LoadUpper(31, 0), "lui $31,0x0000"),
];
