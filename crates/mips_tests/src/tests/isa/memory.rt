//! Words, the instructions that they encode, and their text at the address 80001000:
//! loads, stores and system instructions.
use super::fields::Fields;
use mips_isa::*;

pub static MEMORY_ROWS: [(u32, Fields, &'static str); 48] = [
    (
        0x83a4_0000,
        Fields::Load(LoadOp::Lb, 4, 29, 0x0000),
        "lb $4,0($29)",
    ),
    (
        0x8785_fffe,
        Fields::Load(LoadOp::Lh, 5, 28, 0xfffe),
        "lh $5,-2($28)",
    ),
    (
        0x8b66_0003,
        Fields::Load(LoadOp::Lwl, 6, 27, 0x0003),
        "lwl $6,3($27)",
    ),
    (
        0x8f47_fffc,
        Fields::Load(LoadOp::Lw, 7, 26, 0xfffc),
        "lw $7,-4($26)",
    ),
    (
        0x9328_7fff,
        Fields::Load(LoadOp::Lbu, 8, 25, 0x7fff),
        "lbu $8,32767($25)",
    ),
    (
        0x9709_8000,
        Fields::Load(LoadOp::Lhu, 9, 24, 0x8000),
        "lhu $9,-32768($24)",
    ),
    (
        0x9aea_0001,
        Fields::Load(LoadOp::Lwr, 10, 23, 0x0001),
        "lwr $10,1($23)",
    ),
    (
        0xc2cb_0004,
        Fields::Load(LoadOp::Ll, 11, 22, 0x0004),
        "ll $11,4($22)",
    ),
    (
        0x8c22_0000,
        Fields::Load(LoadOp::Lw, 2, 1, 0x0000),
        "lw $2,0($1)",
    ),
    (
        0x98a4_0101,
        Fields::Load(LoadOp::Lwr, 4, 5, 0x0101),
        "lwr $4,257($5)",
    ),
    (
        0x88a4_0104,
        Fields::Load(LoadOp::Lwl, 4, 5, 0x0104),
        "lwl $4,260($5)",
    ),
    (
        0xc0a1_0100,
        Fields::Load(LoadOp::Ll, 1, 5, 0x0100),
        "ll $1,256($5)",
    ),
    (
        0x8ca4_0100,
        Fields::Load(LoadOp::Lw, 4, 5, 0x0100),
        "lw $4,256($5)",
    ),
    (
        0xa00a_00ff,
        Fields::Store(StoreOp::Sb, 10, 0, 0x00ff),
        "sb $10,255($0)",
    ),
    (
        0xa42b_fffe,
        Fields::Store(StoreOp::Sh, 11, 1, 0xfffe),
        "sh $11,-2($1)",
    ),
    (
        0xa84c_ffff,
        Fields::Store(StoreOp::Swl, 12, 2, 0xffff),
        "swl $12,-1($2)",
    ),
    (
        0xac6d_0008,
        Fields::Store(StoreOp::Sw, 13, 3, 0x0008),
        "sw $13,8($3)",
    ),
    (
        0xb88e_7fff,
        Fields::Store(StoreOp::Swr, 14, 4, 0x7fff),
        "swr $14,32767($4)",
    ),
    (
        0xe0af_8000,
        Fields::Store(StoreOp::Sc, 15, 5, 0x8000),
        "sc $15,-32768($5)",
    ),
    (
        0xac22_0100,
        Fields::Store(StoreOp::Sw, 2, 1, 0x0100),
        "sw $2,256($1)",
    ),
    (
        0xe0a2_0100,
        Fields::Store(StoreOp::Sc, 2, 5, 0x0100),
        "sc $2,256($5)",
    ),
    (
        0xbc95_fff0,
        Fields::Cache(CacheOp::Cache, 21, 4, 0xfff0),
        "cache 21,-16($4)",
    ),
    (
        0xbfe0_0000,
        Fields::Cache(CacheOp::Cache, 0, 31, 0x0000),
        "cache 0,0($31)",
    ),
    (
        0xcfa5_0040,
        Fields::Cache(CacheOp::Pref, 5, 29, 0x0040),
        "pref 5,64($29)",
    ),
    (
        0xcc1f_ffff,
        Fields::Cache(CacheOp::Pref, 31, 0, 0xffff),
        "pref 31,-1($0)",
    ),
    (
        0x4008_6000,
        Fields::Cp0Move(Cp0MoveOp::Mfc0, 8, 12, 0),
        "mfc0 $8,$12,0",
    ),
    (
        0x401f_8001,
        Fields::Cp0Move(Cp0MoveOp::Mfc0, 31, 16, 1),
        "mfc0 $31,$16,1",
    ),
    (
        0x4081_4800,
        Fields::Cp0Move(Cp0MoveOp::Mtc0, 1, 9, 0),
        "mtc0 $1,$9,0",
    ),
    (
        0x4082_f807,
        Fields::Cp0Move(Cp0MoveOp::Mtc0, 2, 31, 7),
        "mtc0 $2,$31,7",
    ),
    (0x4200_0001, Fields::Tlb(TlbOp::Tlbr), "tlbr"),
    (0x4200_0002, Fields::Tlb(TlbOp::Tlbwi), "tlbwi"),
    (0x4200_0006, Fields::Tlb(TlbOp::Tlbwr), "tlbwr"),
    (0x4200_0008, Fields::Tlb(TlbOp::Tlbp), "tlbp"),
    (0x4200_0018, Fields::Eret, "eret"),
    (0x4200_0020, Fields::Wait(0), "wait 0"),
    (0x43ff_ffe0, Fields::Wait(524287), "wait 524287"),
    (0x4200_0160, Fields::Wait(5), "wait 5"),
    (
        0x4400_0000,
        Fields::Coprocessor(CoprocessorOp::Cop1, 0x0),
        ".word 0x44000000",
    ),
    (
        0x47ff_ffff,
        Fields::Coprocessor(CoprocessorOp::Cop1, 0x3ffffff),
        ".word 0x47ffffff",
    ),
    (
        0x4923_4567,
        Fields::Coprocessor(CoprocessorOp::Cop2, 0x1234567),
        ".word 0x49234567",
    ),
    (
        0xc4a4_0008,
        Fields::Coprocessor(CoprocessorOp::Lwc1, 0xa40008),
        ".word 0xc4a40008",
    ),
    (
        0xc8a4_0008,
        Fields::Coprocessor(CoprocessorOp::Lwc2, 0xa40008),
        ".word 0xc8a40008",
    ),
    (
        0xd7a0_fff8,
        Fields::Coprocessor(CoprocessorOp::Ldc1, 0x3a0fff8),
        ".word 0xd7a0fff8",
    ),
    (
        0xd800_0001,
        Fields::Coprocessor(CoprocessorOp::Ldc2, 0x1),
        ".word 0xd8000001",
    ),
    (
        0xe480_8000,
        Fields::Coprocessor(CoprocessorOp::Swc1, 0x808000),
        ".word 0xe4808000",
    ),
    (
        0xebff_0000,
        Fields::Coprocessor(CoprocessorOp::Swc2, 0x3ff0000),
        ".word 0xebff0000",
    ),
    (
        0xf600_0010,
        Fields::Coprocessor(CoprocessorOp::Sdc1, 0x2000010),
        ".word 0xf6000010",
    ),
    (
        0xfaaa_aaaa,
        Fields::Coprocessor(CoprocessorOp::Sdc2, 0x2aaaaaa),
        ".word 0xfaaaaaaa",
    ),
];
