//! Instructions as words whose fields are drawn by lot: each shape that there is.
ghost use Rattle.std.specs.Prelude.{◌≡◌, ◌<◌};

use Field::*;
use rand_core::Rng;
use rand_pcg::Pcg32;

/// What is drawn for a field of a word.
#[derive(Clone, Copy)]
pub enum Field {
    /// Any general register, as rs.
    Source,
    /// Any general register, as rt.
    SourceT,
    /// A register of 9 to 24, as rd.
    Destination,
    /// A register of 9 to 24, as rt.
    DestinationT,
    /// The number of a system register.
    Register,
    /// How far to shift.
    Shift,
    /// An immediate.
    Immediate,
    /// One of registers 1 to 7, which have addresses, as the base.
    Base,
    /// The offset of a word from its base, in bytes: -128 to 124.
    Words,
    /// The offset of a half word.
    Halves,
    /// The offset of a byte.
    Bytes,
    /// The offset of a branch, in words: -16 to 15.
    Offset,
    /// The target of a jump, in the first two pages.
    Target,
}

/// What is fixed of a word, and the fields that are drawn.
type Row = (u32, &'static [Field]);

/// Instructions that compute.
static COMPUTING: [Row; 42] = [
    (0x0000_0020, &[Source, SourceT, Destination]), // add
    (0x0000_0021, &[Source, SourceT, Destination]), // addu
    (0x0000_0022, &[Source, SourceT, Destination]), // sub
    (0x0000_0023, &[Source, SourceT, Destination]), // subu
    (0x0000_0024, &[Source, SourceT, Destination]), // and
    (0x0000_0025, &[Source, SourceT, Destination]), // or
    (0x0000_0026, &[Source, SourceT, Destination]), // xor
    (0x0000_0027, &[Source, SourceT, Destination]), // nor
    (0x0000_002a, &[Source, SourceT, Destination]), // slt
    (0x0000_002b, &[Source, SourceT, Destination]), // sltu
    (0x0000_000a, &[Source, SourceT, Destination]), // movz
    (0x0000_000b, &[Source, SourceT, Destination]), // movn
    (0x0000_0000, &[SourceT, Destination, Shift]), // sll
    (0x0000_0002, &[SourceT, Destination, Shift]), // srl
    (0x0000_0003, &[SourceT, Destination, Shift]), // sra
    (0x0000_0004, &[Source, SourceT, Destination]), // sllv
    (0x0000_0006, &[Source, SourceT, Destination]), // srlv
    (0x0000_0007, &[Source, SourceT, Destination]), // srav
    (0x0000_0010, &[Destination]), // mfhi
    (0x0000_0012, &[Destination]), // mflo
    (0x0000_0011, &[Source]), // mthi
    (0x0000_0013, &[Source]), // mtlo
    (0x0000_0018, &[Source, SourceT]), // mult
    (0x0000_0019, &[Source, SourceT]), // multu
    (0x0000_001a, &[Source, SourceT]), // div
    (0x0000_001b, &[Source, SourceT]), // divu
    (0x7000_0002, &[Source, SourceT, Destination]), // mul
    (0x7000_0000, &[Source, SourceT]), // madd
    (0x7000_0001, &[Source, SourceT]), // maddu
    (0x7000_0004, &[Source, SourceT]), // msub
    (0x7000_0005, &[Source, SourceT]), // msubu
    (0x2000_0000, &[Source, DestinationT, Immediate]), // addi
    (0x2400_0000, &[Source, DestinationT, Immediate]), // addiu
    (0x2800_0000, &[Source, DestinationT, Immediate]), // slti
    (0x2c00_0000, &[Source, DestinationT, Immediate]), // sltiu
    (0x3000_0000, &[Source, DestinationT, Immediate]), // andi
    (0x3400_0000, &[Source, DestinationT, Immediate]), // ori
    (0x3800_0000, &[Source, DestinationT, Immediate]), // xori
    (0x3c00_0000, &[DestinationT, Immediate]), // lui
    (0x0000_000f, &[Shift]), // sync
    (0x7009_4820, &[Source]), // clz $9
    (0x700a_5021, &[Source]), // clo $10
];

/// Loads and stores, more of stores.
static MEMORY: [Row; 24] = [
    (0x8000_0000, &[Base, DestinationT, Bytes]), // lb
    (0x8400_0000, &[Base, DestinationT, Halves]), // lh
    (0x8800_0000, &[Base, DestinationT, Bytes]), // lwl
    (0x8c00_0000, &[Base, DestinationT, Words]), // lw
    (0x9000_0000, &[Base, DestinationT, Bytes]), // lbu
    (0x9400_0000, &[Base, DestinationT, Halves]), // lhu
    (0x9800_0000, &[Base, DestinationT, Bytes]), // lwr
    (0xc000_0000, &[Base, DestinationT, Words]), // ll
    (0xcc00_0000, &[Base, DestinationT, Bytes]), // pref
    (0x8c00_0000, &[Base, DestinationT, Bytes]), // lw, at any byte
    (0x8400_0000, &[Base, DestinationT, Bytes]), // lh, at any byte
    (0xa000_0000, &[Base, SourceT, Bytes]), // sb
    (0xa400_0000, &[Base, SourceT, Halves]), // sh
    (0xa800_0000, &[Base, SourceT, Bytes]), // swl
    (0xac00_0000, &[Base, SourceT, Words]), // sw
    (0xac00_0000, &[Base, SourceT, Words]), // sw
    (0xb800_0000, &[Base, SourceT, Bytes]), // swr
    (0xe000_0000, &[Base, DestinationT, Words]), // sc
    (0xe000_0000, &[Base, DestinationT, Words]), // sc
    (0xac00_0000, &[Base, SourceT, Bytes]), // sw, at any byte
    (0xad19_0018, &[]), // sw $25,0x18($8), a page is given
    (0x8d09_0014, &[]), // lw $9,0x14($8), how many are given
    (0xad09_0008, &[]), // sw $9,8($8), a byte of output
    (0x8c00_0000, &[Source, DestinationT, Bytes]), // lw from any register
];

/// Branches and jumps.
static CONTROL: [Row; 22] = [
    (0x1000_0000, &[Source, SourceT, Offset]), // beq
    (0x1400_0000, &[Source, SourceT, Offset]), // bne
    (0x5000_0000, &[Source, SourceT, Offset]), // beql
    (0x5400_0000, &[Source, SourceT, Offset]), // bnel
    (0x0400_0000, &[Source, Offset]), // bltz
    (0x0401_0000, &[Source, Offset]), // bgez
    (0x0402_0000, &[Source, Offset]), // bltzl
    (0x0403_0000, &[Source, Offset]), // bgezl
    (0x0410_0000, &[Source, Offset]), // bltzal
    (0x0411_0000, &[Source, Offset]), // bgezal
    (0x0412_0000, &[Source, Offset]), // bltzall
    (0x0413_0000, &[Source, Offset]), // bgezall
    (0x1800_0000, &[Source, Offset]), // blez
    (0x1c00_0000, &[Source, Offset]), // bgtz
    (0x5800_0000, &[Source, Offset]), // blezl
    (0x5c00_0000, &[Source, Offset]), // bgtzl
    (0x0800_0000, &[Target]), // j
    (0x0c00_0000, &[Target]), // jal
    (0x0000_0008, &[Base]), // jr, to a base
    (0x0000_0009, &[Base, Destination]), // jalr, to a base
    (0x03e0_0008, &[]), // jr $31
    (0x0000_0008, &[Source]), // jr, to what any register has
];

/// Instructions on the system registers and the TLB, and those that raise exceptions.
static SYSTEM: [Row; 29] = [
    (0x4000_0000, &[DestinationT, Register]), // mfc0
    (0x4000_4800, &[DestinationT]), // mfc0 of Count
    (0x4000_0800, &[DestinationT]), // mfc0 of Random
    (0x4000_6800, &[DestinationT]), // mfc0 of Cause
    (0x4080_5800, &[SourceT]), // mtc0 to Compare
    (0x4080_3000, &[SourceT]), // mtc0 to Wired
    (0x4080_0000, &[SourceT]), // mtc0 to Index
    (0x4080_1000, &[SourceT]), // mtc0 to EntryLo0
    (0x4080_5000, &[SourceT]), // mtc0 to EntryHi
    (0x4080_6800, &[SourceT]), // mtc0 to Cause
    (0x4080_4800, &[SourceT]), // mtc0 to Count
    (0x409c_6000, &[]), // mtc0 $28,Status
    (0x409d_6000, &[]), // mtc0 $29,Status
    (0x409e_6000, &[]), // mtc0 $30,Status
    (0x4080_6000, &[]), // mtc0 $0,Status
    (0x4200_0001, &[]), // tlbr
    (0x4200_0002, &[]), // tlbwi
    (0x4200_0006, &[]), // tlbwr
    (0x4200_0008, &[]), // tlbp
    (0x4200_0018, &[]), // eret
    (0x4200_0020, &[]), // wait
    (0x0000_000c, &[]), // syscall
    (0x0000_000d, &[]), // break
    (0x0000_0034, &[Source, SourceT]), // teq
    (0x0000_0036, &[Source, SourceT]), // tne
    (0x0000_0033, &[Source, SourceT]), // tltu
    (0x0408_0000, &[Source, Immediate]), // tgei
    (0xbc00_0000, &[Base, Bytes]), // cache
    (0x4400_0000, &[Source, SourceT, Destination]), // of coprocessor 1
];

/// A number below another.
fn below(dice: &mut Pcg32, limit: u32) -> u32
    requires { 0 < limit }
    ensures { result < limit }
{
    dice.next_u32() % limit
}

/// A number of 16 bits, of two's complement: one of `count` multiples of `unit`, as many below 0 as from 0 on.
fn signed(dice: &mut Pcg32, count: u32, unit: u32) -> u32
    requires { 0 < count }
{
    let multiple = below(dice, count).wrapping_sub(count / 2);
    multiple.wrapping_mul(unit) & 0xffff
}

impl Field {
    /// The bits of a field in their place.
    fn bits(self, dice: &mut Pcg32) -> u32 {
        match self {
            Source => below(dice, 32) << 21,
            SourceT => below(dice, 32) << 16,
            Destination => (9 + below(dice, 16)) << 11,
            DestinationT => (9 + below(dice, 16)) << 16,
            Register => below(dice, 32) << 11,
            Shift => below(dice, 32) << 6,
            Immediate => below(dice, 0x1_0000),
            Base => (1 + below(dice, 7)) << 21,
            Words => signed(dice, 64, 4),
            Halves => signed(dice, 128, 2),
            Bytes => signed(dice, 256, 1),
            Offset => signed(dice, 32, 1),
            Target => below(dice, 2048),
        }
    }
}

/// A word of one of these rows; 0 where there are none.
fn word_of(dice: &mut Pcg32, rows: &[Row]) -> u32 {
    let count = rows.len();
    if count == 0 {
        return 0;
    }
    let (mut word, fields) = rows[dice.next_u32() as usize % count];
    for field in fields {
        word |= field.bits(dice);
    }
    word
}

/// A word by lot: of 64 words one is any word, as a rule of no row.
pub fn drawn_word(dice: &mut Pcg32) -> u32 {
    match below(dice, 64) {
        0 => dice.next_u32(),
        1..=28 => word_of(dice, &COMPUTING),
        29..=46 => word_of(dice, &MEMORY),
        47..=58 => word_of(dice, &CONTROL),
        _ => word_of(dice, &SYSTEM),
    }
}
