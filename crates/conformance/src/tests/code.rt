//! Machine code as data: a value for each instruction, its operands in the order of the assembler.
use Code::*;
use std::alloc::Global;
use std::test::Fail;

/// An instruction or a piece of data of an image. A register is its number, an immediate its 16 bits, and the offset of a
/// branch counts instructions from its delay slot, in 16 bits too.
#[derive(Clone, Copy)]
pub enum Code {
    /// What follows stands at this offset from the start of the image; the bytes before it are zeros.
    At(u32),
    /// A word as it is.
    Word(u32),
    /// `sll $0,$0,0`
    Nop,
    /// `addiu $rt,$rs,immediate`
    Addiu(u32, u32, u32),
    /// `addi $rt,$rs,immediate`
    Addi(u32, u32, u32),
    /// `ori $rt,$rs,immediate`
    Ori(u32, u32, u32),
    /// `lui $rt,immediate`
    Lui(u32, u32),
    /// `add $rd,$rs,$rt`
    Add(u32, u32, u32),
    /// `addu $rd,$rs,$rt`
    Addu(u32, u32, u32),
    /// `teq $rs,$rt`
    Teq(u32, u32),
    /// `lb $rt,offset($base)`, as each load and store
    Lb(u32, u32, u32),
    Lh(u32, u32, u32),
    Lwl(u32, u32, u32),
    Lw(u32, u32, u32),
    Lbu(u32, u32, u32),
    Lhu(u32, u32, u32),
    Lwr(u32, u32, u32),
    Ll(u32, u32, u32),
    Sb(u32, u32, u32),
    Sh(u32, u32, u32),
    Swl(u32, u32, u32),
    Sw(u32, u32, u32),
    Swr(u32, u32, u32),
    Sc(u32, u32, u32),
    /// `cache operation,offset($base)`
    Cache(u32, u32, u32),
    /// `pref hint,offset($base)`
    Pref(u32, u32, u32),
    /// `beq $rs,$rt,offset`
    Beq(u32, u32, u32),
    /// `bne $rs,$rt,offset`
    Bne(u32, u32, u32),
    /// `beql $rs,$rt,offset`
    Beql(u32, u32, u32),
    /// `bnel $rs,$rt,offset`
    Bnel(u32, u32, u32),
    /// `bltzall $rs,offset`
    Bltzall(u32, u32),
    /// `j`, to this place in the 256 MB of its delay slot
    J(u32),
    /// `jr $rs`
    Jr(u32),
    /// `jalr $rd,$rs`
    Jalr(u32, u32),
    Syscall,
    Break,
    /// `mfc0 $rt,$rd`
    Mfc0(u32, u32),
    /// `mtc0 $rt,$rd`
    Mtc0(u32, u32),
    Tlbr,
    Tlbwi,
    Tlbwr,
    Tlbp,
    Eret,
    Wait,
}

/// Numbers of system registers.
pub const INDEX: u32 = 0;

pub const RANDOM: u32 = 1;

pub const ENTRY_LO0: u32 = 2;

pub const ENTRY_LO1: u32 = 3;

pub const CONTEXT: u32 = 4;

pub const WIRED: u32 = 6;

pub const COUNT: u32 = 9;

pub const ENTRY_HI: u32 = 10;

pub const COMPARE: u32 = 11;

pub const STATUS: u32 = 12;

pub const CAUSE: u32 = 13;

pub const EPC: u32 = 14;

pub const CONFIG: u32 = 16;

pub const ERROR_EPC: u32 = 30;

impl Code {
    /// The word of an instruction or of data; zeros for a place.
    fn word(self) -> u32 {
        match self {
            At(_) | Nop => 0,
            Word(word) => word,
            Addi(rt, rs, imm) => immediate(0x08, rs, rt, imm),
            Addiu(rt, rs, imm) => immediate(0x09, rs, rt, imm),
            Ori(rt, rs, imm) => immediate(0x0d, rs, rt, imm),
            Lui(rt, imm) => immediate(0x0f, 0, rt, imm),
            Add(rd, rs, rt) => special(0x20, rs, rt, rd),
            Addu(rd, rs, rt) => special(0x21, rs, rt, rd),
            Teq(rs, rt) => special(0x34, rs, rt, 0),
            Lb(rt, offset, base) => immediate(0x20, base, rt, offset),
            Lh(rt, offset, base) => immediate(0x21, base, rt, offset),
            Lwl(rt, offset, base) => immediate(0x22, base, rt, offset),
            Lw(rt, offset, base) => immediate(0x23, base, rt, offset),
            Lbu(rt, offset, base) => immediate(0x24, base, rt, offset),
            Lhu(rt, offset, base) => immediate(0x25, base, rt, offset),
            Lwr(rt, offset, base) => immediate(0x26, base, rt, offset),
            Sb(rt, offset, base) => immediate(0x28, base, rt, offset),
            Sh(rt, offset, base) => immediate(0x29, base, rt, offset),
            Swl(rt, offset, base) => immediate(0x2a, base, rt, offset),
            Sw(rt, offset, base) => immediate(0x2b, base, rt, offset),
            Swr(rt, offset, base) => immediate(0x2e, base, rt, offset),
            Cache(operation, offset, base) => immediate(0x2f, base, operation, offset),
            Ll(rt, offset, base) => immediate(0x30, base, rt, offset),
            Pref(hint, offset, base) => immediate(0x33, base, hint, offset),
            Sc(rt, offset, base) => immediate(0x38, base, rt, offset),
            Beq(rs, rt, offset) => immediate(0x04, rs, rt, offset),
            Bne(rs, rt, offset) => immediate(0x05, rs, rt, offset),
            Beql(rs, rt, offset) => immediate(0x14, rs, rt, offset),
            Bnel(rs, rt, offset) => immediate(0x15, rs, rt, offset),
            Bltzall(rs, offset) => immediate(0x01, rs, 0x12, offset),
            J(target) => 0x02 << 26 | target >> 2 & 0x03ff_ffff,
            Jr(rs) => special(0x08, rs, 0, 0),
            Jalr(rd, rs) => special(0x09, rs, 0, rd),
            Syscall => special(0x0c, 0, 0, 0),
            Break => special(0x0d, 0, 0, 0),
            Mfc0(rt, rd) => 0x10 << 26 | special(0, 0x00, rt, rd),
            Mtc0(rt, rd) => 0x10 << 26 | special(0, 0x04, rt, rd),
            Tlbr => 0x4200_0001,
            Tlbwi => 0x4200_0002,
            Tlbwr => 0x4200_0006,
            Tlbp => 0x4200_0008,
            Eret => 0x4200_0018,
            Wait => 0x4200_0020,
        }
    }
}

fn immediate(op: u32, rs: u32, rt: u32, imm: u32) -> u32 {
    op << 26 | rs << 21 | rt << 16 | imm
}

/// A word of opcode 0.
fn special(function: u32, rs: u32, rt: u32, rd: u32) -> u32 {
    rs << 21 | rt << 16 | rd << 11 | function
}

/// The bytes of an image; each word stands lowest byte first.
pub fn image_of(alloc: Global, code: &[Code]) -> Result<Vec<u8>, Fail> {
    let mut bytes = Vec::new(alloc);
    for part in code {
        match *part {
            At(offset) => {
                let offset = offset as usize;
                if offset < bytes.len() {
                    return Err(Fail::from("code above the place of what follows"));
                }
                bytes.resize(offset, 0)?;
            }
            instruction => bytes.extend_from_slice(&instruction.word().to_le_bytes())?,
        }
    }
    Ok(bytes)
}
