//! A word from its fields.
ghost use Rattle.std.specs.Prelude.{◌≡◌, ◌+◌, ◌*◌, ◌<◌, ◌≤◌, ◌/◌, ◌%◌, ◌^◌};
ghost use Rattle.mips_isa.specs.Fields.{fields, wait_code};

use crate::{CallCode, Reg, TrapCode, WaitCode};

/// Register 0, for a field of five bits that must be zero.
pub fn zero() -> Reg
    ensures { result ≡ 0 }
{
    Reg::new(0)
}

/// Six fields.
pub fn join(op: u32, rs: Reg, rt: Reg, rd: Reg, sa: u32, code: u32) -> u32
    requires op { op < 64 }
    requires sa { sa < 32 }
    requires code { code < 64 }
    ensures { fields result ≡ record { op = op; rs = rs; rt = rt; rd = rd; sa = sa; fn = code } }
{
    op * 0x400_0000
        + rs.number() * 0x20_0000
        + rt.number() * 0x1_0000
        + rd.number() * 0x800
        + sa * 0x40
        + code
}

/// An opcode, two fields of five bits and 16 bits.
pub fn join_imm(op: u32, rs: Reg, rt: u32, imm: u16) -> u32
    requires op { op < 64 }
    requires rt { rt < 32 }
    ensures { fields result ≡ record { op = op; rs = rs; rt = rt; rd = imm / 2 ^ 11; sa = imm / 2 ^ 6 % 32; fn = imm % 64 } }
{
    op * 0x400_0000 + rs.number() * 0x20_0000 + rt * 0x1_0000 + u32::from(imm)
}

/// An opcode and 26 bits.
pub fn join_index(op: u32, index: u32) -> u32
    requires op { op < 64 }
    requires index { index < 2 ^ 26 }
    ensures fields { fields result
        ≡ record { op = op; rs = index / 2 ^ 21; rt = index / 2 ^ 16 % 32; rd = index / 2 ^ 11 % 32; sa = index / 2 ^ 6 % 32; fn = index % 64 } }
    ensures sum { result ≡ op * 2 ^ 26 + index }
{
    op * 0x400_0000 + index
}

/// Opcode 00 with two registers, a code of ten bits and fn.
pub fn join_trap(rs: Reg, rt: Reg, code: TrapCode, function: u32) -> u32
    requires { function < 64 }
    ensures { fields result ≡ record { op = 0; rs = rs; rt = rt; rd = code / 2 ^ 5; sa = code % 32; fn = function } }
{
    rs.number() * 0x20_0000 + rt.number() * 0x1_0000 + code.bits() * 0x40 + function
}

/// Opcode 00 with a code of 20 bits and fn.
pub fn join_call(code: CallCode, function: u32) -> u32
    requires { function < 64 }
    ensures { fields result ≡ record { op = 0; rs = code / 2 ^ 15; rt = code / 2 ^ 10 % 32; rd = code / 2 ^ 5 % 32; sa = code % 32; fn = function } }
{
    code.bits() * 0x40 + function
}

/// Opcode 10 with bit 25 set, a code of 19 bits and fn 20.
pub fn join_wait(code: WaitCode) -> u32
    ensures opcode { result / 2 ^ 26 ≡ 0x10 }
    ensures high { 16 ≤ result / 2 ^ 21 % 32 }
    ensures function { result % 64 ≡ 0x20 }
    ensures code { wait_code (fields result) ≡ code }
{
    0x4200_0000 + code.bits() * 0x40 + 0x20
}
