//! The fields of a word, each by its place.
ghost use Rattle.std.specs.Prelude.{◌≡◌, ◌<◌, ◌≤◌, ◌+◌, ◌-◌, ◌*◌, ◌/◌, ◌%◌, ◌^◌};
ghost use Rattle.mips_isa.specs.Fields.{fields, immediate, index, trap_code, call_code, wait_code};

use crate::{
    CallCode, CoprocessorCode, Hint, JumpTarget, Reg, Select, ShiftAmount, SyncType, TrapCode,
    WaitCode,
};

pub fn rs_of(word: u32) -> Reg
    ensures { result ≡ word / 2 ^ 21 % 32 }
{
    Reg::new((word >> 21) % 32)
}

pub fn rt_of(word: u32) -> Reg
    ensures { result ≡ word / 2 ^ 16 % 32 }
{
    Reg::new((word >> 16) % 32)
}

pub fn rd_of(word: u32) -> Reg
    ensures { result ≡ word / 2 ^ 11 % 32 }
{
    Reg::new((word >> 11) % 32)
}

pub fn sa_of(word: u32) -> ShiftAmount
    ensures { result ≡ word / 2 ^ 6 % 32 }
{
    ShiftAmount::new((word >> 6) % 32)
}

pub fn stype_of(word: u32) -> SyncType
    ensures { result ≡ word / 2 ^ 6 % 32 }
{
    SyncType::new((word >> 6) % 32)
}

pub fn hint_of(word: u32) -> Hint
    ensures { result ≡ word / 2 ^ 16 % 32 }
{
    Hint::new((word >> 16) % 32)
}

pub fn select_of(word: u32) -> Select
    requires { word % 64 < 8 }
    ensures { result ≡ word % 64 }
{
    Select::new(word % 64)
}

pub fn imm_of(word: u32) -> u16
    ensures { result ≡ immediate (fields word) }
{
    (word % 0x1_0000) as u16
}

pub fn trap_code_of(word: u32) -> TrapCode
    ensures { result ≡ trap_code (fields word) }
{
    TrapCode::new((word >> 6) % 0x400)
}

pub fn call_code_of(word: u32) -> CallCode
    ensures { result ≡ call_code (fields word) }
{
    CallCode::new((word >> 6) % 0x10_0000)
}

pub fn wait_code_of(word: u32) -> WaitCode
    requires { 16 ≤ word / 2 ^ 21 % 32 }
    ensures { result ≡ wait_code (fields word) }
{
    WaitCode::new((word >> 6) % 0x8_0000)
}

pub fn target_of(word: u32) -> JumpTarget
    ensures { result ≡ index (fields word) }
{
    JumpTarget::new(word % 0x400_0000)
}

pub fn coprocessor_code_of(word: u32) -> CoprocessorCode
    ensures { result ≡ index (fields word) }
{
    CoprocessorCode::new(word % 0x400_0000)
}
