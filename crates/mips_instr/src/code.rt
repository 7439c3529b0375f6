//! The fields that are neither registers nor 16 bits long. In clauses each is a number.
ghost use Rattle.std.specs.Prelude.{◌≡◌, ℕ, ◌<◌, ◌^◌};

use std::marker::Model;

/// The software code of a trap on two registers, 10 bits (bits 15 to 6 of the word).
#[derive(Clone, Copy, PartialEq, Eq)]
pub struct TrapCode {
    bits: u16,
}

impl Model for TrapCode {
    ghost Value = { ℕ };

    ghost view = { λ c. c.bits };

    ghost invariant = { λ c. c.bits < 2 ^ 10 };

    ghost inverse = { λ n. record { bits = n } };
}

impl TrapCode {
    /// The field with these bits, a number below 2^10.
    pub fn new(bits: u32) -> TrapCode
        requires { bits < 2 ^ 10 }
        ensures { result ≡ bits }
    {
        TrapCode { bits: bits as u16 }
    }

    /// Its bits, a number below 2^10.
    pub fn bits(self) -> u32
        ensures value { result ≡ self }
        ensures small { result < 2 ^ 10 }
    {
        u32::from(self.bits)
    }
}

/// The software code of SYSCALL or BREAK, 20 bits (bits 25 to 6 of the word).
#[derive(Clone, Copy, PartialEq, Eq)]
pub struct CallCode {
    bits: u32,
}

impl Model for CallCode {
    ghost Value = { ℕ };

    ghost view = { λ c. c.bits };

    ghost invariant = { λ c. c.bits < 2 ^ 20 };

    ghost inverse = { λ n. record { bits = n } };
}

impl CallCode {
    /// The field with these bits, a number below 2^20.
    pub fn new(bits: u32) -> CallCode
        requires { bits < 2 ^ 20 }
        ensures { result ≡ bits }
    {
        CallCode { bits }
    }

    /// Its bits, a number below 2^20.
    pub fn bits(self) -> u32
        ensures value { result ≡ self }
        ensures small { result < 2 ^ 20 }
    {
        self.bits
    }
}

/// The implementation's code of WAIT, 19 bits (bits 24 to 6 of the word).
#[derive(Clone, Copy, PartialEq, Eq)]
pub struct WaitCode {
    bits: u32,
}

impl Model for WaitCode {
    ghost Value = { ℕ };

    ghost view = { λ c. c.bits };

    ghost invariant = { λ c. c.bits < 2 ^ 19 };

    ghost inverse = { λ n. record { bits = n } };
}

impl WaitCode {
    /// The field with these bits, a number below 2^19.
    pub fn new(bits: u32) -> WaitCode
        requires { bits < 2 ^ 19 }
        ensures { result ≡ bits }
    {
        WaitCode { bits }
    }

    /// Its bits, a number below 2^19.
    pub fn bits(self) -> u32
        ensures value { result ≡ self }
        ensures small { result < 2 ^ 19 }
    {
        self.bits
    }
}

/// The stype field of SYNC, 5 bits (bits 10 to 6 of the word).
#[derive(Clone, Copy, PartialEq, Eq)]
pub struct SyncType {
    bits: u8,
}

impl Model for SyncType {
    ghost Value = { ℕ };

    ghost view = { λ c. c.bits };

    ghost invariant = { λ c. c.bits < 2 ^ 5 };

    ghost inverse = { λ n. record { bits = n } };
}

impl SyncType {
    /// The field with these bits, a number below 2^5.
    pub fn new(bits: u32) -> SyncType
        requires { bits < 2 ^ 5 }
        ensures { result ≡ bits }
    {
        SyncType { bits: bits as u8 }
    }

    /// Its bits, a number below 2^5.
    pub fn bits(self) -> u32
        ensures value { result ≡ self }
        ensures small { result < 2 ^ 5 }
    {
        u32::from(self.bits)
    }
}

/// The hint of PREF or the operation of CACHE, 5 bits (bits 20 to 16 of the word).
#[derive(Clone, Copy, PartialEq, Eq)]
pub struct Hint {
    bits: u8,
}

impl Model for Hint {
    ghost Value = { ℕ };

    ghost view = { λ c. c.bits };

    ghost invariant = { λ c. c.bits < 2 ^ 5 };

    ghost inverse = { λ n. record { bits = n } };
}

impl Hint {
    /// The field with these bits, a number below 2^5.
    pub fn new(bits: u32) -> Hint
        requires { bits < 2 ^ 5 }
        ensures { result ≡ bits }
    {
        Hint { bits: bits as u8 }
    }

    /// Its bits, a number below 2^5.
    pub fn bits(self) -> u32
        ensures value { result ≡ self }
        ensures small { result < 2 ^ 5 }
    {
        u32::from(self.bits)
    }
}

/// The select number of a register of coprocessor 0, 3 bits (bits 2 to 0 of the word).
#[derive(Clone, Copy, PartialEq, Eq)]
pub struct Select {
    bits: u8,
}

impl Model for Select {
    ghost Value = { ℕ };

    ghost view = { λ c. c.bits };

    ghost invariant = { λ c. c.bits < 2 ^ 3 };

    ghost inverse = { λ n. record { bits = n } };
}

impl Select {
    /// The field with these bits, a number below 2^3.
    pub fn new(bits: u32) -> Select
        requires { bits < 2 ^ 3 }
        ensures { result ≡ bits }
    {
        Select { bits: bits as u8 }
    }

    /// Its bits, a number below 2^3.
    pub fn bits(self) -> u32
        ensures value { result ≡ self }
        ensures small { result < 2 ^ 3 }
    {
        u32::from(self.bits)
    }
}

/// The instr_index of J or JAL, 26 bits (bits 25 to 0 of the word).
#[derive(Clone, Copy, PartialEq, Eq)]
pub struct JumpTarget {
    bits: u32,
}

impl Model for JumpTarget {
    ghost Value = { ℕ };

    ghost view = { λ c. c.bits };

    ghost invariant = { λ c. c.bits < 2 ^ 26 };

    ghost inverse = { λ n. record { bits = n } };
}

impl JumpTarget {
    /// The field with these bits, a number below 2^26.
    pub fn new(bits: u32) -> JumpTarget
        requires { bits < 2 ^ 26 }
        ensures { result ≡ bits }
    {
        JumpTarget { bits }
    }

    /// Its bits, a number below 2^26.
    pub fn bits(self) -> u32
        ensures value { result ≡ self }
        ensures small { result < 2 ^ 26 }
    {
        self.bits
    }
}

/// What an instruction of coprocessor 1 or 2 has besides its opcode, 26 bits (bits 25 to 0 of the word).
#[derive(Clone, Copy, PartialEq, Eq)]
pub struct CoprocessorCode {
    bits: u32,
}

impl Model for CoprocessorCode {
    ghost Value = { ℕ };

    ghost view = { λ c. c.bits };

    ghost invariant = { λ c. c.bits < 2 ^ 26 };

    ghost inverse = { λ n. record { bits = n } };
}

impl CoprocessorCode {
    /// The field with these bits, a number below 2^26.
    pub fn new(bits: u32) -> CoprocessorCode
        requires { bits < 2 ^ 26 }
        ensures { result ≡ bits }
    {
        CoprocessorCode { bits }
    }

    /// Its bits, a number below 2^26.
    pub fn bits(self) -> u32
        ensures value { result ≡ self }
        ensures small { result < 2 ^ 26 }
    {
        self.bits
    }
}
