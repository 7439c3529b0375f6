//! The fields of five bits.
ghost use Rattle.std.specs.Prelude.{◌≡◌, ℕ, ◌<◌};

use std::marker::Model;

/// The number of a general register, 0 to 31. In clauses it is the number.
#[derive(Clone, Copy, Debug, PartialEq, Eq)]
pub struct Reg {
    number: u8,
}

impl Model for Reg {
    ghost Value = { ℕ };

    ghost view = { λ r. r.number };

    ghost invariant = { λ r. r.number < 32 };

    ghost inverse = { λ n. record { number = n } };
}

impl Reg {
    /// The register of this number, which is below 32.
    pub fn new(number: u32) -> Reg
        requires { number < 32 }
        ensures { result ≡ number }
    {
        Reg {
            number: number as u8,
        }
    }

    /// Its number, below 32.
    pub fn number(self) -> u32
        ensures value { result ≡ self }
        ensures small { result < 32 }
    {
        u32::from(self.number)
    }
}

/// How many bits a shift moves by, 0 to 31. In clauses it is the number.
#[derive(Clone, Copy, Debug, PartialEq, Eq)]
pub struct ShiftAmount {
    bits: u8,
}

impl Model for ShiftAmount {
    ghost Value = { ℕ };

    ghost view = { λ s. s.bits };

    ghost invariant = { λ s. s.bits < 32 };

    ghost inverse = { λ n. record { bits = n } };
}

impl ShiftAmount {
    /// A shift by this many bits, which are fewer than 32.
    pub fn new(bits: u32) -> ShiftAmount
        requires { bits < 32 }
        ensures { result ≡ bits }
    {
        ShiftAmount { bits: bits as u8 }
    }

    /// How many bits, below 32.
    pub fn bits(self) -> u32
        ensures value { result ≡ self }
        ensures small { result < 32 }
    {
        u32::from(self.bits)
    }
}
