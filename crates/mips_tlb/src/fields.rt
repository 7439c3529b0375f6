//! Fields of a TLB entry.
ghost use Rattle.std.specs.Prelude.{◌≡◌, ℕ, ◌<◌, ◌^◌};

use std::marker::Model;

/// The virtual page number of a pair of pages, VPN2: bits 31 to 13 of their addresses. In clauses it is the number.
#[derive(Clone, Copy, Debug, PartialEq, Eq)]
pub struct Vpn2 {
    number: u32,
}

impl Model for Vpn2 {
    ghost Value = { ℕ };

    ghost view = { λ v. v.number };

    ghost invariant = { λ v. v.number < 2 ^ 19 };

    ghost inverse = { λ n. record { number = n } };
}

impl Vpn2 {
    /// The pair of this number, which is below 2^19.
    pub fn new(number: u32) -> Vpn2
        requires { number < 2 ^ 19 }
        ensures { result ≡ number }
    {
        Vpn2 { number }
    }

    /// Its number, below 2^19.
    pub fn number(self) -> u32
        ensures value { result ≡ self }
        ensures small { result < 2 ^ 19 }
    {
        self.number
    }
}

/// The coherence attribute of a page, C, 0 to 7; it is kept and has no effect. In clauses it is the number.
#[derive(Clone, Copy, Debug, PartialEq, Eq)]
pub struct Coherence {
    code: u8,
}

impl Model for Coherence {
    ghost Value = { ℕ };

    ghost view = { λ c. c.code };

    ghost invariant = { λ c. c.code < 8 };

    ghost inverse = { λ n. record { code = n } };
}

impl Coherence {
    /// The attribute of this code, which is below 8.
    pub fn new(code: u8) -> Coherence
        requires { code < 8 }
        ensures { result ≡ code }
    {
        Coherence { code }
    }

    /// Its code, below 8.
    pub fn code(self) -> u8
        ensures value { result ≡ self }
        ensures small { result < 8 }
    {
        self.code
    }
}
