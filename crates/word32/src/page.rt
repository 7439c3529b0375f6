//! Addresses as a page and a place in it.
ghost use Rattle.std.specs.Prelude.{◌≡◌, ℕ, ◌+◌, ◌*◌, ◌<◌, ◌^◌};
ghost use Rattle.word32.specs.Pages.{page_number, page_offset};

use std::marker::Model;

/// How many bytes a page has.
pub const PAGE_SIZE: u32 = 4096;

/// A physical page number: bits 31 to 12 of the physical addresses of one page. In clauses it is the number.
#[derive(Clone, Copy, Debug, PartialEq, Eq)]
pub struct Ppn {
    number: u32,
}

impl Model for Ppn {
    ghost Value = { ℕ };

    ghost view = { λ p. p.number };

    ghost invariant = { λ p. p.number < 2 ^ 20 };

    ghost inverse = { λ n. record { number = n } };
}

impl Ppn {
    /// The page of this number, which is below 2^20.
    pub fn new(number: u32) -> Ppn
        requires { number < 2 ^ 20 }
        ensures { result ≡ number }
    {
        Ppn { number }
    }

    /// Its number, below 2^20.
    pub fn number(self) -> u32
        ensures value { result ≡ self }
        ensures small { result < 2 ^ 20 }
    {
        self.number
    }
}

/// The page of an address: its bits 31 to 12.
pub fn page_of(address: u32) -> Ppn
    ensures { result ≡ page_number address }
{
    Ppn::new(address >> 12)
}

/// The place of an address in its page, 0 to 4095.
pub fn offset_of(address: u32) -> u32
    ensures { result ≡ page_offset address }
{
    address & 0xfff
}

/// A law: an address is its place in its page, and the pages before that.
pub fn address_is_page_and_offset()
    ensures split { (address : ℕ) → address ≡ page_number address * 4096 + page_offset address }
    ensures within { (address : ℕ) → page_offset address < 4096 }
{}
