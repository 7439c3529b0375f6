//! Physical addresses.
ghost use Rattle.std.specs.Prelude.{◌≡◌, ◌+◌, ◌*◌, ◌/◌, ◌%◌, ◌<◌, ◌≤◌, ◌^◌, ℕ};
ghost use Rattle.word32.specs.Pages.{page_number, page_offset};

use std::marker::Model;
use word32::{PAGE_SIZE, Ppn, offset_of, page_of};

/// A physical address: where translation leads, and what the bus is asked by. In clauses it is the number.
///
/// A virtual address stays a word, since it is one: the value of a register, or of a sum of registers. So neither can stand for the other.
#[derive(Clone, Copy, Debug, PartialEq, Eq)]
pub struct PhysAddr {
    number: u32,
}

impl Model for PhysAddr {
    ghost Value = { ℕ };

    ghost view = { λ a. a.number };

    ghost inverse = { λ n. record { number = n } };
}

// Each method is one or two instructions of the host and part of the fastest loops, so it is held by its caller.
impl PhysAddr {
    /// The address of this number.
    #[inline(always)]
    pub fn new(number: u32) -> PhysAddr
        ensures { result ≡ number }
    {
        PhysAddr { number }
    }

    /// The address of a place, below 4,096, in a page.
    #[inline(always)]
    pub fn in_page(page: Ppn, offset: u32) -> PhysAddr
        requires { offset < 4096 }
        ensures { result ≡ page * 4096 + offset }
    {
        PhysAddr::new(page.number() * PAGE_SIZE + offset)
    }

    /// Its number.
    #[inline(always)]
    pub fn number(self) -> u32
        ensures { result ≡ self }
    {
        self.number
    }

    /// Its place in a memory that begins at physical address 0.
    #[inline(always)]
    pub fn index(self) -> usize
        ensures value { result ≡ self }
        ensures small { result < 2 ^ 32 }
    {
        self.number as usize
    }

    /// Its page.
    #[inline(always)]
    pub fn page(self) -> Ppn
        ensures { result ≡ page_number self }
    {
        page_of(self.number)
    }

    /// Its place in its page, 0 to 4095.
    #[inline(always)]
    pub fn offset(self) -> u32
        ensures value { result ≡ page_offset self }
        ensures small { result < 4096 }
    {
        offset_of(self.number)
    }

    /// The address of the aligned word that has it.
    #[inline(always)]
    pub fn word(self) -> PhysAddr
        ensures { result ≡ self / 4 * 4 }
    {
        PhysAddr::new(self.number / 4 * 4)
    }

    /// Its place in the aligned word that has it, 0 to 3.
    #[inline(always)]
    pub fn byte_of_word(self) -> u32
        ensures value { result ≡ self % 4 }
        ensures small { result < 4 }
    {
        self.number % 4
    }

    /// The address of the word that is so many words after it in its page.
    #[inline(always)]
    pub fn words_on(self, count: u32) -> PhysAddr
        requires { page_offset self + 4 * count < 4096 }
        ensures { result ≡ self + 4 * count }
    {
        PhysAddr::new(self.number + 4 * count)
    }
}
