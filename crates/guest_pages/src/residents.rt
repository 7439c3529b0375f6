//! Which pages of a map are in a frame, for a search that passes over stretches of pages that are in none.
ghost use Rattle.std.specs.Prelude.{◌≡◌, ◌+◌, ◌*◌, ◌/◌, ◌<◌, ◌≤◌, ℕ, IfOk, IfSome, IfNone, length, replicate};
ghost use Rattle.guest_pages.specs.Marks.{bit_of, bit_in, NoneMarked};

use crate::bits::{Bits, first_bit};
use std::alloc::{AllocError, Global};
use std::marker::Model;

/// A set of page numbers: a bit for each number, and above them a bit for each word of 64 bits, set where the word is not 0. In clauses
/// it is the list of the words.
#[derive(Drop)]
pub(crate) struct Residents {
    pages: Bits,
    words: Bits,
}

impl Model for Residents {
    ghost use Rattle.std.specs.Prelude.{ℕ, List};
    ghost use Rattle.guest_pages.specs.Marks.{AreSummed};

    ghost Value = { List ℕ };

    ghost view = { λ r. r.pages };

    ghost invariant = { λ r. AreSummed r.pages r.words };
}

impl Residents {
    /// The empty set of numbers to a last one. `AllocError` where a request for memory was refused.
    pub(crate) fn new(alloc: Global, last: u32) -> Result<Residents, AllocError>
        ensures { IfOk result (λ set. set ≡ replicate (last / 64 + 1) 0) }
    {
        let pages = Bits::new(alloc, last)?;
        let words = Bits::new(alloc, last / 64)?;
        Ok(Residents { pages, words })
    }

    /// Puts a number into the set, or takes it out of it.
    pub(crate) fn put(&mut self, p: usize, resident: bool)
        requires { p < length self.old * 64 }
        ensures same { bit_in self.new p ≡ bit_of resident }
        ensures others { (q : ℕ) → (q ≡ p → ⊥) → bit_in self.new q ≡ bit_in self.old q }
        ensures length { length self.new ≡ length self.old }
    {
        self.pages.put(p, resident);
        let word = p / 64;
        let some = self.pages.word(word) != 0;
        self.words.put(word, some);
    }

    /// The first number of the set from one on. It looks at two words of pages, and at one word above them for each 4,096 numbers that it
    /// passes over.
    pub(crate) fn next(&self, from: usize) -> Option<usize>
        ensures within { IfSome result (λ p. (from ≤ p) × (p < length self.now * 64)) }
        ensures set { IfSome result (λ p. bit_in self.now p ≡ 1) }
        ensures first { IfSome result (λ p. NoneMarked self.now from p) }
        ensures none { IfNone result (NoneMarked self.now from (length self.now * 64)) }
    {
        let own = from / 64;
        if own >= self.pages.len() {
            return None;
        }
        if let Some(bit) = first_bit(self.pages.word(own), (from % 64) as u32) {
            return Some(own * 64 + bit as usize);
        }
        let Some(word) = self.words.next(own + 1) else {
            return None;
        };
        match first_bit(self.pages.word(word), 0) {
            Some(bit) => Some(word * 64 + bit as usize),
            None => unreachable!(),
        }
    }
}
