//! A bit for each number below a bound.
ghost use Rattle.std.specs.Prelude.{◌≡◌, ◌+◌, ◌*◌, ◌/◌, ◌<◌, ◌≤◌, ◌^◌, ℕ, IfOk, IfSome, IfNone, length, replicate, slice_index};
ghost use Rattle.std.specs.Int.{bit_at};
ghost use Rattle.guest_pages.specs.Marks.{bit_of, bit_in, NoneMarked};

use std::alloc::{AllocError, Global};
use std::marker::Model;

/// Bits of numbers, 64 of them in a word. In clauses it is the list of the words.
#[derive(Drop)]
pub(crate) struct Bits {
    words: Vec<u64>,
}

impl Model for Bits {
    ghost use Rattle.std.specs.Prelude.{ℕ, List, ◌≤◌, ◌^◌, length};

    ghost Value = { List ℕ };

    ghost view = { λ b. b.words.items };

    ghost invariant = { λ b. length b.words.items ≤ 2 ^ 26 };
}

// The word with the bit of one place set or not.
fn with_bit(word: u64, place: u32, bit: bool) -> u64
    requires { place < 64 }
    ensures same { bit_at result place ≡ bit_of bit }
    ensures others { (i : ℕ) → i < 64 → (i ≡ place → ⊥) → bit_at result i ≡ bit_at word i }
{
    if bit {
        word | (1u64 << place)
    } else {
        word & !(1u64 << place)
    }
}

/// The first place of a word from one on whose bit is set.
pub(crate) fn first_bit(word: u64, from: u32) -> Option<u32>
    requires { from < 64 }
    ensures within { IfSome result (λ i. (from ≤ i) × (i < 64)) }
    ensures set { IfSome result (λ i. bit_at word i ≡ 1) }
    ensures first { IfSome result (λ i. (j : ℕ) → from ≤ j → j < i → bit_at word j ≡ 0) }
    ensures none { IfNone result ((j : ℕ) → from ≤ j → j < 64 → bit_at word j ≡ 0) }
{
    let rest = word >> from;
    if rest == 0 {
        None
    } else {
        Some(from + rest.trailing_zeros())
    }
}

impl Bits {
    /// The bits of the numbers to a last one, none of which is set. `AllocError` where a request for memory was refused.
    pub(crate) fn new(alloc: Global, last: u32) -> Result<Bits, AllocError>
        ensures { IfOk result (λ bits. bits ≡ replicate (last / 64 + 1) 0) }
    {
        let words = vec![in alloc; 0u64; (last / 64 + 1) as usize]?;
        Ok(Bits { words })
    }

    /// How many words there are.
    pub(crate) fn len(&self) -> usize
        ensures value { result ≡ length self.now }
        ensures few { result ≤ 2 ^ 26 }
    {
        self.words.len()
    }

    /// The word of this number.
    pub(crate) fn word(&self, k: usize) -> u64
        requires { k < length self.now }
        ensures { result ≡ slice_index self.now k }
    {
        self.words[k]
    }

    /// Sets the bit of a number or not.
    pub(crate) fn put(&mut self, p: usize, bit: bool)
        requires { p / 64 < length self.old }
        ensures same { bit_in self.new p ≡ bit_of bit }
        ensures others { (q : ℕ) → (q ≡ p → ⊥) → bit_in self.new q ≡ bit_in self.old q }
        ensures words { (k : ℕ) → (k ≡ p / 64 → ⊥) → slice_index self.new k ≡ slice_index self.old k }
        ensures length { length self.new ≡ length self.old }
    {
        let place = p / 64;
        self.words[place] = with_bit(self.words[place], (p % 64) as u32, bit);
    }

    /// The first number from one on whose bit is set, after a look at each word from its own on.
    pub(crate) fn next(&self, from: usize) -> Option<usize>
        ensures within { IfSome result (λ p. (from ≤ p) × (p < length self.now * 64)) }
        ensures set { IfSome result (λ p. bit_in self.now p ≡ 1) }
        ensures first { IfSome result (λ p. NoneMarked self.now from p) }
        ensures none { IfNone result (NoneMarked self.now from (length self.now * 64)) }
    {
        let own = from / 64;
        if own >= self.words.len() {
            return None;
        }
        if let Some(bit) = first_bit(self.words[own], (from % 64) as u32) {
            return Some(own * 64 + bit as usize);
        }
        for place in own + 1..self.words.len() {
            if let Some(bit) = first_bit(self.words[place], 0) {
                return Some(place * 64 + bit as usize);
            }
        }
        None
    }
}
