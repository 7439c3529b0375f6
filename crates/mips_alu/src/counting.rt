//! Counts of leading bits.
ghost use Rattle.std.specs.Prelude.{◌≡◌, ℕ, ◌+◌, ◌-◌, ◌<◌, ◌≤◌, ◌^◌};
ghost use Rattle.mips_alu.specs.Counting.{leading_count, HasLeadingZeros};
ghost use Rattle.mips_alu.specs.declared.counting.LeadingBits.TheVariants.{Zeros, Ones};

/// Which bits are counted.
#[derive(Clone, Copy, Debug, PartialEq, Eq)]
pub enum LeadingBits {
    Zeros,
    Ones,
}

/// How many bits of this kind a word has above its first of the other kind, 0 to 32.
pub fn count_leading(bits: LeadingBits, word: u32) -> u32
    ensures count { result ≡ leading_count bits word }
    ensures at_most { result ≤ 32 }
{
    match bits {
        LeadingBits::Zeros => word.leading_zeros(),
        LeadingBits::Ones => word.leading_ones(),
    }
}

/// A law: a word with k leading zeros that is not 0 lies from 2^(31-k) to 2^(32-k) - 1.
#[tactic(auto, using(crate::proofs::LeadingZeros::bound))]
pub fn leading_zeros_bound_the_word()
    ensures { (word : ℕ) → 0 < word → word < 2 ^ 32 → HasLeadingZeros word (leading_count Zeros word) }
{}

/// A law: zero has 32 leading zeros.
#[tactic(auto, using(crate::proofs::LeadingZeros::of_zero))]
pub fn zero_is_all_zeros()
    ensures { leading_count Zeros 0 ≡ 32 }
{}

/// A law: the leading ones of a word are the leading zeros of its complement.
pub fn leading_ones_are_zeros_of_the_complement()
    ensures { (word : ℕ) → word < 2 ^ 32 → leading_count Ones word ≡ leading_count Zeros (2 ^ 32 - 1 - word) }
{}
