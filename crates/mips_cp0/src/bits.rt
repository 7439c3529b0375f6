//! The bits of a word, named by masks.
ghost use Rattle.std.specs.Prelude.{◌≡◌};
ghost use Rattle.mips_cp0.specs.Bits.{replaced_bits};

// A word with its bits of the mask taken from other bits.
pub(crate) fn replace_bits(mask: u32, bits: u32, word: u32) -> u32
    ensures { result ≡ replaced_bits mask bits word }
{
    (word & !mask) | (bits & mask)
}
