//! Products that go to HI and LO.
ghost use Rattle.std.specs.Prelude.{◌≡◌, ℕ, ◌+◌, ◌/◌, ◌%◌, ◌*◌, ◌^◌, ◌<◌, Some};
ghost use Rattle.mips_alu.specs.Signed.{modulo};
ghost use Rattle.std.specs.Int.{cast_signed, w64};
ghost use Rattle.mips_alu.specs.Arithmetic.{arith_result};
ghost use Rattle.mips_alu.specs.declared.arithmetic.ArithOp.TheVariants.{Mul};
ghost use Rattle.mips_alu.specs.declared.multiplying.HiLo.{HiLo};
ghost use Rattle.mips_alu.specs.declared.multiplying.Signedness.{Signedness};
ghost use Rattle.mips_alu.specs.declared.multiplying.Signedness.TheVariants.{Signed, Unsigned};
ghost use Rattle.mips_alu.specs.declared.multiplying.Accumulation.TheVariants.{Set, Add, Subtract};
ghost use Rattle.mips_alu.specs.Multiplying.{joined, split, product, accumulated, multiply_result};

/// The registers HI and LO.
#[derive(Clone, Copy, Debug, PartialEq, Eq)]
pub struct HiLo {
    /// The upper word of a product, or a remainder.
    pub hi: u32,
    /// The lower word of a product, or a quotient.
    pub lo: u32,
}

/// How words stand for integers.
#[derive(Clone, Copy, Debug, PartialEq, Eq)]
pub enum Signedness {
    /// In two's complement, -2^31 to 2^31 - 1.
    Signed,
    /// 0 to 2^32 - 1.
    Unsigned,
}

/// What becomes of a product.
#[derive(Clone, Copy, Debug, PartialEq, Eq)]
pub enum Accumulation {
    /// It replaces the number in HI:LO.
    Set,
    /// It is added to the number in HI:LO.
    Add,
    /// It is subtracted from the number in HI:LO.
    Subtract,
}

/// HI and LO after a product of two words, over what they had before: all modulo 2^64.
pub fn multiply(
    signedness: Signedness,
    accumulation: Accumulation,
    a: u32,
    b: u32,
    old: HiLo,
) -> HiLo
    ensures { result ≡ multiply_result signedness accumulation a b old }
{
    let product = product_bits(signedness, a, b);
    split_words(match accumulation {
        Accumulation::Set => product,
        Accumulation::Add => join_words(old).wrapping_add(product),
        Accumulation::Subtract => join_words(old).wrapping_sub(product),
    })
}

/// The product modulo 2^64.
fn product_bits(signedness: Signedness, a: u32, b: u32) -> u64
    ensures { result ≡ modulo (product signedness a b) (2 ^ 64) }
{
    match signedness {
        Signedness::Signed => {
            (i64::from(a.cast_signed()) * i64::from(b.cast_signed())).cast_unsigned()
        }
        Signedness::Unsigned => u64::from(a) * u64::from(b),
    }
}

fn join_words(words: HiLo) -> u64
    ensures { result ≡ joined words }
{
    u64::from(words.hi) * 0x1_0000_0000 + u64::from(words.lo)
}

fn split_words(number: u64) -> HiLo
    ensures { result ≡ split number }
{
    HiLo {
        hi: (number >> 32) as u32,
        lo: (number % 0x1_0000_0000) as u32,
    }
}

/// A law: HI:LO holds all of an unsigned product.
pub fn unsigned_product_is_whole()
    ensures { (a b : ℕ) (old : HiLo) → a < 2 ^ 32 → b < 2 ^ 32 → joined (multiply_result Unsigned Set a b old) ≡ a * b }
{}

/// A law: the signed value of HI:LO, as a number of 64 bits, is all of a signed product.
pub fn signed_product_is_whole()
    ensures { (a b : ℕ) (old : HiLo) → a < 2 ^ 32 → b < 2 ^ 32 → cast_signed w64 (joined (multiply_result Signed Set a b old)) ≡ product Signed a b }
{}

/// A law: a product that is added and then subtracted leaves HI and LO as they were.
pub fn added_product_is_taken_back()
    ensures { (s : Signedness) (a b : ℕ) (old : HiLo) → a < 2 ^ 32 → b < 2 ^ 32 → old.hi < 2 ^ 32 → old.lo < 2 ^ 32
        → multiply_result s Subtract a b (multiply_result s Add a b old) ≡ old }
{}

/// A law: the result of `Mul` is the low word of the product, signed or unsigned.
#[tactic(auto, using(crate::proofs::Products::low_word))]
pub fn low_word_of_the_product()
    ensures { (s : Signedness) (a b : ℕ) (old : HiLo) → a < 2 ^ 32 → b < 2 ^ 32 → arith_result Mul a b ≡ Some (multiply_result s Set a b old).lo }
{}
