//! Quotients and remainders.
ghost use Rattle.std.specs.Prelude.{◌≡◌, ℕ, pos, ◌+◌, ◌-◌, ◌*◌, ◌^◌, ◌<◌, ◌≤◌, ◌+ℤ◌, ◌*ℤ◌, ◌≤ℤ◌, ◌<ℤ◌, int_div, int_rem, unsigned_abs};
ghost use Rattle.std.specs.Int.{cast_unsigned, w32, CanDivide};
ghost use Rattle.mips_alu.specs.Dividing.{divide_result, Overflows};
ghost use Rattle.mips_alu.specs.Signed.{signed_value};
ghost use Rattle.mips_alu.specs.declared.multiplying.Signedness.{Signedness};
ghost use Rattle.mips_alu.specs.declared.multiplying.Signedness.TheVariants.{Signed, Unsigned};

use crate::{HiLo, Signedness};

/// The quotient of two words, cut towards zero, in LO, and the remainder, with the sign of the dividend, in HI. Where the
/// divisor is zero LO has all bits set and HI is the dividend; where -2^31 is divided by -1 LO is -2^31 and HI is 0.
pub fn divide(signedness: Signedness, a: u32, b: u32) -> HiLo
    ensures { result ≡ divide_result signedness a b }
{
    if b == 0 {
        return HiLo {
            hi: a,
            lo: 0xffff_ffff,
        };
    }
    match signedness {
        Signedness::Unsigned => HiLo {
            hi: a % b,
            lo: a / b,
        },
        Signedness::Signed => {
            if a == 0x8000_0000 && b == 0xffff_ffff {
                return HiLo { hi: 0, lo: a };
            }
            HiLo {
                hi: remainder(a.cast_signed(), b.cast_signed()),
                lo: quotient(a.cast_signed(), b.cast_signed()),
            }
        }
    }
}

#[tactic(auto, using(crate::proofs::Quotients::quotient_word))]
fn quotient(a: i32, b: i32) -> u32
    requires { CanDivide w32 a b }
    ensures { result ≡ cast_unsigned w32 (int_div a b) }
{
    (a / b).cast_unsigned()
}

#[tactic(auto, using(crate::proofs::Quotients::remainder_word))]
fn remainder(a: i32, b: i32) -> u32
    requires { CanDivide w32 a b }
    ensures { result ≡ cast_unsigned w32 (int_rem a b) }
{
    (a % b).cast_unsigned()
}

/// A law: quotient times divisor plus remainder is the dividend, and the remainder is below the divisor.
pub fn unsigned_division_multiplies_back()
    ensures { (a b : ℕ) → 0 < b → let result = divide_result Unsigned a b in (result.lo * b + result.hi ≡ a) × (result.hi < b) }
{}

/// A law: quotient times divisor plus remainder is the dividend, for all signed values but those of -2^31 by -1.
#[tactic(auto, using(crate::proofs::Quotients::multiplies_back))]
pub fn signed_division_multiplies_back()
    ensures { (a b : ℕ) → a < 2 ^ 32 → b < 2 ^ 32 → 0 < b → ¬ (Overflows a b)
        → ((signed_value (divide_result Signed a b).lo *ℤ signed_value b) +ℤ signed_value (divide_result Signed a b).hi) ≡ signed_value a }
{}

/// A law: the signed remainder is nearer to zero than the divisor.
#[tactic(auto, using(crate::proofs::Quotients::not_both))]
pub fn signed_remainder_is_small()
    ensures { (a b : ℕ) → a < 2 ^ 32 → b < 2 ^ 32 → 0 < b → ¬ (Overflows a b)
        → unsigned_abs (signed_value (divide_result Signed a b).hi) < unsigned_abs (signed_value b) }
{}

/// A law: the signed remainder is zero or has the sign of the dividend.
#[tactic(auto, using(crate::proofs::Quotients::not_both))]
pub fn signed_remainder_has_the_sign_of_the_dividend()
    ensures { (a b : ℕ) → a < 2 ^ 32 → b < 2 ^ 32 → 0 < b → ¬ (Overflows a b)
        → let r = signed_value (divide_result Signed a b).hi in (pos 0 ≤ℤ signed_value a → pos 0 ≤ℤ r) × (signed_value a <ℤ pos 0 → r ≤ℤ pos 0) }
{}

/// A choice: a division by zero gives all ones in LO and the dividend in HI.
pub fn division_by_zero()
    ensures { (s : Signedness) (a : ℕ) → divide_result s a 0 ≡ record { hi = a; lo = 2 ^ 32 - 1 } }
{}

/// A choice: -2^31 divided by -1 gives -2^31 in LO and zero in HI.
pub fn division_that_overflows()
    ensures { divide_result Signed (2 ^ 31) (2 ^ 32 - 1) ≡ record { hi = 0; lo = 2 ^ 31 } }
{}
