//! Operations on two words.
ghost use Rattle.std.specs.Prelude.{◌≡◌, ℕ, pos, ◌+◌, ◌%◌, ◌^◌, ◌<◌, ◌+ℤ◌, ◌-ℤ◌, ◌≤ℤ◌, ◌<ℤ◌, ◌⊎◌, ◌↔◌, neg_ℤ, IfSome, IsNone, Some};
ghost use Rattle.mips_alu.specs.Arithmetic.{arith_result};
ghost use Rattle.mips_alu.specs.declared.arithmetic.ArithOp.TheVariants.{Add, Addu, Sub, Subu};
ghost use Rattle.mips_alu.specs.Signed.{signed_value, signed_word};

use crate::{Comparison, compare};

/// An operation on two words.
#[derive(Clone, Copy, Debug, PartialEq, Eq)]
pub enum ArithOp {
    /// The sum of the signed values, or an overflow.
    Add,
    /// The sum modulo 2^32.
    Addu,
    /// The difference of the signed values, or an overflow.
    Sub,
    /// The difference modulo 2^32.
    Subu,
    /// Of each bit, whether both are set.
    And,
    /// Of each bit, whether one is set or both.
    Or,
    /// Of each bit, whether just one is set.
    Xor,
    /// Of each bit, whether none is set.
    Nor,
    /// 1 where the signed value of the first is below that of the second, else 0.
    Slt,
    /// 1 where the first is below the second, else 0.
    Sltu,
    /// The low word of the product.
    Mul,
}

/// The result of an operation. It is `None` exactly where `Add` or `Sub` overflows, that is where the sum or the
/// difference of the signed values is no signed value of a word.
#[inline(always)]
pub fn arith(op: ArithOp, a: u32, b: u32) -> Option<u32>
    ensures { result ≡ arith_result op a b }
{
    match op {
        ArithOp::Add => signed_sum(a.cast_signed(), b.cast_signed()),
        ArithOp::Addu => Some(a.wrapping_add(b)),
        ArithOp::Sub => signed_difference(a.cast_signed(), b.cast_signed()),
        ArithOp::Subu => Some(a.wrapping_sub(b)),
        ArithOp::And => Some(a & b),
        ArithOp::Or => Some(a | b),
        ArithOp::Xor => Some(a ^ b),
        ArithOp::Nor => Some(!(a | b)),
        ArithOp::Slt => Some(u32::from(compare(Comparison::Less, a, b))),
        ArithOp::Sltu => Some(u32::from(compare(Comparison::LessUnsigned, a, b))),
        ArithOp::Mul => Some(a.wrapping_mul(b)),
    }
}

fn signed_sum(a: i32, b: i32) -> Option<u32>
    ensures { result ≡ signed_word (a +ℤ b) }
{
    match a.checked_add(b) {
        Some(sum) => Some(sum.cast_unsigned()),
        None => None,
    }
}

fn signed_difference(a: i32, b: i32) -> Option<u32>
    ensures { result ≡ signed_word (a -ℤ b) }
{
    match a.checked_sub(b) {
        Some(difference) => Some(difference.cast_unsigned()),
        None => None,
    }
}

/// A law: where `Add` has a result, its signed value is the sum of the signed values.
pub fn sum_of_signed_values()
    ensures { (a b : ℕ) → a < 2 ^ 32 → b < 2 ^ 32 → IfSome (arith_result Add a b) (λ r. signed_value r ≡ signed_value a +ℤ signed_value b) }
{}

/// A law: where `Sub` has a result, its signed value is the difference of the signed values.
pub fn difference_of_signed_values()
    ensures { (a b : ℕ) → a < 2 ^ 32 → b < 2 ^ 32 → IfSome (arith_result Sub a b) (λ r. signed_value r ≡ signed_value a -ℤ signed_value b) }
{}

/// A law: where `Add` has a result, it is that of `Addu`.
pub fn sum_without_overflow_is_the_sum_modulo()
    ensures { (a b : ℕ) → a < 2 ^ 32 → b < 2 ^ 32 → IfSome (arith_result Add a b) (λ r. arith_result Addu a b ≡ Some r) }
{}

/// A law: where `Sub` has a result, it is that of `Subu`.
pub fn difference_without_overflow_is_the_difference_modulo()
    ensures { (a b : ℕ) → a < 2 ^ 32 → b < 2 ^ 32 → IfSome (arith_result Sub a b) (λ r. arith_result Subu a b ≡ Some r) }
{}

/// A law: `Add` overflows exactly where the sum of the signed values is below -2^31 or not below 2^31.
pub fn sum_overflows_outside_the_signed_values()
    ensures { (a b : ℕ) → a < 2 ^ 32 → b < 2 ^ 32
        → IsNone (arith_result Add a b) ↔
        (((signed_value a +ℤ signed_value b) <ℤ neg_ℤ (pos (2 ^ 31))) ⊎ (pos (2 ^ 31) ≤ℤ (signed_value a +ℤ signed_value b))) }
{}

/// A law: `Sub` overflows exactly where the difference of the signed values is below -2^31 or not below 2^31.
pub fn difference_overflows_outside_the_signed_values()
    ensures { (a b : ℕ) → a < 2 ^ 32 → b < 2 ^ 32
        → IsNone (arith_result Sub a b) ↔
        (((signed_value a -ℤ signed_value b) <ℤ neg_ℤ (pos (2 ^ 31))) ⊎ (pos (2 ^ 31) ≤ℤ (signed_value a -ℤ signed_value b))) }
{}

/// A law: the result of `Subu` plus the word that was subtracted is the first word, modulo 2^32.
pub fn difference_and_subtrahend_give_the_minuend()
    ensures { (a b : ℕ) → a < 2 ^ 32 → b < 2 ^ 32 → IfSome (arith_result Subu a b) (λ r. (r + b) % 2 ^ 32 ≡ a) }
{}
