//! Comparisons of two words.
ghost use Rattle.std.specs.Prelude.{◌≡◌, ℕ, ◌<ℤ◌, ◌↔◌, IsTrue};
ghost use Rattle.mips_alu.specs.Comparing.{compare_result};
ghost use Rattle.mips_alu.specs.Signed.{signed_value};
ghost use Rattle.mips_alu.specs.declared.comparing.Comparison.TheVariants.{Less};

/// A comparison of two words. Those that say no more compare signed values or, for equality, all bits.
#[derive(Clone, Copy, Debug, PartialEq, Eq)]
pub enum Comparison {
    Equal,
    NotEqual,
    Less,
    LessUnsigned,
    AtLeast,
    AtLeastUnsigned,
    AtMost,
    Greater,
}

/// Whether the first word is to the second as the comparison says.
#[inline(always)]
pub fn compare(comparison: Comparison, a: u32, b: u32) -> bool
    ensures { result ≡ compare_result comparison a b }
{
    match comparison {
        Comparison::Equal => a == b,
        Comparison::NotEqual => a != b,
        Comparison::Less => a.cast_signed() < b.cast_signed(),
        Comparison::LessUnsigned => a < b,
        Comparison::AtLeast => a.cast_signed() >= b.cast_signed(),
        Comparison::AtLeastUnsigned => a >= b,
        Comparison::AtMost => a.cast_signed() <= b.cast_signed(),
        Comparison::Greater => a.cast_signed() > b.cast_signed(),
    }
}

/// A law: `Less` is the order of the signed values.
pub fn less_orders_signed_values()
    ensures { (a b : ℕ) → IsTrue (compare_result Less a b) ↔ (signed_value a <ℤ signed_value b) }
{}
