//! The adjusted ratio of shares to pages.
ghost use Rattle.std.specs.Prelude.{◌≡◌, ◌↔◌, ◌^◌, ◌<◌, IsTrue};
ghost use Rattle.taxpolicy.specs.Ratio.{page_cost, ratio, RatioLess};

use crate::{Stat, Tax};

/// A fraction of two numbers.
#[derive(Clone, Copy)]
struct Fraction {
    numerator: u64,
    denominator: u64,
}

/// What a page of a guest costs, in parts of sample * (100 - tax) of what an active one does.
fn page_cost(stat: &Stat, tax: Tax) -> u64
    ensures value { result ≡ page_cost tax.percent stat.now }
    ensures small { result < 2 ^ 23 }
{
    let untaxed = 100 - u64::from(tax.percent);
    let idle = stat.sample - stat.active;
    u64::from(stat.active) * untaxed + 100 * u64::from(idle)
}

/// The adjusted ratio of a guest.
fn ratio(stat: &Stat, tax: Tax) -> Fraction
    ensures numerator { result.numerator ≡ (ratio tax.percent stat.now).numerator }
    ensures denominator { result.denominator ≡ (ratio tax.percent stat.now).denominator }
    ensures small_numerator { result.numerator < 2 ^ 55 }
    ensures small_denominator { result.denominator < 2 ^ 55 }
{
    let untaxed = 100 - u64::from(tax.percent);
    Fraction {
        numerator: u64::from(stat.shares) * u64::from(stat.sample) * untaxed,
        denominator: u64::from(stat.resident) * page_cost(stat, tax),
    }
}

/// Whether the adjusted ratio of shares to pages of the first guest is less than that of the second: S / (P * (f + k * (1 - f)))
/// of S shares and P resident pages, of which the part f is active, and k = 100 / (100 - tax). They are compared exactly.
pub fn ratio_less(first: &Stat, second: &Stat, tax: Tax) -> bool
    ensures { IsTrue result ↔ RatioLess (ratio tax.percent first.now) (ratio tax.percent second.now) }
{
    let a = ratio(first, tax);
    let b = ratio(second, tax);
    u128::from(a.numerator) * u128::from(b.denominator)
        < u128::from(b.numerator) * u128::from(a.denominator)
}
