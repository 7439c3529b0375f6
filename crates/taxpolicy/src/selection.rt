//! Which guest gives up a page.
ghost use Rattle.std.specs.Prelude.{◌≡◌, ◌<◌, ◌↔◌, ℕ, length, All, Some, IfSome, IsNone};
ghost use Rattle.taxpolicy.specs.Victim.{IsEligible, IsLeast, victim_of};

use crate::{Stat, Tax, ratio_less};

/// The number of the guest that gives up a page: of those that have more resident pages than their minimum, the one with
/// the least adjusted ratio, and the first of several such. `None` where no guest has more than its minimum.
pub fn victim(stats: &[Stat], tax: Tax) -> Option<usize>
    ensures within { IfSome result (λ g. g < length stats.now) }
    ensures least { (g : ℕ) → (result ≡ Some g) ↔ IsLeast tax.percent stats.now g }
    ensures nobody { IsNone result ↔ All (λ s. ¬ IsEligible s) stats.now }
    ensures value { result ≡ victim_of tax.percent stats.now }
{
    let mut least: Option<usize> = None;
    for (i, stat) in stats.iter().enumerate() {
        let lower = match least {
            None => true,
            Some(g) => ratio_less(stat, &stats[g], tax),
        };
        if stat.minimum < stat.resident && lower {
            least = Some(i);
        }
    }
    least
}
