//! How many pages each guest may keep.
ghost use Rattle.std.specs.Prelude.{◌≡◌, ◌<◌, Some, IfOk, length, slice_get, sum, vec_len};
ghost use Rattle.taxpolicy.specs.Targets.{frames_to_fill, residents, without_page, reclaimed, targets_of};
ghost use Rattle.taxpolicy.specs.declared.stat.Stat.{Stat};

use crate::{Stat, Tax, victim};
use std::alloc::{AllocError, Global};

/// The frames that guests may fill: six of each hundred stay free, rounded up.
fn frames_to_fill(total: u32) -> u64
    ensures { result ≡ frames_to_fill total }
{
    u64::from(total) - (6 * u64::from(total)).div_ceil(100)
}

/// Takes a page from guest `g`.
fn take_page(stats: &mut [Stat], g: usize)
    requires { (s : Stat) × (slice_get stats.old g ≡ Some s) × (0 < s.resident) }
    ensures { stats.new ≡ without_page g stats.old }
{
    let stat = &mut stats[g];
    stat.resident -= 1;
}

/// Takes pages from one victim after the other until the guests have no more than `limit` resident pages together, or
/// none is eligible. `resident` is how many they have.
fn reclaim(stats: &mut [Stat], resident: u128, limit: u64, tax: Tax)
    requires { resident ≡ sum (residents stats.old) }
    ensures { stats.new ≡ reclaimed tax.percent limit resident stats.old }
{
    let mut left = resident;
    while left > u128::from(limit) {
        let Some(g) = victim(stats, tax) else {
            break;
        };
        take_page(stats, g);
        left -= 1;
    }
}

/// The resident pages of each guest.
fn residents(alloc: Global, stats: &[Stat]) -> Result<Vec<u32>, AllocError>
    ensures { IfOk result (λ pages. pages.items ≡ residents stats.now) }
{
    stats.iter().map(|stat| stat.resident).collect(alloc)
}

/// The pages that each guest may keep, in the order of the guests: while more frames are filled than leave six of each
/// hundred free, the victim by the pages that each may still keep loses one. It ends too where each may keep no more than
/// its minimum. An `Err` is want of memory.
#[tactic(auto, using(crate::proofs::Allotments::targets_count), unfolding(crate::specs::Targets::targets_of))]
pub fn targets(
    alloc: Global,
    stats: &[Stat],
    total_frames: u32,
    tax: Tax,
) -> Result<Vec<u32>, AllocError>
    ensures count { IfOk result (λ targets. vec_len targets ≡ length stats.now) }
    ensures value { IfOk result (λ targets. targets.items ≡ targets_of tax.percent total_frames stats.now) }
{
    let resident = stats.iter().map(|stat| u128::from(stat.resident)).sum();
    let mut left = stats.to_vec(alloc)?;
    reclaim(&mut left, resident, frames_to_fill(total_frames), tax);
    residents(alloc, &left)
}
