//! How many pages hold a segment.
ghost use Rattle.std.specs.Prelude.{◌≡◌, ℕ, ◌≤◌, ◌<◌, ◌-◌, IfSome, IfNone, All, Any};
ghost use Rattle.diagnosis.specs.Memories.{most_pages_of};
ghost use Rattle.diagnosis.specs.Pages.{IsHeldBy};

use crate::memory::{Memory, PAGE_BYTES};
use elf32::SEGMENT_BASE;
use elf32::range::AddressRange;

/// The least number of pages that a machine may have.
pub const LEAST_PAGES: u32 = 2;

/// The least number of pages, of those that such a memory may have, with which it holds these addresses; none where no
/// such number does.
pub fn least_pages(range: &AddressRange, memory: Memory) -> Option<u32>
    ensures limits { IfSome result (λ pages. 2 ≤ pages) }
    ensures most { IfSome result (λ pages. pages ≤ most_pages_of memory) }
    ensures holds { IfSome result (λ pages. IsHeldBy pages range.now) }
    ensures least { IfSome result (λ pages. (fewer : ℕ) → 2 ≤ fewer → fewer < pages → ¬ IsHeldBy fewer range.now) }
    ensures none { IfNone result ((pages : ℕ) → pages ≤ most_pages_of memory → ¬ IsHeldBy pages range.now) }
{
    let base = u64::from(SEGMENT_BASE);
    let end = u64::from(range.address) + u64::from(range.size);
    if range.address < SEGMENT_BASE || base + memory.most_bytes() < end {
        return None;
    }
    let pages = (end - base + PAGE_BYTES - 1) / PAGE_BYTES;
    Some((pages as u32).max(LEAST_PAGES))
}

/// The least such number for all of these ranges; none where no number holds one of them.
pub fn least_pages_for(ranges: &[AddressRange], memory: Memory) -> Option<u32>
    ensures holds { IfSome result (λ pages. All (IsHeldBy pages) ranges.now) }
    ensures least { IfSome result (λ pages. 2 < pages → Any (λ range. ¬ IsHeldBy (pages - 1) range) ranges.now) }
    ensures most { IfSome result (λ pages. pages ≤ most_pages_of memory) }
{
    let mut pages = LEAST_PAGES;
    for range in ranges {
        let wanted = least_pages(range, memory)?;
        if pages < wanted {
            pages = wanted;
        }
    }
    Some(pages)
}
