//! Which guests are booted: limits of their numbers, and whether guests are admitted.
ghost use Rattle.std.specs.Prelude.{◌≡◌, ◌↔◌, ◌≤◌, IsTrue, All, IfSome, MatchOption, sum_by, ◌+◌, ◌-◌};
ghost use Rattle.booting.specs.Boots.{IsWithinLimits, AreWithinLimits, HoldsImage, HasFramesFor, HasSlotsFor, AreAdmitted, IsOfNumbers, WhyNotBooted};

use crate::{Config, NewGuest};
use tenant::BootError;

impl NewGuest {
    // Whether its numbers are within their limits.
    fn is_within_limits(&self) -> bool
        ensures { IsTrue result ↔ IsWithinLimits self.now }
    {
        (2..=self.profile.numbers().most_pages).contains(&self.pages)
            && (1..=1_000_000).contains(&self.shares)
            && (2..=self.pages).contains(&self.minimum)
    }

    // Whether its pages hold its image.
    fn holds_image(&self) -> bool
        ensures { IsTrue result ↔ HoldsImage self.now }
    {
        self.image.fits(self.pages)
    }
}

// Whether the numbers of each guest are within their limits.
fn each_within_limits(guests: &[NewGuest]) -> bool
    ensures { IsTrue result ↔ All IsWithinLimits guests.now }
{
    guests.iter().all(|guest| guest.is_within_limits())
}

// Whether the pages of each guest hold its image.
fn each_holds_image(guests: &[NewGuest]) -> bool
    ensures { IsTrue result ↔ All HoldsImage guests.now }
{
    guests.iter().all(|guest| guest.holds_image())
}

/// Whether the numbers for so many slots, and those of the guests, are within their limits; else `boot` refuses
/// them.
pub fn are_within_limits(config: Config, slots: u32, guests: &[NewGuest]) -> bool
    ensures { IsTrue result ↔ AreWithinLimits config slots guests.now }
{
    (1..=16).contains(&guests.len())
        && each_within_limits(guests)
        && (4..=65_536).contains(&config.frames)
        && slots <= 131_072
        && (16..=1_048_576).contains(&config.log_runs)
}

// How many pages guests always keep, and one more for each.
fn kept(guests: &[NewGuest]) -> u128
    ensures { result ≡ sum_by (λ g. g.minimum + 1) guests.now }
{
    guests
        .iter()
        .map(|guest| u128::from(guest.minimum) + 1)
        .sum()
}

// How many pages guests have beside those that they always keep.
fn others(guests: &[NewGuest]) -> u128
    ensures { result ≡ sum_by (λ g. g.pages - g.minimum) guests.now }
{
    guests
        .iter()
        .map(|guest| u128::from(guest.pages.saturating_sub(guest.minimum)))
        .sum()
}

// Whether there are frames for guests that are admitted by their minimums.
fn has_frames(frames: u32, guests: &[NewGuest]) -> bool
    ensures { IsTrue result ↔ HasFramesFor guests.now frames }
{
    kept(guests) <= u128::from(frames)
}

// Whether there are slots for them.
fn has_slots(slots: u32, guests: &[NewGuest]) -> bool
    ensures { IsTrue result ↔ HasSlotsFor guests.now slots }
{
    others(guests) <= u128::from(slots)
}

/// Why guests with so many slots are refused whatever memory there is, if it is: the first of `Limits`, `Segment`,
/// `AdmitFrames` and `AdmitSlots` that holds.
pub(crate) fn refusal(config: Config, slots: u32, guests: &[NewGuest]) -> Option<BootError>
    ensures why { MatchOption result
        (AreWithinLimits config slots guests.now × All HoldsImage guests.now × AreAdmitted config slots guests.now) (WhyNotBooted config slots guests.now) }
    ensures first { IfSome result IsOfNumbers }
{
    if !are_within_limits(config, slots, guests) {
        return Some(BootError::Limits);
    }
    if !each_holds_image(guests) {
        return Some(BootError::Segment);
    }
    if !config.admit {
        return None;
    }
    if !has_frames(config.frames, guests) {
        return Some(BootError::AdmitFrames);
    }
    if !has_slots(slots, guests) {
        return Some(BootError::AdmitSlots);
    }
    None
}
