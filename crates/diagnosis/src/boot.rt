//! Machines and guests that are not booted.
ghost use Rattle.std.specs.Prelude.{◌≡◌, ◌≢◌, None, Some, Ok, IfErr, IfOk, IfSome};
ghost use Rattle.mips_cp0.specs.Profiles.{profile_numbers};
ghost use Rattle.mips_cp0.specs.declared.profile.Profile as its;

use crate::memory::of_profile;
use crate::pages::LEAST_PAGES;
use crate::words::{Words, plural};
use mips_cp0::Profile;
use script::{GuestLine, Header};
use std::alloc::{AllocError, Global};

/// How many pages a guest keeps where its line doesn't say.
const DEFAULT_MINIMUM: u32 = 2;

/// Words for the refusal of this number of a machine of this profile and of so many pages.
pub fn of_machine(
    alloc: Global,
    number: u32,
    profile: Profile,
    pages: u32,
) -> Result<Option<Words>, AllocError> {
    let text = match number {
        1 => {
            let most = profile.numbers().most_pages;
            let of = of_profile(profile);
            format!(in alloc;
                "a machine{of} has {LEAST_PAGES} to {most} pages, and --pages says {pages}"
            )?
        }
        5 => String::from_str(
            alloc,
            "the host has no memory left for the machine: fewer pages need less",
        )?,
        _ => return Ok(None),
    };
    Ok(Some(Words::of(alloc, &text)?))
}

/// Words for a number that an option gives and that no profile has.
pub fn of_number(alloc: Global, number: u32) -> Result<Words, AllocError> {
    let text = format!(in alloc; "a machine has profile 1 or 2, and --profile says {number}")?;
    Words::of(alloc, &text)
}

/// The profile of the guests of a script: that of the number that its header gives, or `unnamed` where it gives none.
///
/// An error is a number that no profile has.
pub fn profile_of(header: &Header<'_>, unnamed: Profile) -> Result<Profile, u32>
    ensures named { IfOk result (λ profile. IfSome header.now.profile (λ number. (profile_numbers profile).number ≡ number)) }
    ensures unnamed { header.now.profile ≡ None → result ≡ Ok unnamed }
    ensures unknown { IfErr result (λ number. header.now.profile ≡ Some number) }
    ensures of_none { IfErr result (λ number. (profile : its.Profile) → (profile_numbers profile).number ≢ number) }
{
    let Some(number) = header.profile else {
        return Ok(unnamed);
    };
    Profile::of_number(number).ok_or(number)
}

/// Words for the refusal of this number of the guests of a script, which have the profile `unnamed` where its header names none.
pub fn of_guests(
    alloc: Global,
    number: u32,
    header: &Header<'_>,
    unnamed: Profile,
) -> Result<Option<Words>, AllocError> {
    let text = match number {
        1 => limits_text(alloc, header, unnamed)?,
        2 => String::from_str(
            alloc,
            "the pages of a guest don't hold its image: give it more pages",
        )?,
        3 => room_text(alloc, header)?,
        4 => String::from_str(
            alloc,
            "the store failed to write a page of an image: see fail write in the header",
        )?,
        5 => String::from_str(
            alloc,
            "the host has no memory left for the guests: fewer pages, frames and slots need less",
        )?,
        6 => frames_text(alloc, header)?,
        7 => slots_text(alloc, header)?,
        _ => return Ok(None),
    };
    Ok(Some(Words::of(alloc, &text)?))
}

/// Which number is outside its limits.
fn limits_text(alloc: Global, header: &Header<'_>, unnamed: Profile) -> Result<String, AllocError> {
    let Header {
        frames,
        slots,
        guests,
        ..
    } = header;
    let profile = match profile_of(header, unnamed) {
        Ok(profile) => profile,
        Err(number) => return format!(in alloc; "profile {number}: there are 1 and 2"),
    };
    let count = guests.len();
    if !(4..=65_536).contains(frames) {
        return format!(in alloc; "frames {frames}: there are 4 to 65536");
    }
    if *slots > 131_072 {
        return format!(in alloc; "slots {slots}: there are at most 131072");
    }
    if count == 0 {
        return String::from_str(
            alloc,
            "no guest: the header has a line guest FILE PAGES SHARES for each, 1 to 16",
        );
    }
    if count > 16 {
        return format!(in alloc; "{count} guests: there are at most 16");
    }
    guest_text(alloc, guests, profile)
}

/// Which number of a guest is outside its limits.
fn guest_text(
    alloc: Global,
    guests: &[GuestLine<'_>],
    profile: Profile,
) -> Result<String, AllocError> {
    let most = profile.numbers().most_pages;
    let of = of_profile(profile);
    for (number, guest) in guests.iter().enumerate() {
        let GuestLine {
            file,
            pages,
            shares,
            ..
        } = *guest;
        let minimum = minimum_of(guest);
        if !(LEAST_PAGES..=most).contains(&pages) {
            let s = plural(u64::from(pages));
            return format!(in alloc;
                "guest {number} ({file}) has {pages} page{s}: a guest{of} has {LEAST_PAGES} to {most}"
            );
        }
        if !(1..=1_000_000).contains(&shares) {
            return format!(in alloc;
                "guest {number} ({file}) has {shares} shares: a guest has 1 to 1000000"
            );
        }
        if !(2..=pages).contains(&minimum) {
            return format!(in alloc;
                "guest {number} ({file}) has the minimum {minimum}: it is 2 to the guest's pages, {pages}"
            );
        }
    }
    String::from_str(alloc, "a number is outside its limits")
}

/// How many pages a guest always keeps in frames.
fn minimum_of(guest: &GuestLine<'_>) -> u32 {
    guest.minimum.unwrap_or(DEFAULT_MINIMUM)
}

/// Images that are larger than frames and slots.
fn room_text(alloc: Global, header: &Header<'_>) -> Result<String, AllocError> {
    let Header { frames, slots, .. } = header;
    format!(in alloc;
        "the images have more pages than the frames ({frames}) and slots ({slots}) hold: give more of either"
    )
}

/// Minimums that are more than the frames.
fn frames_text(alloc: Global, header: &Header<'_>) -> Result<String, AllocError> {
    let frames = header.frames;
    let kept = kept(&header.guests);
    format!(in alloc;
        "with admit, the guests' minimums and one frame more for each want {kept} frames, and there are {frames}"
    )
}

/// Pages beside the minimums that are more than the slots.
fn slots_text(alloc: Global, header: &Header<'_>) -> Result<String, AllocError> {
    let slots = header.slots;
    let others = others(&header.guests);
    format!(in alloc;
        "with admit, the guests' pages beside their minimums want {others} slots, and there are {slots}"
    )
}

/// How many pages guests always keep in frames, and one more for each.
fn kept(guests: &[GuestLine<'_>]) -> u64 {
    let mut kept: u64 = 0;
    for guest in guests {
        kept = kept.saturating_add(u64::from(minimum_of(guest)) + 1);
    }
    kept
}

/// How many pages guests have beside those.
fn others(guests: &[GuestLine<'_>]) -> u64 {
    let mut others: u64 = 0;
    for guest in guests {
        others = others.saturating_add(u64::from(guest.pages.saturating_sub(minimum_of(guest))));
    }
    others
}
