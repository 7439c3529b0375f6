//! Lines of the header.
ghost use Rattle.std.specs.Prelude.{◌≡◌, option_map};
ghost use Rattle.script.specs.Headers as spec;
ghost use Rattle.script.specs.Views.{arguments_view, guest_view, part_view};

use crate::header::{Fail, GuestLine, StoreCall};
use crate::name::HeaderName;
use crate::number::number;
use crate::words::Arguments;

/// What a line of the header says.
#[derive(Clone, Copy)]
pub enum Part<'a> {
    Frames(u32),
    Slots(u32),
    Seed(u32),
    Guest(GuestLine<'a>),
    Failure(Fail),
    Admit,
    Profile(u32),
}

/// The line of the header of a name and the words behind it, if it has such words.
#[tactic(auto, unfolding(crate::specs::Headers::part_of))]
pub fn part_of<'a>(name: HeaderName, arguments: &Arguments<'a>) -> Option<Part<'a>>
    ensures { option_map part_view result ≡ spec.part_of name (arguments_view arguments.now) }
{
    match (name, *arguments) {
        (HeaderName::Frames, Arguments::One(count)) => Some(Part::Frames(number(count)?)),
        (HeaderName::Slots, Arguments::One(count)) => Some(Part::Slots(number(count)?)),
        (HeaderName::Seed, Arguments::One(seed)) => Some(Part::Seed(number(seed)?)),
        (HeaderName::Guest, Arguments::Three(file, pages, shares)) => {
            Some(Part::Guest(guest(file, pages, shares)?))
        }
        (HeaderName::Guest, Arguments::Four(file, pages, shares, minimum)) => {
            Some(Part::Guest(guest_with_minimum(file, pages, shares, minimum)?))
        }
        (HeaderName::Fail, Arguments::Two(call, count)) => {
            Some(Part::Failure(failure(call, count)?))
        }
        (HeaderName::Admit, Arguments::Zero) => Some(Part::Admit),
        (HeaderName::Profile, Arguments::One(profile)) => Some(Part::Profile(number(profile)?)),
        _ => None,
    }
}

/// A guest without a minimum.
#[tactic(auto, unfolding(crate::specs::Headers::guest_of))]
fn guest<'a>(file: &'a str, pages: &str, shares: &str) -> Option<GuestLine<'a>>
    ensures { option_map guest_view result ≡ spec.guest_of file.now pages.now shares.now }
{
    if file.is_empty() {
        return None;
    }
    Some(GuestLine {
        file,
        pages: number(pages)?,
        shares: number(shares)?,
        minimum: None,
    })
}

/// A guest with a minimum.
#[tactic(auto, unfolding(crate::specs::Headers::guest_with_minimum_of))]
fn guest_with_minimum<'a>(
    file: &'a str,
    pages: &str,
    shares: &str,
    minimum: &str,
) -> Option<GuestLine<'a>>
    ensures { option_map guest_view result ≡ spec.guest_with_minimum_of file.now pages.now shares.now minimum.now }
{
    let guest = guest(file, pages, shares)?;
    Some(GuestLine {
        minimum: Some(number(minimum)?),
        ..guest
    })
}

/// The kind of calls of which one fails.
#[tactic(auto, unfolding(crate::specs::Headers::call_of))]
fn store_call(word: &str) -> Option<StoreCall>
    ensures { result ≡ spec.call_of word.now }
{
    match word {
        "read" => Some(StoreCall::Read),
        "write" => Some(StoreCall::Write),
        _ => None,
    }
}

/// The call that fails, counted from 1.
#[tactic(auto, unfolding(crate::specs::Headers::failure_of))]
fn failure(call: &str, count: &str) -> Option<Fail>
    ensures { result ≡ spec.failure_of call.now count.now }
{
    let call = store_call(call)?;
    let count = number(count)?;
    if count == 0 {
        return None;
    }
    Some(Fail { call, count })
}
