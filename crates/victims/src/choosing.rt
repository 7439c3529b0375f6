//! The page that leaves its frame.
ghost use Rattle.std.specs.Prelude.{◌≡◌, ◌%◌, ◌<◌, ◌≤◌, true, IfSome, IfNone, length};
ghost use Rattle.guest_pages.specs.Holdings.{resident_pages};
ghost use Rattle.victims.specs.Victims.{may_leave, NoneResident, IsNextResident};

use crate::spared::is_one_of;
use guest::Guest;
use word32::Ppn;

// The first page from one number on to below another that is in a frame, but for those that are spared. It asks the guest at most once
// more than there are of them.
#[tactic(auto, using(crate::proofs::Searching::leaves, crate::proofs::Searching::passed_over, crate::proofs::Searching::spared_over))]
fn first_resident(guest: &Guest, spared: &Option<(Ppn, Ppn)>, from: u32, to: u32) -> Option<Ppn>
    requires { to ≤ length guest.now.bus.pages }
    ensures within { IfSome result (λ p. (from ≤ p) × (p < to)) }
    ensures leaves { IfSome result (λ p. may_leave spared.now guest.now.bus.pages p ≡ true) }
    ensures first { IfSome result (λ p. NoneResident spared.now guest.now.bus.pages from p) }
    ensures none { IfNone result (NoneResident spared.now guest.now.bus.pages from to) }
{
    let mut start = from;
    while start < to {
        let Some(page) = guest.next_resident(start) else {
            return None;
        };
        if page.number() >= to {
            return None;
        }
        if !is_one_of(spared, page) {
            return Some(page);
        }
        start = page.number() + 1;
    }
    None
}

/// The first page of a guest at or after one that is in a frame, going round, but for those that are spared.
pub fn next_resident(guest: &Guest, spared: &Option<(Ppn, Ppn)>, start: u32) -> Ppn
    requires start { start < length guest.now.bus.pages }
    requires some { 2 < resident_pages guest.now.bus.pages }
    ensures { IsNextResident spared.now guest.now.bus.pages start result }
{
    if let Some(page) = first_resident(guest, spared, start, guest.page_count()) {
        return page;
    }
    match first_resident(guest, spared, 0, start) {
        Some(page) => page,
        None => unreachable!(),
    }
}

/// The page of a guest for a random word, but for those that are spared: the first one in a frame at or after the word modulo its pages,
/// going round.
pub fn drawn_page(guest: &Guest, spared: &Option<(Ppn, Ppn)>, word: u32) -> Ppn
    requires { 2 < resident_pages guest.now.bus.pages }
    ensures { IsNextResident spared.now guest.now.bus.pages (word % length guest.now.bus.pages) result }
{
    // Who asks for it knows that they are no more than the pages.
    let _resident = guest.resident();
    next_resident(guest, spared, word % guest.page_count())
}
