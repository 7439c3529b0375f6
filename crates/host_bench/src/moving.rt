//! Scans and evictions of a guest's pages.
ghost use Rattle.std.specs.Prelude.{◌<◌, ◌≤◌, length, IfOk};
ghost use Rattle.cell.specs.Sitting.{IsOf};
ghost use Rattle.host.specs.Places.{AtGuest};

use crate::guests::{PAGE_WORDS, PAGES};
use crate::hosts::{Hosted, OneHost, boot_host};
use crate::reading::is_first_word;
use cell::{Seat, Seats};
use guest_cells::Handles;
use guest_number::GuestNo;
use host_policy::Evicted;
use page_moves::Scan;
use std::alloc::{AllocError, Global};
use std::sync::Wait;

// How many pages were noted, going round.
fn scan_each<R: Wait>(rt: &R, host: &OneHost, count: u32) -> u64
    ensures { result ≤ count }
{
    let mut noted: u64 = 0;
    for round in 0..count {
        match host.scan_page(rt, GuestNo::new(0), round % PAGES) {
            Scan::Noted => noted += 1,
            _ => {}
        }
    }
    noted
}

/// Scans so many pages of a guest, going round, each of other bytes; how many were noted. `AllocError` where memory is refused.
pub fn scans<R: Wait>(rt: &R, alloc: Global, count: u32) -> Result<u64, AllocError>
    ensures { IfOk result (λ noted. noted ≤ count) }
{
    let Hosted { host, handles } = boot_host(rt, alloc)?;
    drop(handles);
    Ok(scan_each(rt, &host, count))
}

// A page leaves its frame, and its last word is read; whether that was the one of before.
fn leave_and_return<R: Wait>(rt: &R, alloc: Global, host: &OneHost, seat: &mut Seat) -> bool
    requires guest { 0 < length host.now.guests.cells.items }
    requires seat { AtGuest host.now.guests.cells.items 0 (λ front. IsOf front seat.old) }
    ensures { AtGuest host.now.guests.cells.items 0 (λ front. IsOf front seat.new) }
{
    let Evicted::Page(_, page) = host.evict_one(rt) else {
        return false;
    };
    if page.number() >= PAGES {
        return false;
    }
    let last = (page.number() + 1) * PAGE_WORDS - 1;
    is_first_word(rt, alloc, host, seat, last)
}

// How many pages came back.
fn evict_each<R: Wait>(rt: &R, alloc: Global, host: &OneHost, mut seat: Seat, count: u32) -> u64
    requires guest { 0 < length host.now.guests.cells.items }
    requires seat { AtGuest host.now.guests.cells.items 0 (λ front. IsOf front seat) }
    ensures { result ≤ count }
{
    let mut back: u64 = 0;
    for _round in 0..count {
        if leave_and_return(rt, alloc, host, &mut seat) {
            back += 1;
        }
    }
    back
}

/// So many times a page of a guest leaves its frame for a slot, and comes back for a debugger; how many came back as they were.
/// `AllocError` where memory is refused.
#[tactic(auto, using(crate::proofs::Seats::debugger_of))]
pub fn evictions<R: Wait>(rt: &R, alloc: Global, count: u32) -> Result<u64, AllocError>
    ensures { IfOk result (λ back. back ≤ count) }
{
    let Hosted { host, handles } = boot_host(rt, alloc)?;
    let Handles { seats, feed } = handles;
    drop(feed);
    let Seats {
        runner: _,
        console: _,
        policy: _,
        debugger,
    } = seats;
    Ok(evict_each(rt, alloc, &host, debugger, count))
}
