//! The thread that looks for pages of equal bytes, and makes the policy's turns.
ghost use Rattle.std.specs.Prelude.{◌≡◌, ◌<◌, ◌≤◌, length};
ghost use Rattle.host_policy.specs.Turns.{ArePolicySeats};

use crate::switches::Switches;
use cell::{Gate, Seat};
use guest_number::GuestNo;
use host::Host;
use page_moves::Scan;
use sharetab::GuestPage;
use std::alloc::Global;
use std::sync::Wait;
use std::time::Duration;
use swapstore::SwapStore;

/// After how many scans the policy makes a turn.
const SCANS_A_TURN: u32 = 64;

/// After how many scans the thread rests.
const SCANS_A_REST: u32 = 16;

/// How long it rests, in milliseconds: so it makes at most 1,600 scans a second, 25 turns.
const REST: u64 = 10;

/// Where a round of all guests' pages stands.
#[derive(Drop)]
struct Round {
    // the guest, and its page that is scanned next
    guest: GuestNo,
    page: u32,
    // how many pages the guest has
    pages: u32,
    // a page that was noted with the digest of the one scanned last: it comes before the round goes on
    noted: Option<GuestPage>,
}

impl Round {
    ghost use Rattle.std.specs.Prelude.{◌≡◌, ◌<◌, length};

    // The round begins with a guest.
    fn at<S: SwapStore + Drop, G: Gate + Drop, R: Wait>(
        rt: &R,
        host: &Host<S, G>,
        guest: GuestNo,
    ) -> Round
        requires { guest < length host.now.guests.cells.items }
        ensures { result.guest ≡ guest }
    {
        Round {
            guest,
            page: 0,
            pages: host.status(rt, guest).pages,
            noted: None,
        }
    }

    // On to the next page, of this guest or of the one behind it; behind the last guest comes the first.
    fn step<S: SwapStore + Drop, G: Gate + Drop, R: Wait>(&mut self, rt: &R, host: &Host<S, G>)
        requires { self.old.guest < length host.now.guests.cells.items }
        ensures { self.new.guest < length host.now.guests.cells.items }
    {
        self.page = self.page.saturating_add(1);
        if self.page < self.pages {
            return;
        }
        let next = self.guest.index() + 1;
        let guest = GuestNo::new(if next < host.count() { next as u32 } else { 0 });
        self.guest = guest;
        self.page = 0;
        self.pages = host.status(rt, guest).pages;
    }

    // Scans one page.
    fn scan<S: SwapStore + Drop, G: Gate + Drop, R: Wait>(&mut self, rt: &R, host: &Host<S, G>)
        requires { self.old.guest < length host.now.guests.cells.items }
        ensures { self.new.guest < length host.now.guests.cells.items }
    {
        let scanned = match self.noted.take() {
            Some(noted) => host.scan_page(rt, noted.guest, noted.page.number()),
            None => {
                let scanned = host.scan_page(rt, self.guest, self.page);
                self.step(rt, host);
                scanned
            }
        };
        if let Scan::Admitted(noted) = scanned {
            self.noted = Some(noted);
        }
    }
}

// After so many scans since the last turn, whether or not the next is due: where it is, the policy makes it, and all runners look again. How many
// scans were made since the last turn then.
fn turn_if_due<S: SwapStore + Drop, G: Gate + Drop, R: Wait>(
    rt: &R,
    alloc: Global,
    host: &Host<S, G>,
    switches: &Switches,
    seats: &mut [Seat],
    scans: u32,
) -> u32
    requires seats { ArePolicySeats host.now.guests.cells.items seats.old }
    ensures seats { ArePolicySeats host.now.guests.cells.items seats.new }
{
    if scans < SCANS_A_TURN {
        return scans;
    }
    // Where there is no memory for a turn, the level stays, and the next one is as good.
    let turn = host.policy_turn(rt, alloc, seats);
    switches.wake_all();
    match turn {
        Ok(_) => 0,
        Err(_) => 0,
    }
}

// After so many scans since the thread last rested: it rests where that is due. How many were made since then.
fn rest_if_due<R: Wait>(rt: &R, switches: &Switches, scans: u32) -> u32 {
    if scans < SCANS_A_REST {
        return scans;
    }
    switches.pause(rt, Duration::from_millis(REST));
    0
}

/// Scans the pages of all guests, one after another in rising number and round and round, until the run ends. Behind a scan that names another
/// page, of the same bytes as it seems, that one comes first. After each 64 scans, whatever they answered, the policy makes a turn by its
/// seats, and all runners look again. The thread rests 10 ms after each 16 scans.
pub(crate) fn share<S: SwapStore + Drop, G: Gate + Drop, R: Wait>(
    rt: &R,
    alloc: Global,
    host: &Host<S, G>,
    switches: &Switches,
    seats: &mut [Seat],
)
    requires seats { ArePolicySeats host.now.guests.cells.items seats.old }
    ensures seats { ArePolicySeats host.now.guests.cells.items seats.new }
{
    let mut round = Round::at(rt, host, GuestNo::new(0));
    let mut since_turn = 0u32;
    let mut since_rest = 0u32;
    for _ in rt.forever() {
        if switches.is_ending() {
            return;
        }
        round.scan(rt, host);
        since_turn = turn_if_due(
            rt,
            alloc,
            host,
            switches,
            seats,
            since_turn.saturating_add(1),
        );
        since_rest = rest_if_due(rt, switches, since_rest.saturating_add(1));
    }
    unreachable!()
}
