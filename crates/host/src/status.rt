//! How a guest stands.
ghost use Rattle.std.specs.Prelude.{◌≡◌, ◌≤◌, length};

use crate::Host;
use crate::places::cell_of;
use cell::{Cell, Gate, Locked};
use guest_number::GuestNo;
use std::sync::Wait;
use swapstore::SwapStore;

/// How a guest stands at one moment.
#[derive(Clone, Copy, Debug, PartialEq, Eq)]
pub struct Status {
    /// How many pages it has.
    pub pages: u32,
    /// How many of them are in a frame, their own or a shared one.
    pub resident: u32,
    /// How many its balloon holds.
    pub given: u32,
    /// How many its balloon is asked to hold.
    pub target: u32,
    /// How many are in slots.
    pub swapped: u32,
    /// How many shares of the memory it has.
    pub shares: u32,
    /// How many of its resident pages it always keeps.
    pub minimum: u32,
    /// How many items its log has.
    pub items: u64,
    /// How many runs these are.
    pub runs: u32,
    /// Whether a debugger holds it.
    pub held: bool,
    /// Whether it is to make no step while memory is low.
    pub blocked: bool,
}

// How the guest stands that lies under its lock.
fn status_of<S: SwapStore + Drop>(cell: &Cell<S>, locked: &Locked) -> Status
    ensures shares { result.shares ≡ cell.now.front.shares }
    ensures minimum { result.minimum ≡ cell.now.front.minimum }
    ensures resident { result.resident ≤ result.pages }
    ensures items { result.items ≡ length locked.now.guest.value.log.items }
{
    let guest = &locked.guest;
    Status {
        pages: guest.page_count(),
        resident: guest.resident(),
        given: guest.view().devices.given(),
        target: guest.view().devices.target(),
        swapped: guest.swapped(),
        shares: cell.front.shares,
        minimum: cell.front.minimum,
        items: guest.log().len(),
        runs: guest.log().runs(),
        held: locked.held,
        blocked: locked.blocked,
    }
}

impl<S: SwapStore + Drop, G: Gate + Drop> Host<S, G> {
    ghost use Rattle.std.specs.Prelude.{◌≡◌, ◌<◌, ◌≤◌, length};
    ghost use Rattle.host.specs.Places.{AtGuest};

    /// How a guest stands, as it was under its lock.
    pub fn status<R: Wait>(&self, rt: &R, guest: GuestNo) -> Status
        requires { guest < length self.now.guests.cells.items }
        ensures shares { AtGuest self.now.guests.cells.items guest (λ front. result.shares ≡ front.shares) }
        ensures minimum { AtGuest self.now.guests.cells.items guest (λ front. result.minimum ≡ front.minimum) }
        ensures resident { result.resident ≤ result.pages }
    {
        let cell = cell_of(&self.guests, guest);
        let (locked, loan) = cell.lock.take(rt);
        let status = status_of(cell, &locked);
        cell.lock.put_back(locked, loan);
        status
    }
}
