//! The calls of those who look after the memory.
use crate::Host;
use crate::places::cell_of;
use cell::{Gate, Seat};
use guest_number::GuestNo;
use host_policy::{Evicted, Turn, evict_one, turn};
use page_moves::Scan;
use reclaim::Level;
use std::alloc::{AllocError, Global};
use std::sync::Wait;
use swapstore::SwapStore;
use taxpolicy::Tax;
use word32::Ppn;

/// How many pages no guest has: a page's number is below it.
const ALL_PAGES: u32 = 1 << 20;

impl<S: SwapStore + Drop, G: Gate + Drop> Host<S, G> {
    ghost use Rattle.std.specs.Prelude.{◌≡◌, ◌≢◌, ◌<◌, ◌≤◌, IfOk, OnErr, length};
    ghost use Rattle.sharetab.specs.declared.guest_page.GuestPage.{GuestPage};
    ghost use Rattle.host_policy.specs.Evictions.{IsAnswer};
    ghost use Rattle.host_policy.specs.Policies.{WasReached, WereFree};
    ghost use Rattle.host_policy.specs.Turns.{ArePolicySeats, AreTurned, IsTurn};

    /// How many guests there are, 1 to 16.
    pub fn count(&self) -> usize
        ensures value { result ≡ length self.now.guests.cells.items }
        ensures some { 0 < result }
        ensures few { result ≤ 16 }
    {
        self.guests.cells.len()
    }

    /// Scans a page of a guest for one of equal bytes, as `MachineMemory::scan` does. `Skipped` where there is no such guest or page, or the
    /// page is in no frame of its own. The page that `Admitted` names is another one. No guest notices.
    pub fn scan_page<R: Wait>(&self, rt: &R, guest: GuestNo, page: u32) -> Scan
        ensures { (other : GuestPage) → result ≡ Scan.Admitted other → other ≢ record { guest = guest; page = page } }
    {
        if guest.index() >= self.count() || page >= ALL_PAGES {
            return Scan::Skipped;
        }
        let cell = cell_of(&self.guests, guest);
        cell.scan(rt, &self.guests.memory, guest, Ppn::new(page))
    }

    /// A page of the policy's victim leaves its frame for a slot, as `host_policy::evict_one` has it.
    pub fn evict_one<R: Wait>(&self, rt: &R) -> Evicted
        ensures { IsAnswer self.now.guests.cells.items result }
    {
        evict_one(rt, &self.policy, &self.guests.cells, &self.guests.memory)
    }

    /// A turn of the policy, as `host_policy::turn` has it: the samples of the guests' pages, the level of free memory, and what it asks of
    /// each guest, by an item of its seat of number 2 at most. The seats are those of all guests, in rising number.
    ///
    /// `AllocError` where there is no memory for it: the level is as it was, and no seat has made an item.
    pub fn policy_turn<R: Wait>(
        &self,
        rt: &R,
        alloc: Global,
        seats: &mut [Seat],
    ) -> Result<Turn, AllocError>
        requires { ArePolicySeats self.now.guests.cells.items seats.old }
        ensures turn { IfOk result (λ turn. IsTurn self.now.guests.memory self.now.guests.cells.items seats.old turn seats.new) }
        ensures seats { IfOk result (λ _. AreTurned S.true_to_digests self.now.guests.cells.items seats.old seats.new) }
        ensures unchanged { OnErr result (seats.new ≡ seats.old) }
    {
        turn(
            rt,
            alloc,
            &self.policy,
            &self.guests.cells,
            &self.guests.memory,
            seats,
        )
    }

    /// The level of free memory, as the last turn of the policy found it; high before the first.
    #[tactic(auto, using(crate::proofs::Reached::was_reached))]
    pub fn level<R: Wait>(&self, rt: &R) -> Level
        ensures { WasReached self.now.guests.memory result }
    {
        self.policy.level(rt)
    }

    /// The tax on idle memory that is in force.
    pub fn tax<R: Wait>(&self, rt: &R) -> Tax {
        self.policy.tax(rt)
    }

    /// This tax on idle memory is in force from now on.
    pub fn set_tax<R: Wait>(&self, rt: &R, tax: Tax) {
        self.policy.set_tax(rt, tax);
    }

    /// How many frames were free at a moment of the call.
    pub fn free_frames<R: Wait>(&self, rt: &R) -> u32
        ensures { WereFree self.now.guests.memory result }
    {
        self.policy.free_frames(rt, &self.guests.memory)
    }
}
