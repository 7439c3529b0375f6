//! The calls of those who run guests.
use crate::places::cell_of;
use crate::slices::slice_of;
use crate::{Host, Ran, Stop};
use cell::{Gate, Seat};
use guest_number::GuestNo;
use std::alloc::Global;
use std::sync::Wait;
use swapstore::SwapStore;

impl<S: SwapStore + Drop, G: Gate + Drop> Host<S, G> {
    ghost use Rattle.std.specs.Prelude.{◌≡◌, ◌<◌, ◌≤◌, ℕ, true, length};
    ghost use Rattle.cell.specs.Sitting.{IsOf, Lasts, IsFullOf};
    ghost use Rattle.cell.specs.Slices.{Slice};
    ghost use Rattle.host.specs.Evictions.{WhyNoRoom};
    ghost use Rattle.host.specs.Places.{AtGuest};
    ghost use Rattle.host.specs.Slices.{steps_made};

    /// Makes so many steps of a guest, by pieces of at most 8,192. The bytes that wait for its console come before each step, as far as the
    /// console has room for them. A page that a step needs is supplied; where no frame is free, a page of the policy's victim leaves its
    /// own (`evict_one`), with no lock held, and the need is looked at anew: at most 64 times for one step.
    ///
    /// `Held` where a debugger holds the guest, but for seat 3, or where it is blocked; `Break` after a step of seat 3 that leaves PC at a
    /// breakpoint; else `Stopped` where a step can't be made. The guest is then as after its last item, and can be run on.
    #[tactic(auto, using(crate::proofs::Fronts::seat_of))]
    pub fn run_slice<R: Wait>(
        &self,
        rt: &R,
        alloc: Global,
        guest: GuestNo,
        seat: &mut Seat,
        count: u32,
    ) -> Ran
        requires guest { guest < length self.now.guests.cells.items }
        requires of { AtGuest self.now.guests.cells.items guest (λ front. IsOf front seat.old) }
        ensures of { AtGuest self.now.guests.cells.items guest (λ front. IsOf front seat.new) }
        ensures lasts { Lasts seat.old seat.new }
        ensures lasts_with_store { S.true_to_digests self.now.guests.memory.first → seat.new.witness.held ≡ true }
        ensures slice { Slice seat.old.seat (steps_made result) seat.new.seat }
        ensures few { steps_made result ≤ count }
        ensures all { (k : ℕ) → result ≡ Ran.Ran k → k ≡ count }
        ensures breaks { (k : ℕ) → result ≡ Ran.Break k → seat.old.seat.number ≡ 3 }
        ensures full { (k : ℕ) → result ≡ Ran.Stopped k Stop.LogFull → AtGuest self.now.guests.cells.items guest (λ front. IsFullOf front seat.new.seat.saw) }
        ensures no_frame { (k : ℕ) → result ≡ Ran.Stopped k Stop.NoFrame → WhyNoRoom self.now.guests.cells.items Stop.NoFrame }
        ensures no_swap { (k : ℕ) → result ≡ Ran.Stopped k Stop.NoSwap → WhyNoRoom self.now.guests.cells.items Stop.NoSwap }
    {
        let cell = cell_of(&self.guests, guest);
        slice_of(
            rt,
            alloc,
            &self.guests,
            &self.policy,
            cell,
            guest,
            seat,
            count,
            &self.gate,
        )
    }
}
