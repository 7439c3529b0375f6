//! Slices: as many steps of a guest as are asked for, by pieces.
ghost use Rattle.std.specs.Prelude.{◌≡◌, ◌≤◌, ℕ, true, Some, IfSome, IfOk, IfErr};
ghost use Rattle.cell.specs.Level.{IsMemoryOf};
ghost use Rattle.cell.specs.Sitting.{IsOf, Lasts, IsTrusted, IsFullOf};
ghost use Rattle.cell.specs.Slices.{Slice};
ghost use Rattle.host_policy.specs.Evictions.{WereVictims};
ghost use Rattle.host.specs.Evictions.{WhyNoRoom};
ghost use Rattle.host.specs.Slices.{steps_made};

use crate::room::make_room;
use crate::{Ran, Stop};
use cell::{Cell, End, Gate, Piece, Place, Seat};
use guest_cells::GuestCells;
use guest_number::GuestNo;
use host_policy::Policy;
use std::alloc::Global;
use std::sync::Wait;
use swapstore::SwapStore;

// How a slice of which so many steps are made ends with a piece that has ended so, if it does: it goes on where all steps of the piece were
// made, but not all of the slice, and where the next one needs a frame.
fn ended(end: End, made: u32, count: u32) -> Option<Ran>
    requires { made ≤ count }
    ensures steps { IfSome result (λ ran. steps_made ran ≡ made) }
    ensures all { (k : ℕ) → result ≡ Some (Ran.Ran k) → k ≡ count }
    ensures breaks { (k : ℕ) → result ≡ Some (Ran.Break k) → end ≡ End.Break }
    ensures full { (k : ℕ) → result ≡ Some (Ran.Stopped k Stop.LogFull) → end ≡ End.LogFull }
    ensures no_frame { (k : ℕ) → result ≡ Some (Ran.Stopped k Stop.NoFrame) → ⊥ }
    ensures no_swap { (k : ℕ) → result ≡ Some (Ran.Stopped k Stop.NoSwap) → ⊥ }
{
    match end {
        End::AllMade => if made < count {
            None
        } else {
            Some(Ran::Ran(made))
        },
        End::Held => Some(Ran::Held(made)),
        End::Blocked => Some(Ran::Held(made)),
        End::Break => Some(Ran::Break(made)),
        End::NeedsFrame => None,
        End::SwapRead => Some(Ran::Stopped(made, Stop::SwapRead)),
        End::SwapDamaged => Some(Ran::Stopped(made, Stop::SwapDamaged)),
        End::Memory => Some(Ran::Stopped(made, Stop::Memory)),
        End::LogFull => Some(Ran::Stopped(made, Stop::LogFull)),
    }
}

// Room for the step that comes after a piece, where that needs a page and no frame is free: how many pages have left theirs for it, of
// which so many had before the piece. Where the piece has made a step, that is another need.
#[tactic(auto, using(crate::proofs::Rooms::no_victims))]
fn room_for<S: SwapStore + Drop, R: Wait>(
    rt: &R,
    guests: &GuestCells<S>,
    policy: &Policy,
    piece: Piece,
    tried: u32,
) -> Result<u32, Stop>
    requires tried { tried ≤ 64 }
    requires victims { WereVictims guests.now.cells.items tried }
    ensures limit { IfOk result (λ now. now ≤ 64) }
    ensures victims { IfOk result (λ now. WereVictims guests.now.cells.items now) }
    ensures why { IfErr result (λ stop. WhyNoRoom guests.now.cells.items stop) }
{
    if piece.end != End::NeedsFrame {
        return Ok(0);
    }
    if piece.steps > 0 {
        return make_room(rt, guests, policy, 0);
    }
    make_room(rt, guests, policy, tried)
}

// Steps of a guest, of this number, until so many are made or it stops. For a step that needs a page, where no frame is free, pages leave
// theirs with no lock held, 64 at most, and the need is looked at anew after each.
#[tactic(auto, using(cell::proofs::Slicing::joined, cell::proofs::Slicing::head_stays, cell::proofs::Slicing::none_made, cell::proofs::Narrowed::lasts_on, crate::proofs::Rooms::no_victims, crate::proofs::Rooms::not_full))]
pub(crate) fn slice_of<S: SwapStore + Drop, R: Wait, G: Gate>(
    rt: &R,
    alloc: Global,
    guests: &GuestCells<S>,
    policy: &Policy,
    cell: &Cell<S>,
    number: GuestNo,
    seat: &mut Seat,
    count: u32,
    gate: &G,
) -> Ran
    requires memory { IsMemoryOf cell.now.front.first.value guests.now.memory }
    requires of { IsOf cell.now.front seat.old }
    ensures of { IsOf cell.now.front seat.new }
    ensures lasts { Lasts seat.old seat.new }
    ensures lasts_with_store { IsTrusted S.true_to_digests cell.now.front → seat.new.witness.held ≡ true }
    ensures slice { Slice seat.old.seat (steps_made result) seat.new.seat }
    ensures few { steps_made result ≤ count }
    ensures all { (k : ℕ) → result ≡ Ran.Ran k → k ≡ count }
    ensures breaks { (k : ℕ) → result ≡ Ran.Break k → seat.old.seat.number ≡ 3 }
    ensures full { (k : ℕ) → result ≡ Ran.Stopped k Stop.LogFull → IsFullOf cell.now.front seat.new.seat.saw }
    ensures no_frame { (k : ℕ) → result ≡ Ran.Stopped k Stop.NoFrame → WhyNoRoom guests.now.cells.items Stop.NoFrame }
    ensures no_swap { (k : ℕ) → result ≡ Ran.Stopped k Stop.NoSwap → WhyNoRoom guests.now.cells.items Stop.NoSwap }
{
    let _ = cell.seen(seat);
    let mut made = 0;
    let mut tried = 0;
    for _ in rt.forever() {
        let place = Place {
            guest: number,
            done: made,
        };
        let piece = cell.piece(rt, alloc, &guests.memory, seat, count - made, place, gate);
        made += piece.steps;
        if let Some(ran) = ended(piece.end, made, count) {
            return ran;
        }
        match room_for(rt, guests, policy, piece, tried) {
            Ok(now) => tried = now,
            Err(stop) => return Ran::Stopped(made, stop),
        }
    }
    unreachable!()
}
