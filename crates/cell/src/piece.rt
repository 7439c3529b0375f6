//! Pieces of slices.
ghost use Rattle.std.specs.Prelude.{◌≡◌, ◌≢◌, ◌<◌, ◌≤◌, true, List, Some, IfSome, IfNone};
ghost use Rattle.guest_log.specs.Logs.{IsFull};
ghost use Rattle.log_seats.specs.Legal.{Legal};
ghost use Rattle.cell.specs.Level.{IsMemoryOf};
ghost use Rattle.cell.specs.Slices.{Slice};
ghost use Rattle.cell.specs.Sitting.{Sits, Narrows, IsOf, Lasts, IsTrusted, IsFullOf};
ghost use Rattle.seated.specs.Acts.{Sees};

use crate::inside::see;
use crate::turning::turn;
use crate::{Cell, Front, Gate, Locked, Seat};
use guest::Stop;
use guest_number::GuestNo;
use machine_memory::MachineMemory;
use page_moves::SupplyError;
use std::alloc::Global;
use std::sync::Wait;
use swapstore::SwapStore;

/// How many steps a piece has at most: so many that what a run begins with, and the steps that it counts one by one, are a small part of it.
pub const PIECE: u32 = 8192;

/// Why a piece ended.
#[derive(Clone, Copy, Debug, PartialEq, Eq)]
pub enum End {
    /// All steps that were asked for, or 8,192, are made.
    AllMade,
    /// A debugger holds the guest.
    Held,
    /// The guest is blocked for want of memory.
    Blocked,
    /// The last step, of seat 3, has left PC at a breakpoint.
    Break,
    /// The next step needs a page, and no frame is free.
    NeedsFrame,
    /// The next step needs a page whose slot the store failed to read.
    SwapRead,
    /// The next step needs a page whose slot has other bytes than were written.
    SwapDamaged,
    /// A request for memory was refused.
    Memory,
    /// The log is full.
    LogFull,
}

impl End {
    ghost use Rattle.std.specs.Prelude.{◌≡◌, ◌≢◌};
    ghost use Rattle.guest_log.specs.declared.stop.Stop.{Stop};

    pub(crate) fn of_stop(stop: Stop) -> End
        ensures full { result ≡ End.LogFull → stop ≡ Stop.LogFull }
        ensures no_break { result ≢ End.Break }
        ensures not_all { result ≢ End.AllMade }
        ensures not_idle { (result ≢ End.Held) × (result ≢ End.Blocked) }
    {
        match stop {
            Stop::LogFull => End::LogFull,
            Stop::Memory => End::Memory,
        }
    }

    pub(crate) fn of_supply(error: SupplyError) -> End
        ensures not_full { result ≢ End.LogFull }
        ensures no_break { result ≢ End.Break }
        ensures not_all { result ≢ End.AllMade }
        ensures not_idle { (result ≢ End.Held) × (result ≢ End.Blocked) }
    {
        match error {
            SupplyError::NoFrame => End::NeedsFrame,
            SupplyError::Memory => End::Memory,
            SupplyError::SwapRead => End::SwapRead,
            SupplyError::SwapDamaged => End::SwapDamaged,
        }
    }
}

/// What became of a piece.
#[derive(Clone, Copy, Debug, PartialEq, Eq)]
pub struct Piece {
    /// How many steps were made.
    pub steps: u32,
    /// Why no more were.
    pub end: End,
}

/// Where a piece stands, for a gate.
#[derive(Clone, Copy, Debug, PartialEq, Eq)]
pub struct Place {
    /// The guest.
    pub guest: GuestNo,
    /// How many steps the slice had before.
    pub done: u32,
}

// Asks the gate behind so many steps of a piece, and answers how many of those that are left may be made before it is asked again: one, where
// each is looked at.
fn steps_before_gate<G: Gate>(gate: &G, place: &Place, made: u32, single: bool, left: u32) -> u32
    requires { 0 < left }
    ensures some { 0 < result }
    ensures few { result ≤ left }
{
    let Place { guest, done } = *place;
    let done = done.saturating_add(made);
    gate.before_step(guest, done);
    if single {
        return 1;
    }
    gate.quiet(guest, done).min(left)
}

// Steps of the guest until so many are made or the piece ends, step by step while there are breakpoints and the seat is the debugger's.
#[tactic(auto, using(crate::proofs::Slicing::joined, crate::proofs::Slicing::head_stays, crate::proofs::Slicing::nothing_made, crate::proofs::Narrowed::narrows_on, crate::proofs::Narrowed::narrows_none))]
fn piece_in<S: SwapStore + Drop, R: Wait, G: Gate>(
    rt: &R,
    alloc: Global,
    memory: &MachineMemory<S>,
    front: &Front<S>,
    locked: &mut Locked,
    seat: &mut guest::Seat,
    most: u32,
    place: Place,
    gate: &G,
) -> Piece
    requires sits { Sits S.true_to_digests front.now locked.old }
    requires memory { IsMemoryOf front.now.first.value memory.now }
    requires head { seat.old.head ≡ front.now.head.value }
    requires legal { Legal seat.old.saw seat.old.number seat.old.saw seat.old.made }
    requires saw { seat.old.saw ≡ locked.old.guest.value.log.items }
    ensures sits { Sits S.true_to_digests front.now locked.new }
    ensures slice { Slice seat.old result.steps seat.new }
    ensures saw { seat.new.saw ≡ locked.new.guest.value.log.items }
    ensures few { result.steps ≤ most }
    ensures narrows { Narrows locked.old locked.new }
    ensures full { result.end ≡ End.LogFull → IsFull locked.new.guest.value.log }
    ensures breaks { result.end ≡ End.Break → seat.old.number ≡ 3 }
    ensures all { result.end ≡ End.AllMade → result.steps ≡ most }
    ensures not_idle { (result.end ≢ End.Held) × (result.end ≢ End.Blocked) }
{
    let breaks = seat.number().number() == 3 && !locked.breakpoints.is_empty();
    let mut steps = 0;
    for _ in rt.forever() {
        if steps >= most {
            break;
        }
        let count = steps_before_gate(gate, &place, steps, breaks, most - steps);
        let (more, end) = turn(rt, alloc, memory, front, locked, seat, count);
        steps += more;
        if let Some(end) = end {
            return Piece { steps, end };
        }
        if breaks && more > 0 && locked.breakpoints.has(locked.guest.view().cpu.pc()) {
            return Piece {
                steps,
                end: End::Break,
            };
        }
    }
    Piece {
        steps,
        end: End::AllMade,
    }
}

// Why the guest makes no step of this seat, if it makes none.
fn idle(locked: &Locked, seat: &Seat) -> Option<End>
    ensures idle { IfSome result (λ end. end ≢ End.Break × (end ≢ End.LogFull) × (end ≢ End.AllMade)) }
    ensures debugger { result ≡ Some End.Held → seat.now.seat.number ≢ 3 }
{
    if locked.held && seat.number().number() != 3 {
        return Some(End::Held);
    }
    if locked.blocked {
        return Some(End::Blocked);
    }
    None
}

// The seat looks whether the guest's truth holds.
#[tactic(auto, using(crate::proofs::Sitting::sits_still, crate::proofs::Sitting::looked_true))]
fn look_in<S: SwapStore + Drop>(front: &Front<S>, locked: &mut Locked, seat: &mut Seat)
    requires sits { Sits S.true_to_digests front.now locked.old }
    requires of { IsOf front.now seat.old }
    ensures sits { Sits S.true_to_digests front.now locked.new }
    ensures of { IsOf front.now seat.new }
    ensures lasts { Lasts seat.old seat.new }
    ensures lasts_with_store { IsTrusted S.true_to_digests front.now → seat.new.witness.held ≡ true }
    ensures seat { seat.new.seat ≡ seat.old.seat }
    ensures guest { locked.new.guest ≡ locked.old.guest }
{
    front.truth.look(&mut locked.keeper, &mut seat.witness);
}

// A piece of at most so many steps.
#[tactic(auto, using(crate::proofs::Slicing::joined, crate::proofs::Slicing::head_stays, crate::proofs::Slicing::none_made, crate::proofs::Narrowed::lasts_on))]
fn steps_of_piece<S: SwapStore + Drop, R: Wait, G: Gate>(
    rt: &R,
    alloc: Global,
    memory: &MachineMemory<S>,
    front: &Front<S>,
    locked: &mut Locked,
    seat: &mut Seat,
    most: u32,
    place: Place,
    gate: &G,
) -> Piece
    requires sits { Sits S.true_to_digests front.now locked.old }
    requires memory { IsMemoryOf front.now.first.value memory.now }
    requires of { IsOf front.now seat.old }
    requires legal { Legal seat.old.seat.saw seat.old.seat.number seat.old.seat.saw seat.old.seat.made }
    requires saw { seat.old.seat.saw ≡ locked.old.guest.value.log.items }
    ensures sits { Sits S.true_to_digests front.now locked.new }
    ensures of { IsOf front.now seat.new }
    ensures lasts { Lasts seat.old seat.new }
    ensures lasts_with_store { IsTrusted S.true_to_digests front.now → seat.new.witness.held ≡ true }
    ensures slice { Slice seat.old.seat result.steps seat.new.seat }
    ensures few { result.steps ≤ most }
    ensures full { result.end ≡ End.LogFull → IsFullOf front.now seat.new.seat.saw }
    ensures breaks { result.end ≡ End.Break → seat.old.seat.number ≡ 3 }
    ensures all { result.end ≡ End.AllMade → result.steps ≡ most }
    ensures not_idle { (result.end ≢ End.Held) × (result.end ≢ End.Blocked) }
{
    let piece = piece_in(
        rt,
        alloc,
        memory,
        front,
        locked,
        &mut seat.seat,
        most,
        place,
        gate,
    );
    look_in(front, locked, seat);
    piece
}

// A piece, where the guest makes one.
#[tactic(auto, using(crate::proofs::Slicing::joined, crate::proofs::Slicing::head_stays, crate::proofs::Slicing::none_made, crate::proofs::Narrowed::lasts_on, crate::proofs::Narrowed::slice_after))]
fn whole_piece<S: SwapStore + Drop, R: Wait, G: Gate>(
    rt: &R,
    alloc: Global,
    memory: &MachineMemory<S>,
    front: &Front<S>,
    locked: &mut Locked,
    seat: &mut Seat,
    most: u32,
    place: Place,
    gate: &G,
) -> Piece
    requires sits { Sits S.true_to_digests front.now locked.old }
    requires memory { IsMemoryOf front.now.first.value memory.now }
    requires of { IsOf front.now seat.old }
    ensures sits { Sits S.true_to_digests front.now locked.new }
    ensures of { IsOf front.now seat.new }
    ensures lasts { Lasts seat.old seat.new }
    ensures lasts_with_store { IsTrusted S.true_to_digests front.now → seat.new.witness.held ≡ true }
    ensures slice { Slice seat.old.seat result.steps seat.new.seat }
    ensures few { result.steps ≤ most }
    ensures full { result.end ≡ End.LogFull → IsFullOf front.now seat.new.seat.saw }
    ensures breaks { result.end ≡ End.Break → seat.old.seat.number ≡ 3 }
    ensures all { result.end ≡ End.AllMade → result.steps ≡ most }
    ensures held { result.end ≡ End.Held → (result.steps ≡ 0) × (seat.old.seat.number ≢ 3) }
    ensures blocked { result.end ≡ End.Blocked → result.steps ≡ 0 }
{
    see(front, locked, seat);
    if let Some(end) = idle(locked, seat) {
        return Piece { steps: 0, end };
    }
    steps_of_piece(rt, alloc, memory, front, locked, seat, most, place, gate)
}

impl<S: SwapStore + Drop> Cell<S> {
    ghost use Rattle.std.specs.Prelude.{◌≡◌, ◌≢◌, ◌≤◌, min};
    ghost use Rattle.cell.specs.Level.{IsMemoryOf};
    ghost use Rattle.cell.specs.Slices.{Slice};
    ghost use Rattle.cell.specs.Sitting.{IsOf, Lasts, IsTrusted, IsFullOf};

    /// At most `count` steps of the guest, and at most 8,192, under one take of its lock. The bytes that wait for its console come before
    /// each step, as far as the console has room for them. A page that a step needs is supplied from machine memory; where no frame is
    /// free the piece ends, and can be asked for again once one is.
    ///
    /// A guest that is blocked makes no step, nor does one that is held, but for seat 3. A piece of seat 3 ends after a step that leaves
    /// PC at a breakpoint. The gate is asked before steps, with the guest's number and how many steps the slice had.
    pub fn piece<R: Wait, G: Gate>(
        &self,
        rt: &R,
        alloc: Global,
        memory: &MachineMemory<S>,
        seat: &mut Seat,
        count: u32,
        place: Place,
        gate: &G,
    ) -> Piece
        requires of { IsOf self.now.front seat.old }
        requires memory { IsMemoryOf self.now.front.first.value memory.now }
        ensures of { IsOf self.now.front seat.new }
        ensures lasts { Lasts seat.old seat.new }
        ensures lasts_with_store { IsTrusted S.true_to_digests self.now.front → seat.new.witness.held ≡ true }
        ensures slice { Slice seat.old.seat result.steps seat.new.seat }
        ensures few { result.steps ≤ count }
        ensures short { result.steps ≤ 8192 }
        ensures full { result.end ≡ End.LogFull → IsFullOf self.now.front seat.new.seat.saw }
        ensures breaks { result.end ≡ End.Break → seat.old.seat.number ≡ 3 }
        ensures all { result.end ≡ End.AllMade → result.steps ≡ min count 8192 }
        ensures held { result.end ≡ End.Held → (result.steps ≡ 0) × (seat.old.seat.number ≢ 3) }
        ensures blocked { result.end ≡ End.Blocked → result.steps ≡ 0 }
    {
        let (mut locked, loan) = self.lock.take(rt);
        let piece = whole_piece(
            rt,
            alloc,
            memory,
            &self.front,
            &mut locked,
            seat,
            count.min(PIECE),
            place,
            gate,
        );
        self.lock.put_back(locked, loan);
        piece
    }
}
