//! Turns of a slice, with what lies under the guest's lock as a whole: each finds it fit for the front, and leaves it so.
ghost use Rattle.std.specs.Prelude.{◌≡◌, ◌≢◌, ◌+◌, ◌<◌, ◌≤◌, ℕ, List, true, Some, IfSome, OnOk, OnErr, IfOk, IsErrOf, length};
ghost use Rattle.guest_pages.specs.declared.page.PageKind.{PageKind};
ghost use Rattle.guest_pages.specs.Holdings.{swapped_pages};
ghost use Rattle.guest_pages.specs.Pages.{kind_at};
ghost use Rattle.guest_log.specs.Logs.{IsFull};
ghost use Rattle.guest_log.specs.declared.stop.Stop.{Stop};
ghost use Rattle.log_seats.specs.Legal.{Legal};
ghost use Rattle.cell.specs.Level.{IsMemoryOf};
ghost use Rattle.cell.specs.Slices.{Slice};
ghost use Rattle.cell.specs.Sitting.{Sits, Narrows};

use crate::lending::{Stepped, steps_over, supply_over};
use crate::turns::take_bytes;
use crate::{End, Front, Locked};
use guest::{Seat, Stop};
use machine_memory::MachineMemory;
use page_moves::SupplyError;
use std::alloc::Global;
use std::sync::Wait;
use swapstore::SwapStore;
use word32::Ppn;

// The console's input, as `take_bytes` has it.
fn input_in<S: SwapStore + Drop, R: Wait>(
    rt: &R,
    front: &Front<S>,
    locked: &mut Locked,
    seat: &mut Seat,
) -> Result<bool, Stop>
    requires sits { Sits S.true_to_digests front.now locked.old }
    requires head { seat.old.head ≡ front.now.head.value }
    requires legal { Legal seat.old.saw seat.old.number seat.old.saw seat.old.made }
    requires saw { seat.old.saw ≡ locked.old.guest.value.log.items }
    ensures sits { Sits S.true_to_digests front.now locked.new }
    ensures slice { Slice seat.old 0 seat.new }
    ensures saw { seat.new.saw ≡ locked.new.guest.value.log.items }
    ensures keeper { locked.new.keeper ≡ locked.old.keeper }
    ensures full { IsErrOf result Stop.LogFull → IsFull locked.new.guest.value.log }
{
    take_bytes(rt, &front.queue, &mut locked.taker, &mut locked.guest, seat)
}

// Steps, as `steps_over` has them.
#[tactic(auto, using(crate::proofs::Sitting::sits_on, crate::proofs::Level::to_memory, crate::proofs::Level::of_memory))]
fn steps_in<S: SwapStore + Drop, R: Wait>(
    rt: &R,
    memory: &MachineMemory<S>,
    front: &Front<S>,
    locked: &mut Locked,
    seat: &mut Seat,
    count: u32,
) -> Result<Stepped, Stop>
    requires sits { Sits S.true_to_digests front.now locked.old }
    requires memory { IsMemoryOf front.now.first.value memory.now }
    requires head { seat.old.head ≡ front.now.head.value }
    ensures sits { Sits S.true_to_digests front.now locked.new }
    ensures slice { IfOk result (λ s. Slice seat.old s.steps seat.new) }
    ensures refused { OnErr result (Slice seat.old 0 seat.new) }
    ensures saw { seat.new.saw ≡ locked.new.guest.value.log.items }
    ensures few { IfOk result (λ s. s.steps ≤ count) }
    ensures there { IfOk result (λ s. IfSome s.needs (λ page. page < length locked.new.guest.value.bus.pages)) }
    ensures keeper { locked.new.keeper ≡ locked.old.keeper }
    ensures full { IsErrOf result Stop.LogFull → IsFull locked.new.guest.value.log }
{
    steps_over(
        rt,
        memory,
        &mut locked.stake,
        &mut locked.taker,
        &mut locked.guest,
        seat,
        count,
    )
}

// A page, as `supply_over` has it.
#[tactic(auto, using(crate::proofs::Narrowed::sits_narrowed, crate::proofs::Narrowed::narrows, crate::proofs::Level::to_memory, crate::proofs::Level::of_memory))]
pub(crate) fn supply_in<S: SwapStore + Drop, R: Wait>(
    rt: &R,
    alloc: Global,
    memory: &MachineMemory<S>,
    front: &Front<S>,
    locked: &mut Locked,
    page: Ppn,
) -> Result<(), SupplyError>
    requires sits { Sits S.true_to_digests front.now locked.old }
    requires memory { IsMemoryOf front.now.first.value memory.now }
    requires there { page < length locked.old.guest.value.bus.pages }
    ensures sits { Sits S.true_to_digests front.now locked.new }
    ensures items { locked.new.guest.value.log.items ≡ locked.old.guest.value.log.items }
    ensures count { length locked.new.guest.value.bus.pages ≡ length locked.old.guest.value.bus.pages }
    ensures narrows { Narrows locked.old locked.new }
    ensures fewer { kind_at locked.old.guest.value.bus.pages page ≡ PageKind.Swapped →
        OnOk result (swapped_pages locked.new.guest.value.bus.pages + 1 ≡ swapped_pages locked.old.guest.value.bus.pages) }
{
    supply_over(
        rt,
        alloc,
        memory,
        &front.truth,
        &mut locked.keeper,
        &mut locked.stake,
        &mut locked.guest,
        page,
    )
}

// How many of some steps are made at once: one, while bytes may still wait for room in the console.
fn steps_at_once(is_empty: bool, count: u32) -> u32
    requires { 0 < count }
    ensures { result ≤ count }
{
    if is_empty { count } else { 1 }
}

// The console's input, and then at most so many steps, up to one that needs a page, which is supplied, or gives one; and why the slice ends,
// if it does. While bytes may still wait for room in the console, one step is made at a time.
#[tactic(auto, using(crate::proofs::Slicing::joined, crate::proofs::Slicing::head_stays, crate::proofs::Narrowed::narrows_same))]
pub(crate) fn turn<S: SwapStore + Drop, R: Wait>(
    rt: &R,
    alloc: Global,
    memory: &MachineMemory<S>,
    front: &Front<S>,
    locked: &mut Locked,
    seat: &mut Seat,
    count: u32,
) -> (u32, Option<End>)
    requires sits { Sits S.true_to_digests front.now locked.old }
    requires memory { IsMemoryOf front.now.first.value memory.now }
    requires head { seat.old.head ≡ front.now.head.value }
    requires legal { Legal seat.old.saw seat.old.number seat.old.saw seat.old.made }
    requires saw { seat.old.saw ≡ locked.old.guest.value.log.items }
    requires some { 0 < count }
    ensures sits { Sits S.true_to_digests front.now locked.new }
    ensures slice { Slice seat.old result.0 seat.new }
    ensures saw { seat.new.saw ≡ locked.new.guest.value.log.items }
    ensures few { result.0 ≤ count }
    ensures narrows { Narrows locked.old locked.new }
    ensures full { result.1 ≡ Some End.LogFull → IsFull locked.new.guest.value.log }
    ensures no_break { result.1 ≢ Some End.Break }
    ensures not_all { result.1 ≢ Some End.AllMade }
    ensures not_idle { (result.1 ≢ Some End.Held) × (result.1 ≢ Some End.Blocked) }
{
    let is_empty = match input_in(rt, front, locked, seat) {
        Ok(is_empty) => is_empty,
        Err(stop) => return (0, Some(End::of_stop(stop))),
    };
    let most = steps_at_once(is_empty, count);
    let Stepped { steps, needs } = match steps_in(rt, memory, front, locked, seat, most) {
        Ok(stepped) => stepped,
        Err(stop) => return (0, Some(End::of_stop(stop))),
    };
    let Some(page) = needs else {
        return (steps, None);
    };
    match supply_in(rt, alloc, memory, front, locked, page) {
        Ok(()) => (steps, None),
        Err(error) => (steps, Some(End::of_supply(error))),
    }
}
