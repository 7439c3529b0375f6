//! Steps and pages of a guest under its lock, over the machine memory around it.
ghost use Rattle.std.specs.Prelude.{◌≡◌, ◌≢◌, ◌+◌, ◌<◌, ◌≤◌, ◌&&◌, ℕ, List, [], true, Option, None, Some, IfSome, IsTrue, OnOk, OnErr, IfOk, IsErrOf, length};
ghost use Rattle.guest_log.specs.Logs.{IsFull};
ghost use Rattle.guest_log.specs.declared.stop.Stop.{Stop};
ghost use Rattle.guest_pages.specs.declared.page.PageKind.{PageKind};
ghost use Rattle.guest_pages.specs.Holdings.{swapped_pages};
ghost use Rattle.guest_pages.specs.Pages.{kind_at, is_resident};
ghost use Rattle.guest.specs.Guests.{Intact, without_pages};
ghost use Rattle.seated.specs.Acts.{Stays};
ghost use Rattle.machine_memory.specs.Memories.{IsLevel};
ghost use Rattle.machine.specs.declared.access.Why.{Why};
ghost use Rattle.guest.specs.declared.progress.Pause.{Pause};
ghost use Rattle.cell.specs.Pausing.{LevelBefore};
ghost use Rattle.cell.specs.Inputs.{bytes_in};
ghost use Rattle.cell.specs.Narrowing.{comes_right};
ghost use Rattle.page_moves.specs.Faith.{Kept};
ghost use Rattle.lent_pages.specs.Contents.{its_slots};
ghost use Rattle.cell.specs.Sitting.{RunIsWritten};
ghost use Rattle.cell.specs.Slices.{Slice};
ghost use Rattle.sharetab.specs.declared.guest_page.GuestPage.{GuestPage};

use crate::narrowing::narrow;
use crate::turns::make_steps;
use console_queue::TakePass;
use guest::{Guest, Pause, Progress, Seat, Stop};
use guest_number::GuestNo;
use lasting_truth::{Keeper, Truth};
use machine_memory::{EvictError, MachineMemory, Stake};
use page_moves::{Scan, SupplyError};
use std::alloc::Global;
use std::sync::Wait;
use swapstore::SwapStore;
use word32::Ppn;

/// Steps that were made, and the page that the next one needs, where it needs one.
pub(crate) struct Stepped {
    /// How many.
    pub steps: u32,
    /// The page.
    pub needs: Option<Ppn>,
}

// At most so many steps, up to one that needs a page or gives one. What a page that was given hands back goes where it belongs.
#[tactic(auto, using(crate::proofs::Lent::level_before, crate::proofs::Lent::stepped_written))]
pub(crate) fn steps_over<S: SwapStore + Drop, R: Wait>(
    rt: &R,
    memory: &MachineMemory<S>,
    stake: &mut Stake,
    taker: &mut TakePass,
    guest: &mut Guest,
    seat: &mut Seat,
    count: u32,
) -> Result<Stepped, Stop>
    requires head { seat.old.head ≡ guest.old.head }
    requires taken { taker.old.taken ≡ bytes_in guest.old.log.items }
    requires level { IsLevel memory.now stake.old guest.old.bus.pages }
    ensures level { IsLevel memory.now stake.new guest.new.bus.pages }
    ensures taker { taker.new ≡ taker.old }
    ensures taken { taker.new.taken ≡ bytes_in guest.new.log.items }
    ensures slice { IfOk result (λ s. Slice seat.old s.steps seat.new) }
    ensures refused { OnErr result (Slice seat.old 0 seat.new) }
    ensures saw { seat.new.saw ≡ guest.new.log.items }
    ensures few { IfOk result (λ s. s.steps ≤ count) }
    ensures stays { Stays guest.old guest.new }
    ensures intact { Intact guest.old → Intact guest.new }
    ensures written { Intact guest.old → RunIsWritten stake.old guest.old → RunIsWritten stake.new guest.new }
    ensures there { IfOk result (λ s. IfSome s.needs (λ page. page < length guest.new.bus.pages)) }
    ensures full { IsErrOf result Stop.LogFull → IsFull guest.new.log }
{
    match make_steps(taker, guest, seat, count) {
        Ok(progress) => {
            let Progress { steps: made, pause } = progress;
            let needs = settle_pause(rt, memory, stake, guest, pause);
            Ok(Stepped { steps: made, needs })
        }
        Err(stop) => Err(stop),
    }
}

// What a page that was given hands back goes where it belongs; and the page that the next step needs.
#[tactic(auto, using(crate::proofs::Lent::level_calm, crate::proofs::Lent::level_needs, crate::proofs::Lent::lags_as))]
fn settle_pause<S: SwapStore + Drop, R: Wait>(
    rt: &R,
    memory: &MachineMemory<S>,
    stake: &mut Stake,
    guest: &Guest,
    pause: Option<Pause>,
) -> Option<Ppn>
    requires { LevelBefore memory.now stake.old pause guest.now.bus.pages }
    ensures level { IsLevel memory.now stake.new guest.now.bus.pages }
    ensures kept { (view : ℕ → List ℕ) → Kept (its_slots stake.old.contents) view guest.now.bus.pages → Kept (its_slots stake.new.contents) view guest.now.bus.pages }
    ensures needs { IfSome result (λ page. (why : Why) × (pause ≡ Some (Pause.Need page why))) }
{
    match pause {
        None => None,
        Some(pause) => match pause {
            Pause::Need(page, _) => Some(page),
            Pause::Gave(returned) => {
                memory.give_back(rt, stake, guest, returned);
                None
            }
        },
    }
}

// A page of the guest gets a frame of its own, with its bytes. The guest's truth holds still exactly where the bytes that came are those of
// its own run (`narrow`).
#[tactic(auto, using(crate::proofs::Lent::intact_still, crate::proofs::Lent::moved_written, crate::proofs::Lent::written_right, crate::proofs::Supplied::one_fewer))]
pub(crate) fn supply_over<S: SwapStore + Drop, R: Wait>(
    rt: &R,
    alloc: Global,
    memory: &MachineMemory<S>,
    truth: &Truth,
    keeper: &mut Keeper,
    stake: &mut Stake,
    guest: &mut Guest,
    page: Ppn,
) -> Result<(), SupplyError>
    requires keeper { keeper.old.truth ≡ truth.now.id }
    requires there { page < length guest.old.bus.pages }
    requires level { IsLevel memory.now stake.old guest.old.bus.pages }
    ensures level { IsLevel memory.now stake.new guest.new.bus.pages }
    ensures rest { without_pages guest.new ≡ without_pages guest.old }
    ensures count { length guest.new.bus.pages ≡ length guest.old.bus.pages }
    ensures truth { keeper.new ≡ record keeper.old { holds = keeper.old.holds && comes_right guest.new page } }
    ensures intact { keeper.new.holds ≡ true → Intact guest.old → Intact guest.new }
    ensures written { S.true_to_digests memory.now.first → RunIsWritten stake.old guest.old → RunIsWritten stake.new guest.new }
    ensures right { S.true_to_digests memory.now.first → RunIsWritten stake.old guest.old → comes_right guest.new page ≡ true }
    ensures private { OnOk result (kind_at guest.new.bus.pages page ≡ PageKind.Private) }
    ensures fewer { kind_at guest.old.bus.pages page ≡ PageKind.Swapped →
        OnOk result (swapped_pages guest.new.bus.pages + 1 ≡ swapped_pages guest.old.bus.pages) }
{
    let done = memory.supply(rt, alloc, stake, guest, page);
    narrow(truth, keeper, guest, page);
    done
}

// A page of the guest that is in a frame leaves it for a slot.
#[tactic(auto, using(crate::proofs::Lent::moved_stays, crate::proofs::Lent::moved_items, crate::proofs::Lent::evicted_intact, crate::proofs::Lent::moved_written))]
pub(crate) fn evict_over<S: SwapStore + Drop, R: Wait>(
    rt: &R,
    memory: &MachineMemory<S>,
    stake: &mut Stake,
    guest: &mut Guest,
    page: Ppn,
) -> Result<(), EvictError>
    requires there { page < length guest.old.bus.pages }
    requires resident { IsTrue (is_resident (kind_at guest.old.bus.pages page)) }
    requires level { IsLevel memory.now stake.old guest.old.bus.pages }
    ensures level { IsLevel memory.now stake.new guest.new.bus.pages }
    ensures stays { Stays guest.old guest.new }
    ensures items { guest.new.log.items ≡ guest.old.log.items }
    ensures intact { Intact guest.old → Intact guest.new }
    ensures written { RunIsWritten stake.old guest.old → RunIsWritten stake.new guest.new }
{
    memory.evict(rt, stake, guest, page)
}

// A page of the guest is scanned.
#[tactic(auto, using(crate::proofs::Lent::moved_stays, crate::proofs::Lent::moved_items, crate::proofs::Lent::moved_intact, crate::proofs::Lent::moved_written, crate::proofs::Lent::admits_another))]
pub(crate) fn scan_over<S: SwapStore + Drop, R: Wait>(
    rt: &R,
    memory: &MachineMemory<S>,
    stake: &mut Stake,
    guest: &mut Guest,
    number: GuestNo,
    page: Ppn,
) -> Scan
    requires level { IsLevel memory.now stake.old guest.old.bus.pages }
    ensures level { IsLevel memory.now stake.new guest.new.bus.pages }
    ensures stays { Stays guest.old guest.new }
    ensures items { guest.new.log.items ≡ guest.old.log.items }
    ensures intact { Intact guest.old → Intact guest.new }
    ensures written { RunIsWritten stake.old guest.old → RunIsWritten stake.new guest.new }
    ensures another { (other : GuestPage) → result ≡ Scan.Admitted other → other ≢ record { guest = number; page = page } }
{
    memory.scan(rt, stake, guest, number, page)
}
