//! A step of a guest, with what lies around its pages.
ghost use Rattle.std.specs.Prelude.{◌≡◌, ◌≢◌, ◌↔◌, ◌+◌, ◌<◌, ◌≤◌, ℕ, List, length, Option, None, Some, IfOk, OnErr, IsErrOf, IsSome};
ghost use Rattle.items.specs.Entries.{step_by, steps_of};
ghost use Rattle.machine.specs.Items.{run};
ghost use Rattle.guest_log.specs.Logs.{IsFull};
ghost use Rattle.machine.specs.Accesses.{accesses, first_lack};
ghost use Rattle.machine.specs.Answer.{need_of};
ghost use Rattle.machine.specs.Given.{step_given};
ghost use Rattle.guest_pages.specs.Outline.{outline};
ghost use Rattle.page_moves.specs.Moves.{Conserves, Reads};
ghost use Rattle.guest_bus.specs.Lacking.{lacks_in};
ghost use Rattle.guest_bus.specs.Buses.{pages_settled};
ghost use Rattle.guest.specs.Guests.{view_of, last_given};
ghost use Rattle.tenant.specs.Lent.{Lent};
ghost use Rattle.machine.specs.declared.access.Why.{Why};
ghost use Rattle.tenant.specs.Tenants.{pages_in, IsKept, Stays, Adds, AddsSteps, NothingHappens};

use crate::Tenant;
use framepool::Pool;
use guest::{Pause, Progress, Stepped, Stop};
use machine::{StepOut, Why};
use page_moves::give_back;
use sharetab::Shares;
use swapstore::SlotBook;
use word32::Ppn;

/// One step, with room made for it in the log; what a page that it gave to the balloon was in goes where it belongs.
pub fn step_in(
    tenant: &mut Tenant,
    pool: &mut Pool,
    slots: &mut SlotBook,
    shares: &mut Shares,
) -> Result<StepOut, Stop>
    requires { (store_slots : ℕ) × Lent store_slots (pages_in tenant.old) pool.old slots.old shares.old.entries }
    ensures conserves { Conserves (pages_in tenant.old) pool.old slots.old shares.old.entries (pages_in tenant.new) pool.new slots.new shares.new.entries }
    ensures reads { Reads shares.old.entries (pages_in tenant.old) → Reads shares.new.entries (pages_in tenant.new) }
    ensures need { (held : ℕ → Option (List ℕ)) → IsKept held tenant.old →
        IfOk result (λ s. need_of s ≡ first_lack (lacks_in (pages_in tenant.old)) (accesses (view_of tenant.old.guest))) }
    ensures adds { IfOk result (λ s. need_of s ≡ None → Adds tenant.old (step_by 0) tenant.new) }
    ensures needs { IfOk result (λ s. need_of s ≢ None → NothingHappens tenant.old tenant.new) }
    ensures full { IsErrOf result Stop.LogFull ↔ IsFull tenant.old.guest.log }
    ensures unchanged { OnErr result (NothingHappens tenant.old tenant.new) }
    ensures kept { (held : ℕ → Option (List ℕ)) → IsKept held tenant.old → IsKept held tenant.new }
    ensures stays { Stays tenant.old tenant.new }
    ensures hints { shares.new.hints ≡ shares.old.hints }
    ensures lent_unchanged { IfOk result (λ s. need_of s ≢ None → (pool.new ≡ pool.old) × (slots.new ≡ slots.old) × (shares.new ≡ shares.old)) }
    ensures lent_stays { OnErr result ((pool.new ≡ pool.old) × (slots.new ≡ slots.old) × (shares.new ≡ shares.old)) }
{
    match tenant.step()? {
        Stepped::Done(returned) => {
            give_back(returned, pool, slots, shares);
            Ok(StepOut::Done)
        }
        Stepped::Need(page, why) => Ok(StepOut::Need(page, why)),
    }
}

/// At most `count` steps, one after another, with room made for them in the log: those up to one that needs a page, which comes back
/// with why, or that gave one to the balloon, where what the page was in goes where it belongs. So no step that is made accesses a page
/// that is lacking by where the pages were, and each page is where it was but for the one, if any, that the last step gave.
#[inline]
pub fn run_in(
    tenant: &mut Tenant,
    count: u32,
    pool: &mut Pool,
    slots: &mut SlotBook,
    shares: &mut Shares,
) -> Result<(u32, Option<(Ppn, Why)>), Stop>
    requires some { 0 < count }
    requires lent { (store_slots : ℕ) × Lent store_slots (pages_in tenant.old) pool.old slots.old shares.old.entries }
    ensures conserves { Conserves (pages_in tenant.old) pool.old slots.old shares.old.entries (pages_in tenant.new) pool.new slots.new shares.new.entries }
    ensures reads { Reads shares.old.entries (pages_in tenant.old) → Reads shares.new.entries (pages_in tenant.new) }
    ensures few { IfOk result (λ made. made.0 ≤ count) }
    ensures some { IfOk result (λ made. made.1 ≡ None → 0 < made.0) }
    ensures short { IfOk result (λ made. IsSome made.1 → made.0 < count) }
    ensures need { (held : ℕ → Option (List ℕ)) → IsKept held tenant.old → IfOk result (λ made. (page : ℕ) (why : Why) →
        made.1 ≡ Some (page, why) → first_lack (lacks_in (pages_in tenant.new)) (accesses (view_of tenant.new.guest)) ≡ Some (page, why)) }
    ensures there { IfOk result (λ made. (page : ℕ) (why : Why) → made.1 ≡ Some (page, why) → page < length (pages_in tenant.old)) }
    ensures room { IfOk result (λ made. IsSome made.1 → IsFull tenant.new.guest.log → ⊥) }
    ensures adds { IfOk result (λ made. AddsSteps tenant.old made.0 tenant.new) }
    ensures quiet { (held : ℕ → Option (List ℕ)) → IsKept held tenant.old → IfOk result (λ made. (k : ℕ) → k < made.0 →
        first_lack (lacks_in (pages_in tenant.old)) (accesses (run (steps_of 0 k) (view_of tenant.old.guest))) ≡ None) }
    ensures gives_last { (held : ℕ → Option (List ℕ)) → IsKept held tenant.old → IfOk result (λ made. (k : ℕ) → k + 1 < made.0 →
        step_given (run (steps_of 0 k) (view_of tenant.old.guest)) ≡ None) }
    ensures given { (held : ℕ → Option (List ℕ)) → IsKept held tenant.old → IfOk result (λ made.
        outline (pages_in tenant.new) ≡ outline (pages_settled (last_given 0 made.0 (view_of tenant.old.guest)) (pages_in tenant.old))) }
    ensures nothing { IfOk result (λ made. made.0 ≡ 0 → NothingHappens tenant.old tenant.new) }
    ensures full { IsErrOf result Stop.LogFull ↔ IsFull tenant.old.guest.log }
    ensures unchanged { OnErr result (NothingHappens tenant.old tenant.new) }
    ensures kept { (held : ℕ → Option (List ℕ)) → IsKept held tenant.old → IsKept held tenant.new }
    ensures stays { Stays tenant.old tenant.new }
    ensures hints { shares.new.hints ≡ shares.old.hints }
    ensures lent_unchanged { IfOk result (λ made. made.0 ≡ 0 → (pool.new ≡ pool.old) × (slots.new ≡ slots.old) × (shares.new ≡ shares.old)) }
    ensures lent_stays { OnErr result ((pool.new ≡ pool.old) × (slots.new ≡ slots.old) × (shares.new ≡ shares.old)) }
{
    let Progress { steps, pause } = tenant.run(count)?;
    match pause {
        None => Ok((steps, None)),
        Some(pause) => match pause {
            Pause::Gave(came_back) => {
                give_back(came_back, pool, slots, shares);
                Ok((steps, None))
            }
            Pause::Need(page, why) => Ok((steps, Some((page, why)))),
        },
    }
}
