//! Pages that get a frame of their own from a pool.
ghost use Rattle.std.specs.Prelude.{◌≡◌, ℕ, ◌+◌, ◌<◌, ◌⊎◌, ◌↔◌, IfErr, OnOk, OnErr, Option, List, length};
ghost use Rattle.word32.specs.Zeros.{zeros};
ghost use Rattle.sha2.specs.Sha256.{sha256};
ghost use Rattle.frames.specs.FreeList.{FreeList};
ghost use Rattle.sharetab.specs.Books.{Leaves};
ghost use Rattle.sharetab.specs.Entries.{EntriesAre};
ghost use Rattle.swapstore.specs.Failures.{one_more};
ghost use Rattle.swapstore.specs.Holding.{AreHeld, AllStay};
ghost use Rattle.guest_pages.specs.declared.page.PageKind.{PageKind};
ghost use Rattle.guest_pages.specs.Pages.{page_at, kind_at, shown, ticket_of, slot_of, digest_of};
ghost use Rattle.page_moves.specs.Moves.{Gives, SameNumbers, Conserves, Reads, Covered};
ghost use Rattle.page_moves.specs.Faith.{Faithful, Kept};
ghost use Rattle.page_moves.specs.Supplies.{Supplies, WantsFrame, WhyAway, IsDamaged};

use crate::moves::frame_back;
use framepool::Pool;
use page_moves::{Pages, SupplyError, supply_copy, supply_first, supply_swapped};
use sharetab::Shares;
use std::alloc::Global;
use swapstore::{SlotBook, SwapStore};
use word32::Ppn;

/// A page that was never touched, or was given to the balloon, gets a frame of zeros from the pool. `NoFrame` exactly where no
/// frame is free, `Memory` where a request for memory was refused: no page has changed then, and the same frames are free.
pub(crate) fn supply_first_from<P: Pages>(
    alloc: Global,
    pages: &mut P,
    p: Ppn,
    pool: &mut Pool,
) -> Result<(), SupplyError>
    requires there { p < length (P.pages pages.old) }
    requires kind { (kind_at (P.pages pages.old) p ≡ PageKind.Zero) ⊎ (kind_at (P.pages pages.old) p ≡ PageKind.Given) }
    ensures conserves { (book : FreeList) (entries : EntriesAre) →
        Conserves (P.pages pages.old) pool.old book entries (P.pages pages.new) pool.new book entries }
    ensures faithful { (view : ℕ → List ℕ) → Faithful view (P.pages pages.old) → Faithful view (P.pages pages.new) }
    ensures kept { (held : ℕ → Option (List ℕ)) (view : ℕ → List ℕ) → Kept held view (P.pages pages.old) → Kept held view (P.pages pages.new) }
    ensures reads { (entries : EntriesAre) → Reads entries (P.pages pages.old) → Reads entries (P.pages pages.new) }
    ensures rest { P.rest pages.new ≡ P.rest pages.old }
    ensures supplied { OnOk result (Supplies (P.pages pages.old) p (zeros 4096) (P.pages pages.new)) }
    ensures some { OnOk result (0 < length pool.old.free) }
    ensures taken { OnOk result (length pool.old.free ≡ length pool.new.free + 1) }
    ensures err { IfErr result (WantsFrame pool.old) }
    ensures unchanged { OnErr result (P.pages pages.new ≡ P.pages pages.old) }
    ensures pool_unchanged { OnErr result (SameNumbers pool.old pool.new) }
{
    let Some(no) = pool.take() else {
        return Err(SupplyError::NoFrame);
    };
    match supply_first(alloc, pages, p, no) {
        Ok(()) => Ok(()),
        Err(no) => {
            pool.give(no);
            Err(SupplyError::Memory)
        }
    }
}

/// A shared page gets a frame of its own from the pool, into which its bytes are copied, also where no other page reads the
/// shared one. Its ticket goes back, and the shared frame to the pool where that was the last one. The errors are those of
/// `supply_first`.
pub(crate) fn supply_copy_from<P: Pages>(
    alloc: Global,
    pages: &mut P,
    p: Ppn,
    pool: &mut Pool,
    shares: &mut Shares,
) -> Result<(), SupplyError>
    requires there { p < length (P.pages pages.old) }
    requires kind { kind_at (P.pages pages.old) p ≡ PageKind.Shared }
    requires covered { Covered shares.old.entries (P.pages pages.old) }
    ensures conserves { (book : FreeList) →
        Conserves (P.pages pages.old) pool.old book shares.old.entries (P.pages pages.new) pool.new book shares.new.entries }
    ensures faithful { (view : ℕ → List ℕ) → Faithful view (P.pages pages.old) → Faithful view (P.pages pages.new) }
    ensures kept { (held : ℕ → Option (List ℕ)) (view : ℕ → List ℕ) → Kept held view (P.pages pages.old) → Kept held view (P.pages pages.new) }
    ensures reads { Reads shares.old.entries (P.pages pages.old) → Reads shares.new.entries (P.pages pages.new) }
    ensures rest { P.rest pages.new ≡ P.rest pages.old }
    ensures hints { shares.new.hints ≡ shares.old.hints }
    ensures supplied { OnOk result (Supplies (P.pages pages.old) p (shown (page_at (P.pages pages.old) p)) (P.pages pages.new)) }
    ensures leaves { OnOk result (Leaves shares.old.entries (ticket_of (page_at (P.pages pages.old) p)) shares.new.entries) }
    ensures some { OnOk result (0 < length pool.old.free) }
    ensures err { IfErr result (WantsFrame pool.old) }
    ensures unchanged { OnErr result (P.pages pages.new ≡ P.pages pages.old) }
    ensures shares_unchanged { OnErr result (shares.new ≡ shares.old) }
    ensures pool_unchanged { OnErr result (SameNumbers pool.old pool.new) }
{
    let Some(no) = pool.take() else {
        return Err(SupplyError::NoFrame);
    };
    match supply_copy(alloc, pages, p, no, shares) {
        Ok(came_free) => {
            frame_back(came_free, pool);
            Ok(())
        }
        Err(no) => {
            pool.give(no);
            Err(SupplyError::Memory)
        }
    }
}

/// A swapped page gets a frame from the pool with the bytes of its slot, which is free then. `NoFrame` and `Memory` as in
/// `supply_first`; `SwapRead` where the store failed to read the slot; `SwapDamaged` where what was read has another SHA-256
/// than the page had: no page and no slot has changed then, and the same frames are free.
pub(crate) fn supply_swapped_from<P: Pages, S: SwapStore>(
    alloc: Global,
    pages: &mut P,
    p: Ppn,
    pool: &mut Pool,
    slots: &mut SlotBook,
    store: &mut S,
) -> Result<(), SupplyError>
    requires there { p < length (P.pages pages.old) }
    requires kind { kind_at (P.pages pages.old) p ≡ PageKind.Swapped }
    requires used { 0 < slots.old.out }
    requires slot { slot_of (page_at (P.pages pages.old) p) < S.slots store.old }
    ensures conserves { (entries : EntriesAre) →
        Conserves (P.pages pages.old) pool.old slots.old entries (P.pages pages.new) pool.new slots.new entries }
    ensures kept { S.true_to_digests store.old → (view : ℕ → List ℕ) →
        Kept (S.held store.old) view (P.pages pages.old) → Kept (S.held store.new) view (P.pages pages.new) }
    ensures faithful { (view : ℕ → List ℕ) → Faithful view (P.pages pages.old) →
        OnOk result (shown (page_at (P.pages pages.new) p) ≡ view p) → Faithful view (P.pages pages.new) }
    ensures reads { (entries : EntriesAre) → Reads entries (P.pages pages.old) → Reads entries (P.pages pages.new) }
    ensures rest { P.rest pages.new ≡ P.rest pages.old }
    ensures supplied { OnOk result (Supplies (P.pages pages.old) p (shown (page_at (P.pages pages.new) p)) (P.pages pages.new)) }
    ensures digest { OnOk result (sha256 (shown (page_at (P.pages pages.new) p)) ≡ digest_of (page_at (P.pages pages.old) p)) }
    ensures gives { OnOk result (S.gives store.old (slot_of (page_at (P.pages pages.old) p)) (shown (page_at (P.pages pages.new) p))) }
    ensures honest_gives { OnOk result
        (S.honest store.old → AreHeld (S.held store.old (slot_of (page_at (P.pages pages.old) p))) (shown (page_at (P.pages pages.new) p))) }
    ensures slot_free { OnOk result (Gives slots.old (slot_of (page_at (P.pages pages.old) p)) slots.new) }
    ensures some { OnOk result (0 < length pool.old.free) }
    ensures no_failure { OnOk result (S.failed store.new ≡ S.failed store.old) }
    ensures err { IfErr result (WhyAway pool.old (S.failed store.new ≡ one_more (S.failed store.old))
        (IsDamaged (S.gives store.old (slot_of (page_at (P.pages pages.old) p))) (S.honest store.old) (S.held store.old (slot_of (page_at (P.pages pages.old) p)))
        (digest_of (page_at (P.pages pages.old) p)))) }
    ensures unchanged { OnErr result (P.pages pages.new ≡ P.pages pages.old) }
    ensures pool_unchanged { OnErr result (SameNumbers pool.old pool.new) }
    ensures slots_unchanged { OnErr result (slots.new ≡ slots.old) }
    ensures held { AllStay (S.held store.old) (S.held store.new) }
    ensures slots { S.slots store.new ≡ S.slots store.old }
    ensures honest { S.honest store.new ↔ S.honest store.old }
    ensures true_to_digests { S.true_to_digests store.new ↔ S.true_to_digests store.old }
{
    let Some(no) = pool.take() else {
        return Err(SupplyError::NoFrame);
    };
    match supply_swapped(alloc, pages, p, no, store) {
        Ok(slot) => {
            slots.give(slot);
            Ok(())
        }
        Err((no, error)) => {
            pool.give(no);
            Err(error)
        }
    }
}
