//! The moves of one guest's pages, each with what lies around them, after which nothing is lost or made.
ghost use Rattle.std.specs.Prelude.{◌≡◌, ℕ, ◌+◌, ◌<◌, ◌≤◌, ◌↔◌, IsTrue, All, List, [], ◌∷◌, Option, Some, OnOk, OnErr, IfErr, IsErrOf, length, slice_set};
ghost use Rattle.std.specs.Option.{option_to_list};
ghost use Rattle.sha2.specs.Sha256.{sha256};
ghost use Rattle.frames.specs.Counts.{count_of};
ghost use Rattle.frames.specs.FreeList.{FreeList};
ghost use Rattle.sharetab.specs.Entries.{EntriesAre};
ghost use Rattle.swapstore.specs.Failures.{one_more};
ghost use Rattle.swapstore.specs.Holding.{AreHeld};
ghost use Rattle.guest_pages.specs.declared.page.Page.{Page};
ghost use Rattle.guest_pages.specs.declared.page.PageKind.{PageKind};
ghost use Rattle.guest_pages.specs.Pages.{page_at, kind_at, is_resident, shown, slot_of, digest_of};
ghost use Rattle.page_moves.specs.Moves.{SameNumbers, MovesFrames, Conserves, Reads, Covered, OwnOnce};
ghost use Rattle.page_moves.specs.Faith.{Faithful, Kept};
ghost use Rattle.page_moves.specs.Scans.{Answered, Comes, HintsAfter};
ghost use Rattle.page_moves.specs.Supplies.{WhyAway, IsDamaged};
ghost use Rattle.tenant.specs.Lent.{Lent, UsedStay, WhyStays};

use crate::supplying::{supply_copy_from, supply_first_from, supply_swapped_from};
use framepool::Pool;
use frames::FrameNo;
use guest_number::GuestNo;
use guest_pages::PageKind;
use page_moves::{Pages, Scan, SupplyError, evict_in, scan_in, store_first};
use sharetab::Shares;
use std::alloc::Global;
use swapstore::{SlotBook, SwapStore};
use word32::Ppn;

/// Why a resident page stays in its frame.
#[derive(Clone, Copy, Debug, PartialEq, Eq)]
pub enum EvictError {
    /// No slot is free.
    NoSwap,
    /// The store failed to write the slot, which is free again.
    SwapWrite,
}

/// A frame that came free, where one did, goes to the pool.
#[tactic(auto, using(crate::proofs::Moving::frames_back))]
pub(crate) fn frame_back(came_free: Option<FrameNo>, pool: &mut Pool)
    requires out { (number : ℕ) → came_free ≡ Some number → 0 < pool.old.out }
    ensures { (pages pages' : List Page) (before : FreeList) (entries entries' : EntriesAre) →
        MovesFrames pages before entries pages' pool.old entries' (option_to_list came_free) →
        MovesFrames pages before entries pages' pool.new entries' [] }
{
    match came_free {
        Some(number) => pool.give(number),
        None => {}
    }
}

/// A resident page is written to the free slot of the lowest number, and leaves its frame, which is free then but where other
/// pages read it too. Where it is refused, no page has changed, and the same frames and slots are free.
pub fn evict_page<P: Pages, S: SwapStore>(
    pages: &mut P,
    p: Ppn,
    pool: &mut Pool,
    slots: &mut SlotBook,
    store: &mut S,
    shares: &mut Shares,
) -> Result<(), EvictError>
    requires there { p < length (P.pages pages.old) }
    requires resident { IsTrue (is_resident (kind_at (P.pages pages.old) p)) }
    requires lent { Lent (S.slots store.old) (P.pages pages.old) pool.old slots.old shares.old.entries }
    ensures conserves { Conserves (P.pages pages.old) pool.old slots.old shares.old.entries (P.pages pages.new) pool.new slots.new shares.new.entries }
    ensures reads { Reads shares.old.entries (P.pages pages.old) → Reads shares.new.entries (P.pages pages.new) }
    ensures faithful { (view : ℕ → List ℕ) → Faithful view (P.pages pages.old) → Faithful view (P.pages pages.new) }
    ensures kept { (view : ℕ → List ℕ) → Kept (S.held store.old) view (P.pages pages.old) → Kept (S.held store.new) view (P.pages pages.new) }
    ensures used { UsedStay slots.old (S.held store.old) (S.held store.new) }
    ensures count { length (P.pages pages.new) ≡ length (P.pages pages.old) }
    ensures rest { P.rest pages.new ≡ P.rest pages.old }
    ensures hints { shares.new.hints ≡ shares.old.hints }
    ensures page { OnOk result (P.pages pages.new ≡ slice_set (P.pages pages.old) p
        (Page.Swapped (slot_of (page_at (P.pages pages.new) p)) (sha256 (shown (page_at (P.pages pages.old) p))))) }
    ensures lowest { OnOk result (All (λ other. slot_of (page_at (P.pages pages.new) p) ≤ other) slots.old.free) }
    ensures err { IfErr result (WhyStays slots.old (S.failed store.new ≡ one_more (S.failed store.old))) }
    ensures no_failure { OnOk result (S.failed store.new ≡ S.failed store.old) }
    ensures unchanged { OnErr result (P.pages pages.new ≡ P.pages pages.old) }
    ensures shares_unchanged { OnErr result (shares.new ≡ shares.old) }
    ensures pool_unchanged { OnErr result (pool.new ≡ pool.old) }
    ensures slots_unchanged { OnErr result (SameNumbers slots.old slots.new) }
    ensures slots { S.slots store.new ≡ S.slots store.old }
    ensures honest { S.honest store.new ↔ S.honest store.old }
    ensures true_to_digests { S.true_to_digests store.new ↔ S.true_to_digests store.old }
{
    let Some(slot) = slots.take() else {
        return Err(EvictError::NoSwap);
    };
    match evict_in(pages, p, slot, store, shares) {
        Ok(came_free) => {
            frame_back(came_free, pool);
            Ok(())
        }
        Err(slot) => {
            slots.give(slot);
            Err(EvictError::SwapWrite)
        }
    }
}

/// A page that was never touched gets the free slot of the lowest number, to which these bytes of it are written. Where it is
/// refused, no page has changed, and the same slots are free.
pub fn store_page<P: Pages, S: SwapStore>(
    pages: &mut P,
    p: Ppn,
    bytes: &[u8],
    slots: &mut SlotBook,
    store: &mut S,
) -> Result<(), EvictError>
    requires there { p < length (P.pages pages.old) }
    requires untouched { kind_at (P.pages pages.old) p ≡ PageKind.Zero }
    requires size { length bytes.now ≡ 4096 }
    requires inside { (slot : ℕ) → 0 < count_of slot slots.old.free → slot < S.slots store.old }
    ensures conserves { (pool : FreeList) (entries : EntriesAre) →
        Conserves (P.pages pages.old) pool slots.old entries (P.pages pages.new) pool slots.new entries }
    ensures reads { (entries : EntriesAre) → Reads entries (P.pages pages.old) → Reads entries (P.pages pages.new) }
    ensures used { UsedStay slots.old (S.held store.old) (S.held store.new) }
    ensures count { length (P.pages pages.new) ≡ length (P.pages pages.old) }
    ensures rest { P.rest pages.new ≡ P.rest pages.old }
    ensures page { OnOk result (P.pages pages.new ≡ slice_set (P.pages pages.old) p
        (Page.Swapped (slot_of (page_at (P.pages pages.new) p)) (sha256 bytes.now))) }
    ensures lowest { OnOk result (All (λ other. slot_of (page_at (P.pages pages.new) p) ≤ other) slots.old.free) }
    ensures written { OnOk result (AreHeld (S.held store.new (slot_of (page_at (P.pages pages.new) p))) bytes.now) }
    ensures taken { OnOk result (length slots.old.free ≡ length slots.new.free + 1) }
    ensures none { IsErrOf result EvictError.NoSwap → slots.old.free ≡ [] }
    ensures err { IfErr result (WhyStays slots.new (S.failed store.new ≡ one_more (S.failed store.old))) }
    ensures no_failure { OnOk result (S.failed store.new ≡ S.failed store.old) }
    ensures unchanged { OnErr result (P.pages pages.new ≡ P.pages pages.old) }
    ensures slots_unchanged { OnErr result (SameNumbers slots.old slots.new) }
    ensures slots { S.slots store.new ≡ S.slots store.old }
    ensures honest { S.honest store.new ↔ S.honest store.old }
    ensures true_to_digests { S.true_to_digests store.new ↔ S.true_to_digests store.old }
{
    match slots.take() {
        Some(slot) => match store_first(pages, p, bytes, slot, store) {
            Ok(()) => Ok(()),
            Err(unused) => {
                slots.give(unused);
                Err(EvictError::SwapWrite)
            }
        },
        None => Err(EvictError::NoSwap),
    }
}

/// A page gets a frame of its own, with its bytes: zeros where it was never touched or was given to the balloon, those of the
/// frame that it shares, or those of its slot. A page that has one keeps it. The errors are those of `page_moves`'s supplies; where
/// one comes, no page and no slot has changed, and the same frames are free.
pub fn supply_page<P: Pages, S: SwapStore>(
    alloc: Global,
    pages: &mut P,
    p: Ppn,
    pool: &mut Pool,
    slots: &mut SlotBook,
    store: &mut S,
    shares: &mut Shares,
) -> Result<(), SupplyError>
    requires there { p < length (P.pages pages.old) }
    requires lent { Lent (S.slots store.old) (P.pages pages.old) pool.old slots.old shares.old.entries }
    ensures conserves { Conserves (P.pages pages.old) pool.old slots.old shares.old.entries (P.pages pages.new) pool.new slots.new shares.new.entries }
    ensures reads { Reads shares.old.entries (P.pages pages.old) → Reads shares.new.entries (P.pages pages.new) }
    ensures faithful { (view : ℕ → List ℕ) → Faithful view (P.pages pages.old) →
        (kind_at (P.pages pages.old) p ≡ PageKind.Swapped → OnOk result (shown (page_at (P.pages pages.new) p) ≡ view p)) → Faithful view (P.pages pages.new) }
    ensures kept { S.true_to_digests store.old → (view : ℕ → List ℕ) →
        Kept (S.held store.old) view (P.pages pages.old) → Kept (S.held store.new) view (P.pages pages.new) }
    ensures used { UsedStay slots.old (S.held store.old) (S.held store.new) }
    ensures count { length (P.pages pages.new) ≡ length (P.pages pages.old) }
    ensures rest { P.rest pages.new ≡ P.rest pages.old }
    ensures hints { shares.new.hints ≡ shares.old.hints }
    ensures private { OnOk result (kind_at (P.pages pages.new) p ≡ PageKind.Private) }
    ensures others { (other : ℕ) → (other ≡ p → ⊥) → page_at (P.pages pages.new) other ≡ page_at (P.pages pages.old) other }
    ensures err { IfErr result (WhyAway pool.old (S.failed store.new ≡ one_more (S.failed store.old))
        (IsDamaged (S.gives store.old (slot_of (page_at (P.pages pages.old) p))) (S.honest store.old) (S.held store.old (slot_of (page_at (P.pages pages.old) p)))
        (digest_of (page_at (P.pages pages.old) p)))) }
    ensures undamaged { IsErrOf result SupplyError.SwapDamaged → S.honest store.old → (view : ℕ → List ℕ) →
        Kept (S.held store.old) view (P.pages pages.old) → ⊥ }
    ensures no_failure { OnOk result (S.failed store.new ≡ S.failed store.old) }
    ensures unchanged { OnErr result (P.pages pages.new ≡ P.pages pages.old) }
    ensures shares_unchanged { OnErr result (shares.new ≡ shares.old) }
    ensures pool_unchanged { OnErr result (SameNumbers pool.old pool.new) }
    ensures slots_unchanged { OnErr result (slots.new ≡ slots.old) }
    ensures slots { S.slots store.new ≡ S.slots store.old }
    ensures honest { S.honest store.new ↔ S.honest store.old }
    ensures true_to_digests { S.true_to_digests store.new ↔ S.true_to_digests store.old }
{
    match pages.kind(p) {
        PageKind::Zero => supply_first_from(alloc, pages, p, pool),
        PageKind::Given => supply_first_from(alloc, pages, p, pool),
        PageKind::Private => Ok(()),
        PageKind::Shared => supply_copy_from(alloc, pages, p, pool, shares),
        PageKind::Swapped => supply_swapped_from(alloc, pages, p, pool, slots, store),
    }
}

/// A page is scanned, as `page_moves`'s `scan_in` has it, and the frame that came free is free again.
pub fn scan_page<P: Pages>(
    pages: &mut P,
    guest: GuestNo,
    p: Ppn,
    pool: &mut Pool,
    shares: &mut Shares,
) -> Scan
    requires covered { Covered shares.old.entries (P.pages pages.old) }
    requires own_once { OwnOnce shares.old.entries (P.pages pages.old) }
    requires frame_out { (pages' : List Page) (entries' : EntriesAre) (number : ℕ) →
        MovesFrames (P.pages pages.old) pool.old shares.old.entries pages' pool.old entries' (number ∷ []) → 0 < pool.old.out }
    ensures conserves { (book : FreeList) →
        Conserves (P.pages pages.old) pool.old book shares.old.entries (P.pages pages.new) pool.new book shares.new.entries }
    ensures reads { Reads shares.old.entries (P.pages pages.old) → Reads shares.new.entries (P.pages pages.new) }
    ensures faithful { (view : ℕ → List ℕ) → Faithful view (P.pages pages.old) → Faithful view (P.pages pages.new) }
    ensures kept { (held : ℕ → Option (List ℕ)) (view : ℕ → List ℕ) → Kept held view (P.pages pages.old) → Kept held view (P.pages pages.new) }
    ensures count { length (P.pages pages.new) ≡ length (P.pages pages.old) }
    ensures rest { P.rest pages.new ≡ P.rest pages.old }
    ensures answer { Answered shares.old (P.pages pages.old) (record { guest = guest; page = p }) result }
    ensures comes { (came_free : List ℕ) × Comes shares.old.entries (P.pages pages.old) p result shares.new.entries (P.pages pages.new) came_free }
    ensures hints { HintsAfter shares.old.hints (sha256 (shown (page_at (P.pages pages.old) p))) (record { guest = guest; page = p }) result shares.new.hints }
{
    let (scan, came_free) = scan_in(pages, guest, p, shares);
    frame_back(came_free, pool);
    scan
}
