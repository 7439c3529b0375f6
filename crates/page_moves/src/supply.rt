//! Pages that get a frame of their own, which is in the caller's hand.
ghost use Rattle.std.specs.Prelude.{◌≡◌, ℕ, ◌<◌, ◌⊎◌, ◌↔◌, IfOk, IfErr, IfNone, OnOk, OnErr, Option, List, [], length};
ghost use Rattle.std.specs.Option.{option_to_list};
ghost use Rattle.word32.specs.Zeros.{zeros};
ghost use Rattle.sha2.specs.Sha256.{sha256};
ghost use Rattle.frames.specs.FreeList.{FreeList};
ghost use Rattle.sharetab.specs.Books.{Leaves};
ghost use Rattle.sharetab.specs.Entries.{EntriesAre};
ghost use Rattle.swapstore.specs.Failures.{one_more};
ghost use Rattle.swapstore.specs.Holding.{AreHeld, AllStay};
ghost use Rattle.guest_pages.specs.declared.page.PageKind.{PageKind};
ghost use Rattle.guest_pages.specs.Pages.{page_at, kind_at, shown, ticket_of, slot_of, digest_of, handed_back};
ghost use Rattle.page_moves.specs.Moves.{Takes, Gives, MovesFrames, MovesSlots, MovesTickets, Conserves, Reads, Covered};
ghost use Rattle.page_moves.specs.Faith.{Faithful, Kept};
ghost use Rattle.page_moves.specs.Supplies.{Supplies, WhyStillAway, IsDamaged};
ghost use Rattle.page_moves.specs.Returns.{IsStillShared};

use crate::Pages;
use crate::stored::read_page;
use frames::{Frame, FrameNo, SlotTicket};
use sharetab::Shares;
use std::alloc::Global;
use swapstore::SwapStore;
use word32::Ppn;

/// Why a page gets no frame of its own.
#[derive(Clone, Copy, Debug, PartialEq, Eq)]
pub enum SupplyError {
    /// No frame is free. Where a frame is in hand it doesn't come.
    NoFrame,
    /// A request for memory was refused.
    Memory,
    /// The page's slot could not be read.
    SwapRead,
    /// What was read from the page's slot has another SHA-256 than the page.
    SwapDamaged,
}

/// A page that was never touched, or was given to the balloon, gets the frame of this number, of zeros. The number, which was taken from
/// among the free ones, comes back where a request for memory was refused: no page has changed then.
pub fn supply_first<P: Pages>(
    alloc: Global,
    pages: &mut P,
    p: Ppn,
    no: FrameNo,
) -> Result<(), FrameNo>
    requires there { p < length (P.pages pages.old) }
    requires kind { (kind_at (P.pages pages.old) p ≡ PageKind.Zero) ⊎ (kind_at (P.pages pages.old) p ≡ PageKind.Given) }
    ensures conserves { OnOk result ((pool rest book : FreeList) (entries : EntriesAre) → Takes pool no rest →
        Conserves (P.pages pages.old) pool book entries (P.pages pages.new) rest book entries) }
    ensures faithful { (view : ℕ → List ℕ) → Faithful view (P.pages pages.old) → Faithful view (P.pages pages.new) }
    ensures kept { (held : ℕ → Option (List ℕ)) (view : ℕ → List ℕ) → Kept held view (P.pages pages.old) → Kept held view (P.pages pages.new) }
    ensures reads { (entries : EntriesAre) → Reads entries (P.pages pages.old) → Reads entries (P.pages pages.new) }
    ensures rest { P.rest pages.new ≡ P.rest pages.old }
    ensures supplied { OnOk result (Supplies (P.pages pages.old) p (zeros 4096) (P.pages pages.new)) }
    ensures back { IfErr result (λ back. back ≡ no) }
    ensures unchanged { OnErr result (P.pages pages.new ≡ P.pages pages.old) }
{
    match Frame::zeroed(alloc, no) {
        Ok(frame) => {
            pages.supply_zero(p, frame);
            Ok(())
        }
        Err(back) => Err(back),
    }
}

/// A shared page gets the frame of this number, into which its bytes are copied, also where no other page reads the shared one. Its
/// ticket goes back, and the shared frame's number comes free where that was the last one: it is the caller's from then on. The number
/// comes back as from `supply_first`.
pub fn supply_copy<P: Pages>(
    alloc: Global,
    pages: &mut P,
    p: Ppn,
    no: FrameNo,
    shares: &mut Shares,
) -> Result<Option<FrameNo>, FrameNo>
    requires there { p < length (P.pages pages.old) }
    requires kind { kind_at (P.pages pages.old) p ≡ PageKind.Shared }
    requires covered { Covered shares.old.entries (P.pages pages.old) }
    ensures frames { IfOk result (λ came_free. (pool rest : FreeList) → Takes pool no rest →
        MovesFrames (P.pages pages.old) pool shares.old.entries (P.pages pages.new) rest shares.new.entries (option_to_list came_free)) }
    ensures slots { (book : FreeList) → MovesSlots (P.pages pages.old) book (P.pages pages.new) book [] }
    ensures tickets { MovesTickets (P.pages pages.old) shares.old.entries (P.pages pages.new) shares.new.entries }
    ensures faithful { (view : ℕ → List ℕ) → Faithful view (P.pages pages.old) → Faithful view (P.pages pages.new) }
    ensures kept { (held : ℕ → Option (List ℕ)) (view : ℕ → List ℕ) → Kept held view (P.pages pages.old) → Kept held view (P.pages pages.new) }
    ensures reads { Reads shares.old.entries (P.pages pages.old) → Reads shares.new.entries (P.pages pages.new) }
    ensures rest { P.rest pages.new ≡ P.rest pages.old }
    ensures hints { shares.new.hints ≡ shares.old.hints }
    ensures supplied { OnOk result (Supplies (P.pages pages.old) p (shown (page_at (P.pages pages.old) p)) (P.pages pages.new)) }
    ensures leaves { OnOk result (Leaves shares.old.entries (ticket_of (page_at (P.pages pages.old) p)) shares.new.entries) }
    ensures shared { IfOk result (λ came_free. IfNone came_free (IsStillShared shares.old.entries (handed_back (page_at (P.pages pages.old) p)))) }
    ensures back { IfErr result (λ back. back ≡ no) }
    ensures unchanged { OnErr result (P.pages pages.new ≡ P.pages pages.old) }
    ensures shares_unchanged { OnErr result (shares.new ≡ shares.old) }
{
    match Frame::zeroed(alloc, no) {
        Ok(frame) => {
            let ticket = pages.supply_copy(p, frame);
            Ok(shares.leave(ticket))
        }
        Err(back) => Err(back),
    }
}

/// A swapped page gets the frame of this number with the bytes of its slot, which is the caller's from then on. The number comes back
/// with `Memory` where a request for memory was refused, `SwapRead` where the store failed to read the slot, `SwapDamaged` where what
/// was read has another SHA-256 than the page had: no page has changed then.
pub fn supply_swapped<P: Pages, S: SwapStore>(
    alloc: Global,
    pages: &mut P,
    p: Ppn,
    no: FrameNo,
    store: &mut S,
) -> Result<SlotTicket, (FrameNo, SupplyError)>
    requires there { p < length (P.pages pages.old) }
    requires kind { kind_at (P.pages pages.old) p ≡ PageKind.Swapped }
    requires slot { slot_of (page_at (P.pages pages.old) p) < S.slots store.old }
    ensures conserves { IfOk result (λ slot. (pool rest book book' : FreeList) (entries : EntriesAre) → Takes pool no rest → Gives book slot book' →
        Conserves (P.pages pages.old) pool book entries (P.pages pages.new) rest book' entries) }
    ensures kept { S.true_to_digests store.old → (view : ℕ → List ℕ) →
        Kept (S.held store.old) view (P.pages pages.old) → Kept (S.held store.new) view (P.pages pages.new) }
    ensures faithful { (view : ℕ → List ℕ) → Faithful view (P.pages pages.old) →
        OnOk result (shown (page_at (P.pages pages.new) p) ≡ view p) → Faithful view (P.pages pages.new) }
    ensures reads { (entries : EntriesAre) → Reads entries (P.pages pages.old) → Reads entries (P.pages pages.new) }
    ensures rest { P.rest pages.new ≡ P.rest pages.old }
    ensures supplied { OnOk result (Supplies (P.pages pages.old) p (shown (page_at (P.pages pages.new) p)) (P.pages pages.new)) }
    ensures digest { OnOk result (sha256 (shown (page_at (P.pages pages.new) p)) ≡ digest_of (page_at (P.pages pages.old) p)) }
    ensures gives { OnOk result (S.gives store.old (slot_of (page_at (P.pages pages.old) p)) (shown (page_at (P.pages pages.new) p))) }
    ensures honest_gives { OnOk result
        (S.honest store.old → AreHeld (S.held store.old (slot_of (page_at (P.pages pages.old) p))) (shown (page_at (P.pages pages.new) p))) }
    ensures slot { IfOk result (λ slot. slot ≡ slot_of (page_at (P.pages pages.old) p)) }
    ensures no_failure { OnOk result (S.failed store.new ≡ S.failed store.old) }
    ensures err { IfErr result (λ back. WhyStillAway (S.failed store.new ≡ one_more (S.failed store.old))
        (IsDamaged (S.gives store.old (slot_of (page_at (P.pages pages.old) p))) (S.honest store.old) (S.held store.old (slot_of (page_at (P.pages pages.old) p)))
        (digest_of (page_at (P.pages pages.old) p))) back.1) }
    ensures back { IfErr result (λ back. back.0 ≡ no) }
    ensures unchanged { OnErr result (P.pages pages.new ≡ P.pages pages.old) }
    ensures held { AllStay (S.held store.old) (S.held store.new) }
    ensures slots { S.slots store.new ≡ S.slots store.old }
    ensures honest { S.honest store.new ↔ S.honest store.old }
    ensures true_to_digests { S.true_to_digests store.new ↔ S.true_to_digests store.old }
{
    let (slot, digest) = pages.away(p);
    let frame = match Frame::zeroed(alloc, no) {
        Ok(frame) => frame,
        Err(back) => return Err((back, SupplyError::Memory)),
    };
    match read_page(frame, slot, &digest, store) {
        Ok(frame) => Ok(pages.supply_swapped(p, frame)),
        Err((frame, error)) => Err((frame.strip(), error)),
    }
}
