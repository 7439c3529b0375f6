//! A page that leaves its frame for a slot.
ghost use Rattle.std.specs.Prelude.{◌≡◌, ℕ, ◌+◌, ◌<◌, ◌↔◌, IfOk, IfErr, OnOk, OnErr, IfNone, IsTrue, Option, List, [], ◌∷◌, is_ok, length, slice_set};
ghost use Rattle.std.specs.Option.{option_to_list};
ghost use Rattle.sha2.specs.Sha256.{sha256};
ghost use Rattle.frames.specs.Counts.{count_of};
ghost use Rattle.frames.specs.FreeList.{FreeList};
ghost use Rattle.sharetab.specs.Entries.{EntriesAre, count_at, frames_shared, entry_count};
ghost use Rattle.sharetab.specs.Books.{KeepBytes};
ghost use Rattle.swapstore.specs.Failures.{counted};
ghost use Rattle.swapstore.specs.Holding.{AreHeld, OthersStay};
ghost use Rattle.guest_pages.specs.declared.page.Page.{Page};
ghost use Rattle.guest_pages.specs.declared.page.Page.TheVariants.{Swapped};
ghost use Rattle.guest_pages.specs.Pages.{page_at, kind_at, is_resident, shown, handed_back};
ghost use Rattle.guest_pages.specs.Holdings.{slots_held};
ghost use Rattle.page_moves.specs.Moves.{MovesFrames, MovesSlots, MovesTickets, Reads, Covered};
ghost use Rattle.page_moves.specs.Faith.{Faithful, Kept};
ghost use Rattle.page_moves.specs.Returns.{Frees, IsResident, IsStillShared};

use crate::Pages;
use crate::stored::write_page;
use frames::{FrameNo, SlotTicket};
use guest_pages::Returned;
use sharetab::Shares;
use swapstore::SwapStore;
use word32::Ppn;

// The frame that came free of what a resident page handed back; None only where other pages share it.
fn freed(returned: Returned, shares: &mut Shares) -> Option<FrameNo>
    requires { IsResident shares.old.entries returned }
    ensures frees { Frees returned shares.old.entries shares.new.entries (option_to_list result) }
    ensures shared { IfNone result (IsStillShared shares.old.entries returned) }
    ensures hints { shares.new.hints ≡ shares.old.hints }
{
    match returned {
        Returned::Frame(frame) => Some(frame.strip()),
        Returned::Ticket(ticket) => shares.leave(ticket),
        _other => unreachable!(),
    }
}

/// A resident page is written to a slot, and then leaves its frame, which came free but where other pages read it too: then
/// None. Where the store failed to write the slot, the slot comes back, and no page has changed.
///
/// The frame that came free is the caller's from then on, and stands in no book until it is given to the pool.
pub fn evict_in<P: Pages, S: SwapStore>(
    pages: &mut P,
    p: Ppn,
    slot: SlotTicket,
    store: &mut S,
    shares: &mut Shares,
) -> Result<Option<FrameNo>, SlotTicket>
    requires there { p < length (P.pages pages.old) }
    requires resident { IsTrue (is_resident (kind_at (P.pages pages.old) p)) }
    requires slot { slot < S.slots store.old }
    requires covered { Covered shares.old.entries (P.pages pages.old) }
    ensures frames { IfOk result (λ came_free. (pool : FreeList) →
        MovesFrames (P.pages pages.old) pool shares.old.entries (P.pages pages.new) pool shares.new.entries (option_to_list came_free)) }
    ensures used { OnOk result ((book : FreeList) → MovesSlots (P.pages pages.old) book (P.pages pages.new) book (slot ∷ [])) }
    ensures tickets { MovesTickets (P.pages pages.old) shares.old.entries (P.pages pages.new) shares.new.entries }
    ensures faithful { (view : ℕ → List ℕ) → Faithful view (P.pages pages.old) → Faithful view (P.pages pages.new) }
    ensures kept { (view : ℕ → List ℕ) → slots_held slot (P.pages pages.old) ≡ 0 →
        Kept (S.held store.old) view (P.pages pages.old) → Kept (S.held store.new) view (P.pages pages.new) }
    ensures reads { Reads shares.old.entries (P.pages pages.old) → Reads shares.new.entries (P.pages pages.new) }
    ensures rest { P.rest pages.new ≡ P.rest pages.old }
    ensures hints { shares.new.hints ≡ shares.old.hints }
    ensures page { OnOk result (P.pages pages.new ≡ slice_set (P.pages pages.old) p (Swapped slot (sha256 (shown (page_at (P.pages pages.old) p))))) }
    ensures written { OnOk result (AreHeld (S.held store.new slot) (shown (page_at (P.pages pages.old) p))) }
    ensures shared { IfOk result (λ came_free. IfNone came_free (IsStillShared shares.old.entries (handed_back (page_at (P.pages pages.old) p)))) }
    ensures back { IfErr result (λ back. back ≡ slot) }
    ensures unchanged { OnErr result (P.pages pages.new ≡ P.pages pages.old) }
    ensures shares_unchanged { OnErr result (shares.new ≡ shares.old) }
    ensures counted { S.failed store.new ≡ counted (is_ok result) (S.failed store.old) }
    ensures others { OthersStay slot (S.held store.old) (S.held store.new) }
    ensures slots { S.slots store.new ≡ S.slots store.old }
    ensures honest { S.honest store.new ↔ S.honest store.old }
    ensures true_to_digests { S.true_to_digests store.new ↔ S.true_to_digests store.old }
{
    match write_page(pages, p, slot.number(), store) {
        Ok(digest) => Ok(freed(pages.swap_out(p, slot, digest), shares)),
        Err(_) => Err(slot),
    }
}
