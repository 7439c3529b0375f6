//! A page whose first place is a slot.
ghost use Rattle.std.specs.Prelude.{◌≡◌, ◌<◌, ◌↔◌, IfErr, OnOk, OnErr, [], ◌∷◌, is_ok, length, slice_set};
ghost use Rattle.sha2.specs.Sha256.{sha256};
ghost use Rattle.frames.specs.FreeList.{FreeList};
ghost use Rattle.sharetab.specs.Entries.{EntriesAre};
ghost use Rattle.swapstore.specs.Failures.{counted};
ghost use Rattle.swapstore.specs.Holding.{AreHeld, OthersStay};
ghost use Rattle.guest_pages.specs.declared.page.Page.TheVariants.{Swapped};
ghost use Rattle.guest_pages.specs.declared.page.PageKind.{PageKind};
ghost use Rattle.guest_pages.specs.Pages.{kind_at};
ghost use Rattle.page_moves.specs.Moves.{MovesFrames, MovesSlots, MovesTickets, Reads};

use crate::Pages;
use frames::SlotTicket;
use swapstore::{SwapStore, digest};
use word32::Ppn;

/// A page that was never touched is from then on in a slot, to which these bytes of it are written, as those of an image that
/// finds no free frame. Where the store failed to write the slot, the slot comes back, and no page has changed.
#[tactic(auto, using(crate::proofs::PuttingAway::put_frames, crate::proofs::PuttingAway::put_slots, crate::proofs::PuttingAway::put_tickets, crate::proofs::PuttingAway::put_reads))]
pub fn store_first<P: Pages, S: SwapStore>(
    pages: &mut P,
    p: Ppn,
    bytes: &[u8],
    slot: SlotTicket,
    store: &mut S,
) -> Result<(), SlotTicket>
    requires there { p < length (P.pages pages.old) }
    requires untouched { kind_at (P.pages pages.old) p ≡ PageKind.Zero }
    requires size { length bytes.now ≡ 4096 }
    requires slot { slot < S.slots store.old }
    ensures frames { (pool : FreeList) (entries : EntriesAre) →
        MovesFrames (P.pages pages.old) pool entries (P.pages pages.new) pool entries [] }
    ensures used { OnOk result ((book : FreeList) → MovesSlots (P.pages pages.old) book (P.pages pages.new) book (slot ∷ [])) }
    ensures tickets { (entries : EntriesAre) → MovesTickets (P.pages pages.old) entries (P.pages pages.new) entries }
    ensures reads { (entries : EntriesAre) → Reads entries (P.pages pages.old) → Reads entries (P.pages pages.new) }
    ensures rest { P.rest pages.new ≡ P.rest pages.old }
    ensures page { OnOk result (P.pages pages.new ≡ slice_set (P.pages pages.old) p (Swapped slot (sha256 bytes.now))) }
    ensures written { OnOk result (AreHeld (S.held store.new slot) bytes.now) }
    ensures back { IfErr result (λ back. back ≡ slot) }
    ensures unchanged { OnErr result (P.pages pages.new ≡ P.pages pages.old) }
    ensures counted { S.failed store.new ≡ counted (is_ok result) (S.failed store.old) }
    ensures others { OthersStay slot (S.held store.old) (S.held store.new) }
    ensures slots { S.slots store.new ≡ S.slots store.old }
    ensures honest { S.honest store.new ↔ S.honest store.old }
    ensures true_to_digests { S.true_to_digests store.new ↔ S.true_to_digests store.old }
{
    match store.write(slot.number(), bytes) {
        Ok(()) => {
            pages.put_away(p, slot, digest(bytes));
            Ok(())
        }
        Err(_) => Err(slot),
    }
}
