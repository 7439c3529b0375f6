//! Pages that leave their frames for slots.
ghost use Rattle.std.specs.Prelude.{◌≡◌, ◌<◌, ℕ, List, [], IfErr, IsTrue, OnOk, OnErr, length, slice_set};
ghost use Rattle.std.specs.Option.{option_to_list};
ghost use Rattle.sha2.specs.Sha256.{sha256};
ghost use Rattle.guest_pages.specs.declared.page.Page.TheVariants.{Swapped};
ghost use Rattle.guest_pages.specs.Pages.{page_at, kind_at, is_resident, shown, slot_of};
ghost use Rattle.page_moves.specs.Faith.{Faithful, Kept};
ghost use Rattle.accounts.specs.OwnerShares.{guest_share};
ghost use Rattle.accounts.specs.Settling.{KeepsFrames};
ghost use Rattle.lent_pages.specs.Contents.{IsWritten, IsHolding, its_slots};
ghost use Rattle.lent_pages.specs.Locked.{IsTable, IsSwap};
ghost use Rattle.lent_pages.specs.Stores.{HasFailed};
ghost use Rattle.lent_pages.specs.Evictions.{NoSlotWasFree, WhyStays};

use crate::noting::{note_failed, note_written};
use crate::{Swap, SwapKey, Table};
use accounts::{BookShare, Books};
use frames::FrameNo;
use keyed_lock::KeyedLock;
use page_moves::{Pages, evict_in};
use slot_contents::{ContentShare, Contents};
use std::snapshot::Snapshot;
use swapstore::SwapStore;
use word32::Ppn;

/// Why a resident page stays in its frame.
#[derive(Clone, Copy, Debug, PartialEq, Eq)]
pub enum EvictError {
    /// No slot is free.
    NoSwap,
    /// The store failed to write the slot, which is free again.
    SwapWrite,
}

/// A page that is in a frame is written to a slot and leaves it, and the slot is known to hold its bytes. The frame is in hand, but where
/// other pages read it too. The locks of the table and of the swap book are held;
/// the latter, from which the book was taken, says which store it was at first.
pub fn evicted<P: Pages, S: SwapStore + Drop>(
    books: &Books,
    contents: &Contents,
    share: &mut BookShare,
    written: &mut ContentShare,
    pages: &mut P,
    p: Ppn,
    table: &mut Table,
    swap: &mut Swap<S>,
    swap_lock: &KeyedLock<Swap<S>, SwapKey<S>>,
) -> (Result<(), EvictError>, Option<FrameNo>)
    requires there { p < length (P.pages pages.old) }
    requires resident { IsTrue (is_resident (kind_at (P.pages pages.old) p)) }
    requires share { share.old ≡ guest_share books.now.id (P.pages pages.old) [] }
    requires table { IsTable books.now table.old.shares.entries table.old.share }
    requires swap { IsSwap S.honest S.true_to_digests S.slots books.now swap_lock.now.key.first.value swap.old.slots swap.old.store swap.old.share }
    requires written { IsWritten contents.now.id written.old (P.pages pages.old) }
    requires holding { IsHolding S.held contents.now swap.old.slots swap.old.store swap.old.contents }
    ensures share { share.new ≡ guest_share books.now.id (P.pages pages.new) (option_to_list result.1) }
    ensures table { IsTable books.now table.new.shares.entries table.new.share }
    ensures swap { IsSwap S.honest S.true_to_digests S.slots books.now swap_lock.now.key.first.value swap.new.slots swap.new.store swap.new.share }
    ensures written { IsWritten contents.now.id written.new (P.pages pages.new) }
    ensures holding { IsHolding S.held contents.now swap.new.slots swap.new.store swap.new.contents }
    ensures kept { (view : ℕ → List ℕ) → Kept (its_slots written.old) view (P.pages pages.old) → Kept (its_slots written.new) view (P.pages pages.new) }
    ensures faithful { (view : ℕ → List ℕ) → Faithful view (P.pages pages.old) → Faithful view (P.pages pages.new) }
    ensures rest { P.rest pages.new ≡ P.rest pages.old }
    ensures frames { KeepsFrames (P.pages pages.old) [] table.old.shares.entries (P.pages pages.new) (option_to_list result.1) table.new.shares.entries }
    ensures page { OnOk result.0 (P.pages pages.new ≡ slice_set (P.pages pages.old) p
        (Swapped (slot_of (page_at (P.pages pages.new) p)) (sha256 (shown (page_at (P.pages pages.old) p))))) }
    ensures slot { OnOk result.0 (slot_of (page_at (P.pages pages.new) p) < books.now.key.slots) }
    ensures err { IfErr result.0 (WhyStays (NoSlotWasFree books.now.key (P.pages pages.old))
        (HasFailed S.honest S.true_to_digests S.failed swap_lock.now.key.first.value)) }
    ensures unchanged { OnErr result.0 (P.pages pages.new ≡ P.pages pages.old) }
{
    accounts::meet_both(
        books,
        share,
        &mut table.share,
        &mut swap.share,
        &table.shares,
        &swap.slots,
    );
    let before = Snapshot::of(pages);
    let held = Snapshot::of(&swap.store);
    let Some(slot) = swap.slots.take() else {
        return (Err(EvictError::NoSwap), None);
    };
    let number = slot.number();
    match evict_in(pages, p, slot, &mut swap.store, &mut table.shares) {
        Ok(came_free) => {
            accounts::settle_both(
                books,
                share,
                &mut table.share,
                &mut swap.share,
                pages,
                &came_free,
                &table.shares,
                &swap.slots,
            );
            note_written(contents, written, swap, number, &held, &before, p);
            (Ok(()), came_free)
        }
        Err(unused) => {
            swap.slots.give(unused);
            accounts::settle_slots(books, share, &mut swap.share, pages, &None, &swap.slots);
            note_failed(contents, swap, number, &held);
            (Err(EvictError::SwapWrite), None)
        }
    }
}
