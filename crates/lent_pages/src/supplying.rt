//! Pages that get the frame in hand.
ghost use Rattle.std.specs.Prelude.{◌≡◌, ◌<◌, ◌⊎◌, ℕ, List, Option, [], ◌∷◌, IfErr, OnOk, OnErr, length};
ghost use Rattle.std.specs.Option.{option_to_list};
ghost use Rattle.sha2.specs.Sha256.{sha256};
ghost use Rattle.word32.specs.Zeros.{zeros};
ghost use Rattle.guest_pages.specs.declared.page.PageKind.{PageKind};
ghost use Rattle.guest_pages.specs.declared.page.Page.TheVariants.{Swapped};
ghost use Rattle.guest_pages.specs.Pages.{page_at, kind_at, shown, digest_of};
ghost use Rattle.page_moves.specs.Faith.{Faithful, Kept};
ghost use Rattle.page_moves.specs.Supplies.{Supplies};
ghost use Rattle.sharetab.specs.Entries.{EntriesAre};
ghost use Rattle.accounts.specs.OwnerShares.{guest_share};
ghost use Rattle.accounts.specs.Settling.{KeepsFrames};
ghost use Rattle.guest_pages.specs.Holdings.{slots_held};
ghost use Rattle.lent_pages.specs.Contents.{IsWritten, IsHolding, its_slots};
ghost use Rattle.lent_pages.specs.Locked.{IsTable, IsSwap};
ghost use Rattle.lent_pages.specs.Stores.{HasFailed, HasDamaged};
ghost use Rattle.lent_pages.specs.Supplies.{WhyLeft};

use crate::{Swap, SwapKey, Table};
use accounts::{BookShare, Books};
use frames::FrameNo;
use keyed_lock::KeyedLock;
use page_moves::{Pages, SupplyError, supply_copy, supply_first, supply_swapped};
use slot_contents::{ContentShare, Contents};
use std::alloc::Global;
use std::snapshot::Snapshot;
use swapstore::SwapStore;
use word32::Ppn;

/// A page that was never touched, or was given to the balloon, gets the frame in hand, of zeros.
pub fn first_supplied<P: Pages>(
    alloc: Global,
    books: &Books,
    share: &mut BookShare,
    pages: &mut P,
    p: Ppn,
    no: FrameNo,
) -> (Result<(), SupplyError>, Option<FrameNo>)
    requires there { p < length (P.pages pages.old) }
    requires kind { (kind_at (P.pages pages.old) p ≡ PageKind.Zero) ⊎ (kind_at (P.pages pages.old) p ≡ PageKind.Given) }
    requires share { share.old ≡ guest_share books.now.id (P.pages pages.old) (no ∷ []) }
    ensures share { share.new ≡ guest_share books.now.id (P.pages pages.new) (option_to_list result.1) }
    ensures faithful { (view : ℕ → List ℕ) → Faithful view (P.pages pages.old) → Faithful view (P.pages pages.new) }
    ensures slots { (k : ℕ) → slots_held k (P.pages pages.new) ≡ slots_held k (P.pages pages.old) }
    ensures kept { (held : ℕ → Option (List ℕ)) (view : ℕ → List ℕ) → Kept held view (P.pages pages.old) → Kept held view (P.pages pages.new) }
    ensures rest { P.rest pages.new ≡ P.rest pages.old }
    ensures frames { (entries : EntriesAre) → KeepsFrames (P.pages pages.old) (no ∷ []) entries (P.pages pages.new) (option_to_list result.1) entries }
    ensures supplied { OnOk result.0 (Supplies (P.pages pages.old) p (zeros 4096) (P.pages pages.new)) }
    ensures err { IfErr result.0 (WhyLeft ⊥ ⊥ ⊥) }
    ensures unchanged { OnErr result.0 (P.pages pages.new ≡ P.pages pages.old) }
{
    match supply_first(alloc, pages, p, no) {
        Ok(()) => {
            accounts::settle(books, share, pages, &None);
            (Ok(()), None)
        }
        Err(back) => (Err(SupplyError::Memory), Some(back)),
    }
}

/// A shared page gets the frame in hand, with its bytes. The table's lock is held.
pub fn copy_supplied<P: Pages>(
    alloc: Global,
    books: &Books,
    share: &mut BookShare,
    pages: &mut P,
    p: Ppn,
    no: FrameNo,
    table: &mut Table,
) -> (Result<(), SupplyError>, Option<FrameNo>)
    requires there { p < length (P.pages pages.old) }
    requires kind { kind_at (P.pages pages.old) p ≡ PageKind.Shared }
    requires share { share.old ≡ guest_share books.now.id (P.pages pages.old) (no ∷ []) }
    requires table { IsTable books.now table.old.shares.entries table.old.share }
    ensures share { share.new ≡ guest_share books.now.id (P.pages pages.new) (option_to_list result.1) }
    ensures table { IsTable books.now table.new.shares.entries table.new.share }
    ensures faithful { (view : ℕ → List ℕ) → Faithful view (P.pages pages.old) → Faithful view (P.pages pages.new) }
    ensures slots { (k : ℕ) → slots_held k (P.pages pages.new) ≡ slots_held k (P.pages pages.old) }
    ensures kept { (held : ℕ → Option (List ℕ)) (view : ℕ → List ℕ) → Kept held view (P.pages pages.old) → Kept held view (P.pages pages.new) }
    ensures rest { P.rest pages.new ≡ P.rest pages.old }
    ensures frames { KeepsFrames (P.pages pages.old) (no ∷ []) table.old.shares.entries (P.pages pages.new) (option_to_list result.1) table.new.shares.entries }
    ensures supplied { OnOk result.0 (Supplies (P.pages pages.old) p (shown (page_at (P.pages pages.old) p)) (P.pages pages.new)) }
    ensures err { IfErr result.0 (WhyLeft ⊥ ⊥ ⊥) }
    ensures unchanged { OnErr result.0 (P.pages pages.new ≡ P.pages pages.old) }
{
    accounts::meet_table(books, share, &mut table.share, &table.shares);
    match supply_copy(alloc, pages, p, no, &mut table.shares) {
        Ok(came_free) => {
            accounts::settle_table(
                books,
                share,
                &mut table.share,
                pages,
                &came_free,
                &table.shares,
            );
            (Ok(()), came_free)
        }
        Err(back) => (Err(SupplyError::Memory), Some(back)),
    }
}

/// A swapped page gets the frame in hand, with the bytes of its slot, which is free then. Where the first store was true to digests they are
/// those that were written (`kept`). The swap book's lock is held.
pub fn swapped_supplied<P: Pages, S: SwapStore + Drop>(
    alloc: Global,
    books: &Books,
    contents: &Contents,
    share: &mut BookShare,
    written: &mut ContentShare,
    pages: &mut P,
    p: Ppn,
    no: FrameNo,
    swap: &mut Swap<S>,
    swap_lock: &KeyedLock<Swap<S>, SwapKey<S>>,
) -> (Result<(), SupplyError>, Option<FrameNo>)
    requires there { p < length (P.pages pages.old) }
    requires kind { kind_at (P.pages pages.old) p ≡ PageKind.Swapped }
    requires share { share.old ≡ guest_share books.now.id (P.pages pages.old) (no ∷ []) }
    requires swap { IsSwap S.honest S.true_to_digests S.slots books.now swap_lock.now.key.first.value swap.old.slots swap.old.store swap.old.share }
    requires written { IsWritten contents.now.id written.old (P.pages pages.old) }
    requires holding { IsHolding S.held contents.now swap.old.slots swap.old.store swap.old.contents }
    ensures share { share.new ≡ guest_share books.now.id (P.pages pages.new) (option_to_list result.1) }
    ensures swap { IsSwap S.honest S.true_to_digests S.slots books.now swap_lock.now.key.first.value swap.new.slots swap.new.store swap.new.share }
    ensures written { IsWritten contents.now.id written.new (P.pages pages.new) }
    ensures holding { IsHolding S.held contents.now swap.new.slots swap.new.store swap.new.contents }
    ensures kept { S.true_to_digests swap_lock.now.key.first.value → (view : ℕ → List ℕ) →
        Kept (its_slots written.old) view (P.pages pages.old) → Kept (its_slots written.new) view (P.pages pages.new) }
    ensures faithful { (view : ℕ → List ℕ) → Faithful view (P.pages pages.old) →
        OnOk result.0 (shown (page_at (P.pages pages.new) p) ≡ view p) → Faithful view (P.pages pages.new) }
    ensures rest { P.rest pages.new ≡ P.rest pages.old }
    ensures frames { (entries : EntriesAre) → KeepsFrames (P.pages pages.old) (no ∷ []) entries (P.pages pages.new) (option_to_list result.1) entries }
    ensures supplied { OnOk result.0 (Supplies (P.pages pages.old) p (shown (page_at (P.pages pages.new) p)) (P.pages pages.new)) }
    ensures digest { OnOk result.0 (sha256 (shown (page_at (P.pages pages.new) p)) ≡ digest_of (page_at (P.pages pages.old) p)) }
    ensures err { IfErr result.0 (WhyLeft ⊥
        (HasFailed S.honest S.true_to_digests S.failed swap_lock.now.key.first.value)
        (HasDamaged S.honest S.true_to_digests S.gives S.held swap_lock.now.key.first.value (page_at (P.pages pages.old) p))) }
    ensures unchanged { OnErr result.0 (P.pages pages.new ≡ P.pages pages.old) }
{
    accounts::meet_slots(books, share, &mut swap.share, &swap.slots);
    slot_contents::meet(contents, written, &mut swap.contents, &swap.store);
    let held = Snapshot::of(&swap.store);
    match supply_swapped(alloc, pages, p, no, &mut swap.store) {
        Ok(slot) => {
            let number = slot.number();
            swap.slots.give(slot);
            accounts::settle_slots(books, share, &mut swap.share, pages, &None, &swap.slots);
            slot_contents::read(contents, &mut swap.contents, &held, &swap.store);
            slot_contents::freed(
                contents,
                written,
                &mut swap.contents,
                number,
                &swap.store,
                &swap.slots,
            );
            (Ok(()), None)
        }
        Err((back, error)) => {
            slot_contents::read(contents, &mut swap.contents, &held, &swap.store);
            (Err(error), Some(back))
        }
    }
}
