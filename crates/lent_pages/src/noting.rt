//! What is known of slots once they were written to.
ghost use Rattle.std.specs.Prelude.{◌≡◌, ◌<◌, ◌+◌, ℕ, ◌∷◌};
ghost use Rattle.frames.specs.Counts.{one_at, count_of};
ghost use Rattle.swapstore.specs.Holding.{AreHeld, OthersStay};
ghost use Rattle.guest_pages.specs.Pages.{page_at, shown};
ghost use Rattle.slot_contents.specs.Shares.{IsOwners, IsStores, owner_share, its_written, its_free};
ghost use Rattle.lent_pages.specs.Contents.{IsHolding};

use crate::Swap;
use page_moves::Pages;
use slot_contents::{Bytes, ContentShare, Contents};
use std::marker::Brand;
use std::snapshot::Snapshot;
use swapstore::SwapStore;
use word32::Ppn;

fn note_as<P: Pages, S: SwapStore + Drop, B: Bytes>(
    contents: &Contents,
    written: &mut ContentShare,
    swap: &mut Swap<S>,
    slot: u32,
    held: &Snapshot<S>,
    before: &Snapshot<P>,
    p: Ppn,
)
    requires written { IsOwners contents.now.id written.old }
    requires holding { IsStores contents.now (S.held held.now.value) swap.old.contents }
    requires taken { (k : ℕ) → count_of k (its_free swap.old.contents) ≡ count_of k swap.old.slots.free + one_at k slot }
    requires others { OthersStay slot (S.held held.now.value) (S.held swap.old.store) }
    requires there { AreHeld (S.held swap.old.store slot) (shown (page_at (P.pages before.now.value) p)) }
    requires bytes { B.bytes ≡ shown (page_at (P.pages before.now.value) p) }
    ensures written { written.new ≡ owner_share contents.now.id (record { slot = slot; bytes = shown (page_at (P.pages before.now.value) p) } ∷ its_written written.old) }
    ensures swap { swap.new ≡ record swap.old { contents = swap.new.contents } }
    ensures holding { IsHolding S.held contents.now swap.new.slots swap.new.store swap.new.contents }
{
    let _ = before;
    let _ = p;
    slot_contents::wrote::<S, B>(
        contents,
        written,
        &mut swap.contents,
        slot,
        held,
        &swap.store,
        &swap.slots,
    );
}

// A page's bytes, as they were before, are what its owner wrote to a slot.
pub(crate) fn note_written<P: Pages, S: SwapStore + Drop>(
    contents: &Contents,
    written: &mut ContentShare,
    swap: &mut Swap<S>,
    slot: u32,
    held: &Snapshot<S>,
    before: &Snapshot<P>,
    p: Ppn,
)
    requires written { IsOwners contents.now.id written.old }
    requires holding { IsStores contents.now (S.held held.now.value) swap.old.contents }
    requires taken { (k : ℕ) → count_of k (its_free swap.old.contents) ≡ count_of k swap.old.slots.free + one_at k slot }
    requires others { OthersStay slot (S.held held.now.value) (S.held swap.old.store) }
    requires there { AreHeld (S.held swap.old.store slot) (shown (page_at (P.pages before.now.value) p)) }
    ensures written { written.new ≡ owner_share contents.now.id (record { slot = slot; bytes = shown (page_at (P.pages before.now.value) p) } ∷ its_written written.old) }
    ensures swap { swap.new ≡ record swap.old { contents = swap.new.contents } }
    ensures holding { IsHolding S.held contents.now swap.new.slots swap.new.store swap.new.contents }
{
    note_as::<P, S, Brand>(contents, written, swap, slot, held, before, p);
}

// A slot is free still, to which a write failed.
pub(crate) fn note_failed<S: SwapStore + Drop>(
    contents: &Contents,
    swap: &mut Swap<S>,
    slot: u32,
    held: &Snapshot<S>,
)
    requires holding { IsStores contents.now (S.held held.now.value) swap.old.contents }
    requires is_free { 0 < count_of slot (its_free swap.old.contents) }
    requires free { (k : ℕ) → count_of k swap.old.slots.free ≡ count_of k (its_free swap.old.contents) }
    requires others { OthersStay slot (S.held held.now.value) (S.held swap.old.store) }
    ensures swap { swap.new ≡ record swap.old { contents = swap.new.contents } }
    ensures holding { IsHolding S.held contents.now swap.new.slots swap.new.store swap.new.contents }
{
    slot_contents::failed(
        contents,
        &mut swap.contents,
        slot,
        held,
        &swap.store,
        &swap.slots,
    );
}
