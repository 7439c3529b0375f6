//! Writes to slots.
ghost use Rattle.std.specs.Prelude.{◌≡◌, ℕ, ◌+◌, ◌<◌, List, [], ◌∷◌};
ghost use Rattle.frames.specs.Counts.{one_at, count_of};
ghost use Rattle.swapstore.specs.Holding.{AreHeld, OthersStay};
ghost use Rattle.slot_contents.specs.declared.content.Content.TheVariants.{Store, Free, Owner};
ghost use Rattle.slot_contents.specs.Held.{listed};
ghost use Rattle.slot_contents.specs.Shares.{IsOwners, IsStores, owner_share, store_share, its_written, its_free};

use crate::content::Content;
use crate::rule::{ContentShare, Contents};
use ledger::NewParts;
use std::marker::Brand;
use std::snapshot::Snapshot;
use swapstore::{SlotBook, SwapStore};

/// What was written to a slot. It is a proof's choice at `wrote`, for `Brand`, and nothing when it runs.
pub trait Bytes {
    ghost use Rattle.std.specs.Prelude.{ℕ, List};

    /// The bytes.
    ghost bytes: { List ℕ };
}

impl Bytes for Brand {
    ghost use Rattle.std.specs.Prelude.{[]};

    ghost bytes = { [] };
}

fn wrote_as<N: NewParts<Content>, S: SwapStore, B: Bytes>(
    contents: &Contents,
    owner: &mut ContentShare,
    swap: &mut ContentShare,
    slot: u32,
    before: &Snapshot<S>,
    store: &S,
    book: &SlotBook,
)
    requires owner { IsOwners contents.now.id owner.old }
    requires swap { IsStores contents.now (S.held before.now.value) swap.old }
    requires taken { (k : ℕ) → count_of k (its_free swap.old) ≡ count_of k book.now.free + one_at k slot }
    requires others { OthersStay slot (S.held before.now.value) (S.held store.now) }
    requires written { AreHeld (S.held store.now slot) B.bytes }
    requires new { N.parts ≡ Owner (record { slot = slot; bytes = B.bytes } ∷ its_written owner.old) ∷ Store (listed contents.now.key (S.held store.now)) ∷ Free book.now.free ∷ [] }
    ensures owner { owner.new ≡ owner_share contents.now.id (record { slot = slot; bytes = B.bytes } ∷ its_written owner.old) }
    ensures swap { swap.new ≡ store_share contents.now (S.held store.now) book.now.free }
{
    let _ = slot;
    let _ = before;
    let _ = store;
    let _ = book;
    contents.lend(swap, owner);
    contents.settle::<N>(swap);
    *owner = contents.part(swap);
}

/// An owner wrote these bytes, `B`, to a slot that was free, which is its own from then on: the store holds them there, and elsewhere what
/// it held before.
pub fn wrote<S: SwapStore, B: Bytes>(
    contents: &Contents,
    owner: &mut ContentShare,
    swap: &mut ContentShare,
    slot: u32,
    before: &Snapshot<S>,
    store: &S,
    book: &SlotBook,
)
    requires owner { IsOwners contents.now.id owner.old }
    requires swap { IsStores contents.now (S.held before.now.value) swap.old }
    requires taken { (k : ℕ) → count_of k (its_free swap.old) ≡ count_of k book.now.free + one_at k slot }
    requires others { OthersStay slot (S.held before.now.value) (S.held store.now) }
    requires written { AreHeld (S.held store.now slot) B.bytes }
    ensures owner { owner.new ≡ owner_share contents.now.id (record { slot = slot; bytes = B.bytes } ∷ its_written owner.old) }
    ensures swap { swap.new ≡ store_share contents.now (S.held store.now) book.now.free }
{
    wrote_as::<Brand, S, B>(contents, owner, swap, slot, before, store, book);
}

fn failed_as<N: NewParts<Content>, S: SwapStore>(
    contents: &Contents,
    swap: &mut ContentShare,
    slot: u32,
    before: &Snapshot<S>,
    store: &S,
    book: &SlotBook,
)
    requires swap { IsStores contents.now (S.held before.now.value) swap.old }
    requires is_free { 0 < count_of slot (its_free swap.old) }
    requires free { (k : ℕ) → count_of k book.now.free ≡ count_of k (its_free swap.old) }
    requires others { OthersStay slot (S.held before.now.value) (S.held store.now) }
    requires new { N.parts ≡ Store (listed contents.now.key (S.held store.now)) ∷ Free book.now.free ∷ [] }
    ensures swap { swap.new ≡ store_share contents.now (S.held store.now) book.now.free }
{
    let _ = slot;
    let _ = before;
    let _ = store;
    let _ = book;
    contents.settle::<N>(swap);
}

/// A write to a free slot failed, which is free still: it is open what the store holds there, and elsewhere it holds what it held before.
pub fn failed<S: SwapStore>(
    contents: &Contents,
    swap: &mut ContentShare,
    slot: u32,
    before: &Snapshot<S>,
    store: &S,
    book: &SlotBook,
)
    requires swap { IsStores contents.now (S.held before.now.value) swap.old }
    requires is_free { 0 < count_of slot (its_free swap.old) }
    requires free { (k : ℕ) → count_of k book.now.free ≡ count_of k (its_free swap.old) }
    requires others { OthersStay slot (S.held before.now.value) (S.held store.now) }
    ensures swap { swap.new ≡ store_share contents.now (S.held store.now) book.now.free }
{
    failed_as::<Brand, S>(contents, swap, slot, before, store, book);
}
