//! Slots that are free again.
ghost use Rattle.std.specs.Prelude.{◌≡◌, ℕ, ◌+◌, ◌<◌, [], ◌∷◌};
ghost use Rattle.frames.specs.Counts.{one_at, count_of};
ghost use Rattle.slot_contents.specs.declared.content.Content.TheVariants.{Store, Free, Owner};
ghost use Rattle.slot_contents.specs.Held.{listed};
ghost use Rattle.slot_contents.specs.Contents.{slots_of, without};
ghost use Rattle.slot_contents.specs.Shares.{IsOwners, IsStores, owner_share, store_share, its_written, its_free};

use crate::content::Content;
use crate::rule::{ContentShare, Contents};
use ledger::NewParts;
use std::marker::Brand;
use swapstore::{SlotBook, SwapStore};

fn freed_as<N: NewParts<Content>, S: SwapStore>(
    contents: &Contents,
    owner: &mut ContentShare,
    swap: &mut ContentShare,
    slot: u32,
    store: &S,
    book: &SlotBook,
)
    requires owner { IsOwners contents.now.id owner.old }
    requires swap { IsStores contents.now (S.held store.now) swap.old }
    requires its_own { 0 < count_of slot (slots_of (its_written owner.old)) }
    requires given { (k : ℕ) → count_of k book.now.free ≡ count_of k (its_free swap.old) + one_at k slot }
    requires new { N.parts ≡ Owner (without slot (its_written owner.old)) ∷ Store (listed contents.now.key (S.held store.now)) ∷ Free book.now.free ∷ [] }
    ensures owner { owner.new ≡ owner_share contents.now.id (without slot (its_written owner.old)) }
    ensures swap { swap.new ≡ store_share contents.now (S.held store.now) book.now.free }
    ensures slots { (k : ℕ) → count_of k (slots_of (without slot (its_written owner.old))) + one_at k slot ≡ count_of k (slots_of (its_written owner.old)) }
{
    let _ = slot;
    let _ = store;
    let _ = book;
    contents.lend(swap, owner);
    contents.learn(swap);
    contents.settle::<N>(swap);
    *owner = contents.part(swap);
}

/// A slot of an owner is free from then on, and what the owner wrote there is nobody's.
pub fn freed<S: SwapStore>(
    contents: &Contents,
    owner: &mut ContentShare,
    swap: &mut ContentShare,
    slot: u32,
    store: &S,
    book: &SlotBook,
)
    requires owner { IsOwners contents.now.id owner.old }
    requires swap { IsStores contents.now (S.held store.now) swap.old }
    requires its_own { 0 < count_of slot (slots_of (its_written owner.old)) }
    requires given { (k : ℕ) → count_of k book.now.free ≡ count_of k (its_free swap.old) + one_at k slot }
    ensures owner { owner.new ≡ owner_share contents.now.id (without slot (its_written owner.old)) }
    ensures swap { swap.new ≡ store_share contents.now (S.held store.now) book.now.free }
    ensures slots { (k : ℕ) → count_of k (slots_of (without slot (its_written owner.old))) + one_at k slot ≡ count_of k (slots_of (its_written owner.old)) }
{
    freed_as::<Brand, S>(contents, owner, swap, slot, store, book);
}
