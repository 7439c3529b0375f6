//! Reads of slots.
ghost use Rattle.std.specs.Prelude.{◌≡◌, ℕ, ◌+◌, ◌≤◌, [], ◌∷◌, All};
ghost use Rattle.frames.specs.Counts.{count_of, below};
ghost use Rattle.swapstore.specs.Holding.{AllStay};
ghost use Rattle.slot_contents.specs.declared.content.Content.TheVariants.{Store, Free};
ghost use Rattle.slot_contents.specs.Held.{listed};
ghost use Rattle.slot_contents.specs.Contents.{HoldsIt, slots_of};
ghost use Rattle.slot_contents.specs.Shares.{IsOwners, IsStores, store_share, its_written, its_free};

use crate::content::Content;
use crate::rule::{ContentShare, Contents};
use ledger::NewParts;
use std::marker::Brand;
use std::snapshot::Snapshot;
use swapstore::SwapStore;

/// Shows that each slot of an owner holds what the owner wrote to it, if it is known what it holds, and that no slot is the owner's twice,
/// or free as well. It changes nothing.
pub fn meet<S: SwapStore>(
    contents: &Contents,
    owner: &mut ContentShare,
    swap: &mut ContentShare,
    store: &S,
)
    requires owner { IsOwners contents.now.id owner.old }
    requires swap { IsStores contents.now (S.held store.now) swap.old }
    ensures owner { owner.new ≡ owner.old }
    ensures swap { swap.new ≡ swap.old }
    ensures holds { All (HoldsIt (S.held store.now)) (its_written owner.old) }
    ensures once { (k : ℕ) → count_of k (slots_of (its_written owner.old)) + count_of k (its_free swap.old) ≤ below k contents.now.key }
{
    let _ = store;
    contents.lend(swap, owner);
    contents.learn(swap);
    *owner = contents.part(swap);
}

fn read_as<N: NewParts<Content>, S: SwapStore>(
    contents: &Contents,
    swap: &mut ContentShare,
    before: &Snapshot<S>,
    store: &S,
)
    requires swap { IsStores contents.now (S.held before.now.value) swap.old }
    requires all { AllStay (S.held before.now.value) (S.held store.now) }
    requires new { N.parts ≡ Store (listed contents.now.key (S.held store.now)) ∷ Free (its_free swap.old) ∷ [] }
    ensures swap { swap.new ≡ store_share contents.now (S.held store.now) (its_free swap.old) }
{
    let _ = before;
    let _ = store;
    contents.settle::<N>(swap);
}

/// The store was read: it holds what it held.
pub fn read<S: SwapStore>(
    contents: &Contents,
    swap: &mut ContentShare,
    before: &Snapshot<S>,
    store: &S,
)
    requires swap { IsStores contents.now (S.held before.now.value) swap.old }
    requires all { AllStay (S.held before.now.value) (S.held store.now) }
    ensures swap { swap.new ≡ store_share contents.now (S.held store.now) (its_free swap.old) }
{
    read_as::<Brand, S>(contents, swap, before, store);
}
