//! The swap book and its store, under a lock.
use accounts::{BookShare, Books};
use keyed_lock::{Close, Fits};
use slot_contents::{ContentShare, Contents};
use std::snapshot::Snapshot;
use swapstore::{SlotBook, SwapStore};

/// What the swap book fits: the books, what was written to the slots, and the store as it was at first.
#[derive(Drop)]
pub struct SwapKey<S> {
    pub books: Snapshot<Books>,
    pub contents: Snapshot<Contents>,
    pub first: Snapshot<S>,
}

/// The free slots and the store, with the slots' account, and what the store holds.
pub struct Swap<S: SwapStore + Drop> {
    pub slots: SlotBook,
    pub store: S,
    pub share: BookShare,
    pub contents: ContentShare,
}

impl<S: SwapStore + Drop> Close for Swap<S> {
    fn close(self) {
        let Swap {
            slots,
            store,
            share: _,
            contents: _,
        } = self;
        slots.close();
        drop(store);
    }
}

impl<S: SwapStore + Drop> Fits<SwapKey<S>> for Swap<S> {
    ghost use Rattle.lent_pages.specs.Locked.{IsSwap};
    ghost use Rattle.lent_pages.specs.Contents.{IsHolding};

    ghost fits = { λ key swap. IsSwap S.honest S.true_to_digests S.slots key.books.value key.first.value swap.slots swap.store swap.share
        × IsHolding S.held key.contents.value swap.slots swap.store swap.contents };
}
