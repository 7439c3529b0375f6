//! The shares of a store that has been written to before.
ghost use Rattle.std.specs.Prelude.{◌≡◌, ℕ, ◌+◌, ◌≤◌, IfOk, sum_by};
ghost use Rattle.frames.specs.Counts.{count_of, below};
ghost use Rattle.slot_contents.specs.Contents.{opening};
ghost use Rattle.slot_contents.specs.Shares.{all_shares};

use crate::content::Content;
use crate::rule::{ContentShare, Contents};
use ledger::{Ledger, NewParts};
use std::alloc::{AllocError, Global};
use std::marker::Brand;
use swapstore::{SlotBook, SwapStore};

/// The slots of each owner. They are a proof's choice at `deal`, for `Brand`, and nothing when it runs.
pub trait Owners {
    ghost use Rattle.std.specs.Prelude.{ℕ, List};

    /// The numbers of its slots, of each owner in order.
    ghost slots: { List (List ℕ) };
}

impl Owners for Brand {
    ghost use Rattle.std.specs.Prelude.{[]};

    ghost slots = { [] };
}

fn settle_first_as<N: NewParts<Content>, S: SwapStore, O: Owners>(
    contents: &Contents,
    share: &mut ContentShare,
    store: &S,
    book: &SlotBook,
)
    requires share { share.old ≡ record { ledger = contents.now.id; parts = opening contents.now.key } }
    requires apart { (k : ℕ) → count_of k book.now.free + sum_by (count_of k) O.slots ≤ below k contents.now.key }
    requires new { N.parts ≡ (all_shares contents.now (S.held store.now) book.now.free O.slots).parts }
    ensures { share.new ≡ all_shares contents.now (S.held store.now) book.now.free O.slots }
{
    let _ = store;
    let _ = book;
    contents.settle::<N>(share);
}

fn settle_first<S: SwapStore, O: Owners>(
    contents: &Contents,
    share: &mut ContentShare,
    store: &S,
    book: &SlotBook,
)
    requires share { share.old ≡ record { ledger = contents.now.id; parts = opening contents.now.key } }
    requires apart { (k : ℕ) → count_of k book.now.free + sum_by (count_of k) O.slots ≤ below k contents.now.key }
    ensures { share.new ≡ all_shares contents.now (S.held store.now) book.now.free O.slots }
{
    settle_first_as::<Brand, S, O>(contents, share, store, book);
}

/// The contents of a store of so many slots, of which each is free or an owner's, `O`, or nobody's: a share has the store's part, that of the
/// free slots, and then each owner's, which says that it wrote what the store holds. `AllocError` where there is no memory.
pub fn deal<S: SwapStore, O: Owners>(
    alloc: Global,
    slots: u32,
    store: &S,
    book: &SlotBook,
) -> Result<(Contents, ContentShare), AllocError>
    requires apart { (k : ℕ) → count_of k book.now.free + sum_by (count_of k) O.slots ≤ below k slots }
    ensures key { IfOk result (λ made. made.0.key ≡ slots) }
    ensures shares { IfOk result (λ made. made.1 ≡ all_shares made.0 (S.held store.now) book.now.free O.slots) }
{
    let (contents, mut share) = Ledger::new(alloc, &slots)?;
    settle_first::<S, O>(&contents, &mut share, store, book);
    Ok((contents, share))
}
