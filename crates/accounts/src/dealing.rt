//! The accounts of owners that are there already.
ghost use Rattle.std.specs.Prelude.{◌≡◌, [], ◌∷◌, ◌++◌, IfOk, length, map};
ghost use Rattle.page_moves.specs.Books.{Books as AreExact};
ghost use Rattle.accounts.specs.declared.account.Account.TheVariants.{Table, Frame, Slots};
ghost use Rattle.accounts.specs.Exact.{opening};
ghost use Rattle.accounts.specs.OwnerShares.{guest_account};

use crate::account::{Account, Extent};
use crate::rule::{BookShare, Books};
use framepool::Pool;
use ledger::{Ledger, NewParts};
use page_moves::Pages;
use sharetab::Shares;
use std::alloc::{AllocError, Global};
use std::marker::Brand;
use swapstore::SlotBook;

fn settle_first_as<N: NewParts<Account>, P: Pages>(
    books: &Books,
    share: &mut BookShare,
    guests: &[P],
    table: &Shares,
    pool: &Pool,
    slots: &SlotBook,
)
    requires share { share.old ≡ record { ledger = books.now.id; parts = opening books.now.key } }
    requires new { N.parts ≡ Slots slots.now ∷ Table table.now.entries ∷ (map (λ g. guest_account (P.pages g) []) guests.now ++ map Frame pool.now.free) }
    requires all { length guests.now ≡ books.now.key.guests }
    requires exact { AreExact books.now.key.frames books.now.key.slots (map P.pages guests.now) table.now.entries pool.now slots.now }
    ensures { share.new ≡ record {
      ledger = books.now.id;
      parts = Slots slots.now ∷ Table table.now.entries ∷
          (map (λ g. guest_account (P.pages g) []) guests.now ++ map Frame pool.now.free);
    } }
{
    books.settle::<N>(share);
}

fn settle_first<P: Pages>(
    books: &Books,
    share: &mut BookShare,
    guests: &[P],
    table: &Shares,
    pool: &Pool,
    slots: &SlotBook,
)
    requires share { share.old ≡ record { ledger = books.now.id; parts = opening books.now.key } }
    requires all { length guests.now ≡ books.now.key.guests }
    requires exact { AreExact books.now.key.frames books.now.key.slots (map P.pages guests.now) table.now.entries pool.now slots.now }
    ensures { share.new ≡ record {
      ledger = books.now.id;
      parts = Slots slots.now ∷ Table table.now.entries ∷
          (map (λ g. guest_account (P.pages g) []) guests.now ++ map Frame pool.now.free);
    } }
{
    settle_first_as::<Brand, P>(books, share, guests, table, pool, slots);
}

/// The books of guests, a table, a pool and a slot book that are exact, with all accounts in one share: the slot book's, the table's,
/// those of the guests in rising order, and those of the free frames in the pool's order. `Ledger::part` takes them one by one.
/// `AllocError` where there is no memory for the ledger's one word.
pub fn deal<P: Pages>(
    alloc: Global,
    extent: Extent,
    guests: &[P],
    table: &Shares,
    pool: &Pool,
    slots: &SlotBook,
) -> Result<(Books, BookShare), AllocError>
    requires all { length guests.now ≡ extent.guests }
    requires exact { AreExact extent.frames extent.slots (map P.pages guests.now) table.now.entries pool.now slots.now }
    ensures key { IfOk result (λ dealt. dealt.0.key ≡ extent) }
    ensures share { IfOk result (λ dealt. dealt.1 ≡ record {
      ledger = dealt.0.id;
      parts = Slots slots.now ∷ Table table.now.entries ∷
          (map (λ g. guest_account (P.pages g) []) guests.now ++ map Frame pool.now.free);
    }) }
{
    let (books, mut share) = Ledger::new(alloc, &extent)?;
    settle_first(&books, &mut share, guests, table, pool, slots);
    Ok((books, share))
}
