//! What the books count, for whoever holds all locks.
ghost use Rattle.std.specs.Prelude.{◌≡◌, ◌∷◌, length, map};
ghost use Rattle.ledger.specs.Shares.{AreOf};
ghost use Rattle.accounts.specs.declared.account.Account.TheVariants as account;
ghost use Rattle.accounts.specs.Exact.{Exact};
ghost use Rattle.accounts.specs.OwnerShares.{share_of};
ghost use Rattle.machine_memory.specs.Gathered.{guest_of};
ghost use Rattle.machine_memory.specs.Audits.{IsCountOf};

use crate::{MachineMemory, Stake};
use accounts::{BookShare, Books, Extent};
use lent_pages::{Swap, Table};
use page_moves::Pages;
use sharetab::Shares;
use std::marker::Model;
use std::sync::Wait;
use swapstore::{SlotBook, SwapStore};

/// How many frames, pages and slots the books have, each kind counted for itself.
#[derive(Clone, Copy, Debug, PartialEq, Eq)]
pub struct BookCounts {
    /// All frames.
    pub frames: u64,
    /// Frames that are free.
    pub free: u64,
    /// Pages in frames of their own.
    pub private: u64,
    /// Shared frames.
    pub shared: u64,
    /// Pages that read shared frames.
    pub references: u64,
    /// Pages in slots.
    pub swapped: u64,
    /// All slots.
    pub slots: u64,
}

/// How many pages a guest has of each kind.
#[derive(Clone, Copy, Debug, PartialEq, Eq)]
pub struct PageCounts {
    /// In frames of their own.
    pub private: u32,
    /// In shared frames.
    pub shared: u32,
    /// In slots.
    pub swapped: u32,
}

/// The accounts of guests whose locks are held, and how many pages they have of each kind. In clauses it is a record, `GatheredIs`.
#[derive(Drop)]
pub struct Gathered {
    pub(crate) share: BookShare,
    guests: u32,
    private: u64,
    shared: u64,
    swapped: u64,
}

impl Model for Gathered {
    ghost use Rattle.std.specs.List.{flat_map};
    ghost use Rattle.machine_memory.specs.Gathered.{GatheredIs, IsGathered, pages_in};

    ghost Value = { GatheredIs };

    ghost view = { λ g. record { ledger = g.share.ledger; pages = flat_map pages_in g.share.parts } };

    ghost invariant = { λ g. IsGathered (flat_map pages_in g.share.parts) g.share.parts g.guests g.private g.shared g.swapped };
}

impl Gathered {
    ghost use Rattle.std.specs.Prelude.{◌≡◌, [], length};

    // Nothing is gathered yet.
    pub(crate) fn of(share: BookShare) -> Gathered
        requires { share.parts ≡ [] }
        ensures { result ≡ record { ledger = share.ledger; pages = [] } }
    {
        Gathered {
            share,
            guests: 0,
            private: 0,
            shared: 0,
            swapped: 0,
        }
    }

    /// How many guests' accounts it has.
    pub fn guests(&self) -> u32
        ensures { result ≡ length self.now.pages }
    {
        self.guests
    }
}

// With the accounts of all guests, those of the table and of the slots are exact books. It changes nothing.
fn learn_all<S: SwapStore + Drop>(
    books: &Books,
    gathered: &mut BookShare,
    table: &mut Table,
    swap: &mut Swap<S>,
)
    requires gathered { gathered.old.ledger ≡ books.now.id }
    requires table { table.old.share ≡ share_of books.now.id (account.Table table.old.shares.entries) }
    requires slots { swap.old.share ≡ share_of books.now.id (account.Slots swap.old.slots) }
    ensures gathered { gathered.new ≡ gathered.old }
    ensures table { table.new ≡ table.old }
    ensures swap { swap.new ≡ swap.old }
    ensures exact { AreOf (Exact books.now.key) (account.Slots swap.old.slots ∷ account.Table table.old.shares.entries ∷ gathered.old.parts) }
{
    books.lend(gathered, &mut table.share);
    books.lend(gathered, &mut swap.share);
    books.learn(gathered);
    swap.share = books.part(gathered);
    table.share = books.part(gathered);
}

// The counts, where the books of these accounts are exact.
fn counted(extent: &Extent, gathered: &Gathered, shares: &Shares, book: &SlotBook) -> BookCounts
    requires all { length gathered.now.pages ≡ extent.now.guests }
    requires exact { AreOf (Exact extent.now) (account.Slots book.now ∷ account.Table shares.now.entries ∷ map guest_of gathered.now.pages) }
    ensures { IsCountOf extent.now gathered.now.pages result }
{
    let frames = u64::from(extent.frames);
    let shared = u64::from(shares.shared());
    BookCounts {
        frames,
        free: frames - gathered.private - shared,
        private: gathered.private,
        shared,
        references: gathered.shared,
        swapped: gathered.swapped,
        slots: u64::from(book.total()),
    }
}

impl<S: SwapStore + Drop> MachineMemory<S> {
    ghost use Rattle.std.specs.Prelude.{◌≡◌, ◌<◌, List, [], ◌∷◌, length, map, take, drop};
    ghost use Rattle.guest_pages.specs.declared.page.Page.{Page};
    ghost use Rattle.guest_pages.specs.Outline.{outline};
    ghost use Rattle.machine_memory.specs.Memories.{IsLevel};
    ghost use Rattle.machine_memory.specs.Gathered.{IsEmptied, AreCounted};
    ghost use Rattle.machine_memory.specs.Audits.{IsCountOf};

    /// A guest's account comes to those that are gathered, with the counts of its pages. Until it has come back, which is by `scatter`,
    /// the stake serves no other call.
    pub fn gather<P: Pages>(
        &self,
        gathered: &mut Gathered,
        stake: &mut Stake,
        pages: &P,
        counts: PageCounts,
    )
        requires ledger { gathered.old.ledger ≡ self.now.books.id }
        requires more { length gathered.old.pages < self.now.books.key.guests }
        requires level { IsLevel self.now stake.old (P.pages pages.now) }
        requires counts { AreCounted (P.pages pages.now) counts.private counts.shared counts.swapped }
        ensures gathered { gathered.new ≡ record gathered.old { pages = outline (P.pages pages.now) ∷ gathered.old.pages } }
        ensures stake { IsEmptied self.now stake.new (P.pages pages.now) }
        ensures contents { stake.new.contents ≡ stake.old.contents }
    {
        let _guests = self.extent.guests;
        let _pages = pages.count();
        self.books.lend(&mut gathered.share, &mut stake.share);
        gathered.guests += 1;
        gathered.private += u64::from(counts.private);
        gathered.shared += u64::from(counts.shared);
        gathered.swapped += u64::from(counts.swapped);
    }

    /// The guest's account that came last goes back to its stake, which is level again.
    pub fn scatter<P: Pages>(
        &self,
        gathered: &mut Gathered,
        stake: &mut Stake,
        pages: &P,
        counts: PageCounts,
    )
        requires ledger { gathered.old.ledger ≡ self.now.books.id }
        requires last { take 1 gathered.old.pages ≡ outline (P.pages pages.now) ∷ [] }
        requires stake { IsEmptied self.now stake.old (P.pages pages.now) }
        requires counts { AreCounted (P.pages pages.now) counts.private counts.shared counts.swapped }
        ensures gathered { gathered.new ≡ record gathered.old { pages = drop 1 gathered.old.pages } }
        ensures stake { IsLevel self.now stake.new (P.pages pages.now) }
        ensures contents { stake.new.contents ≡ stake.old.contents }
    {
        stake.share = self.books.part(&mut gathered.share);
        gathered.guests -= 1;
        gathered.private -= u64::from(counts.private);
        gathered.shared -= u64::from(counts.shared);
        gathered.swapped -= u64::from(counts.swapped);
    }

    /// What the books count, with all guests' accounts gathered; the locks of the table and of the swap book are held for it. The counts
    /// are those of exact books of all guests' pages: so they add up.
    pub fn books<R: Wait>(&self, rt: &R, gathered: &mut Gathered) -> BookCounts
        requires ledger { gathered.old.ledger ≡ self.now.books.id }
        requires all { length gathered.old.pages ≡ self.now.books.key.guests }
        ensures counts { (all : List (List Page)) → gathered.old.pages ≡ map outline all → IsCountOf self.now.books.key all result }
        ensures unchanged { gathered.new ≡ gathered.old }
    {
        let (mut table, table_loan) = self.table.take(rt);
        let (mut swap, swap_loan) = self.swap.take(rt);
        learn_all(&self.books, &mut gathered.share, &mut table, &mut swap);
        let counts = counted(&self.extent, gathered, &table.shares, &swap.slots);
        self.swap.put_back(swap, swap_loan);
        self.table.put_back(table, table_loan);
        counts
    }
}
