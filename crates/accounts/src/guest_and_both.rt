//! Under the locks of a guest, of the table of shared frames and of the slot book.
ghost use Rattle.std.specs.Prelude.{◌≡◌, ℕ, ◌<◌, List, [], ◌∷◌, ◌++◌};
ghost use Rattle.std.specs.Option.{option_to_list};
ghost use Rattle.frames.specs.Counts.{count_of};
ghost use Rattle.frames.specs.FreeList.{FreeList};
ghost use Rattle.guest_pages.specs.declared.page.Page.{Page};
ghost use Rattle.guest_pages.specs.declared.page.PageKind.TheVariants.{Swapped};
ghost use Rattle.guest_pages.specs.Pages.{page_at, kind_at, slot_of};
ghost use Rattle.guest_pages.specs.Holdings.{slots_held};
ghost use Rattle.page_moves.specs.Moves.{Reads, Covered, OwnOnce};
ghost use Rattle.accounts.specs.declared.account.Account.TheVariants.{Table, Slots};
ghost use Rattle.accounts.specs.OwnerShares.{share_of, guest_account, guest_share, ExactWith};
ghost use Rattle.accounts.specs.Settling.{MovedWithBoth};

use crate::account::Account;
use crate::rule::{BookShare, Books};
use frames::FrameNo;
use ledger::NewParts;
use page_moves::Pages;
use sharetab::Shares;
use std::marker::Brand;
use swapstore::SlotBook;

/// What exact books say of a guest, the entries and the slots: what `meet_table` and `meet_slots` tell, of one state.
pub fn meet_both(
    books: &Books,
    guest: &mut BookShare,
    table: &mut BookShare,
    slots: &mut BookShare,
    shares: &Shares,
    book: &SlotBook,
)
    requires guest { guest.old.ledger ≡ books.now.id }
    requires table { table.old ≡ share_of books.now.id (Table shares.now.entries) }
    requires slots { slots.old ≡ share_of books.now.id (Slots book.now) }
    ensures guest { guest.new ≡ guest.old }
    ensures table { table.new ≡ table.old }
    ensures slots { slots.new ≡ slots.old }
    ensures exact { (pages : List Page) (hand : List ℕ) → guest.old ≡ guest_share books.now.id pages hand →
        (pool : FreeList) × ExactWith books.now.key pages hand shares.now.entries pool book.now }
    ensures covered { (pages : List Page) (hand : List ℕ) → guest.old ≡ guest_share books.now.id pages hand → Covered shares.now.entries pages }
    ensures own_once { (pages : List Page) (hand : List ℕ) → guest.old ≡ guest_share books.now.id pages hand → OwnOnce shares.now.entries pages }
    ensures reads { (pages : List Page) (hand : List ℕ) → guest.old ≡ guest_share books.now.id pages hand → Reads shares.now.entries pages }
    ensures used { (pages : List Page) (hand : List ℕ) → guest.old ≡ guest_share books.now.id pages hand →
        (p : ℕ) → kind_at pages p ≡ Swapped → 0 < book.now.out }
    ensures inside { (pages : List Page) (hand : List ℕ) → guest.old ≡ guest_share books.now.id pages hand →
        (p : ℕ) → kind_at pages p ≡ Swapped → slot_of (page_at pages p) < books.now.key.slots }
    ensures free_inside { (slot : ℕ) → 0 < count_of slot book.now.free → slot < books.now.key.slots }
    ensures free_apart { (pages : List Page) (hand : List ℕ) → guest.old ≡ guest_share books.now.id pages hand →
        (slot : ℕ) → 0 < count_of slot book.now.free → slots_held slot pages ≡ 0 }
{
    books.lend(guest, table);
    books.lend(guest, slots);
    books.learn(guest);
    *slots = books.part(guest);
    *table = books.part(guest);
}

fn settle_both_as<N: NewParts<Account>, P: Pages>(
    books: &Books,
    guest: &mut BookShare,
    table: &mut BookShare,
    slots: &mut BookShare,
    pages: &P,
    hand: &Option<FrameNo>,
    shares: &Shares,
    book: &SlotBook,
)
    requires moved { MovedWithBoth books.now.id guest.old table.old slots.old (P.pages pages.now) (option_to_list hand.now) shares.now.entries book.now }
    requires new { N.parts ≡ Slots book.now ∷ Table shares.now.entries ∷ guest_account (P.pages pages.now) (option_to_list hand.now) ∷ [] }
    ensures guest { guest.new ≡ guest_share books.now.id (P.pages pages.now) (option_to_list hand.now) }
    ensures table { table.new ≡ share_of books.now.id (Table shares.now.entries) }
    ensures slots { slots.new ≡ share_of books.now.id (Slots book.now) }
{
    books.lend(guest, table);
    books.lend(guest, slots);
    books.settle::<N>(guest);
    *slots = books.part(guest);
    *table = books.part(guest);
}

/// After a move of a guest's pages, the entries and the slots, each share is that of what lies there now.
pub fn settle_both<P: Pages>(
    books: &Books,
    guest: &mut BookShare,
    table: &mut BookShare,
    slots: &mut BookShare,
    pages: &P,
    hand: &Option<FrameNo>,
    shares: &Shares,
    book: &SlotBook,
)
    requires moved { MovedWithBoth books.now.id guest.old table.old slots.old (P.pages pages.now) (option_to_list hand.now) shares.now.entries book.now }
    ensures guest { guest.new ≡ guest_share books.now.id (P.pages pages.now) (option_to_list hand.now) }
    ensures table { table.new ≡ share_of books.now.id (Table shares.now.entries) }
    ensures slots { slots.new ≡ share_of books.now.id (Slots book.now) }
{
    settle_both_as::<Brand, P>(books, guest, table, slots, pages, hand, shares, book);
}
