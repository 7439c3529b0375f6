//! Under the locks of a guest and of the slot book.
ghost use Rattle.std.specs.Prelude.{◌≡◌, ℕ, ◌<◌, List, [], ◌∷◌, ◌++◌};
ghost use Rattle.std.specs.Option.{option_to_list};
ghost use Rattle.frames.specs.Counts.{count_of};
ghost use Rattle.frames.specs.FreeList.{FreeList};
ghost use Rattle.sharetab.specs.Entries.{EntriesAre};
ghost use Rattle.guest_pages.specs.declared.page.Page.{Page};
ghost use Rattle.guest_pages.specs.declared.page.PageKind.TheVariants.{Swapped};
ghost use Rattle.guest_pages.specs.declared.page.Returned.TheVariants.{Slot};
ghost use Rattle.guest_pages.specs.Pages.{page_at, kind_at, slot_of, handed_back};
ghost use Rattle.guest_pages.specs.Holdings.{slots_held};
ghost use Rattle.accounts.specs.declared.account.Account.TheVariants.{Slots};
ghost use Rattle.accounts.specs.OwnerShares.{share_of, guest_account, guest_share, ExactWith};
ghost use Rattle.accounts.specs.Settling.{MovedWithSlots};

use crate::account::Account;
use crate::rule::{BookShare, Books};
use frames::FrameNo;
use ledger::NewParts;
use page_moves::Pages;
use std::marker::Brand;
use swapstore::SlotBook;

/// What exact books say of a guest and the slots, as `meet` does of a guest: a slot that is free or a page's is below the number of
/// slots, a free one is no page's of this guest, and one that a page is in, or hands back, is out.
pub fn meet_slots(books: &Books, guest: &mut BookShare, slots: &mut BookShare, book: &SlotBook)
    requires guest { guest.old.ledger ≡ books.now.id }
    requires slots { slots.old ≡ share_of books.now.id (Slots book.now) }
    ensures guest { guest.new ≡ guest.old }
    ensures slots { slots.new ≡ slots.old }
    ensures exact { (pages : List Page) (hand : List ℕ) → guest.old ≡ guest_share books.now.id pages hand →
        (entries : EntriesAre) × (pool : FreeList) × ExactWith books.now.key pages hand entries pool book.now }
    ensures used { (pages : List Page) (hand : List ℕ) → guest.old ≡ guest_share books.now.id pages hand →
        (p : ℕ) → kind_at pages p ≡ Swapped → 0 < book.now.out }
    ensures inside { (pages : List Page) (hand : List ℕ) → guest.old ≡ guest_share books.now.id pages hand →
        (p : ℕ) → kind_at pages p ≡ Swapped → slot_of (page_at pages p) < books.now.key.slots }
    ensures returned { (pages : List Page) (hand : List ℕ) → guest.old ≡ guest_share books.now.id pages hand →
        (p slot : ℕ) → handed_back (page_at pages p) ≡ Slot slot → 0 < book.now.out }
    ensures free_inside { (slot : ℕ) → 0 < count_of slot book.now.free → slot < books.now.key.slots }
    ensures free_apart { (pages : List Page) (hand : List ℕ) → guest.old ≡ guest_share books.now.id pages hand →
        (slot : ℕ) → 0 < count_of slot book.now.free → slots_held slot pages ≡ 0 }
{
    books.lend(guest, slots);
    books.learn(guest);
    *slots = books.part(guest);
}

fn settle_slots_as<N: NewParts<Account>, P: Pages>(
    books: &Books,
    guest: &mut BookShare,
    slots: &mut BookShare,
    pages: &P,
    hand: &Option<FrameNo>,
    book: &SlotBook,
)
    requires moved { MovedWithSlots books.now.id guest.old slots.old (P.pages pages.now) (option_to_list hand.now) book.now }
    requires new { N.parts ≡ Slots book.now ∷ guest_account (P.pages pages.now) (option_to_list hand.now) ∷ [] }
    ensures guest { guest.new ≡ guest_share books.now.id (P.pages pages.now) (option_to_list hand.now) }
    ensures slots { slots.new ≡ share_of books.now.id (Slots book.now) }
{
    books.lend(guest, slots);
    books.settle::<N>(guest);
    *slots = books.part(guest);
}

/// After a move of a guest's pages and the slots, each share is that of what lies there now.
pub fn settle_slots<P: Pages>(
    books: &Books,
    guest: &mut BookShare,
    slots: &mut BookShare,
    pages: &P,
    hand: &Option<FrameNo>,
    book: &SlotBook,
)
    requires moved { MovedWithSlots books.now.id guest.old slots.old (P.pages pages.now) (option_to_list hand.now) book.now }
    ensures guest { guest.new ≡ guest_share books.now.id (P.pages pages.now) (option_to_list hand.now) }
    ensures slots { slots.new ≡ share_of books.now.id (Slots book.now) }
{
    settle_slots_as::<Brand, P>(books, guest, slots, pages, hand, book);
}
