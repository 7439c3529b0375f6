//! Under the locks of a guest and of the table of shared frames.
ghost use Rattle.std.specs.Prelude.{◌≡◌, ℕ, ◌<◌, List, [], ◌∷◌, ◌++◌};
ghost use Rattle.std.specs.Option.{option_to_list};
ghost use Rattle.frames.specs.FreeList.{FreeList};
ghost use Rattle.sharetab.specs.Entries.{count_at};
ghost use Rattle.guest_pages.specs.declared.page.Page.{Page};
ghost use Rattle.guest_pages.specs.declared.page.Returned.TheVariants.{Ticket};
ghost use Rattle.guest_pages.specs.Pages.{page_at, handed_back};
ghost use Rattle.page_moves.specs.Moves.{Reads, Covered, OwnOnce};
ghost use Rattle.accounts.specs.declared.account.Account.TheVariants.{Table};
ghost use Rattle.accounts.specs.OwnerShares.{share_of, guest_account, guest_share, ExactWith};
ghost use Rattle.accounts.specs.Settling.{MovedWithTable};

use crate::account::Account;
use crate::rule::{BookShare, Books};
use frames::FrameNo;
use ledger::NewParts;
use page_moves::Pages;
use sharetab::Shares;
use std::marker::Brand;

/// What exact books say of a guest and the entries, as `meet` does of a guest: in the words in which the moves of `page_moves` ask for it,
/// and that a ticket which a page hands back is out.
pub fn meet_table(books: &Books, guest: &mut BookShare, table: &mut BookShare, shares: &Shares)
    requires guest { guest.old.ledger ≡ books.now.id }
    requires table { table.old ≡ share_of books.now.id (Table shares.now.entries) }
    ensures guest { guest.new ≡ guest.old }
    ensures table { table.new ≡ table.old }
    ensures exact { (pages : List Page) (hand : List ℕ) → guest.old ≡ guest_share books.now.id pages hand →
        (pool : FreeList) × (book : FreeList) × ExactWith books.now.key pages hand shares.now.entries pool book }
    ensures covered { (pages : List Page) (hand : List ℕ) → guest.old ≡ guest_share books.now.id pages hand → Covered shares.now.entries pages }
    ensures own_once { (pages : List Page) (hand : List ℕ) → guest.old ≡ guest_share books.now.id pages hand → OwnOnce shares.now.entries pages }
    ensures reads { (pages : List Page) (hand : List ℕ) → guest.old ≡ guest_share books.now.id pages hand → Reads shares.now.entries pages }
    ensures returned { (pages : List Page) (hand : List ℕ) → guest.old ≡ guest_share books.now.id pages hand →
        (p ticket : ℕ) → handed_back (page_at pages p) ≡ Ticket ticket → 0 < count_at shares.now.entries ticket }
{
    books.lend(guest, table);
    books.learn(guest);
    *table = books.part(guest);
}

fn settle_table_as<N: NewParts<Account>, P: Pages>(
    books: &Books,
    guest: &mut BookShare,
    table: &mut BookShare,
    pages: &P,
    hand: &Option<FrameNo>,
    shares: &Shares,
)
    requires moved { MovedWithTable books.now.id guest.old table.old (P.pages pages.now) (option_to_list hand.now) shares.now.entries }
    requires new { N.parts ≡ Table shares.now.entries ∷ guest_account (P.pages pages.now) (option_to_list hand.now) ∷ [] }
    ensures guest { guest.new ≡ guest_share books.now.id (P.pages pages.now) (option_to_list hand.now) }
    ensures table { table.new ≡ share_of books.now.id (Table shares.now.entries) }
{
    books.lend(guest, table);
    books.settle::<N>(guest);
    *table = books.part(guest);
}

/// After a move of a guest's pages and the entries, each share is that of what lies there now.
pub fn settle_table<P: Pages>(
    books: &Books,
    guest: &mut BookShare,
    table: &mut BookShare,
    pages: &P,
    hand: &Option<FrameNo>,
    shares: &Shares,
)
    requires moved { MovedWithTable books.now.id guest.old table.old (P.pages pages.now) (option_to_list hand.now) shares.now.entries }
    ensures guest { guest.new ≡ guest_share books.now.id (P.pages pages.now) (option_to_list hand.now) }
    ensures table { table.new ≡ share_of books.now.id (Table shares.now.entries) }
{
    settle_table_as::<Brand, P>(books, guest, table, pages, hand, shares);
}
