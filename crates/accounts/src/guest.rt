//! Under a guest's lock alone.
ghost use Rattle.std.specs.Prelude.{◌≡◌, ℕ, List, [], ◌∷◌, ◌++◌};
ghost use Rattle.std.specs.Option.{option_to_list};
ghost use Rattle.frames.specs.FreeList.{FreeList};
ghost use Rattle.sharetab.specs.Entries.{EntriesAre};
ghost use Rattle.guest_pages.specs.declared.page.Page.{Page};
ghost use Rattle.accounts.specs.OwnerShares.{guest_account, guest_share, ExactWith};
ghost use Rattle.accounts.specs.Settling.{Moved};

use crate::account::Account;
use crate::rule::{BookShare, Books};
use frames::FrameNo;
use ledger::NewParts;
use page_moves::Pages;
use std::marker::Brand;

/// What exact books say of a guest. Each clause speaks of all pages and frames in hand whose share this is, as those before a step
/// that gave a page. It changes nothing.
pub fn meet(books: &Books, guest: &mut BookShare)
    requires { guest.old.ledger ≡ books.now.id }
    ensures guest { guest.new ≡ guest.old }
    ensures exact { (pages : List Page) (hand : List ℕ) → guest.old ≡ guest_share books.now.id pages hand →
        (entries : EntriesAre) × (pool : FreeList) × (book : FreeList) × ExactWith books.now.key pages hand entries pool book }
{
    books.learn(guest);
}

fn settle_as<N: NewParts<Account>, P: Pages>(
    books: &Books,
    guest: &mut BookShare,
    pages: &P,
    hand: &Option<FrameNo>,
)
    requires moved { Moved books.now.id guest.old (P.pages pages.now) (option_to_list hand.now) }
    requires new { N.parts ≡ guest_account (P.pages pages.now) (option_to_list hand.now) ∷ [] }
    ensures { guest.new ≡ guest_share books.now.id (P.pages pages.now) (option_to_list hand.now) }
{
    books.settle::<N>(guest);
}

/// After a move of a guest's pages, its share is that of its pages and of the frame in its hand as they are now.
pub fn settle<P: Pages>(books: &Books, guest: &mut BookShare, pages: &P, hand: &Option<FrameNo>)
    requires moved { Moved books.now.id guest.old (P.pages pages.now) (option_to_list hand.now) }
    ensures { guest.new ≡ guest_share books.now.id (P.pages pages.now) (option_to_list hand.now) }
{
    settle_as::<Brand, P>(books, guest, pages, hand);
}
