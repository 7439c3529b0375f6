//! The accounts of free frames.
ghost use Rattle.std.specs.Prelude.{◌≡◌, ℕ, ◌+◌, List, [], ◌∷◌, ◌++◌, map};
ghost use Rattle.frames.specs.Counts.{one_at, count_of};
ghost use Rattle.accounts.specs.declared.account.Account.TheVariants.{Guest, Frame};
ghost use Rattle.accounts.specs.OwnerShares.{share_of, guest_account, guest_share, free_share};

use crate::account::Account;
use crate::rule::{BookShare, Books};
use framepool::Pool;
use frames::FrameNo;
use ledger::NewParts;
use page_moves::Pages;
use std::marker::Brand;

fn free_frame_as<N: NewParts<Account>>(
    books: &Books,
    share: &mut BookShare,
    no: &FrameNo,
    left: &Pool,
) -> BookShare
    requires taken { (numbers : List ℕ) × (share.old ≡ free_share books.now.id numbers)
        × ((k : ℕ) → count_of k numbers ≡ count_of k left.now.free + one_at k no.now) }
    requires new { N.parts ≡ Frame no.now ∷ map Frame left.now.free }
    ensures left { share.new ≡ free_share books.now.id left.now.free }
    ensures frame { result ≡ share_of books.now.id (Frame no.now) }
{
    books.settle::<N>(share);
    books.part(share)
}

/// The account of a free frame, whose number was taken from a pool of these numbers, leaves the share of all their accounts.
pub fn free_frame(books: &Books, share: &mut BookShare, no: &FrameNo, left: &Pool) -> BookShare
    requires taken { (numbers : List ℕ) × (share.old ≡ free_share books.now.id numbers)
        × ((k : ℕ) → count_of k numbers ≡ count_of k left.now.free + one_at k no.now) }
    ensures left { share.new ≡ free_share books.now.id left.now.free }
    ensures frame { result ≡ share_of books.now.id (Frame no.now) }
{
    free_frame_as::<Brand>(books, share, no, left)
}

fn take_as<N: NewParts<Account>, P: Pages>(
    books: &Books,
    guest: &mut BookShare,
    mut frame: BookShare,
    pages: &P,
    no: &FrameNo,
)
    requires guest { guest.old ≡ guest_share books.now.id (P.pages pages.now) [] }
    requires frame { frame ≡ share_of books.now.id (Frame no.now) }
    requires new { N.parts ≡ guest_account (P.pages pages.now) (no.now ∷ []) ∷ [] }
    ensures { guest.new ≡ guest_share books.now.id (P.pages pages.now) (no.now ∷ []) }
{
    books.lend(guest, &mut frame);
    books.settle::<N>(guest);
}

/// A free frame comes into a guest's hand, and its account into the guest's share.
pub fn take<P: Pages>(
    books: &Books,
    guest: &mut BookShare,
    frame: BookShare,
    pages: &P,
    no: &FrameNo,
)
    requires guest { guest.old ≡ guest_share books.now.id (P.pages pages.now) [] }
    requires frame { frame ≡ share_of books.now.id (Frame no.now) }
    ensures { guest.new ≡ guest_share books.now.id (P.pages pages.now) (no.now ∷ []) }
{
    take_as::<Brand, P>(books, guest, frame, pages, no);
}

fn give_as<N: NewParts<Account>, P: Pages>(
    books: &Books,
    guest: &mut BookShare,
    pages: &P,
    no: &FrameNo,
) -> BookShare
    requires guest { guest.old ≡ guest_share books.now.id (P.pages pages.now) (no.now ∷ []) }
    requires new { N.parts ≡ Frame no.now ∷ guest_account (P.pages pages.now) [] ∷ [] }
    ensures guest { guest.new ≡ guest_share books.now.id (P.pages pages.now) [] }
    ensures frame { result ≡ share_of books.now.id (Frame no.now) }
{
    books.settle::<N>(guest);
    books.part(guest)
}

/// The frame in a guest's hand is free, and its account leaves the guest's share.
pub fn give<P: Pages>(books: &Books, guest: &mut BookShare, pages: &P, no: &FrameNo) -> BookShare
    requires guest { guest.old ≡ guest_share books.now.id (P.pages pages.now) (no.now ∷ []) }
    ensures guest { guest.new ≡ guest_share books.now.id (P.pages pages.now) [] }
    ensures frame { result ≡ share_of books.now.id (Frame no.now) }
{
    give_as::<Brand, P>(books, guest, pages, no)
}
