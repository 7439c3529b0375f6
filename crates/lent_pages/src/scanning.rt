//! Pages of equal bytes that come to share one frame.
ghost use Rattle.std.specs.Prelude.{◌≡◌, ℕ, List, Option, [], length};
ghost use Rattle.std.specs.Option.{option_to_list};
ghost use Rattle.guest_pages.specs.Holdings.{slots_held};
ghost use Rattle.page_moves.specs.Faith.{Faithful, Kept};
ghost use Rattle.accounts.specs.OwnerShares.{guest_share};
ghost use Rattle.accounts.specs.Settling.{KeepsFrames};
ghost use Rattle.lent_pages.specs.Locked.{IsTable};
ghost use Rattle.lent_pages.specs.Scans.{WasScanned};

use crate::Table;
use accounts::{BookShare, Books};
use frames::FrameNo;
use guest_number::GuestNo;
use page_moves::{Pages, Scan, scan_in};
use word32::Ppn;

/// A page is scanned. The table's lock is held.
pub fn scanned<P: Pages>(
    books: &Books,
    share: &mut BookShare,
    pages: &mut P,
    guest: GuestNo,
    p: Ppn,
    table: &mut Table,
) -> (Scan, Option<FrameNo>)
    requires share { share.old ≡ guest_share books.now.id (P.pages pages.old) [] }
    requires table { IsTable books.now table.old.shares.entries table.old.share }
    ensures share { share.new ≡ guest_share books.now.id (P.pages pages.new) (option_to_list result.1) }
    ensures table { IsTable books.now table.new.shares.entries table.new.share }
    ensures faithful { (view : ℕ → List ℕ) → Faithful view (P.pages pages.old) → Faithful view (P.pages pages.new) }
    ensures slots { (k : ℕ) → slots_held k (P.pages pages.new) ≡ slots_held k (P.pages pages.old) }
    ensures kept { (held : ℕ → Option (List ℕ)) (view : ℕ → List ℕ) → Kept held view (P.pages pages.old) → Kept held view (P.pages pages.new) }
    ensures rest { P.rest pages.new ≡ P.rest pages.old }
    ensures count { length (P.pages pages.new) ≡ length (P.pages pages.old) }
    ensures frames { KeepsFrames (P.pages pages.old) [] table.old.shares.entries (P.pages pages.new) (option_to_list result.1) table.new.shares.entries }
    ensures answer { WasScanned (record { guest = guest; page = p }) (P.pages pages.old) result.0 (P.pages pages.new) }
{
    accounts::meet_table(books, share, &mut table.share, &table.shares);
    let (scan, came_free) = scan_in(pages, guest, p, &mut table.shares);
    accounts::settle_table(
        books,
        share,
        &mut table.share,
        pages,
        &came_free,
        &table.shares,
    );
    (scan, came_free)
}
