//! Pages of equal bytes that come to share one frame (Waldspurger, OSDI 2002, section 4).
ghost use Rattle.std.specs.Prelude.{◌≡◌, ℕ, ◌<◌, Option, OnOk, OnErr, IfOk, List, [], length, slice_set};
ghost use Rattle.std.specs.Option.{option_to_list};
ghost use Rattle.sha2.specs.Sha256.{sha256};
ghost use Rattle.frames.specs.FreeList.{FreeList};
ghost use Rattle.sharetab.specs.Entries.{EntriesAre, HasDigest};
ghost use Rattle.sharetab.specs.Books.{Admits};
ghost use Rattle.sharetab.specs.Hints.{Notes};
ghost use Rattle.guest_pages.specs.declared.page.PageKind.{PageKind};
ghost use Rattle.guest_pages.specs.Pages.{page_at, kind_at, shown, own_frame, page_of_entry};
ghost use Rattle.page_moves.specs.Moves.{MovesFrames, MovesSlots, MovesTickets, Reads, Covered, OwnOnce};
ghost use Rattle.page_moves.specs.Faith.{Faithful, Kept};
ghost use Rattle.page_moves.specs.Scans.{NoEntryHas, Answered, HintsAfter, Comes};

use crate::Pages;
use crate::stored::bytes_of;
use frames::FrameNo;
use guest_number::GuestNo;
use guest_pages::PageKind;
use sharetab::{GuestPage, Offer, Shares};
use std::alloc::AllocError;
use swapstore::digest;
use word32::Ppn;

/// What the scan of a page is answered.
#[derive(Clone, Copy, Debug, PartialEq, Eq)]
pub enum Scan {
    /// The digest of the page's bytes was noted as that of the page.
    Noted,
    /// The page's own frame became an entry; this other page was last noted with the digest.
    Admitted(GuestPage),
    /// The page reads the entry that has its bytes, and its own frame came free.
    Joined,
    /// There is no such page, it is in no frame of its own, or the entry of its digest has other bytes.
    Skipped,
    /// A request for memory was refused, or no more tickets can be counted.
    Memory,
}

// The page's own frame becomes an entry.
#[tactic(auto, using(crate::proofs::Scanning::own_place, crate::proofs::Scanning::own_vacant))]
fn admit_in<P: Pages>(pages: &mut P, p: Ppn, shares: &mut Shares) -> Result<(), AllocError>
    requires there { p < length (P.pages pages.old) }
    requires kind { kind_at (P.pages pages.old) p ≡ PageKind.Private }
    requires own_once { OwnOnce shares.old.entries (P.pages pages.old) }
    requires first { HasDigest shares.old.entries (sha256 (shown (page_at (P.pages pages.old) p))) → ⊥ }
    ensures pages { OnOk result (P.pages pages.new ≡ slice_set (P.pages pages.old) p (page_of_entry (own_frame (page_at (P.pages pages.old) p)))) }
    ensures entries { OnOk result (Admits shares.old.entries (own_frame (page_at (P.pages pages.old) p)) shares.new.entries) }
    ensures hints { shares.new.hints ≡ shares.old.hints }
    ensures unchanged { OnErr result (P.pages pages.new ≡ P.pages pages.old) }
    ensures shares_unchanged { OnErr result (shares.new ≡ shares.old) }
    ensures rest { P.rest pages.new ≡ P.rest pages.old }
{
    shares.each_has_its_place();
    pages.admit(p, shares)
}

// Offers a page whose bytes no entry has.
fn offer_in<P: Pages>(pages: &mut P, guest: GuestNo, p: Ppn, shares: &mut Shares) -> Scan
    requires there { p < length (P.pages pages.old) }
    requires kind { kind_at (P.pages pages.old) p ≡ PageKind.Private }
    requires own_once { OwnOnce shares.old.entries (P.pages pages.old) }
    requires none { NoEntryHas shares.old.entries (shown (page_at (P.pages pages.old) p)) }
    ensures answer { Answered shares.old (P.pages pages.old) (record { guest = guest; page = p }) result }
    ensures comes { Comes shares.old.entries (P.pages pages.old) p result shares.new.entries (P.pages pages.new) [] }
    ensures hints { HintsAfter shares.old.hints (sha256 (shown (page_at (P.pages pages.old) p))) (record { guest = guest; page = p }) result shares.new.hints }
    ensures rest { P.rest pages.new ≡ P.rest pages.old }
{
    let noted = digest(bytes_of(pages, p));
    let Ok(offer) = shares.offer(&noted, GuestPage { guest, page: p }) else {
        return Scan::Memory;
    };
    match offer {
        Offer::Noted => Scan::Noted,
        Offer::Taken => Scan::Skipped,
        Offer::Match(other) => match admit_in(pages, p, shares) {
            Ok(()) => Scan::Admitted(other),
            Err(_) => Scan::Memory,
        },
    }
}

// Joins a page to the entry that has its bytes, or offers it.
fn share_in<P: Pages>(
    pages: &mut P,
    guest: GuestNo,
    p: Ppn,
    shares: &mut Shares,
) -> (Scan, Option<FrameNo>)
    requires there { p < length (P.pages pages.old) }
    requires kind { kind_at (P.pages pages.old) p ≡ PageKind.Private }
    requires own_once { OwnOnce shares.old.entries (P.pages pages.old) }
    ensures answer { Answered shares.old (P.pages pages.old) (record { guest = guest; page = p }) result.0 }
    ensures comes { Comes shares.old.entries (P.pages pages.old) p result.0 shares.new.entries (P.pages pages.new) (option_to_list result.1) }
    ensures hints { HintsAfter shares.old.hints (sha256 (shown (page_at (P.pages pages.old) p)))
        (record { guest = guest; page = p }) result.0 shares.new.hints }
    ensures rest { P.rest pages.new ≡ P.rest pages.old }
{
    match shares.join(bytes_of(pages, p)) {
        Ok(Some((share, ticket))) => {
            let frame = pages.share(p, share, ticket);
            (Scan::Joined, Some(frame.strip()))
        }
        Ok(None) => (offer_in(pages, guest, p, shares), None),
        Err(_) => (Scan::Memory, None),
    }
}

/// Scans a page of a guest: it joins the entry that has its bytes; else, where another page was last noted with its digest,
/// its own frame becomes an entry; else its digest is noted. The frame that came free, which is the caller's from then on.
///
/// `Skipped` where there is no such page, it is in no frame of its own, or the entry of its digest has other bytes. `Memory`
/// where a request for memory was refused, or no more tickets can be counted: pages and shares are as before then.
pub fn scan_in<P: Pages>(
    pages: &mut P,
    guest: GuestNo,
    p: Ppn,
    shares: &mut Shares,
) -> (Scan, Option<FrameNo>)
    requires covered { Covered shares.old.entries (P.pages pages.old) }
    requires own_once { OwnOnce shares.old.entries (P.pages pages.old) }
    ensures frames { (pool : FreeList) →
        MovesFrames (P.pages pages.old) pool shares.old.entries (P.pages pages.new) pool shares.new.entries (option_to_list result.1) }
    ensures slots { (book : FreeList) → MovesSlots (P.pages pages.old) book (P.pages pages.new) book [] }
    ensures tickets { MovesTickets (P.pages pages.old) shares.old.entries (P.pages pages.new) shares.new.entries }
    ensures faithful { (view : ℕ → List ℕ) → Faithful view (P.pages pages.old) → Faithful view (P.pages pages.new) }
    ensures kept { (held : ℕ → Option (List ℕ)) (view : ℕ → List ℕ) → Kept held view (P.pages pages.old) → Kept held view (P.pages pages.new) }
    ensures reads { Reads shares.old.entries (P.pages pages.old) → Reads shares.new.entries (P.pages pages.new) }
    ensures rest { P.rest pages.new ≡ P.rest pages.old }
    ensures answer { Answered shares.old (P.pages pages.old) (record { guest = guest; page = p }) result.0 }
    ensures comes { Comes shares.old.entries (P.pages pages.old) p result.0 shares.new.entries (P.pages pages.new) (option_to_list result.1) }
    ensures hints { HintsAfter shares.old.hints (sha256 (shown (page_at (P.pages pages.old) p)))
        (record { guest = guest; page = p }) result.0 shares.new.hints }
{
    if p.number() >= pages.count() {
        return (Scan::Skipped, None);
    }
    if pages.kind(p) != PageKind::Private {
        return (Scan::Skipped, None);
    }
    share_in(pages, guest, p, shares)
}
