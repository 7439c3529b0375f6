//! Pages that can be moved.
ghost use Rattle.std.specs.Prelude.{◌≡◌, ◌<◌, ◌⊎◌, ◌↔◌, IsTrue, IfSome, IsSome, List, None, OnErr, OnOk, length, slice_set};
ghost use Rattle.word32.specs.Zeros.{zeros};
ghost use Rattle.sha2.specs.Sha256.{sha256};
ghost use Rattle.sharetab.specs.Books.{Admits};
ghost use Rattle.sharetab.specs.Entries.{entry_at, HasDigest};
ghost use Rattle.guest_pages.specs.declared.page.Page.{Page};
ghost use Rattle.guest_pages.specs.declared.page.PageKind.{PageKind};
ghost use Rattle.guest_pages.specs.Pages.{page_at, kind_at, is_resident, shown, slot_of, digest_of, ticket_of, handed_back, own_frame, page_of_entry};

use frames::{Frame, SharePage, ShareTicket, SlotTicket};
use guest_pages::{GuestPages, Page, PageKind, Returned};
use sharetab::Shares;
use std::alloc::AllocError;
use word32::Ppn;

/// The pages of an owner, who lends them: each call changes one page, and nothing else of the owner.
pub trait Pages {
    /// The pages, that of number p at place p.
    ghost pages: { Self → List Page };

    /// All else of the owner, as a type whose values clauses compare.
    type Rest;

    /// All else of the owner, which no call changes.
    ghost rest: { Self → Self.Rest };

    /// How many pages there are.
    fn count(&self) -> u32
        ensures { result ≡ length (pages self.now) };

    /// Where a page is.
    fn kind(&self, p: Ppn) -> PageKind
        requires { p < length (pages self.now) }
        ensures { result ≡ kind_at (pages self.now) p };

    /// The bytes of a page, which has 4,096; None exactly where it is in no frame.
    fn peek(&self, p: Ppn) -> Option<&[u8]>
        requires { p < length (pages self.now) }
        ensures bytes { IfSome result (λ bytes. bytes.now ≡ shown (page_at (pages self.now) p)) }
        ensures length { length (shown (page_at (pages self.now) p)) ≡ 4096 }
        ensures resident { IsSome result ↔ IsTrue (is_resident (kind_at (pages self.now) p)) };

    /// The number of the slot that a swapped page is in, and the SHA-256 of its bytes.
    fn away(&self, p: Ppn) -> (u32, [u8; 32])
        requires there { p < length (pages self.now) }
        requires swapped { kind_at (pages self.now) p ≡ PageKind.Swapped }
        ensures slot { result.0 ≡ slot_of (page_at (pages self.now) p) }
        ensures digest { result.1 ≡ digest_of (page_at (pages self.now) p) };

    /// The number of the frame that a page has for its own.
    fn own_frame(&self, p: Ppn) -> u32
        requires there { p < length (pages self.now) }
        requires private { kind_at (pages self.now) p ≡ PageKind.Private }
        ensures { result ≡ (own_frame (page_at (pages self.now) p)).number };

    /// A page that was never touched, or was given to the balloon, gets a frame of zeros.
    fn supply_zero(&mut self, p: Ppn, frame: Frame)
        requires there { p < length (pages self.old) }
        requires kind { (kind_at (pages self.old) p ≡ PageKind.Zero) ⊎ (kind_at (pages self.old) p ≡ PageKind.Given) }
        requires zeros { frame.bytes ≡ zeros 4096 }
        ensures pages { pages self.new ≡ slice_set (pages self.old) p (Page.Private frame) }
        ensures rest { rest self.new ≡ rest self.old };

    /// A shared page gets a frame of its own, into which its bytes are copied. Its ticket comes back.
    fn supply_copy(&mut self, p: Ppn, frame: Frame) -> ShareTicket
        requires there { p < length (pages self.old) }
        requires kind { kind_at (pages self.old) p ≡ PageKind.Shared }
        ensures pages { pages self.new ≡ slice_set (pages self.old) p
            (Page.Private (record { number = frame.number; bytes = shown (page_at (pages self.old) p) })) }
        ensures ticket { result ≡ ticket_of (page_at (pages self.old) p) }
        ensures rest { rest self.new ≡ rest self.old };

    /// A swapped page gets a frame, whose bytes have the SHA-256 that was kept of it and are the page's from then on. Its
    /// slot comes back.
    fn supply_swapped(&mut self, p: Ppn, frame: Frame) -> SlotTicket
        requires there { p < length (pages self.old) }
        requires kind { kind_at (pages self.old) p ≡ PageKind.Swapped }
        requires digest { sha256 frame.bytes ≡ digest_of (page_at (pages self.old) p) }
        ensures pages { pages self.new ≡ slice_set (pages self.old) p (Page.Private frame) }
        ensures slot { result ≡ slot_of (page_at (pages self.old) p) }
        ensures rest { rest self.new ≡ rest self.old };

    /// A page that is in a frame leaves it for a slot; `digest` is the SHA-256 of its bytes. Its frame comes back, or its
    /// ticket where the frame is shared.
    fn swap_out(&mut self, p: Ppn, slot: SlotTicket, digest: [u8; 32]) -> Returned
        requires there { p < length (pages self.old) }
        requires resident { IsTrue (is_resident (kind_at (pages self.old) p)) }
        requires digest { digest ≡ sha256 (shown (page_at (pages self.old) p)) }
        ensures pages { pages self.new ≡ slice_set (pages self.old) p (Page.Swapped slot digest) }
        ensures returned { result ≡ handed_back (page_at (pages self.old) p) }
        ensures rest { rest self.new ≡ rest self.old };

    /// A page that was never touched is from then on in a slot, to which its bytes were written; `digest` is their SHA-256.
    fn put_away(&mut self, p: Ppn, slot: SlotTicket, digest: [u8; 32])
        requires there { p < length (pages self.old) }
        requires kind { kind_at (pages self.old) p ≡ PageKind.Zero }
        ensures pages { pages self.new ≡ slice_set (pages self.old) p (Page.Swapped slot digest) }
        ensures rest { rest self.new ≡ rest self.old };

    /// A page leaves its own frame for a shared one of the same bytes, of which `ticket` is a ticket. Its frame comes back.
    fn share(&mut self, p: Ppn, share: SharePage, ticket: ShareTicket) -> Frame
        requires there { p < length (pages self.old) }
        requires kind { kind_at (pages self.old) p ≡ PageKind.Private }
        requires bytes { share.bytes ≡ shown (page_at (pages self.old) p) }
        requires ticket { ticket ≡ share.number }
        ensures pages { pages self.new ≡ slice_set (pages self.old) p (Page.Shared share ticket) }
        ensures frame { page_at (pages self.old) p ≡ Page.Private result }
        ensures rest { rest self.new ≡ rest self.old };

    /// A page's own frame becomes a shared one, and the page reads it with the one ticket that is out. `AllocError` where
    /// memory is refused, or no more tickets can be counted: pages and shares are as before then.
    fn admit(&mut self, p: Ppn, shares: &mut Shares) -> Result<(), AllocError>
        requires there { p < length (pages self.old) }
        requires kind { kind_at (pages self.old) p ≡ PageKind.Private }
        requires place { (own_frame (page_at (pages self.old) p)).number < length shares.old.entries }
        requires vacant { entry_at shares.old.entries (own_frame (page_at (pages self.old) p)).number ≡ None }
        requires first { HasDigest shares.old.entries (sha256 (shown (page_at (pages self.old) p))) → ⊥ }
        ensures pages { OnOk result (pages self.new ≡ slice_set (pages self.old) p (page_of_entry (own_frame (page_at (pages self.old) p)))) }
        ensures entries { OnOk result (Admits shares.old.entries (own_frame (page_at (pages self.old) p)) shares.new.entries) }
        ensures hints { shares.new.hints ≡ shares.old.hints }
        ensures unchanged { OnErr result (pages self.new ≡ pages self.old) }
        ensures shares_unchanged { OnErr result (shares.new ≡ shares.old) }
        ensures rest { rest self.new ≡ rest self.old };
}

impl Pages for GuestPages {
    type Rest = ();

    ghost pages = { λ m. m };

    ghost rest = { λ m. tt };

    fn count(&self) -> u32 {
        self.len()
    }

    fn kind(&self, p: Ppn) -> PageKind {
        GuestPages::kind(self, p)
    }

    fn peek(&self, p: Ppn) -> Option<&[u8]> {
        GuestPages::peek(self, p)
    }

    fn away(&self, p: Ppn) -> (u32, [u8; 32]) {
        GuestPages::away(self, p)
    }

    fn own_frame(&self, p: Ppn) -> u32 {
        GuestPages::own_frame(self, p)
    }

    fn supply_zero(&mut self, p: Ppn, frame: Frame) {
        GuestPages::supply_zero(self, p, frame);
    }

    fn supply_copy(&mut self, p: Ppn, frame: Frame) -> ShareTicket {
        GuestPages::supply_copy(self, p, frame)
    }

    fn supply_swapped(&mut self, p: Ppn, frame: Frame) -> SlotTicket {
        GuestPages::supply_swapped(self, p, frame)
    }

    fn swap_out(&mut self, p: Ppn, slot: SlotTicket, digest: [u8; 32]) -> Returned {
        GuestPages::swap_out(self, p, slot, digest)
    }

    fn put_away(&mut self, p: Ppn, slot: SlotTicket, digest: [u8; 32]) {
        GuestPages::put_away(self, p, slot, digest);
    }

    fn share(&mut self, p: Ppn, share: SharePage, ticket: ShareTicket) -> Frame {
        GuestPages::share(self, p, share, ticket)
    }

    fn admit(&mut self, p: Ppn, shares: &mut Shares) -> Result<(), AllocError> {
        GuestPages::admit(self, p, shares)
    }
}
