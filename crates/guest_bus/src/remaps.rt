//! How a page of a settled bus leaves its place for another one, and how bytes come into memory at boot.
ghost use Rattle.std.specs.Prelude.{◌≡◌, ℕ, ◌+◌, ◌*◌, ◌<◌, ◌≤◌, ◌⊎◌, IsTrue, None, OnErr, OnOk, length};
ghost use Rattle.word32.specs.Pages.{page_number};
ghost use Rattle.word32.specs.Words.{patched};
ghost use Rattle.word32.specs.Zeros.{zeros};
ghost use Rattle.sha2.specs.Sha256.{sha256};
ghost use Rattle.sharetab.specs.Books.{Admits};
ghost use Rattle.sharetab.specs.Entries.{entry_at, HasDigest};
ghost use Rattle.guest_pages.specs.declared.page.Page.{Page};
ghost use Rattle.guest_pages.specs.declared.page.PageKind.{PageKind};
ghost use Rattle.guest_pages.specs.Pages.{page_at, kind_at, is_resident, shown, slot_of, digest_of, ticket_of, handed_back, own_frame, page_of_entry};
ghost use Rattle.guest_pages.specs.Outline.{outline};
ghost use Rattle.guest_bus.specs.Buses.{IsSettled, board_of, with_page, with_page_bytes, page_returned, after_settling};

use crate::GuestBus;
use crate::accesses::fill;
use frames::{Frame, SharePage, ShareTicket, SlotTicket};
use guest_pages::Returned;
use machine::PhysAddr;
use sharetab::Shares;
use std::alloc::AllocError;
use word32::Ppn;

impl GuestBus {
    /// The page that was given to the balloon and waits leaves its place, and what it held comes back; nothing where none
    /// waits. The board stays, in which that page is zeros already.
    #[tactic(auto, using(crate::proofs::Boards::cleared_whole))]
    pub fn settle(&mut self) -> Returned
        ensures bus { self.new ≡ after_settling self.old }
        ensures board { board_of self.new ≡ board_of self.old }
        ensures returned { result ≡ page_returned self.old.waiting self.old.pages }
    {
        // Who asks how many pages there are knows how many bytes they have.
        let _pages = self.map.len();
        match self.waiting {
            None => Returned::Nothing,
            Some(p) => {
                self.waiting = None;
                self.map.give(p)
            }
        }
    }

    /// A page that was never touched, or was given to the balloon, gets a frame of zeros.
    pub fn supply_zero(&mut self, p: Ppn, frame: Frame)
        requires settled { IsSettled self.old }
        requires there { p < length self.old.pages }
        requires kind { (kind_at self.old.pages p ≡ PageKind.Zero) ⊎ (kind_at self.old.pages p ≡ PageKind.Given) }
        requires zeros { frame.bytes ≡ zeros 4096 }
        ensures bus { self.new ≡ with_page p (Page.Private frame) self.old }
        ensures board { board_of self.new ≡ board_of self.old }
    {
        self.map.supply_zero(p, frame);
    }

    /// A shared page gets a frame of its own, into which its bytes are copied. Its ticket comes back.
    pub fn supply_copy(&mut self, p: Ppn, frame: Frame) -> ShareTicket
        requires settled { IsSettled self.old }
        requires there { p < length self.old.pages }
        requires kind { kind_at self.old.pages p ≡ PageKind.Shared }
        ensures bus { self.new ≡ with_page p (Page.Private (record { number = frame.number; bytes = shown (page_at self.old.pages p) })) self.old }
        ensures board { board_of self.new ≡ board_of self.old }
        ensures ticket { result ≡ ticket_of (page_at self.old.pages p) }
    {
        self.map.supply_copy(p, frame)
    }

    /// A swapped page gets a frame, whose bytes have the SHA-256 that was kept of it and are the page's from then on. Its
    /// slot comes back.
    pub fn supply_swapped(&mut self, p: Ppn, frame: Frame) -> SlotTicket
        requires settled { IsSettled self.old }
        requires there { p < length self.old.pages }
        requires kind { kind_at self.old.pages p ≡ PageKind.Swapped }
        requires digest { sha256 frame.bytes ≡ digest_of (page_at self.old.pages p) }
        ensures bus { self.new ≡ with_page p (Page.Private frame) self.old }
        ensures board { board_of self.new ≡ with_page_bytes p frame.bytes (board_of self.old) }
        ensures slot { result ≡ slot_of (page_at self.old.pages p) }
    {
        self.map.supply_swapped(p, frame)
    }

    /// A page that is in a frame leaves it for a slot, to which its bytes were written; `digest` is their SHA-256. Its frame
    /// comes back, or its ticket where the frame is shared. The board shows zeros until the page is supplied again.
    pub fn swap_out(&mut self, p: Ppn, slot: SlotTicket, digest: [u8; 32]) -> Returned
        requires settled { IsSettled self.old }
        requires there { p < length self.old.pages }
        requires resident { IsTrue (is_resident (kind_at self.old.pages p)) }
        requires digest { digest ≡ sha256 (shown (page_at self.old.pages p)) }
        ensures bus { self.new ≡ with_page p (Page.Swapped slot digest) self.old }
        ensures board { board_of self.new ≡ with_page_bytes p (zeros 4096) (board_of self.old) }
        ensures returned { result ≡ handed_back (page_at self.old.pages p) }
    {
        self.map.swap_out(p, slot, digest)
    }

    /// A page that was never touched is from then on in a slot, to which its bytes were written; `digest` is their SHA-256. The
    /// board shows zeros until the page is supplied.
    pub fn put_away(&mut self, p: Ppn, slot: SlotTicket, digest: [u8; 32])
        requires settled { IsSettled self.old }
        requires there { p < length self.old.pages }
        requires kind { kind_at self.old.pages p ≡ PageKind.Zero }
        ensures bus { self.new ≡ with_page p (Page.Swapped slot digest) self.old }
        ensures board { board_of self.new ≡ board_of self.old }
    {
        self.map.put_away(p, slot, digest);
    }

    /// A page leaves its own frame for a shared one of the same bytes, of which `ticket` is a ticket. Its frame comes back.
    pub fn share(&mut self, p: Ppn, share: SharePage, ticket: ShareTicket) -> Frame
        requires settled { IsSettled self.old }
        requires there { p < length self.old.pages }
        requires kind { kind_at self.old.pages p ≡ PageKind.Private }
        requires bytes { share.bytes ≡ shown (page_at self.old.pages p) }
        requires ticket { ticket ≡ share.number }
        ensures bus { self.new ≡ with_page p (Page.Shared share ticket) self.old }
        ensures board { board_of self.new ≡ board_of self.old }
        ensures frame { page_at self.old.pages p ≡ Page.Private result }
    {
        self.map.share(p, share, ticket)
    }

    /// A page's own frame becomes a shared one, and the page reads it with the one ticket that is out. `AllocError` where
    /// memory is refused, or no more tickets can be counted: bus and shares are as before then.
    pub fn admit(&mut self, p: Ppn, shares: &mut Shares) -> Result<(), AllocError>
        requires settled { IsSettled self.old }
        requires there { p < length self.old.pages }
        requires kind { kind_at self.old.pages p ≡ PageKind.Private }
        requires place { (own_frame (page_at self.old.pages p)).number < length shares.old.entries }
        requires vacant { entry_at shares.old.entries (own_frame (page_at self.old.pages p)).number ≡ None }
        requires first { HasDigest shares.old.entries (sha256 (shown (page_at self.old.pages p))) → ⊥ }
        ensures bus { OnOk result (self.new ≡ with_page p (page_of_entry (own_frame (page_at self.old.pages p))) self.old) }
        ensures board { board_of self.new ≡ board_of self.old }
        ensures entries { OnOk result (Admits shares.old.entries (own_frame (page_at self.old.pages p)) shares.new.entries) }
        ensures hints { shares.new.hints ≡ shares.old.hints }
        ensures unchanged { OnErr result (self.new ≡ self.old) }
        ensures shares_unchanged { OnErr result (shares.new ≡ shares.old) }
    {
        self.map.admit(p, shares)
    }

    /// Puts bytes into memory from an address on, each into a page that has a frame of its own, as the bytes of an image at
    /// boot. All else stays.
    pub fn fill(&mut self, at: PhysAddr, bytes: &[u8])
        requires settled { IsSettled self.old }
        requires inside { at + length bytes.now ≤ length self.old.pages * 4096 }
        requires private { (k : ℕ) → k < length bytes.now → kind_at self.old.pages (page_number (at + k)) ≡ PageKind.Private }
        ensures board { board_of self.new ≡ record (board_of self.old) { memory = patched (board_of self.old).memory at bytes.now (length bytes.now) } }
        ensures outline { outline self.new.pages ≡ outline self.old.pages }
        ensures settled { IsSettled self.new }
    {
        // Who asks how many pages there are knows that they are at most 2^20.
        let _pages = self.devices.pages();
        fill(&mut self.map, at, bytes);
    }
}
