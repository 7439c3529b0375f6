//! How a page leaves its place for another one: each call replaces one page and leaves all others.
ghost use Rattle.std.specs.Prelude.{◌≡◌, ◌*◌, ◌<◌, ◌⊎◌, IsTrue, None, OnErr, OnOk, length, slice_set};
ghost use Rattle.word32.specs.Words.{patched};
ghost use Rattle.word32.specs.Zeros.{zeros};
ghost use Rattle.frames.specs.Frames.{FrameIs};
ghost use Rattle.sha2.specs.Sha256.{sha256};
ghost use Rattle.sharetab.specs.Books.{Admits};
ghost use Rattle.sharetab.specs.Entries.{entry_at, HasDigest};
ghost use Rattle.guest_pages.specs.declared.page.PageKind.{PageKind};
ghost use Rattle.guest_pages.specs.Pages.{page_at, kind_at, is_resident, shown, memory_of, HasOwnTicket};
ghost use Rattle.guest_pages.specs.Pages.{own_frame, slot_of, digest_of, ticket_of, handed_back, page_of_entry};

use crate::{GuestPages, Page, Returned};
use frames::{Frame, SharePage, ShareTicket, SlotTicket};
use sharetab::Shares;
use std::alloc::AllocError;
use word32::Ppn;

impl GuestPages {
    /// A page that was never touched, or was given to the balloon, gets a frame of zeros.
    #[tactic(auto, using(crate::proofs::Replacing::memory_same, crate::proofs::Replacing::shows_zeros))]
    pub fn supply_zero(&mut self, p: Ppn, frame: Frame)
        requires there { p < length self.old }
        requires kind { (kind_at self.old p ≡ PageKind.Zero) ⊎ (kind_at self.old p ≡ PageKind.Given) }
        requires zeros { frame.bytes ≡ zeros 4096 }
        ensures pages { self.new ≡ slice_set self.old p (Page.Private frame) }
        ensures memory { memory_of self.new ≡ memory_of self.old }
    {
        match self.replace(p, Page::Private(frame)) {
            Page::Zero => {}
            Page::Given => {}
            _other => unreachable!(),
        }
    }

    /// A shared page gets a frame of its own, into which its bytes are copied. Its ticket comes back.
    #[tactic(auto, using(crate::proofs::Replacing::memory_same))]
    pub fn supply_copy(&mut self, p: Ppn, mut frame: Frame) -> ShareTicket
        requires there { p < length self.old }
        requires kind { kind_at self.old p ≡ PageKind.Shared }
        ensures pages { self.new ≡ slice_set self.old p (Page.Private (record { number = frame.number; bytes = shown (page_at self.old p) })) }
        ensures memory { memory_of self.new ≡ memory_of self.old }
        ensures ticket { result ≡ ticket_of (page_at self.old p) }
    {
        match self.peek(p) {
            Some(bytes) => frame.copy_from(bytes),
            None => unreachable!(),
        }
        match self.replace(p, Page::Private(frame)) {
            Page::Shared(_, ticket) => ticket,
            _other => unreachable!(),
        }
    }

    /// A swapped page gets a frame, whose bytes have the SHA-256 that was kept of it and are the page's from then on. Its
    /// slot comes back.
    pub fn supply_swapped(&mut self, p: Ppn, frame: Frame) -> SlotTicket
        requires there { p < length self.old }
        requires kind { kind_at self.old p ≡ PageKind.Swapped }
        requires digest { sha256 frame.bytes ≡ digest_of (page_at self.old p) }
        ensures pages { self.new ≡ slice_set self.old p (Page.Private frame) }
        ensures memory { memory_of self.new ≡ patched (memory_of self.old) (p * 4096) frame.bytes 4096 }
        ensures slot { result ≡ slot_of (page_at self.old p) }
    {
        match self.replace(p, Page::Private(frame)) {
            Page::Swapped(slot, _) => slot,
            _other => unreachable!(),
        }
    }

    /// A page that is in a frame leaves it for a slot, to which its bytes were written; `digest` is their SHA-256. Its frame
    /// comes back, or its ticket where the frame is shared. The page shows zeros until it is supplied again.
    pub fn swap_out(&mut self, p: Ppn, slot: SlotTicket, digest: [u8; 32]) -> Returned
        requires there { p < length self.old }
        requires resident { IsTrue (is_resident (kind_at self.old p)) }
        requires digest { digest ≡ sha256 (shown (page_at self.old p)) }
        ensures pages { self.new ≡ slice_set self.old p (Page.Swapped slot digest) }
        ensures memory { memory_of self.new ≡ patched (memory_of self.old) (p * 4096) (zeros 4096) 4096 }
        ensures returned { result ≡ handed_back (page_at self.old p) }
    {
        self.replace(p, Page::Swapped(slot, digest)).release()
    }

    /// A page that was never touched is from then on in a slot, to which its bytes were written; `digest` is their SHA-256. The
    /// page shows zeros until it is supplied.
    #[tactic(auto, using(crate::proofs::Replacing::memory_same, crate::proofs::Replacing::shows_zeros))]
    pub fn put_away(&mut self, p: Ppn, slot: SlotTicket, digest: [u8; 32])
        requires there { p < length self.old }
        requires kind { kind_at self.old p ≡ PageKind.Zero }
        ensures pages { self.new ≡ slice_set self.old p (Page.Swapped slot digest) }
        ensures memory { memory_of self.new ≡ memory_of self.old }
    {
        self.put_page(p, Page::Swapped(slot, digest));
    }

    /// A page leaves its own frame for a shared one of the same bytes, of which `ticket` is a ticket. Its frame comes back.
    #[tactic(auto, using(crate::proofs::Replacing::memory_same))]
    pub fn share(&mut self, p: Ppn, share: SharePage, ticket: ShareTicket) -> Frame
        requires there { p < length self.old }
        requires kind { kind_at self.old p ≡ PageKind.Private }
        requires bytes { share.bytes ≡ shown (page_at self.old p) }
        requires ticket { ticket ≡ share.number }
        ensures pages { self.new ≡ slice_set self.old p (Page.Shared share ticket) }
        ensures memory { memory_of self.new ≡ memory_of self.old }
        ensures frame { page_at self.old p ≡ Page.Private result }
    {
        match self.replace(p, Page::Shared(share, ticket)) {
            Page::Private(frame) => frame,
            _other => unreachable!(),
        }
    }

    // A page leaves its own frame, which comes back, and is as if it was never touched.
    fn take_frame(&mut self, p: Ppn) -> Frame
        requires there { p < length self.old }
        requires kind { kind_at self.old p ≡ PageKind.Private }
        ensures pages { self.new ≡ slice_set self.old p Page.Zero }
        ensures frame { page_at self.old p ≡ Page.Private result }
    {
        match self.replace(p, Page::Zero) {
            Page::Private(own) => own,
            _other => unreachable!(),
        }
    }

    // A page that was never touched becomes another.
    fn put_page(&mut self, p: Ppn, page: Page)
        requires there { p < length self.old }
        requires kind { kind_at self.old p ≡ PageKind.Zero }
        requires ticket { HasOwnTicket page }
        ensures pages { self.new ≡ slice_set self.old p page }
    {
        match self.replace(p, page) {
            Page::Zero => {}
            _other => unreachable!(),
        }
    }

    /// A page's own frame becomes a shared one, and the page reads it with the one ticket that is out. `AllocError` where
    /// memory is refused, or no more tickets can be counted: pages and shares are as before then.
    #[tactic(auto, using(crate::proofs::Replacing::memory_same, crate::proofs::Replacing::new_page, crate::proofs::Replacing::set_twice, crate::proofs::Replacing::set_back))]
    pub fn admit(&mut self, p: Ppn, shares: &mut Shares) -> Result<(), AllocError>
        requires there { p < length self.old }
        requires kind { kind_at self.old p ≡ PageKind.Private }
        requires place { (own_frame (page_at self.old p)).number < length shares.old.entries }
        requires vacant { entry_at shares.old.entries (own_frame (page_at self.old p)).number ≡ None }
        requires first { HasDigest shares.old.entries (sha256 (shown (page_at self.old p))) → ⊥ }
        ensures pages { OnOk result (self.new ≡ slice_set self.old p (page_of_entry (own_frame (page_at self.old p)))) }
        ensures memory { memory_of self.new ≡ memory_of self.old }
        ensures entries { OnOk result (Admits shares.old.entries (own_frame (page_at self.old p)) shares.new.entries) }
        ensures hints { shares.new.hints ≡ shares.old.hints }
        ensures unchanged { OnErr result (self.new ≡ self.old) }
        ensures shares_unchanged { OnErr result (shares.new ≡ shares.old) }
    {
        let frame = self.take_frame(p);
        match shares.admit(frame) {
            Ok((share, ticket)) => {
                self.put_page(p, Page::Shared(share, ticket));
                Ok(())
            }
            Err(frame) => {
                self.put_page(p, Page::Private(frame));
                Err(AllocError)
            }
        }
    }

    /// A page is given to the balloon: it is zeros from then on. What it held comes back.
    pub fn give(&mut self, p: Ppn) -> Returned
        requires { p < length self.old }
        ensures pages { self.new ≡ slice_set self.old p Page.Given }
        ensures memory { memory_of self.new ≡ patched (memory_of self.old) (p * 4096) (zeros 4096) 4096 }
        ensures returned { result ≡ handed_back (page_at self.old p) }
    {
        self.replace(p, Page::Given).release()
    }
}
