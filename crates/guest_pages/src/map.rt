//! The pages of a guest by their numbers.
ghost use Rattle.std.specs.Prelude.{◌≡◌, ℕ, ◌+◌, ◌*◌, ◌<◌, ◌≤◌, ◌^◌, ◌↔◌, IsTrue, IfOk, IfSome, IfNone, IsSome, length, replicate, slice_set, true};
ghost use Rattle.word32.specs.Words.{patched};
ghost use Rattle.guest_pages.specs.Pages.{page_at, kind_at, is_resident, NoneInFrame, shown, memory_of, HasOwnTicket, own_frame, slot_of, digest_of, ticket_of};
ghost use Rattle.guest_pages.specs.Holdings.{private_pages, shared_pages, swapped_pages, resident_pages};

use crate::counts::Counts;
use crate::residents::Residents;
use crate::{Page, PageKind};
use std::alloc::{AllocError, Global};
use std::marker::Model;
use std::mem;
use word32::Ppn;

/// The pages of a guest, that of number p at place p. In clauses it is the list of them, each a `Page`.
pub struct GuestPages {
    pub(crate) pages: Vec<Page>,
    counts: Counts,
    residents: Residents,
}

impl Model for GuestPages {
    ghost use Rattle.std.specs.Prelude.{List};
    ghost use Rattle.guest_pages.specs.declared.page.Page.{Page};
    ghost use Rattle.guest_pages.specs.Holdings.{AreCounted};

    ghost Value = { List Page };

    ghost view = { λ m. m.pages.items };

    ghost invariant = { λ m. AreCounted m.pages.items m.counts.private m.counts.shared m.counts.swapped m.residents };
}

impl GuestPages {
    /// So many pages, none of which was ever touched. `AllocError` where there is no memory for the list of them, or for what tells
    /// quickly which of them are in a frame.
    #[tactic(auto, using(crate::proofs::Replacing::zero_pages_are_whole, crate::proofs::Replacing::zero_pages_have_no_ticket, crate::proofs::Holdings::none_private, crate::proofs::Holdings::none_shared, crate::proofs::Holdings::none_swapped, crate::proofs::Marking::none_marked))]
    pub fn new(alloc: Global, count: u32) -> Result<GuestPages, AllocError>
        ensures { IfOk result (λ map. map ≡ replicate count Page.Zero) }
    {
        let residents = Residents::new(alloc, count)?;
        let mut pages = Vec::with_capacity(alloc, count as usize)?;
        for _page in 0..count {
            pages.push_reserved(Page::Zero);
        }
        let counts = Counts {
            private: 0,
            shared: 0,
            swapped: 0,
        };
        Ok(GuestPages {
            pages,
            counts,
            residents,
        })
    }

    /// How many pages there are; each has 4,096 bytes of the memory.
    #[tactic(auto, using(crate::proofs::Memory::length_of_memory))]
    pub fn len(&self) -> u32
        ensures pages { result ≡ length self.now }
        ensures memory { length (memory_of self.now) ≡ length self.now * 4096 }
    {
        self.pages.len() as u32
    }

    /// Where a page is.
    #[inline(always)]
    pub fn kind(&self, p: Ppn) -> PageKind
        requires { p < length self.now }
        ensures { result ≡ kind_at self.now p }
    {
        self.pages[p.number() as usize].kind()
    }

    /// The bytes of a page, which has 4,096; None exactly where it is in no frame.
    #[inline(always)]
    pub fn peek(&self, p: Ppn) -> Option<&[u8]>
        requires { p < length self.now }
        ensures bytes { IfSome result (λ bytes. bytes.now ≡ shown (page_at self.now p)) }
        ensures length { length (shown (page_at self.now p)) ≡ 4096 }
        ensures resident { IsSome result ↔ IsTrue (is_resident (kind_at self.now p)) }
    {
        self.pages[p.number() as usize].bytes()
    }

    /// The number of the slot that a swapped page is in, and the SHA-256 of its bytes.
    pub fn away(&self, p: Ppn) -> (u32, [u8; 32])
        requires there { p < length self.now }
        requires swapped { kind_at self.now p ≡ PageKind.Swapped }
        ensures slot { result.0 ≡ slot_of (page_at self.now p) }
        ensures digest { result.1 ≡ digest_of (page_at self.now p) }
    {
        match &self.pages[p.number() as usize] {
            Page::Swapped(slot, digest) => (slot.number(), *digest),
            _other => unreachable!(),
        }
    }

    /// The number of the frame that a page has for its own.
    pub fn own_frame(&self, p: Ppn) -> u32
        requires there { p < length self.now }
        requires private { kind_at self.now p ≡ PageKind.Private }
        ensures { result ≡ (own_frame (page_at self.now p)).number }
    {
        match &self.pages[p.number() as usize] {
            Page::Private(frame) => frame.number(),
            _other => unreachable!(),
        }
    }

    /// The number of the shared frame that a page reads, which is also its ticket's.
    pub fn shared_frame(&self, p: Ppn) -> u32
        requires there { p < length self.now }
        requires shared { kind_at self.now p ≡ PageKind.Shared }
        ensures { result ≡ ticket_of (page_at self.now p) }
    {
        match &self.pages[p.number() as usize] {
            Page::Shared(share, _) => share.number(),
            _other => unreachable!(),
        }
    }

    /// How many pages are in a frame of their own.
    pub fn private(&self) -> u32
        ensures { result ≡ private_pages self.now }
    {
        self.counts.private
    }

    /// How many pages are in a shared frame.
    pub fn shared(&self) -> u32
        ensures { result ≡ shared_pages self.now }
    {
        self.counts.shared
    }

    /// How many pages are in a slot of the swap store.
    pub fn swapped(&self) -> u32
        ensures { result ≡ swapped_pages self.now }
    {
        self.counts.swapped
    }

    /// How many pages are in a frame, their own or a shared one.
    #[tactic(auto, using(crate::proofs::Holdings::counts_fit))]
    pub fn resident(&self) -> u32
        ensures value { result ≡ resident_pages self.now }
        ensures within { result ≤ length self.now }
    {
        self.counts.private + self.counts.shared
    }

    /// The first page from a number on that is in a frame, its own or a shared one; None where there is none. It looks at no page: each has
    /// a bit, 64 of them in a word, and each word has a bit, set where it is not 0. Of these words it looks at two, and at one for each
    /// 4,096 pages that it passes over: at 258 words at most.
    pub fn next_resident(&self, from: u32) -> Option<Ppn>
        requires { length self.now ≤ 2 ^ 20 }
        ensures within { IfSome result (λ p. (from ≤ p) × (p < length self.now)) }
        ensures resident { IfSome result (λ p. is_resident (kind_at self.now p) ≡ true) }
        ensures first { IfSome result (λ p. NoneInFrame self.now from p) }
        ensures none { IfNone result (NoneInFrame self.now from (length self.now)) }
    {
        match self.residents.next(from as usize) {
            Some(p) => Some(Ppn::new(p as u32)),
            None => None,
        }
    }

    // Replaces a page; what it was comes back.
    #[tactic(auto, using(crate::proofs::Replacing::memory_patched, crate::proofs::Replacing::whole_set, crate::proofs::Replacing::tickets_set, crate::proofs::Holdings::private_set, crate::proofs::Holdings::shared_set, crate::proofs::Holdings::swapped_set, crate::proofs::Holdings::private_counted, crate::proofs::Holdings::shared_counted, crate::proofs::Holdings::swapped_counted, crate::proofs::Holdings::counts_fit_set, crate::proofs::Marking::marked_set))]
    pub(crate) fn replace(&mut self, p: Ppn, page: Page) -> Page
        requires there { p < length self.old }
        requires ticket { HasOwnTicket page }
        ensures pages { self.new ≡ slice_set self.old p page }
        ensures memory { memory_of self.new ≡ patched (memory_of self.old) (p * 4096) (shown page) 4096 }
        ensures old { result ≡ page_at self.old p }
    {
        let place = p.number() as usize;
        // Who asks for a page's bytes knows how many there are.
        let _bytes = page.bytes();
        self.counts = self.counts.without(&self.pages[place]).with(&page);
        self.residents.put(place, page.kind().is_resident());
        mem::replace(&mut self.pages[place], page)
    }

    /// Gives the map up, and with it what its pages hold.
    pub fn close(self) {
        let GuestPages {
            mut pages,
            counts: _,
            residents,
        } = self;
        drop(residents);
        while let Some(page) = pages.pop() {
            page.release().close();
        }
        pages.destroy_empty();
    }
}
