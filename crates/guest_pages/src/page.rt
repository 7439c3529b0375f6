//! A page of a guest.
ghost use Rattle.std.specs.Prelude.{◌≡◌, ◌↔◌, IsTrue, IfSome, IfNone, IsSome, length};
ghost use Rattle.word32.specs.Zeros.{zeros};
ghost use Rattle.guest_pages.specs.Pages.{kind_of, shown, is_resident, handed_back};

use frames::{Frame, SharePage, ShareTicket, SlotTicket};

/// Where a page is, without what it holds.
#[derive(Clone, Copy, Debug, PartialEq, Eq)]
pub enum PageKind {
    /// Never touched: the page is zeros, and has no frame yet.
    Zero,
    /// Given to the balloon: the page is zeros, and has no frame any more.
    Given,
    /// In a frame of its own.
    Private,
    /// In a frame that other pages read too.
    Shared,
    /// In a slot of the swap store.
    Swapped,
}

impl PageKind {
    /// Whether such a page is in a frame, its own or a shared one.
    #[inline(always)]
    pub fn is_resident(self) -> bool
        ensures { result ≡ is_resident self }
    {
        match self {
            PageKind::Private => true,
            PageKind::Shared => true,
            PageKind::Zero => false,
            PageKind::Given => false,
            PageKind::Swapped => false,
        }
    }
}

/// A page with what it holds.
pub enum Page {
    /// Never touched.
    Zero,
    /// Given to the balloon.
    Given,
    /// In a frame of its own, which can be written.
    Private(Frame),
    /// In a shared frame, which can only be read, with the ticket that the frame counts.
    Shared(SharePage, ShareTicket),
    /// In a slot of the swap store, with the SHA-256 of its 4,096 bytes.
    Swapped(SlotTicket, [u8; 32]),
}

/// What a page hands back as it leaves its place.
pub enum Returned {
    /// The page held nothing.
    Nothing,
    /// Its own frame, with its bytes.
    Frame(Frame),
    /// Its ticket of a shared frame.
    Ticket(ShareTicket),
    /// Its slot of the swap store.
    Slot(SlotTicket),
}

impl Page {
    /// Where the page is.
    #[inline(always)]
    pub fn kind(&self) -> PageKind
        ensures { result ≡ kind_of self.now }
    {
        match self {
            Page::Zero => PageKind::Zero,
            Page::Given => PageKind::Given,
            Page::Private(_) => PageKind::Private,
            Page::Shared(_, _) => PageKind::Shared,
            Page::Swapped(_, _) => PageKind::Swapped,
        }
    }

    /// The bytes of the page; None exactly where it is in no frame.
    #[inline(always)]
    #[tactic(auto, using(crate::proofs::Bytes::zeros_length))]
    pub fn bytes(&self) -> Option<&[u8]>
        ensures bytes { IfSome result (λ bytes. bytes.now ≡ shown self.now) }
        ensures length { length (shown self.now) ≡ 4096 }
        ensures resident { IsSome result ↔ IsTrue (is_resident (kind_of self.now)) }
        ensures zeros { IfNone result (shown self.now ≡ zeros 4096) }
    {
        // Two tests make shorter code than a match, which becomes a table of jumps.
        if let Page::Private(frame) = self {
            Some(frame.bytes())
        } else if let Page::Shared(share, _) = self {
            Some(share.bytes())
        } else {
            None
        }
    }

    /// What the page holds, to be handed on; the bytes of a shared page are left to the others.
    pub fn release(self) -> Returned
        ensures { result ≡ handed_back self }
    {
        match self {
            Page::Zero => Returned::Nothing,
            Page::Given => Returned::Nothing,
            Page::Private(frame) => Returned::Frame(frame),
            Page::Shared(_, ticket) => Returned::Ticket(ticket),
            Page::Swapped(slot, _) => Returned::Slot(slot),
        }
    }
}

impl Returned {
    /// Gives up what came back: the token's number stands nowhere from then on.
    pub fn close(self) {
        match self {
            Returned::Nothing => {}
            Returned::Frame(frame) => {
                let _number = frame.close();
            }
            Returned::Ticket(ticket) => {
                let _number = ticket.close();
            }
            Returned::Slot(slot) => {
                let _number = slot.close();
            }
        }
    }
}
