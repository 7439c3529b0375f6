//! The pages of a guest, which leave their places for others while all else of the guest stays.
ghost use Rattle.guest.specs.Guests.{without_pages};

use crate::Guest;
use frames::{Frame, SharePage, ShareTicket, SlotTicket};
use guest_pages::{PageKind, Returned};
use machine::Ppn;
use page_moves::Pages;
use sharetab::Shares;
use std::alloc::AllocError;

impl Pages for Guest {
    type Rest = Guest;

    ghost pages = { λ g. g.bus.pages };

    ghost rest = { without_pages };

    fn count(&self) -> u32 {
        self.bus.pages()
    }

    fn kind(&self, p: Ppn) -> PageKind {
        self.bus.kind(p)
    }

    fn peek(&self, p: Ppn) -> Option<&[u8]> {
        self.bus.peek_page(p)
    }

    fn away(&self, p: Ppn) -> (u32, [u8; 32]) {
        self.bus.away(p)
    }

    fn own_frame(&self, p: Ppn) -> u32 {
        self.bus.own_frame(p)
    }

    fn supply_zero(&mut self, p: Ppn, frame: Frame) {
        self.bus.supply_zero(p, frame);
    }

    fn supply_copy(&mut self, p: Ppn, frame: Frame) -> ShareTicket {
        self.bus.supply_copy(p, frame)
    }

    fn supply_swapped(&mut self, p: Ppn, frame: Frame) -> SlotTicket {
        self.bus.supply_swapped(p, frame)
    }

    fn swap_out(&mut self, p: Ppn, slot: SlotTicket, digest: [u8; 32]) -> Returned {
        self.bus.swap_out(p, slot, digest)
    }

    fn put_away(&mut self, p: Ppn, slot: SlotTicket, digest: [u8; 32]) {
        self.bus.put_away(p, slot, digest);
    }

    fn share(&mut self, p: Ppn, share: SharePage, ticket: ShareTicket) -> Frame {
        self.bus.share(p, share, ticket)
    }

    fn admit(&mut self, p: Ppn, shares: &mut Shares) -> Result<(), AllocError> {
        self.bus.admit(p, shares)
    }
}
