//! What a page that was given to the balloon handed back.
use crate::{MachineMemory, Stake};
use frames::{FrameNo, ShareTicket, SlotTicket};
use guest_pages::Returned;
use lent_pages::{frame_returned, nothing_returned, slot_returned, ticket_returned};
use page_moves::Pages;
use std::sync::Wait;
use swapstore::SwapStore;

impl<S: SwapStore + Drop> MachineMemory<S> {
    ghost use Rattle.std.specs.Prelude.{◌≡◌, ℕ, List, []};
    ghost use Rattle.std.specs.Option.{option_to_list};
    ghost use Rattle.guest_pages.specs.declared.page.Returned.{Returned};
    ghost use Rattle.page_moves.specs.Faith.{Kept};
    ghost use Rattle.lent_pages.specs.Contents.{its_slots};
    ghost use Rattle.machine_memory.specs.Memories.{HasInHand, IsLevel};
    ghost use Rattle.machine_memory.specs.Returns.{Lags};
    ghost use Rattle.machine_memory.specs.Frames.{HaveComeBack, KeepsEachFrameBack};

    // The ticket of a page that was given to the balloon goes back to its entry, under the table's lock.
    fn ticket_back<P: Pages, R: Wait>(
        &self,
        rt: &R,
        stake: &mut Stake,
        pages: &P,
        ticket: ShareTicket,
    ) -> Option<FrameNo>
        requires { Lags self.now stake.old (Returned.Ticket ticket) (P.pages pages.now) }
        ensures hand { HasInHand self.now stake.new (P.pages pages.now) (option_to_list result) }
        ensures pass { stake.new.pass ≡ stake.old.pass }
        ensures contents { stake.new.contents ≡ stake.old.contents }
        ensures frames { HaveComeBack self.now.books.id stake.old.share (Returned.Ticket ticket) (P.pages pages.now) (option_to_list result) }
    {
        let (mut table, loan) = self.table.take(rt);
        let hand = ticket_returned(&self.books, &mut stake.share, pages, ticket, &mut table);
        self.table.put_back(table, loan);
        hand
    }

    // The slot of a page that was given to the balloon is free, under the swap book's lock.
    fn slot_back<P: Pages, R: Wait>(&self, rt: &R, stake: &mut Stake, pages: &P, slot: SlotTicket)
        requires { Lags self.now stake.old (Returned.Slot slot) (P.pages pages.now) }
        ensures level { IsLevel self.now stake.new (P.pages pages.now) }
        ensures pass { stake.new.pass ≡ stake.old.pass }
        ensures kept { (view : ℕ → List ℕ) → Kept (its_slots stake.old.contents) view (P.pages pages.now) → Kept (its_slots stake.new.contents) view (P.pages pages.now) }
        ensures frames { HaveComeBack self.now.books.id stake.old.share (Returned.Slot slot) (P.pages pages.now) [] }
    {
        let (mut swap, loan) = self.swap.take(rt);
        slot_returned(
            &self.books,
            &self.contents,
            &mut stake.share,
            &mut stake.contents,
            pages,
            slot,
            &mut swap,
            &self.swap,
        );
        self.swap.put_back(swap, loan);
    }

    // What a page that was given to the balloon handed back comes back, but for a frame that came free, which is in hand.
    fn back<P: Pages, R: Wait>(
        &self,
        rt: &R,
        stake: &mut Stake,
        pages: &P,
        returned: Returned,
    ) -> Option<FrameNo>
        requires { Lags self.now stake.old returned (P.pages pages.now) }
        ensures hand { HasInHand self.now stake.new (P.pages pages.now) (option_to_list result) }
        ensures pass { stake.new.pass ≡ stake.old.pass }
        ensures kept { (view : ℕ → List ℕ) → Kept (its_slots stake.old.contents) view (P.pages pages.now) → Kept (its_slots stake.new.contents) view (P.pages pages.now) }
        ensures frames { HaveComeBack self.now.books.id stake.old.share returned (P.pages pages.now) (option_to_list result) }
    {
        match returned {
            Returned::Nothing => {
                nothing_returned(&self.books, &mut stake.share, pages);
                None
            }
            Returned::Frame(frame) => frame_returned(&self.books, &mut stake.share, pages, frame),
            Returned::Ticket(ticket) => self.ticket_back(rt, stake, pages, ticket),
            Returned::Slot(slot) => {
                self.slot_back(rt, stake, pages, slot);
                None
            }
        }
    }

    /// What a page that was given to the balloon handed back goes where it belongs: a frame to the pool; a ticket to its entry, under the
    /// table's lock, and the entry's frame to the pool where that was the last ticket; a slot to the free slots, under the swap book's
    /// lock. The stake, which lagged behind the pages until then, is level.
    pub fn give_back<P: Pages, R: Wait>(
        &self,
        rt: &R,
        stake: &mut Stake,
        pages: &P,
        returned: Returned,
    )
        requires { Lags self.now stake.old returned (P.pages pages.now) }
        ensures level { IsLevel self.now stake.new (P.pages pages.now) }
        ensures kept { (view : ℕ → List ℕ) → Kept (its_slots stake.old.contents) view (P.pages pages.now) → Kept (its_slots stake.new.contents) view (P.pages pages.now) }
        ensures frames { KeepsEachFrameBack self.now.books.id stake.old.share returned stake.old.pass (P.pages pages.now) stake.new.pass }
    {
        let hand = self.back(rt, stake, pages, returned);
        self.give(rt, stake, pages, hand);
    }
}
