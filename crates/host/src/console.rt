//! The calls of those who keep a guest's console and balloon.
use crate::Host;
use crate::places::cell_of;
use cell::{Gate, Seat};
use console_queue::FeedPass;
use guest::Stop;
use guest_number::GuestNo;
use std::sync::Wait;
use swapstore::SwapStore;

impl<S: SwapStore + Drop, G: Gate + Drop> Host<S, G> {
    ghost use Rattle.std.specs.Prelude.{◌≡◌, ◌<◌, ◌≤◌, ◌++◌, true, Some, IfOk, OnOk, OnErr, IsErrOf, length, take};
    ghost use Rattle.items.specs.declared.item.What.TheVariants as what;
    ghost use Rattle.seated.specs.Acts.{Sees};
    ghost use Rattle.console_queue.specs.Queues.{WasFull};
    ghost use Rattle.cell.specs.Sitting.{IsOf, Lasts, Answers, Happens, IsFullOf};
    ghost use Rattle.host.specs.Places.{AtGuest};

    /// Puts bytes for a guest's console, the first of them first, and answers how many it put: fewer than all only where 1,024 of them
    /// waited at a moment of the call. It takes no lock.
    pub fn feed<R: Wait>(&self, rt: &R, guest: GuestNo, feed: &mut FeedPass, bytes: &[u8]) -> usize
        requires guest { guest < length self.now.guests.cells.items }
        requires of { AtGuest self.now.guests.cells.items guest (λ front. feed.old.queue ≡ front.queue.id) }
        ensures at_most { result ≤ length bytes.now }
        ensures put { feed.new ≡ record feed.old { put = feed.old.put ++ take result bytes.now } }
        ensures full { result < length bytes.now → AtGuest self.now.guests.cells.items guest (λ front. WasFull front.queue.room feed.new.put) }
    {
        cell_of(&self.guests, guest).feed(rt, feed, bytes)
    }

    /// Takes the output of a guest's console, as an item of the seat: that of the machine after the log as it was found. `LogFull` where the
    /// log has its greatest number of runs or 2^62 items, `Memory` where a request for memory was refused: nothing is taken then.
    pub fn drain<R: Wait>(&self, rt: &R, guest: GuestNo, seat: &mut Seat) -> Result<Vec<u8>, Stop>
        requires guest { guest < length self.now.guests.cells.items }
        requires of { AtGuest self.now.guests.cells.items guest (λ front. IsOf front seat.old) }
        ensures of { AtGuest self.now.guests.cells.items guest (λ front. IsOf front seat.new) }
        ensures lasts { Lasts seat.old seat.new }
        ensures lasts_with_store { S.true_to_digests self.now.guests.memory.first → seat.new.witness.held ≡ true }
        ensures ok { IfOk result (λ bytes. AtGuest self.now.guests.cells.items guest
            (λ front. Answers front seat.old (record { seat = seat.old.seat.number; what = what.Drain }) seat.new (Some bytes.items))) }
        ensures err { OnErr result (Sees seat.old.seat seat.new.seat) }
        ensures full { IsErrOf result Stop.LogFull → AtGuest self.now.guests.cells.items guest (λ front. IsFullOf front seat.new.seat.saw) }
    {
        cell_of(&self.guests, guest).drain(rt, seat)
    }

    /// Sets how many pages a guest's balloon is asked to hold, as an item of the seat. The errors are those of `drain`.
    pub fn set_target<R: Wait>(
        &self,
        rt: &R,
        guest: GuestNo,
        seat: &mut Seat,
        pages: u32,
    ) -> Result<(), Stop>
        requires guest { guest < length self.now.guests.cells.items }
        requires of { AtGuest self.now.guests.cells.items guest (λ front. IsOf front seat.old) }
        ensures of { AtGuest self.now.guests.cells.items guest (λ front. IsOf front seat.new) }
        ensures lasts { Lasts seat.old seat.new }
        ensures lasts_with_store { S.true_to_digests self.now.guests.memory.first → seat.new.witness.held ≡ true }
        ensures ok { OnOk result (AtGuest self.now.guests.cells.items guest
            (λ front. Happens front seat.old (record { seat = seat.old.seat.number; what = what.Target pages }) seat.new)) }
        ensures err { OnErr result (Sees seat.old.seat seat.new.seat) }
        ensures full { IsErrOf result Stop.LogFull → AtGuest self.now.guests.cells.items guest (λ front. IsFullOf front seat.new.seat.saw) }
    {
        cell_of(&self.guests, guest).set_target(rt, seat, pages)
    }

    /// How long the log of a guest is that the seat has then seen. It waits for nobody.
    pub fn seen(&self, guest: GuestNo, seat: &mut Seat) -> u64
        requires guest { guest < length self.now.guests.cells.items }
        requires of { AtGuest self.now.guests.cells.items guest (λ front. IsOf front seat.old) }
        ensures of { AtGuest self.now.guests.cells.items guest (λ front. IsOf front seat.new) }
        ensures witness { seat.new.witness ≡ seat.old.witness }
        ensures sees { Sees seat.old.seat seat.new.seat }
        ensures length { result ≡ length seat.new.seat.saw }
    {
        cell_of(&self.guests, guest).seen(seat)
    }
}
