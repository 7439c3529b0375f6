//! Console input that can't be refused.
ghost use Rattle.std.specs.Prelude.{◌≡◌};

use crate::{Guest, Seat, Stop};
use items::{Item, What};

impl Guest {
    ghost use Rattle.std.specs.Prelude.{◌≡◌, ◌↔◌, ℕ, true, List, Option, OnOk, IsErrOf};
    ghost use Rattle.items.specs.declared.item.What.TheVariants.{In};
    ghost use Rattle.devices.specs.Devices.{device_input_fed};
    ghost use Rattle.machine.specs.Items.{accepts, after};
    ghost use Rattle.guest_log.specs.Logs.{HasItemRoom, IsFull, TakesRoom};
    ghost use Rattle.guest_log.specs.declared.stop.Stop.{Stop};
    ghost use Rattle.page_moves.specs.Faith.{Kept};
    ghost use Rattle.guest.specs.Guests.{view_of, standing, Intact, Logs, LogsOnly};
    ghost use Rattle.guest.specs.Views.{pages_seen};

    /// Makes room in the log for one more item that is no step, as `take_in` wants it. All else stays, and the room becomes at most that
    /// for as many more runs as there are, and 16.
    ///
    /// It answers `LogFull` exactly where the log has its greatest number of runs or 2^62 items, and `Memory` only where a
    /// request for memory was refused.
    pub fn item_room(&mut self) -> Result<(), Stop>
        ensures room { OnOk result (HasItemRoom self.new.log) }
        ensures full { IsErrOf result Stop.LogFull ↔ IsFull self.old.log }
        ensures taken { TakesRoom self.old.log self.new.log }
        ensures unchanged { LogsOnly self.old self.new }
        ensures intact { Intact self.old → Intact self.new }
        ensures kept { (held : ℕ → Option (List ℕ)) →
            Kept held (pages_seen (view_of self.old)) self.old.bus.pages → Kept held (pages_seen (view_of self.new)) self.new.bus.pages }
    {
        self.owned_log.make_item_room()
    }

    /// A byte of console input, as an item of the seat. It takes no memory and can't be refused: room in the log, which `item_room` makes,
    /// and room in the console, for which `Devices::has_input_room` of the `view` is the test, are the caller's condition.
    ///
    /// The view has moved by the item, and the log has it more; the seat has made it and has seen the whole log, for which it is
    /// legal, and so may every other that looks from now on. Processor and pages stay.
    pub fn take_in(&mut self, byte: u8, seat: &mut Seat)
        requires head { seat.old.head ≡ self.old.head }
        requires room { HasItemRoom self.old.log }
        requires accepted { accepts (In byte) (standing self.old) ≡ true }
        ensures logs { Logs self.old seat.old (record { seat = seat.old.number; what = In byte }) self.new seat.new }
        ensures moves { view_of self.new ≡ after (In byte) (view_of self.old) }
        ensures accepted { Intact self.old → accepts (In byte) (view_of self.old) ≡ true }
        ensures cpu { self.new.cpu ≡ self.old.cpu }
        ensures bus { self.new.bus ≡ record self.old.bus { devices = device_input_fed byte self.old.bus.devices } }
        ensures intact { Intact self.old → Intact self.new }
        ensures kept { (held : ℕ → Option (List ℕ)) →
            Kept held (pages_seen (view_of self.old)) self.old.bus.pages → Kept held (pages_seen (view_of self.new)) self.new.bus.pages }
    {
        self.bus.take_in(byte);
        let item = Item {
            seat: seat.number(),
            what: What::In(byte),
        };
        self.owned_log.add(item, seat);
    }
}
