//! The calls.
ghost use Rattle.std.specs.Prelude.{◌≡◌, ◌≢◌, ◌<◌, ◌≤◌, ◌+◌, ◌∷◌, ◌↔◌, ℕ, List, Option, true, false, [], None, Some, OnOk, OnErr, IfOk, IsErrOf, length};
ghost use Rattle.items.specs.Items.{is_step};
ghost use Rattle.items.specs.Entries.{steps_of};
ghost use Rattle.mips_tlb.specs.declared.kind.Kind.TheVariants.{Store};
ghost use Rattle.machine.specs.Accesses.{accesses, first_lack};
ghost use Rattle.machine.specs.Given.{step_given};
ghost use Rattle.machine.specs.declared.access.Why.{Why};
ghost use Rattle.machine.specs.Answers.{replied};
ghost use Rattle.machine.specs.Items.{accepts, after, reply, run};
ghost use Rattle.machine.specs.Replies.{bytes_at, SomePlaceIn};
ghost use Rattle.items.specs.declared.item.What.TheVariants.{In};
ghost use Rattle.devices.specs.Devices.{device_input_fed};
ghost use Rattle.guest_log.specs.Logs.{HasItemRoom, IsFull};
ghost use Rattle.guest_log.specs.declared.stop.Stop.{Stop};
ghost use Rattle.guest_pages.specs.declared.page.Returned.{Returned};
ghost use Rattle.guest_pages.specs.declared.page.PageKind.{PageKind};
ghost use Rattle.guest_pages.specs.Pages.{kind_at};
ghost use Rattle.guest_pages.specs.Outline.{outline};
ghost use Rattle.page_moves.specs.Faith.{Kept};
ghost use Rattle.guest_bus.specs.Lacking.{lacks_in};
ghost use Rattle.guest_bus.specs.Writes.{WritesTo};
ghost use Rattle.guest.specs.declared.progress.Pause.{Pause};
ghost use Rattle.guest.specs.Guests.{view_of, standing, Intact, HasPaused, last_given};
ghost use Rattle.guest.specs.Views.{pages_seen};
ghost use Rattle.seated.specs.Acts.{Acts, Sees, Stays};

use guest::{Guest, Progress, Refused, Seat, Stop};
use items::Item;
use machine::Reply;

/// At most `count` steps of the guest, with room made for them in the log, by `Guest::log_room` and `Guest::run`: none of them
/// accesses a page that is lacking, and only the last may give one.
///
/// It answers `LogFull` exactly where the log has its greatest number of runs or 2^62 items, and `Memory` only where a request for
/// memory was refused: no step was made then, and the seat has seen the log.
#[tactic(auto, using(crate::proofs::Seeing::sees))]
pub fn run(guest: &mut Guest, seat: &mut Seat, count: u32) -> Result<Progress, Stop>
    requires { seat.old.head ≡ guest.old.head }
    ensures acts { IfOk result (λ p. Acts seat.old guest.old.log.items (steps_of seat.old.number p.steps) seat.new) }
    ensures refused { OnErr result (Sees seat.old seat.new) }
    ensures saw { seat.new.saw ≡ guest.new.log.items }
    ensures moves { IfOk result (λ p. view_of guest.new ≡ run (steps_of seat.old.number p.steps) (view_of guest.old)) }
    ensures unmoved { OnErr result ((guest.new.log.items ≡ guest.old.log.items) × (guest.new.bus ≡ guest.old.bus)) }
    ensures stays { Stays guest.old guest.new }
    ensures intact { Intact guest.old → Intact guest.new }
    ensures kept { Intact guest.old → (held : ℕ → Option (List ℕ)) →
        Kept held (pages_seen (view_of guest.old)) guest.old.bus.pages → Kept held (pages_seen (view_of guest.new)) guest.new.bus.pages }
    ensures few { IfOk result (λ p. p.steps ≤ count) }
    ensures some { IfOk result (λ p. p.pause ≡ None → 0 < count → 0 < p.steps) }
    ensures gave { IfOk result (λ p. (returned : Returned) → p.pause ≡ Some (Pause.Gave returned) → 0 < p.steps) }
    ensures need { Intact guest.old → IfOk result (λ p. (page : ℕ) (why : Why) → p.pause ≡ Some (Pause.Need page why) →
        first_lack (lacks_in guest.new.bus.pages) (accesses (view_of guest.new)) ≡ Some (page, why)) }
    ensures there { IfOk result (λ p. (page : ℕ) (why : Why) → p.pause ≡ Some (Pause.Need page why) → page < length guest.old.bus.pages) }
    ensures short { IfOk result (λ p. (page : ℕ) (why : Why) → p.pause ≡ Some (Pause.Need page why) → p.steps < count) }
    ensures room { IfOk result (λ p. (page : ℕ) (why : Why) → p.pause ≡ Some (Pause.Need page why) → IsFull guest.new.log → ⊥) }
    ensures quiet { Intact guest.old → IfOk result (λ p. (k : ℕ) → k < p.steps →
        first_lack (lacks_in guest.old.bus.pages) (accesses (run (steps_of seat.old.number k) (view_of guest.old))) ≡ None) }
    ensures gives_last { Intact guest.old → IfOk result (λ p. (k : ℕ) → k + 1 < p.steps →
        step_given (run (steps_of seat.old.number k) (view_of guest.old)) ≡ None) }
    ensures paused { IfOk result (λ p. HasPaused (last_given seat.old.number p.steps (standing guest.old)) guest.old.bus.pages p.pause guest.new.bus.pages) }
    ensures full { IsErrOf result Stop.LogFull ↔ IsFull guest.old.log }
{
    if let Err(stop) = guest.log_room() {
        guest.settle(seat);
        return Err(stop);
    }
    let progress = guest.run(count, seat);
    if progress.steps == 0 {
        guest.settle(seat);
    }
    Ok(progress)
}

/// What happens to the guest by an item of the seat that is no step, as `Guest::input` has it. Where it is refused, the seat has
/// seen the log for which it is.
#[tactic(auto, using(crate::proofs::Seeing::sees, crate::proofs::Seeing::acts))]
pub fn input(guest: &mut Guest, seat: &mut Seat, item: Item) -> Result<Reply, Refused>
    requires head { seat.old.head ≡ guest.old.head }
    requires seat { item.seat ≡ seat.old.number }
    requires input { is_step item.what ≡ false }
    ensures acts { OnOk result (Acts seat.old guest.old.log.items (item ∷ []) seat.new) }
    ensures refused { OnErr result (Sees seat.old seat.new) }
    ensures saw { seat.new.saw ≡ guest.new.log.items }
    ensures moves { OnOk result (view_of guest.new ≡ after item.what (view_of guest.old)) }
    ensures unmoved { OnErr result ((guest.new.log.items ≡ guest.old.log.items) × (guest.new.bus ≡ guest.old.bus)) }
    ensures stays { Stays guest.old guest.new }
    ensures intact { Intact guest.old → Intact guest.new }
    ensures kept { Intact guest.old → (held : ℕ → Option (List ℕ)) →
        Kept held (pages_seen (view_of guest.old)) guest.old.bus.pages → Kept held (pages_seen (view_of guest.new)) guest.new.bus.pages }
    ensures accepted { OnOk result (Intact guest.old → accepts item.what (view_of guest.old) ≡ true) }
    ensures reply { IfOk result (λ r. Intact guest.old → replied r ≡ reply item.what (view_of guest.old)) }
    ensures machine { IsErrOf result Refused.Machine → Intact guest.old → accepts item.what (view_of guest.old) ≡ false }
    ensures away { (page : ℕ) → IsErrOf result (Refused.Away page) → lacks_in guest.old.bus.pages page Store ≢ None }
    ensures its_page { (page : ℕ) → IsErrOf result (Refused.Away page) → WritesTo item.what (standing guest.old) page }
    ensures outline { outline guest.new.bus.pages ≡ outline guest.old.bus.pages }
    ensures full { IsErrOf result (Refused.Stop Stop.LogFull) ↔ IsFull guest.old.log }
{
    match guest.input(item, seat) {
        Ok(reply) => Ok(reply),
        Err(refused) => {
            guest.settle(seat);
            Err(refused)
        }
    }
}

/// A byte of console input, as an item of the seat, which can't be refused: room in the log, which `Guest::item_room` makes, and room in the
/// console, for which `Devices::has_input_room` of the guest's view is the test, are the caller's condition.
#[tactic(auto, using(crate::proofs::Seeing::acts))]
pub fn take_in(guest: &mut Guest, seat: &mut Seat, byte: u8)
    requires head { seat.old.head ≡ guest.old.head }
    requires room { HasItemRoom guest.old.log }
    requires accepted { accepts (In byte) (standing guest.old) ≡ true }
    ensures acts { Acts seat.old guest.old.log.items (record { seat = seat.old.number; what = In byte } ∷ []) seat.new }
    ensures saw { seat.new.saw ≡ guest.new.log.items }
    ensures moves { view_of guest.new ≡ after (In byte) (view_of guest.old) }
    ensures stays { Stays guest.old guest.new }
    ensures intact { Intact guest.old → Intact guest.new }
    ensures kept { (held : ℕ → Option (List ℕ)) →
        Kept held (pages_seen (view_of guest.old)) guest.old.bus.pages → Kept held (pages_seen (view_of guest.new)) guest.new.bus.pages }
    ensures bus { guest.new.bus ≡ record guest.old.bus { devices = device_input_fed byte guest.old.bus.devices } }
{
    guest.take_in(byte, seat);
}

/// Reads as many bytes of the view's memory as `bytes` has, as `Guest::debug_read` has it. The view is that of the log that the seat
/// has seen then.
#[tactic(auto, using(crate::proofs::Seeing::sees))]
pub fn read(
    guest: &mut Guest,
    seat: &mut Seat,
    address: u32,
    bytes: &mut [u8],
) -> Result<(), Refused>
    requires head { seat.old.head ≡ guest.old.head }
    ensures sees { Sees seat.old seat.new }
    ensures saw { seat.new.saw ≡ guest.old.log.items }
    ensures guest { guest.new ≡ guest.old }
    ensures read { OnOk result (Intact guest.old → bytes_at (view_of guest.old) address (length bytes.old) ≡ Some bytes.new) }
    ensures refused { Intact guest.old → (IsErrOf result Refused.Machine ↔ (bytes_at (view_of guest.old) address (length bytes.old) ≡ None)) }
    ensures away { (page : ℕ) → IsErrOf result (Refused.Away page) → kind_at guest.old.bus.pages page ≡ PageKind.Swapped }
    ensures placed_in { (page : ℕ) → IsErrOf result (Refused.Away page) → SomePlaceIn (standing guest.old) address (length bytes.old) page }
    ensures never_stops { (stop : Stop) → IsErrOf result (Refused.Stop stop) → ⊥ }
    ensures unchanged { OnErr result (bytes.new ≡ bytes.old) }
{
    guest.settle(seat);
    guest.debug_read(address, bytes)
}

/// Shows the seat the whole log.
#[tactic(auto, using(crate::proofs::Seeing::sees))]
pub fn seen(guest: &mut Guest, seat: &mut Seat)
    requires head { seat.old.head ≡ guest.old.head }
    ensures sees { Sees seat.old seat.new }
    ensures saw { seat.new.saw ≡ guest.old.log.items }
    ensures guest { guest.new ≡ guest.old }
{
    guest.settle(seat);
}
