//! A turn of a slice: the console's input, and then steps, with the guest's lock held.
ghost use Rattle.std.specs.Prelude.{◌≡◌, ◌<◌, ◌≤◌, ◌∷◌, ℕ, List, [], true, Option, Some, OnErr, IfOk, IsErrOf, length};
ghost use Rattle.guest_log.specs.Logs.{IsFull};
ghost use Rattle.guest_log.specs.declared.stop.Stop.{Stop};
ghost use Rattle.log_seats.specs.Legal.{Legal};
ghost use Rattle.machine.specs.declared.access.Why.{Why};
ghost use Rattle.guest_pages.specs.Outline.{outline};
ghost use Rattle.guest.specs.declared.progress.Pause.{Pause};
ghost use Rattle.page_moves.specs.Faith.{Kept};
ghost use Rattle.guest.specs.Guests.{view_of, Intact, HasPaused};
ghost use Rattle.guest.specs.Views.{pages_seen};
ghost use Rattle.seated.specs.Acts.{Stays};
ghost use Rattle.cell.specs.Inputs.{bytes_in};
ghost use Rattle.cell.specs.Slices.{Slice};
ghost use Rattle.cell.specs.Sitting.{Sits};

use crate::{Front, Locked};
use console_queue::{ConsoleQueue, TakePass};
use guest::{Guest, Progress, Seat, Stop};
use std::sync::Wait;

/// How many bytes of input wait in a console at most.
const INPUT_ROOM: u32 = 256;

/// What was found where a byte of input was looked for.
#[derive(Clone, Copy, Debug, PartialEq, Eq)]
pub(crate) enum Found {
    /// A byte, which the console has now.
    Byte,
    /// The queue, with no byte in it.
    Nothing,
    /// A console with no room for a byte.
    NoRoom,
}

// A byte of the queue comes to the console, as an item of the seat, where one waits and the console has room for it. Room in the log is made
// before a byte is taken, so none is lost.
#[tactic(auto, using(crate::proofs::Slicing::byte_made, crate::proofs::Slicing::nothing_made, crate::proofs::Sitting::byte_added))]
fn take_byte<R: Wait>(
    rt: &R,
    queue: &ConsoleQueue,
    taker: &mut TakePass,
    guest: &mut Guest,
    seat: &mut Seat,
) -> Result<Found, Stop>
    requires head { seat.old.head ≡ guest.old.head }
    requires queue { taker.old.queue ≡ queue.now.id }
    requires taken { taker.old.taken ≡ bytes_in guest.old.log.items }
    requires legal { Legal seat.old.saw seat.old.number seat.old.saw seat.old.made }
    requires saw { seat.old.saw ≡ guest.old.log.items }
    ensures queue { taker.new.queue ≡ taker.old.queue }
    ensures taken { taker.new.taken ≡ bytes_in guest.new.log.items }
    ensures slice { Slice seat.old 0 seat.new }
    ensures saw { seat.new.saw ≡ guest.new.log.items }
    ensures stays { Stays guest.old guest.new }
    ensures intact { Intact guest.old → Intact guest.new }
    ensures kept { Intact guest.old → (held : ℕ → Option (List ℕ)) →
        Kept held (pages_seen (view_of guest.old)) guest.old.bus.pages → Kept held (pages_seen (view_of guest.new)) guest.new.bus.pages }
    ensures pages { guest.new.bus.pages ≡ guest.old.bus.pages }
    ensures full { IsErrOf result Stop.LogFull → IsFull guest.new.log }
{
    if !guest.view().devices.has_input_room() {
        return Ok(Found::NoRoom);
    }
    if let Err(stop) = guest.item_room() {
        return Err(stop);
    }
    match queue.take(rt, taker) {
        None => Ok(Found::Nothing),
        Some(byte) => {
            seated::take_in(guest, seat, byte);
            Ok(Found::Byte)
        }
    }
}

// All bytes of the queue come to the console, as far as it has room for them. The answer is whether none waits any more, as the queue was
// found.
#[tactic(auto, using(crate::proofs::Slicing::joined, crate::proofs::Slicing::nothing_made, crate::proofs::Slicing::head_stays, crate::proofs::Sitting::stayed))]
pub(crate) fn take_bytes<R: Wait>(
    rt: &R,
    queue: &ConsoleQueue,
    taker: &mut TakePass,
    guest: &mut Guest,
    seat: &mut Seat,
) -> Result<bool, Stop>
    requires head { seat.old.head ≡ guest.old.head }
    requires queue { taker.old.queue ≡ queue.now.id }
    requires taken { taker.old.taken ≡ bytes_in guest.old.log.items }
    requires legal { Legal seat.old.saw seat.old.number seat.old.saw seat.old.made }
    requires saw { seat.old.saw ≡ guest.old.log.items }
    ensures queue { taker.new.queue ≡ taker.old.queue }
    ensures taken { taker.new.taken ≡ bytes_in guest.new.log.items }
    ensures slice { Slice seat.old 0 seat.new }
    ensures saw { seat.new.saw ≡ guest.new.log.items }
    ensures stays { Stays guest.old guest.new }
    ensures intact { Intact guest.old → Intact guest.new }
    ensures kept { Intact guest.old → (held : ℕ → Option (List ℕ)) →
        Kept held (pages_seen (view_of guest.old)) guest.old.bus.pages → Kept held (pages_seen (view_of guest.new)) guest.new.bus.pages }
    ensures pages { guest.new.bus.pages ≡ guest.old.bus.pages }
    ensures full { IsErrOf result Stop.LogFull → IsFull guest.new.log }
{
    for _ in 0..INPUT_ROOM {
        match take_byte(rt, queue, taker, guest, seat) {
            Ok(Found::Byte) => {}
            Ok(Found::Nothing) => return Ok(true),
            Ok(Found::NoRoom) => return Ok(false),
            Err(stop) => return Err(stop),
        }
    }
    Ok(false)
}

// At most so many steps, by `seated::run`.
#[tactic(auto, using(crate::proofs::Slicing::steps_made, crate::proofs::Slicing::none_made, crate::proofs::Sitting::steps_added))]
pub(crate) fn make_steps(
    taker: &mut TakePass,
    guest: &mut Guest,
    seat: &mut Seat,
    count: u32,
) -> Result<Progress, Stop>
    requires head { seat.old.head ≡ guest.old.head }
    requires taken { taker.old.taken ≡ bytes_in guest.old.log.items }
    ensures taker { taker.new ≡ taker.old }
    ensures taken { taker.new.taken ≡ bytes_in guest.new.log.items }
    ensures slice { IfOk result (λ p. Slice seat.old p.steps seat.new) }
    ensures refused { OnErr result (Slice seat.old 0 seat.new) }
    ensures saw { seat.new.saw ≡ guest.new.log.items }
    ensures few { IfOk result (λ p. p.steps ≤ count) }
    ensures stays { Stays guest.old guest.new }
    ensures intact { Intact guest.old → Intact guest.new }
    ensures kept { Intact guest.old → (held : ℕ → Option (List ℕ)) →
        Kept held (pages_seen (view_of guest.old)) guest.old.bus.pages → Kept held (pages_seen (view_of guest.new)) guest.new.bus.pages }
    ensures there { IfOk result (λ p. (page : ℕ) (why : Why) → p.pause ≡ Some (Pause.Need page why) → page < length guest.old.bus.pages) }
    ensures paused { IfOk result (λ p. (given : Option ℕ) × HasPaused given guest.old.bus.pages p.pause guest.new.bus.pages) }
    ensures unmoved { OnErr result (guest.new.bus ≡ guest.old.bus) }
    ensures full { IsErrOf result Stop.LogFull → IsFull guest.new.log }
{
    let _ = &taker;
    seated::run(guest, seat, count)
}
