//! What is done with a guest under its lock by whoever has a seat of it, and the truth of it.
ghost use Rattle.std.specs.Prelude.{◌≡◌, ◌↔◌, ◌∷◌, ℕ, List, Option, [], true, false, None, Some, OnOk, OnErr, IfOk, IsErrOf, length};
ghost use Rattle.items.specs.Items.{is_step};
ghost use Rattle.machine.specs.Answers.{replied};
ghost use Rattle.machine.specs.Items.{accepts, reply};
ghost use Rattle.machine.specs.Replies.{bytes_at};
ghost use Rattle.guest_log.specs.Logs.{IsFull};
ghost use Rattle.guest_log.specs.declared.stop.Stop.{Stop};
ghost use Rattle.guest_pages.specs.Outline.{outline};
ghost use Rattle.guest_bus.specs.Writes.{WritesTo};
ghost use Rattle.page_moves.specs.Faith.{Kept};
ghost use Rattle.guest.specs.Guests.{view_of, standing, Intact};
ghost use Rattle.guest.specs.Views.{pages_seen};
ghost use Rattle.seated.specs.Acts.{Acts, Sees, Stays};

use crate::Seat;
use guest::{Guest, Refused, Stop};
use items::Item;
use lasting_truth::{Keeper, Truth};
use machine::Reply;

// What happens to the guest by an item of the seat that is no step, and whether the guest's truth holds. Where it is refused, the seat has
// seen the log for which it is.
#[tactic(auto, using(seated::proofs::Seeing::sees, seated::proofs::Seeing::acts))]
pub(crate) fn act(
    truth: &Truth,
    keeper: &mut Keeper,
    guest: &mut Guest,
    seat: &mut Seat,
    item: Item,
) -> Result<Reply, Refused>
    requires keeper { keeper.old.truth ≡ truth.now.id }
    requires witness { seat.old.witness.truth ≡ truth.now.id }
    requires head { seat.old.seat.head ≡ guest.old.head }
    requires seat { item.seat ≡ seat.old.seat.number }
    requires input { is_step item.what ≡ false }
    ensures keeper { keeper.new ≡ keeper.old }
    ensures witness { seat.new.witness ≡ record seat.old.witness { held = keeper.old.holds } }
    ensures lasted { keeper.old.holds ≡ true → seat.old.witness.held ≡ true }
    ensures acts { OnOk result (Acts seat.old.seat guest.old.log.items (item ∷ []) seat.new.seat) }
    ensures refused { OnErr result (Sees seat.old.seat seat.new.seat) }
    ensures saw { seat.new.seat.saw ≡ guest.new.log.items }
    ensures unmoved { OnErr result (guest.new.log.items ≡ guest.old.log.items) }
    ensures stays { Stays guest.old guest.new }
    ensures intact { Intact guest.old → Intact guest.new }
    ensures kept { Intact guest.old → (held : ℕ → Option (List ℕ)) →
        Kept held (pages_seen (view_of guest.old)) guest.old.bus.pages → Kept held (pages_seen (view_of guest.new)) guest.new.bus.pages }
    ensures outline { outline guest.new.bus.pages ≡ outline guest.old.bus.pages }
    ensures accepted { OnOk result (Intact guest.old → accepts item.what (view_of guest.old) ≡ true) }
    ensures reply { IfOk result (λ r. Intact guest.old → replied r ≡ reply item.what (view_of guest.old)) }
    ensures reply_as_it_stands { IfOk result (λ r. replied r ≡ reply item.what (standing guest.old)) }
    ensures machine { IsErrOf result Refused.Machine → Intact guest.old → accepts item.what (view_of guest.old) ≡ false }
    ensures refused_as_it_stands { IsErrOf result Refused.Machine → accepts item.what (standing guest.old) ≡ false }
    ensures its_page { (page : ℕ) → IsErrOf result (Refused.Away page) → WritesTo item.what (standing guest.old) page }
    ensures full { IsErrOf result (Refused.Stop Stop.LogFull) ↔ IsFull guest.old.log }
{
    truth.look(keeper, &mut seat.witness);
    match guest.input(item, &mut seat.seat) {
        Ok(reply) => Ok(reply),
        Err(refused) => {
            guest.settle(&mut seat.seat);
            Err(refused)
        }
    }
}

// The seat sees the whole log, and whether the guest's truth holds.
#[tactic(auto, using(seated::proofs::Seeing::sees))]
pub(crate) fn see(truth: &Truth, keeper: &mut Keeper, guest: &mut Guest, seat: &mut Seat)
    requires keeper { keeper.old.truth ≡ truth.now.id }
    requires witness { seat.old.witness.truth ≡ truth.now.id }
    requires head { seat.old.seat.head ≡ guest.old.head }
    ensures keeper { keeper.new ≡ keeper.old }
    ensures witness { seat.new.witness ≡ record seat.old.witness { held = keeper.old.holds } }
    ensures lasted { keeper.old.holds ≡ true → seat.old.witness.held ≡ true }
    ensures sees { Sees seat.old.seat seat.new.seat }
    ensures saw { seat.new.seat.saw ≡ guest.old.log.items }
    ensures guest { guest.new ≡ guest.old }
{
    truth.look(keeper, &mut seat.witness);
    guest.settle(&mut seat.seat);
}
