//! The same of what lies under a guest's lock as a whole: each call finds it fit for the front, and leaves it so.
ghost use Rattle.std.specs.Prelude.{◌≡◌, ◌↔◌, ◌∷◌, ℕ, [], true, false, None, Some, OnOk, OnErr, IfOk, IsErrOf, length, slice_index, ◌<◌};
ghost use Rattle.items.specs.declared.item.Item.{Item};
ghost use Rattle.items.specs.Items.{is_step};
ghost use Rattle.machine.specs.Answers.{replied};
ghost use Rattle.machine.specs.Items.{accepts, reply, run};
ghost use Rattle.machine.specs.Replies.{bytes_at};
ghost use Rattle.guest_log.specs.declared.stop.Stop.{Stop};
ghost use Rattle.machine.specs.Step.{Machine};
ghost use Rattle.guest_pages.specs.Outline.{outline};
ghost use Rattle.seated.specs.Acts.{Sees};
ghost use Rattle.cell.specs.Inputs.{byte_in};
ghost use Rattle.cell.specs.Registers.{register_shown};
ghost use Rattle.cell.specs.Sitting.{IsOf, Lasts, IsTrusted, Answers, Sits, IsFullOf, IsPlain, front_boot};

use crate::registers::registers_of;
use crate::{Front, Locked, Registers, Seat, acting};
use guest::{Refused, Stop};
use items::{Item, What};
use machine::Reply;
use swapstore::SwapStore;

// What happens to the guest by an item of the seat that is neither a step nor a byte of input.
#[tactic(auto, using(crate::proofs::Sitting::looked_true))]
pub(crate) fn act<S: SwapStore + Drop>(
    front: &Front<S>,
    locked: &mut Locked,
    seat: &mut Seat,
    item: Item,
) -> Result<Reply, Refused>
    requires sits { Sits S.true_to_digests front.now locked.old }
    requires of { IsOf front.now seat.old }
    requires seat { item.seat ≡ seat.old.seat.number }
    requires input { is_step item.what ≡ false }
    requires no_byte { byte_in item.what ≡ [] }
    ensures sits { Sits S.true_to_digests front.now locked.new }
    ensures of { IsOf front.now seat.new }
    ensures lasts { Lasts seat.old seat.new }
    ensures lasts_with_store { IsTrusted S.true_to_digests front.now → seat.new.witness.held ≡ true }
    ensures ok { IfOk result (λ r. Answers front.now seat.old item seat.new (replied r)) }
    ensures err { OnErr result (Sees seat.old.seat seat.new.seat) }
    ensures machine { IsErrOf result Refused.Machine → seat.new.witness.held ≡ true →
        accepts item.what (run seat.new.seat.saw (front_boot front.now)) ≡ false }
    ensures full { IsErrOf result (Refused.Stop Stop.LogFull) → IsFullOf front.now seat.new.seat.saw }
    ensures reply_of_some { IfOk result (λ r. (m : Machine) × (replied r ≡ reply item.what m)) }
    ensures plain { (page : ℕ) → IsPlain item.what → IsErrOf result (Refused.Away page) → ⊥ }
    ensures plainly_accepted { IsPlain item.what → IsErrOf result Refused.Machine → ⊥ }
    ensures outline { outline locked.new.guest.value.bus.pages ≡ outline locked.old.guest.value.bus.pages }
{
    acting::act(
        &front.truth,
        &mut locked.keeper,
        &mut locked.guest,
        seat,
        item,
    )
}

// Shows the seat the whole log.
#[tactic(auto, using(crate::proofs::Sitting::sits_still, crate::proofs::Sitting::looked_true))]
pub(crate) fn see<S: SwapStore + Drop>(front: &Front<S>, locked: &mut Locked, seat: &mut Seat)
    requires sits { Sits S.true_to_digests front.now locked.old }
    requires of { IsOf front.now seat.old }
    ensures sits { Sits S.true_to_digests front.now locked.new }
    ensures of { IsOf front.now seat.new }
    ensures lasts { Lasts seat.old seat.new }
    ensures lasts_with_store { IsTrusted S.true_to_digests front.now → seat.new.witness.held ≡ true }
    ensures sees { Sees seat.old.seat seat.new.seat }
    ensures guest { locked.new.guest.value ≡ locked.old.guest.value }
    ensures keeper { locked.new.keeper ≡ locked.old.keeper }
    ensures saw { seat.new.seat.saw ≡ locked.old.guest.value.log.items }
    ensures holds { seat.new.witness.held ≡ true → locked.new.keeper.holds ≡ true }
{
    acting::see(&front.truth, &mut locked.keeper, &mut locked.guest, seat);
}

// Reads the registers.
pub(crate) fn registers<S: SwapStore + Drop>(
    front: &Front<S>,
    locked: &mut Locked,
    seat: &mut Seat,
) -> Registers
    requires sits { Sits S.true_to_digests front.now locked.old }
    requires of { IsOf front.now seat.old }
    ensures sits { Sits S.true_to_digests front.now locked.new }
    ensures of { IsOf front.now seat.new }
    ensures lasts { Lasts seat.old seat.new }
    ensures lasts_with_store { IsTrusted S.true_to_digests front.now → seat.new.witness.held ≡ true }
    ensures sees { Sees seat.old.seat seat.new.seat }
    ensures guest { locked.new.guest.value ≡ locked.old.guest.value }
    ensures registers { seat.new.witness.held ≡ true → (number : ℕ) → number < 38 →
        slice_index result number ≡ register_shown number (run seat.new.seat.saw (front_boot front.now)) }
{
    see(front, locked, seat);
    let view = locked.guest.view();
    registers_of(view.cpu, view.devices.lines())
}
