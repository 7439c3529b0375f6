//! The calls of whoever has a seat of the guest.
ghost use Rattle.std.specs.Prelude.{◌≡◌, ◌≢◌, ◌↔◌, ◌<◌, ◌≤◌, ◌++◌, ◌∷◌, ℕ, [], true, false, None, Some, IsSome, OnOk, OnErr, IfOk, IsErrOf, length, slice_index, take};
ghost use Rattle.items.specs.declared.item.Item.{Item};
ghost use Rattle.items.specs.declared.item.What.{What};
ghost use Rattle.items.specs.Items.{is_step};
ghost use Rattle.machine.specs.Answers.{replied};
ghost use Rattle.machine.specs.Items.{accepts, reply, run};
ghost use Rattle.machine.specs.Replies.{bytes_at};
ghost use Rattle.guest_log.specs.declared.stop.Stop.{Stop};
ghost use Rattle.machine.specs.Step.{Machine};
ghost use Rattle.console_queue.specs.Queues.{WasFull};
ghost use Rattle.seated.specs.Acts.{Sees};
ghost use Rattle.cell.specs.Inputs.{byte_in};
ghost use Rattle.cell.specs.Registers.{register_shown};

use crate::{Cell, Registers, Seat, inside};
use console_queue::FeedPass;
use guest::{Refused, Stop};
use items::{DebugRegister, Item, What};
use machine::Reply;
use std::sync::Wait;
use swapstore::SwapStore;

// The bytes that a drain replied.
fn output_of(answer: Reply) -> Vec<u8>
    requires { IsSome (replied answer) }
    ensures { replied answer ≡ Some result.items }
{
    match answer {
        Reply::Output(bytes) => bytes,
        Reply::Done => unreachable!(),
    }
}

impl<S: SwapStore + Drop> Cell<S> {
    ghost use Rattle.cell.specs.Sitting.{IsOf, Lasts, IsTrusted, Answers, Happens, Sits, IsFullOf, IsPlain, front_boot};

    // What happens to the guest by an item of the seat that is neither a step nor a byte of input.
    fn input<R: Wait>(&self, rt: &R, seat: &mut Seat, what: What) -> Result<Reply, Refused>
        requires of { IsOf self.now.front seat.old }
        requires input { is_step what ≡ false }
        requires no_byte { byte_in what ≡ [] }
        ensures of { IsOf self.now.front seat.new }
        ensures lasts { Lasts seat.old seat.new }
        ensures lasts_with_store { IsTrusted S.true_to_digests self.now.front → seat.new.witness.held ≡ true }
        ensures ok { IfOk result (λ r. Answers self.now.front seat.old (record { seat = seat.old.seat.number; what = what }) seat.new (replied r)) }
        ensures err { OnErr result (Sees seat.old.seat seat.new.seat) }
        ensures machine { IsErrOf result Refused.Machine → seat.new.witness.held ≡ true →
            accepts what (run seat.new.seat.saw (front_boot self.now.front)) ≡ false }
        ensures full { IsErrOf result (Refused.Stop Stop.LogFull) → IsFullOf self.now.front seat.new.seat.saw }
        ensures reply_of_some { IfOk result (λ r. (m : Machine) × (replied r ≡ reply what m)) }
        ensures plain { (page : ℕ) → IsPlain what → IsErrOf result (Refused.Away page) → ⊥ }
        ensures plainly_accepted { IsPlain what → IsErrOf result Refused.Machine → ⊥ }
    {
        let item = Item {
            seat: seat.number(),
            what,
        };
        let (mut locked, loan) = self.lock.take(rt);
        let done = inside::act(&self.front, &mut locked, seat, item);
        self.lock.put_back(locked, loan);
        done
    }

    // The same of an item that every machine accepts, and for which no page is needed.
    #[tactic(auto, using(crate::proofs::Plain::no_step, crate::proofs::Plain::no_byte))]
    fn plain<R: Wait>(&self, rt: &R, seat: &mut Seat, what: What) -> Result<Reply, Stop>
        requires of { IsOf self.now.front seat.old }
        requires plain { IsPlain what }
        ensures of { IsOf self.now.front seat.new }
        ensures lasts { Lasts seat.old seat.new }
        ensures lasts_with_store { IsTrusted S.true_to_digests self.now.front → seat.new.witness.held ≡ true }
        ensures ok { IfOk result (λ r. Answers self.now.front seat.old (record { seat = seat.old.seat.number; what = what }) seat.new (replied r)) }
        ensures err { OnErr result (Sees seat.old.seat seat.new.seat) }
        ensures full { IsErrOf result Stop.LogFull → IsFullOf self.now.front seat.new.seat.saw }
        ensures reply_of_some { IfOk result (λ r. (m : Machine) × (replied r ≡ reply what m)) }
    {
        match self.input(rt, seat, what) {
            Ok(reply) => Ok(reply),
            Err(Refused::Machine) => unreachable!(),
            Err(Refused::Away(_)) => unreachable!(),
            Err(Refused::Stop(stop)) => Err(stop),
        }
    }

    /// Takes the console's output, as an item of the seat: that of the machine after the log as it was found. `LogFull` only where the
    /// log is full, `Memory` where a request for memory was refused: the seat has seen the log then, and no more.
    pub fn drain<R: Wait>(&self, rt: &R, seat: &mut Seat) -> Result<Vec<u8>, Stop>
        requires { IsOf self.now.front seat.old }
        ensures of { IsOf self.now.front seat.new }
        ensures lasts { Lasts seat.old seat.new }
        ensures lasts_with_store { IsTrusted S.true_to_digests self.now.front → seat.new.witness.held ≡ true }
        ensures ok { IfOk result (λ bytes. Answers self.now.front seat.old (record { seat = seat.old.seat.number; what = What.Drain }) seat.new (Some bytes.items)) }
        ensures err { OnErr result (Sees seat.old.seat seat.new.seat) }
        ensures full { IsErrOf result Stop.LogFull → IsFullOf self.now.front seat.new.seat.saw }
    {
        match self.plain(rt, seat, What::Drain) {
            Ok(reply) => Ok(output_of(reply)),
            Err(stop) => Err(stop),
        }
    }

    /// Sets how many pages the balloon is asked to hold, as an item of the seat. The errors are those of `drain`.
    #[tactic(auto, using(crate::proofs::Plain::happens))]
    pub fn set_target<R: Wait>(&self, rt: &R, seat: &mut Seat, pages: u32) -> Result<(), Stop>
        requires { IsOf self.now.front seat.old }
        ensures of { IsOf self.now.front seat.new }
        ensures lasts { Lasts seat.old seat.new }
        ensures lasts_with_store { IsTrusted S.true_to_digests self.now.front → seat.new.witness.held ≡ true }
        ensures ok { OnOk result (Happens self.now.front seat.old (record { seat = seat.old.seat.number; what = What.Target pages }) seat.new) }
        ensures err { OnErr result (Sees seat.old.seat seat.new.seat) }
        ensures full { IsErrOf result Stop.LogFull → IsFullOf self.now.front seat.new.seat.saw }
    {
        match self.plain(rt, seat, What::Target(pages)) {
            Ok(reply) => {
                drop(reply);
                Ok(())
            }
            Err(stop) => Err(stop),
        }
    }

    /// Writes a register, as an item of the seat: what of it a debugger can write. The errors are those of `drain`.
    #[tactic(auto, using(crate::proofs::Plain::happens))]
    pub fn poke<R: Wait>(
        &self,
        rt: &R,
        seat: &mut Seat,
        register: DebugRegister,
        value: u32,
    ) -> Result<(), Stop>
        requires { IsOf self.now.front seat.old }
        ensures of { IsOf self.now.front seat.new }
        ensures lasts { Lasts seat.old seat.new }
        ensures lasts_with_store { IsTrusted S.true_to_digests self.now.front → seat.new.witness.held ≡ true }
        ensures ok { OnOk result (Happens self.now.front seat.old (record { seat = seat.old.seat.number; what = What.Poke register value }) seat.new) }
        ensures err { OnErr result (Sees seat.old.seat seat.new.seat) }
        ensures full { IsErrOf result Stop.LogFull → IsFullOf self.now.front seat.new.seat.saw }
    {
        match self.plain(rt, seat, What::Poke { register, value }) {
            Ok(reply) => {
                drop(reply);
                Ok(())
            }
            Err(stop) => Err(stop),
        }
    }

    /// Reads the registers, by their numbers 0 to 37: those of the machine after the log that the seat has then seen.
    pub fn registers<R: Wait>(&self, rt: &R, seat: &mut Seat) -> Registers
        requires { IsOf self.now.front seat.old }
        ensures of { IsOf self.now.front seat.new }
        ensures lasts { Lasts seat.old seat.new }
        ensures lasts_with_store { IsTrusted S.true_to_digests self.now.front → seat.new.witness.held ≡ true }
        ensures sees { Sees seat.old.seat seat.new.seat }
        ensures registers { seat.new.witness.held ≡ true → (number : ℕ) → number < 38 →
            slice_index result number ≡ register_shown number (run seat.new.seat.saw (front_boot self.now.front)) }
    {
        let (mut locked, loan) = self.lock.take(rt);
        let words = inside::registers(&self.front, &mut locked, seat);
        self.lock.put_back(locked, loan);
        words
    }

    /// The seat sees the whole log, and whether the guest's truth holds.
    pub fn see<R: Wait>(&self, rt: &R, seat: &mut Seat)
        requires { IsOf self.now.front seat.old }
        ensures of { IsOf self.now.front seat.new }
        ensures lasts { Lasts seat.old seat.new }
        ensures lasts_with_store { IsTrusted S.true_to_digests self.now.front → seat.new.witness.held ≡ true }
        ensures sees { Sees seat.old.seat seat.new.seat }
    {
        let (mut locked, loan) = self.lock.take(rt);
        inside::see(&self.front, &mut locked, seat);
        self.lock.put_back(locked, loan);
    }

    /// How long the log is that the seat has then seen. It waits for nobody.
    #[tactic(auto, using(seated::proofs::Seeing::sees))]
    pub fn seen(&self, seat: &mut Seat) -> u64
        requires { IsOf self.now.front seat.old }
        ensures of { IsOf self.now.front seat.new }
        ensures witness { seat.new.witness ≡ seat.old.witness }
        ensures sees { Sees seat.old.seat seat.new.seat }
        ensures length { result ≡ length seat.new.seat.saw }
    {
        self.front.head.look(&mut seat.seat)
    }

    /// Puts bytes for the guest's console, the first of them first, and answers how many it put: fewer than all only where 1,024 of them
    /// waited at a moment of the call. It takes no lock.
    pub fn feed<R: Wait>(&self, rt: &R, feed: &mut FeedPass, bytes: &[u8]) -> usize
        requires { feed.old.queue ≡ self.now.front.queue.id }
        ensures at_most { result ≤ length bytes.now }
        ensures put { feed.new ≡ record feed.old { put = feed.old.put ++ take result bytes.now } }
        ensures full { result < length bytes.now → WasFull self.now.front.queue.room feed.new.put }
    {
        self.front.queue.feed(rt, feed, bytes)
    }

    /// Holds the guest: until `go` it makes no step but those of seat 3.
    pub fn hold<R: Wait>(&self, rt: &R) {
        self.set_held(rt, true);
    }

    /// Lets the guest go on after `hold`.
    pub fn go<R: Wait>(&self, rt: &R) {
        self.set_held(rt, false);
    }

    #[tactic(auto, using(crate::proofs::Sitting::sits_still))]
    fn set_held<R: Wait>(&self, rt: &R, held: bool) {
        let (mut locked, loan) = self.lock.take(rt);
        locked.held = held;
        self.lock.put_back(locked, loan);
    }

    /// Blocks the guest, which makes no step then, or lets it go on.
    #[tactic(auto, using(crate::proofs::Sitting::sits_still))]
    pub fn block<R: Wait>(&self, rt: &R, blocked: bool) {
        let (mut locked, loan) = self.lock.take(rt);
        locked.blocked = blocked;
        self.lock.put_back(locked, loan);
    }

    /// Has slices of seat 3 stop after a step that leaves PC at this virtual address. It answers false, and nothing has changed, where
    /// the guest has 32 other breakpoints.
    #[tactic(auto, using(crate::proofs::Sitting::sits_still))]
    pub fn set_break<R: Wait>(&self, rt: &R, address: u32) -> bool {
        let (mut locked, loan) = self.lock.take(rt);
        let is_set = locked.breakpoints.set(address);
        self.lock.put_back(locked, loan);
        is_set
    }

    /// Takes the breakpoint at this virtual address away, where there is one.
    #[tactic(auto, using(crate::proofs::Sitting::sits_still))]
    pub fn clear_break<R: Wait>(&self, rt: &R, address: u32) {
        let (mut locked, loan) = self.lock.take(rt);
        locked.breakpoints.clear(address);
        self.lock.put_back(locked, loan);
    }

    /// Takes all breakpoints away.
    #[tactic(auto, using(crate::proofs::Sitting::sits_still))]
    pub fn clear_breaks<R: Wait>(&self, rt: &R) {
        let (mut locked, loan) = self.lock.take(rt);
        locked.breakpoints.clear_all();
        self.lock.put_back(locked, loan);
    }
}
