//! A debugger's write, for which pages are supplied.
ghost use Rattle.std.specs.Prelude.{◌≡◌, ◌∷◌, ◌<◌, ◌≤◌, true, false, OnOk, OnErr, IfErr, IsErrOf, length};
ghost use Rattle.items.specs.declared.item.Item.{Item};
ghost use Rattle.items.specs.declared.item.What.{What};
ghost use Rattle.machine.specs.Items.{accepts, run};
ghost use Rattle.guest_log.specs.declared.stop.Stop.{Stop};
ghost use Rattle.seated.specs.Acts.{Sees};
ghost use Rattle.cell.specs.Level.{IsMemoryOf};
ghost use Rattle.cell.specs.Sitting.{IsOf, Lasts, IsTrusted, Happens, Sits, Narrows, IsFullOf, front_boot};

use crate::inside::{act, see};
use crate::turning::supply_in;
use crate::{Cell, Front, Locked, Seat};
use guest::Refused;
use items::{Item, What, WriteBytes};
use machine_memory::MachineMemory;
use page_moves::SupplyError;
use std::alloc::Global;
use std::sync::Wait;
use swapstore::SwapStore;

/// Why bytes are not written.
#[derive(Clone, Copy, Debug, PartialEq, Eq)]
pub enum WriteError {
    /// The guest refuses the write.
    Refused(Refused),
    /// A page of the bytes has got no frame of its own.
    Lacks(SupplyError),
}

// The pages where so many bytes from an address on are to be written get frames of their own, as far as each byte has a place in memory.
#[tactic(auto, using(crate::proofs::Narrowed::narrows_none, crate::proofs::Narrowed::narrows_on))]
fn supply_written<S: SwapStore + Drop, R: Wait>(
    rt: &R,
    alloc: Global,
    memory: &MachineMemory<S>,
    front: &Front<S>,
    locked: &mut Locked,
    address: u32,
    count: usize,
) -> Result<(), SupplyError>
    requires sits { Sits S.true_to_digests front.now locked.old }
    requires memory { IsMemoryOf front.now.first.value memory.now }
    ensures sits { Sits S.true_to_digests front.now locked.new }
{
    if count == 0 || count > 1024 {
        return Ok(());
    }
    let Some((first, last)) = locked.guest.debug_pages(address, count as u32) else {
        return Ok(());
    };
    if let Err(error) = supply_in(rt, alloc, memory, front, locked, first) {
        return Err(error);
    }
    supply_in(rt, alloc, memory, front, locked, last)
}

#[tactic(auto, using(crate::proofs::Plain::happens))]
fn write_in<S: SwapStore + Drop, R: Wait>(
    rt: &R,
    alloc: Global,
    memory: &MachineMemory<S>,
    front: &Front<S>,
    locked: &mut Locked,
    seat: &mut Seat,
    address: u32,
    bytes: WriteBytes,
) -> Result<(), WriteError>
    requires sits { Sits S.true_to_digests front.now locked.old }
    requires memory { IsMemoryOf front.now.first.value memory.now }
    requires of { IsOf front.now seat.old }
    ensures sits { Sits S.true_to_digests front.now locked.new }
    ensures of { IsOf front.now seat.new }
    ensures lasts { Lasts seat.old seat.new }
    ensures lasts_with_store { IsTrusted S.true_to_digests front.now → seat.new.witness.held ≡ true }
    ensures ok { OnOk result (Happens front.now seat.old (record { seat = seat.old.seat.number; what = What.Write address bytes }) seat.new) }
    ensures err { OnErr result (Sees seat.old.seat seat.new.seat) }
    ensures machine { IsErrOf result (WriteError.Refused Refused.Machine) → seat.new.witness.held ≡ true →
        accepts (What.Write address bytes) (run seat.new.seat.saw (front_boot front.now)) ≡ false }
    ensures full { IsErrOf result (WriteError.Refused (Refused.Stop Stop.LogFull)) → IsFullOf front.now seat.new.seat.saw }
{
    if let Err(error) = supply_written(rt, alloc, memory, front, locked, address, bytes.len()) {
        see(front, locked, seat);
        return Err(WriteError::Lacks(error));
    }
    let item = Item {
        seat: seat.number(),
        what: What::Write { address, bytes },
    };
    match act(front, locked, seat, item) {
        Ok(reply) => {
            drop(reply);
            Ok(())
        }
        Err(refused) => Err(WriteError::Refused(refused)),
    }
}

impl<S: SwapStore + Drop> Cell<S> {
    ghost use Rattle.std.specs.Prelude.{◌≡◌, true, false, OnOk, OnErr, IsErrOf};
    ghost use Rattle.items.specs.declared.item.What.{What};
    ghost use Rattle.machine.specs.Items.{accepts, run};
    ghost use Rattle.guest_log.specs.declared.stop.Stop.{Stop};
    ghost use Rattle.seated.specs.Acts.{Sees};
    ghost use Rattle.cell.specs.Level.{IsMemoryOf};
    ghost use Rattle.cell.specs.Sitting.{IsOf, Lasts, IsTrusted, Happens, IsFullOf, front_boot};

    /// Writes bytes from a virtual address on, as an item of the seat: all of them, or none. The pages that they lie in get frames of their
    /// own first: `Lacks` where one gets none. Of the guest's refusals `Machine` where the machine refuses it: more than 1,024 bytes, or one
    /// with no place in memory; `Stop` as in `drain`. The seat has seen the log where it is refused, and has added nothing.
    pub fn write<R: Wait>(
        &self,
        rt: &R,
        alloc: Global,
        memory: &MachineMemory<S>,
        seat: &mut Seat,
        address: u32,
        bytes: WriteBytes,
    ) -> Result<(), WriteError>
        requires of { IsOf self.now.front seat.old }
        requires memory { IsMemoryOf self.now.front.first.value memory.now }
        ensures of { IsOf self.now.front seat.new }
        ensures lasts { Lasts seat.old seat.new }
        ensures lasts_with_store { IsTrusted S.true_to_digests self.now.front → seat.new.witness.held ≡ true }
        ensures ok { OnOk result (Happens self.now.front seat.old (record { seat = seat.old.seat.number; what = What.Write address bytes }) seat.new) }
        ensures err { OnErr result (Sees seat.old.seat seat.new.seat) }
        ensures machine { IsErrOf result (WriteError.Refused Refused.Machine) → seat.new.witness.held ≡ true →
            accepts (What.Write address bytes) (run seat.new.seat.saw (front_boot self.now.front)) ≡ false }
        ensures full { IsErrOf result (WriteError.Refused (Refused.Stop Stop.LogFull)) → IsFullOf self.now.front seat.new.seat.saw }
    {
        let (mut locked, loan) = self.lock.take(rt);
        let done = write_in(
            rt,
            alloc,
            memory,
            &self.front,
            &mut locked,
            seat,
            address,
            bytes,
        );
        self.lock.put_back(locked, loan);
        done
    }
}
