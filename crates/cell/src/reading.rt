//! A debugger's read, for which the pages that are in slots are supplied.
ghost use Rattle.std.specs.Prelude.{◌≡◌, ◌↔◌, ℕ, true, None, Some, OnOk, OnErr, IfSome, IfNone, IsErrOf, length};
ghost use Rattle.machine.specs.Items.{run};
ghost use Rattle.machine.specs.Replies.{bytes_at};
ghost use Rattle.guest_log.specs.declared.stop.Stop.{Stop};
ghost use Rattle.seated.specs.Acts.{Sees};
ghost use Rattle.cell.specs.Level.{IsMemoryOf};
ghost use Rattle.cell.specs.Sitting.{IsOf, Lasts, IsTrusted, Sits, front_boot};

use crate::inside::see;
use crate::turning::supply_in;
use crate::{Cell, Front, Locked, Seat};
use guest::Refused;
use machine_memory::MachineMemory;
use page_moves::SupplyError;
use std::alloc::Global;
use std::sync::Wait;
use swapstore::SwapStore;
use word32::Ppn;

/// Why bytes are not read.
#[derive(Clone, Copy, Debug, PartialEq, Eq)]
pub enum ReadError {
    /// One of them has no place in memory.
    NoPlace,
    /// One of them lies in a page that is in a slot, and that has got no frame of its own.
    Lacks(SupplyError),
}

// The page to supply before a read that was refused is tried again: none where a byte has no place.
fn away_of(refused: Refused) -> Option<Ppn>
    requires { (stop : Stop) → refused ≡ Refused.Stop stop → ⊥ }
    ensures some { IfSome result (λ page. refused ≡ Refused.Away page) }
    ensures none { IfNone result (refused ≡ Refused.Machine) }
{
    match refused {
        Refused::Machine => None,
        Refused::Away(page) => Some(page),
        Refused::Stop(_) => unreachable!(),
    }
}

// Reads bytes of the guest's memory, and supplies the pages of them that are in slots, one after another. Each leaves one page fewer in slots.
#[tactic(auto, using(crate::proofs::Supplied::away_is_there))]
fn read_in<S: SwapStore + Drop, R: Wait>(
    rt: &R,
    alloc: Global,
    memory: &MachineMemory<S>,
    front: &Front<S>,
    locked: &mut Locked,
    address: u32,
    bytes: &mut [u8],
) -> Result<(), ReadError>
    requires sits { Sits S.true_to_digests front.now locked.old }
    requires memory { IsMemoryOf front.now.first.value memory.now }
    ensures sits { Sits S.true_to_digests front.now locked.new }
    ensures ok { OnOk result (locked.new.keeper.holds ≡ true →
        bytes_at (run locked.new.guest.value.log.items (front_boot front.now)) address (length bytes.old) ≡ Some bytes.new) }
    ensures no_place { locked.new.keeper.holds ≡ true →
        (IsErrOf result ReadError.NoPlace ↔ (bytes_at (run locked.new.guest.value.log.items (front_boot front.now)) address (length bytes.old) ≡ None)) }
    ensures err { OnErr result (bytes.new ≡ bytes.old) }
{
    let away = locked.guest.swapped();
    for _supplied in 0..=away {
        let refused = match locked.guest.debug_read(address, bytes) {
            Ok(()) => return Ok(()),
            Err(refused) => refused,
        };
        let Some(page) = away_of(refused) else {
            return Err(ReadError::NoPlace);
        };
        if let Err(error) = supply_in(rt, alloc, memory, front, locked, page) {
            return Err(ReadError::Lacks(error));
        }
    }
    unreachable!()
}

// The same, and then the seat sees the log.
fn read_and_see<S: SwapStore + Drop, R: Wait>(
    rt: &R,
    alloc: Global,
    memory: &MachineMemory<S>,
    front: &Front<S>,
    locked: &mut Locked,
    seat: &mut Seat,
    address: u32,
    bytes: &mut [u8],
) -> Result<(), ReadError>
    requires sits { Sits S.true_to_digests front.now locked.old }
    requires memory { IsMemoryOf front.now.first.value memory.now }
    requires of { IsOf front.now seat.old }
    ensures sits { Sits S.true_to_digests front.now locked.new }
    ensures of { IsOf front.now seat.new }
    ensures lasts { Lasts seat.old seat.new }
    ensures lasts_with_store { IsTrusted S.true_to_digests front.now → seat.new.witness.held ≡ true }
    ensures sees { Sees seat.old.seat seat.new.seat }
    ensures ok { OnOk result (seat.new.witness.held ≡ true →
        bytes_at (run seat.new.seat.saw (front_boot front.now)) address (length bytes.old) ≡ Some bytes.new) }
    ensures no_place { seat.new.witness.held ≡ true →
        (IsErrOf result ReadError.NoPlace ↔ (bytes_at (run seat.new.seat.saw (front_boot front.now)) address (length bytes.old) ≡ None)) }
    ensures err { OnErr result (bytes.new ≡ bytes.old) }
{
    let done = read_in(rt, alloc, memory, front, locked, address, bytes);
    see(front, locked, seat);
    done
}

impl<S: SwapStore + Drop> Cell<S> {
    ghost use Rattle.std.specs.Prelude.{◌≡◌, ◌↔◌, true, None, Some, OnOk, OnErr, IsErrOf, length};
    ghost use Rattle.machine.specs.Items.{run};
    ghost use Rattle.machine.specs.Replies.{bytes_at};
    ghost use Rattle.seated.specs.Acts.{Sees};
    ghost use Rattle.cell.specs.Level.{IsMemoryOf};
    ghost use Rattle.cell.specs.Sitting.{IsOf, Lasts, IsTrusted, front_boot};

    /// Reads as many bytes as `bytes` has, from a virtual address on: those of the machine after the log that the seat has then seen. The
    /// pages that they lie in and that are in slots get frames of their own first; a page that was never touched or was given to the
    /// balloon is zeros, and stays as it is.
    ///
    /// `NoPlace` where one of the bytes has no place in memory, whatever lies in slots, and then no page has moved; `Lacks` where a page
    /// that is in a slot gets no frame. Then `bytes` is as before, and pages that have got frames before that keep them.
    pub fn read<R: Wait>(
        &self,
        rt: &R,
        alloc: Global,
        memory: &MachineMemory<S>,
        seat: &mut Seat,
        address: u32,
        bytes: &mut [u8],
    ) -> Result<(), ReadError>
        requires of { IsOf self.now.front seat.old }
        requires memory { IsMemoryOf self.now.front.first.value memory.now }
        ensures of { IsOf self.now.front seat.new }
        ensures lasts { Lasts seat.old seat.new }
        ensures lasts_with_store { IsTrusted S.true_to_digests self.now.front → seat.new.witness.held ≡ true }
        ensures sees { Sees seat.old.seat seat.new.seat }
        ensures ok { OnOk result (seat.new.witness.held ≡ true →
            bytes_at (run seat.new.seat.saw (front_boot self.now.front)) address (length bytes.old) ≡ Some bytes.new) }
        ensures no_place { seat.new.witness.held ≡ true →
            (IsErrOf result ReadError.NoPlace ↔ (bytes_at (run seat.new.seat.saw (front_boot self.now.front)) address (length bytes.old) ≡ None)) }
        ensures err { OnErr result (bytes.new ≡ bytes.old) }
    {
        let (mut locked, loan) = self.lock.take(rt);
        let done = read_and_see(
            rt,
            alloc,
            memory,
            &self.front,
            &mut locked,
            seat,
            address,
            bytes,
        );
        self.lock.put_back(locked, loan);
        done
    }
}
