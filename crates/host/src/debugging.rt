//! What a debugger does with a guest.
ghost use Rattle.std.specs.Prelude.{◌≡◌, ◌≢◌, ◌≤◌, true, Some, None, IfOk, IfErr, IfSome, OnOk, OnErr, IsErrOf, length};
ghost use Rattle.items.specs.declared.item.What.TheVariants as what;
ghost use Rattle.machine.specs.Items.{run};
ghost use Rattle.machine.specs.Replies.{bytes_at};
ghost use Rattle.seated.specs.Acts.{Sees};
ghost use Rattle.cell.specs.Level.{IsMemoryOf};
ghost use Rattle.cell.specs.Sitting.{IsOf, Lasts, IsTrusted, Happens, front_boot};
ghost use Rattle.host_policy.specs.Evictions.{WereVictims};
ghost use Rattle.host.specs.Evictions.{WhyNoRoom, WhyLacking};
ghost use Rattle.host.specs.Debugging.{Did, WhyRefused, IsSmall};

use crate::room::make_room;
use crate::{DebugError, Reply, Request, Stop};
use cell::{Cell, ReadError, Seat, WriteError};
use guest::Refused;
use guest_cells::GuestCells;
use host_policy::Policy;
use items::{DebugRegister, WriteBytes};
use page_moves::SupplyError;
use std::alloc::{AllocError, Global};
use std::sync::Wait;
use swapstore::SwapStore;

// What a page that has got no frame leads to: one more page has left its frame for it, or a stop.
#[tactic(auto, using(crate::proofs::Rooms::lacking))]
fn after<S: SwapStore + Drop, R: Wait>(
    rt: &R,
    guests: &GuestCells<S>,
    policy: &Policy,
    error: SupplyError,
    tried: u32,
) -> Result<u32, Stop>
    requires tried { tried ≤ 64 }
    requires victims { WereVictims guests.now.cells.items tried }
    ensures limit { IfOk result (λ now. now ≤ 64) }
    ensures victims { IfOk result (λ now. WereVictims guests.now.cells.items now) }
    ensures why { IfErr result (WhyLacking guests.now.cells.items) }
{
    match error {
        SupplyError::NoFrame => match make_room(rt, guests, policy, tried) {
            Ok(now) => Ok(now),
            Err(stop) => Err(stop),
        },
        SupplyError::Memory => Err(Stop::Memory),
        SupplyError::SwapRead => Err(Stop::SwapRead),
        SupplyError::SwapDamaged => Err(Stop::SwapDamaged),
    }
}

// Reads bytes. Where a page that they lie in and that is in a slot gets no frame, a page leaves its own for it: the number of pages that have
// left theirs then.
#[tactic(auto, using(crate::proofs::Seeing::lacks_read))]
fn read_once<S: SwapStore + Drop, R: Wait>(
    rt: &R,
    alloc: Global,
    guests: &GuestCells<S>,
    policy: &Policy,
    cell: &Cell<S>,
    seat: &mut Seat,
    address: u32,
    bytes: &mut [u8],
    tried: u32,
) -> Result<Option<u32>, DebugError>
    requires memory { IsMemoryOf cell.now.front.first.value guests.now.memory }
    requires of { IsOf cell.now.front seat.old }
    requires tried { tried ≤ 64 }
    requires victims { WereVictims guests.now.cells.items tried }
    ensures of { IsOf cell.now.front seat.new }
    ensures lasts { Lasts seat.old seat.new }
    ensures lasts_with_store { IsTrusted S.true_to_digests cell.now.front → seat.new.witness.held ≡ true }
    ensures sees { Sees seat.old.seat seat.new.seat }
    ensures read { IfOk result (λ more. more ≡ None → seat.new.witness.held ≡ true →
        bytes_at (run seat.new.seat.saw (front_boot cell.now.front)) address (length bytes.old) ≡ Some bytes.new) }
    ensures again { IfOk result (λ more. IfSome more (λ now. (bytes.new ≡ bytes.old) × (now ≤ 64) × WereVictims guests.now.cells.items now)) }
    ensures why { IfErr result (λ error. WhyRefused cell.now.front (Request.Read address (length bytes.old)) seat.new error) }
    ensures lacking { (stop : Stop) → IsErrOf result (DebugError.Stop stop) → WhyLacking guests.now.cells.items stop }
{
    let error = match cell.read(rt, alloc, &guests.memory, seat, address, bytes) {
        Ok(()) => return Ok(None),
        Err(ReadError::NoPlace) => return Err(DebugError::NoPlace),
        Err(ReadError::Lacks(error)) => error,
    };
    match after(rt, guests, policy, error, tried) {
        Ok(now) => Ok(Some(now)),
        Err(stop) => Err(DebugError::Stop(stop)),
    }
}

// Reads bytes; the pages that they lie in come from their slots first.
#[tactic(auto, using(crate::proofs::Seeing::sees_on, cell::proofs::Narrowed::lasts_on, crate::proofs::Rooms::no_victims))]
fn read_into<S: SwapStore + Drop, R: Wait>(
    rt: &R,
    alloc: Global,
    guests: &GuestCells<S>,
    policy: &Policy,
    cell: &Cell<S>,
    seat: &mut Seat,
    address: u32,
    bytes: &mut [u8],
) -> Result<(), DebugError>
    requires memory { IsMemoryOf cell.now.front.first.value guests.now.memory }
    requires of { IsOf cell.now.front seat.old }
    ensures of { IsOf cell.now.front seat.new }
    ensures lasts { Lasts seat.old seat.new }
    ensures lasts_with_store { IsTrusted S.true_to_digests cell.now.front → seat.new.witness.held ≡ true }
    ensures sees { Sees seat.old.seat seat.new.seat }
    ensures read { OnOk result (seat.new.witness.held ≡ true →
        bytes_at (run seat.new.seat.saw (front_boot cell.now.front)) address (length bytes.old) ≡ Some bytes.new) }
    ensures why { IfErr result (λ error. WhyRefused cell.now.front (Request.Read address (length bytes.old)) seat.new error) }
    ensures lacking { (stop : Stop) → IsErrOf result (DebugError.Stop stop) → WhyLacking guests.now.cells.items stop }
{
    let _ = cell.seen(seat);
    let mut tried = 0;
    for _ in rt.forever() {
        match read_once(rt, alloc, guests, policy, cell, seat, address, bytes, tried) {
            Ok(more) => match more {
                None => return Ok(()),
                Some(now) => tried = now,
            },
            Err(error) => return Err(error),
        }
    }
    unreachable!()
}

// The bytes that a debugger reads.
fn read<S: SwapStore + Drop, R: Wait>(
    rt: &R,
    alloc: Global,
    guests: &GuestCells<S>,
    policy: &Policy,
    cell: &Cell<S>,
    seat: &mut Seat,
    address: u32,
    count: u32,
) -> Result<Reply, DebugError>
    requires memory { IsMemoryOf cell.now.front.first.value guests.now.memory }
    requires of { IsOf cell.now.front seat.old }
    requires small { count ≤ 1024 }
    ensures of { IsOf cell.now.front seat.new }
    ensures lasts { Lasts seat.old seat.new }
    ensures lasts_with_store { IsTrusted S.true_to_digests cell.now.front → seat.new.witness.held ≡ true }
    ensures sees { Sees seat.old.seat seat.new.seat }
    ensures ok { IfOk result (λ reply. Did cell.now.front seat.old (Request.Read address count) seat.new reply) }
    ensures err { IfErr result (λ error. WhyRefused cell.now.front (Request.Read address count) seat.new error) }
    ensures lacking { (stop : Stop) → IsErrOf result (DebugError.Stop stop) → WhyLacking guests.now.cells.items stop }
{
    let Ok(mut bytes) = vec![in alloc; 0; count as usize] else {
        cell.see(rt, seat);
        return Err(DebugError::Stop(Stop::Memory));
    };
    match read_into(
        rt,
        alloc,
        guests,
        policy,
        cell,
        seat,
        address,
        bytes.as_mut_slice(),
    ) {
        Ok(()) => Ok(Reply::Bytes(bytes)),
        Err(error) => Err(error),
    }
}

// The same bytes once more.
fn copied(alloc: Global, bytes: &WriteBytes) -> Result<WriteBytes, AllocError>
    ensures { IfOk result (λ copy. copy ≡ bytes.now) }
{
    let copy = bytes.as_slice().to_vec(alloc)?;
    Ok(WriteBytes::from_vec(copy))
}

// Writes bytes, where each page that they lie in gets a frame of its own. The number of pages that have left their frames for them, where
// one gets none and one more has left its frame.
#[tactic(auto, using(crate::proofs::Seeing::sees_on, cell::proofs::Narrowed::lasts_on))]
fn write_once<S: SwapStore + Drop, R: Wait>(
    rt: &R,
    alloc: Global,
    guests: &GuestCells<S>,
    policy: &Policy,
    cell: &Cell<S>,
    seat: &mut Seat,
    address: u32,
    bytes: &WriteBytes,
    tried: u32,
) -> Result<Option<u32>, DebugError>
    requires memory { IsMemoryOf cell.now.front.first.value guests.now.memory }
    requires of { IsOf cell.now.front seat.old }
    requires tried { tried ≤ 64 }
    requires victims { WereVictims guests.now.cells.items tried }
    ensures of { IsOf cell.now.front seat.new }
    ensures lasts { Lasts seat.old seat.new }
    ensures lasts_with_store { IsTrusted S.true_to_digests cell.now.front → seat.new.witness.held ≡ true }
    ensures written { IfOk result (λ more. more ≡ None → Happens cell.now.front seat.old (record { seat = seat.old.seat.number; what = what.Write address bytes.now }) seat.new) }
    ensures again { IfOk result (λ more. IfSome more (λ now. Sees seat.old.seat seat.new.seat × (now ≤ 64) × WereVictims guests.now.cells.items now)) }
    ensures err { OnErr result (Sees seat.old.seat seat.new.seat) }
    ensures why { IfErr result (λ error. WhyRefused cell.now.front (Request.Write address bytes.now) seat.new error) }
    ensures lacking { (stop : Stop) → stop ≢ Stop.LogFull → IsErrOf result (DebugError.Stop stop) → WhyLacking guests.now.cells.items stop }
{
    let Ok(copy) = copied(alloc, bytes) else {
        cell.see(rt, seat);
        return Err(DebugError::Stop(Stop::Memory));
    };
    let error = match cell.write(rt, alloc, &guests.memory, seat, address, copy) {
        Ok(()) => return Ok(None),
        Err(WriteError::Refused(Refused::Machine)) => return Err(DebugError::NoPlace),
        Err(WriteError::Refused(Refused::Away(_))) => SupplyError::NoFrame,
        Err(WriteError::Refused(Refused::Stop(stop))) => {
            return Err(DebugError::Stop(Stop::of_room(stop)));
        }
        Err(WriteError::Lacks(error)) => error,
    };
    match after(rt, guests, policy, error, tried) {
        Ok(now) => Ok(Some(now)),
        Err(stop) => Err(DebugError::Stop(stop)),
    }
}

// Writes bytes, as an item of the seat. Where a page that they lie in gets no frame, pages leave theirs, 64 at most.
#[tactic(auto, using(crate::proofs::Seeing::sees_on, cell::proofs::Narrowed::lasts_on, crate::proofs::Rooms::no_victims))]
fn write<S: SwapStore + Drop, R: Wait>(
    rt: &R,
    alloc: Global,
    guests: &GuestCells<S>,
    policy: &Policy,
    cell: &Cell<S>,
    seat: &mut Seat,
    address: u32,
    bytes: &WriteBytes,
) -> Result<(), DebugError>
    requires memory { IsMemoryOf cell.now.front.first.value guests.now.memory }
    requires of { IsOf cell.now.front seat.old }
    ensures of { IsOf cell.now.front seat.new }
    ensures lasts { Lasts seat.old seat.new }
    ensures lasts_with_store { IsTrusted S.true_to_digests cell.now.front → seat.new.witness.held ≡ true }
    ensures ok { OnOk result (Happens cell.now.front seat.old (record { seat = seat.old.seat.number; what = what.Write address bytes.now }) seat.new) }
    ensures err { OnErr result (Sees seat.old.seat seat.new.seat) }
    ensures why { IfErr result (λ error. WhyRefused cell.now.front (Request.Write address bytes.now) seat.new error) }
    ensures lacking { (stop : Stop) → stop ≢ Stop.LogFull → IsErrOf result (DebugError.Stop stop) → WhyLacking guests.now.cells.items stop }
{
    let _ = cell.seen(seat);
    let mut tried = 0;
    for _ in rt.forever() {
        match write_once(rt, alloc, guests, policy, cell, seat, address, bytes, tried) {
            Ok(more) => match more {
                None => return Ok(()),
                Some(now) => tried = now,
            },
            Err(error) => return Err(error),
        }
    }
    unreachable!()
}

// Writes a register.
fn poke<S: SwapStore + Drop, R: Wait>(
    rt: &R,
    cell: &Cell<S>,
    seat: &mut Seat,
    register: DebugRegister,
    value: u32,
) -> Result<Reply, DebugError>
    requires of { IsOf cell.now.front seat.old }
    ensures of { IsOf cell.now.front seat.new }
    ensures lasts { Lasts seat.old seat.new }
    ensures lasts_with_store { IsTrusted S.true_to_digests cell.now.front → seat.new.witness.held ≡ true }
    ensures ok { IfOk result (λ reply. Did cell.now.front seat.old (Request.Poke register value) seat.new reply) }
    ensures err { OnErr result (Sees seat.old.seat seat.new.seat) }
    ensures why { IfErr result (λ error. WhyRefused cell.now.front (Request.Poke register value) seat.new error) }
{
    match cell.poke(rt, seat, register, value) {
        Ok(()) => Ok(Reply::Done),
        Err(stop) => Err(DebugError::Stop(Stop::of_room(stop))),
    }
}

// One more breakpoint.
fn set_break<S: SwapStore + Drop, R: Wait>(
    rt: &R,
    cell: &Cell<S>,
    seat: &mut Seat,
    address: u32,
) -> Result<Reply, DebugError>
    requires of { IsOf cell.now.front seat.old }
    ensures of { IsOf cell.now.front seat.new }
    ensures lasts { Lasts seat.old seat.new }
    ensures lasts_with_store { IsTrusted S.true_to_digests cell.now.front → seat.new.witness.held ≡ true }
    ensures sees { Sees seat.old.seat seat.new.seat }
    ensures ok { IfOk result (λ reply. reply ≡ Reply.Done) }
    ensures err { IfErr result (λ error. error ≡ DebugError.NoBreakpoint) }
{
    cell.see(rt, seat);
    if cell.set_break(rt, address) {
        Ok(Reply::Done)
    } else {
        Err(DebugError::NoBreakpoint)
    }
}

// Does what a debugger asks of the guest.
pub(crate) fn debug_of<S: SwapStore + Drop, R: Wait>(
    rt: &R,
    alloc: Global,
    guests: &GuestCells<S>,
    policy: &Policy,
    cell: &Cell<S>,
    seat: &mut Seat,
    request: Request,
) -> Result<Reply, DebugError>
    requires memory { IsMemoryOf cell.now.front.first.value guests.now.memory }
    requires of { IsOf cell.now.front seat.old }
    requires small { IsSmall request }
    ensures of { IsOf cell.now.front seat.new }
    ensures lasts { Lasts seat.old seat.new }
    ensures lasts_with_store { IsTrusted S.true_to_digests cell.now.front → seat.new.witness.held ≡ true }
    ensures ok { IfOk result (λ reply. Did cell.now.front seat.old request seat.new reply) }
    ensures err { OnErr result (Sees seat.old.seat seat.new.seat) }
    ensures why { IfErr result (λ error. WhyRefused cell.now.front request seat.new error) }
    ensures no_frame { IsErrOf result (DebugError.Stop Stop.NoFrame) → WhyNoRoom guests.now.cells.items Stop.NoFrame }
    ensures no_swap { IsErrOf result (DebugError.Stop Stop.NoSwap) → WhyNoRoom guests.now.cells.items Stop.NoSwap }
{
    match request {
        Request::Regs => Ok(Reply::Registers(cell.registers(rt, seat))),
        Request::Poke(register, value) => poke(rt, cell, seat, register, value),
        Request::Read(address, count) => {
            read(rt, alloc, guests, policy, cell, seat, address, count)
        }
        Request::Write(address, bytes) => {
            match write(rt, alloc, guests, policy, cell, seat, address, &bytes) {
                Ok(()) => Ok(Reply::Done),
                Err(error) => Err(error),
            }
        }
        Request::Break(address) => set_break(rt, cell, seat, address),
        Request::Clear(address) => {
            cell.see(rt, seat);
            cell.clear_break(rt, address);
            Ok(Reply::Done)
        }
    }
}
