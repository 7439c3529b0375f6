//! What a debugger reads and writes of a machine by virtual addresses, over any bus.
ghost use Rattle.std.specs.Prelude.{◌≡◌, ◌≢◌, ℕ, ◌+◌, ◌%◌, ◌^◌, ◌<◌, ◌↔◌, OnOk, OnErr, IsErrOf, IfSome, IsNone, IsSome, is_some, true, length, slice_index, None, Some};
ghost use Rattle.word32.specs.Pages.{page_number};
ghost use Rattle.mips_tlb.specs.declared.kind.Kind.{Kind};
ghost use Rattle.machine.specs.declared.access.Why.{Why};
ghost use Rattle.machine.specs.Board.{Board, memory_stored};
ghost use Rattle.machine.specs.Step.{machine_with};
ghost use Rattle.machine.specs.Items.{written_from};
ghost use Rattle.machine.specs.Replies.{probe, bytes_at, EachPlace, SomePlaceIn, CanLook, CanStore};

use crate::Cpu;
use machine::{Kind, PhysAddr, PhysBus, Ppn, Refusal, Size, Why};
use word32::page_of;

/// Why bytes can't be read or written. Nothing has changed then.
#[derive(Clone, Copy, Debug, PartialEq, Eq)]
pub enum Unreached {
    /// One of the bytes has no place in memory.
    NoPlace,
    /// Each of the bytes has a place in memory, but this page that one of them lies in is away (read), or is not there for
    /// stores (written).
    Away(Ppn),
}

/// The physical address in memory that a virtual address leads to, as for a load of kernel mode, whatever mode the
/// processor runs in; None where such a load would raise an exception or reaches no memory.
pub fn probe<B: PhysBus>(cpu: &Cpu, bus: &B, address: u32) -> Option<PhysAddr>
    ensures place { result ≡ probe (machine_with cpu.now (B.board bus.now)) address }
    ensures inside { IfSome result (λ at. at < length (B.board bus.now).memory) }
{
    let at = cpu.tlb().probe(cpu.cp0(), address)?;
    match bus.ready(at, Size::Byte, Kind::Load) {
        Ok(()) => Some(at),
        Err(refusal) => match refusal {
            Refusal::Bus => None,
            Refusal::Need(_, _) => Some(at),
        },
    }
}

/// The address of byte k from an address on.
fn moved(address: u32, k: usize) -> u32
    ensures { result ≡ (address + k) % 2 ^ 32 }
{
    address.wrapping_add((k % 0x1_0000_0000) as u32)
}

/// Whether each of some bytes has a place in memory.
fn are_placed<B: PhysBus>(cpu: &Cpu, bus: &B, address: u32, count: usize) -> bool
    ensures { result ≡ is_some (bytes_at (machine_with cpu.now (B.board bus.now)) address count) }
{
    for k in 0..count {
        if probe(cpu, bus, moved(address, k)).is_none() {
            return false;
        }
    }
    true
}

/// The page of a place that is away: its bytes can't be looked at.
fn away_to_look<B: PhysBus>(bus: &B, at: PhysAddr) -> Option<Ppn>
    requires inside { at < length (B.board bus.now).memory }
    ensures page { IfSome result (λ page. B.lacks (B.kept bus.now) page Kind.Load ≡ Some Why.Swapped) }
    ensures its_page { IfSome result (λ page. page_number at ≡ page) }
    ensures none { IsNone result → CanLook (B.lacks (B.kept bus.now)) at }
{
    match bus.ready(at, Size::Byte, Kind::Load) {
        Ok(()) => None,
        Err(refusal) => match refusal.need() {
            None => unreachable!(),
            Some((page, why)) => if why == Why::Swapped {
                Some(page)
            } else {
                None
            },
        },
    }
}

/// The page of a place that is not there for stores.
fn away_to_store<B: PhysBus>(bus: &B, at: PhysAddr) -> Option<Ppn>
    requires inside { at < length (B.board bus.now).memory }
    ensures page { IfSome result (λ page. B.lacks (B.kept bus.now) page Kind.Store ≢ None) }
    ensures its_page { IfSome result (λ page. page_number at ≡ page) }
    ensures none { IsNone result → CanStore (B.lacks (B.kept bus.now)) at }
{
    match bus.ready(at, Size::Byte, Kind::Store) {
        Ok(()) => None,
        Err(refusal) => match refusal.need() {
            None => unreachable!(),
            Some((page, _)) => Some(page),
        },
    }
}

/// The first page among those of some bytes that is away, so that its bytes can't be looked at.
fn first_away_to_look<B: PhysBus>(cpu: &Cpu, bus: &B, address: u32, count: usize) -> Option<Ppn>
    ensures page { IfSome result (λ page. B.lacks (B.kept bus.now) page Kind.Load ≡ Some Why.Swapped) }
    ensures its_page { IfSome result (λ page. SomePlaceIn (machine_with cpu.now (B.board bus.now)) address count page) }
    ensures none { IsNone result → EachPlace (machine_with cpu.now (B.board bus.now)) address count (CanLook (B.lacks (B.kept bus.now))) }
{
    for k in 0..count {
        if let Some(at) = probe(cpu, bus, moved(address, k)) {
            let away = away_to_look(bus, at);
            if away.is_some() {
                return away;
            }
        }
    }
    None
}

/// The first page among those of some bytes that is not there for stores.
fn first_away_to_store<B: PhysBus>(cpu: &Cpu, bus: &B, address: u32, count: usize) -> Option<Ppn>
    ensures page { IfSome result (λ page. B.lacks (B.kept bus.now) page Kind.Store ≢ None) }
    ensures its_page { IfSome result (λ page. SomePlaceIn (machine_with cpu.now (B.board bus.now)) address count page) }
    ensures none { IsNone result → EachPlace (machine_with cpu.now (B.board bus.now)) address count (CanStore (B.lacks (B.kept bus.now))) }
{
    for k in 0..count {
        if let Some(at) = probe(cpu, bus, moved(address, k)) {
            let away = away_to_store(bus, at);
            if away.is_some() {
                return away;
            }
        }
    }
    None
}

/// Reads the bytes, each of which has a place in memory that can be looked at.
fn read_all<B: PhysBus>(cpu: &Cpu, bus: &B, address: u32, bytes: &mut [u8])
    requires settled { B.waiting bus.now None }
    requires placed { is_some (bytes_at (machine_with cpu.now (B.board bus.now)) address (length bytes.old)) ≡ true }
    requires there { EachPlace (machine_with cpu.now (B.board bus.now)) address (length bytes.old) (CanLook (B.lacks (B.kept bus.now))) }
    ensures { bytes_at (machine_with cpu.now (B.board bus.now)) address (length bytes.old) ≡ Some bytes.new }
{
    for k in 0..bytes.len() {
        match probe(cpu, bus, moved(address, k)) {
            Some(at) => bytes[k] = bus.look(at),
            None => unreachable!(),
        }
    }
}

/// Stores a byte at a place of memory whose page is there for stores.
fn store_byte<B: PhysBus>(bus: &mut B, at: PhysAddr, byte: u8)
    requires settled { B.waiting bus.old None }
    requires inside { at < length (B.board bus.old).memory }
    requires there { CanStore (B.lacks (B.kept bus.old)) at }
    ensures board { B.board bus.new ≡ memory_stored Size.Byte byte at (B.board bus.old) }
    ensures size { length (B.board bus.new).memory ≡ length (B.board bus.old).memory }
    ensures kept { B.kept bus.new ≡ B.kept bus.old }
    ensures settled { B.waiting bus.new None }
{
    bus.store(at, Size::Byte, u32::from(byte));
}

/// Writes the bytes, each of which has a place in memory whose page is there for stores.
fn write_all<B: PhysBus>(cpu: &Cpu, bus: &mut B, address: u32, bytes: &[u8])
    requires settled { B.waiting bus.old None }
    requires placed { is_some (bytes_at (machine_with cpu.now (B.board bus.old)) address (length bytes.now)) ≡ true }
    requires there { EachPlace (machine_with cpu.now (B.board bus.old)) address (length bytes.now) (CanStore (B.lacks (B.kept bus.old))) }
    ensures written { machine_with cpu.now (B.board bus.new) ≡ written_from 0 address bytes.now (machine_with cpu.now (B.board bus.old)) }
    ensures kept { B.kept bus.new ≡ B.kept bus.old }
    ensures settled { B.waiting bus.new None }
{
    for k in 0..bytes.len() {
        match probe(cpu, bus, moved(address, k)) {
            Some(at) => store_byte(bus, at, bytes[k]),
            None => unreachable!(),
        }
    }
}

/// Reads as many bytes as there is room for, from a virtual address on, byte k at that address + k modulo 2^32, as for
/// loads of kernel mode. Nothing changes but `bytes`; a page that was never touched or was given away is zeros.
///
/// It answers `NoPlace` exactly where one of the bytes has no place in memory, and else `Away` exactly where one of them
/// lies in a page that is swapped out, with such a page. Then `bytes` is as before.
pub fn read<B: PhysBus>(cpu: &Cpu, bus: &B, address: u32, bytes: &mut [u8]) -> Result<(), Unreached>
    requires settled { B.waiting bus.now None }
    ensures read { OnOk result (bytes_at (machine_with cpu.now (B.board bus.now)) address (length bytes.old) ≡ Some bytes.new) }
    ensures no_place { IsErrOf result Unreached.NoPlace ↔ (bytes_at (machine_with cpu.now (B.board bus.now)) address (length bytes.old) ≡ None) }
    ensures there { OnOk result (EachPlace (machine_with cpu.now (B.board bus.now)) address (length bytes.old) (CanLook (B.lacks (B.kept bus.now)))) }
    ensures away { (page : ℕ) → IsErrOf result (Unreached.Away page) → B.lacks (B.kept bus.now) page Kind.Load ≡ Some Why.Swapped }
    ensures its_page { (page : ℕ) → IsErrOf result (Unreached.Away page) → SomePlaceIn (machine_with cpu.now (B.board bus.now)) address (length bytes.old) page }
    ensures unchanged { OnErr result (bytes.new ≡ bytes.old) }
{
    if !are_placed(cpu, bus, address, bytes.len()) {
        return Err(Unreached::NoPlace);
    }
    if let Some(page) = first_away_to_look(cpu, bus, address, bytes.len()) {
        return Err(Unreached::Away(page));
    }
    read_all(cpu, bus, address, bytes);
    Ok(())
}

/// Writes bytes from a virtual address on, one after another, byte k at that address + k modulo 2^32, as stores that go
/// where loads of kernel mode lead.
///
/// It answers `NoPlace` exactly where one of the bytes has no place in memory, and else `Away` exactly where one of them
/// lies in a page that is not there for stores, with such a page. Then nothing has changed.
pub fn write<B: PhysBus>(
    cpu: &Cpu,
    bus: &mut B,
    address: u32,
    bytes: &[u8],
) -> Result<(), Unreached>
    requires settled { B.waiting bus.old None }
    ensures written { OnOk result (machine_with cpu.now (B.board bus.new) ≡ written_from 0 address bytes.now (machine_with cpu.now (B.board bus.old))) }
    ensures no_place { IsErrOf result Unreached.NoPlace ↔ (bytes_at (machine_with cpu.now (B.board bus.old)) address (length bytes.now) ≡ None) }
    ensures there { OnOk result (EachPlace (machine_with cpu.now (B.board bus.old)) address (length bytes.now) (CanStore (B.lacks (B.kept bus.old)))) }
    ensures away { (page : ℕ) → IsErrOf result (Unreached.Away page) → B.lacks (B.kept bus.old) page Kind.Store ≢ None }
    ensures its_page { (page : ℕ) → IsErrOf result (Unreached.Away page) → SomePlaceIn (machine_with cpu.now (B.board bus.old)) address (length bytes.now) page }
    ensures unchanged { OnErr result (bus.new ≡ bus.old) }
    ensures kept { B.kept bus.new ≡ B.kept bus.old }
    ensures settled { B.waiting bus.new None }
{
    if !are_placed(cpu, bus, address, bytes.len()) {
        return Err(Unreached::NoPlace);
    }
    if let Some(page) = first_away_to_store(cpu, bus, address, bytes.len()) {
        return Err(Unreached::Away(page));
    }
    write_all(cpu, bus, address, bytes);
    Ok(())
}
