//! The pages that bytes from a virtual address on lie in, by the addresses that a debugger's reads lead to.
ghost use Rattle.std.specs.Prelude.{◌≡◌, ◌↔◌, ◌⊎◌, ◌<◌, ◌≤◌, ◌+◌, ◌%◌, ◌^◌, ℕ, suc, true, is_some, IfSome, IsNone, None, length};
ghost use Rattle.machine.specs.Step.{machine_with};
ghost use Rattle.machine.specs.Replies.{probe, bytes_at, SomePlaceIn};
ghost use Rattle.guest_pages.specs.Pages.{AreWhole};
ghost use Rattle.guest_bus.specs.Buses.{IsSettled, board_of};
ghost use Rattle.guest.specs.Guests.{LiesIn};

use crate::step::whole;
use guest_bus::GuestBus;
use machine::Ppn;
use mips_step::{Cpu, debug};

// The page that the byte at a virtual address lies in.
fn page_reached(cpu: &Cpu, bus: &GuestBus, address: u32) -> Option<Ppn>
    ensures page { IfSome result (LiesIn (machine_with cpu.now (board_of bus.now)) address) }
    ensures none { IsNone result → probe (machine_with cpu.now (board_of bus.now)) address ≡ None }
{
    match debug::probe(cpu, bus, address) {
        Some(at) => Some(at.page()),
        None => None,
    }
}

// The pages that the first and the last of some bytes lie in, where each of them has a place in memory.
fn first_and_last(cpu: &Cpu, bus: &GuestBus, address: u32, count: u32) -> Option<(Ppn, Ppn)>
    requires some { 0 < count }
    ensures none { IsNone result → bytes_at (machine_with cpu.now (board_of bus.now)) address count ≡ None }
    ensures placed { IfSome result (λ pages. is_some (bytes_at (machine_with cpu.now (board_of bus.now)) address count) ≡ true) }
    ensures first { IfSome result (λ pages. LiesIn (machine_with cpu.now (board_of bus.now)) ((address + 0) % 2 ^ 32) pages.0) }
    ensures last { IfSome result (λ pages. (k : ℕ) → suc k ≡ count → LiesIn (machine_with cpu.now (board_of bus.now)) ((address + k) % 2 ^ 32) pages.1) }
{
    let Some(first) = page_reached(cpu, bus, address) else {
        return None;
    };
    let mut last = first;
    for k in 1..count {
        match page_reached(cpu, bus, address.wrapping_add(k)) {
            Some(page) => last = page,
            None => return None,
        }
    }
    Some((first, last))
}

/// The pages that at most 1,024 bytes from a virtual address on lie in, the lower number first, one page twice where they lie in
/// one; None exactly where one of the bytes has no place in memory.
pub(crate) fn pages_reached(
    cpu: &Cpu,
    bus: &GuestBus,
    address: u32,
    count: u32,
) -> Option<(Ppn, Ppn)>
    requires settled { IsSettled bus.now }
    requires some { 0 < count }
    requires few { count ≤ 1024 }
    ensures none { IsNone result ↔ (bytes_at (machine_with cpu.now (board_of bus.now)) address count ≡ None) }
    ensures reached { IfSome result (λ pages. (page : ℕ) →
        (SomePlaceIn (machine_with cpu.now (board_of bus.now)) address count page ↔ ((page ≡ pages.0) ⊎ (page ≡ pages.1)))) }
    ensures order { IfSome result (λ pages. pages.0 ≤ pages.1) }
    ensures there { IfSome result (λ pages. pages.1 < length bus.now.pages) }
    ensures whole { AreWhole bus.now.pages }
{
    whole(bus);
    let Some(ends) = first_and_last(cpu, bus, address, count) else {
        return None;
    };
    if ends.0.number() <= ends.1.number() {
        Some(ends)
    } else {
        Some((ends.1, ends.0))
    }
}
