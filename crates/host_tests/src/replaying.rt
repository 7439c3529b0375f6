//! What a guest has come to, and what its log makes of the reference machine.
ghost use Rattle.std.specs.Prelude.{◌≡◌, ◌≤◌};

use crate::images::image_of;
use dump::{dump, steps_in};
use flatvm::FlatBus;
use guest::Guest;
use guest_log::Log;
use items::{Entry, What};
use mips_cp0::Profile;
use mips_step::debug::read;
use mips_step::{Cpu, View};
use std::alloc::Global;
use std::process::Abort;

/// How many pages a guest has.
pub(crate) const PAGES: u32 = 8;

// The reference machine.
#[derive(Drop)]
struct Table {
    cpu: Cpu,
    bus: FlatBus,
}

// The reference machine that boots these words.
fn booted(rt: &impl Abort, alloc: Global, words: &[u32]) -> Table {
    let image = image_of(rt, alloc, words);
    if !image.fits(PAGES) {
        panic!(rt; "the image has no room");
    }
    match FlatBus::boot(alloc, &image, PAGES) {
        Ok(bus) => Table {
            cpu: Cpu::boot(Profile::One, image.entry),
            bus,
        },
        Err(_) => panic!(rt; "no memory for the reference machine"),
    }
}

// So many steps.
fn step_on(table: &mut Table, count: u64) {
    for _ in 0..count {
        let _ = table.cpu.step(&mut table.bus);
    }
}

// What an entry keeps happens to the reference machine.
fn replay_entry(rt: &impl Abort, table: &mut Table, entry: &Entry) {
    match entry {
        Entry::Steps { seat: _, count } => step_on(table, *count),
        Entry::One(item) => match &item.what {
            What::Step => step_on(table, 1),
            what => match table.bus.input(&mut table.cpu, what) {
                Ok(reply) => drop(reply),
                Err(_) => panic!(rt; "the reference machine refuses an item"),
            },
        },
    }
}

// What a log says happens to the reference machine.
fn replay(rt: &impl Abort, table: &mut Table, log: &Log) {
    for entry in log.entries() {
        replay_entry(rt, table, entry);
    }
    if let Some(entry) = log.last_steps() {
        replay_entry(rt, table, &entry);
    }
}

// Whether the reference machine has these bytes from the start of memory on.
fn has_memory(table: &Table, memory: &[u8]) -> bool {
    let mut address = 0x8000_0000u32;
    for piece in memory.chunks(1024) {
        let mut bytes = [0u8; 1024];
        if piece.len() > bytes.len() {
            return false;
        }
        let there = &mut bytes[..piece.len()];
        if read(&table.cpu, &table.bus, address, there).is_err() {
            return false;
        }
        if &*there != piece {
            return false;
        }
        address = address.wrapping_add(1024);
    }
    true
}

// Whether two processors have the same TLB.
fn same_tlb(a: &Cpu, b: &Cpu) -> bool {
    a.tlb().entries() == b.tlb().entries()
}

/// The guest, of which these are the bytes of memory, is in the state that its log makes of the reference machine.
pub(crate) fn compare(rt: &impl Abort, alloc: Global, words: &[u32], guest: &Guest, memory: &[u8]) {
    let mut table = booted(rt, alloc, words);
    replay(rt, &mut table, guest.log());
    let view = View {
        cpu: &table.cpu,
        devices: table.bus.devices(),
    };
    let steps = steps_in(guest.log());
    let (Ok(wanted), Ok(got)) = (
        dump(alloc, view, steps, None),
        dump(alloc, guest.view(), steps, None),
    ) else {
        panic!(rt; "no memory for the dumps");
    };
    assert!(rt; got == wanted, "{got}, not {wanted}");
    assert!(rt; same_tlb(&table.cpu, guest.view().cpu), "another TLB");
    assert!(rt; has_memory(&table, memory), "other bytes");
}
