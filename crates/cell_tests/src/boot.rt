//! Two guests of 16 pages over a memory of 8 frames and 16 slots, each behind its lock.
ghost use Rattle.std.specs.Prelude.{◌≡◌, ℕ, ◌+◌, ◌<◌, [], ◌∷◌, None, length, replicate};
ghost use Rattle.frames.specs.Counts.{count_of, below};
ghost use Rattle.machine_memory.specs.Memories.{IsLevel, AreLevel};
ghost use Rattle.cell.specs.Level.{IsMemoryOf};
ghost use Rattle.swapstore.specs.Faults.{store_of};
ghost use Rattle.mips_cp0.specs.declared.profile.Profile.{Profile};
ghost use Rattle.machine.specs.Boot.{boot_machine};
ghost use Rattle.guest.specs.Guests.{Intact};
ghost use Rattle.cell_tests.specs.Booting.{untouched};

use crate::bench::{Bench, Store, Wanted};
use crate::crooked::CrookedStore;
use crate::side::Side;
use cell::{Cell, Made, Parts};
use elf32::Image;
use framepool::Pool;
use guest::{Guest, Seat};
use guest_pages::GuestPages;
use machine_memory::laws::each_guest_has_its_stake;
use machine_memory::{Around, Booted, MachineMemory, Stake};
use mips_cp0::Profile;
use sharetab::Shares;
use std::alloc::Global;
use std::process::Abort;
use std::sync::{Arc, Wait};
use swapstore::{FaultStore, SlotBook};

// An image of no bytes: all pages are zeros as it boots, and the entry is the first byte of kseg0.
fn new_image(rt: &impl Abort, alloc: Global) -> Arc<Image, Global>
    ensures { result.value.segments.items ≡ [] }
{
    let image = Image {
        entry: 0x8000_0000,
        segments: Vec::new(alloc),
    };
    match Arc::new(alloc, image) {
        Ok(image) => image,
        Err(_) => panic!(rt; "no memory for the image"),
    }
}

fn owner(rt: &impl Abort, image: &Arc<Image, Global>) -> Arc<Image, Global>
    ensures { result.value ≡ image.now.value }
{
    match image.clone() {
        Ok(image) => image,
        Err(_) => panic!(rt; "no more owners"),
    }
}

// A guest at the boot of an image of no segment, with no seat yet.
fn new_guest(rt: &impl Abort, alloc: Global, image: &Arc<Image, Global>, limit: u32) -> Guest
    requires { image.now.value.segments.items ≡ [] }
    ensures boots { result.boot ≡ boot_machine Profile.One image.now.value 16 }
    ensures pages { result.bus.pages ≡ untouched }
    ensures items { result.log.items ≡ [] }
    ensures limit { result.log.limit ≡ limit }
    ensures seats { result.seats ≡ 0 }
    ensures intact { Intact result }
{
    if !image.fits(16) {
        panic!(rt; "the image has no room");
    }
    match Guest::boot(alloc, Profile::One, owner(rt, image), 16, limit) {
        Ok(guest) => guest,
        Err(_) => panic!(rt; "no memory for the guest"),
    }
}

fn new_pool(rt: &impl Abort, alloc: Global) -> Pool
    ensures each_once { (k : ℕ) → count_of k result.free ≡ below k 8 }
    ensures none_out { result.out ≡ 0 }
{
    match Pool::new(alloc, 8) {
        Ok(pool) => pool,
        Err(_) => panic!(rt; "no memory for the pool"),
    }
}

fn new_slots(rt: &impl Abort, alloc: Global) -> SlotBook
    ensures each_once { (k : ℕ) → count_of k result.free ≡ below k 16 }
    ensures none_used { result.out ≡ 0 }
{
    match SlotBook::new(alloc, 16) {
        Ok(slots) => slots,
        Err(_) => panic!(rt; "no memory for the slots"),
    }
}

fn new_shares(rt: &impl Abort, alloc: Global) -> Shares
    ensures { result.entries ≡ replicate 8 None }
{
    match Shares::new(alloc, 8) {
        Ok(shares) => shares,
        Err(_) => panic!(rt; "no memory for the table"),
    }
}

fn new_store(rt: &impl Abort, alloc: Global, wanted: &Wanted) -> Store
    ensures { length (store_of result).store.pages ≡ 16 }
{
    let store = CrookedStore::new(rt, alloc, wanted.crooked_read);
    FaultStore::new(store, wanted.op, wanted.failing.max(1))
}

fn new_map(rt: &impl Abort, alloc: Global) -> GuestPages
    ensures { result ≡ untouched }
{
    match GuestPages::new(alloc, 16) {
        Ok(map) => map,
        Err(_) => panic!(rt; "no memory for the pages"),
    }
}

// The pages of two guests, none of which was ever touched.
fn two_maps(rt: &impl Abort, alloc: Global) -> Vec<GuestPages>
    ensures { result.items ≡ untouched ∷ untouched ∷ [] }
{
    let mut maps = match Vec::with_capacity(alloc, 2) {
        Ok(maps) => maps,
        Err(_) => panic!(rt; "no memory for two guests"),
    };
    maps.push_reserved(new_map(rt, alloc));
    maps.push_reserved(new_map(rt, alloc));
    maps
}

fn closed(mut maps: Vec<GuestPages>) {
    while let Some(map) = maps.pop() {
        map.close();
    }
    maps.destroy_empty();
}

// A memory around two guests with these pages.
fn started<R: Abort + Wait>(
    rt: &R,
    alloc: Global,
    wanted: &Wanted,
    maps: &[GuestPages],
) -> Booted<Store>
    requires { maps.now ≡ untouched ∷ untouched ∷ [] }
    ensures { AreLevel result.memory result.stakes.items (untouched ∷ untouched ∷ []) }
{
    let around = Around {
        frames: 8,
        pool: new_pool(rt, alloc),
        slots: new_slots(rt, alloc),
        shares: new_shares(rt, alloc),
        store: new_store(rt, alloc, wanted),
    };
    match MachineMemory::new(rt, alloc, maps, around) {
        Ok(booted) => booted,
        Err(_) => panic!(rt; "no memory"),
    }
}

// The stakes of two guests.
fn two_stakes(
    rt: &impl Abort,
    _memory: &MachineMemory<Store>,
    mut stakes: Vec<Stake>,
) -> (Stake, Stake)
    requires { AreLevel _memory.now stakes.items (untouched ∷ untouched ∷ []) }
    ensures one { IsLevel _memory.now result.0 untouched }
    ensures two { IsLevel _memory.now result.1 untouched }
{
    each_guest_has_its_stake::<Store>();
    let Some(two) = stakes.pop() else {
        panic!(rt; "no stake");
    };
    let Some(one) = stakes.pop() else {
        panic!(rt; "one stake");
    };
    (one, two)
}

// The next seat of a guest, which stays its run.
#[tactic(auto, using(crate::proofs::Booted::seat_intact))]
fn next_seat(guest: &mut Guest) -> Seat
    requires few { guest.old.seats < 4 }
    requires intact { Intact guest.old }
    ensures guest { guest.new ≡ record guest.old { seats = guest.old.seats + 1 } }
    ensures seat { result ≡ record { head = guest.old.head; number = guest.old.seats; saw = []; made = [] } }
    ensures intact { Intact guest.new }
{
    guest.seat()
}

// A guest with its seats comes under its lock.
#[tactic(auto, using(crate::proofs::Booted::none_written))]
fn behind_lock(
    rt: &impl Abort,
    alloc: Global,
    memory: &MachineMemory<Store>,
    mut guest: Guest,
    image: Arc<Image, Global>,
    stake: Stake,
    wanted: &Wanted,
) -> Side
    requires boots { guest.boot ≡ boot_machine Profile.One image.value 16 }
    requires pages { guest.bus.pages ≡ untouched }
    requires items { guest.log.items ≡ [] }
    requires limit { guest.log.limit ≡ wanted.now.limit }
    requires seats { guest.seats ≡ 0 }
    requires intact { Intact guest }
    requires level { IsLevel memory.now stake untouched }
    ensures { IsMemoryOf result.cell.front.first.value memory.now }
{
    let runner = next_seat(&mut guest);
    let console = next_seat(&mut guest);
    let policy = next_seat(&mut guest);
    let debugger = next_seat(&mut guest);
    let parts = Parts {
        guest,
        runner,
        console,
        policy,
        debugger,
        stake,
        profile: Profile::One,
        image,
        pages: 16,
        limit: wanted.limit,
        shares: 100,
        minimum: wanted.minimum,
    };
    match Cell::new(alloc, memory, parts) {
        Ok(made) => {
            let Made { cell, seats, feed } = made;
            Side { cell, seats, feed }
        }
        Err(_) => panic!(rt; "no memory for the lock"),
    }
}

/// Two guests whose pages are zeros, which they run from the first word on. A stake goes by the pages alone, so the memory is made
/// around maps of pages like the guests' own.
pub(crate) fn booted<R: Abort + Wait>(rt: &R, alloc: Global, wanted: Wanted) -> Bench {
    let maps = two_maps(rt, alloc);
    let Booted {
        memory,
        stakes,
        pass: _,
        gathered: _,
    } = started(rt, alloc, &wanted, &maps);
    closed(maps);
    let (one_stake, two_stake) = two_stakes(rt, &memory, stakes);
    let image = new_image(rt, alloc);
    let its_image = owner(rt, &image);
    let one = new_guest(rt, alloc, &image, wanted.limit);
    let two = new_guest(rt, alloc, &image, wanted.limit);
    let one = behind_lock(rt, alloc, &memory, one, its_image, one_stake, &wanted);
    let two = behind_lock(rt, alloc, &memory, two, image, two_stake, &wanted);
    Bench { memory, one, two }
}
