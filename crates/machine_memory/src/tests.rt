//! Two guests over one memory of 8 frames and 16 slots, each with 16 pages.
ghost use Rattle.std.specs.Prelude.{◌≡◌, ℕ, ◌<◌, [], ◌∷◌, None, length, map, replicate};
ghost use Rattle.frames.specs.Counts.{count_of, below};
ghost use Rattle.guest_pages.specs.declared.page.Page.TheVariants.{Zero};
ghost use Rattle.guest_pages.specs.Outline.{outline};
ghost use Rattle.machine_memory.specs.Memories.{IsLevel, AreLevel, IsPassOf};
ghost use Rattle.machine_memory.specs.Gathered.{AreCounted};

use crate::{Around, BookCounts, Booted, EvictError, Gathered, MachineMemory, PageCounts, Stake};
use framepool::Pool;
use guest_number::GuestNo;
use guest_pages::{GuestPages, PageKind};
use page_moves::{Scan, SupplyError};
use shared_pool::PoolPass;
use sharetab::{GuestPage, Shares};
use std::alloc::{AllocError, Global};
use std::fmt::Debug;
use std::process::Abort;
use std::sync::Wait;
use std::test::Fail;
use swapstore::{MemStore, SlotBook};
use word32::Ppn;

// Asserts one case. The tests share it, since each assertion in a function's own body makes its proof much longer.
fn expect<T: PartialEq + Debug + Drop>(rt: &impl Abort, case: &'static str, got: T, wanted: T) {
    assert!(rt; got == wanted, "{case}: {got:?}, not {wanted:?}");
}

// A guest's pages and its stake, which lie under its lock.
struct Side {
    pages: GuestPages,
    stake: Stake,
}

// There is memory.
fn ample<T>(rt: &impl Abort, made: Result<T, AllocError>) -> T {
    match made {
        Ok(value) => value,
        Err(_) => panic!(rt; "no memory"),
    }
}

fn new_map(rt: &impl Abort, alloc: Global) -> GuestPages
    ensures { result ≡ replicate 16 Zero }
{
    match GuestPages::new(alloc, 16) {
        Ok(map) => map,
        Err(_) => panic!(rt; "no memory for the pages"),
    }
}

fn new_pool(rt: &impl Abort, alloc: Global) -> Pool
    ensures each_once { (k : ℕ) → count_of k result.free ≡ below k 8 }
    ensures none_out { result.out ≡ 0 }
{
    match Pool::new(alloc, 8) {
        Ok(pool) => pool,
        Err(_) => panic!(rt; "no memory for the pool"),
    }
}

fn new_slots(rt: &impl Abort, alloc: Global) -> SlotBook
    ensures each_once { (k : ℕ) → count_of k result.free ≡ below k 16 }
    ensures none_used { result.out ≡ 0 }
{
    match SlotBook::new(alloc, 16) {
        Ok(slots) => slots,
        Err(_) => panic!(rt; "no memory for the slots"),
    }
}

fn new_shares(rt: &impl Abort, alloc: Global) -> Shares
    ensures { result.entries ≡ replicate 8 None }
{
    match Shares::new(alloc, 8) {
        Ok(shares) => shares,
        Err(_) => panic!(rt; "no memory for the table"),
    }
}

fn new_store(rt: &impl Abort, alloc: Global) -> MemStore
    ensures { length result.pages ≡ 16 }
{
    match MemStore::new(alloc, 16) {
        Ok(store) => store,
        Err(_) => panic!(rt; "no memory for the store"),
    }
}

// A memory of two guests none of whose pages was ever touched.
fn started<R: Abort + Wait>(rt: &R, alloc: Global, maps: &[GuestPages]) -> Booted<MemStore>
    requires { maps.now ≡ replicate 16 Zero ∷ replicate 16 Zero ∷ [] }
    ensures guests { result.memory.books.key.guests ≡ 2 }
    ensures stakes { AreLevel result.memory result.stakes.items (map (λ m. m) maps.now) }
    ensures pass { IsPassOf result.memory result.pass }
    ensures gathered { result.gathered ≡ record { ledger = result.memory.books.id; pages = [] } }
{
    let around = Around {
        frames: 8,
        pool: new_pool(rt, alloc),
        slots: new_slots(rt, alloc),
        shares: new_shares(rt, alloc),
        store: new_store(rt, alloc),
    };
    match MachineMemory::new(rt, alloc, maps, around) {
        Ok(booted) => booted,
        Err(_) => panic!(rt; "no memory"),
    }
}

// The last guest with its stake.
fn last_side(
    rt: &impl Abort,
    _memory: &MachineMemory<MemStore>,
    stakes: &mut Vec<Stake>,
    maps: &mut Vec<GuestPages>,
) -> Side
    requires { AreLevel _memory.now stakes.old.items (map (λ m. m) maps.old.items) }
    ensures side { IsLevel _memory.now result.stake result.pages }
    ensures left { AreLevel _memory.now stakes.new.items (map (λ m. m) maps.new.items) }
{
    let Some(stake) = stakes.pop() else {
        panic!(rt; "no stake");
    };
    let Some(pages) = maps.pop() else {
        panic!(rt; "no pages");
    };
    Side { pages, stake }
}

fn closed(mut maps: Vec<GuestPages>) {
    while let Some(map) = maps.pop() {
        map.close();
    }
    maps.destroy_empty();
}

// The pages of two guests.
fn two_maps(rt: &impl Abort, alloc: Global) -> Vec<GuestPages>
    ensures { result.items ≡ replicate 16 Zero ∷ replicate 16 Zero ∷ [] }
{
    let mut maps = match Vec::with_capacity(alloc, 2) {
        Ok(maps) => maps,
        Err(_) => panic!(rt; "no memory for two guests"),
    };
    maps.push_reserved(new_map(rt, alloc));
    maps.push_reserved(new_map(rt, alloc));
    maps
}

// A page that is there.
fn page(rt: &impl Abort, map: &GuestPages, p: u32) -> Ppn
    ensures { result < length map.now }
{
    if p >= 16 {
        panic!(rt; "no page {p}");
    }
    if p >= map.len() {
        panic!(rt; "no page {p}");
    }
    Ppn::new(p)
}

fn supplied<R: Abort + Wait>(
    rt: &R,
    alloc: Global,
    memory: &MachineMemory<MemStore>,
    side: &mut Side,
    p: u32,
) -> Result<(), SupplyError>
    requires { IsLevel memory.now side.old.stake side.old.pages }
    ensures { IsLevel memory.now side.new.stake side.new.pages }
{
    let page = page(rt, &side.pages, p);
    memory.supply(rt, alloc, &mut side.stake, &mut side.pages, page)
}

// None where the page is in no frame.
fn evicted<R: Abort + Wait>(
    rt: &R,
    memory: &MachineMemory<MemStore>,
    side: &mut Side,
    p: u32,
) -> Option<Result<(), EvictError>>
    requires { IsLevel memory.now side.old.stake side.old.pages }
    ensures { IsLevel memory.now side.new.stake side.new.pages }
{
    let page = page(rt, &side.pages, p);
    if !side.pages.kind(page).is_resident() {
        return None;
    }
    Some(memory.evict(rt, &mut side.stake, &mut side.pages, page))
}

fn scanned<R: Abort + Wait>(
    rt: &R,
    memory: &MachineMemory<MemStore>,
    side: &mut Side,
    guest: u32,
    p: u32,
) -> Scan
    requires { IsLevel memory.now side.old.stake side.old.pages }
    ensures { IsLevel memory.now side.new.stake side.new.pages }
{
    let page = page(rt, &side.pages, p);
    memory.scan(
        rt,
        &mut side.stake,
        &mut side.pages,
        GuestNo::new(guest),
        page,
    )
}

// A page is given to the balloon.
fn given<R: Abort + Wait>(rt: &R, memory: &MachineMemory<MemStore>, side: &mut Side, p: u32)
    requires { IsLevel memory.now side.old.stake side.old.pages }
    ensures { IsLevel memory.now side.new.stake side.new.pages }
{
    let page = page(rt, &side.pages, p);
    let returned = side.pages.give(page);
    memory.give_back(rt, &mut side.stake, &side.pages, returned);
}

fn counts_of(map: &GuestPages) -> PageCounts
    ensures { AreCounted map.now result.private result.shared result.swapped }
{
    PageCounts {
        private: map.private(),
        shared: map.shared(),
        swapped: map.swapped(),
    }
}

// What the books count.
fn books<R: Wait>(
    rt: &R,
    memory: &MachineMemory<MemStore>,
    gathered: &mut Gathered,
    one: &mut Side,
    two: &mut Side,
) -> BookCounts
    requires guests { memory.now.books.key.guests ≡ 2 }
    requires gathered { gathered.old ≡ record { ledger = memory.now.books.id; pages = [] } }
    requires one { IsLevel memory.now one.old.stake one.old.pages }
    requires two { IsLevel memory.now two.old.stake two.old.pages }
    ensures gathered { gathered.new ≡ gathered.old }
    ensures one { IsLevel memory.now one.new.stake one.new.pages }
    ensures two { IsLevel memory.now two.new.stake two.new.pages }
{
    let of_one = counts_of(&one.pages);
    let of_two = counts_of(&two.pages);
    memory.gather(gathered, &mut two.stake, &two.pages, of_two);
    memory.gather(gathered, &mut one.stake, &one.pages, of_one);
    let counts = memory.books(rt, gathered);
    memory.scatter(gathered, &mut one.stake, &one.pages, of_one);
    memory.scatter(gathered, &mut two.stake, &two.pages, of_two);
    counts
}

// Of 8 frames and 16 slots.
fn so_many(free: u64, private: u64, shared: u64, references: u64, swapped: u64) -> BookCounts {
    BookCounts {
        frames: 8,
        free,
        private,
        shared,
        references,
        swapped,
        slots: 16,
    }
}

// The end, with what the books count at last.
fn finished<R: Wait>(
    rt: &R,
    memory: MachineMemory<MemStore>,
    mut gathered: Gathered,
    mut one: Side,
    mut two: Side,
) -> BookCounts
    requires guests { memory.books.key.guests ≡ 2 }
    requires gathered { gathered ≡ record { ledger = memory.books.id; pages = [] } }
    requires one { IsLevel memory one.stake one.pages }
    requires two { IsLevel memory two.stake two.pages }
{
    let of_one = counts_of(&one.pages);
    let of_two = counts_of(&two.pages);
    memory.gather(&mut gathered, &mut one.stake, &one.pages, of_one);
    memory.gather(&mut gathered, &mut two.stake, &two.pages, of_two);
    let (counts, store) = memory.finish(rt, gathered);
    drop(store);
    let Side { pages, stake: _ } = one;
    pages.close();
    let Side { pages, stake: _ } = two;
    pages.close();
    counts
}

#[test]
fn pages_come_and_go_between_two_guests(rt: HostRuntime) {
    let alloc = rt.alloc();
    let mut maps = two_maps(&rt, alloc);
    let booted = started(&rt, alloc, &maps);
    let Booted {
        memory,
        mut stakes,
        mut pass,
        mut gathered,
    } = booted;
    let mut two = last_side(&rt, &memory, &mut stakes, &mut maps);
    let mut one = last_side(&rt, &memory, &mut stakes, &mut maps);
    closed(maps);
    expect(
        &rt,
        "one 0",
        supplied(&rt, alloc, &memory, &mut one, 0),
        Ok(()),
    );
    expect(
        &rt,
        "one 5",
        supplied(&rt, alloc, &memory, &mut one, 5),
        Ok(()),
    );
    expect(
        &rt,
        "two 0",
        supplied(&rt, alloc, &memory, &mut two, 0),
        Ok(()),
    );
    expect(
        &rt,
        "two 5",
        supplied(&rt, alloc, &memory, &mut two, 5),
        Ok(()),
    );
    let counts = books(&rt, &memory, &mut gathered, &mut one, &mut two);
    expect(&rt, "resident", counts, so_many(4, 4, 0, 0, 0));

    let scan = scanned(&rt, &memory, &mut one, 0, 5);
    expect(&rt, "noted", scan, Scan::Noted);
    let scan = scanned(&rt, &memory, &mut two, 1, 5);
    let other = GuestPage {
        guest: GuestNo::new(0),
        page: page(&rt, &one.pages, 5),
    };
    expect(&rt, "admitted", scan, Scan::Admitted(other));
    let counts = books(&rt, &memory, &mut gathered, &mut one, &mut two);
    expect(&rt, "one reference", counts, so_many(4, 3, 1, 1, 0));
    let scan = scanned(&rt, &memory, &mut one, 0, 5);
    expect(&rt, "joined", scan, Scan::Joined);
    let counts = books(&rt, &memory, &mut gathered, &mut one, &mut two);
    expect(&rt, "two references", counts, so_many(5, 2, 1, 2, 0));

    expect(
        &rt,
        "copy",
        supplied(&rt, alloc, &memory, &mut one, 5),
        Ok(()),
    );
    let counts = books(&rt, &memory, &mut gathered, &mut one, &mut two);
    expect(&rt, "copied", counts, so_many(4, 3, 1, 1, 0));
    expect(&rt, "own", evicted(&rt, &memory, &mut one, 5), Some(Ok(())));
    expect(
        &rt,
        "last",
        evicted(&rt, &memory, &mut two, 5),
        Some(Ok(())),
    );
    expect(&rt, "away", evicted(&rt, &memory, &mut two, 5), None);
    let counts = books(&rt, &memory, &mut gathered, &mut one, &mut two);
    expect(&rt, "in slots", counts, so_many(6, 2, 0, 0, 2));
    expect(
        &rt,
        "back",
        supplied(&rt, alloc, &memory, &mut two, 5),
        Ok(()),
    );
    expect(
        &rt,
        "there",
        supplied(&rt, alloc, &memory, &mut two, 5),
        Ok(()),
    );
    let counts = books(&rt, &memory, &mut gathered, &mut one, &mut two);
    expect(&rt, "read back", counts, so_many(5, 3, 0, 0, 1));

    given(&rt, &memory, &mut two, 0);
    given(&rt, &memory, &mut one, 5);
    given(&rt, &memory, &mut one, 7);
    let counts = books(&rt, &memory, &mut gathered, &mut one, &mut two);
    expect(&rt, "given", counts, so_many(6, 2, 0, 0, 0));
    expect(&rt, "free", memory.free_frames(&rt, &mut pass), 6);
    let counts = finished(&rt, memory, gathered, one, two);
    expect(&rt, "at last", counts, so_many(6, 2, 0, 0, 0));
}
