//! A policy over a machine memory of 25 frames, which the pages of one guest fill that lies under no lock.
ghost use Rattle.std.specs.Prelude.{◌≡◌, ℕ, ◌<◌, [], ◌∷◌, None, length, map, replicate};
ghost use Rattle.frames.specs.Counts.{count_of, below};
ghost use Rattle.guest_pages.specs.declared.page.Page.TheVariants.{Zero};
ghost use Rattle.machine_memory.specs.Memories.{IsLevel, AreLevel, IsPassOf};
ghost use Rattle.host_policy.specs.Policies.{IsPolicyOf};

use crate::tests::{TAX, expect};
use crate::{Evicted, Policy, Turn, evict_one, turn};
use cell::{Cell, Seat};
use framepool::Pool;
use guest_pages::GuestPages;
use machine_memory::{Around, Booted, MachineMemory, Stake};
use rand_core::{Rng, SeedableRng};
use rand_pcg::Pcg32;
use reclaim::Level;
use shared_pool::PoolPass;
use sharetab::Shares;
use std::alloc::Global;
use std::process::Abort;
use std::sync::Wait;
use std::thread::{Threads, join};
use swapstore::{MemStore, SlotBook};
use taxpolicy::Tax;
use word32::Ppn;

// A guest's pages and its stake.
struct Side {
    pages: GuestPages,
    stake: Stake,
}

fn new_map(rt: &impl Abort, alloc: Global) -> GuestPages
    ensures { result ≡ replicate 25 Zero }
{
    match GuestPages::new(alloc, 25) {
        Ok(map) => map,
        Err(_) => panic!(rt; "no memory for the pages"),
    }
}

fn new_pool(rt: &impl Abort, alloc: Global) -> Pool
    ensures each_once { (k : ℕ) → count_of k result.free ≡ below k 25 }
    ensures none_out { result.out ≡ 0 }
{
    match Pool::new(alloc, 25) {
        Ok(pool) => pool,
        Err(_) => panic!(rt; "no memory for the pool"),
    }
}

fn new_slots(rt: &impl Abort, alloc: Global) -> SlotBook
    ensures each_once { (k : ℕ) → count_of k result.free ≡ below k 4 }
    ensures none_used { result.out ≡ 0 }
{
    match SlotBook::new(alloc, 4) {
        Ok(slots) => slots,
        Err(_) => panic!(rt; "no memory for the slots"),
    }
}

fn new_shares(rt: &impl Abort, alloc: Global) -> Shares
    ensures { result.entries ≡ replicate 25 None }
{
    match Shares::new(alloc, 25) {
        Ok(shares) => shares,
        Err(_) => panic!(rt; "no memory for the table"),
    }
}

fn new_store(rt: &impl Abort, alloc: Global) -> MemStore
    ensures { length result.pages ≡ 4 }
{
    match MemStore::new(alloc, 4) {
        Ok(store) => store,
        Err(_) => panic!(rt; "no memory for the store"),
    }
}

// A memory of a guest none of whose pages was ever touched.
fn started<R: Abort + Wait>(rt: &R, alloc: Global, maps: &[GuestPages]) -> Booted<MemStore>
    requires { maps.now ≡ replicate 25 Zero ∷ [] }
    ensures frames { result.memory.books.key.frames ≡ 25 }
    ensures stakes { AreLevel result.memory result.stakes.items (map (λ m. m) maps.now) }
    ensures pass { IsPassOf result.memory result.pass }
{
    let around = Around {
        frames: 25,
        pool: new_pool(rt, alloc),
        slots: new_slots(rt, alloc),
        shares: new_shares(rt, alloc),
        store: new_store(rt, alloc),
    };
    match MachineMemory::new(rt, alloc, maps, around) {
        Ok(booted) => booted,
        Err(_) => panic!(rt; "no memory"),
    }
}

fn policy_of(
    rt: &impl Abort,
    alloc: Global,
    memory: &MachineMemory<MemStore>,
    pass: PoolPass,
) -> Policy
    requires pass { IsPassOf memory.now pass }
    requires frames { memory.now.books.key.frames ≡ 25 }
    ensures { IsPolicyOf memory.now result }
{
    match Policy::new(alloc, pass, 25, TAX, 7) {
        Ok(policy) => policy,
        Err(_) => panic!(rt; "no memory for the policy"),
    }
}

// The last guest with its stake.
fn last_side(
    rt: &impl Abort,
    _memory: &MachineMemory<MemStore>,
    stakes: &mut Vec<Stake>,
    maps: &mut Vec<GuestPages>,
) -> Side
    requires { AreLevel _memory.now stakes.old.items (map (λ m. m) maps.old.items) }
    ensures { IsLevel _memory.now result.stake result.pages }
{
    let Some(stake) = stakes.pop() else {
        panic!(rt; "no stake");
    };
    let Some(pages) = maps.pop() else {
        panic!(rt; "no pages");
    };
    Side { pages, stake }
}

fn one_map(rt: &impl Abort, alloc: Global) -> Vec<GuestPages>
    ensures { result.items ≡ replicate 25 Zero ∷ [] }
{
    let mut maps = match Vec::with_capacity(alloc, 1) {
        Ok(maps) => maps,
        Err(_) => panic!(rt; "no memory for a guest"),
    };
    maps.push_reserved(new_map(rt, alloc));
    maps
}

fn closed(mut maps: Vec<GuestPages>) {
    while let Some(map) = maps.pop() {
        map.close();
    }
    maps.destroy_empty();
}

// A page that is there.
fn page(rt: &impl Abort, map: &GuestPages, p: u32) -> Ppn
    ensures { result < length map.now }
{
    if p >= 25 {
        panic!(rt; "no page {p}");
    }
    if p >= map.len() {
        panic!(rt; "no page {p}");
    }
    Ppn::new(p)
}

// All pages get frames.
fn fill<R: Abort + Wait>(rt: &R, alloc: Global, memory: &MachineMemory<MemStore>, side: &mut Side)
    requires { IsLevel memory.now side.old.stake side.old.pages }
    ensures { IsLevel memory.now side.new.stake side.new.pages }
{
    for p in 0..25 {
        let page = page(rt, &side.pages, p);
        if memory
            .supply(rt, alloc, &mut side.stake, &mut side.pages, page)
            .is_err()
        {
            panic!(rt; "no frame for page {p}");
        }
    }
}

// A page leaves its frame.
fn evicted<R: Abort + Wait>(rt: &R, memory: &MachineMemory<MemStore>, side: &mut Side, p: u32)
    requires { IsLevel memory.now side.old.stake side.old.pages }
    ensures { IsLevel memory.now side.new.stake side.new.pages }
{
    let page = page(rt, &side.pages, p);
    if !side.pages.kind(page).is_resident() {
        panic!(rt; "page {p} is in no frame");
    }
    if memory
        .evict(rt, &mut side.stake, &mut side.pages, page)
        .is_err()
    {
        panic!(rt; "page {p} stays");
    }
}

// A turn in which no guest is asked for anything, since none lies under a lock.
fn turned<R: Abort + Wait>(
    rt: &R,
    alloc: Global,
    policy: &Policy,
    memory: &MachineMemory<MemStore>,
    level: Level,
)
    requires { IsPolicyOf memory.now policy.now }
{
    let cells: Vec<Cell<MemStore>> = Vec::new(alloc);
    let mut seats: Vec<Seat> = Vec::new(alloc);
    match turn(rt, alloc, policy, &cells, memory, &mut seats) {
        Ok(made) => {
            let wanted = Turn {
                level,
                left_out: 0,
                refused: None,
            };
            expect(rt, "the turn", made, wanted);
        }
        Err(_) => panic!(rt; "no memory for the turn"),
    }
    expect(rt, "the policy's level", policy.level(rt), level);
    let evicted = evict_one(rt, policy, &cells, memory);
    expect(rt, "no guest's page", evicted, Evicted::Nobody);
}

#[test]
fn levels_by_free_frames(rt: HostRuntime) {
    let alloc = rt.alloc();
    let mut maps = one_map(&rt, alloc);
    let Booted {
        memory,
        mut stakes,
        pass,
        gathered,
    } = started(&rt, alloc, &maps);
    drop(gathered);
    let policy = policy_of(&rt, alloc, &memory, pass);
    let mut side = last_side(&rt, &memory, &mut stakes, &mut maps);
    closed(maps);
    expect(&rt, "all free", policy.free_frames(&rt, &memory), 25);
    fill(&rt, alloc, &memory, &mut side);
    expect(&rt, "none free", policy.free_frames(&rt, &memory), 0);
    expect(&rt, "at boot", policy.level(&rt), Level::High);
    expect(&rt, "its tax", policy.tax(&rt), TAX);
    turned(&rt, alloc, &policy, &memory, Level::Low);
    evicted(&rt, &memory, &mut side, 3);
    turned(&rt, alloc, &policy, &memory, Level::Soft);
    evicted(&rt, &memory, &mut side, 9);
    turned(&rt, alloc, &policy, &memory, Level::High);
    // nobody's page was to leave, so no word was drawn
    let mut words = Pcg32::seed_from_u64(7);
    expect(&rt, "a word", policy.next_word(&rt), words.next_u32());
    let Side { pages, stake: _ } = side;
    pages.close();
}

// Counts the free frames so often. The sum of the counts.
fn counted<R: Wait>(rt: &R, policy: &Policy, memory: &MachineMemory<MemStore>) -> u64
    requires { IsPolicyOf memory.now policy.now }
{
    let mut sum: u64 = 0;
    for _ in 0..1000 {
        sum = sum.saturating_add(u64::from(policy.free_frames(rt, memory)));
    }
    sum
}

// Draws so many words. The sum of the taxes that were in force meanwhile.
fn drawn<R: Wait>(rt: &R, policy: &Policy, tax: Tax) -> u64 {
    let mut sum: u64 = 0;
    for _ in 0..1000 {
        policy.set_tax(rt, tax);
        policy.next_word(rt);
        sum = sum.saturating_add(u64::from(policy.tax(rt).percent));
    }
    sum
}

// Words are drawn and frames counted at once. The sums of the taxes and of the counts.
fn at_once<R: Threads + Wait + Sync>(
    rt: &R,
    policy: &Policy,
    memory: &MachineMemory<MemStore>,
) -> (u64, u64)
    requires { IsPolicyOf memory.now policy.now }
{
    join(
        rt,
        || drawn(rt, policy, Tax { percent: 40 }),
        || -> u64
            requires { IsPolicyOf memory.now policy.now }
        { counted(rt, policy, memory) },
    )
}

#[test]
fn a_policy_of_two_threads(rt: HostRuntime) {
    let alloc = rt.alloc();
    let maps = one_map(&rt, alloc);
    let Booted {
        memory,
        stakes,
        pass,
        gathered,
    } = started(&rt, alloc, &maps);
    drop(gathered);
    drop(stakes);
    closed(maps);
    let policy = policy_of(&rt, alloc, &memory, pass);
    let (taxes, frames) = at_once(&rt, &policy, &memory);
    expect(&rt, "frames", frames, 25_000);
    expect(&rt, "taxes", taxes, 40_000);
    let mut words = Pcg32::seed_from_u64(7);
    for _ in 0..1000 {
        words.next_u32();
    }
    expect(
        &rt,
        "the next word",
        policy.next_word(&rt),
        words.next_u32(),
    );
}
