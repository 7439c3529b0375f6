//! Guests that are booted, and come behind their locks.
ghost use Rattle.std.specs.Prelude.{◌≡◌, ◌<◌, ◌≤◌, ℕ, List, [], All, IfOk, IfErr, length, map, vec_capacity};
ghost use Rattle.page_moves.specs.Books.{Books as AreExact};
ghost use Rattle.booting.specs.declared.asked.NewGuest.{NewGuest};
ghost use Rattle.booting.specs.Boots.{pages_in, KeepsPages};
ghost use Rattle.booting.specs.Stores.{StoreStays};
ghost use Rattle.machine_memory.specs.Memories.{IsPassOf, AreLevel};
ghost use Rattle.guest_cells.specs.Handles.{AreOfMemory, AreHandlesOfAll};
ghost use Rattle.guest_cells.specs.Asked.{AreAsAsked, AreReady, RunsAreWritten};

use crate::auditor::{Auditor, AuditorKey};
use crate::ending::{EndedRoom, end_all};
use crate::making::{Housed, Waiting, house_all};
use crate::{GuestCells, Handles};
use booting::{Config, NewGuest};
use guest::Guest;
use keyed_lock::KeyedLock;
use machine_memory::{Around, Gathered, MachineMemory};
use shared_pool::PoolPass;
use std::alloc::{AllocError, Global};
use std::snapshot::Snapshot;
use std::sync::Wait;
use swapstore::SwapStore;
use tenant::BootError;

/// The guests of a host, and what is handed out of them and of their memory.
#[derive(Drop)]
pub struct Booted<S: SwapStore + Drop> {
    /// The guests.
    pub cells: GuestCells<S>,
    /// What is handed out of each guest, in the order of the guests.
    pub handles: Vec<Handles>,
    /// A pass of the memory's pool, of whoever has no guest.
    pub pass: PoolPass,
}

impl<S: SwapStore + Drop> Housed<S> {
    // Nobody yet, with room for so many.
    fn with_room(alloc: Global, count: usize) -> Result<Housed<S>, AllocError>
        ensures none { IfOk result (λ housed. (housed.cells.items ≡ []) × (housed.handles.items ≡ []) × (housed.ended.list.items ≡ [])) }
        ensures cells_room { IfOk result (λ housed. count ≤ vec_capacity housed.cells) }
        ensures handles_room { IfOk result (λ housed. count ≤ vec_capacity housed.handles) }
        ensures ended_room { IfOk result (λ housed. count ≤ vec_capacity housed.ended.list) }
    {
        let cells = Vec::with_capacity(alloc, count)?;
        let handles = Vec::with_capacity(alloc, count)?;
        let list = Vec::with_capacity(alloc, count)?;
        Ok(Housed {
            cells,
            handles,
            ended: EndedRoom { list },
        })
    }
}

// Gives up guests that wait, of which none has come behind a lock, and what lies around them. The store comes back.
fn close_all<S>(mut guests: Vec<Guest>, around: Around<S>) -> S
    ensures { result ≡ around.store }
{
    while let Some(guest) = guests.pop() {
        guest.close();
    }
    guests.destroy_empty();
    let Around {
        frames: _,
        pool,
        slots,
        shares,
        store,
    } = around;
    pool.close();
    slots.close();
    shares.close();
    store
}

// The memory ends, with the accounts of all guests gathered. The store comes back.
#[tactic(auto, using(crate::proofs::Stores::stays_still))]
fn store_of<S: SwapStore + Drop, R: Wait>(rt: &R, memory: MachineMemory<S>, gathered: Gathered) -> S
    requires ledger { gathered.ledger ≡ memory.books.id }
    requires all { length gathered.pages ≡ memory.books.key.guests }
    requires slots { memory.books.key.slots ≡ S.slots memory.first }
    ensures { StoreStays S.SwapStore memory.first result }
{
    let (_, store) = memory.finish(rt, gathered);
    store
}

// The auditor's lock is made, the last of all. Where there is no memory for it, the guests end, and the store comes back.
fn with_auditor<S: SwapStore + Drop, R: Wait>(
    rt: &R,
    alloc: Global,
    memory: MachineMemory<S>,
    gathered: Gathered,
    housed: Housed<S>,
    pass: PoolPass,
) -> Result<Booted<S>, S>
    requires gathered { gathered ≡ record { ledger = memory.books.id; pages = [] } }
    requires its_memory { AreOfMemory memory housed.cells.items }
    requires handles { AreHandlesOfAll housed.cells.items housed.handles.items }
    requires count { length housed.cells.items ≡ memory.books.key.guests }
    requires some { 0 < length housed.cells.items }
    requires few { length housed.cells.items ≤ 16 }
    requires none_ended { housed.ended.list.items ≡ [] }
    requires room { length housed.cells.items ≤ vec_capacity housed.ended.list }
    requires slots { memory.books.key.slots ≡ S.slots memory.first }
    ensures memory { IfOk result (λ b. b.cells.memory ≡ memory) }
    ensures pass { IfOk result (λ b. b.pass ≡ pass) }
    ensures guests { (log_runs : ℕ) (asked : List NewGuest) → AreAsAsked log_runs asked housed.cells.items housed.handles.items →
        IfOk result (λ b. AreAsAsked log_runs asked b.cells.cells.items b.handles.items) }
    ensures back { IfErr result (StoreStays S.SwapStore memory.first) }
{
    let Housed {
        mut cells,
        mut handles,
        mut ended,
    } = housed;
    let key = AuditorKey {
        first: Snapshot::of(&gathered),
    };
    match KeyedLock::new(alloc, Auditor { gathered }, &key) {
        Ok(auditor) => Ok(Booted {
            cells: GuestCells {
                cells,
                memory,
                auditor,
                ended,
            },
            handles,
            pass,
        }),
        Err(auditor) => {
            let mut gathered = auditor.into_gathered();
            end_all(
                rt,
                &memory,
                &mut cells,
                &mut handles,
                &mut gathered,
                &mut ended.list,
            );
            Err(store_of(rt, memory, gathered))
        }
    }
}

// The guests that wait come behind locks. Where there is no memory for one, all end, and the store comes back.
fn behind_locks<S: SwapStore + Drop, R: Wait>(
    rt: &R,
    alloc: Global,
    log_runs: u32,
    memory: MachineMemory<S>,
    mut gathered: Gathered,
    mut waiting: Waiting,
    mut housed: Housed<S>,
    pass: PoolPass,
) -> Result<Booted<S>, S>
    requires gathered { gathered ≡ record { ledger = memory.books.id; pages = [] } }
    requires ready { AreReady log_runs waiting.asked.items waiting.guests.items }
    requires level { AreLevel memory waiting.stakes.items (map pages_in waiting.guests.items) }
    requires written { S.true_to_digests memory.first → RunsAreWritten waiting.stakes.items waiting.guests.items }
    requires count { length waiting.guests.items ≡ memory.books.key.guests }
    requires some { 0 < length waiting.guests.items }
    requires few { length waiting.guests.items ≤ 16 }
    requires none { (housed.cells.items ≡ []) × (housed.handles.items ≡ []) × (housed.ended.list.items ≡ []) }
    requires cells_room { length waiting.guests.items ≤ vec_capacity housed.cells }
    requires handles_room { length waiting.guests.items ≤ vec_capacity housed.handles }
    requires ended_room { length waiting.guests.items ≤ vec_capacity housed.ended.list }
    requires slots { memory.books.key.slots ≡ S.slots memory.first }
    ensures memory { IfOk result (λ b. b.cells.memory ≡ memory) }
    ensures pass { IfOk result (λ b. b.pass ≡ pass) }
    ensures guests { IfOk result (λ b. AreAsAsked log_runs waiting.asked.items b.cells.cells.items b.handles.items) }
    ensures back { IfErr result (StoreStays S.SwapStore memory.first) }
{
    let done = house_all(
        rt,
        alloc,
        &memory,
        log_runs,
        &mut waiting,
        &mut housed,
        &mut gathered,
    );
    let Waiting {
        guests,
        asked,
        stakes,
    } = waiting;
    guests.destroy_empty();
    drop(asked);
    drop(stakes);
    match done {
        Ok(()) => with_auditor(rt, alloc, memory, gathered, housed, pass),
        Err(_) => {
            drop(housed);
            drop(pass);
            Err(store_of(rt, memory, gathered))
        }
    }
}

// A memory takes over what lies around booted guests, and the guests come behind locks over it. Where there is no memory for it, all is given
// up but the store.
#[tactic(auto, using(crate::proofs::Stores::stays_from, crate::proofs::Housing::pass_as))]
fn take_over<S: SwapStore + Drop, R: Wait>(
    rt: &R,
    alloc: Global,
    config: Config,
    booted: booting::Booted<S>,
) -> Result<Booted<S>, S>
    requires ready { AreReady config.log_runs booted.asked.items booted.guests.items }
    requires kept { All (KeepsPages (S.held booted.store)) booted.guests.items }
    requires exact { AreExact config.frames (S.slots booted.store) (map pages_in booted.guests.items) booted.shares.entries booted.pool booted.slots }
    requires frames { 0 < config.frames }
    requires some { 0 < length booted.guests.items }
    requires few { length booted.guests.items ≤ 16 }
    ensures key { IfOk result (λ b. b.cells.memory.books.key ≡ record { guests = length booted.guests.items; frames = config.frames; slots = S.slots booted.store }) }
    ensures first { IfOk result (λ b. b.cells.memory.first ≡ booted.store) }
    ensures pass { IfOk result (λ b. IsPassOf b.cells.memory b.pass) }
    ensures guests { IfOk result (λ b. AreAsAsked config.log_runs booted.asked.items b.cells.cells.items b.handles.items) }
    ensures back { IfErr result (StoreStays S.SwapStore booted.store) }
{
    let Ok(housed) = Housed::with_room(alloc, booted.guests.len()) else {
        return Err(booted.close());
    };
    let booting::Booted {
        guests,
        asked,
        pool,
        slots,
        shares,
        store,
    } = booted;
    let around = Around {
        frames: config.frames,
        pool,
        slots,
        shares,
        store,
    };
    match MachineMemory::new(rt, alloc, guests.as_slice(), around) {
        Ok(made) => {
            let machine_memory::Booted {
                memory,
                stakes,
                pass,
                gathered,
            } = made;
            let waiting = Waiting {
                guests,
                asked,
                stakes,
            };
            match behind_locks(
                rt,
                alloc,
                config.log_runs,
                memory,
                gathered,
                waiting,
                housed,
                pass,
            ) {
                Ok(booted) => Ok(booted),
                Err(store) => Err(store),
            }
        }
        Err(around) => Err(close_all(guests, around)),
    }
}

impl<S: SwapStore + Drop> GuestCells<S> {
    ghost use Rattle.std.specs.Prelude.{◌≡◌, true, All, IfOk, IfErr, length};
    ghost use Rattle.swapstore.specs.Failures.{one_more};
    ghost use Rattle.booting.specs.Boots.{AreWithinLimits, AreAdmitted, HoldsImage, WhyNotBooted};
    ghost use Rattle.booting.specs.Stores.{StoreStays};
    ghost use Rattle.machine_memory.specs.Memories.{IsPassOf};
    ghost use Rattle.guest_cells.specs.Asked.{AreAsAsked};

    /// The guests that are asked for, each at the boot of its image behind a lock of its own, in their order; with what is handed out of each,
    /// and a pass of the pool for whoever has no guest. The memory has the frames that are asked for and the slots of the store; which
    /// pages of the images are in frames and which in slots is as `booting::boot` has it.
    ///
    /// They are refused, and the store comes back, where `booting::boot` refuses them, and for the same reason; `Memory` also where a request
    /// for memory was refused for the locks.
    #[tactic(auto, using(crate::proofs::Stores::stays_on, crate::proofs::Stores::stays_as, crate::proofs::Housing::asked_by))]
    pub fn boot<R: Wait>(
        rt: &R,
        alloc: Global,
        config: Config,
        guests: Vec<NewGuest>,
        store: S,
    ) -> Result<Booted<S>, (BootError, S)>
        ensures guests { IfOk result (λ b. AreAsAsked config.log_runs guests.items b.cells.cells.items b.handles.items) }
        ensures books { IfOk result (λ b. b.cells.memory.books.key ≡ record { guests = length guests.items; frames = config.frames; slots = S.slots store }) }
        ensures store { IfOk result (λ b. StoreStays S.SwapStore store b.cells.memory.first) }
        ensures pass { IfOk result (λ b. IsPassOf b.cells.memory b.pass) }
        ensures within { IfOk result (λ b. AreWithinLimits config (S.slots store) guests.items × All HoldsImage guests.items × AreAdmitted config (S.slots store) guests.items) }
        ensures err { IfErr result (λ refused. WhyNotBooted config (S.slots store) guests.items refused.0) }
        ensures failed { IfErr result (λ refused. refused.0 ≡ BootError.Store → S.failed refused.1 ≡ one_more (S.failed store)) }
        ensures admitted_find_room { IfErr result (λ refused. refused.0 ≡ BootError.Room → config.admit ≡ true → ⊥) }
        ensures back { IfErr result (λ refused. StoreStays S.SwapStore store refused.1) }
    {
        match booting::boot(alloc, config, guests, store) {
            Ok(booted) => match take_over(rt, alloc, config, booted) {
                Ok(booted) => Ok(booted),
                Err(store) => Err((BootError::Memory, store)),
            },
            Err(refused) => Err(refused),
        }
    }
}
