//! How guests come behind their locks.
ghost use Rattle.std.specs.Prelude.{◌≡◌, ◌+◌, ◌<◌, ◌≤◌, ◌∷◌, ◌++◌, List, [], IfOk, IfErr, OnOk, OnErr, length, map, vec_capacity};
ghost use Rattle.guest.specs.Guests.{Intact};
ghost use Rattle.booting.specs.declared.asked.NewGuest.{NewGuest};
ghost use Rattle.machine_memory.specs.Memories.{IsLevel, AreLevel};
ghost use Rattle.cell.specs.Ends.{IsFresh};
ghost use Rattle.cell.specs.Level.{IsMemoryOf};
ghost use Rattle.cell.specs.Sitting.{RunIsWritten};
ghost use Rattle.guest_cells.specs.Handles.{AreOfMemory, AreHandlesOfAll};
ghost use Rattle.guest_cells.specs.Asked.{IsReady, AreReady, IsAsAsked, AreAsAsked, RunsAreWritten};

use crate::Handles;
use crate::ending::{EndedRoom, end_all};
use crate::sitting::gather;
use booting::NewGuest;
use cell::{Cell, Made, Parts};
use guest::Guest;
use machine_memory::{Gathered, MachineMemory, Stake};
use std::alloc::{AllocError, Global};
use std::sync::Wait;
use swapstore::SwapStore;

/// Guests that are to come behind locks, that of each number at its place.
pub(crate) struct Waiting {
    /// The guests, each at its boot.
    pub guests: Vec<Guest>,
    /// What was asked for.
    pub asked: Vec<NewGuest>,
    /// Their stakes.
    pub stakes: Vec<Stake>,
}

/// Guests that have come behind locks, with room for the others.
#[derive(Drop)]
pub(crate) struct Housed<S: SwapStore + Drop> {
    /// The guests.
    pub cells: Vec<Cell<S>>,
    /// What is handed out of them.
    pub handles: Vec<Handles>,
    /// Room for what they leave when they end.
    pub ended: EndedRoom,
}

// What a guest is made of that is to come under a lock: it gets its four seats.
#[tactic(auto, using(crate::proofs::Housing::intact_still))]
fn parts_of(guest: Guest, asked: NewGuest, stake: Stake, log_runs: u32) -> Parts
    requires ready { IsReady log_runs asked guest }
    ensures guest { result.guest ≡ record guest { seats = 4 } }
    ensures intact { Intact result.guest }
    ensures runner { IsFresh guest.head 0 result.runner }
    ensures console { IsFresh guest.head 1 result.console }
    ensures policy { IsFresh guest.head 2 result.policy }
    ensures debugger { IsFresh guest.head 3 result.debugger }
    ensures stake { result.stake ≡ stake }
    ensures profile { result.profile ≡ asked.profile }
    ensures image { result.image ≡ asked.image }
    ensures pages { result.pages ≡ asked.pages }
    ensures limit { result.limit ≡ log_runs }
    ensures shares { result.shares ≡ asked.shares }
    ensures minimum { result.minimum ≡ asked.minimum }
{
    let mut guest = guest;
    let runner = guest.seat();
    let console = guest.seat();
    let policy = guest.seat();
    let debugger = guest.seat();
    let NewGuest {
        profile,
        image,
        pages,
        shares,
        minimum,
    } = asked;
    Parts {
        guest,
        runner,
        console,
        policy,
        debugger,
        stake,
        profile,
        image,
        pages,
        limit: log_runs,
        shares,
        minimum,
    }
}

// A guest comes behind a lock. Where there is no memory for it, it comes back with its stake.
fn house<S: SwapStore + Drop>(
    alloc: Global,
    memory: &MachineMemory<S>,
    guest: Guest,
    asked: NewGuest,
    stake: Stake,
    log_runs: u32,
) -> Result<Made<S>, (Guest, Stake)>
    requires ready { IsReady log_runs asked guest }
    requires level { IsLevel memory.now stake guest.bus.pages }
    requires written { S.true_to_digests memory.now.first → RunIsWritten stake guest }
    ensures its_memory { IfOk result (λ made. IsMemoryOf made.cell.front.first.value memory.now) }
    ensures as_asked { IfOk result (λ made. IsAsAsked log_runs asked made.cell.front (record { seats = made.seats; feed = made.feed })) }
    ensures back { IfErr result (λ back. IsLevel memory.now back.1 back.0.bus.pages) }
{
    match Cell::new(alloc, memory, parts_of(guest, asked, stake, log_runs)) {
        Ok(made) => Ok(made),
        Err(parts) => Err(without_seats(parts)),
    }
}

fn without_seats(parts: Parts) -> (Guest, Stake)
    ensures guest { result.0 ≡ parts.guest }
    ensures stake { result.1 ≡ parts.stake }
{
    let Parts {
        guest,
        runner,
        console,
        policy,
        debugger,
        stake,
        profile: _,
        image,
        pages: _,
        limit: _,
        shares: _,
        minimum: _,
    } = parts;
    drop(runner);
    drop(console);
    drop(policy);
    drop(debugger);
    drop(image);
    (guest, stake)
}

// The account of a guest that is given up comes to those that are gathered.
fn give_up<S: SwapStore + Drop>(
    memory: &MachineMemory<S>,
    gathered: &mut Gathered,
    guest: Guest,
    mut stake: Stake,
)
    requires ledger { gathered.old.ledger ≡ memory.now.books.id }
    requires more { length gathered.old.pages < memory.now.books.key.guests }
    requires level { IsLevel memory.now stake guest.bus.pages }
    ensures ledger { gathered.new.ledger ≡ gathered.old.ledger }
    ensures one { length gathered.new.pages ≡ length gathered.old.pages + 1 }
{
    gather(memory, gathered, &mut stake, &guest);
    drop(stake);
    guest.close();
}

// One more guest comes behind a lock, after those that have. Where there is no memory for it, all are given up, and their accounts come to those
// that are gathered.
fn house_next<S: SwapStore + Drop, R: Wait>(
    rt: &R,
    alloc: Global,
    memory: &MachineMemory<S>,
    log_runs: u32,
    guest: Guest,
    asked: NewGuest,
    stake: Stake,
    housed: &mut Housed<S>,
    gathered: &mut Gathered,
) -> Result<(), AllocError>
    requires ready { IsReady log_runs asked guest }
    requires level { IsLevel memory.now stake guest.bus.pages }
    requires written { S.true_to_digests memory.now.first → RunIsWritten stake guest }
    requires its_memory { AreOfMemory memory.now housed.old.cells.items }
    requires handles { AreHandlesOfAll housed.old.cells.items housed.old.handles.items }
    requires count { length housed.old.cells.items < memory.now.books.key.guests }
    requires none_ended { housed.old.ended.list.items ≡ [] }
    requires cells_room { length housed.old.cells.items < vec_capacity housed.old.cells }
    requires handles_room { length housed.old.cells.items < vec_capacity housed.old.handles }
    requires ended_room { length housed.old.cells.items ≤ vec_capacity housed.old.ended.list }
    requires gathered { gathered.old ≡ record { ledger = memory.now.books.id; pages = [] } }
    ensures its_memory { OnOk result (AreOfMemory memory.now housed.new.cells.items) }
    ensures as_asked { OnOk result ((others : List NewGuest) → AreAsAsked log_runs others housed.old.cells.items housed.old.handles.items →
        AreAsAsked log_runs (others ++ asked ∷ []) housed.new.cells.items housed.new.handles.items) }
    ensures cells_room { OnOk result (vec_capacity housed.new.cells ≡ vec_capacity housed.old.cells) }
    ensures handles_room { OnOk result (vec_capacity housed.new.handles ≡ vec_capacity housed.old.handles) }
    ensures ended { OnOk result (housed.new.ended ≡ housed.old.ended) }
    ensures none_gathered { OnOk result (gathered.new ≡ gathered.old) }
    ensures ledger { gathered.new.ledger ≡ gathered.old.ledger }
    ensures all { OnErr result (length gathered.new.pages ≡ length housed.old.cells.items + 1) }
{
    match house(alloc, memory, guest, asked, stake, log_runs) {
        Ok(made) => {
            let Made { cell, seats, feed } = made;
            housed.cells.push_reserved(cell);
            housed.handles.push_reserved(Handles { seats, feed });
            Ok(())
        }
        Err((guest, stake)) => {
            end_all(
                rt,
                memory,
                &mut housed.cells,
                &mut housed.handles,
                gathered,
                &mut housed.ended.list,
            );
            give_up(memory, gathered, guest, stake);
            Err(AllocError)
        }
    }
}

// All guests that wait come behind locks, in rising number. Where there is no memory for one, all are given up, and their accounts come to those
// that are gathered.
pub(crate) fn house_all<S: SwapStore + Drop, R: Wait>(
    rt: &R,
    alloc: Global,
    memory: &MachineMemory<S>,
    log_runs: u32,
    waiting: &mut Waiting,
    housed: &mut Housed<S>,
    gathered: &mut Gathered,
) -> Result<(), AllocError>
    requires ready { AreReady log_runs waiting.old.asked.items waiting.old.guests.items }
    requires level { AreLevel memory.now waiting.old.stakes.items (map (λ g. g.bus.pages) waiting.old.guests.items) }
    requires written { S.true_to_digests memory.now.first → RunsAreWritten waiting.old.stakes.items waiting.old.guests.items }
    requires count { length waiting.old.guests.items ≤ memory.now.books.key.guests }
    requires none { housed.old.cells.items ≡ [] }
    requires no_handles { housed.old.handles.items ≡ [] }
    requires none_ended { housed.old.ended.list.items ≡ [] }
    requires cells_room { length waiting.old.guests.items ≤ vec_capacity housed.old.cells }
    requires handles_room { length waiting.old.guests.items ≤ vec_capacity housed.old.handles }
    requires ended_room { length waiting.old.guests.items ≤ vec_capacity housed.old.ended.list }
    requires gathered { gathered.old ≡ record { ledger = memory.now.books.id; pages = [] } }
    ensures waiting { waiting.new.guests.items ≡ [] }
    ensures its_memory { OnOk result (AreOfMemory memory.now housed.new.cells.items) }
    ensures as_asked { OnOk result (AreAsAsked log_runs waiting.old.asked.items housed.new.cells.items housed.new.handles.items) }
    ensures cells_room { OnOk result (vec_capacity housed.new.cells ≡ vec_capacity housed.old.cells) }
    ensures handles_room { OnOk result (vec_capacity housed.new.handles ≡ vec_capacity housed.old.handles) }
    ensures ended { OnOk result (housed.new.ended ≡ housed.old.ended) }
    ensures none_gathered { OnOk result (gathered.new ≡ gathered.old) }
    ensures ledger { gathered.new.ledger ≡ gathered.old.ledger }
    ensures all { OnErr result (length gathered.new.pages ≡ length waiting.old.guests.items) }
{
    let Some(guest) = waiting.guests.pop() else {
        return Ok(());
    };
    let Some(asked) = waiting.asked.pop() else {
        unreachable!()
    };
    let Some(stake) = waiting.stakes.pop() else {
        unreachable!()
    };
    match house_all(rt, alloc, memory, log_runs, waiting, housed, gathered) {
        Ok(()) => house_next(
            rt, alloc, memory, log_runs, guest, asked, stake, housed, gathered,
        ),
        Err(error) => {
            give_up(memory, gathered, guest, stake);
            Err(error)
        }
    }
}
