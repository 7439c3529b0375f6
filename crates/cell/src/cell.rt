//! A guest under its lock.
ghost use Rattle.std.specs.Prelude.{◌≡◌, ◌≤◌, [], vec_capacity};

use crate::Breakpoints;
use console_queue::{ConsoleQueue, TakePass};
use elf32::Image;
use guest::{Guest, Head};
use keyed_lock::{Close, Fits, KeyedLock};
use lasting_truth::{Keeper, Truth};
use machine_memory::{MachineMemory, Stake};
use mips_cp0::Profile;
use std::alloc::Global;
use std::snapshot::Snapshot;
use std::sync::Arc;
use swapstore::SwapStore;

/// What threads reach of a guest without its lock.
#[derive(Drop)]
pub struct Front<S: SwapStore + Drop> {
    /// The head of the guest's log.
    pub head: Arc<Head, Global>,
    /// The profile of the guest's processor.
    pub profile: Profile,
    /// What the guest has booted.
    pub image: Arc<Image, Global>,
    /// How many pages it has.
    pub pages: u32,
    /// The greatest number of runs of its log.
    pub limit: u32,
    /// The bytes that wait for its console.
    pub queue: ConsoleQueue,
    /// Whether it is its run, which lasts until bytes come from a slot that are not those of its run: as long as the store is true to digests.
    pub truth: Truth,
    /// The machine memory that its pages move over, for the proofs.
    pub first: Snapshot<MachineMemory<S>>,
    /// How many shares of the memory it has.
    pub shares: u32,
    /// How many of its resident pages it always keeps.
    pub minimum: u32,
}

/// What lies under the lock.
pub struct Locked {
    /// The guest.
    pub guest: Box<Guest>,
    /// Whether it is its run.
    pub keeper: Keeper,
    /// The right to take bytes from its console queue.
    pub taker: TakePass,
    /// Its account in the books of machine memory, its right to take frames, and what it wrote to its slots.
    pub stake: Stake,
    /// Whether it is to make no step while memory is low.
    pub blocked: bool,
    /// Whether a debugger holds it: it makes no step then but the debugger's.
    pub held: bool,
    /// Where the debugger's slices stop.
    pub breakpoints: Breakpoints,
}

impl Close for Locked {
    fn close(self) {
        let Locked {
            guest,
            keeper,
            taker,
            stake,
            blocked: _,
            held: _,
            breakpoints,
        } = self;
        drop(keeper);
        drop(taker);
        drop(stake);
        drop(breakpoints);
        Box::into_inner(guest).close();
    }
}

impl<S: SwapStore + Drop> Fits<Front<S>> for Locked {
    ghost use Rattle.cell.specs.Sitting.{Sits};

    ghost fits = { Sits S.true_to_digests };
}

/// A guest under its lock, of which the front is the key. Threads share it by reference.
#[derive(Drop)]
pub struct Cell<S: SwapStore + Drop> {
    /// What is reached without the lock.
    pub front: Front<S>,
    /// What lies under the lock. Whoever takes it puts back what fits the front.
    pub lock: KeyedLock<Locked, Front<S>>,
    // room for the bytes that wait when the guest ends
    pub(crate) rest: Vec<u8>,
    /// The lock's content fits the front.
    pub ghost tied: { lock.key ≡ front },
    /// There is room for all bytes that may wait.
    pub ghost room: { front.queue.room ≤ vec_capacity rest },
    /// That room is free.
    pub ghost empty: { rest.items ≡ [] },
}
