//! How a guest comes under its lock, and how it leaves it.
ghost use Rattle.std.specs.Prelude.{◌≡◌, ◌≤◌, ◌++◌, [], true, IfOk, IfErr, vec_capacity};
ghost use Rattle.machine.specs.Boot.{boot_machine};
ghost use Rattle.guest.specs.Guests.{Intact};
ghost use Rattle.cell.specs.Inputs.{bytes_in};
ghost use Rattle.machine_memory.specs.Memories.{IsLevel};
ghost use Rattle.cell.specs.Level.{IsMemoryOf};
ghost use Rattle.cell.specs.Sitting.{IsOf, Sits, IsTrusted, RunIsWritten, front_boot};
ghost use Rattle.cell.specs.Ends.{AreOf, AreNew, IsFresh, IsSettled, AreSettled};

use crate::{Breakpoints, Cell, Front, Locked, Parts, Seat, Seats};
use console_queue::{ConsoleQueue, FeedPass, TakePass};
use guest::{Guest, Head};
use keyed_lock::KeyedLock;
use lasting_truth::{Keeper, Truth};
use machine_memory::{MachineMemory, Stake};
use std::alloc::{AllocError, AllocFailed, Global};
use std::snapshot::Snapshot;
use std::sync::{Arc, Wait};
use swapstore::SwapStore;

/// How many bytes may wait for a guest's console.
pub const QUEUE_ROOM: usize = 1024;

/// A guest under its lock, with what is handed out of it.
#[derive(Drop)]
pub struct Made<S: SwapStore + Drop> {
    /// The guest under its lock.
    pub cell: Cell<S>,
    /// Its seats.
    pub seats: Seats,
    /// The right to put bytes for its console.
    pub feed: FeedPass,
}

/// What a guest leaves at its end.
pub struct Ended {
    /// The guest.
    pub guest: Guest,
    /// Its stake in machine memory, which is level for its pages.
    pub stake: Stake,
    /// Its seats, each of which has seen the whole log.
    pub seats: Seats,
    /// The bytes that were put for its console and have not come to it.
    pub rest: Vec<u8>,
    /// Whether its truth held to the end.
    pub keeper: Keeper,
}

// What asks for memory before the guest is taken over.
#[derive(Drop)]
struct Room {
    head: Arc<Head, Global>,
    truth: Truth,
    keeper: Keeper,
    queue: ConsoleQueue,
    feed: FeedPass,
    taker: TakePass,
    rest: Vec<u8>,
}

fn make_room(alloc: Global, guest: &Guest) -> Result<Room, AllocError>
    ensures head { IfOk result (λ room. room.head.value ≡ guest.now.head) }
    ensures keeper { IfOk result (λ room. room.keeper ≡ record { truth = room.truth.id; holds = true }) }
    ensures queue { IfOk result (λ room. room.queue.room ≡ 1024) }
    ensures feed { IfOk result (λ room. room.feed ≡ record { queue = room.queue.id; put = [] }) }
    ensures taker { IfOk result (λ room. room.taker ≡ record { queue = room.queue.id; taken = [] }) }
    ensures rest { IfOk result (λ room. 1024 ≤ vec_capacity room.rest) }
    ensures empty { IfOk result (λ room. room.rest.items ≡ []) }
{
    let head = guest.head()?;
    let (truth, keeper) = Truth::new(alloc)?;
    let (queue, feed, taker) = ConsoleQueue::new(alloc, QUEUE_ROOM)?;
    let rest = Vec::with_capacity(alloc, QUEUE_ROOM)?;
    Ok(Room {
        head,
        truth,
        keeper,
        queue,
        feed,
        taker,
        rest,
    })
}

// A seat with a witness of the truth.
fn with_witness(truth: &Truth, keeper: &mut Keeper, seat: guest::Seat) -> Seat
    requires { keeper.old.truth ≡ truth.now.id }
    ensures keeper { keeper.new ≡ keeper.old }
    ensures seat { result.seat ≡ seat }
    ensures witness { result.witness ≡ record { truth = truth.now.id; held = keeper.old.holds } }
{
    let witness = truth.witness(keeper);
    Seat { seat, witness }
}

// Where there is no memory for the lock, the guest comes back.
fn lock_up<S: SwapStore + Drop>(
    alloc: Global,
    guest: Guest,
    front: &Front<S>,
    keeper: Keeper,
    taker: TakePass,
    stake: Stake,
) -> Result<KeyedLock<Locked, Front<S>>, (Guest, Stake)>
    requires boots { guest.boot ≡ front_boot front.now }
    requires head { guest.head ≡ front.now.head.value }
    requires limit { guest.log.limit ≡ front.now.limit }
    requires intact { Intact guest }
    requires items { guest.log.items ≡ [] }
    requires keeper { keeper.truth ≡ front.now.truth.id }
    requires taker { taker ≡ record { queue = front.now.queue.id; taken = [] } }
    requires holds { keeper.holds ≡ true }
    requires level { IsLevel front.now.first.value stake guest.bus.pages }
    requires written { IsTrusted S.true_to_digests front.now → RunIsWritten stake guest }
    ensures key { IfOk result (λ lock. lock.key ≡ front.now) }
    ensures guest { IfErr result (λ back. back.0 ≡ guest) }
    ensures stake { IfErr result (λ back. back.1 ≡ stake) }
{
    let guest = match Box::new(alloc, guest) {
        Ok(guest) => guest,
        Err(AllocFailed { value }) => return Err((value, stake)),
    };
    let locked = Locked {
        guest,
        keeper,
        taker,
        stake,
        blocked: false,
        held: false,
        breakpoints: Breakpoints::new(),
    };
    match KeyedLock::new(alloc, locked, front) {
        Ok(lock) => Ok(lock),
        Err(locked) => Err(into_parts(locked)),
    }
}

fn into_parts(locked: Locked) -> (Guest, Stake)
    ensures guest { result.0 ≡ locked.guest.value }
    ensures stake { result.1 ≡ locked.stake }
{
    let Locked {
        guest,
        keeper,
        taker,
        stake,
        blocked: _,
        held: _,
        breakpoints,
    } = locked;
    drop(keeper);
    drop(taker);
    drop(breakpoints);
    (Box::into_inner(guest), stake)
}

// The seat sees the whole log, and whether the truth holds.
fn settle(truth: &Truth, keeper: &mut Keeper, guest: &mut Guest, seat: &mut Seat)
    requires keeper { keeper.old.truth ≡ truth.now.id }
    requires witness { seat.old.witness.truth ≡ truth.now.id }
    requires head { seat.old.seat.head ≡ guest.old.head }
    ensures keeper { keeper.new ≡ keeper.old }
    ensures guest { guest.new ≡ guest.old }
    ensures settled { IsSettled guest.old.log.items keeper.old.holds seat.old seat.new }
{
    guest.settle(&mut seat.seat);
    truth.look(keeper, &mut seat.witness);
}

fn settle_all<S: SwapStore + Drop>(
    front: &Front<S>,
    keeper: &mut Keeper,
    guest: &mut Guest,
    seats: &mut Seats,
)
    requires keeper { keeper.old.truth ≡ front.now.truth.id }
    requires head { guest.old.head ≡ front.now.head.value }
    requires seats { AreOf front.now seats.old }
    ensures keeper { keeper.new ≡ keeper.old }
    ensures guest { guest.new ≡ guest.old }
    ensures settled { AreSettled guest.old.log.items keeper.old.holds seats.old seats.new }
{
    settle(&front.truth, keeper, guest, &mut seats.runner);
    settle(&front.truth, keeper, guest, &mut seats.console);
    settle(&front.truth, keeper, guest, &mut seats.policy);
    settle(&front.truth, keeper, guest, &mut seats.debugger);
}

fn take_apart<S: SwapStore + Drop, R: Wait>(
    rt: &R,
    front: Front<S>,
    locked: Locked,
    mut rest: Vec<u8>,
    mut seats: Seats,
    feed: FeedPass,
) -> Ended
    requires sits { Sits S.true_to_digests front locked }
    requires room { front.queue.room ≤ vec_capacity rest }
    requires empty { rest.items ≡ [] }
    requires seats { AreOf front seats }
    requires feed { feed.queue ≡ front.queue.id }
    ensures guest { result.guest ≡ locked.guest.value }
    ensures keeper { result.keeper ≡ locked.keeper }
    ensures stake { result.stake ≡ locked.stake }
    ensures seats { AreSettled locked.guest.value.log.items locked.keeper.holds seats result.seats }
    ensures input { feed.put ≡ bytes_in locked.guest.value.log.items ++ result.rest.items }
{
    let Locked {
        guest,
        mut keeper,
        taker,
        stake,
        blocked: _,
        held: _,
        breakpoints,
    } = locked;
    drop(breakpoints);
    let mut guest = Box::into_inner(guest);
    settle_all(&front, &mut keeper, &mut guest, &mut seats);
    front.queue.rest(rt, feed, taker, &mut rest);
    drop(front);
    Ended {
        guest,
        stake,
        seats,
        rest,
        keeper,
    }
}

impl<S: SwapStore + Drop> Cell<S> {
    ghost use Rattle.std.specs.Prelude.{◌≡◌, ◌++◌, [], true, IfOk, IfErr};
    ghost use Rattle.machine.specs.Boot.{boot_machine};
    ghost use Rattle.guest.specs.Guests.{Intact};
    ghost use Rattle.cell.specs.Inputs.{bytes_in};
    ghost use Rattle.machine_memory.specs.Memories.{IsLevel};
    ghost use Rattle.cell.specs.Level.{IsMemoryOf};
    ghost use Rattle.cell.specs.Sitting.{IsTrusted, RunIsWritten, front_boot};
    ghost use Rattle.cell.specs.Ends.{AreOf, AreNew, IsFresh, AreSettled, HasParts};

    /// A guest at its boot, whose pages move over this machine memory, comes under a lock, with room for 1,024 bytes that wait for its
    /// console. Where the store is true to digests, the pages that are in slots were written to them as they are at the boot. All comes back
    /// where there is no memory for it.
    pub fn new(alloc: Global, memory: &MachineMemory<S>, parts: Parts) -> Result<Made<S>, Parts>
        requires boots { parts.guest.boot ≡ boot_machine parts.profile parts.image.value parts.pages }
        requires limit { parts.guest.log.limit ≡ parts.limit }
        requires items { parts.guest.log.items ≡ [] }
        requires intact { Intact parts.guest }
        requires level { IsLevel memory.now parts.stake parts.guest.bus.pages }
        requires written { S.true_to_digests memory.now.first → RunIsWritten parts.stake parts.guest }
        requires runner { IsFresh parts.guest.head 0 parts.runner }
        requires console { IsFresh parts.guest.head 1 parts.console }
        requires policy { IsFresh parts.guest.head 2 parts.policy }
        requires debugger { IsFresh parts.guest.head 3 parts.debugger }
        ensures front { IfOk result (λ made. HasParts made.cell.front parts) }
        ensures memory { IfOk result (λ made. IsMemoryOf made.cell.front.first.value memory.now) }
        ensures seats { IfOk result (λ made. AreOf made.cell.front made.seats) }
        ensures fresh { IfOk result (λ made. AreNew made.seats) }
        ensures feed { IfOk result (λ made. made.feed ≡ record { queue = made.cell.front.queue.id; put = [] }) }
        ensures back { IfErr result (λ back. back ≡ parts) }
    {
        let Ok(room) = make_room(alloc, &parts.guest) else {
            return Err(parts);
        };
        Cell::of(alloc, room, memory, parts)
    }

    fn of(
        alloc: Global,
        room: Room,
        memory: &MachineMemory<S>,
        parts: Parts,
    ) -> Result<Made<S>, Parts>
        requires boots { parts.guest.boot ≡ boot_machine parts.profile parts.image.value parts.pages }
        requires limit { parts.guest.log.limit ≡ parts.limit }
        requires items { parts.guest.log.items ≡ [] }
        requires intact { Intact parts.guest }
        requires level { IsLevel memory.now parts.stake parts.guest.bus.pages }
        requires written { S.true_to_digests memory.now.first → RunIsWritten parts.stake parts.guest }
        requires runner { IsFresh parts.guest.head 0 parts.runner }
        requires console { IsFresh parts.guest.head 1 parts.console }
        requires policy { IsFresh parts.guest.head 2 parts.policy }
        requires debugger { IsFresh parts.guest.head 3 parts.debugger }
        requires head { room.head.value ≡ parts.guest.head }
        requires keeper { room.keeper ≡ record { truth = room.truth.id; holds = true } }
        requires queue { room.queue.room ≡ 1024 }
        requires feed { room.feed ≡ record { queue = room.queue.id; put = [] } }
        requires taker { room.taker ≡ record { queue = room.queue.id; taken = [] } }
        requires rest { 1024 ≤ vec_capacity room.rest }
        requires empty { room.rest.items ≡ [] }
        ensures front { IfOk result (λ made. HasParts made.cell.front parts) }
        ensures memory { IfOk result (λ made. IsMemoryOf made.cell.front.first.value memory.now) }
        ensures seats { IfOk result (λ made. AreOf made.cell.front made.seats) }
        ensures fresh { IfOk result (λ made. AreNew made.seats) }
        ensures feed { IfOk result (λ made. made.feed ≡ record { queue = made.cell.front.queue.id; put = [] }) }
        ensures back { IfErr result (λ back. back ≡ parts) }
    {
        let Room {
            head,
            truth,
            mut keeper,
            queue,
            feed,
            taker,
            rest,
        } = room;
        let Parts {
            guest,
            runner,
            console,
            policy,
            debugger,
            stake,
            profile,
            image,
            pages,
            limit,
            shares,
            minimum,
        } = parts;
        let front = Front {
            head,
            profile,
            image,
            pages,
            limit,
            queue,
            truth,
            first: Snapshot::of(memory),
            shares,
            minimum,
        };
        let seats = Seats {
            runner: with_witness(&front.truth, &mut keeper, runner),
            console: with_witness(&front.truth, &mut keeper, console),
            policy: with_witness(&front.truth, &mut keeper, policy),
            debugger: with_witness(&front.truth, &mut keeper, debugger),
        };
        match lock_up(alloc, guest, &front, keeper, taker, stake) {
            Ok(lock) => Ok(Made {
                cell: Cell { front, lock, rest },
                seats,
                feed,
            }),
            Err((guest, stake)) => Err(parts_again(guest, stake, front, seats)),
        }
    }

    /// Ends the lock and the console queue, once no thread uses them: the guest, which is its run while its truth holds; its seats, each of
    /// which was legal for its log and has seen it; and the bytes that were put for its console and have not come to it.
    ///
    /// Where its truth holds, it held whenever a seat looked before: so what each call answered about the seat's truth stands. It holds where the
    /// swap store was true to digests when the memory was made.
    pub fn finish<R: Wait>(self, rt: &R, seats: Seats, feed: FeedPass) -> Ended
        requires seats { AreOf self.front seats }
        requires feed { feed.queue ≡ self.front.queue.id }
        ensures boots { result.guest.boot ≡ front_boot self.front }
        ensures head { result.guest.head ≡ self.front.head.value }
        ensures limit { result.guest.log.limit ≡ self.front.limit }
        ensures level { IsLevel self.front.first.value result.stake result.guest.bus.pages }
        ensures is_run { result.keeper.holds ≡ true → Intact result.guest }
        ensures lasts_with_store { IsTrusted S.true_to_digests self.front → result.keeper.holds ≡ true }
        ensures written { IsTrusted S.true_to_digests self.front → RunIsWritten result.stake result.guest }
        ensures seats { AreSettled result.guest.log.items result.keeper.holds seats result.seats }
        ensures input { feed.put ≡ bytes_in result.guest.log.items ++ result.rest.items }
    {
        let Cell { front, lock, rest } = self;
        let (locked, loan) = lock.take(rt);
        loan.keep();
        drop(lock);
        take_apart(rt, front, locked, rest, seats, feed)
    }
}

fn parts_again<S: SwapStore + Drop>(
    guest: Guest,
    stake: Stake,
    front: Front<S>,
    seats: Seats,
) -> Parts
    ensures { result ≡ record {
      guest = guest;
      runner = seats.runner.seat;
      console = seats.console.seat;
      policy = seats.policy.seat;
      debugger = seats.debugger.seat;
      stake = stake;
      profile = front.profile;
      image = front.image;
      pages = front.pages;
      limit = front.limit;
      shares = front.shares;
      minimum = front.minimum;
    } }
{
    let Front {
        head,
        profile,
        image,
        pages,
        limit,
        queue,
        truth,
        first,
        shares,
        minimum,
    } = front;
    drop(first);
    drop(head);
    drop(queue);
    drop(truth);
    let Seats {
        runner,
        console,
        policy,
        debugger,
    } = seats;
    Parts {
        guest,
        runner: into_seat(runner),
        console: into_seat(console),
        policy: into_seat(policy),
        debugger: into_seat(debugger),
        stake,
        profile,
        image,
        pages,
        limit,
        shares,
        minimum,
    }
}

fn into_seat(seat: Seat) -> guest::Seat
    ensures { result ≡ seat.seat }
{
    let Seat { seat, witness } = seat;
    drop(witness);
    seat
}
