//! What may happen in a world, and what is answered.
use crate::running::{for_room, stop_of};
use crate::{DebugError, Evicted, FaultError, Ran, RunStop, Turn};
use guest::{Refused, Stop};
use guest_number::GuestNo;
use items::Item;
use machine::{Reply, StepOut};
use page_moves::{Scan, SupplyError};
use std::alloc::AllocError;
use tenant::EvictError;
use word32::Ppn;

/// What may happen in a world. Its guests count from 0, in the order in which they were added.
#[derive(Drop)]
pub enum Event {
    /// A guest is to make one step.
    Step(GuestNo),
    /// A guest is to make at most so many steps, with no page supplied.
    Steps(GuestNo, u32),
    /// A guest is to make at most so many steps, with the pages that they need supplied.
    Run(GuestNo, u32),
    /// An item of one of a guest's seats is to happen to it, which is no step.
    Input(GuestNo, Item),
    /// A guest's console is to take these bytes of input, each by an item of seat 0, up to the first one that the machine refuses or for
    /// which the log has no room.
    Feed(GuestNo, Vec<u8>),
    /// So many bytes of a guest are to be read for a debugger from a virtual address on, 1 to 1,024 of them.
    Probe(GuestNo, u32, u32),
    /// These bytes, 1 to 1,024 of them, are to be written to a guest for a debugger from a virtual address on.
    Write(GuestNo, u32, Vec<u8>),
    /// A page of a guest is to get a frame of its own.
    Supply(GuestNo, Ppn),
    /// The page that a guest's next step needs is to get a frame of its own, if need be a victim's.
    Fault(GuestNo),
    /// A page of a guest is to leave its frame for a slot.
    Evict(GuestNo, Ppn),
    /// A page of a guest is to be scanned for one of equal bytes.
    Scan(GuestNo, Ppn),
    /// A period of the samples of all guests' pages is to end, and the next to begin.
    Sample,
    /// The policy is to make a turn.
    Level,
}

/// What became of bytes of input.
#[derive(Clone, Copy, Debug, PartialEq, Eq)]
pub struct Fed {
    /// How many of them were taken, from the first on.
    pub count: usize,
    /// Why the log had no room for the next one. `None` where all were taken, and where the machine refuses the next one.
    pub stop: Option<Stop>,
}

/// What is answered to an event.
#[derive(Drop)]
pub enum Answer {
    /// What the step of the guest answered.
    Stepped(Result<StepOut, Stop>),
    /// How many steps were made, and how they ended.
    Ran(Ran),
    /// What the guest replied to the item, or why it was refused.
    Input(Result<Reply, Refused>),
    /// How many bytes of input were taken, and what stopped it.
    Fed(Fed),
    /// The bytes that were read, or why they were not.
    Probed(Result<Vec<u8>, DebugError>),
    /// The bytes are written, or why not.
    Written(Result<(), DebugError>),
    /// The page is supplied, or why not.
    Supplied(Result<(), SupplyError>),
    /// The page that was needed is supplied, or none was needed; or why not.
    Faulted(Result<(), FaultError>),
    /// What became of the page.
    Evicted(Result<Evicted, EvictError>),
    /// What the scan of the page was answered.
    Scanned(Scan),
    /// The guests' pages are sampled.
    Sampled,
    /// What the turn of the policy did; or there was no memory to plan it, and nothing has happened.
    Turned(Result<Turn, AllocError>),
    /// The guest is blocked: it makes no step until a turn of the policy lets it go on. Nothing has happened.
    Blocked,
    /// There is no such guest, or no such page to supply. Nothing has happened.
    Nowhere,
}

impl From<Stop> for RunStop {
    ghost use Rattle.std.specs.Prelude.{◌≡◌};
    ghost use Rattle.world.specs.Events.{for_room};

    ghost from_gives = { λ stop why. why ≡ for_room stop };

    fn from(stop: Stop) -> Self {
        for_room(stop)
    }
}

impl From<FaultError> for RunStop {
    ghost use Rattle.std.specs.Prelude.{◌≡◌};
    ghost use Rattle.world.specs.Events.{stop_of};

    ghost from_gives = { λ error why. why ≡ stop_of error };

    fn from(error: FaultError) -> Self {
        stop_of(error)
    }
}
