//! Answers.
ghost use Rattle.std.specs.Prelude.{◌≡◌};

use guest::Stop;
use guest_number::GuestNo;
use machine_memory::BookCounts;
use monitor::Fault;
use reclaim::Level;

/// Whether a guest makes steps.
#[derive(Clone, Copy, Debug, PartialEq, Eq)]
pub enum Way {
    /// It runs.
    Runs,
    /// It is held, by the monitor or a debugger.
    Held,
    /// It is to make no step while memory is low.
    Blocked,
    /// The last slice of its runner ended by a stop of this number.
    Stopped(u32),
}

/// How a guest stands.
#[derive(Clone, Copy, Debug, PartialEq, Eq)]
pub struct GuestLine {
    /// Its number.
    pub guest: GuestNo,
    /// How many pages it has.
    pub pages: u32,
    /// How many of them are in a frame, their own or a shared one.
    pub resident: u32,
    /// How many its balloon holds.
    pub given: u32,
    /// How many are in slots.
    pub swapped: u32,
    /// How many shares of the memory it has.
    pub shares: u32,
    /// Whether it makes steps.
    pub way: Way,
}

/// What is answered to an order.
#[derive(Drop)]
pub enum Answer {
    /// It is done.
    Done,
    /// How each guest stands, in the order of their numbers.
    Guests(Vec<GuestLine>),
    /// The books of frames, pages and slots.
    Books(BookCounts),
    /// The level of free memory.
    Level(Level),
    /// How many items the log of a guest has, and how many runs these are.
    Log {
        guest: GuestNo,
        items: u64,
        runs: u32,
    },
    /// How many bytes were put for a guest's console.
    Put {
        guest: GuestNo,
        count: usize,
    },
    /// What a guest's console has put out.
    Output {
        guest: GuestNo,
        bytes: Vec<u8>,
    },
    /// How many frames and slots are left over by the minimums, where the guests were admitted by these.
    Room(Option<(u32, u32)>),
    /// The orders that there are.
    Help,
    /// The log of the guest has no room for an item, or there is no memory for it.
    Stopped(Stop),
    /// The line has a fault, or there is no memory for the answer.
    Refused(Fault),
}
