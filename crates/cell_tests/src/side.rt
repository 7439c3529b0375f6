//! A guest under its lock, with all that was handed out of it.
ghost use Rattle.std.specs.Prelude.{◌≡◌};
ghost use Rattle.cell.specs.Ends.{AreOf};

use crate::bench::{Store, Who};
use cell::{Cell, Ended, Gate, Piece, Place, ReadError, Registers, Seats, WriteError};
use console_queue::FeedPass;
use guest::{Log, Stop};
use guest_number::GuestNo;
use items::{DebugRegister, Entry, What, WriteBytes};
use machine_memory::MachineMemory;
use std::alloc::Global;
use std::sync::Wait;

/// A guest under its lock, its seats, and the right to feed its console.
#[derive(Drop)]
pub(crate) struct Side {
    /// The guest.
    pub(crate) cell: Cell<Store>,
    /// Its seats.
    pub(crate) seats: Seats,
    /// The right to put bytes for its console.
    pub(crate) feed: FeedPass,
    /// The seats are its own.
    pub(crate) ghost its_seats: { AreOf cell.front seats },
    /// The bytes are for its console.
    pub(crate) ghost its_feed: { feed.queue ≡ cell.front.queue.id },
}

/// What a guest leaves at its end.
#[derive(Clone, Copy, Debug, PartialEq, Eq)]
pub(crate) struct Left {
    /// The steps in its log.
    pub(crate) steps: u64,
    /// The bytes of input in its log.
    pub(crate) bytes: u64,
    /// The other items in its log.
    pub(crate) others: u64,
    /// The bytes that were put for its console and have not come to it.
    pub(crate) waiting: usize,
}

// Counts what an entry keeps.
fn count(left: &mut Left, entry: &Entry) {
    match entry {
        Entry::Steps { seat: _, count } => left.steps = left.steps.saturating_add(*count),
        Entry::One(item) => match &item.what {
            What::In(_) => left.bytes = left.bytes.saturating_add(1),
            _ => left.others = left.others.saturating_add(1),
        },
    }
}

// What a log has.
fn counted(log: &Log, waiting: usize) -> Left {
    let mut left = Left {
        steps: 0,
        bytes: 0,
        others: 0,
        waiting,
    };
    for entry in log.entries() {
        count(&mut left, entry);
    }
    if let Some(entry) = log.last_steps() {
        count(&mut left, &entry);
    }
    left
}

impl Side {
    ghost use Rattle.std.specs.Prelude.{◌≡◌};
    ghost use Rattle.cell.specs.Level.{IsMemoryOf};

    /// A piece of a slice, with 10 steps before it.
    pub(crate) fn piece<R: Wait, G: Gate>(
        &mut self,
        rt: &R,
        alloc: Global,
        memory: &MachineMemory<Store>,
        who: Who,
        count: u32,
        gate: &G,
    ) -> Piece
        requires { IsMemoryOf self.old.cell.front.first.value memory.now }
        ensures { self.new.cell.front ≡ self.old.cell.front }
    {
        let place = Place {
            guest: GuestNo::new(3),
            done: 10,
        };
        let cell = &self.cell;
        let seats = &mut self.seats;
        match who {
            Who::Runner => cell.piece(rt, alloc, memory, &mut seats.runner, count, place, gate),
            Who::Console => cell.piece(rt, alloc, memory, &mut seats.console, count, place, gate),
            Who::Policy => cell.piece(rt, alloc, memory, &mut seats.policy, count, place, gate),
            Who::Debugger => cell.piece(rt, alloc, memory, &mut seats.debugger, count, place, gate),
        }
    }

    /// The debugger writes bytes.
    pub(crate) fn write<R: Wait>(
        &mut self,
        rt: &R,
        alloc: Global,
        memory: &MachineMemory<Store>,
        address: u32,
        bytes: WriteBytes,
    ) -> Result<(), WriteError>
        requires { IsMemoryOf self.old.cell.front.first.value memory.now }
        ensures { self.new.cell.front ≡ self.old.cell.front }
    {
        let seat = &mut self.seats.debugger;
        self.cell.write(rt, alloc, memory, seat, address, bytes)
    }

    /// The debugger reads bytes.
    pub(crate) fn read_into<R: Wait>(
        &mut self,
        rt: &R,
        alloc: Global,
        memory: &MachineMemory<Store>,
        address: u32,
        bytes: &mut [u8],
    ) -> Result<(), ReadError>
        requires { IsMemoryOf self.old.cell.front.first.value memory.now }
        ensures { self.new.cell.front ≡ self.old.cell.front }
    {
        let seat = &mut self.seats.debugger;
        self.cell.read(rt, alloc, memory, seat, address, bytes)
    }

    /// The debugger reads two bytes: the answer, and those bytes after it.
    pub(crate) fn read<R: Wait>(
        &mut self,
        rt: &R,
        alloc: Global,
        memory: &MachineMemory<Store>,
        address: u32,
    ) -> (Result<(), ReadError>, [u8; 2])
        requires { IsMemoryOf self.old.cell.front.first.value memory.now }
        ensures { self.new.cell.front ≡ self.old.cell.front }
    {
        let mut bytes = [0xa5; 2];
        let done = self.read_into(rt, alloc, memory, address, &mut bytes);
        (done, bytes)
    }

    /// The debugger reads the registers.
    pub(crate) fn registers<R: Wait>(&mut self, rt: &R) -> Registers
        ensures { self.new.cell.front ≡ self.old.cell.front }
    {
        self.cell.registers(rt, &mut self.seats.debugger)
    }

    /// The debugger writes a register.
    pub(crate) fn poke<R: Wait>(
        &mut self,
        rt: &R,
        register: DebugRegister,
        value: u32,
    ) -> Result<(), Stop>
        ensures { self.new.cell.front ≡ self.old.cell.front }
    {
        self.cell
            .poke(rt, &mut self.seats.debugger, register, value)
    }

    /// The console's output is taken: how many bytes it is, and its first two.
    pub(crate) fn drain<R: Wait>(&mut self, rt: &R) -> Result<(usize, Option<u8>, Option<u8>), Stop>
        ensures { self.new.cell.front ≡ self.old.cell.front }
    {
        match self.cell.drain(rt, &mut self.seats.console) {
            Ok(bytes) => Ok((bytes.len(), bytes.first().copied(), bytes.get(1).copied())),
            Err(stop) => Err(stop),
        }
    }

    /// The policy sets the balloon's target.
    pub(crate) fn set_target<R: Wait>(&mut self, rt: &R, pages: u32) -> Result<(), Stop>
        ensures { self.new.cell.front ≡ self.old.cell.front }
    {
        self.cell.set_target(rt, &mut self.seats.policy, pages)
    }

    /// How long the log is, as the console's seat sees it.
    pub(crate) fn seen(&mut self) -> u64
        ensures { self.new.cell.front ≡ self.old.cell.front }
    {
        self.cell.seen(&mut self.seats.console)
    }

    /// Bytes are put for the console: how many.
    pub(crate) fn feed<R: Wait>(&mut self, rt: &R, bytes: &[u8]) -> usize
        ensures { self.new.cell.front ≡ self.old.cell.front }
    {
        self.cell.feed(rt, &mut self.feed, bytes)
    }

    /// The end of the guest.
    pub(crate) fn finish<R: Wait>(self, rt: &R) -> Left {
        let Side { cell, seats, feed } = self;
        let Ended {
            guest,
            stake: _,
            seats: _,
            rest,
            keeper: _,
        } = cell.finish(rt, seats, feed);
        let left = counted(guest.log(), rest.len());
        guest.close();
        left
    }
}
