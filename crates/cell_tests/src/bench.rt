//! Two guests over one memory.
ghost use Rattle.cell.specs.Level.{IsMemoryOf};

use crate::crooked::CrookedStore;
use crate::side::{Left, Side};
use cell::{Cell, End, Kept, Open, ReadError, Registers, WriteError};
use guest::Stop;
use guest_number::GuestNo;
use items::{DebugRegister, WriteBytes};
use machine_memory::MachineMemory;
use page_moves::Scan;
use std::alloc::Global;
use std::fmt::Debug;
use std::process::Abort;
use std::sync::Wait;
use swapstore::{FaultStore, Op};
use word32::Ppn;

/// A store of which a call can fail, and a read can lie.
pub(crate) type Store = FaultStore<CrookedStore>;

/// What a bench is to have.
#[derive(Clone, Copy)]
pub(crate) struct Wanted {
    /// The greatest number of runs of a guest's log.
    pub(crate) limit: u32,
    /// How many of its resident pages a guest always keeps.
    pub(crate) minimum: u32,
    /// The kind of calls of the store of which one fails.
    pub(crate) op: Op,
    /// Which of them, from 1 on.
    pub(crate) failing: u64,
    /// Which read of the store lies, from 1 on; none where it is 0.
    pub(crate) crooked_read: u64,
}

/// Room for all, and a store that does what it is asked.
pub(crate) const PLAIN: Wanted = Wanted {
    limit: 4096,
    minimum: 2,
    op: Op::Read,
    failing: 1_000_000,
    crooked_read: 0,
};

/// A guest of the two.
#[derive(Clone, Copy, PartialEq, Eq)]
pub(crate) enum Which {
    /// The first.
    One,
    /// The second.
    Two,
}

/// A seat of a guest.
#[derive(Clone, Copy, PartialEq, Eq)]
pub(crate) enum Who {
    /// Seat 0.
    Runner,
    /// Seat 1.
    Console,
    /// Seat 2.
    Policy,
    /// Seat 3.
    Debugger,
}

/// Two guests over one memory.
#[derive(Drop)]
pub(crate) struct Bench {
    /// The memory.
    pub(crate) memory: MachineMemory<Store>,
    /// The first guest.
    pub(crate) one: Side,
    /// The second one.
    pub(crate) two: Side,
    /// The memory is the first guest's.
    pub(crate) ghost of_one: { IsMemoryOf one.cell.front.first.value memory },
    /// And the second one's.
    pub(crate) ghost of_two: { IsMemoryOf two.cell.front.first.value memory },
}

/// Asserts one case. The tests share it, since each assertion in a function's own body makes its proof much longer.
pub(crate) fn expect<T: PartialEq + Debug + Drop>(
    rt: &impl Abort,
    case: &'static str,
    got: T,
    wanted: T,
) {
    assert!(rt; got == wanted, "{case}: {got:?}, not {wanted:?}");
}

/// The bytes of words, in order.
pub(crate) fn bytes_of(rt: &impl Abort, alloc: Global, words: &[u32]) -> WriteBytes {
    let mut bytes = Vec::new(alloc);
    for word in words {
        if bytes.extend_from_slice(&word.to_le_bytes()).is_err() {
            panic!(rt; "no memory for the words");
        }
    }
    if bytes.len() > 65_535 {
        panic!(rt; "too many words");
    }
    WriteBytes::from_vec(bytes)
}

impl Bench {
    ghost use Rattle.std.specs.Prelude.{◌<◌};

    /// A piece of a slice: how many steps were made, and why no more.
    pub(crate) fn piece<R: Wait>(
        &mut self,
        rt: &R,
        alloc: Global,
        which: Which,
        who: Who,
        count: u32,
    ) -> (u32, End) {
        let piece = match which {
            Which::One => self.one.piece(rt, alloc, &self.memory, who, count, &Open),
            Which::Two => self.two.piece(rt, alloc, &self.memory, who, count, &Open),
        };
        (piece.steps, piece.end)
    }

    /// The debugger writes words.
    pub(crate) fn write<R: Wait + Abort>(
        &mut self,
        rt: &R,
        alloc: Global,
        which: Which,
        address: u32,
        words: &[u32],
    ) -> Result<(), WriteError> {
        let bytes = bytes_of(rt, alloc, words);
        match which {
            Which::One => self.one.write(rt, alloc, &self.memory, address, bytes),
            Which::Two => self.two.write(rt, alloc, &self.memory, address, bytes),
        }
    }

    /// The debugger reads two bytes.
    pub(crate) fn read<R: Wait>(
        &mut self,
        rt: &R,
        alloc: Global,
        which: Which,
        address: u32,
    ) -> (Result<(), ReadError>, [u8; 2]) {
        match which {
            Which::One => self.one.read(rt, alloc, &self.memory, address),
            Which::Two => self.two.read(rt, alloc, &self.memory, address),
        }
    }

    /// The debugger reads the registers.
    pub(crate) fn registers<R: Wait>(&mut self, rt: &R, which: Which) -> Registers {
        match which {
            Which::One => self.one.registers(rt),
            Which::Two => self.two.registers(rt),
        }
    }

    /// The debugger writes a register.
    pub(crate) fn poke<R: Wait + Abort>(
        &mut self,
        rt: &R,
        which: Which,
        register: u8,
        value: u32,
    ) -> Result<(), Stop> {
        let Some(register) = DebugRegister::find(register) else {
            panic!(rt; "no register {register}");
        };
        match which {
            Which::One => self.one.poke(rt, register, value),
            Which::Two => self.two.poke(rt, register, value),
        }
    }

    /// The console's output is taken: how many bytes, and the first two.
    pub(crate) fn drain<R: Wait>(
        &mut self,
        rt: &R,
        which: Which,
    ) -> Result<(usize, Option<u8>, Option<u8>), Stop> {
        match which {
            Which::One => self.one.drain(rt),
            Which::Two => self.two.drain(rt),
        }
    }

    /// The policy sets the balloon's target.
    pub(crate) fn set_target<R: Wait>(
        &mut self,
        rt: &R,
        which: Which,
        pages: u32,
    ) -> Result<(), Stop> {
        match which {
            Which::One => self.one.set_target(rt, pages),
            Which::Two => self.two.set_target(rt, pages),
        }
    }

    /// How long the log is.
    pub(crate) fn seen(&mut self, which: Which) -> u64 {
        match which {
            Which::One => self.one.seen(),
            Which::Two => self.two.seen(),
        }
    }

    /// Bytes are put for the console: how many.
    pub(crate) fn feed<R: Wait>(&mut self, rt: &R, which: Which, bytes: &[u8]) -> usize {
        match which {
            Which::One => self.one.feed(rt, bytes),
            Which::Two => self.two.feed(rt, bytes),
        }
    }

    /// A page leaves its frame.
    pub(crate) fn evict<R: Wait>(&self, rt: &R, which: Which, word: u32) -> Result<u32, Kept> {
        let done = match which {
            Which::One => self.one.cell.evict(rt, &self.memory, word),
            Which::Two => self.two.cell.evict(rt, &self.memory, word),
        };
        match done {
            Ok(page) => Ok(page.number()),
            Err(kept) => Err(kept),
        }
    }

    /// A page is scanned.
    pub(crate) fn scan<R: Wait>(&self, rt: &R, which: Which, page: u32) -> Scan
        requires { page < 1048576 }
    {
        let page = Ppn::new(page);
        match which {
            Which::One => self.one.cell.scan(rt, &self.memory, GuestNo::new(0), page),
            Which::Two => self.two.cell.scan(rt, &self.memory, GuestNo::new(1), page),
        }
    }

    /// A guest under its lock.
    pub(crate) fn cell(&self, which: Which) -> &Cell<Store> {
        match which {
            Which::One => &self.one.cell,
            Which::Two => &self.two.cell,
        }
    }

    /// The end: what the guests leave.
    pub(crate) fn finish<R: Wait>(self, rt: &R) -> (Left, Left) {
        let Bench { memory, one, two } = self;
        let one = one.finish(rt);
        let two = two.finish(rt);
        drop(memory);
        (one, two)
    }
}
