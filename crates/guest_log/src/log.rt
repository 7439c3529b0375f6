//! The log.
ghost use Rattle.std.specs.Prelude.{◌≡◌, ◌==◌, ◌+◌, ◌<◌, ◌≤◌, ◌^◌, ◌↔◌, [], ◌∷◌, ◌++◌};
ghost use Rattle.std.specs.Prelude.{false, length, All, OnOk, OnErr, Err, IsErrOf, IfSome, IsTrue, option_to_list};
ghost use Rattle.items.specs.Items.{is_step};
ghost use Rattle.items.specs.Entries.{step_by, steps_of, items_of};
ghost use Rattle.guest_log.specs.Logs.{LogIs, HasRoom, HasRoomFor, HasItemRoom, IsFull, TakesRoom};
ghost use Rattle.guest_log.specs.Runs.{run_count, last_run, IsStored};

use crate::Stop;
use crate::run::Run;
use items::{Entry, Item, SeatNo};
use std::alloc::Global;
use std::marker::Model;

/// Where more room is asked for, it is for as many runs as there are, and so many more.
const SPARE_RUNS: usize = 16;

/// What happened to a guest: in clauses a list of items, with the room and the limit of the log. Neighbouring steps of one
/// seat are one run, so a step by the seat of the last run takes no room. Any other item is a run by itself.
#[derive(Drop)]
pub struct Log {
    /// The entries before the last run of steps.
    earlier: Vec<Entry>,
    /// How many items those have.
    before: u64,
    /// The run of steps that the items end in; it has no steps where there is no item or the last one is no step.
    last: Run,
    /// The greatest number of runs.
    limit: u32,
}

impl Model for Log {
    ghost use Rattle.std.specs.Prelude.{◌-◌, vec_capacity, vec_len};
    ghost use Rattle.guest_log.specs.Logs.{LogIs};

    ghost Value = { LogIs };

    ghost use Rattle.items.specs.Entries.{items_of};
    ghost use Rattle.guest_log.specs.Stored.{entries_of, Keeps};

    ghost view = { λ g. record { items = items_of (entries_of g.earlier.items g.last); room = vec_capacity g.earlier - vec_len g.earlier; limit = g.limit } };

    ghost invariant = { λ g. Keeps g.earlier.items g.before g.last g.limit };
}

impl Log {
    /// A log of nothing, of at most `limit` runs.
    pub fn new(alloc: Global, limit: u32) -> Log
        ensures items { result.items ≡ [] }
        ensures limit { result.limit ≡ limit }
    {
        Log {
            earlier: Vec::new(alloc),
            before: 0,
            last: Run {
                seat: SeatNo::runner(),
                steps: 0,
            },
            limit,
        }
    }

    /// A law of every log: it has at most its limit of runs, and at most 2^62 items.
    pub fn within(&self)
        ensures runs { run_count self.now.items ≤ self.now.limit }
        ensures limit { self.now.limit < 2 ^ 32 }
        ensures items { length self.now.items ≤ 2 ^ 62 }
    {
        // The law follows from the invariant, which is known once the value is read.
        let _limit = self.limit;
    }

    /// How many items it has, at most 2^62.
    pub fn len(&self) -> u64
        ensures { result ≡ length self.now.items }
    {
        self.before + self.last.steps
    }

    /// Whether it has no item.
    pub fn is_empty(&self) -> bool
        ensures { result ≡ (length self.now.items == 0) }
    {
        self.len() == 0
    }

    /// How many runs they are stored in, at most the limit: one for each item but the steps that follow a step of the same
    /// seat.
    pub fn runs(&self) -> u32
        ensures fewest { result ≡ run_count self.now.items }
        ensures within { result ≤ self.now.limit }
    {
        // That the limit fits its type says that the runs do.
        let _limit = self.limit;
        self.earlier.len() as u32 + if self.last.steps == 0 { 0 } else { 1 }
    }

    /// Whether it has its greatest number of runs, or 2^62 items.
    #[inline]
    fn is_full(&self) -> bool
        ensures { IsTrue result ↔ IsFull self.now }
    {
        self.runs() >= self.limit || self.len() >= 1 << 62
    }

    /// Makes room for so many more entries; where there is less, for many at once, so that the requests are few.
    #[inline]
    fn reserve(&mut self, entries: usize) -> Result<(), Stop>
        requires { entries ≤ 16 }
        ensures room { OnOk result (entries ≤ self.new.room) }
        ensures error { OnErr result (result ≡ Err Stop.Memory) }
        ensures taken { TakesRoom self.old self.new }
    {
        if self.earlier.capacity() - self.earlier.len() >= entries {
            return Ok(());
        }
        self.grow()
    }

    // Requests for memory are rare: they stand apart, so that the room of a step is one comparison.
    #[cold]
    #[inline(never)]
    fn grow(&mut self) -> Result<(), Stop>
        ensures room { OnOk result (16 ≤ self.new.room) }
        ensures error { OnErr result (result ≡ Err Stop.Memory) }
        ensures taken { TakesRoom self.old self.new }
    {
        match self.earlier.reserve_exact(self.earlier.len() + SPARE_RUNS) {
            Ok(()) => Ok(()),
            Err(_) => Err(Stop::Memory),
        }
    }

    /// Makes room for one more step, whichever seat it is of. The log stays, and the room becomes at most that for as many more
    /// runs as there are, and 16.
    ///
    /// It answers `LogFull` exactly where the log has its greatest number of runs or 2^62 items, and `Memory` only where a
    /// request for memory was refused.
    #[inline]
    pub fn make_room(&mut self) -> Result<(), Stop>
        ensures room { OnOk result (HasRoom self.new) }
        ensures full { IsErrOf result Stop.LogFull ↔ IsFull self.old }
        ensures taken { TakesRoom self.old self.new }
    {
        if self.is_full() {
            return Err(Stop::LogFull);
        }
        self.reserve(1)
    }

    /// Adds a step of a seat. It takes no memory.
    #[inline]
    pub fn step(&mut self, seat: SeatNo)
        requires { HasRoom self.old }
        ensures items { self.new.items ≡ self.old.items ++ step_by seat ∷ [] }
        ensures limit { self.new.limit ≡ self.old.limit }
    {
        if self.last.seat.number() == seat.number() {
            self.last.steps += 1;
        } else {
            self.last.store(&mut self.earlier);
            self.before += self.last.steps;
            self.last = Run { seat, steps: 1 };
        }
    }

    /// Whether it has at most one run less than its limit.
    #[inline]
    fn has_one_run_left(&self) -> bool
        ensures { IsTrue result ↔ self.now.limit ≤ run_count self.now.items + 1 }
    {
        u64::from(self.runs()) + 1 >= u64::from(self.limit)
    }

    /// Whether it would be full of runs with one more step of a seat.
    #[inline]
    fn is_full_after(&self, seat: SeatNo) -> bool
        requires { HasRoom self.now }
        ensures { IsTrue result ↔ self.now.limit ≤ run_count (self.now.items ++ step_by seat ∷ []) }
    {
        if self.last.steps == 0 {
            return self.has_one_run_left();
        }
        if seat.number() == self.last.seat.number() {
            return false;
        }
        self.has_one_run_left()
    }

    /// How many of `count` steps of a seat, one after another, find room: all of them, but where the log would be full before the
    /// last. There is room for one.
    #[inline]
    pub fn steps_with_room(&self, seat: SeatNo, count: u32) -> u32
        requires { HasRoom self.now }
        ensures few { result ≤ count }
        ensures some { 0 < count → 0 < result }
        ensures room { HasRoomFor self.now seat result }
        ensures fewer { result < count → IsFull (record self.now { items = self.now.items ++ steps_of seat result }) }
    {
        if self.is_full_after(seat) {
            return count.min(1);
        }
        let left = (1 << 62) - self.len();
        if u64::from(count) <= left {
            count
        } else {
            left as u32
        }
    }

    /// Adds so many steps of a seat, one at least. It takes no memory.
    #[inline]
    pub fn steps(&mut self, seat: SeatNo, count: u32)
        requires some { 0 < count }
        requires room { HasRoomFor self.old seat count }
        ensures items { self.new.items ≡ self.old.items ++ steps_of seat count }
        ensures limit { self.new.limit ≡ self.old.limit }
    {
        if seat.number() == self.last.seat.number() {
            self.last.steps += u64::from(count);
        } else {
            Run::store(self.last, &mut self.earlier);
            self.before += self.last.steps;
            self.last = Run {
                seat,
                steps: u64::from(count),
            };
        }
    }

    /// Makes room for one more item, whichever it is. The log stays, and the room becomes at most as `make_room` makes it.
    ///
    /// It answers `LogFull` exactly where the log has its greatest number of runs or 2^62 items, and `Memory` only where a
    /// request for memory was refused.
    pub fn make_item_room(&mut self) -> Result<(), Stop>
        ensures room { OnOk result (HasItemRoom self.new) }
        ensures full { IsErrOf result Stop.LogFull ↔ IsFull self.old }
        ensures taken { TakesRoom self.old self.new }
    {
        if self.is_full() {
            return Err(Stop::LogFull);
        }
        self.reserve(2)
    }

    /// Adds an item that is no step. It takes no memory.
    pub fn add(&mut self, item: Item)
        requires room { HasItemRoom self.old }
        requires other { is_step item.what ≡ false }
        ensures items { self.new.items ≡ self.old.items ++ item ∷ [] }
        ensures limit { self.new.limit ≡ self.old.limit }
    {
        self.last.store(&mut self.earlier);
        self.earlier.push_reserved(Entry::One(item));
        self.before += self.last.steps + 1;
        self.last.steps = 0;
    }

    /// The entries that it is stored in, but for the run of steps that the items end in, which `last_steps` gives.
    pub fn entries(&self) -> &[Entry]
        ensures items { items_of (result.now ++ option_to_list (last_run self.now.items)) ≡ self.now.items }
        ensures fewest { length (result.now ++ option_to_list (last_run self.now.items)) ≡ run_count self.now.items }
        ensures stored { All IsStored result.now }
    {
        let entries = self.earlier.as_slice();
        entries
    }

    /// The run of steps that the items end in, which follows the `entries`; none where the last item is no step.
    pub fn last_steps(&self) -> Option<Entry>
        ensures run { result ≡ last_run self.now.items }
        ensures stored { IfSome result IsStored }
    {
        self.last.entry()
    }
}
