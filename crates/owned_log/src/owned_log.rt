//! The log of a guest with the pen that alone appends to it.
ghost use Rattle.std.specs.Prelude.{◌≡◌, ◌+◌, ◌<◌, ◌≤◌, ◌↔◌, ◌++◌, false, [], IfOk, OnOk, IsErrOf};
ghost use Rattle.items.specs.Entries.{step_by, steps_of};
ghost use Rattle.items.specs.Items.{is_step};
ghost use Rattle.guest_log.specs.Logs.{HasRoom, HasRoomFor, HasItemRoom, IsFull, TakesRoom};
ghost use Rattle.log_seats.specs.Legal.{Legal};
ghost use Rattle.owned_log.specs.OwnedLogs.{OwnedLogIs, Adds, AddsSteps};

use guest_log::{Log, Stop};
use items::{Item, What};
use log_seats::{Head, Pen, Seat};
use std::alloc::{AllocError, Global};
use std::marker::Model;
use std::sync::Arc;

/// The log of a guest, and the pen of its head: the items of the log are those that the pen appended. In clauses it is a record,
/// `OwnedLogIs`.
#[derive(Drop)]
pub struct OwnedLog {
    log: Log,
    head: Arc<Head, Global>,
    pen: Pen,
}

impl Model for OwnedLog {
    ghost use Rattle.owned_log.specs.OwnedLogs.{OwnedLogIs, IsPenOf};

    ghost Value = { OwnedLogIs };

    ghost view = { λ j. record { log = j.log; head = j.head.value; seats = j.pen.next } };

    ghost invariant = { λ j. IsPenOf j.pen j.head.value j.log };
}

impl OwnedLog {
    /// A log of no item, of at most `runs` runs, and no seat.
    pub fn new(alloc: Global, runs: u32) -> Result<OwnedLog, AllocError>
        ensures items { IfOk result (λ j. j.log.items ≡ []) }
        ensures limit { IfOk result (λ j. j.log.limit ≡ runs) }
        ensures seats { IfOk result (λ j. j.seats ≡ 0) }
    {
        let (head, pen) = Head::new(alloc)?;
        Ok(OwnedLog {
            log: Log::new(alloc, runs),
            head: Arc::new(alloc, head)?,
            pen,
        })
    }

    /// The log.
    pub fn log(&self) -> &Log
        ensures { result.now ≡ self.now.log }
    {
        &self.log
    }

    /// The head, for those who share it. `AllocError` where no further owner can be counted.
    pub fn head(&self) -> Result<Arc<Head, Global>, AllocError>
        ensures { IfOk result (λ head. head.value ≡ self.now.head) }
    {
        self.head.clone()
    }

    /// How many seats there are.
    pub fn seats(&self) -> u8
        ensures { result ≡ self.now.seats }
    {
        self.pen.seats()
    }

    /// The next seat, which has seen nothing.
    pub fn seat(&mut self) -> Seat
        requires { self.old.seats < 4 }
        ensures owned_log { self.new ≡ record self.old { seats = self.old.seats + 1 } }
        ensures seat { result ≡ record { head = self.old.head; number = self.old.seats; saw = []; made = [] } }
    {
        self.head.seat(&mut self.pen)
    }

    /// Makes room for a step, as `Log::make_room`.
    #[inline]
    pub fn make_room(&mut self) -> Result<(), Stop>
        ensures room { OnOk result (HasRoom self.new.log) }
        ensures full { IsErrOf result Stop.LogFull ↔ IsFull self.old.log }
        ensures taken { TakesRoom self.old.log self.new.log }
        ensures head { (self.new.head ≡ self.old.head) × (self.new.seats ≡ self.old.seats) }
    {
        self.log.make_room()
    }

    /// Makes room for an item that is no step, as `Log::make_item_room`.
    pub fn make_item_room(&mut self) -> Result<(), Stop>
        ensures room { OnOk result (HasItemRoom self.new.log) }
        ensures full { IsErrOf result Stop.LogFull ↔ IsFull self.old.log }
        ensures taken { TakesRoom self.old.log self.new.log }
        ensures head { (self.new.head ≡ self.old.head) × (self.new.seats ≡ self.old.seats) }
    {
        self.log.make_item_room()
    }

    /// Adds a step of the seat. Other seats may not see it before `publish`.
    #[inline]
    pub fn step(&mut self, seat: &mut Seat)
        requires head { seat.old.head ≡ self.old.head }
        requires room { HasRoom self.old.log }
        ensures adds { Adds self.old.log seat.old (step_by seat.old.number) self.new.log seat.new }
        ensures head { (self.new.head ≡ self.old.head) × (self.new.seats ≡ self.old.seats) }
    {
        self.head.append_step(&mut self.pen, seat);
        self.log.step(seat.number());
    }

    /// How many of `count` steps of the seat, one after another, find room, as `Log::steps_with_room`.
    #[inline]
    pub fn steps_with_room(&self, seat: &Seat, count: u32) -> u32
        requires { HasRoom self.now.log }
        ensures few { result ≤ count }
        ensures some { 0 < count → 0 < result }
        ensures room { HasRoomFor self.now.log seat.now.number result }
        ensures fewer { result < count → IsFull (record self.now.log { items = self.now.log.items ++ steps_of seat.now.number result }) }
    {
        self.log.steps_with_room(seat.number(), count)
    }

    /// Adds so many steps of the seat, one at least. Every seat that looks from now on may see them.
    #[tactic(auto, unfolding(items::specs::Entries::steps_of))]
    #[inline]
    pub fn steps(&mut self, seat: &mut Seat, count: u32)
        requires head { seat.old.head ≡ self.old.head }
        requires some { 0 < count }
        requires room { HasRoomFor self.old.log seat.old.number count }
        ensures adds { AddsSteps self.old.log seat.old count self.new.log seat.new }
        ensures head { (self.new.head ≡ self.old.head) × (self.new.seats ≡ self.old.seats) }
    {
        let step = Item {
            seat: seat.number(),
            what: What::Step,
        };
        self.head
            .append_many(&mut self.pen, seat, &step, u64::from(count));
        self.log.steps(seat.number(), count);
    }

    /// Adds an item of the seat that is no step.
    pub fn add(&mut self, item: Item, seat: &mut Seat)
        requires head { seat.old.head ≡ self.old.head }
        requires own { item.seat ≡ seat.old.number }
        requires room { HasItemRoom self.old.log }
        requires other { is_step item.what ≡ false }
        ensures adds { Adds self.old.log seat.old item self.new.log seat.new }
        ensures head { (self.new.head ≡ self.old.head) × (self.new.seats ≡ self.old.seats) }
    {
        self.head.append(&mut self.pen, seat, &item);
        self.log.add(item);
    }

    /// Shows every seat that looks from now on the whole log.
    #[inline]
    pub fn publish(&mut self)
        ensures { self.new ≡ self.old }
    {
        self.head.publish(&mut self.pen);
    }

    /// Shows the seat the whole log, for which it is legal.
    pub fn settle(&mut self, seat: &mut Seat)
        requires { seat.old.head ≡ self.old.head }
        ensures owned_log { self.new ≡ self.old }
        ensures seat { seat.new ≡ record seat.old { saw = self.old.log.items } }
        ensures legal { Legal self.old.log.items seat.old.number seat.old.saw seat.old.made }
    {
        self.head.settle(&mut self.pen, seat);
    }
}
