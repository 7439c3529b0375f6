//! The events of a world, one after another.
ghost use Rattle.std.specs.Prelude.{◌≡◌};

use crate::events::Fed;
use crate::{Answer, DebugError, Event, RunStop, World};
use guest::{Refused, Stop};
use items::{Item, SeatNo, What};
use rand_core::Rng;
use std::alloc::{AllocError, Global};
use swapstore::SwapStore;
use taxpolicy::Tax;
use tenant::Cause;
use word32::Ppn;

impl<S: SwapStore> World<S> {
    ghost use Rattle.std.specs.Prelude.{◌≡◌, ◌≢◌, ◌<◌, ◌≤◌, ◌++◌, ℕ, [], false, All, Some, None, IfOk, OnOk, OnErr, IsErrOf, Option, length, map, take};
    ghost use Rattle.world.specs.All.{AllHappen, AroundStays, BlockedStay, Changes, Event, GoesByWords, GuestsStay, Happens, IsAnswered, IsFeedAnswer, IsFull, IsProper, Item, LimitsStay, NotTurned, OnlyBooksChange, SameAround, Stays, StoreStays, TenantIs, What, accepts, boot_of, guest_at, input_of, inputs_for, is_step, item_for, items_fed, items_input, items_ran, items_stepped, items_turned, items_written, log_at, own, own_items, view_at};
    ghost use Rattle.guest_log.specs.declared.stop.Stop.{Stop};

    fn apply_step(&mut self, g: usize) -> Answer
        ensures logs { (h : ℕ) → log_at self.new.tenants h ≡ log_at self.old.tenants h ++ items_stepped h g result }
        ensures answered { (tax : ℕ) → IsAnswered S.SwapStore tax self.old self.new (Event.Step g) result }
        ensures guests { GuestsStay self.old.tenants self.new.tenants }
        ensures around { OnlyBooksChange self.old self.new }
    {
        if g >= self.count() {
            return Answer::Nowhere;
        }
        if self.guest(g).is_blocked() {
            return Answer::Blocked;
        }
        Answer::Stepped(self.step(g))
    }

    fn apply_steps(&mut self, g: usize, count: u32) -> Answer
        ensures logs { (h : ℕ) → log_at self.new.tenants h ≡ log_at self.old.tenants h ++ items_ran h g result }
        ensures answered { (tax : ℕ) → IsAnswered S.SwapStore tax self.old self.new (Event.Steps g count) result }
        ensures guests { GuestsStay self.old.tenants self.new.tenants }
        ensures around { OnlyBooksChange self.old self.new }
    {
        if g >= self.count() {
            return Answer::Nowhere;
        }
        if self.guest(g).is_blocked() {
            return Answer::Blocked;
        }
        Answer::Ran(self.steps(g, count))
    }

    fn apply_run<R: Rng>(
        &mut self,
        alloc: Global,
        g: usize,
        count: u32,
        tax: Tax,
        rng: &mut R,
    ) -> Answer
        ensures logs { (h : ℕ) → log_at self.new.tenants h ≡ log_at self.old.tenants h ++ items_ran h g result }
        ensures answered { IsAnswered S.SwapStore tax.percent self.old self.new (Event.Run g count) result }
        ensures by_words { GoesByWords S.SwapStore tax.percent (R.stream rng.old) self.old (Event.Run g count) result (R.stream rng.new) self.new }
        ensures guests { GuestsStay self.old.tenants self.new.tenants }
        ensures around { AroundStays S.SwapStore self.old self.new }
    {
        if g >= self.count() {
            return Answer::Nowhere;
        }
        if self.guest(g).is_blocked() {
            return Answer::Blocked;
        }
        Answer::Ran(self.run_steps(alloc, g, count, tax, rng))
    }

    fn apply_input(&mut self, g: usize, item: Item) -> Answer
        requires { is_step item.what ≡ false }
        ensures logs { (h : ℕ) → log_at self.new.tenants h ≡ log_at self.old.tenants h ++ items_input h g item result }
        ensures answered { (tax : ℕ) → IsAnswered S.SwapStore tax self.old self.new (Event.Input g item) result }
        ensures guests { GuestsStay self.old.tenants self.new.tenants }
        ensures around { SameAround self.old self.new }
    {
        if g < self.count() {
            Answer::Input(self.input(g, item))
        } else {
            Answer::Nowhere
        }
    }

    // A guest's console takes a byte of input; or it doesn't, as the log has no room for it, or else as the machine refuses it.
    fn feed_byte(&mut self, g: usize, byte: u8) -> Result<(), Option<Stop>>
        requires { g < length self.old.tenants }
        ensures taken { OnOk result ((h : ℕ) → log_at self.new.tenants h ≡ log_at self.old.tenants h ++ item_for h g (input_of byte)) }
        ensures not_taken { OnErr result ((h : ℕ) → log_at self.new.tenants h ≡ log_at self.old.tenants h) }
        ensures refused { IsErrOf result None → S.true_to_digests self.old.store → (t : TenantIs) →
            accepts (What.In byte) (view_at self.new g t) ≡ false }
        ensures full { IsErrOf result (Some Stop.LogFull) → (t : TenantIs) → IsFull (guest_at self.new g t).guest.log }
        ensures room { (stop : Option Stop) → IsErrOf result stop → stop ≢ Some Stop.LogFull → (t : TenantIs) →
            IsFull (guest_at self.new g t).guest.log → ⊥ }
        ensures stays { Changes Stays g self.old.tenants self.new.tenants }
        ensures around { SameAround self.old self.new }
    {
        let item = Item {
            seat: SeatNo::runner(),
            what: What::In(byte),
        };
        match self.input(g, item) {
            Ok(reply) => {
                drop(reply);
                Ok(())
            }
            Err(Refused::Machine) => Err(None),
            Err(Refused::Away(_)) => unreachable!(),
            Err(Refused::Stop(stop)) => Err(Some(stop)),
        }
    }

    // A guest's console takes bytes of input up to the first one that it doesn't take.
    fn feed(&mut self, g: usize, bytes: &[u8]) -> Fed
        requires { g < length self.old.tenants }
        ensures logs { (h : ℕ) → log_at self.new.tenants h ≡ log_at self.old.tenants h ++ inputs_for h g (take result.count bytes.now) }
        ensures answer { (t : TenantIs) → IsFeedAnswer (S.true_to_digests self.old.store) bytes.now (guest_at self.new g t) result }
        ensures stays { Changes Stays g self.old.tenants self.new.tenants }
        ensures around { SameAround self.old self.new }
    {
        for count in 0..bytes.len() {
            match self.feed_byte(g, bytes[count]) {
                Ok(()) => {}
                Err(stop) => return Fed { count, stop },
            }
        }
        Fed {
            count: bytes.len(),
            stop: None,
        }
    }

    fn apply_feed(&mut self, g: usize, bytes: Vec<u8>) -> Answer
        ensures logs { (h : ℕ) → log_at self.new.tenants h ≡ log_at self.old.tenants h ++ items_fed h g bytes.items result }
        ensures answered { (tax : ℕ) → IsAnswered S.SwapStore tax self.old self.new (Event.Feed g bytes) result }
        ensures guests { GuestsStay self.old.tenants self.new.tenants }
        ensures around { SameAround self.old self.new }
    {
        if g < self.count() {
            Answer::Fed(self.feed(g, &bytes))
        } else {
            Answer::Nowhere
        }
    }

    fn apply_probe<R: Rng>(
        &mut self,
        alloc: Global,
        g: usize,
        address: u32,
        count: u32,
        tax: Tax,
        rng: &mut R,
    ) -> Answer
        requires some { 0 < count }
        requires few { count ≤ 1024 }
        ensures logs { (h : ℕ) → log_at self.new.tenants h ≡ log_at self.old.tenants h ++ [] }
        ensures answered { IsAnswered S.SwapStore tax.percent self.old self.new (Event.Probe g address count) result }
        ensures by_words { GoesByWords S.SwapStore tax.percent (R.stream rng.old) self.old (Event.Probe g address count) result (R.stream rng.new) self.new }
        ensures guests { GuestsStay self.old.tenants self.new.tenants }
        ensures around { AroundStays S.SwapStore self.old self.new }
    {
        if g >= self.count() {
            return Answer::Nowhere;
        }
        let Ok(mut bytes) = vec![in alloc; 0; count as usize] else {
            return Answer::Probed(Err(DebugError::Stop(RunStop::Memory)));
        };
        match self.debug_read(alloc, g, address, bytes.as_mut_slice(), tax, rng) {
            Ok(()) => Answer::Probed(Ok(bytes)),
            Err(error) => Answer::Probed(Err(error)),
        }
    }

    fn apply_write<R: Rng>(
        &mut self,
        alloc: Global,
        g: usize,
        address: u32,
        bytes: Vec<u8>,
        tax: Tax,
        rng: &mut R,
    ) -> Answer
        requires some { 0 < length bytes.items }
        requires few { length bytes.items ≤ 1024 }
        ensures logs { (h : ℕ) → log_at self.new.tenants h ≡ log_at self.old.tenants h ++ items_written h g address bytes.items result }
        ensures answered { IsAnswered S.SwapStore tax.percent self.old self.new (Event.Write g address bytes) result }
        ensures by_words { GoesByWords S.SwapStore tax.percent (R.stream rng.old) self.old (Event.Write g address bytes) result (R.stream rng.new) self.new }
        ensures guests { GuestsStay self.old.tenants self.new.tenants }
        ensures around { AroundStays S.SwapStore self.old self.new }
    {
        if g < self.count() {
            Answer::Written(self.debug_write(alloc, g, address, bytes, tax, rng))
        } else {
            Answer::Nowhere
        }
    }

    fn apply_supply(&mut self, alloc: Global, g: usize, p: Ppn) -> Answer
        ensures logs { (h : ℕ) → log_at self.new.tenants h ≡ log_at self.old.tenants h ++ [] }
        ensures answered { (tax : ℕ) → IsAnswered S.SwapStore tax self.old self.new (Event.Supply g p) result }
        ensures guests { GuestsStay self.old.tenants self.new.tenants }
        ensures around { AroundStays S.SwapStore self.old self.new }
    {
        if g >= self.count() {
            return Answer::Nowhere;
        }
        if self.kind(g, p).is_none() {
            return Answer::Nowhere;
        }
        Answer::Supplied(self.supply(alloc, g, p))
    }

    fn apply_fault<R: Rng>(&mut self, alloc: Global, g: usize, tax: Tax, rng: &mut R) -> Answer
        ensures logs { (h : ℕ) → log_at self.new.tenants h ≡ log_at self.old.tenants h ++ [] }
        ensures answered { IsAnswered S.SwapStore tax.percent self.old self.new (Event.Fault g) result }
        ensures by_words { GoesByWords S.SwapStore tax.percent (R.stream rng.old) self.old (Event.Fault g) result (R.stream rng.new) self.new }
        ensures guests { GuestsStay self.old.tenants self.new.tenants }
        ensures around { AroundStays S.SwapStore self.old self.new }
    {
        if g < self.count() {
            Answer::Faulted(self.fault(alloc, g, Cause::Fault, tax, rng))
        } else {
            Answer::Nowhere
        }
    }

    fn apply_evict(&mut self, g: usize, p: Ppn) -> Answer
        ensures logs { (h : ℕ) → log_at self.new.tenants h ≡ log_at self.old.tenants h ++ [] }
        ensures answered { (tax : ℕ) → IsAnswered S.SwapStore tax self.old self.new (Event.Evict g p) result }
        ensures guests { GuestsStay self.old.tenants self.new.tenants }
        ensures around { AroundStays S.SwapStore self.old self.new }
    {
        if g < self.count() {
            Answer::Evicted(self.evict(g, p))
        } else {
            Answer::Nowhere
        }
    }

    fn apply_scan(&mut self, g: usize, p: Ppn) -> Answer
        ensures logs { (h : ℕ) → log_at self.new.tenants h ≡ log_at self.old.tenants h ++ [] }
        ensures answered { (tax : ℕ) → IsAnswered S.SwapStore tax self.old self.new (Event.Scan g p) result }
        ensures guests { GuestsStay self.old.tenants self.new.tenants }
        ensures store { self.new.store ≡ self.old.store }
        ensures frames { self.new.frames ≡ self.old.frames }
        ensures level { self.new.level ≡ self.old.level }
    {
        if g >= self.count() {
            return Answer::Nowhere;
        }
        if g > u32::MAX as usize {
            return Answer::Nowhere;
        }
        Answer::Scanned(self.scan(g, p))
    }

    fn apply_sample<R: Rng>(&mut self, rng: &mut R) -> Answer
        ensures logs { (h : ℕ) → log_at self.new.tenants h ≡ log_at self.old.tenants h ++ [] }
        ensures answered { (tax : ℕ) → IsAnswered S.SwapStore tax self.old self.new Event.Sample result }
        ensures by_words { (tax : ℕ) → GoesByWords S.SwapStore tax (R.stream rng.old) self.old Event.Sample result (R.stream rng.new) self.new }
        ensures guests { GuestsStay self.old.tenants self.new.tenants }
        ensures around { SameAround self.old self.new }
    {
        self.sample(rng);
        Answer::Sampled
    }

    fn apply_level<R: Rng>(&mut self, alloc: Global, tax: Tax, rng: &mut R) -> Answer
        ensures logs { (h : ℕ) → log_at self.new.tenants h ≡ log_at self.old.tenants h ++ items_turned h result }
        ensures answered { IsAnswered S.SwapStore tax.percent self.old self.new Event.Level result }
        ensures by_words { GoesByWords S.SwapStore tax.percent (R.stream rng.old) self.old Event.Level result (R.stream rng.new) self.new }
        ensures boots { map boot_of self.new.tenants ≡ map boot_of self.old.tenants }
        ensures limits { LimitsStay self.old.tenants self.new.tenants }
        ensures frames { self.new.frames ≡ self.old.frames }
        ensures store { StoreStays S.SwapStore self.old.store self.new.store }
    {
        Answer::Turned(self.level_turn(alloc, tax, rng))
    }

    // One event, as `apply` has it.
    fn apply_event<R: Rng>(&mut self, alloc: Global, event: Event, tax: Tax, rng: &mut R) -> Answer
        requires { IsProper event }
        ensures logs { (h : ℕ) → log_at self.new.tenants h ≡ log_at self.old.tenants h ++ own_items h event result }
        ensures answered { IsAnswered S.SwapStore tax.percent self.old self.new event result }
        ensures by_words { GoesByWords S.SwapStore tax.percent (R.stream rng.old) self.old event result (R.stream rng.new) self.new }
        ensures boots { map boot_of self.new.tenants ≡ map boot_of self.old.tenants }
        ensures limits { LimitsStay self.old.tenants self.new.tenants }
        ensures blocked { NotTurned result → BlockedStay self.old.tenants self.new.tenants }
        ensures frames { self.new.frames ≡ self.old.frames }
        ensures store { StoreStays S.SwapStore self.old.store self.new.store }
    {
        match event {
            Event::Step(guest) => self.apply_step(guest.index()),
            Event::Steps(guest, count) => self.apply_steps(guest.index(), count),
            Event::Run(guest, count) => self.apply_run(alloc, guest.index(), count, tax, rng),
            Event::Input(guest, item) => self.apply_input(guest.index(), item),
            Event::Feed(guest, bytes) => self.apply_feed(guest.index(), bytes),
            Event::Probe(guest, address, count) => {
                self.apply_probe(alloc, guest.index(), address, count, tax, rng)
            }
            Event::Write(guest, address, bytes) => {
                self.apply_write(alloc, guest.index(), address, bytes, tax, rng)
            }
            Event::Supply(guest, p) => self.apply_supply(alloc, guest.index(), p),
            Event::Fault(guest) => self.apply_fault(alloc, guest.index(), tax, rng),
            Event::Evict(guest, p) => self.apply_evict(guest.index(), p),
            Event::Scan(guest, p) => self.apply_scan(guest.index(), p),
            Event::Sample => self.apply_sample(rng),
            Event::Level => self.apply_level(alloc, tax, rng),
        }
    }

    /// One event. Its items are added to its guest's log, and no other log changes, but that a turn of the policy may set the balloon
    /// targets of all; the machines that the guests booted stay. What is answered is what the guest's view has to say to it, or why it was
    /// refused (`IsAnswered`): each kind of event has the answers of `step`, `steps`, `run_steps`, `input`, `debug_read`, `debug_write`,
    /// `supply`, `fault`, `evict`, `scan`, `sample` and `level_turn`, and `Feed` those of `input`, a byte each, up to the first that is not
    /// taken; and a guest that is blocked makes no step. The tax and the generator are those of `evict_one`, which may be called where a
    /// page gets a frame, of `sample` and of `level_turn`: an event goes by the words that the generator gives next, and no other event
    /// draws any (`GoesByWords`).
    ///
    /// No event changes how many pages, shares and which minimum a guest has, and just a turn of the policy who is blocked. Where the guests
    /// are admitted by their minimums, each page that a fault, a run, or a debugger's read or write needs gets a frame, if need be another
    /// page's, unless a request for memory is refused, the store fails or a slot of it is damaged (`FindsRoom`).
    pub fn apply<R: Rng>(&mut self, alloc: Global, event: Event, tax: Tax, rng: &mut R) -> Answer
        requires { IsProper event }
        ensures { Happens S.SwapStore tax.percent (R.stream rng.old) self.old event result (R.stream rng.new) self.new }
    {
        let answer = self.apply_event(alloc, event, tax, rng);
        self.is_sound();
        self.shared_frames_are_named();
        answer
    }

    /// Events, one after another, and what each was answered. After them the log of each guest is the one before with the items of
    /// its own events that were done: its steps and writes that were made, and its items and bytes that were accepted. So whatever else happens in the
    /// world, each guest's view is the run of its own items; and the books are exact (`is_sound`). Each event is answered as by `apply`, in
    /// the world that the one before it left, and by the words that it left (`AllHappen`).
    ///
    /// `AllocError` where there is no memory for the answers: nothing has happened then.
    pub fn run<R: Rng>(
        &mut self,
        alloc: Global,
        events: Vec<Event>,
        tax: Tax,
        rng: &mut R,
    ) -> Result<Vec<Answer>, AllocError>
        requires { All IsProper events.items }
        ensures logs { IfOk result (λ answers. (h : ℕ) → log_at self.new.tenants h ≡ log_at self.old.tenants h ++ own h events.items answers.items) }
        ensures happen { IfOk result (λ answers. AllHappen S.SwapStore tax.percent (R.stream rng.old) self.old events.items answers.items
            (R.stream rng.new) self.new) }
        ensures count { IfOk result (λ answers. length answers.items ≡ length events.items) }
        ensures unchanged { OnErr result (self.new ≡ self.old) }
        ensures undrawn { OnErr result (R.stream rng.new ≡ R.stream rng.old) }
        ensures boots { map boot_of self.new.tenants ≡ map boot_of self.old.tenants }
        ensures limits { LimitsStay self.old.tenants self.new.tenants }
        ensures frames { self.new.frames ≡ self.old.frames }
        ensures store { StoreStays S.SwapStore self.old.store self.new.store }
    {
        let mut answers = Vec::with_capacity(alloc, events.len())?;
        for event in events {
            let answer = self.apply(alloc, event, tax, rng);
            answers.push_reserved(answer);
        }
        Ok(answers)
    }
}
