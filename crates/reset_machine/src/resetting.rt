//! The machine that goes back to its home.
ghost use Rattle.std.specs.Prelude.{◌≡◌, ℕ, ◌*◌, ◌/◌, ◌<◌, ◌≤◌, ◌^◌, None, IfOk, OnOk, OnErr, length, []};
ghost use Rattle.items.specs.declared.item.What.TheVariants.{In};
ghost use Rattle.machine.specs.Items.{after};
ghost use Rattle.machine.specs.Step.{step};
ghost use Rattle.mips_fast.specs.Runs.{AreAdmitted, KeepsStatus};
ghost use Rattle.runs.specs.Coverage.{covered, no_coverage, with_pc};
ghost use Rattle.runs.specs.Endings.{IsPassed};
ghost use Rattle.runs.specs.Runs.{after_steps};
ghost use Rattle.reset_machine.specs.Covers.{leads_to_more};

use crate::passing::Reached;
use crate::{Cover, Home, Passing, WatchedBus};
use flatvm::Flat;
use guest_log::Stop;
use machine::{Kind, Rejection, Size, StepOut};
use mips_fast::{Everything, Filter, RunCache};
use mips_step::{Cpu, Unreached, View, debug};
use runs::{NoPlace, Runnable, Until};
use std::alloc::{AllocError, Global};
use std::marker::Model;
use std::sync::Arc;

/// Fewer steps than this are made one by one, since what it takes to begin a run is more than that.
const FEW: u32 = 16;

/// A run that is to go past states and ends after fewer steps than this came to a branch or jump to itself that is no loop, mostly: a wait that counts
/// in its delay slot. Then states are looked at one by one for a while.
const SHORT: u32 = 2;

/// How often they are.
const PAUSE: u32 = 16;

/// A machine that begins as its home is, and goes back to that by the pages that were written since. It may keep which words of memory PC led to:
/// then it makes many steps at once on those alone, so that only the first step from each costs more. In clauses it is the machine as it stands,
/// its home, and its coverage, `Resettable`.
#[derive(Drop)]
pub struct ResetMachine {
    cpu: Cpu,
    bus: WatchedBus,
    cache: RunCache,
    cover: Cover,
    // how often `steps_past` is yet to make no step
    pause: u32,
}

impl Model for ResetMachine {
    ghost use Rattle.machine.specs.Step.{machine_with};
    ghost use Rattle.reset_machine.specs.Watched.{Resettable};

    ghost Value = { Resettable };

    ghost view = { λ m. record { machine = machine_with m.cpu m.bus.board; home = m.bus.home; coverage = m.cover } };
}

impl ResetMachine {
    /// A machine as its home is, which keeps no coverage. `AllocError` where a request for memory was refused.
    pub fn new(alloc: Global, home: Arc<Home, Global>) -> Result<ResetMachine, AllocError>
        ensures machine { IfOk result (λ m. m.machine ≡ home.value) }
        ensures home { IfOk result (λ m. m.home ≡ home.value) }
        ensures coverage { IfOk result (λ m. m.coverage ≡ no_coverage) }
    {
        ResetMachine::of_parts(alloc, home, Cover::none(alloc))
    }

    /// A machine as its home is, which keeps the coverage of each word of its memory: none is reached yet. It takes five bytes more for each.
    /// `AllocError` where a request for memory was refused.
    #[tactic(auto, using(crate::proofs::Reaching::all_words))]
    pub fn with_coverage(alloc: Global, home: Arc<Home, Global>) -> Result<ResetMachine, AllocError>
        ensures machine { IfOk result (λ m. m.machine ≡ home.value) }
        ensures home { IfOk result (λ m. m.home ≡ home.value) }
        ensures coverage { IfOk result (λ m. m.coverage ≡ record { words = length home.value.board.memory / 4; reached = [] }) }
    {
        let cover = Cover::new(alloc, home.page_count())?;
        ResetMachine::of_parts(alloc, home, cover)
    }

    /// A machine as its home is, with this coverage.
    fn of_parts(
        alloc: Global,
        home: Arc<Home, Global>,
        cover: Cover,
    ) -> Result<ResetMachine, AllocError>
        ensures machine { IfOk result (λ m. m.machine ≡ home.value) }
        ensures home { IfOk result (λ m. m.home ≡ home.value) }
        ensures coverage { IfOk result (λ m. m.coverage ≡ cover) }
    {
        let cpu = home.processor();
        let cache = RunCache::new(alloc)?;
        let bus = WatchedBus::new(alloc, home)?;
        Ok(ResetMachine {
            cpu,
            bus,
            cache,
            cover,
            pause: 0,
        })
    }

    /// The machine as it stands, for others to begin as: it has no home any more.
    pub fn into_home(self) -> Home
        ensures { result ≡ self.machine }
    {
        let ResetMachine {
            cpu,
            bus,
            cache,
            cover,
            pause: _,
        } = self;
        drop(cache);
        drop(cover);
        let (flat, pages) = bus.into_flat();
        Home::of_parts(cpu, flat, pages)
    }

    /// Goes back to its home, and keeps its coverage. It costs the pages that were written since, each 4,096 bytes. `AllocError` where a request for
    /// memory was refused, and nothing has changed then.
    pub fn reset(&mut self) -> Result<(), AllocError>
        ensures machine { OnOk result (self.new.machine ≡ self.old.home) }
        ensures home { self.new.home ≡ self.old.home }
        ensures coverage { self.new.coverage ≡ self.old.coverage }
        ensures unchanged { OnErr result (self.new ≡ self.old) }
    {
        self.bus.reset()?;
        self.cpu = self.bus.home_processor();
        Ok(())
    }

    /// The words of memory that PC led to, by their numbers, each once, in the order in which it did so first; none where no coverage is kept.
    pub fn reached(&self) -> &[u32]
        ensures { result.now ≡ self.now.coverage.reached }
    {
        self.cover.reached()
    }

    /// Begins its coverage anew: no word is reached. It costs those that were.
    pub fn forget_reached(&mut self)
        ensures { self.new ≡ record self.old { coverage = record self.old.coverage { reached = [] } } }
    {
        self.cover.forget();
    }

    /// How many pages were written since it began or the last reset, at most as many as there are; where none was, the memory is that of its
    /// home.
    pub fn written(&self) -> u32
        ensures within { result * 4096 ≤ length self.now.machine.board.memory }
        ensures none { result ≡ 0 → self.now.machine.board.memory ≡ self.now.home.board.memory }
    {
        self.bus.written() as u32
    }

    /// PC leads to where it stands. The answer is whether that is a word which it did not lead to before, where coverage is kept.
    #[inline(never)]
    #[tactic(auto, using(crate::proofs::Reaching::led_to, crate::proofs::Reaching::led_nowhere, crate::proofs::Reaching::told_to, crate::proofs::Reaching::told_nowhere))]
    fn reach(&mut self) -> bool
        ensures reached { self.new ≡ record self.old { coverage = with_pc self.old.machine self.old.coverage } }
        ensures told { result ≡ leads_to_more self.old.machine self.old.coverage }
    {
        match self.cpu.place(Kind::Fetch, Size::Word, self.cpu.pc()) {
            Ok(at) => self.cover.reach(at.number() / 4),
            Err(_) => false,
        }
    }

    /// Whether PC leads to a word that it did not lead to before, where coverage is kept: a run of many steps makes none from there.
    #[inline(always)]
    #[tactic(auto, using(crate::proofs::Reaching::told_to, crate::proofs::Reaching::told_nowhere, crate::proofs::Reaching::none_told))]
    fn is_at_new_word(&self) -> bool
        ensures { result ≡ leads_to_more self.now.machine self.now.coverage }
    {
        self.cover.is_kept()
            && match self.cpu.place(Kind::Fetch, Size::Word, self.cpu.pc()) {
                Ok(at) => self.cover.lacks(at),
                Err(_) => false,
            }
    }

    /// One step. The answer is whether it was made at a word that PC did not lead to before, where coverage is kept.
    #[tactic(auto, using(flatvm::proofs::Never::never_lacks, runs::proofs::Covered::pc_untold, crate::proofs::Reaching::none_told))]
    #[inline(always)]
    fn step(&mut self) -> bool
        ensures new { result ≡ leads_to_more self.old.machine self.old.coverage }
        ensures machine { self.new.machine ≡ step self.old.machine }
        ensures home { self.new.home ≡ self.old.home }
        ensures coverage { self.new.coverage ≡ with_pc self.old.machine self.old.coverage }
    {
        let is_new = self.cover.is_kept() && self.reach();
        match self.cpu.step(&mut self.bus) {
            StepOut::Done => {}
            StepOut::Need(_, _) => unreachable!(),
        }
        is_new
    }

    /// `count` steps, one by one.
    fn step_by_step(&mut self, count: u32)
        ensures machine { self.new.machine ≡ after_steps count self.old.machine }
        ensures home { self.new.home ≡ self.old.home }
        ensures coverage { self.new.coverage ≡ covered count self.old.machine self.old.coverage }
    {
        for made in 0..count {
            // The turn is the number of steps that were made: the loop's invariant speaks of it.
            let _made = made;
            self.step();
        }
    }

    /// A step, and those behind it at words that PC did not lead to before, at most `count` in all; and how many.
    fn step_on(&mut self, count: u32) -> u32
        requires { 0 < count }
        ensures some { 0 < result }
        ensures few { result ≤ count }
        ensures machine { self.new.machine ≡ after_steps result self.old.machine }
        ensures home { self.new.home ≡ self.old.home }
        ensures coverage { self.new.coverage ≡ covered result self.old.machine self.old.coverage }
    {
        let mut made = 1;
        let mut is_new = self.step();
        while is_new && made < count {
            is_new = self.step();
            made += 1;
        }
        made
    }

    /// Steps, at most `count`, as `mips_fast::run` makes them of the instructions that a filter admits, and how many: where coverage is kept, at
    /// words that are reached alone.
    #[inline(always)]
    #[tactic(auto, using(crate::proofs::Stepping::same_steps, runs::proofs::Covered::steps_untold, crate::proofs::Reaching::steps_reached, crate::proofs::Reaching::admitted_alone))]
    fn run_quietly<F: Filter>(&mut self, filter: &F, count: u32) -> u32
        ensures few { result ≤ count }
        ensures machine { self.new.machine ≡ after_steps result self.old.machine }
        ensures admitted { AreAdmitted (F.admits filter.now) result self.old.machine }
        ensures status { KeepsStatus result self.old.machine }
        ensures home { self.new.home ≡ self.old.home }
        ensures coverage { self.new.coverage ≡ covered result self.old.machine self.old.coverage }
    {
        if self.cover.is_kept() {
            let reached = Reached::new(&self.cover, filter);
            mips_fast::run(
                &mut self.cpu,
                &mut self.bus,
                &mut self.cache,
                &reached,
                count,
            )
        } else {
            mips_fast::run(&mut self.cpu, &mut self.bus, &mut self.cache, filter, count)
        }
    }

    /// `count` steps: many at once, and one by itself wherever that ends.
    fn many_steps(&mut self, count: u32)
        ensures machine { self.new.machine ≡ after_steps count self.old.machine }
        ensures home { self.new.home ≡ self.old.home }
        ensures coverage { self.new.coverage ≡ covered count self.old.machine self.old.coverage }
    {
        let mut made: u32 = 0;
        while made < count {
            made += self.run_quietly(&Everything, count - made);
            if made < count {
                made += self.step_on(count - made);
            }
        }
    }
}

/// It never stops, and keeps its home.
impl Runnable for ResetMachine {
    ghost state = { λ m. m.machine };

    ghost may_stop = { λ m stop. ⊥ };

    // Its home, as its clauses see it.
    type Kept = Flat;

    ghost kept = { λ m. m.home };

    ghost coverage = { λ m. m.coverage };

    fn steps(&mut self, count: u32) -> (u32, Option<Stop>)
        ensures all { result.0 ≡ count }
        ensures state { self.new.machine ≡ after_steps count self.old.machine }
        ensures home { self.new.home ≡ self.old.home }
        ensures coverage { self.new.coverage ≡ covered count self.old.machine self.old.coverage }
        ensures never_stops { result.1 ≡ None }
    {
        if count < FEW {
            self.step_by_step(count);
        } else {
            self.many_steps(count);
        }
        (count, None)
    }

    // A run of many steps at once enters no exception, and makes none from a state that this one is to end at.
    fn steps_past(&mut self, count: u32, until: &Until) -> u32
        ensures few { result ≤ count }
        ensures state { self.new.machine ≡ after_steps result self.old.machine }
        ensures passed { (k : ℕ) → k < result → IsPassed until.now (after_steps k self.old.machine) }
        ensures home { self.new.home ≡ self.old.home }
        ensures coverage { self.new.coverage ≡ covered result self.old.machine self.old.coverage }
    {
        if count < FEW || self.is_at_new_word() {
            return 0;
        }
        if self.pause > 0 {
            self.pause -= 1;
            return 0;
        }
        let made = self.run_quietly(&Passing::new(until), count);
        self.pause = if made < SHORT && !self.is_at_new_word() {
            PAUSE
        } else {
            0
        };
        made
    }

    fn feed(&mut self, byte: u8) -> Result<(), Stop>
        requires { length self.old.machine.board.devices.console.input < 256 }
        ensures fed { OnOk result (self.new.machine ≡ after (In byte) self.old.machine) }
        ensures home { self.new.home ≡ self.old.home }
        ensures coverage { self.new.coverage ≡ self.old.coverage }
        ensures never_stops { result ≡ Ok tt }
    {
        match self.bus.feed(byte) {
            Ok(_) => Ok(()),
            Err(rejection) => match rejection {
                Rejection::Machine => unreachable!(),
                Rejection::Memory => unreachable!(),
            },
        }
    }

    fn view(&self) -> View<'_> {
        View {
            cpu: &self.cpu,
            devices: self.bus.devices(),
        }
    }

    fn read(&self, address: u32, bytes: &mut [u8]) -> Result<(), NoPlace> {
        match debug::read(&self.cpu, &self.bus, address, bytes) {
            Ok(()) => Ok(()),
            Err(Unreached::NoPlace) => Err(NoPlace),
            Err(Unreached::Away(_)) => unreachable!(),
        }
    }
}
