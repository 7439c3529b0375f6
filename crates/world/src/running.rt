//! Many steps of a guest by one call.
ghost use Rattle.std.specs.Prelude.{◌≡◌};
ghost use Rattle.world.specs.Events.{stop_of, for_room};

use crate::{FaultError, World};
use guest::Stop;
use machine::Why;
use rand_core::Rng;
use std::alloc::Global;
use swapstore::SwapStore;
use taxpolicy::Tax;
use tenant::{Cause, run_in};
use word32::Ppn;

/// Why a guest's run stopped before all of its steps were made.
#[derive(Clone, Copy, Debug, PartialEq, Eq)]
pub enum RunStop {
    /// No frame is free, and no guest has more resident pages than its minimum, or the store failed to write one of them.
    NoFrame,
    /// No frame is free, and no slot.
    NoSwap,
    /// The store failed to read the slot of a page that is needed.
    SwapRead,
    /// What was read from the slot of a page that is needed has another SHA-256 than the page.
    SwapDamaged,
    /// A request for memory was refused.
    Memory,
    /// The log has its greatest number of runs, or 2^62 items.
    LogFull,
}

/// How a run of steps ended.
#[derive(Clone, Copy, Debug, PartialEq, Eq)]
pub enum End {
    /// Every step was made.
    Done,
    /// The next step needs this page.
    Need(Ppn, Why),
    /// It stopped.
    Stop(RunStop),
}

/// What became of a run of steps.
#[derive(Clone, Copy, Debug, PartialEq, Eq)]
pub struct Ran {
    /// How many steps were made.
    pub steps: u32,
    /// How it ended.
    pub end: End,
}

/// How many pages at most are supplied between two steps of a guest.
const SUPPLIES_IN_A_ROW: u32 = 64;

// A fault's error as a reason for a run to stop.
pub(crate) fn stop_of(error: FaultError) -> RunStop
    ensures { result ≡ stop_of error }
{
    match error {
        FaultError::NoFrame => RunStop::NoFrame,
        FaultError::NoSwap => RunStop::NoSwap,
        FaultError::SwapRead => RunStop::SwapRead,
        FaultError::SwapDamaged => RunStop::SwapDamaged,
        FaultError::Memory => RunStop::Memory,
    }
}

// Why a run of steps stops where its log has no room.
pub(crate) fn for_room(stop: Stop) -> RunStop
    ensures { result ≡ for_room stop }
{
    match stop {
        Stop::Memory => RunStop::Memory,
        Stop::LogFull => RunStop::LogFull,
    }
}

impl<S: SwapStore> World<S> {
    ghost use Rattle.std.specs.Prelude.{◌≡◌, ◌≢◌, ◌<◌, ◌≤◌, ◌↔◌, ◌++◌, ℕ, Some, None, IsSome, IfOk, IfErr, OnOk, OnErr, IsErrOf, length, map};
    ghost use Rattle.world.specs.All.{AddsSteps, AreSteps, AroundStays, Changes, GuestsStay, IfStop, IsAccessed, IsForRoom, IsFull, IsRun, IsSupplied, MakesNone, MakesSteps, NoneNeeds, NothingHappens, OnlyBooksChange, SameAround, Stays, Stream, TenantIs, Why, WhyHalted, boot_of, guest_at, log_at, moment_of, needed_by, pages_at, run, steps_for, steps_of, view_at};
    ghost use Rattle.guest_log.specs.declared.stop.Stop.{Stop};

    // At most `count` steps of a guest, up to one that needs a page or gave one to the balloon (`stepping::run_in`).
    #[inline]
    fn run_once(&mut self, g: usize, count: u32) -> Result<(u32, Option<(Ppn, Why)>), Stop>
        requires guest { g < length self.old.tenants }
        requires some { 0 < count }
        ensures few { IfOk result (λ made. made.0 ≤ count) }
        ensures some { IfOk result (λ made. made.1 ≡ None → 0 < made.0) }
        ensures short { IfOk result (λ made. IsSome made.1 → made.0 < count) }
        ensures need { S.true_to_digests self.old.store → (t : TenantIs) → IfOk result (λ made. (p : ℕ) (why : Why) → made.1 ≡ Some (p, why) →
            needed_by (guest_at self.new g t) ≡ Some (p, why)) }
        ensures needs_none { S.true_to_digests self.old.store → (t : TenantIs) → IfOk result (λ made.
            NoneNeeds made.0 (view_at self.old g t) (pages_at self.old g t) (pages_at self.new g t)) }
        ensures room { (t : TenantIs) → IfOk result (λ made. IsSome made.1 → IsFull (guest_at self.new g t).guest.log → ⊥) }
        ensures adds { IfOk result (λ made. Changes (λ t t'. AddsSteps t made.0 t') g self.old.tenants self.new.tenants) }
        ensures full { (t : TenantIs) → (IsErrOf result Stop.LogFull ↔ IsFull (guest_at self.old g t).guest.log) }
        ensures nothing { IfOk result (λ made. made.0 ≡ 0 → Changes NothingHappens g self.old.tenants self.new.tenants × SameAround self.old self.new) }
        ensures unchanged { OnErr result (Changes NothingHappens g self.old.tenants self.new.tenants × SameAround self.old self.new) }
        ensures stays { Changes Stays g self.old.tenants self.new.tenants }
        ensures around { OnlyBooksChange self.old self.new }
    {
        run_in(
            &mut self.tenants[g],
            count,
            &mut self.pool,
            &mut self.slots,
            &mut self.shares,
        )
    }

    // Steps of a guest, at least one and at most `count`; or how a run of steps ends where none is made.
    #[inline]
    fn some_steps(&mut self, g: usize, count: u32) -> Result<u32, End>
        requires guest { g < length self.old.tenants }
        requires some { 0 < count }
        ensures some { IfOk result (λ steps. 0 < steps) }
        ensures few { IfOk result (λ steps. steps ≤ count) }
        ensures logs { IfOk result (λ steps. (h : ℕ) → log_at self.new.tenants h ≡ log_at self.old.tenants h ++ steps_for h g steps) }
        ensures view { IfOk result (λ steps. (t : TenantIs) → view_at self.new g t ≡ run (steps_of 0 steps) (view_at self.old g t)) }
        ensures needs_none { S.true_to_digests self.old.store → (t : TenantIs) → IfOk result (λ steps.
            NoneNeeds steps (view_at self.old g t) (pages_at self.old g t) (pages_at self.new g t)) }
        ensures made { IfOk result (λ steps. (words : Stream) → AreSteps self.old.frames (S.slots self.old.store) (S.true_to_digests self.old.store) g steps
            (moment_of words self.old) (moment_of words self.new)) }
        ensures none { OnErr result ((words : Stream) → AreSteps self.old.frames (S.slots self.old.store) (S.true_to_digests self.old.store) g 0
            (moment_of words self.old) (moment_of words self.new)) }
        ensures nothing { OnErr result (Changes NothingHappens g self.old.tenants self.new.tenants × SameAround self.old self.new) }
        ensures stays { Changes Stays g self.old.tenants self.new.tenants }
        ensures early { IsErrOf result End.Done → ⊥ }
        ensures need { S.true_to_digests self.old.store → (p : ℕ) (why : Why) → IsErrOf result (End.Need p why) → (t : TenantIs) →
            needed_by (guest_at self.new g t) ≡ Some (p, why) }
        ensures full { IsErrOf result (End.Stop RunStop.LogFull) → (t : TenantIs) → IsFull (guest_at self.new g t).guest.log }
        ensures room { IfErr result (λ end. end ≢ End.Stop RunStop.LogFull → (t : TenantIs) → IsFull (guest_at self.new g t).guest.log → ⊥) }
        ensures stop { IfErr result (λ end. IfStop end IsForRoom) }
        ensures around { OnlyBooksChange self.old self.new }
    {
        let ran = self.run_once(g, count);
        self.is_sound();
        let (steps, needed) = match ran {
            Ok(ran) => ran,
            Err(stop) => return Err(End::Stop(for_room(stop))),
        };
        if steps > 0 {
            return Ok(steps);
        }
        match needed {
            Some((page, why)) => Err(End::Need(page, why)),
            None => unreachable!(),
        }
    }

    /// At most `count` steps of a guest with no page supplied: those that it makes before one needs a page, or before its log has no
    /// room, which is `Stop(LogFull)`, or `Stop(Memory)` where a request for memory was refused. After the last step it is not
    /// asked what the next one needs. None of those that it makes needs a page that is lacking then, and the pages that they give are those
    /// of its view.
    pub fn steps(&mut self, g: usize, count: u32) -> Ran
        requires { g < length self.old.tenants }
        ensures logs { (h : ℕ) → log_at self.new.tenants h ≡ log_at self.old.tenants h ++ steps_for h g result.steps }
        ensures boots { map boot_of self.new.tenants ≡ map boot_of self.old.tenants }
        ensures most { result.steps ≤ count }
        ensures done { result.end ≡ End.Done ↔ result.steps ≡ count }
        ensures needs_none { S.true_to_digests self.old.store → (t : TenantIs) →
            NoneNeeds result.steps (view_at self.old g t) (pages_at self.old g t) (pages_at self.new g t) }
        ensures need { S.true_to_digests self.old.store → (p : ℕ) (why : Why) → result.end ≡ End.Need p why → (t : TenantIs) →
            needed_by (guest_at self.new g t) ≡ Some (p, why) }
        ensures full { result.end ≡ End.Stop RunStop.LogFull → (t : TenantIs) → IsFull (guest_at self.new g t).guest.log }
        ensures room { result.end ≢ End.Done → result.end ≢ End.Stop RunStop.LogFull → (t : TenantIs) →
            IsFull (guest_at self.new g t).guest.log → ⊥ }
        ensures stop { IfStop result.end IsForRoom }
        ensures nothing { result.steps ≡ 0 → Changes NothingHappens g self.old.tenants self.new.tenants × SameAround self.old self.new }
        ensures stays { Changes Stays g self.old.tenants self.new.tenants }
        ensures around { OnlyBooksChange self.old self.new }
    {
        let mut made = 0;
        while made < count {
            match self.some_steps(g, count - made) {
                Ok(steps) => made += steps,
                Err(end) => return Ran { steps: made, end },
            }
        }
        Ran {
            steps: count,
            end: End::Done,
        }
    }

    // Steps of a guest, at least one and at most `count`, for the first of which pages are supplied, at most 64 of them; or how a run
    // of steps ends where none is made.
    fn steps_supplied<R: Rng>(
        &mut self,
        alloc: Global,
        g: usize,
        count: u32,
        tax: Tax,
        rng: &mut R,
    ) -> Result<u32, End>
        requires guest { g < length self.old.tenants }
        requires some { 0 < count }
        ensures some { IfOk result (λ steps. 0 < steps) }
        ensures few { IfOk result (λ steps. steps ≤ count) }
        ensures logs { IfOk result (λ steps. (h : ℕ) → log_at self.new.tenants h ≡ log_at self.old.tenants h ++ steps_for h g steps) }
        ensures not_made { OnErr result ((h : ℕ) → log_at self.new.tenants h ≡ log_at self.old.tenants h) }
        ensures made { IfOk result (λ steps. MakesSteps self.old.frames (S.slots self.old.store) (S.true_to_digests self.old.store) tax.percent g steps
            (moment_of (R.stream rng.old) self.old) (moment_of (R.stream rng.new) self.new)) }
        ensures none { IfErr result (λ end. MakesNone self.old.frames (S.slots self.old.store) (S.true_to_digests self.old.store) tax.percent g end
            (moment_of (R.stream rng.old) self.old) (moment_of (R.stream rng.new) self.new)) }
        ensures guests { GuestsStay self.old.tenants self.new.tenants }
        ensures early { IsErrOf result End.Done → ⊥ }
        ensures need { S.true_to_digests self.old.store → (p : ℕ) (why : Why) → IsErrOf result (End.Need p why) → (t : TenantIs) →
            needed_by (guest_at self.new g t) ≡ Some (p, why) }
        ensures supplied { S.true_to_digests self.old.store → (p : ℕ) (why : Why) → IsErrOf result (End.Need p why) → (t : TenantIs) →
            IsSupplied p (guest_at self.new g t) }
        ensures full { IsErrOf result (End.Stop RunStop.LogFull) → (t : TenantIs) → IsFull (guest_at self.new g t).guest.log }
        ensures room { IfErr result (λ end. end ≢ End.Stop RunStop.LogFull → (t : TenantIs) → IsFull (guest_at self.new g t).guest.log → ⊥) }
        ensures stop { IfErr result (λ end. IfStop end (WhyHalted S.SwapStore g (IsAccessed S.SwapStore self.new g) self.old self.new)) }
        ensures no_failure { OnOk result (S.failed self.new.store ≡ S.failed self.old.store) }
        ensures around { AroundStays S.SwapStore self.old self.new }
    {
        for _ in 0..SUPPLIES_IN_A_ROW {
            match self.some_steps(g, count) {
                Ok(steps) => return Ok(steps),
                Err(End::Need(_, _)) => {}
                Err(End::Stop(why)) => return Err(End::Stop(why)),
                Err(End::Done) => unreachable!(),
            }
            if let Err(error) = self.fault(alloc, g, Cause::Run, tax, rng) {
                return Err(End::Stop(stop_of(error)));
            }
        }
        self.some_steps(g, count)
    }

    /// At most `count` steps of a guest, where the page that a step needs is supplied as by `fault` each time. It ends early where a
    /// fault stops, by its error, and where the log has no room; and where a step needs a page though 64 pages were supplied in a row
    /// since the last step: it is tried once more then, and what it needs is the end. After the last step it is not asked what the
    /// next one needs.
    pub fn run_steps<R: Rng>(
        &mut self,
        alloc: Global,
        g: usize,
        count: u32,
        tax: Tax,
        rng: &mut R,
    ) -> Ran
        requires { g < length self.old.tenants }
        ensures logs { (h : ℕ) → log_at self.new.tenants h ≡ log_at self.old.tenants h ++ steps_for h g result.steps }
        ensures chosen { IsRun self.old.frames (S.slots self.old.store) (S.true_to_digests self.old.store) tax.percent g result.end
            (moment_of (R.stream rng.old) self.old) (moment_of (R.stream rng.new) self.new) }
        ensures guests { GuestsStay self.old.tenants self.new.tenants }
        ensures most { result.steps ≤ count }
        ensures done { result.end ≡ End.Done ↔ result.steps ≡ count }
        ensures need { S.true_to_digests self.old.store → (p : ℕ) (why : Why) → result.end ≡ End.Need p why → (t : TenantIs) →
            needed_by (guest_at self.new g t) ≡ Some (p, why) }
        ensures supplied { S.true_to_digests self.old.store → (p : ℕ) (why : Why) → result.end ≡ End.Need p why → (t : TenantIs) →
            IsSupplied p (guest_at self.new g t) }
        ensures full { result.end ≡ End.Stop RunStop.LogFull → (t : TenantIs) → IsFull (guest_at self.new g t).guest.log }
        ensures room { result.end ≢ End.Done → result.end ≢ End.Stop RunStop.LogFull → (t : TenantIs) →
            IsFull (guest_at self.new g t).guest.log → ⊥ }
        ensures stop { IfStop result.end (WhyHalted S.SwapStore g (IsAccessed S.SwapStore self.new g) self.old self.new) }
        ensures around { AroundStays S.SwapStore self.old self.new }
    {
        let mut steps = 0;
        while steps < count {
            match self.steps_supplied(alloc, g, count - steps, tax, rng) {
                Ok(made) => steps += made,
                Err(end) => return Ran { steps, end },
            }
        }
        Ran {
            steps: count,
            end: End::Done,
        }
    }
}
