//! Pages that guests need, and frames for them.
ghost use Rattle.std.specs.Prelude.{◌≡◌, ◌%◌, ◌<◌, ℕ, IfOk, length, map};
ghost use Rattle.world.specs.Below.{IsNextResident, TenantIs, next_u32, pages_in, resident_pages, stat_of};

use crate::World;
use page_moves::{Pages, SupplyError};
use rand_core::Rng;
use std::alloc::{AllocError, Global};
use swapstore::SwapStore;
use taxpolicy::{Stat, Tax, victim};
use tenant::{Cause, EvictError, Tenant};
use victims::{Spared, spared_of};
use word32::Ppn;

/// Why a page that a guest needs gets no frame.
#[derive(Clone, Copy, Debug, PartialEq, Eq)]
pub enum FaultError {
    /// No frame is free, and no guest has more resident pages than its minimum, or the store failed to write one of them.
    NoFrame,
    /// No frame is free, and no slot.
    NoSwap,
    /// The store failed to read the page's slot.
    SwapRead,
    /// What was read from the page's slot has another SHA-256 than the page.
    SwapDamaged,
    /// A request for memory was refused.
    Memory,
}

// A page of a guest's for the generator's next word, but for those that are spared.
pub(crate) fn drawn_page<R: Rng>(tenant: &Tenant, spared: &Option<(Ppn, Ppn)>, rng: &mut R) -> Ppn
    requires { tenant.now.minimum < resident_pages (pages_in tenant.now) }
    ensures page { IsNextResident spared.now (pages_in tenant.now) ((next_u32 (R.stream rng.old)).0 % length (pages_in tenant.now)) result }
    ensures rest { R.stream rng.new ≡ (next_u32 (R.stream rng.old)).1 }
{
    // Who asks for it knows that it is at least 2.
    let _minimum = tenant.minimum();
    victims::drawn_page(tenant.guest(), spared, rng.next_u32())
}

// What the policy knows of each guest.
pub(crate) fn stats_of(alloc: Global, tenants: &[Tenant]) -> Result<Vec<Stat>, AllocError>
    ensures { IfOk result (λ stats. stats.items ≡ map stat_of tenants.now) }
{
    let mut stats = Vec::with_capacity(alloc, tenants.len())?;
    for tenant in tenants {
        stats.push_reserved(tenant.stat());
    }
    Ok(stats)
}

impl<S: SwapStore> World<S> {
    ghost use Rattle.std.specs.Prelude.{◌≡◌, ◌+◌, ◌<◌, ℕ, [], Some, None, OnOk, IfErr, OnErr, length, map};
    ghost use Rattle.world.specs.All.{AroundStays, FailsOnce, IsAdmitted, IsFault, IsMet, IsNeeded, IsNoRoom, IsPolicys, IsSuppliedFor, MakesRoom, NoneLeaves, OnlyPagesMove, OtherSparedStay, PageKind, SparedStay, TenantIs, Why, WhyLacking, WhyUnsupplied, all_resident, guest_at, kind_at, moment_of, needed_by, pages_at, pages_in, stat_of};

    /// A page of the policy's victim leaves its frame for a slot: of the guests with more resident pages than their minimum the victim
    /// is the one of the least ratio of shares to pages, taxed for idle ones, and its page is the first resident one at or after the
    /// generator's next word modulo its pages, going round. The frame is free then but where other pages read it too.
    ///
    /// `NoFrame` where nobody has more resident pages than its minimum, for which no word is drawn, or where the store failed to write the
    /// page; `NoSwap` where no slot is free; `Memory` where a request for memory was refused. Then no page has moved. One word is drawn at
    /// most.
    pub fn evict_one<R: Rng>(
        &mut self,
        alloc: Global,
        tax: Tax,
        rng: &mut R,
    ) -> Result<(), FaultError>
        requires { self.old.pool.free ≡ [] }
        ensures moves { OnlyPagesMove self.old.tenants self.new.tenants }
        ensures policy { OnOk result (IsPolicys tax.percent (R.stream rng.old) None self.old.tenants self.new.tenants self.old.slots) }
        ensures rest { OnOk result (R.stream rng.new ≡ (next_u32 (R.stream rng.old)).1) }
        ensures stays { OnErr result (NoneLeaves tax.percent (moment_of (R.stream rng.old) self.old) (moment_of (R.stream rng.new) self.new)) }
        ensures fewer { OnOk result (all_resident self.new.tenants + 1 ≡ all_resident self.old.tenants) }
        ensures err { IfErr result
            (WhyLacking self.new.pool self.new.slots (map stat_of self.new.tenants) (FailsOnce S.SwapStore self.old self.new) ⊥) }
        ensures no_failure { OnOk result (S.failed self.new.store ≡ S.failed self.old.store) }
        ensures around { AroundStays S.SwapStore self.old self.new }
    {
        self.evict_sparing(alloc, &None, Cause::Order, tax, rng)
    }

    // A page of the policy's victim leaves its frame for a slot, as by `evict_one`, but for the pages that are spared.
    fn evict_sparing<R: Rng>(
        &mut self,
        alloc: Global,
        spared: &Option<Spared>,
        cause: Cause,
        tax: Tax,
        rng: &mut R,
    ) -> Result<(), FaultError>
        requires { self.old.pool.free ≡ [] }
        ensures moves { OnlyPagesMove self.old.tenants self.new.tenants }
        ensures policy { OnOk result (IsPolicys tax.percent (R.stream rng.old) spared.now self.old.tenants self.new.tenants self.old.slots) }
        ensures rest { OnOk result (R.stream rng.new ≡ (next_u32 (R.stream rng.old)).1) }
        ensures stays { OnErr result (NoneLeaves tax.percent (moment_of (R.stream rng.old) self.old) (moment_of (R.stream rng.new) self.new)) }
        ensures spared { SparedStay spared.now self.old.tenants self.new.tenants }
        ensures fewer { OnOk result (all_resident self.new.tenants + 1 ≡ all_resident self.old.tenants) }
        ensures err { IfErr result
            (WhyLacking self.new.pool self.new.slots (map stat_of self.new.tenants) (FailsOnce S.SwapStore self.old self.new) ⊥) }
        ensures no_failure { OnOk result (S.failed self.new.store ≡ S.failed self.old.store) }
        ensures around { AroundStays S.SwapStore self.old self.new }
    {
        let Ok(stats) = stats_of(alloc, self.tenants()) else {
            return Err(FaultError::Memory);
        };
        let Some(g) = victim(&stats, tax) else {
            return Err(FaultError::NoFrame);
        };
        let p = drawn_page(self.guest(g), &spared_of(spared, g), rng);
        match self.evict_of(g, p, cause) {
            Ok(()) => Ok(()),
            Err(EvictError::NoSwap) => Err(FaultError::NoSwap),
            Err(EvictError::SwapWrite) => Err(FaultError::NoFrame),
        }
    }

    // Pages of victims leave their frames until one is free, but for those that are spared.
    fn make_room<R: Rng>(
        &mut self,
        alloc: Global,
        spared: &Option<Spared>,
        cause: Cause,
        tax: Tax,
        rng: &mut R,
    ) -> Result<(), FaultError>
        ensures moves { OnlyPagesMove self.old.tenants self.new.tenants }
        ensures spared { SparedStay spared.now self.old.tenants self.new.tenants }
        ensures chosen { MakesRoom self.old.frames (S.slots self.old.store) tax.percent spared.now
            (moment_of (R.stream rng.old) self.old) (moment_of (R.stream rng.new) self.new) }
        ensures room { OnOk result (0 < length self.new.pool.free) }
        ensures err { IfErr result
            (WhyLacking self.new.pool self.new.slots (map stat_of self.new.tenants) (FailsOnce S.SwapStore self.old self.new) ⊥) }
        ensures no_failure { OnOk result (S.failed self.new.store ≡ S.failed self.old.store) }
        ensures around { AroundStays S.SwapStore self.old self.new }
    {
        while self.free() == 0 {
            self.evict_sparing(alloc, spared, cause, tax, rng)?;
            self.is_sound();
        }
        Ok(())
    }

    // A page of a guest gets a frame of its own, as by `supply`. Where none is free, pages of victims leave theirs one after another
    // until one is, but for those that are spared.
    pub(crate) fn supply_sparing<R: Rng>(
        &mut self,
        alloc: Global,
        g: usize,
        p: Ppn,
        spared: &Option<Spared>,
        cause: Cause,
        tax: Tax,
        rng: &mut R,
    ) -> Result<(), FaultError>
        requires guest { g < length self.old.tenants }
        requires page { (t : TenantIs) → p < length (pages_at self.old g t) }
        ensures moves { OnlyPagesMove self.old.tenants self.new.tenants }
        ensures private { OnOk result ((t : TenantIs) → kind_at (pages_at self.new g t) p ≡ PageKind.Private) }
        ensures chosen { IsSuppliedFor self.old.frames (S.slots self.old.store) tax.percent spared.now g p
            (moment_of (R.stream rng.old) self.old) (moment_of (R.stream rng.new) self.new) }
        ensures others { OtherSparedStay g p spared.now self.old.tenants self.new.tenants }
        ensures err { IfErr result (WhyUnsupplied S.SwapStore g (λ q. q ≡ p) self.old self.new) }
        ensures no_failure { OnOk result (S.failed self.new.store ≡ S.failed self.old.store) }
        ensures around { AroundStays S.SwapStore self.old self.new }
    {
        self.make_room(alloc, spared, cause, tax, rng)?;
        self.is_sound();
        let supplied = self.supply(alloc, g, p);
        self.is_sound();
        match supplied {
            Ok(()) => Ok(()),
            Err(SupplyError::NoFrame) => Err(FaultError::NoFrame),
            Err(SupplyError::Memory) => Err(FaultError::Memory),
            Err(SupplyError::SwapRead) => Err(FaultError::SwapRead),
            Err(SupplyError::SwapDamaged) => Err(FaultError::SwapDamaged),
        }
    }

    /// The page that a guest's next step needs gets a frame of its own, with its bytes. Where none is free, pages of victims leave
    /// theirs one after another (`evict_one`) until one is, and are counted by the cause (`Fault`, or `Run` in a run of steps). Where no
    /// page is needed it does nothing.
    ///
    /// `NoFrame` where none is free and the store failed to write a victim's page or nobody has more resident pages than its minimum;
    /// `NoSwap` where neither frame nor slot is free; `SwapRead` where the store failed to read the page's slot; `SwapDamaged` where
    /// what was read has another SHA-256 than the page, which an honest store never does; `Memory` where a request for memory was
    /// refused. Pages of victims that have left their frames before that stay in their slots. Where the guests are admitted by their
    /// minimums, it is never `NoSwap`, and `NoFrame` only where the store failed.
    pub fn fault<R: Rng>(
        &mut self,
        alloc: Global,
        g: usize,
        cause: Cause,
        tax: Tax,
        rng: &mut R,
    ) -> Result<(), FaultError>
        requires { g < length self.old.tenants }
        ensures moves { OnlyPagesMove self.old.tenants self.new.tenants }
        ensures supplied { OnOk result (S.true_to_digests self.old.store → (t : TenantIs) (p : ℕ) (why : Why) →
            needed_by (guest_at self.old g t) ≡ Some (p, why) →
            kind_at (pages_at self.new g t) p ≡ PageKind.Private) }
        ensures chosen { IsFault self.old.frames (S.slots self.old.store) (S.true_to_digests self.old.store) tax.percent g
            (moment_of (R.stream rng.old) self.old) (moment_of (R.stream rng.new) self.new) }
        ensures met { OnOk result (IsMet self.old.frames (S.slots self.old.store) (S.true_to_digests self.old.store) tax.percent g
            (moment_of (R.stream rng.old) self.old) (moment_of (R.stream rng.new) self.new)) }
        ensures nothing { S.true_to_digests self.old.store → (t : TenantIs) →
            needed_by (guest_at self.old g t) ≡ None →
            self.new ≡ self.old }
        ensures err { IfErr result (WhyUnsupplied S.SwapStore g (IsNeeded S.SwapStore self.old g) self.old self.new) }
        ensures no_failure { OnOk result (S.failed self.new.store ≡ S.failed self.old.store) }
        ensures room { IsAdmitted self.old.frames (S.slots self.old.store) self.old.tenants →
            IfErr result (IsNoRoom (FailsOnce S.SwapStore self.old self.new)) }
        ensures around { AroundStays S.SwapStore self.old self.new }
    {
        self.is_sound();
        let Some(needed) = self.guest(g).need() else {
            return Ok(());
        };
        let answer = self.supply_sparing(alloc, g, needed.0, &None, cause, tax, rng);
        self.is_sound();
        self.shared_frames_are_named();
        answer
    }
}
