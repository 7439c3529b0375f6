//! Turns of the policy: the level of free memory, and what is asked of each guest for it.
ghost use Rattle.std.specs.Prelude.{◌≡◌, count_by};
ghost use Rattle.world.specs.Below.{is_left_out};

use crate::World;
use crate::faulting::{drawn_page, stats_of};
use rand_core::Rng;
use reclaim::{Action, Level, plan};
use std::alloc::{AllocError, Global};
use swapstore::SwapStore;
use taxpolicy::Tax;
use tenant::{Aim, Cause, EvictError};

/// What became of a turn of the policy.
#[derive(Debug, Drop)]
pub struct Turn {
    /// The level in this turn.
    pub level: Level,
    /// What became of each guest's balloon target, in the order of the guests.
    pub aims: Vec<Aim>,
    /// Why a page that was to be swapped out stayed in its frame, where one did: none was swapped out after it.
    pub refused: Option<EvictError>,
}

impl Turn {
    /// How many guests keep their balloon targets though others were wanted.
    pub fn left_out(&self) -> usize
        ensures { result ≡ count_by is_left_out self.now.aims.items }
    {
        self.aims.iter().filter(|aim| aim.is_left_out()).count()
    }
}

impl<S: SwapStore> World<S> {
    ghost use Rattle.std.specs.Prelude.{◌≡◌, ◌<◌, ℕ, None, IfOk, IfErr, OnOk, OnErr, length, slice_index_or};
    ghost use Rattle.world.specs.All.{Action, AreCutShort, AreFewer, AreTurned, AroundStays, Changes, FailsOnce, IsStay, IsSwapOut, IsTurn, IsTurned, LosesPages, MayLose, OnlyPagesMove, SameAround, SwapOuts, SwapOutsEnd, TenantIs, TurnsBy, WhyStays, guest_at, moment_of, next_u32, pages_at, resident_pages};

    // What a turn does to a guest beside swapping out.
    fn turn_guest(&mut self, g: usize, action: Action) -> Aim
        requires { g < length self.old.tenants }
        ensures turned { Changes (λ t t'. IsTurned action t result t') g self.old.tenants self.new.tenants }
        ensures around { SameAround self.old self.new }
    {
        self.tenants[g].turn(action)
    }

    // What a turn does to each guest beside swapping out.
    fn turn_each(&mut self, alloc: Global, actions: &[Action]) -> Result<Vec<Aim>, AllocError>
        requires { length actions.now ≡ length self.old.tenants }
        ensures turned { IfOk result (λ aims. AreTurned actions.now self.old.tenants aims.items self.new.tenants) }
        ensures around { SameAround self.old self.new }
        ensures unchanged { OnErr result (self.new ≡ self.old) }
    {
        let mut aims = Vec::with_capacity(alloc, actions.len())?;
        for g in 0..actions.len() {
            let aim = self.turn_guest(g, actions[g]);
            aims.push_reserved(aim);
        }
        Ok(aims)
    }

    // A page of a guest leaves its frame for a slot: the one that the generator's next word draws.
    fn swap_out<R: Rng>(&mut self, g: usize, rng: &mut R) -> Result<(), EvictError>
        requires guest { g < length self.old.tenants }
        requires more { (t : TenantIs) → (guest_at self.old g t).minimum < resident_pages (pages_at self.old g t) }
        ensures loses { OnOk result (Changes (LosesPages 1) g self.old.tenants self.new.tenants) }
        ensures unchanged { OnErr result (self.new.tenants ≡ self.old.tenants) }
        ensures err { IfErr result (WhyStays self.new.slots (FailsOnce S.SwapStore self.old self.new)) }
        ensures no_failure { OnOk result (S.failed self.new.store ≡ S.failed self.old.store) }
        ensures out { OnOk result (IsSwapOut self.old.frames (S.slots self.old.store) g (moment_of (R.stream rng.old) self.old) (moment_of (R.stream rng.new) self.new)) }
        ensures stays { OnErr result (IsStay (moment_of (R.stream rng.old) self.old) (moment_of (R.stream rng.new) self.new)) }
        ensures rest { R.stream rng.new ≡ (next_u32 (R.stream rng.old)).1 }
        ensures around { AroundStays S.SwapStore self.old self.new }
    {
        let p = drawn_page(self.guest(g), &None, rng);
        let swapped = self.evict_of(g, p, Cause::Level);
        self.is_sound();
        swapped
    }

    // So many pages of a guest leave their frames, one after another, or up to the first one that stays.
    fn swap_out_pages<R: Rng>(
        &mut self,
        g: usize,
        count: u32,
        rng: &mut R,
    ) -> Result<(), EvictError>
        requires guest { g < length self.old.tenants }
        requires more { (t : TenantIs) → MayLose count (guest_at self.old g t) }
        ensures loses { OnOk result (Changes (LosesPages count) g self.old.tenants self.new.tenants) }
        ensures fewer { OnErr result ((lost : ℕ) × (lost < count) × Changes (LosesPages lost) g self.old.tenants self.new.tenants) }
        ensures outs { OnOk result (SwapOuts self.old.frames (S.slots self.old.store) g g (moment_of (R.stream rng.old) self.old) (moment_of (R.stream rng.new) self.new)) }
        ensures end { OnErr result (SwapOutsEnd self.old.frames (S.slots self.old.store) g g (moment_of (R.stream rng.old) self.old) (moment_of (R.stream rng.new) self.new)) }
        ensures err { IfErr result (WhyStays self.new.slots (FailsOnce S.SwapStore self.old self.new)) }
        ensures no_failure { OnOk result (S.failed self.new.store ≡ S.failed self.old.store) }
        ensures around { AroundStays S.SwapStore self.old self.new }
    {
        for _ in 0..count {
            self.swap_out(g, rng)?;
        }
        Ok(())
    }

    // The pages that the actions swap out leave their frames, guest after guest, or up to the first one that stays.
    fn swap_out_each<R: Rng>(&mut self, actions: &[Action], rng: &mut R) -> Result<(), EvictError>
        requires count { length actions.now ≡ length self.old.tenants }
        requires more { (g : ℕ) (t : TenantIs) (a : Action) → g < length self.old.tenants →
            MayLose (slice_index_or actions.now g a).swap_out (guest_at self.old g t) }
        ensures moves { OnlyPagesMove self.old.tenants self.new.tenants }
        ensures all { OnOk result (AreFewer actions.now (length self.old.tenants) self.old.tenants self.new.tenants) }
        ensures short { OnErr result (AreCutShort actions.now self.old.tenants self.new.tenants) }
        ensures outs { OnOk result (SwapOuts self.old.frames (S.slots self.old.store) 0 (length self.old.tenants) (moment_of (R.stream rng.old) self.old) (moment_of (R.stream rng.new) self.new)) }
        ensures end { OnErr result (SwapOutsEnd self.old.frames (S.slots self.old.store) 0 (length self.old.tenants) (moment_of (R.stream rng.old) self.old) (moment_of (R.stream rng.new) self.new)) }
        ensures err { IfErr result (WhyStays self.new.slots (FailsOnce S.SwapStore self.old self.new)) }
        ensures around { AroundStays S.SwapStore self.old self.new }
    {
        for g in 0..actions.len() {
            self.swap_out_pages(g, actions[g].swap_out, rng)?;
        }
        Ok(())
    }

    // The level is another. All else stays.
    fn set_level(&mut self, level: Level)
        ensures { self.new ≡ record self.old { level = level } }
    {
        self.level = level;
    }

    /// A turn of the policy (`reclaim::plan`): from how many frames are free comes the level, and from the level and what the policy knows
    /// of the guests what is asked of each. First each guest is blocked or goes on, and its balloon's target is set where the plan has
    /// another one, by an item of seat 2; a guest whose log has no room for the item keeps its target. Then, guest after guest in the
    /// order of their numbers, as many pages leave their frames for slots as the plan has, each the first resident one at or after the
    /// generator's next word modulo the guest's pages, going round; the first one that stays, because no slot is free or the store
    /// failed to write it, is the last that is tried.
    ///
    /// `AllocError` where there is no memory for the plan: nothing has changed then.
    pub fn level_turn<R: Rng>(
        &mut self,
        alloc: Global,
        tax: Tax,
        rng: &mut R,
    ) -> Result<Turn, AllocError>
        ensures turn { IfOk result (λ turn. IsTurn tax.percent (FailsOnce S.SwapStore self.old self.new) self.old turn self.new) }
        ensures unchanged { OnErr result (self.new ≡ self.old) }
        ensures by_words { OnOk result (TurnsBy self.old.frames (S.slots self.old.store) (moment_of (R.stream rng.old) self.old) (moment_of (R.stream rng.new) self.new)) }
        ensures undrawn { OnErr result (R.stream rng.new ≡ R.stream rng.old) }
        ensures around { AroundStays S.SwapStore (record self.old { level = self.new.level }) self.new }
    {
        let stats = stats_of(alloc, self.tenants())?;
        let plan = plan(alloc, self.level, &stats, self.free(), self.frames, tax)?;
        let aims = self.turn_each(alloc, &plan.actions)?;
        self.set_level(plan.level);
        let refused = self.swap_out_each(&plan.actions, rng).err();
        Ok(Turn {
            level: plan.level,
            aims,
            refused,
        })
    }
}
