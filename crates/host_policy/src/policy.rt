//! The policy under its lock.
ghost use Rattle.std.specs.Prelude.{◌≡◌};

use crate::state::State;
use keyed_lock::{Close, Fits, KeyedLock};
use machine_memory::MachineMemory;
use rand_core::SeedableRng;
use rand_pcg::Pcg32;
use reclaim::{Level, Plan};
use shared_pool::PoolPass;
use std::alloc::{AllocError, Global};
use std::marker::Model;
use std::snapshot::Snapshot;
use std::sync::Wait;
use swapstore::SwapStore;
use taxpolicy::{SAMPLE_SIZE, Stat, Tax};

/// What the content of a policy's lock fits.
#[derive(Drop)]
pub struct Key {
    /// The pass of the free frames with which the policy was made, for the proofs.
    pub first: Snapshot<PoolPass>,
    /// How many frames there are.
    pub frames: u32,
}

/// What lies under a policy's lock.
pub struct Locked {
    /// What the policy goes by.
    pub(crate) state: State<Pcg32>,
    /// The right to count the free frames.
    pub(crate) pass: PoolPass,
}

impl Close for Locked {
    fn close(self) {
        let Locked { state, pass } = self;
        drop(state);
        drop(pass);
    }
}

impl Fits<Key> for Locked {
    ghost use Rattle.host_policy.specs.Policies.{LiesUnder};

    ghost fits = { LiesUnder };
}

/// The level of free memory, the tax, the samples of the guests' pages and the generator of the words that pages are drawn by, under a lock
/// that is held while no other is. Threads share it by reference. In clauses it is a record, `PolicyIs`.
#[derive(Drop)]
pub struct Policy {
    lock: KeyedLock<Locked, Key>,
    frames: u32,
}

impl Model for Policy {
    ghost use Rattle.std.specs.Prelude.{◌≡◌};
    ghost use Rattle.host_policy.specs.Policies.{PolicyIs};

    ghost Value = { PolicyIs };

    ghost view = { λ policy. record { first = policy.lock.key.first.value; frames = policy.frames } };

    ghost invariant = { λ policy. policy.lock.key.frames ≡ policy.frames };
}

unsafe impl Sync for Policy {}

impl Policy {
    ghost use Rattle.std.specs.Prelude.{◌≡◌, ◌<◌, ◌≤◌, ℕ, All, List, None, Some, IsNone, MatchOption, IfSome, IfOk, IfErr, length};
    ghost use Rattle.rand_core.specs.Stream.{Stream};
    ghost use Rattle.sampling.specs.declared.sample.Sample.{Sample};
    ghost use Rattle.taxpolicy.specs.Sample.{drawn};
    ghost use Rattle.taxpolicy.specs.Victim.{IsEligible, victim_of};
    ghost use Rattle.host_policy.specs.Samples.{AreSampledBy};
    ghost use Rattle.host_policy.specs.Policies.{IsPolicyOf, IsReached, WereFree};
    ghost use Rattle.host_policy.specs.Turns.{IsPlan};

    /// A policy at boot, of a machine memory with so many frames, of whose pool the pass is: the level is high, no page was drawn for a
    /// sample yet, so each guest counts as active, and the words are those of `Pcg32` of this seed. Where there is no memory for the lock,
    /// the pass comes back.
    #[tactic(auto, using(crate::proofs::Levels::lies_at_boot))]
    pub fn new(
        alloc: Global,
        pass: PoolPass,
        frames: u32,
        tax: Tax,
        seed: u64,
    ) -> Result<Policy, PoolPass>
        ensures policy { IfOk result (λ policy. policy ≡ record { first = pass; frames = frames }) }
        ensures back { IfErr result (λ back. back ≡ pass) }
    {
        let key = Key {
            first: Snapshot::of(&pass),
            frames,
        };
        let state = State::new(tax, Pcg32::seed_from_u64(seed));
        match KeyedLock::new(alloc, Locked { state, pass }, &key) {
            Ok(lock) => Ok(Policy { lock, frames }),
            Err(Locked { state, pass }) => {
                drop(state);
                Err(pass)
            }
        }
    }

    /// The level of the last turn; high before the first.
    #[tactic(auto, using(crate::proofs::Levels::reached_as))]
    pub fn level<R: Wait>(&self, rt: &R) -> Level
        ensures { IsReached self.now.first self.now.frames result }
    {
        let (locked, loan) = self.lock.take(rt);
        let level = locked.state.level;
        self.lock.put_back(locked, loan);
        level
    }

    /// The tax that is in force.
    pub fn tax<R: Wait>(&self, rt: &R) -> Tax {
        let (locked, loan) = self.lock.take(rt);
        let tax = locked.state.tax;
        self.lock.put_back(locked, loan);
        tax
    }

    /// This tax is in force from now on.
    #[tactic(auto, using(crate::proofs::Levels::lies_still))]
    pub fn set_tax<R: Wait>(&self, rt: &R, tax: Tax) {
        let (mut locked, loan) = self.lock.take(rt);
        locked.state.tax = tax;
        self.lock.put_back(locked, loan);
    }

    /// How many frames of the policy's machine memory were free at a moment of the call.
    #[tactic(auto, using(crate::proofs::Levels::lies_still))]
    pub fn free_frames<S: SwapStore + Drop, R: Wait>(
        &self,
        rt: &R,
        memory: &MachineMemory<S>,
    ) -> u32
        requires { IsPolicyOf memory.now self.now }
        ensures { WereFree memory.now result }
    {
        let (mut locked, loan) = self.lock.take(rt);
        let count = memory.free_frames(rt, &mut locked.pass);
        self.lock.put_back(locked, loan);
        count
    }

    // The generator's next word.
    #[tactic(auto, using(crate::proofs::Levels::lies_still))]
    pub(crate) fn next_word<R: Wait>(&self, rt: &R) -> u32 {
        let (mut locked, loan) = self.lock.take(rt);
        let word = locked.state.next_word();
        self.lock.put_back(locked, loan);
        word
    }

    // The policy's victim of guests with these numbers, with the word that its page is drawn by, as `State::choose` has it.
    #[tactic(auto, using(crate::proofs::Levels::lies_still))]
    pub(crate) fn choose<R: Wait>(&self, rt: &R, stats: &mut [Stat]) -> Option<(usize, u32)>
        requires few { length stats.old ≤ 16 }
        ensures sampled { (samples : List Sample) × AreSampledBy samples stats.old stats.new }
        ensures victim { (tax : ℕ) × (tax < 100) × MatchOption result (victim_of tax stats.new ≡ None) (λ chosen. victim_of tax stats.new ≡ Some chosen.0) }
        ensures there { IfSome result (λ chosen. chosen.0 < length stats.old) }
        ensures nobody { IsNone result → All (λ s. ¬ IsEligible s) stats.new }
    {
        let (mut locked, loan) = self.lock.take(rt);
        let chosen = locked.state.choose(stats);
        self.lock.put_back(locked, loan);
        chosen
    }

    // The pages that were drawn for the period of a guest's sample that runs, if one does.
    pub(crate) fn draws<R: Wait>(&self, rt: &R, g: usize) -> Option<[u32; SAMPLE_SIZE]>
        requires { g < 16 }
    {
        let (locked, loan) = self.lock.take(rt);
        let draws = locked.state.samples[g].draws;
        self.lock.put_back(locked, loan);
        draws
    }

    // A period of a guest's sample ends and the next one begins, as `State::next_sample` has it.
    #[tactic(auto, using(crate::proofs::Levels::lies_still))]
    pub(crate) fn next_sample<R: Wait>(
        &self,
        rt: &R,
        g: usize,
        touched: Option<u16>,
        pages: u32,
    ) -> [u32; SAMPLE_SIZE]
        requires guest { g < 16 }
        requires touched { IfSome touched (λ count. count ≤ 100) }
        requires pages { 0 < pages }
        ensures { (words : Stream) × (result ≡ drawn pages 100 words) }
    {
        let (mut locked, loan) = self.lock.take(rt);
        let draws = locked.state.next_sample(g, touched, pages);
        self.lock.put_back(locked, loan);
        draws
    }

    // What is done in a turn, by how many frames are free and these numbers of the guests, as `State::plan` has it.
    #[tactic(auto, using(crate::proofs::Levels::were_free, crate::proofs::Levels::lies_after_turn, crate::proofs::Levels::was_reached))]
    pub(crate) fn plan<S: SwapStore + Drop, R: Wait>(
        &self,
        rt: &R,
        alloc: Global,
        memory: &MachineMemory<S>,
        stats: &mut [Stat],
    ) -> Result<Plan, AllocError>
        requires few { length stats.old ≤ 16 }
        requires memory { IsPolicyOf memory.now self.now }
        ensures sampled { (samples : List Sample) × AreSampledBy samples stats.old stats.new }
        ensures plan { IfOk result (λ plan. IsPlan memory.now stats.new plan) }
        ensures count { IfOk result (λ plan. length plan.actions.items ≡ length stats.old) }
    {
        let (mut locked, loan) = self.lock.take(rt);
        let free = memory.free_frames(rt, &mut locked.pass);
        let plan = locked.state.plan(alloc, stats, free, self.frames);
        self.lock.put_back(locked, loan);
        plan
    }
}
