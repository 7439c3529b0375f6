//! What the policy goes by.
ghost use Rattle.std.specs.Prelude.{◌≡◌, ◌<◌, ◌≤◌, length};
ghost use Rattle.host_policy.specs.Samples.{IsSampledBy, AreSampledBy};

use rand_core::Rng;
use reclaim::{Level, Plan, plan};
use sampling::Sample;
use std::alloc::{AllocError, Global};
use taxpolicy::{SAMPLE_SIZE, Stat, Tax, pick_sample, victim};

/// How many guests a policy is for at most.
pub const MOST_GUESTS: usize = 16;

// The level of the last turn, the tax, the sample of each guest's pages, by the guest's number, and the generator of the words that pages
// are drawn by.
#[derive(Drop)]
pub(crate) struct State<R> {
    pub level: Level,
    pub tax: Tax,
    pub samples: [Sample; MOST_GUESTS],
    pub generator: R,
}

// A guest's numbers, with what a sample of its pages says.
fn sampled(stat: &Stat, sample: &Sample) -> Stat
    ensures { IsSampledBy sample.now stat.now result }
{
    Stat {
        shares: stat.shares,
        pages: stat.pages,
        resident: stat.resident,
        given: stat.given,
        active: sample.active,
        sample: SAMPLE_SIZE as u16,
        minimum: stat.minimum,
    }
}

// The numbers of each guest, with what the sample of its pages says.
fn sample_stats(samples: &[Sample; MOST_GUESTS], stats: &mut [Stat])
    requires few { length stats.old ≤ 16 }
    ensures sampled { AreSampledBy samples.now stats.old stats.new }
{
    for g in 0..stats.len() {
        stats[g] = sampled(&stats[g], &samples[g]);
    }
}

impl<R: Rng> State<R> {
    ghost use Rattle.std.specs.Prelude.{◌≡◌, ◌<◌, ◌≤◌, ℕ, All, None, Some, OnSome, IfSome, IfOk, OnOk, OnErr, MatchOption, IsNone, length, max, slice_index_or, slice_set, unwrap_or};
    ghost use Rattle.rand_core.specs.Stream.{next_u32};
    ghost use Rattle.sampling.specs.declared.sample.Sample.{Sample};
    ghost use Rattle.taxpolicy.specs.Sample.{drawn, after_words};
    ghost use Rattle.taxpolicy.specs.Victim.{IsEligible, victim_of};
    ghost use Rattle.reclaim.specs.Levels.{next_level_of};
    ghost use Rattle.reclaim.specs.Plans.{actions_of};
    ghost use Rattle.host_policy.specs.Samples.{AreSampledBy};

    // The state at boot: nothing is wanting, and no page was drawn yet.
    pub fn new(tax: Tax, generator: R) -> State<R>
        ensures high { result.level ≡ Level.High }
        ensures tax { result.tax ≡ tax }
        ensures generator { result.generator ≡ generator }
    {
        State {
            level: Level::High,
            tax,
            samples: [Sample::new(); MOST_GUESTS],
            generator,
        }
    }

    // The generator's next word.
    pub fn next_word(&mut self) -> u32
        ensures word { result ≡ (next_u32 (R.stream self.old.generator)).0 }
        ensures rest { R.stream self.new.generator ≡ (next_u32 (R.stream self.old.generator)).1 }
        ensures beside { self.new ≡ record self.old { generator = self.new.generator } }
    {
        self.generator.next_u32()
    }

    // The policy's victim of guests with these numbers, which it takes up with what their samples say; and once there is one, the
    // generator's next word.
    pub fn choose(&mut self, stats: &mut [Stat]) -> Option<(usize, u32)>
        requires few { length stats.old ≤ 16 }
        ensures sampled { AreSampledBy self.old.samples stats.old stats.new }
        ensures victim { MatchOption result (victim_of self.old.tax.percent stats.new ≡ None) (λ chosen. victim_of self.old.tax.percent stats.new ≡ Some chosen.0) }
        ensures there { IfSome result (λ chosen. chosen.0 < length stats.old) }
        ensures word { IfSome result (λ chosen. chosen.1 ≡ (next_u32 (R.stream self.old.generator)).0) }
        ensures rest { OnSome result (R.stream self.new.generator ≡ (next_u32 (R.stream self.old.generator)).1) }
        ensures nobody { IsNone result → All (λ s. ¬ IsEligible s) stats.new }
        ensures undrawn { IsNone result → self.new ≡ self.old }
        ensures beside { self.new ≡ record self.old { generator = self.new.generator } }
    {
        sample_stats(&self.samples, stats);
        match victim(stats, self.tax) {
            Some(g) => Some((g, self.next_word())),
            None => None,
        }
    }

    // A period of a guest's sample ends, of whose draws so many were touched, and the next one begins: the pages that are drawn for it.
    pub fn next_sample(&mut self, g: usize, touched: Option<u16>, pages: u32) -> [u32; SAMPLE_SIZE]
        requires guest { g < 16 }
        requires touched { IfSome touched (λ count. count ≤ 100) }
        requires pages { 0 < pages }
        ensures draws { result ≡ drawn pages 100 (R.stream self.old.generator) }
        ensures rest { R.stream self.new.generator ≡ after_words 100 (R.stream self.old.generator) }
        ensures its { (s : Sample) → (slice_index_or self.new.samples g s).draws ≡ Some result }
        ensures active { (s : Sample) → (slice_index_or self.new.samples g s).active ≡ unwrap_or touched (slice_index_or self.old.samples g s).active }
        ensures others { (h : ℕ) (s : Sample) → (h ≡ g → ⊥) → slice_index_or self.new.samples h s ≡ slice_index_or self.old.samples h s }
        ensures beside { self.new ≡ record self.old { samples = self.new.samples; generator = self.new.generator } }
    {
        let draws = pick_sample(&mut self.generator, pages);
        self.samples[g].next(touched, draws);
        draws
    }

    // A turn in which so many of these frames are free, of guests with these numbers, which it takes up with what their samples say. The
    // level is that of the turn then; where a request for memory was refused, it is as it was.
    pub fn plan(
        &mut self,
        alloc: Global,
        stats: &mut [Stat],
        free: u32,
        frames: u32,
    ) -> Result<Plan, AllocError>
        requires few { length stats.old ≤ 16 }
        ensures sampled { AreSampledBy self.old.samples stats.old stats.new }
        ensures level { IfOk result (λ plan. plan.level ≡ next_level_of free frames self.old.level) }
        ensures actions { IfOk result (λ plan. plan.actions.items ≡ actions_of plan.level self.old.tax.percent frames stats.new) }
        ensures count { IfOk result (λ plan. length plan.actions.items ≡ length stats.old) }
        ensures turned { IfOk result (λ plan. self.new ≡ record self.old { level = plan.level }) }
        ensures unchanged { OnErr result (self.new ≡ self.old) }
    {
        sample_stats(&self.samples, stats);
        match plan(alloc, self.level, stats, free, frames, self.tax) {
            Ok(plan) => {
                self.level = plan.level;
                Ok(plan)
            }
            Err(error) => Err(error),
        }
    }
}
