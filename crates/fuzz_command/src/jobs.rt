//! How many inputs are run at once.
ghost use Rattle.std.specs.Prelude.{◌≡◌, ◌<◌, ◌≤◌, ◌*◌, ◌≢◌, IfSome, None};

use std::marker::Model;

/// The greatest number of jobs.
pub const MOST_JOBS: u32 = 64;

/// How many inputs are taken at most for each job before their lines are written.
const MOST_INPUTS: u32 = 256;

/// How many steps the inputs that are taken for a job make together at most, where they are more than one: so a line waits some hundredths of
/// a second for others.
const BATCH_STEPS: u32 = 1 << 20;

/// How many inputs are run at once, each by a thread of its own: 1 to 64. In clauses it is the number.
#[derive(Clone, Copy, Debug, PartialEq, Eq)]
pub struct Jobs {
    number: u8,
}

impl Model for Jobs {
    ghost use Rattle.std.specs.Prelude.{ℕ, ◌<◌, ◌≤◌};

    ghost Value = { ℕ };

    ghost view = { λ j. j.number };

    ghost invariant = { λ j. (0 < j.number) × (j.number ≤ 64) };

    ghost inverse = { λ n. record { number = n } };
}

impl Jobs {
    /// So many jobs; none where there are none or more than 64.
    pub fn new(number: u32) -> Option<Jobs>
        ensures number { IfSome result (λ jobs. jobs ≡ number) }
        ensures none { result ≡ None → 0 < number → 64 < number }
    {
        if number == 0 || number > MOST_JOBS {
            return None;
        }
        Some(Jobs {
            number: number as u8,
        })
    }

    /// How many threads run inputs.
    pub fn threads(&self) -> usize
        ensures value { result ≡ self.now }
        ensures some { 0 < result }
        ensures few { result ≤ 64 }
    {
        usize::from(self.number)
    }

    /// How many inputs, of which each makes so many steps at most, are taken before their lines are written: with one job one, so that each line is
    /// written as soon as its run is over.
    pub(crate) fn batch(&self, steps: u32) -> usize
        ensures some { 0 < result }
        ensures few { result ≤ 16384 }
    {
        match self.number {
            1 => 1,
            jobs => usize::from(jobs) * inputs_a_job(steps),
        }
    }
}

// How many inputs of so many steps at most are taken for a job.
fn inputs_a_job(steps: u32) -> usize
    ensures some { 0 < result }
    ensures few { result ≤ 256 }
{
    let inputs = BATCH_STEPS / steps.max(1);
    inputs.max(1).min(MOST_INPUTS) as usize
}
