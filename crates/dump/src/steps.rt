//! How many steps a log has.
ghost use Rattle.std.specs.Prelude.{◌≡◌, ◌%◌, ◌^◌};
ghost use Rattle.items.specs.Entries.{items_in};
ghost use Rattle.dump.specs.Steps.{step_count};

use guest_log::Log;
use items::{Entry, What};

/// How many of the items that an entry keeps are steps.
#[tactic(auto, using(crate::proofs::Counting::steps_counted))]
pub fn steps_of_entry(entry: &Entry) -> u64
    ensures { result ≡ step_count (items_in entry.now) % 2 ^ 64 }
{
    match entry {
        Entry::Steps { seat: _, count } => *count,
        Entry::One(item) => match item.what {
            What::Step => 1,
            What::In(_) | What::Drain | What::Target(_) | What::Poke { .. } | What::Write { .. } =>
                0,
        },
    }
}

/// How many steps a log has.
pub fn steps_in(log: &Log) -> u64
    ensures { result ≡ step_count log.now.items }
{
    log.within();
    let mut steps: u64 = 0;
    for entry in log.entries() {
        steps = steps.wrapping_add(steps_of_entry(entry));
    }
    match log.last_steps() {
        Some(entry) => steps.wrapping_add(steps_of_entry(&entry)),
        None => steps,
    }
}
