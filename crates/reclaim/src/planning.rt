//! How a turn is planned.
ghost use Rattle.std.specs.Prelude.{◌≡◌, IfOk, length, vec_len};
ghost use Rattle.reclaim.specs.Levels.{next_level_of};
ghost use Rattle.reclaim.specs.Plans.{balloon_target, action_of, actions_of};

use crate::{Action, Level, Plan, next_level};
use std::alloc::{AllocError, Global};
use taxpolicy::{Stat, Tax, targets};

/// The balloon target of a guest that is to keep `target` pages: three quarters of its pages at most.
fn balloon_target(stat: &Stat, target: u32) -> u32
    ensures { result ≡ balloon_target stat.now target }
{
    let excess = stat.resident.saturating_sub(target);
    let most = (3 * u64::from(stat.pages) / 4) as u32;
    stat.given.saturating_add(excess).min(most)
}

/// What is done to a guest that is to keep `target` pages.
fn action_at(level: Level, stat: &Stat, target: u32) -> Action
    ensures { result ≡ action_of level stat.now target }
{
    let is_above = target < stat.resident;
    let mut action = Action {
        balloon: None,
        swap_out: 0,
        blocked: false,
    };
    match level {
        Level::High => action.balloon = Some(0),
        Level::Soft if is_above => action.balloon = Some(balloon_target(stat, target)),
        Level::Soft => {}
        Level::Hard | Level::Low => {
            action.swap_out = stat.resident.saturating_sub(target);
            action.blocked = level == Level::Low && is_above;
        }
    }
    action
}

/// What is done in a turn in which `free` frames of `total` are free, after a turn at a level. A guest above its target, as
/// `taxpolicy::targets` gives it, inflates its balloon at the level soft, by no more than three quarters of its pages; it
/// has the pages above swapped out at hard and low, and is blocked at low. At high all balloons deflate. An `Err` is want of
/// memory.
#[tactic(auto, using(crate::proofs::Swapping::one_each))]
pub fn plan(
    alloc: Global,
    level: Level,
    stats: &[Stat],
    free: u32,
    total: u32,
    tax: Tax,
) -> Result<Plan, AllocError>
    ensures count { IfOk result (λ plan. vec_len plan.actions ≡ length stats.now) }
    ensures level { IfOk result (λ plan. plan.level ≡ next_level_of free total level) }
    ensures actions { IfOk result (λ plan. plan.actions.items ≡ actions_of plan.level tax.percent total stats.now) }
{
    let level = next_level(level, free, total);
    let targets = targets(alloc, stats, total, tax)?;
    let actions = stats
        .iter()
        .zip(targets.iter())
        .map(|(stat, target)| action_at(level, stat, *target))
        .collect(alloc)?;
    Ok(Plan { level, actions })
}
