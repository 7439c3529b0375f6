//! Turns of the policy.
ghost use Rattle.std.specs.Prelude.{◌≡◌, ◌<◌, ◌≤◌, ◌*◌, ℕ, All, IfSome, IfOk, OnErr, length, slice_index_or};
ghost use Rattle.cell.specs.declared.cell.Cell.{Cell};
ghost use Rattle.cell.specs.Level.{IsMemoryOf};
ghost use Rattle.reclaim.specs.declared.turn.Action.{Action};
ghost use Rattle.host_policy.specs.Policies.{IsPolicyOf};
ghost use Rattle.host_policy.specs.Turns.{ArePolicySeats, AreTurned, IsPlanFor, IsTurn};

use crate::aiming::{Aim, ask_each, left_out};
use crate::made::Turn;
use crate::numbers::{NOBODY, read_stats};
use crate::policy::Policy;
use crate::samples::sample_each;
use crate::state::MOST_GUESTS;
use crate::swapping::swap_out_each;
use cell::{Cell, Seat};
use machine_memory::MachineMemory;
use reclaim::Plan;
use reclaim::laws::guests_are_asked_for_what_they_owe;
use std::alloc::{AllocError, Global};
use std::sync::Wait;
use swapstore::SwapStore;

// What is done in a turn, by the numbers of the guests.
fn plan_turn<S: SwapStore + Drop, R: Wait>(
    rt: &R,
    alloc: Global,
    policy: &Policy,
    cells: &[Cell<S>],
    memory: &MachineMemory<S>,
) -> Result<Plan, AllocError>
    requires few { length cells.now ≤ 16 }
    requires policy { IsPolicyOf memory.now policy.now }
    ensures plan { IfOk result (λ plan. IsPlanFor memory.now cells.now plan) }
    ensures count { IfOk result (λ plan. length plan.actions.items ≡ length cells.now) }
    ensures most { IfOk result (λ plan. (g : ℕ) (a : Action) (c : Cell S) → g < length cells.now →
        IfSome (slice_index_or plan.actions.items g a).balloon (λ pages. 4 * pages ≤ 3 * (slice_index_or cells.now g c).front.pages)) }
{
    guests_are_asked_for_what_they_owe();
    let mut numbers = [NOBODY; MOST_GUESTS];
    let stats = &mut numbers[..cells.len()];
    read_stats(rt, cells, stats);
    policy.plan(rt, alloc, memory, stats)
}

/// A turn of the policy. First a period of the sample of each guest's pages ends and the next begins, guest after guest in the order of
/// their numbers. Then from how many frames are free comes the level, and from the level and the guests' numbers what is asked of each
/// (`reclaim::plan`): each guest is blocked or goes on, and its balloon's target is set where the plan has another one than the present
/// one, by an item of its seat of number 2; a guest whose log has no room for the item, or for whose item there is no memory, keeps its
/// target and is counted. Then, guest after guest, as many pages leave their frames for slots as the plan has, each by the generator's next
/// word (`Cell::evict`); a guest that has no more pages than it always keeps any more is passed over; the first page that stays, because no
/// slot is free or the store failed to write it, is the last that is tried.
///
/// Where the swap store is true to digests, a guest is its run; a seat by which an item was made, or the log looked at, has found it so.
///
/// `AllocError` where there is no memory for the plan: the level is as it was then, and nothing but the samples has changed.
pub fn turn<S: SwapStore + Drop, R: Wait>(
    rt: &R,
    alloc: Global,
    policy: &Policy,
    cells: &[Cell<S>],
    memory: &MachineMemory<S>,
    seats: &mut [Seat],
) -> Result<Turn, AllocError>
    requires few { length cells.now ≤ 16 }
    requires memory { All (λ c. IsMemoryOf c.front.first.value memory.now) cells.now }
    requires policy { IsPolicyOf memory.now policy.now }
    requires seats { ArePolicySeats cells.now seats.old }
    ensures turn { IfOk result (λ turn. IsTurn memory.now cells.now seats.old turn seats.new) }
    ensures seats { IfOk result (λ _. AreTurned S.true_to_digests cells.now seats.old seats.new) }
    ensures unchanged { OnErr result (seats.new ≡ seats.old) }
{
    sample_each(rt, policy, cells);
    let plan = plan_turn(rt, alloc, policy, cells, memory)?;
    let mut all_aims = [Aim::Kept; MOST_GUESTS];
    let aims = &mut all_aims[..cells.len()];
    ask_each(rt, cells, &plan.actions, seats, aims);
    let left_out = left_out(aims);
    let refused = swap_out_each(rt, policy, cells, memory, &plan.actions);
    Ok(Turn {
        level: plan.level,
        left_out,
        refused,
    })
}
