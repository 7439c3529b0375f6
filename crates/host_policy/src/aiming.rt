//! What a turn asks of the guests beside their pages: to stop, and balloon targets.
ghost use Rattle.std.specs.Prelude.{◌≡◌, ◌≢◌, ◌<◌, ◌≤◌, ◌*◌, ℕ, true, IfSome, length, slice_index_or, count_by};
ghost use Rattle.cell.specs.declared.cell.Cell.{Cell};
ghost use Rattle.cell.specs.Sitting.{Lasts, IsTrusted};
ghost use Rattle.reclaim.specs.declared.turn.Action.{Action};
ghost use Rattle.host_policy.specs.Turns.{IsPolicySeat, ArePolicySeats, IsAimed, AreAimed, AreTurned, is_left_out, is_used};

use cell::{Cell, Seat};
use guest::Stop;
use reclaim::Action;
use std::sync::Wait;
use swapstore::SwapStore;

/// What a turn of the policy made of a guest's balloon target.
#[derive(Clone, Copy, Debug, PartialEq, Eq)]
pub enum Aim {
    /// It stays: no other one was asked for.
    Kept,
    /// It is this many pages, set by an item of seat 2.
    Set(u32),
    /// It stays, though another one was asked for: the log has no room for the item, for this reason.
    LeftOut(Stop),
}

impl Aim {
    /// Whether another target was asked for, for which the log has no room.
    pub fn is_left_out(&self) -> bool
        ensures { result ≡ is_left_out self.now }
    {
        match self {
            Aim::LeftOut(_) => true,
            _ => false,
        }
    }
}

// The guest's balloon target becomes the one that is asked for, where that isn't the present one.
fn set_aim<S: SwapStore + Drop, R: Wait>(
    rt: &R,
    cell: &Cell<S>,
    seat: &mut Seat,
    asked: Option<u32>,
    present: u32,
) -> Aim
    requires seat { IsPolicySeat cell.now.front seat.old }
    ensures aimed { IsAimed cell.now.front asked seat.old result seat.new }
    ensures kept { result ≡ Aim.Kept → IfSome asked (λ pages. pages ≡ present) }
    ensures other { (pages : ℕ) → result ≡ Aim.Set pages → pages ≢ present }
    ensures its { IsPolicySeat cell.now.front seat.new }
    ensures lasts { Lasts seat.old seat.new }
    ensures lasts_with_store { is_used result ≡ true → IsTrusted S.true_to_digests cell.now.front → seat.new.witness.held ≡ true }
{
    let Some(pages) = asked else {
        return Aim::Kept;
    };
    if pages == present {
        return Aim::Kept;
    }
    match cell.set_target(rt, seat, pages) {
        Ok(()) => Aim::Set(pages),
        Err(stop) => Aim::LeftOut(stop),
    }
}

// Each guest is blocked or goes on, and its balloon target becomes the one that is asked for.
pub(crate) fn ask_each<S: SwapStore + Drop, R: Wait>(
    rt: &R,
    cells: &[Cell<S>],
    actions: &[Action],
    seats: &mut [Seat],
    aims: &mut [Aim],
)
    requires actions { length actions.now ≡ length cells.now }
    requires aims { length aims.old ≡ length cells.now }
    requires seats { ArePolicySeats cells.now seats.old }
    requires most { (g : ℕ) (a : Action) (c : Cell S) → g < length cells.now →
        IfSome (slice_index_or actions.now g a).balloon (λ pages. 4 * pages ≤ 3 * (slice_index_or cells.now g c).front.pages) }
    ensures aimed { AreAimed cells.now actions.now seats.old aims.new seats.new }
    ensures turned { AreTurned S.true_to_digests cells.now seats.old seats.new }
{
    for g in 0..cells.len() {
        let cell = &cells[g];
        cell.block(rt, actions[g].blocked);
        let present = cell.stat(rt).target;
        aims[g] = set_aim(rt, cell, &mut seats[g], actions[g].balloon, present);
    }
}

// How many guests keep their balloon targets though others were asked for.
pub(crate) fn left_out(aims: &[Aim]) -> usize
    ensures { result ≡ count_by is_left_out aims.now }
{
    aims.iter().filter(|aim| aim.is_left_out()).count()
}
