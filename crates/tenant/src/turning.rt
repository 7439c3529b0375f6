//! What a turn of the policy does to a guest beside its pages.
ghost use Rattle.std.specs.Prelude.{◌≡◌};
ghost use Rattle.tenant.specs.Turns.{is_left_out};

use crate::Tenant;
use guest::{Refused, Stop};
use items::{Item, SeatNo, What};
use reclaim::Action;

/// What a turn of the policy made of a guest's balloon target.
#[derive(Clone, Copy, Debug, PartialEq, Eq)]
pub enum Aim {
    /// It stays: no other one was wanted.
    Kept,
    /// It is this many pages, set by an item of seat 2.
    Set(u32),
    /// It stays, though another one was wanted: the log has no room for the item, for this reason.
    LeftOut(Stop),
}

impl Aim {
    /// Whether another target was wanted, for which the log has no room.
    pub fn is_left_out(&self) -> bool
        ensures { result ≡ is_left_out self.now }
    {
        match self {
            Aim::LeftOut(_) => true,
            _ => false,
        }
    }
}

impl Tenant {
    ghost use Rattle.std.specs.Prelude.{◌≡◌, ◌↔◌, ℕ, Option, List, OnOk, OnErr, IsErrOf};
    ghost use Rattle.guest_log.specs.Logs.{IsFull};
    ghost use Rattle.guest_pages.specs.Outline.{outline};
    ghost use Rattle.tenant.specs.Tenants.{pages_in, IsKept, Stays, Adds, NothingHappens};
    ghost use Rattle.tenant.specs.Turns.{target_by_policy, IsAimed, StaysInTurn};

    // Its balloon's target becomes this many pages.
    fn set_target(&mut self, pages: u32) -> Result<(), Stop>
        ensures adds { OnOk result (Adds self.old (target_by_policy pages) self.new) }
        ensures full { IsErrOf result Stop.LogFull ↔ IsFull self.old.guest.log }
        ensures unchanged { OnErr result (NothingHappens self.old self.new) }
        ensures outline { outline (pages_in self.new) ≡ outline (pages_in self.old) }
        ensures kept { (held : ℕ → Option (List ℕ)) → IsKept held self.old → IsKept held self.new }
        ensures stays { Stays self.old self.new }
    {
        let item = Item {
            seat: SeatNo::new(2),
            what: What::Target(pages),
        };
        match self.input(item) {
            Ok(reply) => {
                drop(reply);
                Ok(())
            }
            Err(Refused::Machine) => unreachable!(),
            Err(Refused::Away(_)) => unreachable!(),
            Err(Refused::Stop(stop)) => Err(stop),
        }
    }

    /// What a turn of the policy does to the guest beside swapping its pages out: it is blocked or goes on, as the action says, and its
    /// balloon's target becomes that of the action, where the action has one that is not the present one, by an item of seat 2. No page
    /// moves.
    pub fn turn(&mut self, action: Action) -> Aim
        ensures blocked { self.new.blocked ≡ action.blocked }
        ensures aimed { IsAimed action.balloon self.old result self.new }
        ensures outline { outline (pages_in self.new) ≡ outline (pages_in self.old) }
        ensures kept { (held : ℕ → Option (List ℕ)) → IsKept held self.old → IsKept held self.new }
        ensures stays { StaysInTurn self.old self.new }
    {
        self.set_blocked(action.blocked);
        let Some(pages) = action.balloon else {
            return Aim::Kept;
        };
        if pages == self.guest().view().devices.target() {
            return Aim::Kept;
        }
        match self.set_target(pages) {
            Ok(()) => Aim::Set(pages),
            Err(stop) => Aim::LeftOut(stop),
        }
    }
}
