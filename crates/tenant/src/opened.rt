//! What a guest of a world is made of.
ghost use Rattle.std.specs.Prelude.{◌≡◌, ◌≤◌, length};

use crate::{MoveCounts, Seats, Tenant};
use guest::Guest;
use sampling::Sample;

/// What the policy goes by for a guest, beside its pages, and whether it lets the guest go on.
#[derive(Drop)]
pub struct PolicyState {
    /// How many shares of the memory the guest has.
    pub shares: u32,
    /// How many of its resident pages it always keeps.
    pub minimum: u32,
    /// What the sample of its pages says.
    pub sample: Sample,
    /// Whether it is to make no step while memory is low.
    pub blocked: bool,
}

/// What a guest of a world is made of, for an owner who puts the guest behind a lock of its own, hands out its seats, and keeps for the
/// policy what the policy goes by.
pub struct Opened {
    /// The guest.
    pub guest: Guest,
    /// Its seats.
    pub seats: Seats,
    /// What the policy goes by.
    pub state: PolicyState,
    /// How often its pages have moved.
    pub counts: MoveCounts,
}

impl Tenant {
    ghost use Rattle.std.specs.Prelude.{◌≡◌, ◌≤◌, length};
    ghost use Rattle.tenant.specs.Seats.{AreSeats};
    ghost use Rattle.tenant.specs.Tenants.{tenant_of};

    /// Takes it apart.
    pub fn open(self) -> Opened
        ensures parts { tenant_of result.guest result.state ≡ self }
        ensures seats { AreSeats result.guest result.seats }
        ensures least { 2 ≤ result.state.minimum }
        ensures most { result.state.minimum ≤ length result.guest.bus.pages }
    {
        let Tenant {
            guest,
            seats,
            state,
            counts,
        } = self;
        Opened {
            guest,
            seats,
            state,
            counts,
        }
    }

    /// The guest of a world that is made of these.
    pub fn of(parts: Opened) -> Tenant
        requires seats { AreSeats parts.guest parts.seats }
        requires least { 2 ≤ parts.state.minimum }
        requires most { parts.state.minimum ≤ length parts.guest.bus.pages }
        ensures { result ≡ tenant_of parts.guest parts.state }
    {
        let Opened {
            guest,
            seats,
            state,
            counts,
        } = parts;
        Tenant {
            guest,
            seats,
            state,
            counts,
        }
    }
}
