//! The seats of a guest.
ghost use Rattle.std.specs.Prelude.{◌≡◌, []};

use guest::{Guest, Seat};

/// The four seats of a guest, which its owner may hand out: a lock that holds the guest needs none of them.
pub struct Seats {
    /// Number 0: it makes the guest's steps, and brings its console's input.
    pub runner: Seat,
    /// Number 1: it drains the console, and sets the balloon's target for those who run the world.
    pub console: Seat,
    /// Number 2: it sets the balloon's target for the policy.
    pub policy: Seat,
    /// Number 3: it pokes and writes for the debugger.
    pub debugger: Seat,
}

impl Seats {
    ghost use Rattle.std.specs.Prelude.{◌≡◌};
    ghost use Rattle.tenant.specs.Seats.{AreSeats, AreFresh};

    /// The seats of a guest that has none yet. They have seen and made nothing.
    pub fn of(guest: &mut Guest) -> Seats
        requires { guest.old.seats ≡ 0 }
        ensures guest { guest.new ≡ record guest.old { seats = 4 } }
        ensures seats { AreSeats guest.new result }
        ensures fresh { AreFresh result }
    {
        Seats {
            runner: guest.seat(),
            console: guest.seat(),
            policy: guest.seat(),
            debugger: guest.seat(),
        }
    }

    /// Gives the seats up.
    pub(crate) fn close(self) {
        let Seats {
            runner,
            console,
            policy,
            debugger,
        } = self;
        drop(runner);
        drop(console);
        drop(policy);
        drop(debugger);
    }
}
