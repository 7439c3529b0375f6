//! How far a run of steps of a guest came.
ghost use Rattle.std.specs.Prelude.{◌≡◌};
ghost use Rattle.guest.specs.Guests.{steps_by};

use guest_pages::Returned;
use machine::{Ppn, Why};

/// Why a run of steps pauses.
pub enum Pause {
    /// The last step gave a page to the balloon. What the page was in comes back: its frame, its ticket of a shared frame or its
    /// slot; nothing of a page that was in none of these.
    Gave(Returned),
    /// The next step needs this page first, and has changed nothing.
    Need(Ppn, Why),
}

impl Pause {
    /// How many steps were made by the one at which the run pauses: one that gave a page is made, one that needs a page is not.
    pub(crate) fn steps(&self) -> u32
        ensures { result ≡ steps_by self.now }
    {
        match self {
            Pause::Gave(_) => 1,
            Pause::Need(_, _) => 0,
        }
    }
}

/// How far a run of steps came.
pub struct Progress {
    /// How many steps were made.
    pub steps: u32,
    /// Why no more were made; None where all were for which there was room in the log.
    pub pause: Option<Pause>,
}
