//! The seats of a guest behind a lock.
ghost use Rattle.std.specs.Prelude.{◌≡◌, length};

use items::SeatNo;
use lasting_truth::Witness;

/// The right to make items of one number of a guest's log, with what its holder knows of the guest's truth: whether it held when it was
/// last looked at.
#[derive(Drop)]
pub struct Seat {
    /// What it has seen of the log, and made.
    pub seat: guest::Seat,
    /// Whether the guest's truth held at the last call.
    pub witness: Witness,
}

impl Seat {
    /// The number that its items have.
    pub fn number(&self) -> SeatNo
        ensures { result ≡ self.now.seat.number }
    {
        self.seat.number()
    }

    /// How long a beginning of the log it has seen.
    pub fn seen_len(&self) -> u64
        ensures { result ≡ length self.now.seat.saw }
    {
        self.seat.seen_len()
    }
}

/// The four seats of a guest.
#[derive(Drop)]
pub struct Seats {
    /// Number 0: it makes the guest's steps, and brings its console's input.
    pub runner: Seat,
    /// Number 1: it drains the console, and sets the balloon's target for those who run the host.
    pub console: Seat,
    /// Number 2: it sets the balloon's target for the policy.
    pub policy: Seat,
    /// Number 3: it pokes, writes and steps for the debugger.
    pub debugger: Seat,
}
