//! The right to read a shared frame.
ghost use Rattle.std.specs.Prelude.{◌≡◌};

use std::marker::Model;

/// The right of one page to read a shared frame, which the frame counts. In clauses it is the frame's number.
pub struct ShareTicket {
    number: u32,
}

impl Model for ShareTicket {
    ghost use Rattle.std.specs.Prelude.{ℕ};

    ghost Value = { ℕ };

    ghost view = { λ t. t.number };
}

impl ShareTicket {
    // A ticket of a frame's number.
    pub(crate) fn of(number: u32) -> ShareTicket
        ensures { result ≡ number }
    {
        ShareTicket { number }
    }

    /// The number of the frame.
    pub fn number(&self) -> u32
        ensures { result ≡ self.now }
    {
        self.number
    }

    /// Gives the ticket up without its frame. The number of the frame, which counts the ticket for ever.
    pub fn close(self) -> u32
        ensures { result ≡ self }
    {
        let ShareTicket { number } = self;
        number
    }
}
