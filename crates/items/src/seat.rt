//! Seats: where the items that happen to a machine come from.
ghost use Rattle.std.specs.Prelude.{◌≡◌, ℕ, ◌<◌};

use std::marker::Model;

/// The number of a seat, 0 to 3: whose doing an item is. In clauses it is the number.
#[derive(Clone, Copy, Debug, PartialEq, Eq)]
pub struct SeatNo {
    number: u8,
}

impl Model for SeatNo {
    ghost Value = { ℕ };

    ghost view = { λ s. s.number };

    ghost invariant = { λ s. s.number < 4 };

    ghost inverse = { λ n. record { number = n } };
}

impl SeatNo {
    /// Seat 0, which makes the steps.
    pub fn runner() -> SeatNo
        ensures { result ≡ 0 }
    {
        SeatNo { number: 0 }
    }

    /// The seat of this number, which is below 4.
    pub fn new(number: u8) -> SeatNo
        requires { number < 4 }
        ensures { result ≡ number }
    {
        SeatNo { number }
    }

    /// Its number, below 4.
    pub fn number(self) -> u8
        ensures value { result ≡ self }
        ensures small { result < 4 }
    {
        self.number
    }
}
