//! The number.
ghost use Rattle.std.specs.Prelude.{◌≡◌, ◌↔◌, IsTrue};

use std::marker::Model;

/// The number of a guest, among those of its world or host: they are counted from 0. In clauses it is the number.
#[derive(Clone, Copy, Debug, PartialEq, Eq)]
pub struct GuestNo {
    number: u32,
}

impl Model for GuestNo {
    ghost use Rattle.std.specs.Prelude.{ℕ};

    ghost Value = { ℕ };

    ghost view = { λ g. g.number };

    ghost inverse = { λ n. record { number = n } };
}

impl GuestNo {
    /// The guest of this number.
    pub fn new(number: u32) -> GuestNo
        ensures { result ≡ number }
    {
        GuestNo { number }
    }

    /// Its number.
    pub fn number(self) -> u32
        ensures { result ≡ self }
    {
        self.number
    }

    /// Its number, as the place of the guest in a list of all.
    pub fn index(self) -> usize
        ensures { result ≡ self }
    {
        GuestNo::number(self) as usize
    }
}
