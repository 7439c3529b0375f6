//! Slots of a swap store.
ghost use Rattle.std.specs.Prelude.{◌≡◌};

use std::marker::Model;

/// A slot of a swap store, by its number. Tickets compare as their numbers do. In clauses it is the number.
#[derive(PartialEq, Eq, PartialOrd, Ord)]
pub struct SlotTicket {
    number: u32,
}

impl Model for SlotTicket {
    ghost use Rattle.std.specs.Prelude.{ℕ};

    ghost Value = { ℕ };

    ghost view = { λ s. s.number };

    ghost inverse = { λ n. record { number = n } };
}

impl SlotTicket {
    // The token of a number.
    pub(crate) fn of(number: u32) -> SlotTicket
        ensures { result ≡ number }
    {
        SlotTicket { number }
    }

    /// The number of the slot.
    pub fn number(&self) -> u32
        ensures { result ≡ self.now }
    {
        self.number
    }

    /// Gives the ticket up. Its number, which stands nowhere from then on.
    pub fn close(self) -> u32
        ensures { result ≡ self }
    {
        let SlotTicket { number } = self;
        number
    }
}
