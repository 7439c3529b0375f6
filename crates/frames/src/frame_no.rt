//! The numbers of frames.
ghost use Rattle.std.specs.Prelude.{◌≡◌};

use std::marker::Model;

/// The number of a machine frame that holds no page. In clauses it is the number.
pub struct FrameNo {
    number: u32,
}

impl Model for FrameNo {
    ghost use Rattle.std.specs.Prelude.{ℕ};

    ghost Value = { ℕ };

    ghost view = { λ f. f.number };
}

impl FrameNo {
    // The token of a number.
    pub(crate) fn of(number: u32) -> FrameNo
        ensures { result ≡ number }
    {
        FrameNo { number }
    }

    /// The number.
    pub fn number(&self) -> u32
        ensures { result ≡ self.now }
    {
        self.number
    }

    /// Gives the token up. Its number, which stands nowhere from then on.
    pub fn close(self) -> u32
        ensures { result ≡ self }
    {
        let FrameNo { number } = self;
        number
    }
}
