//! The idle memory tax.
ghost use Rattle.std.specs.Prelude.{◌<◌};

/// The idle memory tax (Waldspurger, OSDI 2002, section 5.2): the part of a guest's idle pages that may be reclaimed. An idle
/// page costs 100 / (100 - tax) times what an active one does.
#[derive(Clone, Copy, Debug, PartialEq, Eq)]
pub struct Tax {
    /// In percent, below 100.
    pub percent: u8,
    pub ghost below: { percent < 100 },
}
