//! Why a guest stops.
ghost use Rattle.std.specs.Prelude.{◌≡◌};
ghost use Rattle.guest_log.specs.Stops.{stop_number};

/// Why a guest stops. It is then as after its last item.
#[derive(Clone, Copy, Debug, PartialEq, Eq)]
pub enum Stop {
    /// A request for memory was refused.
    Memory,
    /// The log has its greatest number of runs, or 2^62 items.
    LogFull,
}

impl Stop {
    /// The number that reports name it by.
    pub fn number(self) -> u32
        ensures { result ≡ stop_number self }
    {
        match self {
            Stop::Memory => 5,
            Stop::LogFull => 6,
        }
    }
}
