//! How a slice ends, and why a guest stops.
ghost use Rattle.std.specs.Prelude.{◌≡◌};
ghost use Rattle.host.specs.Stops.{stop_number, stop_of_room};

/// Why a guest makes no further step, or a debugger's bytes are not read or written. The guest is then as after its last item; pages that
/// have moved before that stay where they are.
#[derive(Clone, Copy, Debug, PartialEq, Eq)]
pub enum Stop {
    /// A page is needed, no frame is free, and 64 pages have left theirs for it in vain, or none could leave: no guest has more pages in
    /// frames than it always keeps, or the store failed to write one of them.
    NoFrame,
    /// A page is needed, no frame is free, and no slot.
    NoSwap,
    /// The store failed to read the slot of a page that is needed.
    SwapRead,
    /// What was read from the slot of a page that is needed has another SHA-256 than the page.
    SwapDamaged,
    /// A request for memory was refused.
    Memory,
    /// The log has its greatest number of runs, or 2^62 items.
    LogFull,
}

impl Stop {
    /// The number that reports name it by.
    pub fn number(self) -> u32
        ensures { result ≡ stop_number self }
    {
        match self {
            Stop::NoFrame => 1,
            Stop::NoSwap => 2,
            Stop::SwapRead => 3,
            Stop::SwapDamaged => 4,
            Stop::Memory => 5,
            Stop::LogFull => 6,
        }
    }

    // Where a log has no room for an item.
    pub(crate) fn of_room(stop: guest::Stop) -> Stop
        ensures { result ≡ stop_of_room stop }
    {
        match stop {
            guest::Stop::Memory => Stop::Memory,
            guest::Stop::LogFull => Stop::LogFull,
        }
    }
}

/// How a slice ended, with how many steps it has made.
#[derive(Clone, Copy, Debug, PartialEq, Eq)]
pub enum Ran {
    /// All that were asked for.
    Ran(u32),
    /// Up to one of seat 3 that has left PC at a breakpoint.
    Break(u32),
    /// Up to where a debugger held the guest, or it was blocked for want of memory.
    Held(u32),
    /// Up to one that can't be made.
    Stopped(u32, Stop),
}
