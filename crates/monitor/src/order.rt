//! What the monitor is asked to do.

use guest_number::GuestNo;

/// What a line asks for. Guests count from 0.
#[derive(Debug, Drop, PartialEq, Eq)]
pub enum Order {
    /// A line for each guest.
    List,
    /// The books of frames, shares and slots.
    Books,
    /// The level of free frames.
    Level,
    /// The tax on idle pages, in percent: 0 to 99.
    Tax(u32),
    /// So many pages for a guest's balloon.
    Target { guest: GuestNo, pages: u32 },
    /// A guest is held.
    Hold(GuestNo),
    /// A guest goes on.
    Go(GuestNo),
    /// The sizes of a guest's log.
    Log(GuestNo),
    /// Bytes for a guest's console, one at least.
    In { guest: GuestNo, bytes: Vec<u8> },
    /// What a guest's console has put out.
    Drain(GuestNo),
    /// The frames and slots that are left over by the guests' minimums.
    Room,
    /// The orders that there are.
    Help,
    /// The host ends.
    Quit,
}

/// An order for a guest that has no other argument.
#[derive(Clone, Copy)]
pub(crate) enum GuestOrder {
    Hold,
    Go,
    Log,
    Drain,
}
