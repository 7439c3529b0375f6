//! What the monitor has of a guest.
use cell::Seat;
use console_queue::FeedPass;

/// What the monitor has of a guest.
#[derive(Drop)]
pub struct MonitorHand {
    /// The guest's seat of number 1.
    pub seat: Seat,
    /// The right to put bytes for the guest's console.
    pub feed: FeedPass,
}
