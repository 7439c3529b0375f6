//! What is handed out of guests behind locks.
use cell::Seats;
use console_queue::FeedPass;

/// What is handed out of one guest.
#[derive(Drop)]
pub struct Handles {
    /// Its four seats.
    pub seats: Seats,
    /// The right to put bytes for its console.
    pub feed: FeedPass,
}
