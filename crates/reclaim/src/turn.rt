//! What is done to the guests in a turn.
use crate::Level;

/// What is done to one guest in a turn. An earlier turn blocks it no more.
#[derive(Clone, Copy, Debug, PartialEq, Eq)]
pub struct Action {
    /// Its new balloon target in pages, or `None` where it keeps the one that it has.
    pub balloon: Option<u32>,
    /// How many of its resident pages are swapped out.
    pub swap_out: u32,
    /// Whether it is blocked until the next turn.
    pub blocked: bool,
}

/// What is done in a turn.
#[derive(Debug, Drop)]
pub struct Plan {
    /// The level in this turn.
    pub level: Level,
    /// What is done to each guest, in the order of the guests.
    pub actions: Vec<Action>,
}
