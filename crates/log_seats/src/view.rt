//! What the tokens of a head's table know. No value of these types is ever made: the rule of the table speaks of them.
use items::{Item, SeatNo};
use std::collections::LinkedList;

/// What the pen knows, where the pen is present.
pub struct PenView {
    /// Whether the pen is here.
    pub present: bool,
    /// The log.
    pub log: LinkedList<Item>,
    /// How many seats there are: the number of the next one.
    pub next: u8,
}

/// What a seat knows, where a seat is present.
pub struct SeatView {
    /// Whether a seat is here.
    pub present: bool,
    /// The number of the seat.
    pub number: SeatNo,
    /// What it has seen: a beginning of the log.
    pub saw: LinkedList<Item>,
    /// The items that it has made, in order.
    pub made: LinkedList<Item>,
}

/// What one token knows: of the pen, and of up to two seats.
pub struct View {
    /// The pen, if it is here.
    pub pen: PenView,
    /// A seat, if one is here.
    pub first: SeatView,
    /// Another seat, if one is here.
    pub second: SeatView,
}
