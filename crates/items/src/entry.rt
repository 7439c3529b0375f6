//! How a log keeps items.
use crate::item::Item;
use crate::seat::SeatNo;

/// How a log keeps items: steps of one seat that follow one another as their number, or any other item by itself.
#[derive(Debug, Drop)]
pub enum Entry {
    /// Steps of one seat, one after another.
    Steps {
        /// The seat that they come from.
        seat: SeatNo,
        /// How many there are.
        count: u64,
    },
    /// One item.
    One(Item),
}
