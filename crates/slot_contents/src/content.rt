//! What the shares say.
use std::collections::LinkedList;

/// What an owner wrote to a slot. No value of it is made.
pub struct Written {
    /// The slot.
    pub slot: u32,
    /// The bytes.
    pub bytes: LinkedList<u8>,
}

/// What one share says of slots. No value of it is made.
pub enum Content {
    /// The store's: what was last written to each slot, by its number, where that is known.
    Store(LinkedList<Option<LinkedList<u8>>>),
    /// The slots that are nobody's.
    Free(LinkedList<u32>),
    /// An owner's: what it wrote to each of its slots.
    Owner(LinkedList<Written>),
}
