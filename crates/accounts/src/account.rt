//! What an owner has.
use frames::{FrameNo, SharedFrame};
use guest_pages::Page;
use std::collections::LinkedList;
use swapstore::SlotBook;

/// What one owner has, as clauses see it. No value of it is made.
pub enum Account {
    /// A guest's pages, without the bytes of their own frames, and each free frame in its hand as a private page without bytes.
    Guest(LinkedList<Page>),
    /// The entries of the table of shared frames.
    Table(LinkedList<Option<SharedFrame>>),
    /// A free frame, wherever its number lies.
    Frame(FrameNo),
    /// The slots that are free, and how many are used.
    Slots(SlotBook),
}

/// How many guests, frames and slots there are.
#[derive(Clone, Copy, Debug, PartialEq, Eq)]
pub struct Extent {
    /// Guests, each with one account.
    pub guests: u32,
    /// Machine frames, of numbers below this.
    pub frames: u32,
    /// Slots of the swap store, of numbers below this.
    pub slots: u32,
}
