//! What is answered to what is done.
use crate::pages::PageCounts;
use std::alloc::AllocError;
use world::{Answer, BookCounts, MoveCounts};

/// What is answered to an act.
#[derive(Drop)]
pub enum Said {
    /// What the world answered to an event.
    Answered(Answer),
    /// Nothing was done.
    Skipped,
    /// What the books count.
    Counted(BookCounts),
    /// How many pages of a guest are where.
    Placed(PageCounts),
    /// The state of a guest, as `dump::dump` writes it; or there was no memory for it.
    Dumped(Result<String, AllocError>),
    /// How often the pages of a guest have moved since its boot, and why. No clause says what these numbers are.
    Moved(MoveCounts),
    /// A byte that lies in a slot is inverted; or there was no memory to keep apart what was last written.
    Damaged(Result<(), AllocError>),
}
