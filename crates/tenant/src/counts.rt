//! How often the pages of a guest have moved, and why.

/// Why a page left its frame for a slot.
#[derive(Clone, Copy, Debug, PartialEq, Eq)]
pub enum Cause {
    /// A page that a guest's next step needed wanted a frame.
    Fault,
    /// A page that a run of steps needed wanted one.
    Run,
    /// A page that a debugger read or wrote wanted one.
    Debugger,
    /// A turn of the policy.
    Level,
    /// It was ordered, though no page wanted a frame: of a page by its number (`World::evict`), or of the policy's victim
    /// (`World::evict_one`).
    Order,
}

/// How often the pages of a guest have moved since its boot, by why. Each count stops at the largest number.
#[derive(Clone, Copy, Debug, PartialEq, Eq)]
pub struct MoveCounts {
    /// Pages that were never touched, or were given to the balloon, and got a frame of zeros.
    pub first: u64,
    /// Pages that read a shared frame, and got a copy of their own.
    pub copied: u64,
    /// Pages that were read back from their slots.
    pub read: u64,
    /// Pages that came to read a shared frame that was there before.
    pub joined: u64,
    /// Pages that left their frames for one that a guest's next step needed.
    pub fault: u64,
    /// Pages that left their frames for one that a run of steps needed.
    pub run: u64,
    /// Pages that left their frames for one that a debugger read or wrote.
    pub debugger: u64,
    /// Pages that left their frames in a turn of the policy.
    pub level: u64,
    /// Pages that left their frames because it was ordered.
    pub order: u64,
}

impl MoveCounts {
    /// No page has moved yet.
    pub(crate) fn new() -> MoveCounts {
        MoveCounts {
            first: 0,
            copied: 0,
            read: 0,
            joined: 0,
            fault: 0,
            run: 0,
            debugger: 0,
            level: 0,
            order: 0,
        }
    }

    /// Counts a page that got a frame of zeros.
    pub(crate) fn count_first(&mut self) {
        self.first = one_more(self.first);
    }

    /// Counts a page that got a copy of its own.
    pub(crate) fn count_copy(&mut self) {
        self.copied = one_more(self.copied);
    }

    /// Counts a page that was read back.
    pub(crate) fn count_read(&mut self) {
        self.read = one_more(self.read);
    }

    /// Counts a page that came to read a shared frame.
    pub(crate) fn count_join(&mut self) {
        self.joined = one_more(self.joined);
    }

    /// Counts a page that left its frame, by why.
    pub(crate) fn count_eviction(&mut self, cause: Cause) {
        match cause {
            Cause::Fault => self.fault = one_more(self.fault),
            Cause::Run => self.run = one_more(self.run),
            Cause::Debugger => self.debugger = one_more(self.debugger),
            Cause::Level => self.level = one_more(self.level),
            Cause::Order => self.order = one_more(self.order),
        }
    }
}

// One more; it stops at the largest number.
fn one_more(count: u64) -> u64 {
    count.saturating_add(1)
}
