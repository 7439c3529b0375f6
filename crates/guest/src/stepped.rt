//! What a step of a guest answers.
use guest_pages::Returned;
use machine::{Ppn, Why};

/// What a step of a guest answers.
pub enum Stepped {
    /// The step is made. Where it gave a page to the balloon, what that page was in comes back: its frame, its ticket of a
    /// shared frame or its slot. A page that was in none of these hands back nothing, and so does a step that gives no page.
    Done(Returned),
    /// The step needs this page first, and nothing has changed.
    Need(Ppn, Why),
}
