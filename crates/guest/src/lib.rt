//! A guest whose memory is pages, each in a frame of its own, in one that others read too, in a slot of the swap store, or nowhere yet.
//!
//! In clauses a `Guest` is a record, `GuestIs` (`specs/Guests.antt`): its view is the run of its log's items from its boot
//! (`view_of`), on a memory of its own, and it is `Intact` where processor, devices and pages are the view's (`Shows`,
//! `specs/Views.antt`), a page in a slot by its SHA-256. The calls say what they answer by the view, and keep it so: `Guest::step`,
//! `Guest::run` and `Guest::need`, `Guest::input`, `Guest::take_in`, `Guest::debug_read`. What `step` hands back where it gave a page is
//! `HandsBack`. The crates above move a guest's pages by `page_moves`, whose trait `Pages` it has; `laws` says that its view stays then, and
//! that a guest that was booted is intact once its pages are loaded (`reaches` names them, `Guest::load_page` loads one).
#![tactic(auto)]

pub mod console;
pub mod guest;
pub mod laws;
pub mod loading;
pub mod pages;
mod placed;
pub mod progress;
pub mod refused;
mod step;
pub mod stepped;

pub use guest::Guest;
pub use guest_log::{Log, Stop};
pub use loading::{load_image_page, reaches};
pub use log_seats::{Head, Seat};
pub use progress::{Pause, Progress};
pub use refused::Refused;
pub use stepped::Stepped;

#[cfg(test)]
mod console_tests;
#[cfg(test)]
mod tests;
