//! The guests of a host, each behind a lock of its own, and the machine memory around them: how they are booted (`GuestCells::boot`), what
//! the books of all of them count while their threads run (`GuestCells::audit`), and how they end (`GuestCells::finish`). With a swap
//! store that is true to digests each guest that ends is its run.
//!
//! The crates above use `GuestCells`, in clauses a record: its cells, of which that of guest number g stands at place g, and its memory. It
//! keeps that each cell's guest is of that memory, and that there are as many cells as the books have guests. What is handed out of a guest,
//! its four seats and the right to put bytes for its console, are its `Handles`.
//!
//! Locks are taken in one order: the auditor's, the guests' in rising number, the table's, the swap book's. Whoever holds the lock of one
//! guest may take those of the memory, but neither another guest's nor the auditor's: so an audit waits for each thread, and none for ever.
//!
//! Definitions: `specs/Handles.antt` has what is handed out of guests, `specs/Ends.antt` what they leave, `specs/Asked.antt` that they are as
//! they were asked for; `laws` says that each of these goes by the guests' places.
#![tactic(auto)]

pub mod audit;
mod auditor;
pub mod boot;
#[cfg(test)]
mod boot_tests;
pub mod cells;
mod ending;
#[cfg(test)]
mod ending_tests;
pub mod finish;
pub mod handles;
pub mod laws;
mod making;
mod sitting;
#[cfg(test)]
mod tests;

pub use boot::Booted;
pub use cells::GuestCells;
pub use finish::Finished;
pub use handles::Handles;
