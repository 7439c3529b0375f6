//! The threads of a run: a booted host, whose guests run each in a thread of its own while a person rules them by the lines of the monitor
//! and debuggers by theirs.
//!
//! The crates above use `run`. It gives each thread its seats (`Hands`): seat 0 of each guest to the guest's runner, seat 1 and the right to
//! put console bytes to the monitor, which stays in the caller's thread, seat 2 of all guests to the sharer, which also makes the policy's
//! turns, and seat 3 to whoever serves the guest's debugger port, one connection after another. Where the monitor ends, it holds all guests
//! and ends the threads; then the seats come back and the host ends. So what `Host::finish` says of the guests is said of the run: each log
//! is one for which its seats were legal, and with a swap store that is true to digests each guest is the run of its log.
//!
//! No clause says that a thread gets on, when a page is scanned or a turn made, nor what comes over a socket.
//!
//! Definitions: `specs/Seats.antt` has whose the seats are, `specs/Runs.antt` what is left of a run.
#![tactic(auto)]

mod debugging;
mod hands;
mod monitoring;
mod running;
mod sharing;
pub mod switches;
mod threads;

pub use hands::Hands;
pub use monitoring::Leave;
pub use threads::{RunEnd, run};
