//! The command `run`: guests on threads of their own over one machine memory, at a person's hand.
//!
//! The crates above use `run_order` and `guest_of`. `run_order` does what a `RunOrder` says: it opens the swap file, makes the directory for the logs, loads
//! the images, boots the host, opens the debugger ports, runs the guests (`host_run::run`) until a line of the input says `quit` or the input ends, and writes
//! the log of each guest. What is refused comes before any guest runs. `guest_of` reads the word of a command line that asks for a guest.
//!
//! No contract can say what the file system holds: the bytes of a log's file are those of `commands::log_file`.
//!
//! Definitions: `specs/Words.antt` has what such a word asks for, `specs/Faults.antt` why a run is refused, `specs/Ports.antt` which port is a guest's.
#![tactic(auto)]

mod boot;
pub mod fault;
mod files;
mod logs;
pub mod order;
pub mod run;
pub mod word;

pub use fault::RunFault;
pub use order::{GuestOrder, RunOrder};
pub use run::{RunStatus, run_order};
pub use word::{WordFault, guest_of};
