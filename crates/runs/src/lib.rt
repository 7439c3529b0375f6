//! Runs of a machine: its console input goes in, and then it makes steps, up to the first state of some kinds where that is asked for.
//!
//! `Runnable` is a machine that makes steps and can be looked at, `Table` the reference machine as one. `run` makes a run and says how it
//! went (`Ran`), while a `Watch` is told how far it is: `IsCount` says how far it went, `after_run` which machine it led to (`specs/Runs.antt`), and `IsFirst` that no state before
//! the last was one that `Until` names, and whether the last is (`specs/Endings.antt`): a loop in one place (`specs/Loops.antt`), a state at
//! which a step has entered an exception (`specs/Entries.antt`), or an address. `laws` says that a machine stays in such a loop for ever, and
//! that no exception that is entered while EXL is clear is missed.
#![tactic(auto)]

pub mod again;
pub mod ending;
mod entry;
mod feeding;
pub mod laws;
mod looping;
pub mod runnable;
pub mod running;
pub mod table;
pub mod watch;
mod words;

pub use again::run_again;
pub use ending::{Ending, Until};
pub use runnable::{NoPlace, Runnable};
pub use running::{Ran, run};
pub use table::Table;
pub use watch::{Nobody, Watch};
