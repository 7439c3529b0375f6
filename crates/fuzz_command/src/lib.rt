//! The command `fuzz`: one image on many inputs, each on a machine that is ready for it, in one process.
//!
//! The crates above use `fuzz_order`, which opens a file and has `fuzz_file` do what a `FuzzOrder` says: it loads the image once (`commands::exec::load`), makes the directory for logs,
//! makes a machine ready by the steps that the order asks for (`ready`),
//! and then takes a batch of inputs after another (`lines`, `files`). Each thread runs its share of a batch on one machine,
//! which goes back to where it was ready before each input (`ResetMachine::reset`), and makes the line of each (`running`); then the lines are written in order (`writing`).
//! Where the words of memory that PC led to are shown on the lines, its coverage begins anew with each input; where they are written of all runs
//! alone, it goes on. So each line is a function of the image, the input and the order: `IsFuzzed` says that it is the line of the machine that the image boots, after the steps that make it ready and its own
//! input alone, and that the lines stand in the order of the inputs, however many are run at once (`specs/Writing.antt`).
//!
//! Definitions: `specs/Lines.antt` has the line of a run, `specs/Inputs.antt` which inputs the lines of a reader are, `specs/Jobs.antt` what a batch
//! takes and what becomes of it, `specs/Faults.antt` why inputs are not run. No contract can say what the file system holds: the bytes of a log's file are those of `commands::log_file`.
#![tactic(auto)]

mod apart;
mod coverage;
pub mod fault;
mod files;
pub mod fuzz;
mod job;
pub mod jobs;
mod line;
mod lines;
mod logs;
pub mod order;
mod ready;
mod records;
mod run_log;
mod running;
mod setting;
mod writing;

pub use fault::FuzzFault;
pub use fuzz::{FuzzEnd, fuzz_file, fuzz_order};
pub use jobs::Jobs;
pub use order::{FuzzOrder, InputFile, Ready, Shown};
