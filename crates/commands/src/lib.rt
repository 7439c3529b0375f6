//! The commands of the program `vmhost`: `asm` assembles a source, `dis` prints an executable's instructions, `exec` runs an
//! image and prints the state that its machine ends in, `replay` does what a log says, `sim` what a script says of several guests.
//!
//! `assemble_file`, `disassemble_file`, `run_image`, `replay_log` and `run_script` do what an order says, over any files. `run_file` joins a
//! file, a machine and a text: what it reports is the dump (`dump`) of the machine that the image boots for which the file's
//! bytes stand, after the input that was taken and the steps that were made, and behind it what else is wanted of that machine
//! (`inspection`). `runs::run` says how far a run goes, and why it ends before its last step; the guest that `exec` runs is a
//! `hosted::HostedGuest`, which has a world of its own.
//! `asm::executable_of` is the executable that a source means, `dis::disassembly` the lines of the image that a file stands for.
//! What no contract says, the order of what fails and what stands in the files that are opened by their names, the cases of
//! `vmhost` try.
#![tactic(auto)]

pub mod asm;
pub mod dis;
pub mod exec;
pub mod fault;
pub mod hosted;
pub mod image_file;
pub mod log_file;
pub mod order;
pub mod replay;
pub mod sim;

pub use asm::assemble_file;
pub use dis::disassemble_file;
pub use exec::{Done, Report, run_file, run_image};
pub use fault::Fault;
pub use order::{Asm, ConsoleInput, DEFAULT_PROFILE, Dis, Exec, Format, MachineKind, Replay, Sim};
pub use replay::replay_log;
pub use sim::{SimFault, run_script, script_text};
