//! Inputs that are run at once.
ghost use Rattle.std.specs.Prelude.{◌≡◌};
ghost use Rattle.commands.specs.Faults.{IsWant};
ghost use Rattle.fuzz_command.specs.declared.job.Want.TheVariants as want;

use crate::fault::FuzzFault;
use commands::{ConsoleInput, Fault};
use runs::Ran;
use std::alloc::AllocError;
use tenant::BootError;

/// An input, and what became of its run.
#[derive(Drop)]
pub struct Job {
    /// Its number, counted from 1.
    pub number: usize,
    /// The name that its line begins with.
    pub name: String,
    /// Its bytes.
    pub input: ConsoleInput,
    /// What became of its run.
    pub outcome: Outcome,
}

/// What became of the run of an input.
#[derive(Drop)]
pub enum Outcome {
    /// It is not run yet.
    Waiting,
    /// It was run.
    Done(RunResult),
    /// A request for memory was refused.
    Refused(Want),
}

/// What the run of an input gave.
#[derive(Drop)]
pub struct RunResult {
    /// The input's line.
    pub text: String,
    /// How the run went.
    pub ran: Ran,
    /// The guest's log.
    pub log: CrashLog,
    /// The words of memory that PC led to, by their numbers, each once, in the order in which it did so first, but for those to which it did in a run
    /// before of the same machine, where the lines don't show them; none where they are not kept.
    pub reached: Vec<u32>,
}

/// The log of a run.
#[derive(Drop)]
pub enum CrashLog {
    /// It is not to be kept.
    Unwanted,
    /// The bytes of its file.
    File(Vec<u8>),
    /// There was no memory for the bytes of its file.
    Lost,
}

/// What memory was wanted for.
#[derive(Clone, Copy, Debug, PartialEq, Eq)]
pub enum Want {
    /// The boot of a guest.
    Boot,
    /// Anything else.
    Memory,
}

impl Want {
    /// The fault of a command to which that memory was refused.
    pub(crate) fn fault<'a>(self) -> Fault<'a>
        ensures { IsWant result }
    {
        match self {
            Want::Boot => Fault::Boot {
                error: BootError::Memory,
            },
            Want::Memory => Fault::Memory,
        }
    }
}

impl From<AllocError> for Want {
    ghost from_gives = { λ _ told. told ≡ want.Memory };

    fn from(_error: AllocError) -> Self {
        Want::Memory
    }
}

/// Some inputs, in their order, and what comes behind them.
#[derive(Drop)]
pub struct Batch<'a> {
    /// The inputs, none of which is run yet.
    pub jobs: Vec<Job>,
    /// What comes behind them.
    pub then: Then<'a>,
}

/// What comes behind some inputs.
#[derive(Clone, Copy, Debug)]
pub enum Then<'a> {
    /// Perhaps more inputs: of files the one at this index, from 0; of lines the one of this number, from 1.
    More(usize),
    /// None.
    End,
    /// An input that can't be had, for this reason.
    Fault(FuzzFault<'a>),
}
