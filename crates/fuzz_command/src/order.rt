//! What `fuzz` is to do.
use crate::jobs::Jobs;
use commands::Exec;
use runs::Until;

/// What `fuzz` runs.
#[derive(Drop)]
pub struct FuzzOrder<'a> {
    /// The image, and how a run of it is made: `exec` would do the same with each input. Its log and its machine are not looked at.
    pub run: Exec<'a>,
    /// Where each input is taken: the machine has come there once, from its boot and without input.
    pub ready: Ready,
    /// The states that a run is to end at.
    pub until: Until,
    /// How the output is shown.
    pub shown: Shown,
    /// Whether the line of each run ends with the words of memory that PC led to.
    pub reached: bool,
    /// The name of the directory that the logs of runs that end in an exception are written to, if they are to be: that of the input of number K,
    /// counted from 1, as `K.log`.
    pub logs: Option<&'a str>,
    /// The name of the file that the words of memory to which PC led in all runs are written to, if they are to be.
    pub coverage: Option<&'a str>,
    /// The files of the inputs, in their order. Where there is none the inputs are the lines of what is read.
    pub inputs: Vec<InputFile<'a>>,
    /// How many inputs are run at once. What is printed is the same with any number.
    pub jobs: Jobs,
}

/// Where a machine is ready for input.
#[derive(Clone, Copy, Debug, PartialEq, Eq)]
pub enum Ready {
    /// As its image boots.
    Boot,
    /// After so many steps from there.
    Steps(u32),
    /// When PC is this address for the first time.
    Address(u32),
}

/// A file with the console input of a run.
#[derive(Clone, Copy, Debug, PartialEq, Eq)]
pub struct InputFile<'a> {
    /// The name that the line of its run begins with.
    pub name: &'a str,
    /// The name by which it is opened.
    pub place: &'a str,
}

/// How the output of a console is shown.
#[derive(Clone, Copy, Debug, PartialEq, Eq)]
pub enum Shown {
    /// Its SHA-256 digest.
    Digest,
    /// Its bytes; a dash where there is none.
    Digits,
}
