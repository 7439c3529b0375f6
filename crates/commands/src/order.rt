//! What a command is to do.
ghost use Rattle.std.specs.Prelude.{◌≡◌, ◌≤◌, length};

use mips_cp0::Profile;
use std::marker::Model;

/// The profile of a machine of which none is said: the second.
pub const DEFAULT_PROFILE: Profile = Profile::Two;

/// What `asm` assembles.
#[derive(Clone, Copy, Debug)]
pub struct Asm<'a> {
    /// The name of the source's file.
    pub source: &'a str,
    /// The name of the file that the executable is written to.
    pub output: &'a str,
}

/// What `dis` disassembles.
#[derive(Clone, Copy, Debug)]
pub struct Dis<'a> {
    /// The name of the executable's file.
    pub image: &'a str,
}

/// What `exec` runs.
#[derive(Clone, Copy, Debug)]
pub struct Exec<'a> {
    /// The name of the image's file.
    pub image: &'a str,
    /// How the file holds the image.
    pub format: Format,
    /// Which machine runs it.
    pub kind: MachineKind,
    /// The profile of the machine's processor.
    pub profile: Profile,
    /// How many pages of memory the machine has; any number is taken here.
    pub pages: u32,
    /// How many steps are to be made.
    pub steps: u32,
    /// The name of the file that the guest's log is written to after the run, if it is; the reference machine has none.
    pub log: Option<&'a str>,
}

/// What `replay` replays.
#[derive(Clone, Copy, Debug)]
pub struct Replay<'a> {
    /// The name of the image's file.
    pub image: &'a str,
    /// How the file holds the image.
    pub format: Format,
    /// The name of the log's file.
    pub log: &'a str,
}

/// What `sim` does.
#[derive(Clone, Copy, Debug)]
pub struct Sim<'a> {
    /// The name of the script's file.
    pub script: &'a str,
    /// Whether each reply stands behind the number of its line.
    pub numbered: bool,
    /// The name of the directory that the guests' logs are written to at the end, if they are to be.
    pub logs: Option<&'a str>,
}

/// The console input that a run begins with: at most 256 bytes. In clauses it is the list of the bytes.
#[derive(Debug, Drop)]
pub struct ConsoleInput {
    bytes: Vec<u8>,
}

impl Model for ConsoleInput {
    ghost use Rattle.std.specs.Prelude.{ℕ, List, ◌≤◌, length};

    ghost Value = { List ℕ };

    ghost view = { λ i. i.bytes.items };

    ghost invariant = { λ i. length i.bytes.items ≤ 256 };
}

impl ConsoleInput {
    /// The input of these bytes, of which there are at most 256.
    pub fn new(bytes: Vec<u8>) -> ConsoleInput
        requires { length bytes.items ≤ 256 }
        ensures { result ≡ bytes.items }
    {
        ConsoleInput { bytes }
    }

    /// The bytes, in order.
    pub fn as_slice(&self) -> &[u8]
        ensures value { result.now ≡ self.now }
        ensures few { length self.now ≤ 256 }
    {
        self.bytes.as_slice()
    }
}

/// How a file holds an image.
#[derive(Clone, Copy, Debug, PartialEq, Eq)]
pub enum Format {
    /// An ELF executable.
    Elf,
    /// The bytes alone, to be placed and entered at the start of kseg0.
    Raw,
}

/// Which machine runs an image.
#[derive(Clone, Copy, Debug, PartialEq, Eq)]
pub enum MachineKind {
    /// A guest, which keeps a log.
    Guest,
    /// The reference machine, on one plain memory.
    Flat,
}
