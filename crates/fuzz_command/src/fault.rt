//! Why inputs are not run.
ghost use Rattle.std.specs.Prelude.{◌≡◌};
ghost use Rattle.fuzz_command.specs.declared.fault.FuzzFault.TheVariants.{Command};
ghost use Rattle.commands.specs.declared.fault.Fault.TheVariants.{Memory};

use commands::Fault;
use std::alloc::AllocError;
use thiserror::Error;

/// Why inputs are not run, or not all of them. Its text is what stands after `vmhost: ` on standard error.
#[derive(Clone, Copy, Debug, Error)]
pub enum FuzzFault<'a> {
    /// A file, an image, a boot or memory, as of other commands. Of an input's file also that it has more than 256 bytes.
    #[error("{0}")]
    Command(Fault<'a>),
    /// The machine does not come to the address where it is ready.
    #[error("ready")]
    Unready,
    /// The line of this number, counted from 1, is no input: no even number of hexadecimal digits, or more than 512.
    #[error("input line {0}")]
    Line(usize),
    /// The lines of inputs can't be read.
    #[error("file /dev/stdin")]
    Unread,
    /// A line could not be written.
    #[error("output")]
    Output,
}

impl<'a> From<Fault<'a>> for FuzzFault<'a> {
    ghost from_gives = { λ fault told. told ≡ Command fault };

    fn from(fault: Fault<'a>) -> Self {
        FuzzFault::Command(fault)
    }
}

impl From<AllocError> for FuzzFault<'_> {
    ghost from_gives = { λ _ told. told ≡ Command Memory };

    fn from(_error: AllocError) -> Self {
        FuzzFault::Command(Fault::Memory)
    }
}
