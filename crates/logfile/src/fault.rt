//! Why a file is refused.
ghost use Rattle.std.specs.Prelude.{◌≡◌};
ghost use Rattle.logfile.specs.Faults.{number_of};
ghost use Rattle.logfile.specs.declared.fault.ReadError.TheVariants.{Memory};

use std::alloc::{AllocError, AllocFailed};
use thiserror::Error;

/// What is wrong with a file.
#[derive(Clone, Copy, Debug, PartialEq, Eq, Error)]
pub enum LogFault {
    /// It has fewer than 40 bytes, or is one of version 2 of fewer than 44.
    #[error("the file is shorter than the header of a log")]
    Short,
    /// It begins with neither `MVL1` nor `MVL2`, or its pages aren't 2 to the most of its profile.
    #[error("the file is no log, or has a wrong number of pages")]
    Header,
    /// Its digest isn't that of the image.
    #[error("the log is that of another image")]
    Image,
    /// An item is cut off, its tag is unknown, its seat is above 3, its register is above 37, or its steps are none.
    #[error("an item of the log is cut off, or has a wrong tag, seat, register or count")]
    Body,
    /// It is of version 2, and names a profile that there is not.
    #[error("the log is that of a machine of an unknown profile")]
    Profile,
}

impl LogFault {
    /// Its number: 1 to 4 in the order of the variants, and 6 of `Profile`, 5 being that of an item that the machine refuses.
    pub fn number(self) -> u32
        ensures { result ≡ number_of self }
    {
        match self {
            LogFault::Short => 1,
            LogFault::Header => 2,
            LogFault::Image => 3,
            LogFault::Body => 4,
            LogFault::Profile => 6,
        }
    }
}

/// Why the entries of a file can't be read.
#[derive(Clone, Copy, Debug, PartialEq, Eq, Error)]
pub enum ReadError {
    /// The file has this fault.
    #[error("{0}")]
    Fault(LogFault),
    /// A request for memory was refused.
    #[error("out of memory")]
    Memory,
}

impl From<AllocError> for ReadError {
    ghost from_gives = { λ _ error. error ≡ Memory };

    fn from(_error: AllocError) -> ReadError {
        ReadError::Memory
    }
}

impl<T: Drop> From<AllocFailed<T>> for ReadError {
    ghost from_gives = { λ _ error. error ≡ Memory };

    fn from(_error: AllocFailed<T>) -> ReadError {
        ReadError::Memory
    }
}
