//! Why a script isn't read.
ghost use Rattle.std.specs.Prelude.{◌≡◌};
ghost use Rattle.script.specs.declared.error.LineError.TheVariants as line;
ghost use Rattle.script.specs.declared.error.ScriptError.TheVariants as script;

use std::alloc::{AllocError, AllocFailed};
use thiserror::Error;

/// Why a script isn't read.
#[derive(Clone, Copy, Debug, PartialEq, Eq, Error)]
pub enum ScriptError {
    /// The first line that is refused, counted from 1. Where the header lacks a line that it must have and no event
    /// follows, or a `repeat` has no `end`, it is the line after the last.
    #[error("script line {0}")]
    Line(u64),
    /// A request for memory was refused.
    #[error("memory")]
    Memory,
}

/// Why a line isn't taken.
#[derive(Clone, Copy)]
pub enum LineError {
    /// It isn't in the language, or may not stand there.
    Refused,
    /// A request for memory was refused.
    Memory,
}

impl From<AllocError> for ScriptError {
    ghost from_gives = { λ _ error. error ≡ script.Memory };

    fn from(_error: AllocError) -> ScriptError {
        ScriptError::Memory
    }
}

impl From<AllocError> for LineError {
    ghost from_gives = { λ _ error. error ≡ line.Memory };

    fn from(_error: AllocError) -> LineError {
        LineError::Memory
    }
}

impl<T: Drop> From<AllocFailed<T>> for LineError {
    ghost from_gives = { λ _ error. error ≡ line.Memory };

    fn from(_error: AllocFailed<T>) -> LineError {
        LineError::Memory
    }
}
