//! Why a text isn't booted.
ghost use Rattle.std.specs.Prelude.{◌≡◌};
ghost use Rattle.load_and_go.specs.Errors.{of_assembling, of_reading};
ghost use Rattle.load_and_go.specs.declared.error.TextError.TheVariants.{Memory};

use elf32::{ElfError, Fault};
use masm::{AsmError, AsmFault};
use std::alloc::AllocError;
use thiserror::Error;

/// Why a text has no image that a machine with so many pages can boot.
#[derive(Clone, Copy, Debug, PartialEq, Eq, Error)]
pub enum TextError {
    /// The text's first fault and its line, counted from 1; 0 where the fault is of no line.
    #[error("asm {number} line {line}", number = .fault.number())]
    Assembler { fault: AsmFault, line: u64 },
    /// The first fault that the text's executable has for a machine with so many pages: `Place`, since a part of the listing
    /// passes their end.
    #[error("elf {number}", number = .fault.number())]
    Executable { fault: Fault },
    /// A request for memory was refused.
    #[error("memory")]
    Memory,
}

/// Why the program of a text isn't booted in a world.
#[derive(Clone, Copy, Debug, PartialEq, Eq, Error)]
pub enum BootError {
    /// The text has no image that the guest's pages hold, for this reason.
    #[error("{error}")]
    Text { error: TextError },
    /// The world is not booted, for this reason, which is never `Segment`.
    #[error("boot {number}", number = .error.number())]
    World { error: tenant::BootError },
}

impl From<AsmError> for TextError {
    ghost from_gives = { λ given error. error ≡ of_assembling given };

    fn from(error: AsmError) -> TextError {
        match error {
            AsmError::Fault { fault, line } => TextError::Assembler { fault, line },
            AsmError::Memory(_) => TextError::Memory,
        }
    }
}

impl From<ElfError> for TextError {
    ghost from_gives = { λ given error. error ≡ of_reading given };

    fn from(error: ElfError) -> TextError {
        match error {
            ElfError::Fault(fault) => TextError::Executable { fault },
            ElfError::Memory => TextError::Memory,
        }
    }
}

impl From<AllocError> for TextError {
    ghost from_gives = { λ _ error. error ≡ Memory };

    fn from(_error: AllocError) -> TextError {
        TextError::Memory
    }
}
