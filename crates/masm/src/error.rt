//! The errors of a text.
ghost use Rattle.std.specs.Prelude.{◌≡◌};
ghost use Rattle.masm.specs.Faults.{located};

use masm_lines::AsmFault;
use std::alloc::AllocError;
use thiserror::Error;

/// Why a text isn't assembled.
#[derive(Debug, Drop, Error)]
pub enum AsmError {
    /// The text's first fault and its line, counted from 1; 0 where the fault is of no line.
    #[error("line {line}: {fault}")]
    Fault { fault: AsmFault, line: u64 },
    /// Memory was refused.
    #[error("memory")]
    Memory(AllocError),
}

impl From<AllocError> for AsmError {
    ghost use Rattle.std.specs.Prelude.{◌≡◌};
    ghost use Rattle.masm.specs.declared.error.AsmError.TheVariants.{Memory};

    ghost from_gives = { λ a e. e ≡ Memory a };

    fn from(error: AllocError) -> AsmError {
        AsmError::Memory(error)
    }
}

/// Why a line isn't taken.
#[derive(Drop)]
pub enum LineError {
    Fault(AsmFault),
    Memory(AllocError),
}

impl LineError {
    /// The same, with the number of the line.
    pub fn at(self, line: u64) -> AsmError
        ensures { result ≡ located self line }
    {
        match self {
            LineError::Fault(fault) => AsmError::Fault { fault, line },
            LineError::Memory(error) => AsmError::Memory(error),
        }
    }
}

impl From<AsmFault> for LineError {
    ghost use Rattle.std.specs.Prelude.{◌≡◌};
    ghost use Rattle.masm.specs.declared.error.LineError.TheVariants.{Fault};

    ghost from_gives = { λ f e. e ≡ Fault f };

    fn from(fault: AsmFault) -> LineError {
        LineError::Fault(fault)
    }
}

impl From<AllocError> for LineError {
    ghost use Rattle.std.specs.Prelude.{◌≡◌};
    ghost use Rattle.masm.specs.declared.error.LineError.TheVariants.{Memory};

    ghost from_gives = { λ a e. e ≡ Memory a };

    fn from(error: AllocError) -> LineError {
        LineError::Memory(error)
    }
}
