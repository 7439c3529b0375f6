//! Why a file is refused.
ghost use Rattle.std.specs.Prelude.{◌≡◌};
ghost use Rattle.elf32.specs.Faults.{number_of};
ghost use Rattle.elf32.specs.declared.fault.ElfError.TheVariants.{Memory};

use std::alloc::{AllocError, AllocFailed};
use thiserror::Error;

/// What is wrong with a file.
#[derive(Clone, Copy, Debug, PartialEq, Eq, Error)]
pub enum Fault {
    /// It has fewer bytes than an ELF header.
    #[error("the file is shorter than an ELF header")]
    Short,
    /// It doesn't begin with the identification of a little-endian ELF32 file of version 1.
    #[error("the file is no little-endian ELF32 file")]
    Identification,
    /// It is no executable for MIPS of version 1, or its header has another size than 52 bytes.
    #[error("the file is no executable for MIPS")]
    Header,
    /// An entry of its program header table has another size than 32 bytes, there are more than 64 of them, or the table
    /// passes the end of the file.
    #[error("the program header table is wrong or passes the end of the file")]
    Table,
    /// It has no segment to load.
    #[error("no segment is loaded")]
    Empty,
    /// A segment to load has more bytes in the file than in memory, or its bytes pass the end of the file.
    #[error("a segment has more bytes than memory, or bytes past the end of the file")]
    Contents,
    /// A segment isn't within the memory.
    #[error("a segment lies outside the memory")]
    Place,
    /// Two segments share an address.
    #[error("two segments overlap")]
    Overlap,
    /// The entry isn't a multiple of 4, or lies in no segment.
    #[error("the entry is no multiple of 4 in a segment")]
    Entry,
}

impl Fault {
    /// Its number, 1 to 9, which is the order of the variants.
    pub fn number(self) -> u32
        ensures { result ≡ number_of self }
    {
        match self {
            Fault::Short => 1,
            Fault::Identification => 2,
            Fault::Header => 3,
            Fault::Table => 4,
            Fault::Empty => 5,
            Fault::Contents => 6,
            Fault::Place => 7,
            Fault::Overlap => 8,
            Fault::Entry => 9,
        }
    }
}

/// Why a file can't be read.
#[derive(Clone, Copy, Debug, PartialEq, Eq, Error)]
pub enum ElfError {
    /// The file has this fault, and none that is looked for before it.
    #[error("{0}")]
    Fault(Fault),
    /// A request for memory was refused.
    #[error("out of memory")]
    Memory,
}

impl From<AllocError> for ElfError {
    ghost from_gives = { λ _ error. error ≡ Memory };

    fn from(_error: AllocError) -> ElfError {
        ElfError::Memory
    }
}

impl<T: Drop> From<AllocFailed<T>> for ElfError {
    ghost from_gives = { λ _ error. error ≡ Memory };

    fn from(_error: AllocFailed<T>) -> ElfError {
        ElfError::Memory
    }
}
