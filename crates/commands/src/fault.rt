//! Why a command is refused.
ghost use Rattle.std.specs.Prelude.{◌≡◌, ◌≢◌, ◌⊎◌, Err, IfErr, IfOk, Ok, OnErr};
ghost use Rattle.std.specs.IoError.{error_kind};
ghost use Rattle.commands.specs.Faults.{fault_of, log_fault_of, log_refusal_number};
ghost use Rattle.commands.specs.declared.fault.Fault.TheVariants.{Memory};

use logfile::{LogFault, ReadError};
use masm::{AsmError, AsmFault};
use std::alloc::AllocError;
use std::io;
use std::io::ErrorKind;
use tenant::BootError;
use thiserror::Error;

/// Why a command is refused. Its text is what stands after `vmhost: ` on standard error.
#[derive(Clone, Copy, Debug, Error)]
pub enum Fault<'a> {
    /// The file of this name can't be read or written.
    #[error("file {name}")]
    File { name: &'a str },
    /// The source has this fault in this line, counted from 1; 0 where the fault is of no line.
    #[error("asm {number} line {line}", number = .fault.number())]
    Asm { fault: AsmFault, line: u64 },
    /// The file is no ELF executable that the machine's pages hold, for this reason.
    #[error("elf {number}", number = .fault.number())]
    Elf { fault: elf32::Fault },
    /// A raw image is empty, or longer than the pages.
    #[error("raw")]
    Raw,
    /// The script has this line, the first that is refused, counted from 1. Where the header lacks a line and no event follows, it is
    /// the line after the last.
    #[error("script line {line}")]
    Script { line: u64 },
    /// A machine or a world is not booted, for this reason.
    #[error("boot {number}", number = .error.number())]
    Boot { error: BootError },
    /// A log can't be written or replayed, for this reason.
    #[error("log {number}", number = .fault.number())]
    Log { fault: LogRefusal },
    /// A request for memory was refused.
    #[error("memory")]
    Memory,
}

/// Why a log can't be written or replayed.
#[derive(Clone, Copy, Debug, PartialEq, Eq)]
pub enum LogRefusal {
    /// The reference machine keeps no log.
    Flat,
    /// The file is refused for this fault.
    File(LogFault),
    /// The machine refuses an item of the log where it stands.
    Item,
}

impl LogRefusal {
    /// Its number: 0 where the machine keeps no log, 1 to 4 and 6 for a fault of the file, 5 for an item.
    pub fn number(self) -> u32
        ensures { result ≡ log_refusal_number self }
    {
        match self {
            LogRefusal::Flat => 0,
            LogRefusal::File(fault) => fault.number(),
            LogRefusal::Item => 5,
        }
    }
}

impl From<ReadError> for Fault<'_> {
    ghost from_gives = { λ error fault. fault ≡ log_fault_of error };

    fn from(error: ReadError) -> Self {
        match error {
            ReadError::Fault(fault) => log_file_fault(fault),
            ReadError::Memory => Fault::Memory,
        }
    }
}

/// The fault of a log's file.
pub fn log_file_fault<'a>(fault: LogFault) -> Fault<'a>
    ensures { result ≡ Fault.Log (LogRefusal.File fault) }
{
    Fault::Log {
        fault: LogRefusal::File(fault),
    }
}

impl From<AllocError> for Fault<'_> {
    ghost from_gives = { λ _ fault. fault ≡ Memory };

    fn from(_error: AllocError) -> Self {
        Fault::Memory
    }
}

impl From<AsmError> for Fault<'_> {
    ghost from_gives = { λ error fault. fault ≡ fault_of error };

    fn from(error: AsmError) -> Self {
        match error {
            AsmError::Fault { fault, line } => Fault::Asm { fault, line },
            AsmError::Memory(_) => Fault::Memory,
        }
    }
}

/// The fault of a file of this name that could not be read or written.
pub fn file_fault<'a>(name: &'a str, error: &io::Error) -> Fault<'a>
    ensures memory { error_kind error.now ≡ ErrorKind.OutOfMemory → result ≡ Fault.Memory }
    ensures file { error_kind error.now ≢ ErrorKind.OutOfMemory → result ≡ Fault.File name.entry }
    ensures either { (result ≡ Fault.Memory) ⊎ (result ≡ Fault.File name.entry) }
{
    match error.kind() {
        ErrorKind::OutOfMemory => Fault::Memory,
        _ => Fault::File { name },
    }
}

/// What was asked of the file of this name, with an error as `file_fault` has it.
pub fn of_file<'a, T: Drop>(name: &'a str, given: io::Result<T>) -> Result<T, Fault<'a>>
    ensures value { IfOk given (λ value. result ≡ Ok value) }
    ensures memory { IfErr given (λ error. error_kind error ≡ ErrorKind.OutOfMemory → result ≡ Err Fault.Memory) }
    ensures file { IfErr given (λ error. error_kind error ≢ ErrorKind.OutOfMemory → result ≡ Err (Fault.File name.entry)) }
    ensures given { IfOk result (λ value. given ≡ Ok value) }
    ensures faults { IfErr result (λ fault. (fault ≡ Fault.Memory) ⊎ (fault ≡ Fault.File name.entry)) }
{
    match given {
        Ok(value) => Ok(value),
        Err(error) => Err(file_fault(name, &error)),
    }
}

/// A machine or a world whose boot was asked for: where the boot was refused memory, the fault is `Boot`.
pub fn of_boot<'a, T: Drop>(booted: Result<T, AllocError>) -> Result<T, Fault<'a>>
    ensures value { IfOk booted (λ value. result ≡ Ok value) }
    ensures memory { OnErr booted (result ≡ Err (Fault.Boot BootError.Memory)) }
    ensures given { IfOk result (λ value. booted ≡ Ok value) }
    ensures faults { IfErr result (λ fault. fault ≡ Fault.Boot BootError.Memory) }
{
    match booted {
        Ok(value) => Ok(value),
        Err(_) => Err(Fault::Boot {
            error: BootError::Memory,
        }),
    }
}
