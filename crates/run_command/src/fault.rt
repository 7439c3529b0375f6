//! Why `run` is refused.
ghost use Rattle.std.specs.Prelude.{◌≡◌};
ghost use Rattle.run_command.specs.declared.fault.RunFault.TheVariants.{Command};
ghost use Rattle.commands.specs.declared.fault.Fault.TheVariants.{Memory};

use commands::Fault;
use std::alloc::AllocError;
use thiserror::Error;

/// Why `run` is refused, before any guest runs. Its text is what stands after `vmhost: ` on standard error.
#[derive(Clone, Copy, Debug, Error)]
pub enum RunFault<'a> {
    /// A file, an image, the boot or memory, as of other commands.
    #[error("{0}")]
    Command(Fault<'a>),
    /// No connections can be waited for at this port.
    #[error("port {0}")]
    Port(u16),
}

impl<'a> From<Fault<'a>> for RunFault<'a> {
    ghost from_gives = { λ fault told. told ≡ Command fault };

    fn from(fault: Fault<'a>) -> Self {
        RunFault::Command(fault)
    }
}

impl From<AllocError> for RunFault<'_> {
    ghost from_gives = { λ _ told. told ≡ Command Memory };

    fn from(_error: AllocError) -> Self {
        RunFault::Command(Fault::Memory)
    }
}
