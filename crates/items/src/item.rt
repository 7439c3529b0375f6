//! What happens to a machine.
use crate::register::DebugRegister;
use crate::seat::SeatNo;
use crate::write_bytes::WriteBytes;

/// What happens.
#[derive(Debug, Drop)]
pub enum What {
    /// A step of the processor.
    Step,
    /// A byte of console input.
    In(u8),
    /// The console's output is taken.
    Drain,
    /// How many pages the balloon is asked to hold.
    Target(u32),
    /// A debugger writes a register.
    Poke {
        /// The register.
        register: DebugRegister,
        /// What is written there.
        value: u32,
    },
    /// A debugger writes bytes from a virtual address on: byte k at address + k modulo 2^32.
    Write {
        /// The virtual address of the first byte.
        address: u32,
        /// The bytes.
        bytes: WriteBytes,
    },
}

/// What happens to a machine, and whose doing it is.
#[derive(Debug, Drop)]
pub struct Item {
    /// The seat that it comes from.
    pub seat: SeatNo,
    /// What happens.
    pub what: What,
}
