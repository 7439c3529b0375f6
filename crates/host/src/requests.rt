//! What a debugger asks of a guest, and what it is answered.

use crate::Stop;
use cell::Registers;
use items::{DebugRegister, WriteBytes};

/// How many bytes a debugger reads or writes at once at most.
pub const MOST_BYTES: u32 = 1024;

/// What a debugger asks.
#[derive(Drop)]
pub enum Request {
    /// All registers.
    Regs,
    /// A register is to have this value: what of it a debugger can write.
    Poke(DebugRegister, u32),
    /// So many bytes, at most 1,024, from a virtual address on.
    Read(u32, u32),
    /// Bytes, at most 1,024, are to stand from a virtual address on.
    Write(u32, WriteBytes),
    /// The debugger's slices are to end where PC is at this virtual address.
    Break(u32),
    /// They are not to end there any more.
    Clear(u32),
}

/// What was answered.
#[derive(Drop)]
pub enum Reply {
    /// The registers, by their numbers.
    Registers(Registers),
    /// The bytes.
    Bytes(Vec<u8>),
    /// It is done.
    Done,
}

/// Why a request is refused.
#[derive(Clone, Copy, Debug, PartialEq, Eq)]
pub enum DebugError {
    /// One of the bytes has no place in memory.
    NoPlace,
    /// The guest has 32 other breakpoints.
    NoBreakpoint,
    /// A page that one of the bytes lies in is not there, the log has no room, or a request for memory was refused.
    Stop(Stop),
}
