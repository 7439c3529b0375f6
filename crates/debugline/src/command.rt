//! What a debugger asks for.
use items::DebugRegister;

/// How many registers a debugger can name.
pub const REGISTERS: u32 = 38;

/// How many bytes a debugger reads or writes at once, at most.
pub const MOST_DATA: usize = 1024;

/// What a line asks for. Addresses are virtual.
#[derive(Debug, Drop, PartialEq, Eq)]
pub enum Command {
    /// All registers, 0 to 37.
    Regs,
    /// A register.
    Reg(DebugRegister),
    /// A register is to have this word.
    Set(DebugRegister, u32),
    /// So many bytes of memory, 1 to 1,024.
    Read { address: u32, length: u32 },
    /// Memory is to have these bytes, 1 to 1,024 of them.
    Write { address: u32, bytes: Vec<u8> },
    /// The guest goes on, to a breakpoint.
    Cont,
    /// The guest makes one step.
    Step,
    /// A breakpoint at an address.
    Break(u32),
    /// No breakpoint at an address any more.
    Clear(u32),
    /// The guest goes on without the debugger.
    Detach,
    /// The guest is held, and the debugger leaves.
    End,
}
