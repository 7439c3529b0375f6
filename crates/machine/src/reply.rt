//! What a machine replies to an item, and why it refuses one.

/// What a machine replies to an item that it accepted.
#[derive(Debug, Drop)]
pub enum Reply {
    /// The item is done, and there is nothing to say.
    Done,
    /// The console's output, the oldest byte first, that a Drain took.
    Output(Vec<u8>),
}

/// Why a machine refuses an item. It is then as before.
#[derive(Clone, Copy, Debug, PartialEq, Eq)]
pub enum Rejection {
    /// The machine refuses it: 256 bytes of console input wait, or a write is longer than 1,024 bytes or has a byte with no
    /// place in memory.
    Machine,
    /// A request for memory was refused.
    Memory,
}

/// At most so many bytes are written at once.
pub const WRITE_LIMIT: usize = 1024;
