//! A line of a stream.
ghost use Rattle.std.specs.Prelude.{◌≡◌, IfOk, OnOk};
ghost use Rattle.debugline.specs.Lines.{with_byte};
ghost use Rattle.debugline.specs.Views.{line_view};

use std::alloc::{AllocError, Global};

/// How many bytes a line has at most.
pub const MOST_BYTES: usize = 4096;

/// A line, without the line feed that ends it.
#[derive(Debug, Drop, PartialEq, Eq)]
pub enum Line {
    /// At most `MOST_BYTES` bytes, none of them a line feed.
    Text(Vec<u8>),
    /// More than `MOST_BYTES` bytes. None of them is kept.
    Long,
}

impl Line {
    /// The same line in memory of its own.
    pub(crate) fn copied(&self, alloc: Global) -> Result<Line, AllocError>
        ensures { IfOk result (λ line. line_view line ≡ line_view self.now) }
    {
        match self {
            Line::Text(bytes) => Ok(Line::Text(bytes.to_vec(alloc)?)),
            Line::Long => Ok(Line::Long),
        }
    }

    /// Puts a byte behind the others. A line that has `MOST_BYTES` of them becomes `Long`, and stays so.
    pub(crate) fn push(&mut self, byte: u8) -> Result<(), AllocError>
        ensures { OnOk result (line_view self.new ≡ with_byte (line_view self.old) byte) }
    {
        match self {
            Line::Text(bytes) if bytes.len() < MOST_BYTES => bytes.push(byte)?,
            _ => *self = Line::Long,
        }
        Ok(())
    }
}
