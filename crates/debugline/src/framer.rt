//! Lines of a stream that comes in pieces.
ghost use Rattle.std.specs.Prelude.{◌≡◌, ℕ, List, [], ◌++◌, map, IfOk, OnErr};
ghost use Rattle.debugline.specs.Lines as spec;
ghost use Rattle.debugline.specs.Views.{line_view};

use crate::line::Line;
use std::alloc::{AllocError, Global};
use std::marker::Model;
use std::mem;

/// Cuts a stream of bytes into lines. In clauses it is what it keeps of the stream: the rest behind the last line, or that this
/// rest is too long for a line.
#[derive(Drop)]
pub struct Framer {
    rest: Line,
}

impl Model for Framer {
    ghost use Rattle.debugline.specs.Lines as spec;
    ghost use Rattle.debugline.specs.Views.{line_view};

    ghost Value = { spec.Line };

    ghost view = { λ f. line_view f.rest };

    ghost invariant = { λ f. spec.IsRest (line_view f.rest) };
}

impl Framer {
    /// A framer of a stream of which nothing has come yet. It takes no memory.
    pub fn new(alloc: Global) -> Framer
        ensures { result ≡ spec.Text [] }
    {
        Framer {
            rest: Line::Text(Vec::new(alloc)),
        }
    }

    /// Takes the next piece of the stream, and answers the lines that it ends, in order.
    ///
    /// `AllocError` where memory is refused; the framer is then as before, and the same piece can be fed again.
    pub fn feed(&mut self, alloc: Global, piece: &[u8]) -> Result<Vec<Line>, AllocError>
        // The lines so far and the rest are those of the stream so far, whatever came before this piece.
        ensures lines { IfOk result (λ lines. (stream : List ℕ) (before : List spec.Line) → spec.IsLines stream before self.old
            → spec.IsLines (stream ++ piece.now) (before ++ map line_view lines.items) self.new) }
        // What is kept is no whole line, and has no byte past those of the longest one.
        ensures kept { spec.IsRest self.new }
        ensures err { OnErr result (self.new ≡ self.old) }
    {
        let rest = self.rest.copied(alloc)?;
        let (lines, rest) = lines_behind(alloc, rest, piece)?;
        self.rest = rest;
        Ok(lines)
    }
}

/// The lines that a piece ends behind a rest, and the rest that it leaves.
fn lines_behind(
    alloc: Global,
    mut rest: Line,
    piece: &[u8],
) -> Result<(Vec<Line>, Line), AllocError>
    ensures { IfOk result (λ found. (stream : List ℕ) (before : List spec.Line) → spec.IsLines stream before (line_view rest)
        → spec.IsLines (stream ++ piece.now) (before ++ map line_view found.0.items) (line_view found.1)) }
{
    let mut lines = Vec::new(alloc);
    for byte in piece {
        if *byte == b'\n' {
            lines.push(mem::replace(&mut rest, Line::Text(Vec::new(alloc))))?;
        } else {
            rest.push(*byte)?;
        }
    }
    Ok((lines, rest))
}
