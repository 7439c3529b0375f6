//! Lists of operands.
ghost use Rattle.std.specs.Prelude.{◌≤◌, length};
ghost use Rattle.masm_lines.specs.Limits.{longest};

/// A list or a text in quotes is at most so many characters long.
pub const LONGEST: usize = 65_536;

/// Operands with commas between them, one at least.
#[derive(Clone, Copy)]
pub struct List<'a> {
    /// As they are written.
    pub text: &'a [u8],
    pub ghost short: { length text.now ≤ longest },
}
