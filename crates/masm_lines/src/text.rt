//! Texts in quotes.
ghost use Rattle.std.specs.Prelude.{◌≡◌, ◌≤◌, is_some, length, true};
ghost use Rattle.masm_lines.specs.Limits.{longest};
ghost use Rattle.masm_lines.specs.Texts.{quoted};

/// A text, without the quote before it.
#[derive(Clone, Copy)]
pub struct Text<'a> {
    /// As it is written, with the quote that ends it.
    pub text: &'a [u8],
    pub ghost short: { length text.now ≤ longest },
    pub ghost ends: { is_some (quoted text.now) ≡ true },
}
