//! A line of printable characters.
ghost use Rattle.std.specs.Prelude.{◌≡◌, ◌≤◌, ◌<◌, ◌++◌, ◌↔◌, IfOk, IsTrue, OnOk, string_bytes};
ghost use Rattle.diagnosis.specs.Printable.{IsPrintable, caret_behind, digit, shown, shown_byte};

use std::alloc::{AllocError, Global};
use std::fmt;
use std::marker::Model;

/// So many bytes of a line are quoted at most.
pub const MOST_QUOTED: usize = 60;

/// Words for what was refused. In clauses they are their bytes, each of them a printable ASCII character.
#[derive(Debug, Drop)]
pub struct Words {
    text: String,
}

impl Model for Words {
    ghost use Rattle.std.specs.Prelude.{ℕ, List, All, string_bytes};
    ghost use Rattle.diagnosis.specs.Printable.{IsPrintable};

    ghost Value = { List ℕ };

    ghost view = { λ w. string_bytes w.text };

    ghost invariant = { λ w. All IsPrintable (string_bytes w.text) };
}

impl Words {
    /// A text; each byte of it that is no printable ASCII character stands as `\x` and its two digits.
    pub fn of(alloc: Global, text: &str) -> Result<Words, AllocError>
        ensures { IfOk result (λ words. words ≡ shown text.now) }
    {
        Words::of_bytes(alloc, text.as_bytes())
    }

    /// Bytes; each of them that is no printable ASCII character stands as `\x` and its two digits.
    pub fn of_bytes(alloc: Global, bytes: &[u8]) -> Result<Words, AllocError>
        ensures { IfOk result (λ words. words ≡ shown bytes.now) }
    {
        Ok(Words {
            text: printable(alloc, bytes)?,
        })
    }

    /// A caret behind so many blanks.
    pub fn caret(alloc: Global, blanks: usize) -> Result<Words, AllocError>
        ensures { IfOk result (λ words. words ≡ caret_behind blanks) }
    {
        let mut text = String::new(alloc);
        for _ in 0..blanks {
            text.push_str(" ")?;
        }
        text.push_str("^")?;
        Ok(Words { text })
    }

    /// The text.
    pub fn as_str(&self) -> &str
        ensures { result.now ≡ self.now }
    {
        self.text.as_str()
    }
}

impl fmt::Display for Words {
    fn fmt<W: fmt::Write>(&self, f: &mut fmt::Formatter<W>) -> fmt::Result {
        f.write_str(self.as_str())
    }
}

/// Bytes as printable ASCII characters.
pub fn printable(alloc: Global, bytes: &[u8]) -> Result<String, AllocError>
    ensures { IfOk result (λ text. string_bytes text ≡ shown bytes.now) }
{
    let mut out = String::new(alloc);
    for byte in bytes {
        push_shown(&mut out, *byte)?;
    }
    Ok(out)
}

/// Whether a byte is a printable ASCII character.
fn is_printable(byte: u8) -> bool
    ensures { IsTrue result ↔ IsPrintable byte }
{
    0x20 <= byte && byte < 0x7f
}

/// Writes what is shown of a byte.
fn push_shown(out: &mut String, byte: u8) -> Result<(), AllocError>
    ensures { OnOk result (string_bytes out.new ≡ string_bytes out.old ++ shown_byte byte) }
{
    if is_printable(byte) {
        return out.push(char::from(byte));
    }
    out.push_str("\\x")?;
    out.push(hex_digit(byte / 16))?;
    out.push(hex_digit(byte % 16))
}

/// A digit of base 16.
fn hex_digit(number: u8) -> char
    requires { number < 16 }
    ensures value { result ≡ digit number }
    ensures ascii { result < 128 }
{
    if number < 10 {
        char::from(b'0' + number)
    } else {
        char::from(b'a' + (number - 10))
    }
}

/// The beginning of a line between quotation marks, and three dots where it goes on.
pub fn quoted(alloc: Global, line: &[u8]) -> Result<String, AllocError> {
    match line.get(..MOST_QUOTED) {
        Some(beginning) if line.len() > MOST_QUOTED => {
            let text = printable(alloc, beginning)?;
            format!(in alloc; "'{text}'...")
        }
        _ => {
            let text = printable(alloc, line)?;
            format!(in alloc; "'{text}'")
        }
    }
}

/// What follows a noun of so many.
pub fn plural(count: u64) -> &'static str {
    if count == 1 { "" } else { "s" }
}
