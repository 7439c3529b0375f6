//! What texts in quotes put.
ghost use Rattle.std.specs.Prelude.{◌≡◌, ◌≤◌, ◌++◌, OnOk, is_some, length, option_map};
ghost use Rattle.std.specs.Result.{result_map_both};
ghost use Rattle.masm_lines.specs.Limits.{longest};
ghost use Rattle.masm_lines.specs.Texts as spec;
ghost use Rattle.masm_lines.specs.Views.{byte_behind, statement_view};

use crate::AsmFault;
use crate::list::LONGEST;
use crate::statement::Statement;
use crate::text::Text;
use std::alloc::AllocError;

impl Text<'_> {
    /// How many bytes it has.
    pub fn len(&self) -> u32
        ensures value { result ≡ length (spec.bytes_in self.now.text.now) }
        ensures small { result ≤ longest }
    {
        let mut count = 0;
        let mut rest = self.text;
        while let Some((_, more)) = next_byte(rest) {
            count += 1;
            rest = more;
        }
        count
    }

    /// Puts its bytes behind others.
    pub fn push_to(&self, bytes: &mut Vec<u8>) -> Result<(), AllocError>
        ensures { OnOk result (bytes.new.items ≡ bytes.old.items ++ spec.bytes_in self.now.text.now) }
    {
        let mut rest = self.text;
        while let Some((byte, more)) = next_byte(rest) {
            bytes.push(byte)?;
            rest = more;
        }
        Ok(())
    }
}

/// The byte for which a character behind a backslash stands.
fn escaped(c: u8) -> Option<u8>
    ensures { result ≡ spec.escaped c }
{
    match c {
        b'n' => Some(b'\n'),
        b't' => Some(b'\t'),
        b'r' => Some(b'\r'),
        b'0' => Some(0),
        b'\\' => Some(b'\\'),
        b'"' => Some(b'"'),
        _ => None,
    }
}

/// The first byte of a text, and what is written behind it; none where a quote stands, the text ends, or no byte is written so.
fn next_byte(text: &[u8]) -> Option<(u8, &[u8])>
    ensures { option_map byte_behind result ≡ spec.next_byte text.now }
{
    match text {
        [] | [b'"', ..] | [b'\\'] => None,
        [b'\\', c, rest @ ..] => match escaped(*c) {
            Some(byte) => Some((byte, rest)),
            None => None,
        },
        [c, rest @ ..] => Some((*c, rest)),
    }
}

/// Whether a quote ends the text, and nothing stands behind it.
fn is_ended(text: &[u8]) -> bool
    ensures { result ≡ is_some (spec.quoted text.now) }
{
    let mut rest = text;
    while let Some((_, more)) = next_byte(rest) {
        rest = more;
    }
    match rest {
        [b'"'] => true,
        _ => false,
    }
}

/// What a text in quotes puts, with a zero behind it or not, or its fault.
#[tactic(auto, unfolding(crate::specs::Texts::text_statement))]
pub fn text_statement(zero: bool, text: &[u8]) -> Result<Statement<'_>, AsmFault>
    ensures { result_map_both statement_view (λ f. f) result ≡ spec.text_statement zero text.now }
{
    if text.len() > LONGEST {
        return Err(AsmFault::Operand);
    }
    match text {
        [b'"', text @ ..] if is_ended(text) => Ok(Statement::Text(Text { text }, zero)),
        _ => Err(AsmFault::Operand),
    }
}
