//! Lines.
ghost use Rattle.std.specs.Prelude.{◌≡◌, option_map};
ghost use Rattle.std.specs.Result.{result_map_both};
ghost use Rattle.masm_lines.specs.Grammar as grammar;
ghost use Rattle.masm_lines.specs.Views.{statement_view, line_view, text_view};

use crate::AsmFault;
use crate::character::Class;
use crate::comment::uncommented_len;
use crate::operation::operation_of;
use crate::scan::{front_len, is_all, trimmed, trimmed_start};
use crate::statement::{Statement, statement_with};
use crate::token::is_name;

/// What a line says.
#[derive(Drop)]
pub struct Line<'a> {
    /// The name that is to stand for the line's address.
    pub label: Option<&'a [u8]>,
    /// The instruction or directive, with its operands.
    pub statement: Option<Statement<'a>>,
}

/// What a line says, or its fault.
#[tactic(auto, unfolding(crate::specs::Grammar::line_of, crate::specs::Grammar::statement_or_nothing))]
pub fn line_of(text: &[u8]) -> Result<Line<'_>, AsmFault>
    ensures { result_map_both line_view (λ f. f) result ≡ grammar.line_of text.now }
{
    if !is_all(text, Class::Ascii) {
        return Err(AsmFault::Syntax);
    }
    let (label, rest) = label_of(body_of(text));
    if rest.is_empty() {
        return Ok(Line {
            label,
            statement: None,
        });
    }
    match statement_in(rest) {
        Err(fault) => Err(fault),
        Ok(statement) => Ok(Line {
            label,
            statement: Some(statement),
        }),
    }
}

/// A line without its comment and without the blanks at its ends.
#[tactic(auto, unfolding(crate::specs::Grammar::body_of))]
fn body_of(line: &[u8]) -> &[u8]
    ensures { result.now ≡ grammar.body_of line.now }
{
    trimmed(&line[..uncommented_len(line)])
}

/// The label at a body's start, if there is one, and what follows.
#[tactic(auto, unfolding(crate::specs::Grammar::label_of, crate::specs::Tokens::trimmed_start))]
fn label_of(body: &[u8]) -> (Option<&[u8]>, &[u8])
    ensures name { option_map text_view result.0 ≡ grammar.label_of body.now }
    ensures rest { result.1.now ≡ grammar.behind_label body.now (grammar.label_of body.now) }
{
    let (name, rest) = body.split_at(front_len(body, Class::Name));
    match rest {
        [b':', rest @ ..] if is_name(name) => (Some(name), trimmed_start(rest)),
        _ => (None, body),
    }
}

/// A mnemonic or a directive, and after blanks its operands.
#[tactic(auto, unfolding(crate::specs::Grammar::statement_in))]
fn statement_in(text: &[u8]) -> Result<Statement<'_>, AsmFault>
    ensures { result_map_both statement_view (λ f. f) result ≡ grammar.statement_in text.now }
{
    let (word, rest) = text.split_at(front_len(text, Class::NoBlank));
    let operation = operation_of(word)?;
    statement_with(operation, trimmed_start(rest))
}
