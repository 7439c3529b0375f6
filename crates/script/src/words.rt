//! A line and its words.
ghost use Rattle.std.specs.Prelude.{◌≡◌, IfOk, map, option_map};
ghost use Rattle.script.specs.Views.{arguments_view, parts_view, text_view};
ghost use Rattle.script.specs.Words as spec;

use std::alloc::{AllocError, Global};

/// The words behind a line's first word. No line has more than four.
#[derive(Clone, Copy)]
pub enum Arguments<'a> {
    Zero,
    One(&'a str),
    Two(&'a str, &'a str),
    Three(&'a str, &'a str, &'a str),
    Four(&'a str, &'a str, &'a str, &'a str),
}

/// Whether a line says nothing: it is empty, or begins with `#`.
pub fn is_skipped(line: &str) -> bool
    ensures { result ≡ spec.is_skipped line.now }
{
    matches!(line.as_bytes(), [] | [b'#', ..])
}

/// The words of a line, with one blank between them.
pub fn words_of(alloc: Global, line: &str) -> Result<Vec<&str>, AllocError>
    ensures { IfOk result (λ words. map text_view words.items ≡ spec.words_of line.now) }
{
    line.split(' ').collect(alloc)
}

/// The first word and the words behind it, if they are at most four.
#[tactic(auto, unfolding(crate::specs::Words::parts_of))]
pub fn parts_of<'a>(words: &[&'a str]) -> Option<(&'a str, Arguments<'a>)>
    ensures { option_map parts_view result ≡ spec.parts_of (map text_view words.now) }
{
    match *words {
        [name] => Some((name, Arguments::Zero)),
        [name, a] => Some((name, Arguments::One(a))),
        [name, a, b] => Some((name, Arguments::Two(a, b))),
        [name, a, b, c] => Some((name, Arguments::Three(a, b, c))),
        [name, a, b, c, d] => Some((name, Arguments::Four(a, b, c, d))),
        _ => None,
    }
}
