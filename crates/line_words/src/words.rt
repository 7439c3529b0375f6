//! A line and its words.
ghost use Rattle.std.specs.Prelude.{◌≡◌, ◌≤◌, ◌∷◌, length, not, ◌==◌, option_map};
ghost use Rattle.std.specs.List.{position_or_len};
ghost use Rattle.std.specs.Str.{bytes_eq};
ghost use Rattle.line_words.specs.Words as spec;
ghost use Rattle.line_words.specs.Views.{text_view, words_view};

/// The words of a line, with exactly one blank between them.
#[derive(Clone, Copy)]
pub enum Words<'a> {
    /// The line is one word.
    One(&'a [u8]),
    /// The line is two words.
    Two(&'a [u8], &'a [u8]),
    /// The line is three words.
    Three(&'a [u8], &'a [u8], &'a [u8]),
    /// The line is more than three words.
    More,
}

/// The words of a line. Each blank parts two words, so a blank at an end of the line has an empty word beside it, and so have
/// two blanks in a row between them.
pub fn words_of(line: &[u8]) -> Words<'_>
    ensures { words_view result ≡ spec.first_words (spec.words_of line.now) }
{
    let (first, rest) = first_word(line);
    let Some(rest) = rest else {
        return Words::One(first);
    };
    let (second, rest) = first_word(rest);
    let Some(rest) = rest else {
        return Words::Two(first, second);
    };
    match first_word(rest) {
        (third, None) => Words::Three(first, second, third),
        (_, Some(_)) => Words::More,
    }
}

/// Whether a word is this one.
pub fn is(word: &[u8], name: &str) -> bool
    ensures { result ≡ bytes_eq name.now word.now }
{
    name.as_bytes() == word
}

/// The first word, and what is behind the blank that ends it, if there is one.
fn first_word(text: &[u8]) -> (&[u8], Option<&[u8]>)
    ensures { spec.words_of text.now ≡ result.0.now ∷ spec.words_behind (option_map text_view result.1) }
{
    let end = first_blank(text);
    if end < text.len() {
        (&text[..end], Some(&text[end + 1..]))
    } else {
        (text, None)
    }
}

/// Where the first blank is, or how many bytes there are where there is none.
#[tactic(auto, using(crate::proofs::Fronts::front_steps))]
fn first_blank(text: &[u8]) -> usize
    ensures value { result ≡ position_or_len spec.is_blank text.now }
    ensures within { result ≤ length text.now }
{
    for i in 0..text.len() {
        if text[i] == b' ' {
            return i;
        }
    }
    text.len()
}
