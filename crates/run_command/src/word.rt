//! The word by which a guest is asked for: `IMAGE:PAGES:SHARES` or `IMAGE:PAGES:SHARES:MINIMUM`.
ghost use Rattle.std.specs.Prelude.{◌≡◌, ◌∷◌, [], IfErr, IfOk, IfSome, None, Ok, Err, option_map};
ghost use Rattle.line_words.specs.Numbers.{decimal_of};
ghost use Rattle.line_words.specs.Views.{text_view};
ghost use Rattle.run_command.specs.Words as spec;

use crate::order::GuestOrder;
use line_words::decimal;

/// What is wrong with such a word: the first of these that it has.
#[derive(Clone, Copy, Debug, PartialEq, Eq)]
pub enum WordFault {
    /// It has not three or four parts with colons between them.
    Parts,
    /// The name of the image is empty.
    Image,
    /// The pages are no decimal digits of a number below 2^32.
    Pages,
    /// The shares are none.
    Shares,
    /// The minimum is none.
    Minimum,
}

impl WordFault {
    /// What is said of it.
    pub fn text(self) -> &'static str {
        match self {
            WordFault::Parts => {
                "a value of '<GUEST>' is not IMAGE:PAGES:SHARES or IMAGE:PAGES:SHARES:MINIMUM"
            }
            WordFault::Image => "a value of '<GUEST>' names no image before its first colon",
            WordFault::Pages => {
                "the pages of a value of '<GUEST>', behind its first colon, are no decimal number"
            }
            WordFault::Shares => {
                "the shares of a value of '<GUEST>', behind its second colon, are no decimal number"
            }
            WordFault::Minimum => {
                "the minimum of a value of '<GUEST>', behind its third colon, is no decimal number"
            }
        }
    }
}

// The first part of a text, and what is behind the colon that ends it; none where it is one part.
fn cut(text: &str) -> Option<(&str, &str)>
    ensures cut { IfSome result (λ p. spec.parts_of text.now ≡ p.0.now ∷ spec.parts_of p.1.now) }
    ensures whole { result ≡ None → spec.parts_of text.now ≡ text.now ∷ [] }
{
    text.split_once(':')
}

// The number that a part writes.
fn number(part: &str, fault: WordFault) -> Result<u32, WordFault>
    ensures number { IfOk result (λ number. decimal_of part.now ≡ Some number) }
    ensures none { IfErr result (λ told. (decimal_of part.now ≡ None) × (told ≡ fault)) }
{
    match decimal(part.as_bytes()) {
        Some(number) => Ok(number),
        None => Err(fault),
    }
}

// The minimum that a part writes, where there is one.
fn minimum_of(part: Option<&str>) -> Result<Option<u32>, WordFault>
    ensures minimum { IfOk result (λ minimum. spec.minimum_in (option_map text_view part.entry) ≡ Some minimum) }
    ensures none { IfErr result (λ told. (spec.minimum_in (option_map text_view part.entry) ≡ None) × (told ≡ WordFault.Minimum)) }
{
    match part {
        Some(part) => Ok(Some(number(part, WordFault::Minimum)?)),
        None => Ok(None),
    }
}

// The guest that three parts ask for, or four.
fn of_parts<'a>(
    image: &'a str,
    pages: &str,
    shares: &str,
    minimum: Option<&str>,
) -> Result<GuestOrder<'a>, WordFault>
    ensures guest { IfOk result (λ order. spec.of_parts image.now pages.now shares.now (option_map text_view minimum.entry) ≡ Ok (spec.asked_view order)) }
    ensures fault { IfErr result (λ fault. spec.of_parts image.now pages.now shares.now (option_map text_view minimum.entry) ≡ Err fault) }
{
    if image.is_empty() {
        return Err(WordFault::Image);
    }
    let pages = number(pages, WordFault::Pages)?;
    let shares = number(shares, WordFault::Shares)?;
    let minimum = minimum_of(minimum)?;
    Ok(GuestOrder {
        image,
        pages,
        shares,
        minimum,
    })
}

/// The guest that a word asks for, or the first fault that the word has. Any numbers below 2^32 are taken.
#[tactic(auto, using(crate::proofs::Words::five_parts))]
pub fn guest_of<'a>(word: &'a str) -> Result<GuestOrder<'a>, WordFault>
    ensures guest { IfOk result (λ order. spec.guest_of word.now ≡ Ok (spec.asked_view order)) }
    ensures fault { IfErr result (λ fault. spec.guest_of word.now ≡ Err fault) }
{
    let Some((image, rest)) = cut(word) else {
        return Err(WordFault::Parts);
    };
    let Some((pages, rest)) = cut(rest) else {
        return Err(WordFault::Parts);
    };
    let Some((shares, rest)) = cut(rest) else {
        return of_parts(image, pages, rest, None);
    };
    match cut(rest) {
        None => of_parts(image, pages, shares, Some(rest)),
        Some(_) => Err(WordFault::Parts),
    }
}
