//! Bytes as digits.
ghost use Rattle.std.specs.Prelude.{◌≡◌, is_some, option_map, IfOk, OnErr, true};
ghost use Rattle.std.specs.Char.{is_ascii_hexdigit};
ghost use Rattle.std.specs.List.{list_all};
ghost use Rattle.line_words.specs.Bytes as spec;

use std::alloc::{AllocError, Global};

/// The bytes that a word is: two hexadecimal digits each, of either case, and one byte at least.
///
/// `AllocError` where memory is refused for them. Where the word isn't bytes no memory is asked for.
pub fn bytes(alloc: Global, word: &[u8]) -> Result<Option<Vec<u8>>, AllocError>
    ensures bytes { IfOk result (λ bytes. option_map (λ b. b.items) bytes ≡ spec.bytes_of word.now) }
    ensures only_bytes { OnErr result (is_some (spec.bytes_of word.now) ≡ true) }
{
    if !are_bytes(word) {
        return Ok(None);
    }
    match hex::decode(alloc, word) {
        Ok(bytes) => Ok(Some(bytes)),
        Err(_) => Err(AllocError),
    }
}

/// Whether a word is bytes: pairs of hexadecimal digits, of either case, and one pair at least.
#[tactic(auto, using(crate::proofs::Pairs::no_bytes_in_nothing, crate::proofs::Pairs::no_bytes_in_odd_digits))]
pub fn are_bytes(word: &[u8]) -> bool
    ensures { result ≡ is_some (spec.bytes_of word.now) }
{
    if word.is_empty() {
        return false;
    }
    if word.len() % 2 == 1 {
        return false;
    }
    are_digits(word)
}

/// Whether a word has hexadecimal digits alone.
fn are_digits(word: &[u8]) -> bool
    ensures { result ≡ list_all is_ascii_hexdigit word.now }
{
    word.iter().all(|digit| digit.is_ascii_hexdigit())
}
