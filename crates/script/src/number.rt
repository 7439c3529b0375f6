//! Numbers, words of a processor and bytes.
ghost use Rattle.std.specs.Prelude.{◌≡◌, ◌⊎◌};
ghost use Rattle.script.specs.Answers.{Answers};
ghost use Rattle.script.specs.Numbers as spec;

use crate::error::LineError;
use guest_number::GuestNo;
use hex::FromHexError;
use std::alloc::Global;

/// The number below 2^32 that digits of a radix, 10 or 16, write.
#[tactic(auto, unfolding(crate::specs::Numbers::natural_of))]
fn natural(radix: u32, digits: &[u8]) -> Option<u32>
    requires { (radix ≡ 10) ⊎ (radix ≡ 16) }
    ensures { result ≡ spec.natural_of radix digits.now }
{
    if digits.is_empty() {
        return None;
    }
    let mut value: u32 = 0;
    for c in digits {
        let digit = char::from(*c).to_digit(radix)?;
        value = value.checked_mul(radix)?.checked_add(digit)?;
    }
    Some(value)
}

/// The number that a word is: decimal digits alone.
pub fn number(word: &str) -> Option<u32>
    ensures { result ≡ spec.number_of word.now }
{
    natural(10, word.as_bytes())
}

/// The guest whose number a word is.
pub fn guest_of(word: &str) -> Option<GuestNo>
    ensures { result ≡ spec.number_of word.now }
{
    Some(GuestNo::new(number(word)?))
}

/// The address or word of a processor that a word is: `0x` and 1 to 8 hexadecimal digits.
#[tactic(auto, unfolding(crate::specs::Numbers::word_of))]
pub fn hex_word(word: &str) -> Option<u32>
    ensures { result ≡ spec.word_of word.now }
{
    match word.as_bytes() {
        [b'0', b'x', digits @ ..] if digits.len() <= 8 => natural(16, digits),
        _ => None,
    }
}

/// The bytes that a word is: two hexadecimal digits each, and one byte at least.
#[tactic(auto, unfolding(crate::specs::Numbers::bytes_of))]
pub fn bytes(alloc: Global, word: &str) -> Result<Vec<u8>, LineError>
    ensures { Answers (λ bytes. bytes.items) result (spec.bytes_of word.now) }
{
    if word.is_empty() {
        return Err(LineError::Refused);
    }
    match hex::decode(alloc, word.as_bytes()) {
        Ok(bytes) => Ok(bytes),
        Err(FromHexError::OutOfMemory) => Err(LineError::Memory),
        Err(_) => Err(LineError::Refused),
    }
}
