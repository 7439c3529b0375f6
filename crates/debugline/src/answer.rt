//! The replies to a debugger's lines.
ghost use Rattle.std.specs.Prelude.{◌≡◌, ◌<◌, IfOk, string_bytes};
ghost use Rattle.debugline.specs.Replies as spec;

use std::alloc::{AllocError, Global};

/// What is answered to a line.
#[derive(Debug, Drop, PartialEq, Eq)]
pub enum Answer {
    /// It is done.
    Done,
    /// Registers.
    Words(Vec<u32>),
    /// Bytes of memory.
    Bytes(Vec<u8>),
    /// The guest is at a breakpoint, or has made its step.
    Break,
    /// The guest is held, and at no breakpoint.
    Held,
    /// An error of a number, 0 to 99.
    Error(u8),
}

/// The text of a reply, without the line feed that ends its line: `ok`, the words in eight digits each, the bytes in two,
/// `break`, `held`, or `E` and two decimal digits. Digits of words and bytes are hexadecimal, in lower case, with nothing
/// between them.
///
/// `AllocError` where memory is refused.
pub fn reply(alloc: Global, answer: &Answer) -> Result<String, AllocError>
    requires { spec.HasReply answer.now }
    ensures { IfOk result (λ text. string_bytes text ≡ spec.reply_of answer.now) }
{
    match answer {
        Answer::Done => String::from_str(alloc, "ok"),
        Answer::Words(words) => words_in_digits(alloc, words),
        Answer::Bytes(bytes) => hex::encode(alloc, bytes.as_slice()),
        Answer::Break => String::from_str(alloc, "break"),
        Answer::Held => String::from_str(alloc, "held"),
        Answer::Error(number) => error(alloc, *number),
    }
}

/// Words in eight digits each.
fn words_in_digits(alloc: Global, words: &[u32]) -> Result<String, AllocError>
    ensures { IfOk result (λ text. string_bytes text ≡ spec.words_text words.now) }
{
    let mut bytes = Vec::new(alloc);
    for word in words {
        bytes.extend_from_slice(&word.to_be_bytes())?;
    }
    hex::encode(alloc, bytes.as_slice())
}

/// An error by its number.
fn error(alloc: Global, number: u8) -> Result<String, AllocError>
    requires { number < 100 }
    ensures { IfOk result (λ text. string_bytes text ≡ spec.error_text number) }
{
    let mut text = String::from_str(alloc, "E")?;
    text.push(char::from(b'0' + number / 10))?;
    text.push(char::from(b'0' + number % 10))?;
    Ok(text)
}
