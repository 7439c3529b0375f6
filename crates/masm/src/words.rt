//! Words and texts behind bytes.
ghost use Rattle.std.specs.Prelude.{◌≡◌, ◌++◌, OnOk};
ghost use Rattle.std.specs.Int.{to_le_bytes, w32};
ghost use Rattle.masm.specs.Answers.{Knows, Follows};
ghost use Rattle.masm.specs.Meanings.{value_word, words_bytes};
ghost use Rattle.masm.specs.Names as naming;
ghost use Rattle.masm_lines.specs.Texts.{bytes_in, ended};
ghost use Rattle.masm_lines.specs.Views.{list_values, value_view};

use crate::error::LineError;
use crate::reading::Names;
use masm_lines::{AsmFault, List, Text, Value, word_bits};
use std::alloc::AllocError;

/// Puts a text behind bytes, and a zero behind it or not.
pub fn push_text(bytes: &mut Vec<u8>, text: &Text, zero: bool) -> Result<(), AllocError>
    ensures { OnOk result (bytes.new.items ≡ bytes.old.items ++ ended zero (bytes_in text.now.text.now)) }
{
    text.push_to(bytes)?;
    if zero {
        bytes.push(0)?;
    }
    Ok(())
}

/// Puts two words behind bytes.
pub fn push_pair(bytes: &mut Vec<u8>, first: u32, second: u32) -> Result<(), AllocError>
    ensures { OnOk result (bytes.new.items ≡ bytes.old.items ++ (to_le_bytes w32 first ++ to_le_bytes w32 second)) }
{
    push_word(bytes, first)?;
    push_word(bytes, second)
}

/// Puts a word behind bytes.
fn push_word(bytes: &mut Vec<u8>, word: u32) -> Result<(), AllocError>
    ensures { OnOk result (bytes.new.items ≡ bytes.old.items ++ to_le_bytes w32 word) }
{
    bytes.extend_from_slice(&word.to_le_bytes())
}

/// The word that a number or a name is.
fn value_word(names: &Names, value: &Value) -> Result<u32, AsmFault>
    ensures { (known : naming.Names) → Knows names.now known → result ≡ value_word known (value_view value.now) }
{
    match *value {
        Value::Number(number) => word_bits(number),
        Value::Name(name) => names.address_of(name),
    }
}

/// Puts the words of a list behind bytes.
pub fn push_words(bytes: &mut Vec<u8>, names: &Names, list: &List) -> Result<(), LineError>
    ensures { (known : naming.Names) → Knows names.now known
        → Follows (λ put. bytes.new.items ≡ bytes.old.items ++ put) result (words_bytes known (list_values list.now)) }
{
    let mut rest = Some(*list);
    while let Some(list) = rest {
        let (first, more) = list.split();
        let word = value_word(names, &first)?;
        push_word(bytes, word)?;
        rest = more;
    }
    Ok(())
}
