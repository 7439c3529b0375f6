//! The elements of lists: their forms and ranges, and the bytes that they put.
ghost use Rattle.std.specs.Prelude.{◌≡◌, ◌++◌, OnOk};
ghost use Rattle.masm_lines.specs.Lists as spec;
ghost use Rattle.masm_lines.specs.Operands.{Number, number_in};
ghost use Rattle.masm_lines.specs.Views.{value_view};

use crate::AsmFault;
use crate::range::{byte_bits, either_half_bits, word_bits};
use crate::scan::trimmed;
use crate::written::{Value, Written, written_of};
use std::alloc::AllocError;

/// What a list has elements of.
#[derive(Clone, Copy)]
pub enum Element {
    /// Words, and addresses of names.
    Word,
    /// Half-words.
    Half,
    /// Bytes.
    Byte,
}

impl Element {
    /// Whether an operand, with blanks round it, has the form of an element.
    pub fn is_element(self, part: &[u8]) -> bool
        ensures { result ≡ spec.is_element self part.now }
    {
        match (self, written_of(trimmed(part))) {
            (_, Some(Written::Number(_))) | (Element::Word, Some(Written::Name(_))) => true,
            _ => false,
        }
    }

    /// Whether an element's number is in its range.
    pub fn is_within(self, part: &[u8]) -> bool
        ensures { result ≡ spec.is_within self part.now }
    {
        match value_of(part) {
            Value::Name(_) => true,
            Value::Number(number) => self.has(number),
        }
    }

    /// Whether a number is in the range of an element.
    fn has(self, number: i64) -> bool
        ensures { result ≡ spec.in_element_range self (Number number) }
    {
        match self {
            Element::Word => word_bits(number).is_ok(),
            Element::Half => either_half_bits(number).is_ok(),
            Element::Byte => byte_bits(number).is_ok(),
        }
    }
}

/// The number or the name that an operand with blanks round it is; 0 where it is neither.
pub fn value_of(part: &[u8]) -> Value<'_>
    ensures { value_view result ≡ spec.value_of part.now }
{
    match written_of(trimmed(part)) {
        Some(written) => written.value(),
        None => Value::Number(0),
    }
}

/// The number that an operand with blanks round it is; 0 where it is none.
fn number_of(part: &[u8]) -> i64
    ensures { result ≡ number_in (spec.operand_in part.now) }
{
    match written_of(trimmed(part)) {
        Some(written) => written.number(),
        None => 0,
    }
}

/// Puts the two bytes of a half-word behind others.
pub fn push_half(bytes: &mut Vec<u8>, part: &[u8]) -> Result<(), AllocError>
    ensures { OnOk result (bytes.new.items ≡ bytes.old.items ++ spec.half_bytes part.now) }
{
    let half = match either_half_bits(number_of(part)) {
        Ok(half) => half,
        Err(_) => 0,
    };
    bytes.extend_from_slice(&half.to_le_bytes())
}

/// Puts a byte behind others.
pub fn push_byte(bytes: &mut Vec<u8>, part: &[u8]) -> Result<(), AllocError>
    ensures { OnOk result (bytes.new.items ≡ bytes.old.items ++ spec.byte_of part.now) }
{
    let byte = match byte_bits(number_of(part)) {
        Ok(byte) => byte,
        Err(_) => 0,
    };
    bytes.push(byte)?;
    Ok(())
}
