//! What lists of operands put.
ghost use Rattle.std.specs.Prelude.{◌≡◌, ◌≤◌, ◌++◌, ◌∷◌, OnOk, flat_map, length};
ghost use Rattle.std.specs.List.{list_all};
ghost use Rattle.std.specs.Result.{result_map_both};
ghost use Rattle.masm_lines.specs.Lists as spec;
ghost use Rattle.masm_lines.specs.Views.{list_values, rest_values, statement_view, value_view};

use crate::AsmFault;
use crate::argument::behind_comma;
use crate::element::{Element, push_byte, push_half, value_of};
use crate::list::{LONGEST, List};
use crate::scan::before;
use crate::statement::Statement;
use crate::written::Value;
use std::alloc::AllocError;

impl<'a> List<'a> {
    /// How many they are.
    pub fn count(&self) -> u32
        ensures value { result ≡ length (spec.parts self.now.text.now) }
        ensures small { result ≤ 65537 }
    {
        let mut count = 0;
        let mut rest = Some(self.text);
        while let Some(text) = rest {
            count += 1;
            rest = behind_comma(text);
        }
        count
    }

    /// The first one as a number or a name, and the others, if there are any.
    pub fn split(&self) -> (Value<'a>, Option<List<'a>>)
        ensures { list_values self.now ≡ value_view result.0 ∷ rest_values result.1 }
    {
        let first = value_of(before(self.text, b','));
        match behind_comma(self.text) {
            Some(text) => (first, Some(List { text })),
            None => (first, None),
        }
    }

    /// Puts the bytes of half-words behind others.
    pub fn push_halves(&self, bytes: &mut Vec<u8>) -> Result<(), AllocError>
        ensures { OnOk result (bytes.new.items ≡ bytes.old.items ++ flat_map spec.half_bytes (spec.parts self.now.text.now)) }
    {
        let mut rest = Some(self.text);
        while let Some(text) = rest {
            push_half(bytes, before(text, b','))?;
            rest = behind_comma(text);
        }
        Ok(())
    }

    /// Puts bytes behind others.
    pub fn push_bytes(&self, bytes: &mut Vec<u8>) -> Result<(), AllocError>
        ensures { OnOk result (bytes.new.items ≡ bytes.old.items ++ flat_map spec.byte_of (spec.parts self.now.text.now)) }
    {
        let mut rest = Some(self.text);
        while let Some(text) = rest {
            push_byte(bytes, before(text, b','))?;
            rest = behind_comma(text);
        }
        Ok(())
    }
}

/// Whether all parts of a text between its commas have the form of elements.
fn are_elements(element: Element, text: &[u8]) -> bool
    ensures { result ≡ list_all (spec.is_element element) (spec.parts text.now) }
{
    let mut rest = Some(text);
    while let Some(text) = rest {
        if !element.is_element(before(text, b',')) {
            return false;
        }
        rest = behind_comma(text);
    }
    true
}

/// Whether all elements of a text are in their range.
fn are_within(element: Element, text: &[u8]) -> bool
    ensures { result ≡ list_all (spec.is_within element) (spec.parts text.now) }
{
    let mut rest = Some(text);
    while let Some(text) = rest {
        if !element.is_within(before(text, b',')) {
            return false;
        }
        rest = behind_comma(text);
    }
    true
}

/// What the elements of a list put, or its fault: the form of each element comes before the range of any.
#[tactic(auto, unfolding(crate::specs::Lists::list_statement))]
pub fn list_statement(element: Element, text: &[u8]) -> Result<Statement<'_>, AsmFault>
    ensures { result_map_both statement_view (λ f. f) result ≡ spec.list_statement element text.now }
{
    if text.len() > LONGEST || !are_elements(element, text) {
        return Err(AsmFault::Operand);
    }
    if !are_within(element, text) {
        return Err(AsmFault::Range);
    }
    let list = List { text };
    Ok(match element {
        Element::Word => Statement::Words(list),
        Element::Half => Statement::Halves(list),
        Element::Byte => Statement::Bytes(list),
    })
}
