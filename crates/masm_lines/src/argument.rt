//! The operands of a statement.
ghost use Rattle.std.specs.Prelude.{◌≡◌, option_map, slice_get};
ghost use Rattle.std.specs.Result.{result_map_both};
ghost use Rattle.masm_lines.specs.Operands.{behind_comma, operands_in, register_at, number_at, value_written};
ghost use Rattle.masm_lines.specs.Parts as part;
ghost use Rattle.masm_lines.specs.Views.{arguments_view, value_view, written_view, written_behind, first_view, text_view};

use crate::AsmFault;
use crate::scan::{before, behind, trimmed};
use crate::written::{Value, Written, written_of};
use mips_instr::Reg;

/// Operands in their order. No statement has more than three.
#[derive(Drop)]
pub enum Arguments<'a> {
    None,
    One(Written<'a>),
    Two(Written<'a>, Written<'a>),
    Three(Written<'a>, Written<'a>, Written<'a>),
}

/// The operands in a text: none, or some with commas between them and blanks round the commas.
#[tactic(auto, unfolding(crate::specs::Operands::operands_in, crate::specs::Parts::first_part))]
pub fn arguments_in(text: &[u8]) -> Result<Arguments<'_>, AsmFault>
    ensures { result_map_both arguments_view (λ f. f) result ≡ operands_in text.now }
{
    if text.is_empty() {
        return Ok(Arguments::None);
    }
    let (first, rest) = match first_argument(text) {
        Err(fault) => return Err(fault),
        Ok(found) => found,
    };
    let Some(rest) = rest else {
        return Ok(Arguments::One(first));
    };
    let (second, rest) = match first_argument(rest) {
        Err(fault) => return Err(fault),
        Ok(found) => found,
    };
    let Some(rest) = rest else {
        return Ok(Arguments::Two(first, second));
    };
    match first_argument(rest) {
        Err(fault) => Err(fault),
        Ok((_, Some(_))) => Err(AsmFault::Operand),
        Ok((third, None)) => Ok(Arguments::Three(first, second, third)),
    }
}

/// The operand before the first comma, and what follows the comma where there is one.
#[tactic(auto, unfolding(crate::specs::Parts::first_part))]
fn first_argument(text: &[u8]) -> Result<(Written<'_>, Option<&[u8]>), AsmFault>
    ensures { result_map_both first_view (λ f. f) result ≡ part.first_part text.now }
{
    match written_of(trimmed(before(text, b','))) {
        None => Err(AsmFault::Operand),
        Some(operand) => Ok((operand, behind_comma(text))),
    }
}

/// What is behind the first comma, if there is one.
pub fn behind_comma(text: &[u8]) -> Option<&[u8]>
    ensures { option_map text_view result ≡ behind_comma text.now }
{
    if text.contains(&b',') {
        Some(behind(text, b','))
    } else {
        None
    }
}

impl<'a> Arguments<'a> {
    /// The operand at a place, counted from 0.
    fn at(&self, place: usize) -> Option<&Written<'a>>
        ensures { option_map written_behind result ≡ slice_get (arguments_view self.now) place }
    {
        match self {
            Arguments::None => None,
            Arguments::One(a) => if place == 0 { Some(a) } else { None },
            Arguments::Two(a, b) => match place {
                0 => Some(a),
                1 => Some(b),
                _ => None,
            },
            Arguments::Three(a, b, c) => match place {
                0 => Some(a),
                1 => Some(b),
                2 => Some(c),
                _ => None,
            },
        }
    }

    /// The register of the operand at a place, a base register too; `$0` where there is none.
    pub fn register(&self, place: usize) -> Reg
        ensures { result ≡ register_at (arguments_view self.now) place }
    {
        match self.at(place) {
            Some(written) => written.register(),
            None => Reg::new(0),
        }
    }

    /// The number of the operand at a place, an offset too; 0 where there is none.
    pub fn number(&self, place: usize) -> i64
        ensures { result ≡ number_at (arguments_view self.now) place }
    {
        match self.at(place) {
            Some(written) => written.number(),
            None => 0,
        }
    }

    /// The number or the name that the operand at a place is; 0 where there is none.
    pub fn value(&self, place: usize) -> Value<'a>
        ensures { value_view result ≡ value_written (arguments_view self.now) place }
    {
        match self.at(place) {
            Some(written) => written.value(),
            None => Value::Number(0),
        }
    }
}
