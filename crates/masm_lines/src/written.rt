//! Operands as a source writes them.
ghost use Rattle.std.specs.Prelude.{◌≡◌, option_map, Some};
ghost use Rattle.masm_lines.specs.Operands as spec;
ghost use Rattle.masm_lines.specs.Views.{written_view, value_view};

use crate::numbers::number;
use crate::scan::{before, behind};
use crate::token::{is_name, register};
use mips_instr::Reg;

/// A number, or the name of an address.
#[derive(Drop)]
pub enum Value<'a> {
    Number(i64),
    Name(&'a [u8]),
}

/// An operand.
#[derive(Drop)]
pub enum Written<'a> {
    Register(Reg),
    Number(i64),
    Name(&'a [u8]),
    /// An offset, and a base register in parentheses.
    Based(i64, Reg),
}

impl<'a> Written<'a> {
    /// The register, a base register too; `$0` where there is none.
    pub fn register(&self) -> Reg
        ensures { result ≡ spec.register_in (Some (written_view self.now)) }
    {
        match *self {
            Written::Register(register) => register,
            Written::Based(_, register) => register,
            Written::Number(_) | Written::Name(_) => Reg::new(0),
        }
    }

    /// The number, an offset too; 0 where there is none.
    pub fn number(&self) -> i64
        ensures { result ≡ spec.number_in (Some (written_view self.now)) }
    {
        match *self {
            Written::Number(number) => number,
            Written::Based(number, _) => number,
            _ => 0,
        }
    }

    /// The number or the name; 0 where it is neither.
    pub fn value(&self) -> Value<'a>
        ensures { value_view result ≡ spec.value_in (Some (written_view self.now)) }
    {
        match *self {
            Written::Number(number) => Value::Number(number),
            Written::Name(name) => Value::Name(name),
            Written::Register(_) | Written::Based(_, _) => Value::Number(0),
        }
    }
}

/// The operand that a text is.
#[tactic(auto, unfolding(crate::specs::Operands::written_of))]
pub fn written_of(text: &[u8]) -> Option<Written<'_>>
    ensures { option_map written_view result ≡ spec.written_of text.now }
{
    if is_name(text) {
        return Some(Written::Name(text));
    }
    if let [b'$', ..] = text {
        return Some(Written::Register(register(text)?));
    }
    if text.contains(&b'(') {
        return based(text);
    }
    Some(Written::Number(number(text)?))
}

/// A number, and right behind it a register in parentheses.
#[tactic(auto, unfolding(crate::specs::Operands::based_of))]
fn based(text: &[u8]) -> Option<Written<'_>>
    ensures { option_map written_view result ≡ spec.based_of text.now }
{
    match behind(text, b'(') {
        [base @ .., b')'] => {
            let offset = number(before(text, b'('))?;
            Some(Written::Based(offset, register(base)?))
        }
        _ => None,
    }
}
