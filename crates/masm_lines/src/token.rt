//! Names and registers.
ghost use Rattle.std.specs.Prelude.{◌≡◌};
ghost use Rattle.masm_lines.specs.Tokens.{is_name, is_directive, register_numbered, register_of};

use crate::character::{Class, starts_name};
use crate::numbers::natural;
use crate::scan::is_all;
use masm_names::register_named;
use mips_instr::Reg;

/// A letter or `_`, and then letters, digits and `_`.
pub fn is_name(text: &[u8]) -> bool
    ensures { result ≡ is_name text.now }
{
    match text {
        [] => false,
        [first, rest @ ..] => starts_name(*first) && is_all(rest, Class::Name),
    }
}

/// A point and a name.
pub fn is_directive(text: &[u8]) -> bool
    ensures { result ≡ is_directive text.now }
{
    match text {
        [b'.', name @ ..] => is_name(name),
        _ => false,
    }
}

/// The register that a text is: `$`, and a number of 0 to 31 without leading zeros or a name.
#[tactic(auto, unfolding(crate::specs::Tokens::register_of))]
pub fn register(text: &[u8]) -> Option<Reg>
    ensures { result ≡ register_of text.now }
{
    let [b'$', rest @ ..] = text else {
        return None;
    };
    match register_numbered(rest) {
        Some(register) => Some(register),
        None => register_named(rest),
    }
}

#[tactic(auto, unfolding(crate::specs::Tokens::natural_of))]
fn register_numbered(digits: &[u8]) -> Option<Reg>
    ensures { result ≡ register_numbered digits.now }
{
    if digits.len() > 1 && digits[0] == b'0' {
        return None;
    }
    let number = natural(10, digits)?;
    if number < 32 {
        Some(Reg::new(number as u32))
    } else {
        None
    }
}
