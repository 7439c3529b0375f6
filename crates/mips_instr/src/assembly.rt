//! Instructions as text.
ghost use Rattle.std.specs.Prelude.{◌≡◌, IfOk, string_bytes};
ghost use Rattle.mips_instr.specs.Text.{instr_text, line};
ghost use Rattle.mips_instr.specs.declared.operand.Operands.TheVariants.{One, Two, Three};

use crate::{Instr, Operand, Operands, mnemonic_of, operands_of};
use std::alloc::{AllocError, Global};

/// An instruction that stands at an address, as a line of assembly language: its name, a blank, and its operands with
/// commas between them. The error comes where memory is refused.
pub fn text(alloc: Global, instr: Instr, address: u32) -> Result<String, AllocError>
    ensures { IfOk result (λ written. string_bytes written ≡ instr_text instr address) }
{
    let operands = operands_of(instr, address);
    line_of(alloc, mnemonic_of(&instr), &operands)
}

fn line_of(alloc: Global, name: &str, operands: &Operands) -> Result<String, AllocError>
    ensures { IfOk result (λ written. string_bytes written ≡ line name.now operands.now) }
{
    match operands {
        Operands::None => String::from_str(alloc, name),
        Operands::One(a) => one(alloc, name, a),
        Operands::Two(a, b) => two(alloc, name, a, b),
        Operands::Three(a, b, c) => three(alloc, name, a, b, c),
    }
}

fn one(alloc: Global, name: &str, a: &Operand) -> Result<String, AllocError>
    ensures { IfOk result (λ written. string_bytes written ≡ line name.now (One a.now)) }
{
    format!(in alloc; "{name} {a}")
}

fn two(alloc: Global, name: &str, a: &Operand, b: &Operand) -> Result<String, AllocError>
    ensures { IfOk result (λ written. string_bytes written ≡ line name.now (Two a.now b.now)) }
{
    format!(in alloc; "{name} {a},{b}")
}

fn three(
    alloc: Global,
    name: &str,
    a: &Operand,
    b: &Operand,
    c: &Operand,
) -> Result<String, AllocError>
    ensures { IfOk result (λ written. string_bytes written ≡ line name.now (Three a.now b.now c.now)) }
{
    format!(in alloc; "{name} {a},{b},{c}")
}
