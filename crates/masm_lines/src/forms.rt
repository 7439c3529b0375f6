//! The forms of operands.
ghost use Rattle.std.specs.Prelude.{◌≡◌};
ghost use Rattle.masm_lines.specs.Instructions.{has_form, have_forms, is_well_formed};
ghost use Rattle.masm_lines.specs.Views.{arguments_view, written_view};

use crate::argument::Arguments;
use crate::written::Written;
use mips_instr::{Instr, Operand, Operands, operands_of};

/// Whether an operand is written in the form in which it is printed. Where an address is printed, a name may stand too.
fn has_form(printed: &Operand, written: &Written) -> bool
    ensures { result ≡ has_form printed.now (written_view written.now) }
{
    match (printed, written) {
        (Operand::Register(_), Written::Register(_)) => true,
        (Operand::Number(_) | Operand::Half(_), Written::Number(_)) => true,
        (Operand::Word(_), Written::Number(_) | Written::Name(_)) => true,
        (Operand::Based(_, _), Written::Based(_, _)) => true,
        _ => false,
    }
}

fn have_forms(printed: &Operands, written: &Arguments) -> bool
    ensures { result ≡ have_forms printed.now (arguments_view written.now) }
{
    match (printed, written) {
        (Operands::None, Arguments::None) => true,
        (Operands::One(a), Arguments::One(x)) => has_form(a, x),
        (Operands::Two(a, b), Arguments::Two(x, y)) => has_form(a, x) && has_form(b, y),
        (Operands::Three(a, b, c), Arguments::Three(x, y, z)) => {
            has_form(a, x) && has_form(b, y) && has_form(c, z)
        }
        _ => false,
    }
}

/// Whether the operands that are written are those of the instruction by their number and forms.
pub fn is_well_formed(blank: &Instr, written: &Arguments) -> bool
    ensures { result ≡ is_well_formed blank.now (arguments_view written.now) }
{
    have_forms(&operands_of(*blank, 0), written)
}
