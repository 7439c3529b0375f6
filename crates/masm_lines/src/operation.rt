//! What the first word of a statement names.
ghost use Rattle.std.specs.Prelude.{◌≡◌, bytes_eq};
ghost use Rattle.masm_lines.specs.Operations as spec;

use crate::AsmFault;
use crate::element::Element;
use crate::pseudo::{Pseudo, named_pseudo};
use crate::token::{is_directive, is_name};
use masm_names::named_instruction;
use mips_instr::Instr;

/// A directive.
#[derive(Clone, Copy)]
pub enum Directive {
    /// Begins a segment at an address.
    Org,
    /// Puts words, or the addresses of names.
    Word,
    /// Puts half-words.
    Half,
    /// Puts bytes.
    Byte,
    /// Puts a text in quotes.
    Ascii,
    /// Puts a text in quotes, and a zero behind it.
    Asciiz,
    /// Puts zeros.
    Space,
    /// Says where the program starts.
    Entry,
}

/// An instruction with all operands 0, another name for one, or a directive.
#[derive(Clone, Copy)]
pub enum Operation {
    Instruction(Instr),
    Pseudo(Pseudo),
    Directive(Directive),
}

/// How the operands of an operation are read.
#[derive(Clone, Copy)]
pub enum OperandForm {
    /// As elements of a list, of any number.
    List(Element),
    /// As a text in quotes, with a zero behind it or not.
    Text { zero: bool },
    /// One by one, up to three.
    Separate,
}

impl Operation {
    /// How the operands in a text are read.
    pub fn operands(&self, text: &[u8]) -> OperandForm
        ensures { result ≡ spec.operand_form self.now text.now }
    {
        let Operation::Directive(directive) = *self else {
            return OperandForm::Separate;
        };
        match directive {
            Directive::Word if text.contains(&b',') => OperandForm::List(Element::Word),
            Directive::Half => OperandForm::List(Element::Half),
            Directive::Byte if text.contains(&b',') => OperandForm::List(Element::Byte),
            Directive::Ascii => OperandForm::Text { zero: false },
            Directive::Asciiz => OperandForm::Text { zero: true },
            _ => OperandForm::Separate,
        }
    }
}

impl Directive {
    /// Its name, with the point.
    fn name(self) -> &'static str
        ensures { result.now ≡ spec.directive_name self }
    {
        match self {
            Directive::Org => ".org",
            Directive::Word => ".word",
            Directive::Half => ".half",
            Directive::Byte => ".byte",
            Directive::Ascii => ".ascii",
            Directive::Asciiz => ".asciiz",
            Directive::Space => ".space",
            Directive::Entry => ".entry",
        }
    }

    /// Whether this is its name.
    fn is_named(self, name: &[u8]) -> bool
        ensures { result ≡ bytes_eq (spec.directive_name self) name.now }
    {
        self.name().as_bytes() == name
    }
}

/// The directive of a name.
#[tactic(auto, unfolding(crate::specs::Operations::named_directive))]
fn named_directive(name: &[u8]) -> Option<Directive>
    ensures { result ≡ spec.named_directive name.now }
{
    if Directive::Org.is_named(name) {
        Some(Directive::Org)
    } else if Directive::Word.is_named(name) {
        Some(Directive::Word)
    } else if Directive::Half.is_named(name) {
        Some(Directive::Half)
    } else if Directive::Byte.is_named(name) {
        Some(Directive::Byte)
    } else if Directive::Ascii.is_named(name) {
        Some(Directive::Ascii)
    } else if Directive::Asciiz.is_named(name) {
        Some(Directive::Asciiz)
    } else if Directive::Space.is_named(name) {
        Some(Directive::Space)
    } else if Directive::Entry.is_named(name) {
        Some(Directive::Entry)
    } else {
        None
    }
}

/// What a word names, or the fault that it is no token or names nothing.
#[tactic(auto, unfolding(crate::specs::Operations::operation_of))]
pub fn operation_of(word: &[u8]) -> Result<Operation, AsmFault>
    ensures { result ≡ spec.operation_of word.now }
{
    if is_name(word) {
        if let Some(instr) = named_instruction(word) {
            return Ok(Operation::Instruction(instr));
        }
        let pseudo = named_pseudo(word).ok_or(AsmFault::Mnemonic)?;
        Ok(Operation::Pseudo(pseudo))
    } else if is_directive(word) {
        let directive = named_directive(word).ok_or(AsmFault::Mnemonic)?;
        Ok(Operation::Directive(directive))
    } else {
        Err(AsmFault::Syntax)
    }
}
