//! Statements.
ghost use Rattle.std.specs.Prelude.{◌≡◌};
ghost use Rattle.std.specs.Result.{result_map_both};
ghost use Rattle.masm_lines.specs.Operations as spec;
ghost use Rattle.masm_lines.specs.Statements.{size_of, alignment_of};
ghost use Rattle.masm_lines.specs.Instructions.{written_target};
ghost use Rattle.masm_lines.specs.Views.{arguments_view, statement_view};

use crate::AsmFault;
use crate::argument::{Arguments, arguments_in};
use crate::elements::list_statement;
use crate::forms::is_well_formed;
use crate::list::List;
use crate::operands::{with_operands, written_target};
use crate::operation::{Directive, OperandForm, Operation};
use crate::pseudo::pseudo_statement;
use crate::quoted::text_statement;
use crate::range::{address_bits, byte_bits, word_bits};
use crate::text::Text;
use crate::written::{Value, Written};
use mips_instr::{Instr, Reg};

/// An instruction or a directive with its operands, in which names still stand for addresses.
#[derive(Drop)]
pub enum Statement<'a> {
    /// An instruction without a target.
    Instruction(Instr),
    /// A branch or a jump, whose target is still 0, and where it is to lead.
    Transfer(Instr, i64),
    /// The same, to a name.
    TransferTo(Instr, &'a [u8]),
    /// A number in a register, by LUI and ORI.
    Load(Reg, i64),
    /// The address of a name in a register, by LUI and ORI.
    LoadOf(Reg, &'a [u8]),
    /// A word.
    Word(u32),
    /// A word that is the address of a name.
    AddressOf(&'a [u8]),
    /// Words, each a number or the address of a name.
    Words(List<'a>),
    /// A byte.
    Byte(u8),
    /// Half-words.
    Halves(List<'a>),
    /// Bytes.
    Bytes(List<'a>),
    /// The bytes of a text, with a zero behind them or not.
    Text(Text<'a>, bool),
    /// Zeros, this many.
    Space(u32),
    /// A new segment at this address.
    Org(u32),
    /// The name of the entry.
    Entry(&'a [u8]),
}

impl Statement<'_> {
    /// How many bytes it puts at its place.
    pub fn size(&self) -> u32
        ensures { result ≡ size_of (statement_view self.now) }
    {
        match *self {
            Statement::Instruction(_)
            | Statement::Transfer(_, _)
            | Statement::TransferTo(_, _)
            | Statement::Word(_)
            | Statement::AddressOf(_) => 4,
            Statement::Load(_, _) | Statement::LoadOf(_, _) => 8,
            Statement::Words(list) => list.count() * 4,
            Statement::Byte(_) => 1,
            Statement::Halves(list) => list.count() * 2,
            Statement::Bytes(list) => list.count(),
            Statement::Text(text, zero) => text.len() + u32::from(zero),
            Statement::Space(count) => count,
            Statement::Org(_) | Statement::Entry(_) => 0,
        }
    }

    /// The address where it stands is a multiple of this.
    pub fn alignment(&self) -> u32
        ensures { result ≡ alignment_of (statement_view self.now) }
    {
        match *self {
            Statement::Instruction(_)
            | Statement::Transfer(_, _)
            | Statement::TransferTo(_, _)
            | Statement::Word(_)
            | Statement::Load(_, _)
            | Statement::LoadOf(_, _)
            | Statement::AddressOf(_)
            | Statement::Words(_) => 4,
            Statement::Halves(_) => 2,
            _ => 1,
        }
    }
}

/// The statement of an operation with the text behind it, or its fault.
#[tactic(auto, unfolding(crate::specs::Operations::statement_with))]
pub fn statement_with(operation: Operation, text: &[u8]) -> Result<Statement<'_>, AsmFault>
    ensures { result_map_both statement_view (λ f. f) result ≡ spec.statement_with operation text.now }
{
    match operation.operands(text) {
        OperandForm::List(element) => list_statement(element, text),
        OperandForm::Text { zero } => text_statement(zero, text),
        OperandForm::Separate => with_arguments(operation, text),
    }
}

/// The statement of an operation with the operands in a text, or its fault.
fn with_arguments(operation: Operation, text: &[u8]) -> Result<Statement<'_>, AsmFault>
    ensures { result_map_both statement_view (λ f. f) result ≡ spec.with_operands_in operation text.now }
{
    match arguments_in(text) {
        Err(fault) => Err(fault),
        Ok(written) => statement_of(operation, &written),
    }
}

/// The statement of an operation with its operands, or its fault: the form of each operand comes before the range of any.
fn statement_of<'a>(
    operation: Operation,
    written: &Arguments<'a>,
) -> Result<Statement<'a>, AsmFault>
    ensures { result_map_both statement_view (λ f. f) result ≡ spec.statement_of operation (arguments_view written.now) }
{
    match operation {
        Operation::Instruction(blank) => instruction(&blank, written),
        Operation::Pseudo(pseudo) => pseudo_statement(pseudo, written),
        Operation::Directive(directive) => directive_statement(directive, written),
    }
}

#[tactic(auto, unfolding(crate::specs::Operations::instruction_statement))]
fn instruction<'a>(blank: &Instr, written: &Arguments<'a>) -> Result<Statement<'a>, AsmFault>
    ensures { result_map_both statement_view (λ f. f) result ≡ spec.instruction_statement blank.now (arguments_view written.now) }
{
    if !is_well_formed(blank, written) {
        return Err(AsmFault::Operand);
    }
    match with_operands(blank, written) {
        Err(fault) => Err(fault),
        Ok(instr) => Ok(with_target(blank, instr, written)),
    }
}

/// An instruction, with its target where it has one.
fn with_target<'a>(blank: &Instr, instr: Instr, written: &Arguments<'a>) -> Statement<'a>
    ensures { statement_view result ≡ spec.with_target instr (written_target blank.now (arguments_view written.now)) }
{
    match written_target(blank, written) {
        None => Statement::Instruction(instr),
        Some(Value::Number(number)) => Statement::Transfer(instr, number),
        Some(Value::Name(name)) => Statement::TransferTo(instr, name),
    }
}

#[tactic(auto, unfolding(crate::specs::Operations::directive_statement))]
fn directive_statement<'a>(
    directive: Directive,
    written: &Arguments<'a>,
) -> Result<Statement<'a>, AsmFault>
    ensures { result_map_both statement_view (λ f. f) result ≡ spec.directive_statement directive (arguments_view written.now) }
{
    let Arguments::One(operand) = written else {
        return Err(AsmFault::Operand);
    };
    match (directive, operand) {
        (Directive::Org, Written::Number(n)) => Ok(Statement::Org(address_bits(*n)?)),
        (Directive::Word, Written::Number(n)) => Ok(Statement::Word(word_bits(*n)?)),
        (Directive::Word, Written::Name(name)) => Ok(Statement::AddressOf(name)),
        (Directive::Byte, Written::Number(n)) => Ok(Statement::Byte(byte_bits(*n)?)),
        (Directive::Space, Written::Number(n)) => Ok(Statement::Space(address_bits(*n)?)),
        (Directive::Entry, Written::Name(name)) => Ok(Statement::Entry(name)),
        _ => Err(AsmFault::Operand),
    }
}
