//! Columns.
ghost use Rattle.std.specs.Prelude.{◌≡◌, ◌≤◌, IfOk, IfSome, length};
ghost use Rattle.masm_columns.specs.Columns as spec;

use crate::goes_on::{goes_on, is_line};
use crate::place::{Class, behind, statement, uncommented};
use masm_lines::AsmFault;
use std::alloc::{AllocError, Global};

/// So many operands of a line are looked at.
const MOST_OPERANDS: u32 = 64;

/// The column where the word begins that a fault of this line is about: the first character that is no ASCII, the label, the mnemonic or
/// directive, or an operand. It is the mnemonic's where an operand is missing, and the last operand's for a target or a name that no line
/// has. None where the fault is of no line, or more than 64 operands stand up to the wrong one.
pub fn wrong_column(
    alloc: Global,
    line: &[u8],
    fault: AsmFault,
) -> Result<Option<usize>, AllocError>
    ensures value { IfOk result (λ found. found ≡ spec.wrong_column line.now fault) }
    ensures within { IfOk result (λ found. IfSome found (λ column. column ≤ length line.now)) }
{
    match fault {
        AsmFault::Syntax => Ok(Some(syntax_column(line))),
        AsmFault::Mnemonic | AsmFault::Place => Ok(Some(statement(line))),
        AsmFault::DoubleName => Ok(Some(behind(line, 0, Class::Blank))),
        AsmFault::Operand => misfit_column(alloc, uncommented(line)),
        AsmFault::Range => range_column(alloc, uncommented(line)),
        AsmFault::UnknownName => Ok(Some(operand_column(line, line.len()))),
        AsmFault::Empty | AsmFault::Entry => Ok(None),
    }
}

/// The column of the operand of a number, counted from 0, of this line; of the last one where there are not so many, and the end where
/// there is none.
pub fn operand_column(line: &[u8], number: usize) -> usize
    ensures value { result ≡ spec.operand_column line.now number }
    ensures within { result ≤ length line.now }
{
    let line = uncommented(line);
    behind(
        line,
        operand_from(line, operands(line), number),
        Class::Blank,
    )
}

fn syntax_column(line: &[u8]) -> usize
    ensures value { result ≡ spec.syntax_column line.now }
    ensures within { result ≤ length line.now }
{
    let ascii = behind(line, 0, Class::Ascii);
    if ascii < line.len() {
        ascii
    } else {
        statement(line)
    }
}

/// The column of the first operand with which a line can't be gone on with, or of the mnemonic where an operand is missing.
fn misfit_column(alloc: Global, line: &[u8]) -> Result<Option<usize>, AllocError>
    ensures value { IfOk result (λ found. found ≡ spec.misfit_column line.now) }
    ensures within { IfOk result (λ found. IfSome found (λ column. column ≤ length line.now)) }
{
    let from = operands(line);
    if behind(line, from, Class::Blank) == line.len() || goes_on(alloc, line)? {
        return Ok(Some(statement(line)));
    }
    let found = misfit_from(alloc, line, from)?;
    Ok(word_column(line, found))
}

/// The column of the first operand with which a line can't be gone on with, or of the last one of a line by itself.
fn range_column(alloc: Global, line: &[u8]) -> Result<Option<usize>, AllocError>
    ensures value { IfOk result (λ found. found ≡ spec.range_column line.now) }
    ensures within { IfOk result (λ found. IfSome found (λ column. column ≤ length line.now)) }
{
    if is_line(line) {
        return Ok(Some(operand_column(line, line.len())));
    }
    let found = misfit_from(alloc, line, operands(line))?;
    Ok(word_column(line, found))
}

/// The column of the word at a place, behind blanks.
fn word_column(line: &[u8], found: Option<usize>) -> Option<usize>
    requires { IfSome found (λ place. place ≤ length line.now) }
    ensures value { result ≡ spec.word_column line.now found }
    ensures within { IfSome result (λ column. column ≤ length line.now) }
{
    match found {
        Some(place) => Some(behind(line, place, Class::Blank)),
        None => None,
    }
}

/// The place behind a line's mnemonic or directive.
fn operands(line: &[u8]) -> usize
    ensures value { result ≡ spec.operands line.now }
    ensures within { result ≤ length line.now }
{
    behind(line, statement(line), Class::NoBlank)
}

/// The place of the operand, so many behind the one of a place, or of the last one.
#[tactic(auto, using(crate::proofs::Steps::operand_steps))]
fn operand_from(line: &[u8], from: usize, number: usize) -> usize
    requires { from ≤ length line.now }
    ensures value { result ≡ spec.operand_from number line.now from }
    ensures within { result ≤ length line.now }
{
    let mut place = from;
    let mut left = number;
    while left > 0 {
        let comma = behind(line, place, Class::Not(b','));
        if comma >= line.len() {
            return place;
        }
        place = comma + 1;
        left -= 1;
    }
    place
}

/// The place of the first operand with which a line can't be gone on with, of those from one on that are looked at.
#[tactic(auto, using(crate::proofs::Steps::misfit_steps))]
fn misfit_from(alloc: Global, line: &[u8], from: usize) -> Result<Option<usize>, AllocError>
    requires { from ≤ length line.now }
    ensures value { IfOk result (λ found. found ≡ spec.misfit_from 64 line.now from) }
    ensures within { IfOk result (λ found. IfSome found (λ place. place ≤ length line.now)) }
{
    let mut place = from;
    let mut left = MOST_OPERANDS;
    while left > 0 {
        let comma = behind(line, place, Class::Not(b','));
        if !goes_on(alloc, &line[..comma])? {
            return Ok(Some(place));
        }
        if comma >= line.len() {
            return Ok(None);
        }
        place = comma + 1;
        left -= 1;
    }
    Ok(None)
}
