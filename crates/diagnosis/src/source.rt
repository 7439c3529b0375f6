//! Sources.
ghost use Rattle.std.specs.Prelude.{◌≡◌, ◌≤◌, ◌↔◌, IsSome};
ghost use Rattle.std.specs.Result.{result_err};
ghost use Rattle.masm_lines.specs.Grammar as grammar;

use crate::excerpt::Excerpt;
use crate::words::{Words, quoted};
use masm_columns::{operand_column, wrong_column};
use masm_lines::{AsmFault, Line, List, Statement, Value, line_of};
use std::alloc::{AllocError, Global};
use std::collections::BTreeSet;

/// Behind the first fault so many lines are told at most.
const MOST_LATER: usize = 19;

/// What is wrong with a source, by the number of the fault, 1 to 9.
static REASONS: [&str; 9] = [
    "a character that is no ASCII, or a first word that is neither a name nor a directive",
    "no instruction or directive has this name",
    "operands of another number or form than this instruction or directive has",
    "a number out of its range, or a target that is out of reach or no multiple of 4",
    "a name that is no label of the source",
    "an earlier line has this label already",
    "content that may not stand here: a word at no multiple of 4, an address outside 80000000 to 9fffffff, bytes over earlier bytes, or a 65th segment",
    "the source has no content: no instruction and no directive that puts bytes",
    "the entry is no multiple of 4, or lies in no segment: see .entry",
];

/// What is wrong with a source, by the number of its fault.
pub fn reason(number: u32) -> Option<&'static str>
    ensures { IsSome result ↔ ((1 ≤ number) × (number ≤ 9)) }
{
    if number == 0 {
        return None;
    }
    REASONS.get((number - 1) as usize).copied()
}

/// Words for the fault of this number in this line of a source, counted from 1, or in no line where it is 0.
pub fn explain(
    alloc: Global,
    number: u32,
    line: u64,
    source: &[u8],
) -> Result<Option<Words>, AllocError> {
    let Some(reason) = reason(number) else {
        return Ok(None);
    };
    if line == 0 {
        return Ok(Some(Words::of(alloc, reason)?));
    }
    let Some(line) = line_at(source, line) else {
        return Ok(None);
    };
    let line = quoted(alloc, &without_tabs(alloc, line)?)?;
    let text = format!(in alloc; "{reason}: {line}")?;
    Ok(Some(Words::of(alloc, &text)?))
}

/// The line with this number of a source, counted from 1, and a caret under the word that this fault is about, where that is known; none
/// where the source has no such line.
pub fn excerpt_of(
    alloc: Global,
    fault: AsmFault,
    number: u64,
    source: &[u8],
) -> Result<Option<Excerpt>, AllocError> {
    let line = match number {
        0 => None,
        _ => line_at(source, number),
    };
    let Some(line) = line else {
        return Ok(None);
    };
    let found = match fault {
        AsmFault::UnknownName => unknown_column(alloc, line, source)?,
        _ => wrong_column(alloc, line, fault)?,
    };
    let line = line.trim_ascii_end();
    Ok(Some(match found {
        Some(column) => Excerpt::around(alloc, line, column.min(line.len()))?,
        None => Excerpt::beginning(alloc, line)?,
    }))
}

/// The column of the first name in a line that is no label of the source.
fn unknown_column(alloc: Global, line: &[u8], source: &[u8]) -> Result<Option<usize>, AllocError> {
    match line_of(line) {
        Ok(
            Line {
                statement: Some(Statement::Words(list)),
                ..
            },
        ) => {
            let number = first_unknown(alloc, list, source)?;
            Ok(Some(operand_column(line, number)))
        }
        _ => wrong_column(alloc, line, AsmFault::UnknownName),
    }
}

/// The number of the first element of a list, counted from 0, that is a name and no label of the source.
fn first_unknown(alloc: Global, list: List<'_>, source: &[u8]) -> Result<usize, AllocError> {
    let labels = labels_of(alloc, source)?;
    let mut rest = Some(list);
    for number in 0..list.count() {
        if let Some(list) = rest {
            let (value, others) = list.split();
            if is_unknown(&labels, &value) {
                return Ok(number as usize);
            }
            rest = others;
        }
    }
    Ok(list.count() as usize)
}

fn is_unknown(labels: &BTreeSet<Vec<u8>>, value: &Value<'_>) -> bool {
    match value {
        Value::Name(name) => !labels.contains(*name),
        Value::Number(_) => false,
    }
}

/// The labels of a source.
fn labels_of(alloc: Global, source: &[u8]) -> Result<BTreeSet<Vec<u8>>, AllocError> {
    let text = String::from_utf8_lossy(alloc, source)?;
    let mut labels = BTreeSet::new(alloc);
    for line in text.lines() {
        if let Ok(
            Line {
                label: Some(name),
                ..
            },
        ) = line_of(line.as_bytes())
        {
            labels.insert(Vec::from_slice(alloc, name)?)?;
        }
    }
    Ok(labels)
}

/// The fault that a line has by itself, whatever the other lines are.
fn own_fault(line: &[u8]) -> Option<AsmFault>
    ensures { result ≡ result_err (grammar.line_of line.now) }
{
    match line_of(line) {
        Ok(_) => None,
        Err(fault) => Some(fault),
    }
}

/// Words for the lines behind this one, counted from 1, that are wrong by themselves: for each of the first of them, and at the
/// end how many more there are. What is wrong with a line only because of others isn't told: it may follow from their faults.
pub fn explain_later(alloc: Global, line: u64, source: &[u8]) -> Result<Vec<Words>, AllocError> {
    let text = String::from_utf8_lossy(alloc, source)?;
    let mut told = Vec::new(alloc);
    let (mut number, mut untold) = (0u64, 0u64);
    for later in text.lines() {
        number = number.saturating_add(1);
        let found = if number > line {
            own_fault(later.as_bytes())
        } else {
            None
        };
        if let Some(fault) = found {
            if told.len() < MOST_LATER {
                told.push(line_words(alloc, number, fault, source)?)?;
            } else {
                untold = untold.saturating_add(1);
            }
        }
    }
    if untold > 0 {
        let text = if untold == 1 {
            format!(in alloc; "and 1 more line is wrong")?
        } else {
            format!(in alloc; "and {untold} more lines are wrong")?
        };
        told.push(Words::of(alloc, &text)?)?;
    }
    Ok(told)
}

/// Words for a fault of the line with this number of a source.
fn line_words(
    alloc: Global,
    number: u64,
    fault: AsmFault,
    source: &[u8],
) -> Result<Words, AllocError> {
    let reason = reason(fault.number()).unwrap_or("");
    let line = line_at(source, number).unwrap_or(&[]);
    let line = quoted(alloc, &without_tabs(alloc, line)?)?;
    let text = format!(in alloc; "line {number}: {reason}: {line}")?;
    Words::of(alloc, &text)
}

/// A line without blanks at its ends, and a blank for each tab, which means the same.
fn without_tabs(alloc: Global, line: &[u8]) -> Result<Vec<u8>, AllocError> {
    line.trim_ascii()
        .iter()
        .map(|byte| if *byte == b'\t' { b' ' } else { *byte })
        .collect(alloc)
}

/// The line of a text with this number, counted from 1, without the line feed that ends it and a carriage return before that.
fn line_at(text: &[u8], number: u64) -> Option<&[u8]> {
    let mut rest = text;
    for _ in 1..number {
        let end = rest.iter().position(|byte| *byte == b'\n')?;
        rest = &rest[end + 1..];
    }
    match rest.iter().position(|byte| *byte == b'\n') {
        Some(end) => Some(without_return(&rest[..end])),
        None => Some(rest),
    }
}

fn without_return(line: &[u8]) -> &[u8] {
    match line {
        [before @ .., b'\r'] => before,
        _ => line,
    }
}
