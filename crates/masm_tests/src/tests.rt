//! Sources with their words and their faults, worked out from the rules.
mod beginnings;
mod corners;
mod data;
mod executables;
mod faults;
mod images;
mod instructions;
mod memory;
mod pseudo;
mod registers;
mod rows;

use masm::{AsmError, assemble_image, listing};
use std::alloc::{AllocError, Global};
use std::fmt::Debug;
use std::process::Abort;

/// A source, and its fault by its number and line; 0 and 0 stand for a source that is taken.
type Verdict = (&'static str, u32, u64);

/// A source and the lines of its image.
type Listed = (&'static str, &'static str);

/// A word and its line.
type Word = (u32, &'static str);

/// Asserts one case. The tests share it, since each assertion in a function's own body makes its proof much longer.
fn expect<C: Debug + Drop, T: PartialEq + Debug + Drop>(
    rt: &impl Abort,
    case: C,
    got: T,
    wanted: T,
) {
    assert!(rt; got == wanted, "{case:?}: {got:?}, not {wanted:?}");
}

/// What a case gives, which is no error.
fn taken<C: Debug + Drop, T, E: Debug + Drop>(rt: &impl Abort, case: C, given: Result<T, E>) -> T {
    match given {
        Ok(value) => value,
        Err(error) => panic!(rt; "{case:?}: {error:?}"),
    }
}

/// A fault's number and its line; 0 and 0 where there is none, and 100 and 0 for want of memory.
fn fault_of<T: Drop>(given: Result<T, AsmError>) -> (u32, u64) {
    match given {
        Ok(_) => (0, 0),
        Err(AsmError::Fault { fault, line }) => (fault.number(), line),
        Err(AsmError::Memory(_)) => (100, 0),
    }
}

/// A source is refused with this fault, by its number, and line; 0 and 0 stand for a source that is taken.
fn verdicts(rt: &(impl Abort + AllocGlobal), rows: &[Verdict]) {
    for (source, kind, line) in rows {
        let found = fault_of(assemble_image(rt.alloc(), source));
        expect(rt, *source, found, (*kind, *line));
    }
}

/// A source is assembled to an image with these lines.
fn is_listed(rt: &(impl Abort + AllocGlobal), source: &str, want: &str) {
    let lines = taken(rt, source, listing(rt.alloc(), source));
    expect(rt, source, lines.as_str(), want);
}

fn listings(rt: &(impl Abort + AllocGlobal), rows: &[Listed]) {
    for (source, want) in rows {
        is_listed(rt, source, want);
    }
}

/// What is printed for a word at 80000000 that has this line.
fn line_of(alloc: Global, word: u32, line: &str) -> Result<String, AllocError> {
    format!(in alloc; "80000000 {word:08x} {line}\n")
}

/// A line at 80000000 is assembled to a word that is printed as the line.
fn word_and_line(rt: &(impl Abort + AllocGlobal), rows: &[Word]) {
    for (word, line) in rows {
        let want = taken(rt, *word, line_of(rt.alloc(), *word, line));
        is_listed(rt, line, want.as_str());
    }
}
