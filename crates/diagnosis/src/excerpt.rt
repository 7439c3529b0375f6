//! A line of a source as it is shown, with a caret under one of its words.
ghost use Rattle.std.specs.Prelude.{◌≡◌, ◌≤◌, IfOk, None, Some, length, map};
ghost use Rattle.diagnosis.specs.Excerpts as spec;

use crate::words::{Words, printable};
use std::alloc::{AllocError, Global};

/// So many bytes of a line are shown at most, and half of them before the word.
const MOST_SHOWN: usize = 72;

/// Bytes of a line as they are shown: a line, and maybe one with a caret to be written under it.
#[derive(Debug, Drop)]
pub struct Excerpt {
    /// The line, or those of its bytes that are round the word.
    pub line: Words,
    /// Blanks and a caret, where a word is known.
    pub caret: Option<Words>,
}

impl Excerpt {
    /// The beginning of a line.
    pub fn beginning(alloc: Global, line: &[u8]) -> Result<Excerpt, AllocError>
        ensures line { IfOk result (λ e. e.line ≡ spec.excerpt_line line.now 0) }
        ensures caret { IfOk result (λ e. e.caret ≡ None) }
    {
        let text = excerpt_text(alloc, line, 0)?;
        Ok(Excerpt {
            line: Words::of_bytes(alloc, &text)?,
            caret: None,
        })
    }

    /// A line round the word that begins in this column, counted in bytes from 0, with three dots where the line goes on. Tabs are
    /// shown as blanks.
    pub fn around(alloc: Global, line: &[u8], column: usize) -> Result<Excerpt, AllocError>
        requires { column ≤ length line.now }
        ensures line { IfOk result (λ e. e.line ≡ spec.excerpt_line line.now column) }
        ensures caret { IfOk result (λ e. e.caret ≡ Some (spec.excerpt_caret line.now column)) }
    {
        let first = first_shown(line.len(), column);
        let text = excerpt_text(alloc, line, first)?;
        let before = text_before(alloc, line, first, column)?;
        Ok(Excerpt {
            line: Words::of_bytes(alloc, &text)?,
            caret: Some(caret_under(alloc, &before)?),
        })
    }
}

/// The first byte that is shown of a line of some length, round a column.
fn first_shown(size: usize, column: usize) -> usize
    ensures value { result ≡ spec.first_shown size column }
    ensures before { result ≤ column }
    ensures within { result ≤ size }
{
    column
        .saturating_sub(MOST_SHOWN / 2)
        .min(size.saturating_sub(MOST_SHOWN))
}

/// Dots, where a line begins before what is shown of it.
fn dots_before(first: usize) -> &'static [u8]
    ensures { result.now ≡ spec.dots_before first }
{
    if first > 0 { b"..." } else { b"" }
}

/// Dots, where a line goes on behind what is shown of it.
fn dots_behind(size: usize) -> &'static [u8]
    ensures { result.now ≡ spec.dots_behind size }
{
    if size > MOST_SHOWN { b"..." } else { b"" }
}

/// The bytes of a line from one on, as many as are shown, and dots where there are others.
fn excerpt_text(alloc: Global, line: &[u8], first: usize) -> Result<Vec<u8>, AllocError>
    requires { first ≤ length line.now }
    ensures { IfOk result (λ text. text.items ≡ spec.excerpt_text line.now first) }
{
    let rest = &line[first..];
    let mut text = Vec::new(alloc);
    text.extend_from_slice(dots_before(first))?;
    let shown = without_tabs(alloc, &rest[..rest.len().min(MOST_SHOWN)])?;
    text.extend_from_slice(&shown)?;
    text.extend_from_slice(dots_behind(rest.len()))?;
    Ok(text)
}

/// What is shown before a column.
fn text_before(
    alloc: Global,
    line: &[u8],
    first: usize,
    column: usize,
) -> Result<Vec<u8>, AllocError>
    requires first { first ≤ column }
    requires column { column ≤ length line.now }
    ensures { IfOk result (λ text. text.items ≡ spec.text_before line.now first column) }
{
    let mut text = Vec::new(alloc);
    text.extend_from_slice(dots_before(first))?;
    let shown = without_tabs(alloc, &line[first..column])?;
    text.extend_from_slice(&shown)?;
    Ok(text)
}

/// Bytes with a blank for each tab.
fn without_tabs(alloc: Global, bytes: &[u8]) -> Result<Vec<u8>, AllocError>
    ensures { IfOk result (λ text. text.items ≡ map spec.without_tab bytes.now) }
{
    let mut text = Vec::new(alloc);
    for byte in bytes {
        text.push(without_tab(*byte))?;
    }
    Ok(text)
}

fn without_tab(byte: u8) -> u8
    ensures { result ≡ spec.without_tab byte }
{
    if byte == b'\t' { b' ' } else { byte }
}

/// A caret behind as many blanks as characters are shown of bytes.
fn caret_under(alloc: Global, before: &[u8]) -> Result<Words, AllocError>
    ensures { IfOk result (λ caret. caret ≡ spec.caret_under before.now) }
{
    let shown = printable(alloc, before)?;
    Words::caret(alloc, shown.len())
}
