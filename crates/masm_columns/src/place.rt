//! Places in a line.
ghost use Rattle.std.specs.Prelude.{◌≡◌, ◌≤◌, length};
ghost use Rattle.std.specs.List.{prefix_len};
ghost use Rattle.masm_columns.specs.Places as spec;

use masm_lines::line_of;

/// A set of characters.
#[derive(Clone, Copy)]
pub enum Class {
    /// Blank and tab.
    Blank,
    /// All but blank and tab.
    NoBlank,
    /// All but one character.
    Not(u8),
    /// ASCII.
    Ascii,
}

impl Class {
    fn has(self, c: u8) -> bool
        ensures { result ≡ spec.has self c }
    {
        match self {
            Class::Blank => c == b' ' || c == b'\t',
            Class::NoBlank => c != b' ' && c != b'\t',
            Class::Not(other) => c != other,
            Class::Ascii => c.is_ascii(),
        }
    }
}

/// How many of the first characters are in the set.
#[tactic(auto, using(crate::proofs::Fronts::front_steps))]
fn front_len(text: &[u8], class: Class) -> usize
    ensures value { result ≡ prefix_len (spec.has class) text.now }
    ensures within { result ≤ length text.now }
{
    for i in 0..text.len() {
        if !class.has(text[i]) {
            return i;
        }
    }
    text.len()
}

/// The first place, from one on, of a character that is not in the set; the end where there is none.
pub fn behind(line: &[u8], from: usize, class: Class) -> usize
    requires { from ≤ length line.now }
    ensures value { result ≡ spec.behind line.now from class }
    ensures after { from ≤ result }
    ensures within { result ≤ length line.now }
{
    from + front_len(&line[from..], class)
}

/// Whether a text is a label, maybe with a statement.
fn has_label(text: &[u8]) -> bool
    ensures { result ≡ spec.has_label text.now }
{
    match line_of(text) {
        Ok(line) => line.label.is_some(),
        Err(_) => false,
    }
}

/// The place of a line's first word behind its label.
pub fn statement(line: &[u8]) -> usize
    ensures value { result ≡ spec.statement line.now }
    ensures within { result ≤ length line.now }
{
    let colon = behind(line, 0, Class::Not(b':'));
    let label = (colon + 1).min(line.len());
    let from = if has_label(&line[..label]) { label } else { 0 };
    behind(line, from, Class::Blank)
}

/// A line without its comment, if no quote stands before that.
pub fn uncommented(line: &[u8]) -> &[u8]
    ensures { result.now ≡ spec.uncommented line.now }
{
    let hash = behind(line, 0, Class::Not(b'#'));
    let quote = behind(line, 0, Class::Not(b'"'));
    if quote < hash { line } else { &line[..hash] }
}
