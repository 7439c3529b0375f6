//! What the lines of a script look like.
use std::alloc::{AllocError, Global};

/// A kind of line: the word that it begins with, its words, and what is said of them.
pub type Form = (&'static str, &'static str, &'static str);

/// The lines of the header, in the order in which they are told.
pub static HEADER: [Form; 7] = [
    ("frames", "frames N", "once"),
    ("slots", "slots N", "once"),
    ("seed", "seed N", "once"),
    (
        "guest",
        "guest FILE PAGES SHARES [MIN]",
        "once for each guest",
    ),
    ("admit", "admit", "once at most"),
    (
        "fail",
        "fail read K or fail write K (K at least 1)",
        "once at most",
    ),
    ("profile", "profile N", "once at most"),
];

/// The events.
pub static EVENTS: [Form; 19] = [
    ("step", "step G N", "N is decimal digits, below 4294967296"),
    ("run", "run G N", "N is decimal digits, below 4294967296"),
    (
        "in",
        "in G HEX",
        "HEX is two hexadecimal digits for each byte",
    ),
    ("drain", "drain G", ""),
    (
        "target",
        "target G N",
        "N is at most the pages of the guest",
    ),
    (
        "poke",
        "poke G R W",
        "R is 0 to 37, W is 0x and 1 to 8 hexadecimal digits",
    ),
    (
        "write",
        "write G VA HEX",
        "VA is 0x and 1 to 8 hexadecimal digits, HEX two digits for each of 1 to 1024 bytes",
    ),
    (
        "probe",
        "probe G VA LEN",
        "VA is 0x and 1 to 8 hexadecimal digits, LEN is 1 to 1024",
    ),
    ("fault", "fault G", ""),
    ("scan", "scan G P", "P is the number of a page"),
    ("evict", "evict G P", "P is the number of a page"),
    ("audit", "audit or audit G", ""),
    ("dump", "dump G", ""),
    ("stats", "stats G", ""),
    (
        "damage",
        "damage SLOT BYTE",
        "SLOT is below the number of slots, BYTE is 0 to 4095",
    ),
    ("sample", "sample", ""),
    ("level", "level", ""),
    (
        "repeat",
        "repeat N",
        "N is decimal digits, below 4294967296; an end stands behind the lines, and no other repeat between them",
    ),
    ("end", "end", "it stands behind a repeat"),
];

/// The kind of line that begins with a word.
pub fn form_of(forms: &'static [Form], word: &str) -> Option<Form> {
    forms.iter().find(|form| form.0 == word).copied()
}

/// Whether a line of this form names a guest.
pub fn has_guest(form: &str) -> bool {
    form.split(' ').any(|word| word == "G")
}

/// Whether `*`, which stands for each guest, may be in the place of the guest.
pub fn may_be_each(word: &str) -> bool {
    word == "step" || word == "run"
}

/// The forms of the header's lines.
pub fn header_forms(alloc: Global) -> Result<String, AllocError> {
    let mut text = String::new(alloc);
    for (_, form, _) in &HEADER {
        push_item(&mut text, form)?;
    }
    Ok(text)
}

/// The words that events begin with.
pub fn event_words(alloc: Global) -> Result<String, AllocError> {
    let mut text = String::new(alloc);
    for (word, _, _) in &EVENTS {
        push_item(&mut text, word)?;
    }
    Ok(text)
}

/// Writes an item of a list, behind a comma where it isn't the first.
pub fn push_item(text: &mut String, item: &str) -> Result<(), AllocError> {
    if !text.is_empty() {
        text.push_str(", ")?;
    }
    text.push_str(item)
}
