//! Scripts.
use crate::forms::{
    EVENTS, Form, HEADER, event_words, form_of, has_guest, header_forms, may_be_each, push_item,
};
use crate::words::{Words, quoted};
use std::alloc::{AllocError, Global};

/// What the lines before one have said of the header, and of repeats.
#[derive(Clone, Copy, Debug)]
struct Before {
    frames: bool,
    slots: bool,
    seed: bool,
    guests: u64,
    /// Whether a `repeat` stands before it without its `end`.
    repeats: bool,
}

impl Before {
    /// Whether each line stands that a header must have.
    fn is_whole(self) -> bool {
        self.frames && self.slots && self.seed
    }

    /// Takes a line.
    fn add(&mut self, line: &str) {
        match first_word(line) {
            "frames" => self.frames = true,
            "slots" => self.slots = true,
            "seed" => self.seed = true,
            "guest" => self.guests = self.guests.saturating_add(1),
            "repeat" => self.repeats = true,
            "end" => self.repeats = false,
            _ => {}
        }
    }
}

/// Words for the first line that is refused of a script, counted from 1.
pub fn explain(alloc: Global, script: &str, line: u64) -> Result<Words, AllocError> {
    let passed = line.saturating_sub(1) as usize;
    let before = header_before(script, passed);
    let text = match script.lines().nth(passed) {
        Some(line) => {
            let quoted = quoted(alloc, line.as_bytes())?;
            if before.is_whole() {
                line_text(alloc, first_word(line), &quoted, before)?
            } else {
                lacking_text(alloc, &quoted, before)?
            }
        }
        None if before.is_whole() && before.repeats => {
            String::from_str(alloc, "the script ends here: a repeat lacks its end")?
        }
        None => lacking_text(alloc, "the script ends here", before)?,
    };
    Words::of(alloc, &text)
}

/// What the first lines of a script say of its header.
fn header_before(script: &str, lines: usize) -> Before {
    let mut before = Before {
        frames: false,
        slots: false,
        seed: false,
        guests: 0,
        repeats: false,
    };
    for line in script.lines().take(lines) {
        before.add(line);
    }
    before
}

/// The first word of a line.
fn first_word(line: &str) -> &str {
    match line.split_once(' ') {
        Some((word, _)) => word,
        None => line,
    }
}

/// A line, or the end, where the header is not whole.
fn lacking_text(alloc: Global, place: &str, before: Before) -> Result<String, AllocError> {
    let mut lacking = String::new(alloc);
    if !before.frames {
        push_item(&mut lacking, "frames N")?;
    }
    if !before.slots {
        push_item(&mut lacking, "slots N")?;
    }
    if !before.seed {
        push_item(&mut lacking, "seed N")?;
    }
    let forms = header_forms(alloc)?;
    format!(in alloc;
        "{place}: the header lacks {lacking}; its lines, before the first event, are {forms}"
    )
}

/// A line that begins with this word, behind a whole header.
fn line_text(
    alloc: Global,
    word: &str,
    quoted: &str,
    before: Before,
) -> Result<String, AllocError> {
    if let Some(form) = form_of(&EVENTS, word) {
        return event_text(alloc, form, quoted, before.guests);
    }
    if let Some((_, form, note)) = form_of(&HEADER, word) {
        return format!(in alloc;
            "{quoted}: {form} is a line of the header, which stands {note} and before the first event"
        );
    }
    let words = event_words(alloc)?;
    format!(in alloc; "{quoted}: no line begins so; behind the header stand events: {words}")
}

/// An event whose words are wrong, or whose guest, slot or numbers are not there.
fn event_text(alloc: Global, form: Form, quoted: &str, guests: u64) -> Result<String, AllocError> {
    let (word, form, note) = form;
    let mut text = format!(in alloc; "{quoted}: the form is {form}")?;
    if form.contains(' ') {
        text.push_str(", with one blank between words")?;
    }
    if !note.is_empty() {
        text.push_str("; ")?;
        text.push_str(note)?;
    }
    if has_guest(form) {
        text.push_str("; ")?;
        text.push_str(guests_text(alloc, guests)?.as_str())?;
    }
    if guests > 0 && may_be_each(word) {
        text.push_str(", or * for each guest")?;
    }
    Ok(text)
}

/// Which guests there are.
fn guests_text(alloc: Global, guests: u64) -> Result<String, AllocError> {
    match guests {
        0 => String::from_str(alloc, "the header has no guest"),
        1 => String::from_str(alloc, "G is 0, the header's one guest"),
        _ => {
            let last = guests - 1;
            format!(in alloc; "G is 0 to {last}, the header's guests")
        }
    }
}
