//! Going over the characters of a text.
ghost use Rattle.std.specs.Prelude.{◌≡◌, ◌≤◌, length, not, ◌==◌};
ghost use Rattle.std.specs.List.{list_all, prefix_len, suffix_len, before_first, after_first};
ghost use Rattle.masm_lines.specs.Characters.{is_blank};
ghost use Rattle.masm_lines.specs.Classes.{class_test};
ghost use Rattle.masm_lines.specs.Tokens as token;

use crate::character::{Class, is_blank};

/// How many of the first characters are in the set.
#[tactic(auto, using(crate::proofs::Fronts::front_steps))]
pub fn front_len(text: &[u8], class: Class) -> usize
    ensures value { result ≡ prefix_len (class_test class) text.now }
    ensures within { result ≤ length text.now }
{
    for i in 0..text.len() {
        if !class.has(text[i]) {
            return i;
        }
    }
    text.len()
}

/// Whether all characters are in the set.
pub fn is_all(text: &[u8], class: Class) -> bool
    ensures { result ≡ list_all (class_test class) text.now }
{
    for c in text {
        if !class.has(*c) {
            return false;
        }
    }
    true
}

/// What stands before the first `c`, or the whole text where there is none.
pub fn before(text: &[u8], c: u8) -> &[u8]
    ensures { result.now ≡ before_first (λ x. x == c) text.now }
{
    &text[..front_len(text, Class::Not(c))]
}

/// What stands behind the first `c`, or nothing where there is none.
#[tactic(auto, using(crate::proofs::Fronts::front_steps))]
pub fn behind(text: &[u8], c: u8) -> &[u8]
    ensures { result.now ≡ after_first (λ x. x == c) text.now }
{
    let front = front_len(text, Class::Not(c));
    if front < text.len() {
        &text[front + 1..]
    } else {
        &[]
    }
}

/// How many of the last characters are blanks or tabs.
#[tactic(auto, using(crate::proofs::Fronts::back_steps))]
fn blanks_at_end(text: &[u8]) -> usize
    ensures value { result ≡ suffix_len is_blank text.now }
    ensures within { result ≤ length text.now }
{
    let mut count = 0;
    while count < text.len() && is_blank(text[text.len() - 1 - count]) {
        count += 1;
    }
    count
}

/// The text without the blanks before it.
#[tactic(auto, unfolding(crate::specs::Tokens::trimmed_start))]
pub fn trimmed_start(text: &[u8]) -> &[u8]
    ensures { result.now ≡ token.trimmed_start text.now }
{
    &text[front_len(text, Class::Blank)..]
}

/// The text without the blanks before it and after it.
#[tactic(auto, unfolding(crate::specs::Tokens::trimmed))]
pub fn trimmed(text: &[u8]) -> &[u8]
    ensures { result.now ≡ token.trimmed text.now }
{
    let rest = trimmed_start(text);
    &rest[..rest.len() - blanks_at_end(rest)]
}
