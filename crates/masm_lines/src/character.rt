//! The characters of the language, as bytes.
ghost use Rattle.std.specs.Prelude.{◌≡◌, not, ◌==◌};
ghost use Rattle.masm_lines.specs.Characters.{is_blank, starts_name, continues_name};
ghost use Rattle.masm_lines.specs.Classes.{class_test};

/// A set of characters.
#[derive(Clone, Copy)]
pub enum Class {
    /// Blank and tab.
    Blank,
    /// All but blank and tab.
    NoBlank,
    /// What a name goes on with.
    Name,
    /// All but one character.
    Not(u8),
    /// ASCII.
    Ascii,
}

impl Class {
    /// Whether a character is in the set.
    pub fn has(self, c: u8) -> bool
        ensures { result ≡ class_test self c }
    {
        match self {
            Class::Blank => is_blank(c),
            Class::NoBlank => !is_blank(c),
            Class::Name => continues_name(c),
            Class::Not(other) => c != other,
            Class::Ascii => c.is_ascii(),
        }
    }
}

/// A blank or a tab.
pub fn is_blank(c: u8) -> bool
    ensures { result ≡ is_blank c }
{
    c == b' ' || c == b'\t'
}

/// A letter or `_`.
pub fn starts_name(c: u8) -> bool
    ensures { result ≡ starts_name c }
{
    c.is_ascii_alphabetic() || c == b'_'
}

/// A letter, a digit or `_`.
pub fn continues_name(c: u8) -> bool
    ensures { result ≡ continues_name c }
{
    c.is_ascii_alphanumeric() || c == b'_'
}
