//! Comments.
ghost use Rattle.std.specs.Prelude.{◌≡◌, ◌≤◌, length};
ghost use Rattle.masm_lines.specs.Comments.{place_behind, is_comment_at, uncommented};
ghost use Rattle.masm_lines.specs.declared.comment.Place.TheVariants.{Plain};

/// Where a character of a line stands.
#[derive(Clone, Copy)]
pub enum Place {
    /// In no text in quotes.
    Plain,
    /// In a text in quotes.
    Quoted,
    /// There, behind a backslash.
    Escaped,
}

impl Place {
    /// Where the character behind this one stands.
    fn behind(self, c: u8) -> Place
        ensures { result ≡ place_behind self c }
    {
        match self {
            Place::Plain if c == b'"' => Place::Quoted,
            Place::Plain => Place::Plain,
            Place::Quoted if c == b'\\' => Place::Escaped,
            Place::Quoted if c == b'"' => Place::Plain,
            Place::Quoted | Place::Escaped => Place::Quoted,
        }
    }

    /// Whether a comment begins with this character.
    fn is_comment(self, c: u8) -> bool
        ensures { result ≡ is_comment_at self c }
    {
        match self {
            Place::Plain => c == b'#',
            Place::Quoted | Place::Escaped => false,
        }
    }
}

/// How many characters of a line stand before its comment.
pub fn uncommented_len(line: &[u8]) -> usize
    ensures value { result ≡ uncommented Plain line.now }
    ensures within { result ≤ length line.now }
{
    let mut place = Place::Plain;
    for i in 0..line.len() {
        if place.is_comment(line[i]) {
            return i;
        }
        place = place.behind(line[i]);
    }
    line.len()
}
