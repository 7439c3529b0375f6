//! Laws of the lines of a stream.
ghost use Rattle.std.specs.Prelude.{◌≡◌, ℕ, ◌<◌, ◌^◌, ◌↔◌, List, [], ◌++◌, length, Some, Ok};
ghost use Rattle.hex.specs.Hex.{decode_of, encode_lower, IsBytes};
ghost use Rattle.line_words.specs.Numbers.{hexadecimal_of};
ghost use Rattle.debugline.specs.Commands.{Command, command_of};
ghost use Rattle.debugline.specs.Lines.{Line, Text, IsLines, IsRest};
ghost use Rattle.debugline.specs.Replies.{word_digits};
ghost use Rattle.debugline.specs.Rows.{Says};

/// A law: each stream has lines and a rest, and no others. So however it is cut into pieces, its lines and its rest are the
/// same.
pub fn a_stream_has_one_list_of_lines()
    ensures some { (stream : List ℕ) → (lines : List Line) × ((rest : Line) × IsLines stream lines rest) }
    ensures one { (stream : List ℕ) (lines others : List Line) (rest other : Line)
        → IsLines stream lines rest → IsLines stream others other → (lines ≡ others) × (rest ≡ other) }
{}

/// A law: a rest is all of some stream that has no whole line, and what a stream leaves is a rest.
pub fn a_rest_is_what_a_stream_leaves()
    ensures left { (stream : List ℕ) (lines : List Line) (rest : Line) → IsLines stream lines rest → IsRest rest }
    ensures is_left { (rest : Line) → IsRest rest → (stream : List ℕ) × IsLines stream [] rest }
{}

/// A law: a reply of words or bytes can be read again. A word has eight digits, and they are the number that a line would have
/// for it; and the digits of bytes are those that a line would have for them.
pub fn a_reply_can_be_read()
    ensures eight { (word : ℕ) → length (word_digits word) ≡ 8 }
    ensures word { (word : ℕ) → word < 2 ^ 32 → hexadecimal_of (word_digits word) ≡ Some word }
    ensures bytes { (bytes : List ℕ) → IsBytes bytes → decode_of (encode_lower bytes) ≡ Ok bytes }
{}

/// A law: a line is a command exactly where it has the form of the command's row in the table.
pub fn a_line_says_its_row()
    ensures { (line : List ℕ) (command : Command) → (command_of (Text line) ≡ Some command) ↔ Says line command }
{}
