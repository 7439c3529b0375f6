//! Laws of words, numbers and bytes.
ghost use Rattle.std.specs.Prelude.{◌≡◌, ℕ, ◌*◌, ◌<◌, ◌≤◌, ◌^◌, ◌↔◌, List, [], ◌∷◌, ◌++◌, length, Some, slice_index};
ghost use Rattle.std.specs.List.{join_with_byte};
ghost use Rattle.line_words.specs.Words.{blank, words_of, HasNoBlank};
ghost use Rattle.line_words.specs.Numbers.{decimal_of, hexadecimal_of, Writes};
ghost use Rattle.line_words.specs.Bytes.{bytes_of};

/// A law: the words of a line, with a blank between any two, are the line; and words without blanks are the words of the line
/// that they make.
pub fn words_make_the_line()
    ensures joined { (line : List ℕ) → join_with_byte blank (words_of line) ≡ line }
    ensures one { (word : List ℕ) → HasNoBlank word → words_of word ≡ word ∷ [] }
    ensures more { (word rest : List ℕ) → HasNoBlank word → words_of (word ++ blank ∷ rest) ≡ word ∷ words_of rest }
{}

/// A law: which digits are read as which number.
pub fn a_number_is_what_its_digits_write()
    ensures decimal { (text : List ℕ) (n : ℕ) → (decimal_of text ≡ Some n) ↔ (Writes 10 text n × (n < 2 ^ 32)) }
    ensures hexadecimal { (text : List ℕ) (n : ℕ) → (hexadecimal_of text ≡ Some n) ↔ (Writes 16 text n × (length text ≤ 8)) }
{}

/// A law: bytes have two digits each, and there is one at least.
pub fn bytes_have_two_digits_each()
    ensures digits { (text bytes : List ℕ) → bytes_of text ≡ Some bytes → length text ≡ 2 * length bytes }
    ensures some { (text bytes : List ℕ) → bytes_of text ≡ Some bytes → 0 < length bytes }
    ensures bytes { (text bytes : List ℕ) → bytes_of text ≡ Some bytes → (i : ℕ) → slice_index bytes i < 256 }
{}
