//! Words in lists of bytes.
ghost use Rattle.std.specs.Prelude.{◌≡◌, ℕ, ◌+◌, ◌<◌, ◌≤◌, ◌^◌, ◌⊎◌, List, length};
ghost use Rattle.word32.specs.Words.{word_in, with_word, half_in, with_half};

use byteorder::{ByteOrder, LittleEndian};

/// The word whose lowest byte is at place `i`.
pub fn word_at(bytes: &[u8], i: usize) -> u32
    requires { i + 4 ≤ length bytes.now }
    ensures { result ≡ word_in bytes.now i }
{
    LittleEndian::read_u32(&bytes[i..i + 4])
}

/// Writes a word, its lowest byte at place `i`. The other bytes stay.
pub fn put_word(bytes: &mut [u8], i: usize, word: u32)
    requires { i + 4 ≤ length bytes.old }
    ensures after { bytes.new ≡ with_word bytes.old i word }
    ensures length { length bytes.new ≡ length bytes.old }
{
    LittleEndian::write_u32(&mut bytes[i..i + 4], word);
}

/// The half-word whose lower byte is at place `i`.
pub fn half_at(bytes: &[u8], i: usize) -> u16
    requires { i + 2 ≤ length bytes.now }
    ensures { result ≡ half_in bytes.now i }
{
    LittleEndian::read_u16(&bytes[i..i + 2])
}

/// Writes a half-word, its lower byte at place `i`. The other bytes stay.
pub fn put_half(bytes: &mut [u8], i: usize, half: u16)
    requires { i + 2 ≤ length bytes.old }
    ensures after { bytes.new ≡ with_half bytes.old i half }
    ensures length { length bytes.new ≡ length bytes.old }
{
    LittleEndian::write_u16(&mut bytes[i..i + 2], half);
}

/// A law: a word that was written is the one that is read there.
#[tactic(auto, using(crate::proofs::Written::word_in_with_word))]
pub fn written_word_reads_back()
    ensures { (bytes : List ℕ) (i word : ℕ) → i + 4 ≤ length bytes → word < 2 ^ 32 → word_in (with_word bytes i word) i ≡ word }
{}

/// A law: a write leaves each word that shares no byte with it.
#[tactic(auto, using(crate::proofs::Written::word_in_with_other))]
pub fn other_words_stay()
    ensures { (bytes : List ℕ) (i j word : ℕ) → i + 4 ≤ length bytes → j + 4 ≤ length bytes → (i + 4 ≤ j) ⊎ (j + 4 ≤ i)
        → word_in (with_word bytes i word) j ≡ word_in bytes j }
{}
