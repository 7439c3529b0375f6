//! What a store's bytes lie on.
ghost use Rattle.std.specs.Prelude.{◌≡◌, ℕ, ◌+◌, ◌<◌, ◌≤◌, Option, Some, None, OnOk, length, slice_index, nat_le, is_ok, is_some, OnErr, IfSome};

use std::fs::File;
use std::io;
use std::os::unix::fs::FileExt;

/// Bytes at places, to be read and written: a file, or memory that stands for one.
///
/// What it promises, it promises of bytes that are known, and no call changes whether they are.
pub trait Medium {
    /// The byte at each place; None of a medium of which nothing is known.
    ghost byte_at: { Self → Option (ℕ → ℕ) };

    /// Reads the bytes from a place on, as many as there is room for. Where it fails, it is open what is in `bytes`.
    fn read_from(&mut self, place: u64, bytes: &mut [u8]) -> io::Result<()>
        ensures gives { OnOk result ((old : ℕ → ℕ) → byte_at self.old ≡ Some old → (i : ℕ) → i < length bytes.new → slice_index bytes.new i ≡ old (place + i)) }
        ensures bytes { (old new : ℕ → ℕ) → byte_at self.old ≡ Some old → byte_at self.new ≡ Some new → (any : ℕ) → new any ≡ old any }
        ensures known { is_some (byte_at self.new) ≡ is_some (byte_at self.old) };

    /// Writes bytes from a place on. Where it fails, it is open which bytes are there; the others stay.
    fn write_from(&mut self, place: u64, bytes: &[u8]) -> io::Result<()>
        ensures written { OnOk result ((new : ℕ → ℕ) → byte_at self.new ≡ Some new → (i : ℕ) → i < length bytes.now → new (place + i) ≡ slice_index bytes.now i) }
        ensures before { (old new : ℕ → ℕ) → byte_at self.old ≡ Some old → byte_at self.new ≡ Some new → (any : ℕ) → any < place → new any ≡ old any }
        ensures after { (old new : ℕ → ℕ) → byte_at self.old ≡ Some old → byte_at self.new ≡ Some new → (any : ℕ) → place + length bytes.now ≤ any → new any ≡ old any }
        ensures known { is_some (byte_at self.new) ≡ is_some (byte_at self.old) };
}

/// A file, of which nothing is known: no clause of the system says that it keeps what is written.
impl Medium for File {
    ghost byte_at = { λ _. None };

    fn read_from(&mut self, place: u64, bytes: &mut [u8]) -> io::Result<()> {
        self.read_exact_at(bytes, place)
    }

    fn write_from(&mut self, place: u64, bytes: &[u8]) -> io::Result<()> {
        self.write_all_at(bytes, place)
    }
}

/// Memory, which keeps what is written. A read or a write fails exactly where it reaches past the end, and then changes
/// nothing.
impl Medium for Vec<u8> {
    ghost byte_at = { λ memory. Some (λ place. slice_index memory.items place) };

    fn read_from(&mut self, place: u64, bytes: &mut [u8]) -> io::Result<()>
        ensures fits { is_ok result ≡ nat_le (place + length bytes.old) (length self.old.items) }
        ensures gives { OnOk result ((i : ℕ) → i < length bytes.new → slice_index bytes.new i ≡ slice_index self.old.items (place + i)) }
        ensures unread { OnErr result (bytes.new ≡ bytes.old) }
        ensures memory { self.new.items ≡ self.old.items }
    {
        match inside(self.len(), place, bytes.len()) {
            Some(start) => {
                bytes.copy_from_slice(&self[start..start + bytes.len()]);
                Ok(())
            }
            None => Err(io::ErrorKind::UnexpectedEof.into()),
        }
    }

    fn write_from(&mut self, place: u64, bytes: &[u8]) -> io::Result<()>
        ensures fits { is_ok result ≡ nat_le (place + length bytes.now) (length self.old.items) }
        ensures written { OnOk result ((i : ℕ) → i < length bytes.now → slice_index self.new.items (place + i) ≡ slice_index bytes.now i) }
        ensures before { (any : ℕ) → any < place → slice_index self.new.items any ≡ slice_index self.old.items any }
        ensures after { (any : ℕ) → place + length bytes.now ≤ any → slice_index self.new.items any ≡ slice_index self.old.items any }
        ensures length { length self.new.items ≡ length self.old.items }
        ensures unwritten { OnErr result (self.new.items ≡ self.old.items) }
    {
        match inside(self.len(), place, bytes.len()) {
            Some(start) => {
                self[start..start + bytes.len()].copy_from_slice(bytes);
                Ok(())
            }
            None => Err(io::ErrorKind::WriteZero.into()),
        }
    }
}

// A place as an index, where so many bytes from there on are within a length.
fn inside(length: usize, place: u64, count: usize) -> Option<usize>
    ensures fits { is_some result ≡ nat_le (place + count) length }
    ensures index { IfSome result (λ start. start ≡ place) }
{
    let start = place as usize;
    if count <= length && start <= length - count {
        Some(start)
    } else {
        None
    }
}
