//! The bytes that a debugger writes.
ghost use Rattle.std.specs.Prelude.{◌≡◌, ℕ, ◌<◌, ◌≤◌, ◌==◌, List, length, All};

use std::marker::Model;

/// The bytes that a debugger writes at once, at most 65,535 of them. In clauses it is the list of the bytes.
#[derive(Debug, Drop)]
pub struct WriteBytes {
    bytes: Vec<u8>,
}

impl Model for WriteBytes {
    ghost Value = { List ℕ };

    ghost view = { λ w. w.bytes.items };

    ghost invariant = { λ w. length w.bytes.items ≤ 65535 };
}

impl WriteBytes {
    /// These bytes, of which there are at most 65,535.
    pub fn from_vec(bytes: Vec<u8>) -> WriteBytes
        requires { length bytes.items ≤ 65535 }
        ensures { result ≡ bytes.items }
    {
        WriteBytes { bytes }
    }

    /// The bytes, in order: at most 65,535, each below 256.
    pub fn as_slice(&self) -> &[u8]
        ensures value { result.now ≡ self.now }
        ensures few { length self.now ≤ 65535 }
        ensures bytes { All (λ b. b < 256) self.now }
    {
        let bytes = self.bytes.as_slice();
        bytes
    }

    /// How many bytes there are, at most 65,535.
    pub fn len(&self) -> usize
        ensures value { result ≡ length self.now }
        ensures few { result ≤ 65535 }
    {
        self.bytes.len()
    }

    /// Whether there is no byte.
    pub fn is_empty(&self) -> bool
        ensures { result ≡ (length self.now == 0) }
    {
        self.bytes.is_empty()
    }
}
