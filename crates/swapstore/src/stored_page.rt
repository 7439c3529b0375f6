//! A page of a store in memory.
ghost use Rattle.std.specs.Prelude.{◌≡◌, ℕ, ◌<◌, IfOk, OnOk, OnErr, true, false, length};
ghost use Rattle.sha2.specs.Sha256.{sha256};
ghost use Rattle.word32.specs.Zeros.{zeros};
ghost use Rattle.swapstore.specs.Memories.{StoredIs, whole, IsTold, with_inverted};

use crate::digest;
use std::alloc::{AllocError, Global};
use std::marker::Model;

/// The bytes that lie there, and those that were last written where they are others. In clauses it is a record, `StoredIs`.
#[derive(Drop)]
pub(crate) struct StoredPage {
    lies: [u8; 4096],
    last: Option<Box<[u8; 4096]>>,
}

impl Model for StoredPage {
    ghost use Rattle.std.specs.Prelude.{option_map, unwrap_or};
    ghost use Rattle.swapstore.specs.Memories.{StoredIs};

    ghost Value = { StoredIs };

    ghost view = { λ p. record { lies = p.lies; last = unwrap_or (option_map (λ copy. copy.value) p.last) p.lies } };
}

impl StoredPage {
    // A page of zeros.
    #[tactic(auto, unfolding(word32::specs::Zeros::zeros))]
    pub(crate) fn zeroed() -> StoredPage
        ensures { result ≡ whole (zeros 4096) }
    {
        StoredPage {
            lies: [0; 4096],
            last: None,
        }
    }

    // The bytes that lie there.
    pub(crate) fn bytes(&self) -> &[u8]
        ensures bytes { result.now ≡ self.now.lies }
        ensures length { length self.now.lies ≡ 4096 }
    {
        &self.lies
    }

    // These bytes are from then on what was last written, and what lies there.
    pub(crate) fn write(&mut self, bytes: &[u8])
        requires { length bytes.now ≡ 4096 }
        ensures { self.new ≡ whole bytes.now }
    {
        self.lies.copy_from_slice(bytes);
        self.last = None;
    }

    // Inverts all bits of a byte that lies there.
    pub(crate) fn damage(&mut self, alloc: Global, byte: u32) -> Result<(), AllocError>
        requires { byte < 4096 }
        ensures lies { OnOk result (self.new.lies ≡ with_inverted self.old.lies byte) }
        ensures last { self.new.last ≡ self.old.last }
        ensures unchanged { OnErr result (self.new ≡ self.old) }
    {
        if self.last.is_none() {
            self.last = Some(Box::new(alloc, self.lies)?);
        }
        self.lies[byte as usize] = !self.lies[byte as usize];
        Ok(())
    }

    // Whether other bytes lie there than were last written, of the same SHA-256.
    pub(crate) fn is_forged(&self) -> bool
        ensures told { result ≡ false → IsTold self.now }
        ensures same_digest { result ≡ true → sha256 self.now.lies ≡ sha256 self.now.last }
        ensures differs { result ≡ true → self.now.lies ≡ self.now.last → ⊥ }
    {
        match &self.last {
            Some(last) => digest(&self.lies) == digest(&last[..]) && self.lies[..] != last[..],
            None => false,
        }
    }
}
