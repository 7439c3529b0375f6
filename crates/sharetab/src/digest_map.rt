//! What is kept for some digests.
ghost use Rattle.std.specs.Prelude.{◌≡◌, ℕ, List, Some, None, OnOk, OnErr};
ghost use Rattle.sharetab.specs.Maps.{at_digest};

use std::alloc::{AllocError, Global};
use std::collections::HashMap;
use std::marker::Model;

/// A value for each of some digests. In clauses it is a list of pairs, read by `at_digest`.
#[derive(Drop)]
pub struct DigestMap<T: Copy> {
    map: HashMap<[u8; 32], T>,
}

impl<T: Copy> Model for DigestMap<T> {
    ghost use Rattle.std.specs.Prelude.{ℕ, List};

    ghost Value = { List (List ℕ × T) };

    ghost view = { λ m. m.map.entries };
}

impl<T: Copy> DigestMap<T> {
    /// A map with nothing in it.
    pub fn new(alloc: Global) -> DigestMap<T>
        ensures { (digest : List ℕ) → at_digest result digest ≡ None }
    {
        DigestMap {
            map: HashMap::new(alloc),
        }
    }

    /// What is kept for a digest.
    pub fn find(&self, digest: &[u8; 32]) -> Option<T>
        ensures { result ≡ at_digest self.now digest.now }
    {
        self.map.get(digest).copied()
    }

    /// Keeps a value for a digest, in place of the one that was kept.
    pub fn put(&mut self, digest: &[u8; 32], value: T) -> Result<(), AllocError>
        ensures here { OnOk result (at_digest self.new digest.now ≡ Some value) }
        ensures others { OnOk result ((other : List ℕ) → (other ≡ digest.now → ⊥) → at_digest self.new other ≡ at_digest self.old other) }
        ensures err { OnErr result (self.new ≡ self.old) }
    {
        let _ = self.map.insert(*digest, value)?;
        Ok(())
    }

    /// Keeps nothing for a digest.
    pub fn remove(&mut self, digest: &[u8; 32])
        ensures here { at_digest self.new digest.now ≡ None }
        ensures others { (other : List ℕ) → (other ≡ digest.now → ⊥) → at_digest self.new other ≡ at_digest self.old other }
    {
        let _ = self.map.remove(digest);
    }
}
