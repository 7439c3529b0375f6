//! A store in memory.
ghost use Rattle.std.specs.Prelude.{◌≡◌, ℕ, ◌<◌, ◌⊎◌, true, false, IfOk, OnOk, OnErr, IsOk, length, replicate, slice_set, Some, refl};
ghost use Rattle.sha2.specs.Sha256.{sha256};
ghost use Rattle.word32.specs.Zeros.{zeros};
ghost use Rattle.swapstore.specs.Holding.{AreHeld, AreHeldByDigest};
ghost use Rattle.swapstore.specs.Memories.{MemoryIs, whole, stored_at, AreTold, sound_are_told};

use crate::stored_pages::StoredPages;
use crate::{Damage, Failed, SwapStore};
use std::alloc::{AllocError, Global};
use std::marker::Model;

/// A store in memory, which never fails. In clauses it is a record, `MemoryIs`.
///
/// Its room is had at the start, some eight bytes a slot beside the page, but none of it is touched for a slot before that, or one of a
/// higher number, is written to. A page that is damaged takes the room of another.
#[derive(Drop)]
pub struct MemStore {
    pages: StoredPages,
    damaged: bool,
    forged: bool,
}

impl Model for MemStore {
    ghost use Rattle.swapstore.specs.Holding.{AreHeld, AreHeldByDigest};
    ghost use Rattle.swapstore.specs.Memories.{MemoryIs, IsMemory};

    ghost Value = { MemoryIs };

    ghost view = { λ s. record { pages = s.pages; damaged = s.damaged; forged = s.forged } };

    ghost invariant = { λ s. IsMemory s.pages s.damaged s.forged };
}

impl MemStore {
    /// A store whose slots hold zeros, the last that was written to them. `AllocError` where there is no memory for them.
    pub fn new(alloc: Global, slots: u32) -> Result<MemStore, AllocError>
        ensures pages { IfOk result (λ store. store.pages ≡ replicate slots (whole (zeros 4096))) }
        ensures sound { IfOk result (λ store. store.damaged ≡ false) }
    {
        Ok(MemStore {
            pages: StoredPages::new(alloc, slots)?,
            damaged: false,
            forged: false,
        })
    }
}

impl SwapStore for MemStore {
    ghost held = { λ s slot. Some (stored_at s.pages slot).last };

    ghost gives = { λ s slot bytes. bytes ≡ (stored_at s.pages slot).lies };

    ghost honest = { λ s. s.damaged ≡ false };

    ghost true_to_digests = { AreTold };

    ghost slots = { λ s. length s.pages };

    ghost failed = { λ s. 0 };

    ghost honest_is_true = { sound_are_told };

    ghost known = { λ s sound slot inside. refl };

    fn slot_count(&self) -> u32 {
        self.pages.count()
    }

    fn failures(&self) -> u64 {
        0
    }

    fn write(&mut self, slot: u32, bytes: &[u8]) -> Result<(), Failed>
        requires slot { slot < length self.old.pages }
        requires page { length bytes.now ≡ 4096 }
        ensures never_fails { IsOk result }
        ensures pages { self.new ≡ record self.old { pages = slice_set self.old.pages slot (whole bytes.now) } }
    {
        self.pages.write(slot, bytes);
        Ok(())
    }

    fn read(&mut self, slot: u32, bytes: &mut [u8]) -> Result<(), Failed>
        requires slot { slot < length self.old.pages }
        requires page { length bytes.old ≡ 4096 }
        ensures never_fails { IsOk result }
        ensures gives { bytes.new ≡ (stored_at self.old.pages slot).lies }
        ensures honest_gives { self.old.damaged ≡ false → AreHeld (Some (stored_at self.old.pages slot).last) bytes.new }
        ensures true_gives { AreTold self.old → AreHeldByDigest (Some (stored_at self.old.pages slot).last) bytes.new }
        ensures unchanged { self.new ≡ self.old }
    {
        self.pages.read(slot, bytes);
        Ok(())
    }
}

impl Damage for MemStore {
    fn damage(&mut self, slot: u32, byte: u32) -> Result<(), AllocError> {
        let is_forged = self.pages.damage(slot, byte)?;
        self.damaged = true;
        self.forged = self.forged || is_forged;
        Ok(())
    }
}
