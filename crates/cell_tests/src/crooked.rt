//! A store that lies once.
use std::alloc::Global;
use std::process::Abort;
use swapstore::{Failed, MemStore, SwapStore};

/// A store in memory of which one read gives another first byte than was written. It is not honest, nor true to digests.
#[derive(Drop)]
pub(crate) struct CrookedStore {
    store: MemStore,
    left: u64,
}

impl CrookedStore {
    ghost use Rattle.std.specs.Prelude.{◌≡◌, length};

    /// A store of 16 slots whose k-th read lies; none does where k is 0.
    pub(crate) fn new(rt: &impl Abort, alloc: Global, k: u64) -> CrookedStore
        ensures { length result.store.pages ≡ 16 }
    {
        match MemStore::new(alloc, 16) {
            Ok(store) => CrookedStore { store, left: k },
            Err(_) => panic!(rt; "no memory for the store"),
        }
    }
}

impl SwapStore for CrookedStore {
    ghost use Rattle.std.specs.Prelude.{None, length, ⊤};

    ghost held = { λ s slot. None };

    ghost gives = { λ s slot bytes. ⊤ };

    ghost honest = { λ s. ⊥ };

    ghost true_to_digests = { λ s. ⊥ };

    ghost slots = { λ s. length s.store.pages };

    ghost failed = { λ s. 0 };

    ghost honest_is_true = { λ s never. never };

    ghost known = { λ s never slot inside. absurd never };

    fn slot_count(&self) -> u32 {
        self.store.slot_count()
    }

    fn failures(&self) -> u64 {
        0
    }

    fn write(&mut self, slot: u32, bytes: &[u8]) -> Result<(), Failed> {
        self.store.write(slot, bytes)
    }

    fn read(&mut self, slot: u32, bytes: &mut [u8]) -> Result<(), Failed> {
        let is_crooked = self.left == 1;
        self.left = self.left.saturating_sub(1);
        let done = self.store.read(slot, bytes);
        if is_crooked {
            bytes[0] = !bytes[0];
        }
        done
    }
}
