//! Damage to the store of a world, to see what becomes of it.
use crate::World;
use std::alloc::AllocError;
use swapstore::Damage;

impl<S: Damage> World<S> {
    ghost use Rattle.std.specs.Prelude.{◌≡◌, ℕ, ◌<◌, ◌↔◌, List, OnOk, OnErr};
    ghost use Rattle.world.specs.All.{AllStay, AreHeldByDigest};
    ghost use Rattle.swapstore.specs.Memories.{Inverts};

    /// Inverts all bits of a byte that lies in a slot of the store, and of no other. The books stay exact, and what was last written
    /// to each slot stays known. The store is honest no more; it stays true to digests, and each guest its run, where what lies there
    /// now has another SHA-256 than what was last written, or is that. A page of that slot is refused as damaged when it is supplied,
    /// where the SHA-256 differs.
    ///
    /// `AllocError` where there is no memory to keep apart what was last written: nothing has changed then.
    pub fn damage(&mut self, slot: u32, byte: u32) -> Result<(), AllocError>
        requires slot { slot < S.slots self.old.store }
        requires byte { byte < 4096 }
        ensures inverted { OnOk result (Inverts byte (S.gives self.old.store slot) (S.gives self.new.store slot)) }
        ensures others { (other : ℕ) (bytes : List ℕ) → (other ≡ slot → ⊥) → S.gives self.new.store other bytes ↔ S.gives self.old.store other bytes }
        ensures held { AllStay (S.held self.old.store) (S.held self.new.store) }
        ensures failed { S.failed self.new.store ≡ S.failed self.old.store }
        ensures store_slots { S.slots self.new.store ≡ S.slots self.old.store }
        ensures dishonest { OnOk result (S.honest self.new.store → ⊥) }
        ensures untrue_stays { S.true_to_digests self.new.store → S.true_to_digests self.old.store }
        ensures told { OnOk result (S.true_to_digests self.old.store →
            ((bytes : List ℕ) → S.gives self.new.store slot bytes → AreHeldByDigest (S.held self.old.store slot) bytes) → S.true_to_digests self.new.store) }
        ensures unchanged { OnErr result (self.new ≡ self.old) }
        ensures tenants { self.new.tenants ≡ self.old.tenants }
        ensures pool { self.new.pool ≡ self.old.pool }
        ensures slots { self.new.slots ≡ self.old.slots }
        ensures shares { self.new.shares ≡ self.old.shares }
        ensures frames { self.new.frames ≡ self.old.frames }
        ensures level { self.new.level ≡ self.old.level }
    {
        self.store.damage(slot, byte)
    }
}
