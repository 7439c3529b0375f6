//! Damage of single bytes, to see what becomes of it.
ghost use Rattle.std.specs.Prelude.{◌≡◌, ℕ, ◌<◌, ◌↔◌, List, OnOk, OnErr};
ghost use Rattle.swapstore.specs.Holding.{AreHeldByDigest, AllStay};
ghost use Rattle.swapstore.specs.Memories.{Inverts};

use crate::SwapStore;
use std::alloc::AllocError;

/// A store whose bytes can be damaged.
pub trait Damage: SwapStore {
    /// Inverts all bits of a byte that lies in a slot, and of no other. What was last written stays known, and the store is
    /// honest no more. It stays true to digests where what lies there now has another SHA-256 than what was last written, or
    /// is that; a store that is not true to digests never is again.
    ///
    /// `AllocError` where there is no memory to keep apart what was last written: nothing has changed then.
    fn damage(&mut self, slot: u32, byte: u32) -> Result<(), AllocError>
        requires slot { slot < Self.slots self.old }
        requires byte { byte < 4096 }
        ensures inverted { OnOk result (Inverts byte (Self.gives self.old slot) (Self.gives self.new slot)) }
        ensures others { (other : ℕ) (bytes : List ℕ) → (other ≡ slot → ⊥) → Self.gives self.new other bytes ↔ Self.gives self.old other bytes }
        ensures held { AllStay (Self.held self.old) (Self.held self.new) }
        ensures failed { Self.failed self.new ≡ Self.failed self.old }
        ensures slots { Self.slots self.new ≡ Self.slots self.old }
        ensures dishonest { OnOk result (Self.honest self.new → ⊥) }
        ensures untrue_stays { Self.true_to_digests self.new → Self.true_to_digests self.old }
        ensures told { OnOk result (Self.true_to_digests self.old →
            ((bytes : List ℕ) → Self.gives self.new slot bytes → AreHeldByDigest (Self.held self.old slot) bytes) → Self.true_to_digests self.new) }
        ensures unchanged { OnErr result (self.new ≡ self.old) };
}
