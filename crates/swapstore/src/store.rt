//! What a swap store is.
ghost use Rattle.std.specs.Prelude.{◌≡◌, ℕ, ◌<◌, ◌↔◌, List, length, Option, IsSome, OnOk, is_ok};
ghost use Rattle.swapstore.specs.Failures.{counted};
ghost use Rattle.swapstore.specs.Holding.{AreHeld, AreHeldByDigest, AllStay, OthersStay};

/// A read or a write that failed.
#[derive(Clone, Copy, Debug, PartialEq, Eq)]
pub struct Failed;

/// Slots of 4,096 bytes, by their numbers, which hold the pages that are swapped out.
///
/// What was last written to a slot is one thing, and what a read of it gives is another. In an honest store a read gives what
/// was last written, or fails; in one that is true to digests it may also give bytes of another SHA-256. No read or write
/// changes which a store is. A write that failed leaves open what was last written to its own slot, and to no other.
pub trait SwapStore {
    /// What was last written to a slot, where that is known.
    ghost held: { Self → ℕ → Option (List ℕ) };

    /// These bytes are what a read of a slot may give.
    ghost gives: { Self → ℕ → List ℕ → Type 0 };

    /// Each read that answers `Ok` gives what was last written to its slot.
    ghost honest: { Self → Type 0 };

    /// Each read that answers `Ok` gives what was last written to its slot, or bytes of another SHA-256.
    ghost true_to_digests: { Self → Type 0 };

    /// How many slots there are.
    ghost slots: { Self → ℕ };

    /// How many calls failed.
    ghost failed: { Self → ℕ };

    /// How many slots there are: their numbers are below it.
    fn slot_count(&self) -> u32
        ensures { result ≡ slots self.now };

    /// How many reads and writes failed; it stops at the largest number.
    fn failures(&self) -> u64
        ensures { result ≡ failed self.now };

    /// Writes a page to a slot. Where it fails, it is open what was last written to that slot.
    fn write(&mut self, slot: u32, bytes: &[u8]) -> Result<(), Failed>
        requires slot { slot < slots self.old }
        requires page { length bytes.now ≡ 4096 }
        ensures written { OnOk result (AreHeld (held self.new slot) bytes.now) }
        ensures others { OthersStay slot (held self.old) (held self.new) }
        ensures counted { failed self.new ≡ counted (is_ok result) (failed self.old) }
        ensures slots { slots self.new ≡ slots self.old }
        ensures honest { honest self.new ↔ honest self.old }
        ensures true_to_digests { true_to_digests self.new ↔ true_to_digests self.old };

    /// Reads the page in a slot. Where it fails, it is open what is in `bytes`.
    fn read(&mut self, slot: u32, bytes: &mut [u8]) -> Result<(), Failed>
        requires slot { slot < slots self.old }
        requires page { length bytes.old ≡ 4096 }
        ensures gives { OnOk result (gives self.old slot bytes.new) }
        ensures honest_gives { OnOk result (honest self.old → AreHeld (held self.old slot) bytes.new) }
        ensures true_gives { OnOk result (true_to_digests self.old → AreHeldByDigest (held self.old slot) bytes.new) }
        ensures held { AllStay (held self.old) (held self.new) }
        ensures counted { failed self.new ≡ counted (is_ok result) (failed self.old) }
        ensures slots { slots self.new ≡ slots self.old }
        ensures honest { honest self.new ↔ honest self.old }
        ensures true_to_digests { true_to_digests self.new ↔ true_to_digests self.old };

    /// An honest store is true to digests.
    ghost honest_is_true: { (store : Self) → honest store → true_to_digests store };

    /// What was last written to each slot of a store that is true to digests is known.
    ghost known: { (store : Self) → true_to_digests store → (slot : ℕ) → slot < slots store → IsSome (held store slot) };
}
