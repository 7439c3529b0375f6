//! A store whose k-th read or write fails.
ghost use Rattle.std.specs.Prelude.{◌≡◌, ℕ, ◌<◌, ◌↔◌, List, length, OnOk, OnErr, is_ok, IsErr, true, false};
ghost use Rattle.swapstore.specs.Failures.{counted};
ghost use Rattle.swapstore.specs.Holding.{AreHeld, AreHeldByDigest, AllStay, OthersStay};
ghost use Rattle.swapstore.specs.Memories.{Inverts};
ghost use Rattle.swapstore.specs.Faults.{store_of, op_of, left_of, left_after, is_due, with_fault};

use crate::{Damage, Failed, SwapStore};
use std::alloc::AllocError;

/// The kinds of calls that can fail.
#[derive(Clone, Copy, Debug, PartialEq, Eq)]
pub enum Op {
    Read,
    Write,
}

/// A store that passes each call on to another, but for one: its k-th read, or its k-th write, fails, and nothing of it is
/// passed on.
#[derive(Drop)]
pub struct FaultStore<S> {
    store: S,
    op: Op,
    left: u64,
}

impl<S: SwapStore> FaultStore<S> {
    /// A store whose k-th call of a kind fails, `k` being at least 1.
    pub fn new(store: S, op: Op, k: u64) -> FaultStore<S>
        requires { 0 < k }
        ensures store { store_of result ≡ store }
        ensures op { op_of result ≡ op }
        ensures left { left_of result ≡ k }
    {
        FaultStore { store, op, left: k }
    }

    /// The store behind it.
    pub fn into_store(self) -> S
        ensures { result ≡ store_of self }
    {
        let FaultStore {
            store,
            op: _,
            left: _,
        } = self;
        store
    }

    // Whether a call of a kind is the one that fails. It counts as made.
    fn fails(&mut self, kind: Op) -> bool
        ensures due { result ≡ is_due kind (op_of self.old) (left_of self.old) }
        ensures left { left_of self.new ≡ left_after kind (op_of self.old) (left_of self.old) }
        ensures op { op_of self.new ≡ op_of self.old }
        ensures store { store_of self.new ≡ store_of self.old }
    {
        if kind != self.op {
            return false;
        }
        let is_due = self.left == 1;
        self.left = self.left.saturating_sub(1);
        is_due
    }
}

impl<S: SwapStore> SwapStore for FaultStore<S> {
    ghost held = { λ s. S.held s.store };

    ghost gives = { λ s. S.gives s.store };

    ghost honest = { λ s. S.honest s.store };

    ghost true_to_digests = { λ s. S.true_to_digests s.store };

    ghost slots = { λ s. S.slots s.store };

    ghost failed = { λ s. with_fault s.left (S.failed s.store) };

    ghost honest_is_true = { λ s honest. S.honest_is_true s.store honest };

    ghost known = { λ s sure. S.known s.store sure };

    fn slot_count(&self) -> u32 {
        self.store.slot_count()
    }

    fn failures(&self) -> u64 {
        let failures = self.store.failures();
        if self.left == 0 {
            failures.saturating_add(1)
        } else {
            failures
        }
    }

    fn write(&mut self, slot: u32, bytes: &[u8]) -> Result<(), Failed>
        requires slot { slot < S.slots (store_of self.old) }
        requires page { length bytes.now ≡ 4096 }
        ensures due { is_due Op.Write (op_of self.old) (left_of self.old) ≡ true → IsErr result × (store_of self.new ≡ store_of self.old) }
        ensures passed { is_due Op.Write (op_of self.old) (left_of self.old) ≡ false →
            S.failed (store_of self.new) ≡ counted (is_ok result) (S.failed (store_of self.old)) }
        ensures left { left_of self.new ≡ left_after Op.Write (op_of self.old) (left_of self.old) }
        ensures op { op_of self.new ≡ op_of self.old }
        ensures written { OnOk result (AreHeld (S.held (store_of self.new) slot) bytes.now) }
        ensures others { OthersStay slot (S.held (store_of self.old)) (S.held (store_of self.new)) }
        ensures slots { S.slots (store_of self.new) ≡ S.slots (store_of self.old) }
        ensures honest { S.honest (store_of self.new) ↔ S.honest (store_of self.old) }
        ensures true_to_digests { S.true_to_digests (store_of self.new) ↔ S.true_to_digests (store_of self.old) }
    {
        if self.fails(Op::Write) {
            return Err(Failed);
        }
        self.store.write(slot, bytes)
    }

    fn read(&mut self, slot: u32, bytes: &mut [u8]) -> Result<(), Failed>
        requires slot { slot < S.slots (store_of self.old) }
        requires page { length bytes.old ≡ 4096 }
        ensures due { is_due Op.Read (op_of self.old) (left_of self.old) ≡ true → IsErr result × (store_of self.new ≡ store_of self.old) }
        ensures passed { is_due Op.Read (op_of self.old) (left_of self.old) ≡ false →
            S.failed (store_of self.new) ≡ counted (is_ok result) (S.failed (store_of self.old)) }
        ensures left { left_of self.new ≡ left_after Op.Read (op_of self.old) (left_of self.old) }
        ensures op { op_of self.new ≡ op_of self.old }
        ensures gives { OnOk result (S.gives (store_of self.old) slot bytes.new) }
        ensures honest_gives { OnOk result (S.honest (store_of self.old) → AreHeld (S.held (store_of self.old) slot) bytes.new) }
        ensures true_gives { OnOk result (S.true_to_digests (store_of self.old) → AreHeldByDigest (S.held (store_of self.old) slot) bytes.new) }
        ensures held { AllStay (S.held (store_of self.old)) (S.held (store_of self.new)) }
        ensures slots { S.slots (store_of self.new) ≡ S.slots (store_of self.old) }
        ensures honest { S.honest (store_of self.new) ↔ S.honest (store_of self.old) }
        ensures true_to_digests { S.true_to_digests (store_of self.new) ↔ S.true_to_digests (store_of self.old) }
    {
        if self.fails(Op::Read) {
            return Err(Failed);
        }
        self.store.read(slot, bytes)
    }
}

impl<S: Damage> Damage for FaultStore<S> {
    fn damage(&mut self, slot: u32, byte: u32) -> Result<(), AllocError>
        requires slot { slot < S.slots (store_of self.old) }
        requires byte { byte < 4096 }
        ensures inverted { OnOk result (Inverts byte (S.gives (store_of self.old) slot) (S.gives (store_of self.new) slot)) }
        ensures others { (other : ℕ) (bytes : List ℕ) → (other ≡ slot → ⊥) → S.gives (store_of self.new) other bytes ↔ S.gives (store_of self.old) other bytes }
        ensures held { AllStay (S.held (store_of self.old)) (S.held (store_of self.new)) }
        ensures failed { S.failed (store_of self.new) ≡ S.failed (store_of self.old) }
        ensures slots { S.slots (store_of self.new) ≡ S.slots (store_of self.old) }
        ensures dishonest { OnOk result (S.honest (store_of self.new) → ⊥) }
        ensures untrue_stays { S.true_to_digests (store_of self.new) → S.true_to_digests (store_of self.old) }
        ensures told { OnOk result (S.true_to_digests (store_of self.old) →
            ((bytes : List ℕ) → S.gives (store_of self.new) slot bytes → AreHeldByDigest (S.held (store_of self.old) slot) bytes) → S.true_to_digests (store_of self.new)) }
        ensures unchanged { OnErr result (store_of self.new ≡ store_of self.old) }
        ensures op { op_of self.new ≡ op_of self.old }
        ensures left { left_of self.new ≡ left_of self.old }
    {
        self.store.damage(slot, byte)
    }
}
