//! A store in a file.
ghost use Rattle.std.specs.Prelude.{◌≡◌, ℕ, ◌*◌, length, Some, IsSome, is_some, OnOk, is_ok};
ghost use Rattle.swapstore.specs.Failures.{counted, one_more};
ghost use Rattle.swapstore.specs.Holding.{AreHeld, AllStay, OthersStay};
ghost use Rattle.swapstore.specs.Places.{page_in, slot_in, slot_known};
ghost use Rattle.swapstore.specs.Files.{medium_of, slots_of, failures_of};

use crate::{Failed, Medium, SwapStore};
use std::io;
use word32::PAGE_SIZE;

/// A store in a file, or in another medium. The first byte of a slot is that of place `4096 * slot`.
///
/// It is honest where the bytes of its medium are known, as those of memory are. Of a `File` nothing is known: a read of such
/// a store may give any bytes, and what was last written to its slots is not known.
#[derive(Drop)]
pub struct FileStore<M> {
    medium: M,
    slots: u32,
    failures: u64,
}

impl<M: Medium> FileStore<M> {
    /// A store over a medium, which need not be of full length: a slot that was never written can't be read past its end.
    pub fn new(medium: M, slots: u32) -> FileStore<M>
        ensures medium { medium_of result ≡ medium }
        ensures slots { slots_of result ≡ slots }
        ensures failures { failures_of result ≡ 0 }
    {
        FileStore {
            medium,
            slots,
            failures: 0,
        }
    }

    /// The medium, with what was written.
    pub fn into_medium(self) -> M
        ensures { result ≡ medium_of self }
    {
        let FileStore {
            medium,
            slots: _,
            failures: _,
        } = self;
        medium
    }

    // What a call answers, whose failure is counted.
    fn counted(&mut self, answer: io::Result<()>) -> Result<(), Failed>
        ensures answer { is_ok result ≡ is_ok answer }
        ensures medium { medium_of self.new ≡ medium_of self.old }
        ensures slots { slots_of self.new ≡ slots_of self.old }
        ensures failures { failures_of self.new ≡ counted (is_ok answer) (failures_of self.old) }
    {
        match answer {
            Ok(()) => Ok(()),
            Err(_) => {
                self.failures = self.failures.saturating_add(1);
                Err(Failed)
            }
        }
    }
}

// How many bytes a slot has: those of a page.
const PAGE_BYTES: u64 = PAGE_SIZE as u64;

// The place of a slot's first byte.
fn first_place(slot: u32) -> u64
    ensures { result ≡ 4096 * slot }
{
    PAGE_BYTES * u64::from(slot)
}

// Reads a slot of a medium.
fn read_slot<M: Medium>(medium: &mut M, slot: u32, bytes: &mut [u8]) -> io::Result<()>
    requires { length bytes.old ≡ 4096 }
    ensures gives { OnOk result ((byte_at : ℕ → ℕ) → M.byte_at medium.old ≡ Some byte_at → bytes.new ≡ page_in byte_at slot) }
    ensures read { OnOk result (AreHeld (slot_in (M.byte_at medium.old) slot) bytes.new) }
    ensures held { AllStay (slot_in (M.byte_at medium.old)) (slot_in (M.byte_at medium.new)) }
    ensures known { is_some (M.byte_at medium.new) ≡ is_some (M.byte_at medium.old) }
{
    medium.read_from(first_place(slot), bytes)
}

// Writes a slot of a medium.
fn write_slot<M: Medium>(medium: &mut M, slot: u32, bytes: &[u8]) -> io::Result<()>
    requires { length bytes.now ≡ 4096 }
    ensures written { OnOk result (AreHeld (slot_in (M.byte_at medium.new) slot) bytes.now) }
    ensures others { OthersStay slot (slot_in (M.byte_at medium.old)) (slot_in (M.byte_at medium.new)) }
    ensures known { is_some (M.byte_at medium.new) ≡ is_some (M.byte_at medium.old) }
{
    medium.write_from(first_place(slot), bytes)
}

impl<M: Medium> SwapStore for FileStore<M> {
    ghost held = { λ s slot. slot_in (M.byte_at s.medium) slot };

    ghost gives = { λ s slot bytes. (byte_at : ℕ → ℕ) → M.byte_at s.medium ≡ Some byte_at → bytes ≡ page_in byte_at slot };

    ghost honest = { λ s. IsSome (M.byte_at s.medium) };

    ghost true_to_digests = { λ s. IsSome (M.byte_at s.medium) };

    ghost slots = { λ s. s.slots };

    ghost failed = { λ s. s.failures };

    ghost honest_is_true = { λ s known. known };

    ghost known = { λ s known slot inside. slot_known (M.byte_at s.medium) slot known };

    fn slot_count(&self) -> u32 {
        self.slots
    }

    fn failures(&self) -> u64 {
        self.failures
    }

    fn write(&mut self, slot: u32, bytes: &[u8]) -> Result<(), Failed> {
        let answer = write_slot(&mut self.medium, slot, bytes);
        self.counted(answer)
    }

    fn read(&mut self, slot: u32, bytes: &mut [u8]) -> Result<(), Failed> {
        let answer = read_slot(&mut self.medium, slot, bytes);
        self.counted(answer)
    }
}
