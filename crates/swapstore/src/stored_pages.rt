//! The pages of a store in memory.
ghost use Rattle.std.specs.Prelude.{◌≡◌, ℕ, ◌<◌, ◌≤◌, IfOk, OnErr, false, true, length, replicate, slice_set, vec_capacity};
ghost use Rattle.sha2.specs.Sha256.{sha256};
ghost use Rattle.word32.specs.Zeros.{zeros};
ghost use Rattle.swapstore.specs.Memories.{whole, stored_at, with_untouched, IsTold, with_inverted};

use crate::stored_page::StoredPage;
use std::alloc::{AllocError, Global};
use std::marker::Model;

/// A page for each slot, zeros at first. In clauses it is the list of them.
///
/// Its room is had at the start, but a page is not touched before it, or one behind it, is written to.
#[derive(Drop)]
pub(crate) struct StoredPages {
    // The pages of the slots from 0 on, as far as they were reached. Those behind them are zeros.
    reached: Vec<StoredPage>,
    slots: u32,
}

impl Model for StoredPages {
    ghost use Rattle.std.specs.Prelude.{List, ◌≤◌, length, vec_capacity};
    ghost use Rattle.swapstore.specs.Memories.{StoredIs, with_untouched};

    ghost Value = { List StoredIs };

    ghost view = { λ p. with_untouched p.reached.items p.slots };

    ghost invariant = { λ p. (length p.reached.items ≤ p.slots) × (p.slots ≤ vec_capacity p.reached) };
}

impl StoredPages {
    // So many, of zeros. `AllocError` where there is no room for them.
    pub(crate) fn new(alloc: Global, slots: u32) -> Result<StoredPages, AllocError>
        ensures { IfOk result (λ pages. pages ≡ replicate slots (whole (zeros 4096))) }
    {
        let reached = Vec::with_capacity(alloc, slots as usize)?;
        Ok(StoredPages { reached, slots })
    }

    // How many there are.
    #[tactic(auto, using(crate::proofs::Untouched::count))]
    pub(crate) fn count(&self) -> u32
        ensures { result ≡ length self.now }
    {
        self.slots
    }

    // Reads the bytes that lie in a slot.
    #[tactic(auto, using(crate::proofs::Untouched::count, crate::proofs::Untouched::reached, crate::proofs::Untouched::untouched), unfolding(word32::specs::Zeros::zeros))]
    pub(crate) fn read(&self, slot: u32, bytes: &mut [u8])
        requires slot { slot < length self.now }
        requires page { length bytes.old ≡ 4096 }
        ensures { bytes.new ≡ (stored_at self.now slot).lies }
    {
        if (slot as usize) < self.reached.len() {
            bytes.copy_from_slice(self.reached[slot as usize].bytes());
        } else {
            bytes.copy_from_slice(&[0; 4096]);
        }
    }

    // Writes these bytes to a slot.
    #[tactic(auto, using(crate::proofs::Untouched::count, crate::proofs::Untouched::reached, crate::proofs::Untouched::other_page))]
    pub(crate) fn write(&mut self, slot: u32, bytes: &[u8])
        requires slot { slot < length self.old }
        requires page { length bytes.now ≡ 4096 }
        ensures { self.new ≡ slice_set self.old slot (whole bytes.now) }
    {
        reach(&mut self.reached, self.slots, slot);
        self.reached[slot as usize].write(bytes);
    }

    // Inverts all bits of a byte that lies in a slot. Whether other bytes lie there from then on than were last written, of the same SHA-256.
    #[tactic(auto, using(crate::proofs::Untouched::count, crate::proofs::Untouched::reached, crate::proofs::Untouched::other_page))]
    pub(crate) fn damage(&mut self, slot: u32, byte: u32) -> Result<bool, AllocError>
        requires slot { slot < length self.old }
        requires byte { byte < 4096 }
        ensures page { IfOk result (λ forged. self.new ≡ slice_set self.old slot
            (record { lies = with_inverted (stored_at self.old slot).lies byte; last = (stored_at self.old slot).last })) }
        ensures told { IfOk result (λ forged. forged ≡ false → IsTold (stored_at self.new slot)) }
        ensures same_digest { IfOk result (λ forged. forged ≡ true → sha256 (stored_at self.new slot).lies ≡ sha256 (stored_at self.new slot).last) }
        ensures differs { IfOk result (λ forged. forged ≡ true → (stored_at self.new slot).lies ≡ (stored_at self.new slot).last → ⊥) }
        ensures unchanged { OnErr result (self.new ≡ self.old) }
    {
        reach(&mut self.reached, self.slots, slot);
        let alloc = *self.reached.allocator();
        let page = &mut self.reached[slot as usize];
        page.damage(alloc, byte)?;
        Ok(page.is_forged())
    }
}

// Reaches a slot: its page, and each before it that was not reached yet, is zeros.
#[tactic(auto, using(crate::proofs::Untouched::one_more))]
fn reach(reached: &mut Vec<StoredPage>, slots: u32, slot: u32)
    requires slot { slot < slots }
    requires few { length reached.old.items ≤ slots }
    requires room { slots ≤ vec_capacity reached.old }
    ensures same { with_untouched reached.new.items slots ≡ with_untouched reached.old.items slots }
    ensures inside { slot < length reached.new.items }
    ensures few { length reached.new.items ≤ slots }
    ensures room { slots ≤ vec_capacity reached.new }
{
    for _next in reached.len() as u32..slot + 1 {
        reached.push_reserved(StoredPage::zeroed());
    }
}
