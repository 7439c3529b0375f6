//! The free slots.
ghost use Rattle.std.specs.Prelude.{◌≡◌, ℕ, ◌+◌, ◌<◌, ◌≤◌, IfOk, IfSome, IfNone, OnSome, All, [], length, map};
ghost use Rattle.frames.specs.Counts.{one_at, count_of, below};
ghost use Rattle.frames.specs.FreeList.{FreeList};
ghost use Rattle.std.specs.BinaryHeap.{heap_items, heap_len, heap_capacity, IsHeap};
ghost use Rattle.swapstore.specs.Slots.{number_of, lowest_first};

use frames::{Numbers, SlotTicket};
use std::alloc::{AllocError, Global};
use std::cmp::Reverse;
use std::collections::BinaryHeap;
use std::marker::Model;

/// The slots of a swap store that are free, and how many are used. In clauses it is a record, `FreeList`.
///
/// The free slots are a heap with the lowest number on top: what `take` and `give` cost grows with the logarithm of how
/// many are free.
pub struct SlotBook {
    free: BinaryHeap<Reverse<SlotTicket>>,
    used: u32,
}

impl Model for SlotBook {
    ghost use Rattle.std.specs.Prelude.{◌+◌, ◌≤◌, ◌<◌, ◌^◌, map};
    ghost use Rattle.std.specs.BinaryHeap.{heap_items, heap_len, heap_capacity, IsHeap};
    ghost use Rattle.frames.specs.FreeList.{FreeList};
    ghost use Rattle.swapstore.specs.Slots.{number_of, lowest_first};

    ghost Value = { FreeList };

    ghost view = { λ b. record { free = map number_of (heap_items b.free); out = b.used } };

    ghost invariant = { λ b. (heap_len b.free + b.used ≤ heap_capacity b.free) × (heap_len b.free + b.used < 2 ^ 32)
        × IsHeap lowest_first (heap_items b.free) };
}

impl SlotBook {
    /// The slots 0 to `slots - 1`, all free. `AllocError` where there is no memory for their tickets; no later call asks
    /// for any.
    #[tactic(auto, using(crate::proofs::Heaps::given_counts, frames::proofs::Counting::count_cons))]
    pub fn new(alloc: Global, slots: u32) -> Result<SlotBook, AllocError>
        ensures each_once { IfOk result (λ book. (k : ℕ) → count_of k book.free ≡ below k slots) }
        ensures length { IfOk result (λ book. length book.free ≡ slots) }
        ensures none_used { IfOk result (λ book. book.out ≡ 0) }
    {
        let mut free = BinaryHeap::with_capacity(alloc, slots as usize)?;
        let mut numbers = Numbers::below(slots);
        while let Some(slot) = numbers.next_slot() {
            put(&mut free, slot);
        }
        numbers.close();
        Ok(SlotBook { free, used: 0 })
    }

    /// How many slots are used.
    pub fn used(&self) -> u32
        ensures { result ≡ self.now.out }
    {
        self.used
    }

    /// How many slots there are.
    pub fn total(&self) -> u32
        ensures { result ≡ length self.now.free + self.now.out }
    {
        self.free.len() as u32 + self.used
    }

    /// Takes the free slot of the lowest number, which is used from then on; None exactly where none is free.
    #[tactic(auto, using(crate::proofs::Heaps::taken_counts, crate::proofs::Heaps::top_is_lowest))]
    pub fn take(&mut self) -> Option<SlotTicket>
        ensures taken { IfSome result (λ slot. (k : ℕ) → count_of k self.old.free ≡ count_of k self.new.free + one_at k slot) }
        ensures lowest { IfSome result (λ slot. All (λ other. slot ≤ other) self.old.free) }
        ensures length { OnSome result (length self.old.free ≡ length self.new.free + 1) }
        ensures out { OnSome result (self.new.out ≡ self.old.out + 1) }
        ensures none { IfNone result (self.old.free ≡ []) }
        ensures unchanged { IfNone result (self.new ≡ self.old) }
    {
        match self.free.pop() {
            Some(Reverse(slot)) => {
                self.used += 1;
                Some(slot)
            }
            None => None,
        }
    }

    /// Gives a slot back that is used, which is free from then on.
    pub fn give(&mut self, slot: SlotTicket)
        requires { 0 < self.old.out }
        ensures given { (k : ℕ) → count_of k self.new.free ≡ count_of k self.old.free + one_at k slot }
        ensures length { length self.new.free ≡ length self.old.free + 1 }
        ensures out { self.new.out + 1 ≡ self.old.out }
    {
        self.used -= 1;
        put(&mut self.free, slot);
    }

    /// Gives the book up, and with it all free slots.
    pub fn close(self) {
        let SlotBook { mut free, used: _ } = self;
        while let Some(Reverse(slot)) = free.pop() {
            let _number = slot.close();
        }
        free.destroy_empty();
    }
}

// Puts a slot into a heap that has room for it.
#[tactic(auto, using(crate::proofs::Heaps::given_counts))]
fn put(free: &mut BinaryHeap<Reverse<SlotTicket>>, slot: SlotTicket)
    requires { heap_len free.old < heap_capacity free.old }
    ensures counted { (k : ℕ) → count_of k (map number_of (heap_items free.new)) ≡ count_of k (map number_of (heap_items free.old)) + one_at k slot }
    ensures length { heap_len free.new ≡ heap_len free.old + 1 }
    ensures capacity { heap_capacity free.old ≤ heap_capacity free.new }
    ensures order { IsHeap lowest_first (heap_items free.old) → IsHeap lowest_first (heap_items free.new) }
{
    match free.push(Reverse(slot)) {
        Ok(()) => {}
        Err(_refused) => unreachable!(),
    }
}
