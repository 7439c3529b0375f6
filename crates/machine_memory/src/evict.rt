//! A page that leaves its frame for a slot.
use crate::{MachineMemory, Stake};
use lent_pages::{EvictError, evicted};
use page_moves::Pages;
use std::sync::Wait;
use swapstore::SwapStore;
use word32::Ppn;

impl<S: SwapStore + Drop> MachineMemory<S> {
    ghost use Rattle.std.specs.Prelude.{◌≡◌, ◌<◌, ℕ, List, [], IfErr, IsTrue, OnOk, OnErr, length, slice_set};
    ghost use Rattle.sha2.specs.Sha256.{sha256};
    ghost use Rattle.guest_pages.specs.declared.page.Page.TheVariants.{Swapped};
    ghost use Rattle.guest_pages.specs.Pages.{page_at, kind_at, is_resident, shown, slot_of};
    ghost use Rattle.page_moves.specs.Faith.{Faithful, Kept};
    ghost use Rattle.lent_pages.specs.Contents.{its_slots};
    ghost use Rattle.machine_memory.specs.Memories.{IsLevel};
    ghost use Rattle.machine_memory.specs.Frames.{KeepsEachFrame};
    ghost use Rattle.lent_pages.specs.Stores.{HasFailed};
    ghost use Rattle.lent_pages.specs.Evictions.{NoSlotWasFree, WhyStays};

    /// A resident page is written to the free slot of the lowest number, and leaves its frame, which is free then but where other pages
    /// read it too. The locks of the table and of the swap book are held for it. It asks for no memory.
    ///
    /// `NoSwap` only where no slot was free, `SwapWrite` where the store failed to write the slot: no page has changed then.
    pub fn evict<P: Pages, R: Wait>(
        &self,
        rt: &R,
        stake: &mut Stake,
        pages: &mut P,
        p: Ppn,
    ) -> Result<(), EvictError>
        requires there { p < length (P.pages pages.old) }
        requires resident { IsTrue (is_resident (kind_at (P.pages pages.old) p)) }
        requires level { IsLevel self.now stake.old (P.pages pages.old) }
        ensures level { IsLevel self.now stake.new (P.pages pages.new) }
        ensures faithful { (view : ℕ → List ℕ) → Faithful view (P.pages pages.old) → Faithful view (P.pages pages.new) }
        ensures kept { (view : ℕ → List ℕ) → Kept (its_slots stake.old.contents) view (P.pages pages.old) → Kept (its_slots stake.new.contents) view (P.pages pages.new) }
        ensures rest { P.rest pages.new ≡ P.rest pages.old }
        ensures frames { KeepsEachFrame (P.pages pages.old) stake.old.pass (P.pages pages.new) stake.new.pass }
        ensures page { OnOk result (P.pages pages.new ≡ slice_set (P.pages pages.old) p
            (Swapped (slot_of (page_at (P.pages pages.new) p)) (sha256 (shown (page_at (P.pages pages.old) p))))) }
        ensures slot { OnOk result (slot_of (page_at (P.pages pages.new) p) < self.now.books.key.slots) }
        ensures err { IfErr result (WhyStays (NoSlotWasFree self.now.books.key (P.pages pages.old))
            (HasFailed S.honest S.true_to_digests S.failed self.now.first)) }
        ensures unchanged { OnErr result (P.pages pages.new ≡ P.pages pages.old) }
    {
        let (mut table, table_loan) = self.table.take(rt);
        let (mut swap, swap_loan) = self.swap.take(rt);
        let (done, hand) = evicted(
            &self.books,
            &self.contents,
            &mut stake.share,
            &mut stake.contents,
            pages,
            p,
            &mut table,
            &mut swap,
            &self.swap,
        );
        self.swap.put_back(swap, swap_loan);
        self.table.put_back(table, table_loan);
        self.give(rt, stake, pages, hand);
        done
    }
}
