//! A page that gets a frame of its own.
use crate::{MachineMemory, Stake};
use guest_pages::PageKind;
use lent_pages::{copy_supplied, first_supplied, swapped_supplied};
use page_moves::{Pages, SupplyError};
use std::alloc::Global;
use std::sync::Wait;
use swapstore::SwapStore;
use word32::Ppn;

impl<S: SwapStore + Drop> MachineMemory<S> {
    ghost use Rattle.std.specs.Prelude.{◌≡◌, ◌<◌, ◌⊎◌, ℕ, List, [], ◌∷◌, IfErr, OnOk, OnErr, length};
    ghost use Rattle.sha2.specs.Sha256.{sha256};
    ghost use Rattle.word32.specs.Zeros.{zeros};
    ghost use Rattle.guest_pages.specs.declared.page.PageKind.{PageKind};
    ghost use Rattle.guest_pages.specs.Pages.{page_at, kind_at, shown, slot_of, digest_of};
    ghost use Rattle.page_moves.specs.Faith.{Faithful, Kept};
    ghost use Rattle.lent_pages.specs.Contents.{its_slots};
    ghost use Rattle.page_moves.specs.Supplies.{Supplies};
    ghost use Rattle.shared_pool.specs.Balance.{Stands};
    ghost use Rattle.machine_memory.specs.Memories.{IsLevel};
    ghost use Rattle.machine_memory.specs.Frames.{KeepsEachFrame};
    ghost use Rattle.lent_pages.specs.Stores.{HasFailed, HasDamaged};
    ghost use Rattle.lent_pages.specs.Supplies.{WhyLeft};

    // A page that was never touched, or was given to the balloon, gets a frame of zeros.
    fn supply_first<P: Pages, R: Wait>(
        &self,
        rt: &R,
        alloc: Global,
        stake: &mut Stake,
        pages: &mut P,
        p: Ppn,
    ) -> Result<(), SupplyError>
        requires there { p < length (P.pages pages.old) }
        requires kind { (kind_at (P.pages pages.old) p ≡ PageKind.Zero) ⊎ (kind_at (P.pages pages.old) p ≡ PageKind.Given) }
        requires level { IsLevel self.now stake.old (P.pages pages.old) }
        ensures level { IsLevel self.now stake.new (P.pages pages.new) }
        ensures faithful { (view : ℕ → List ℕ) → Faithful view (P.pages pages.old) → Faithful view (P.pages pages.new) }
        ensures kept { (view : ℕ → List ℕ) → Kept (its_slots stake.old.contents) view (P.pages pages.old) → Kept (its_slots stake.new.contents) view (P.pages pages.new) }
        ensures rest { P.rest pages.new ≡ P.rest pages.old }
        ensures frames { KeepsEachFrame (P.pages pages.old) stake.old.pass (P.pages pages.new) stake.new.pass }
        ensures supplied { OnOk result (Supplies (P.pages pages.old) p (zeros 4096) (P.pages pages.new)) }
        ensures err { IfErr result (WhyLeft (Stands stake.old.pass.hand []) ⊥ ⊥) }
        ensures unchanged { OnErr result (P.pages pages.new ≡ P.pages pages.old) }
    {
        let Some(no) = self.take(rt, stake, pages) else {
            return Err(SupplyError::NoFrame);
        };
        let (done, hand) = first_supplied(alloc, &self.books, &mut stake.share, pages, p, no);
        self.give(rt, stake, pages, hand);
        done
    }

    // A shared page gets a frame of its own, with its bytes.
    fn supply_copy<P: Pages, R: Wait>(
        &self,
        rt: &R,
        alloc: Global,
        stake: &mut Stake,
        pages: &mut P,
        p: Ppn,
    ) -> Result<(), SupplyError>
        requires there { p < length (P.pages pages.old) }
        requires kind { kind_at (P.pages pages.old) p ≡ PageKind.Shared }
        requires level { IsLevel self.now stake.old (P.pages pages.old) }
        ensures level { IsLevel self.now stake.new (P.pages pages.new) }
        ensures faithful { (view : ℕ → List ℕ) → Faithful view (P.pages pages.old) → Faithful view (P.pages pages.new) }
        ensures kept { (view : ℕ → List ℕ) → Kept (its_slots stake.old.contents) view (P.pages pages.old) → Kept (its_slots stake.new.contents) view (P.pages pages.new) }
        ensures rest { P.rest pages.new ≡ P.rest pages.old }
        ensures frames { KeepsEachFrame (P.pages pages.old) stake.old.pass (P.pages pages.new) stake.new.pass }
        ensures supplied { OnOk result (Supplies (P.pages pages.old) p (shown (page_at (P.pages pages.old) p)) (P.pages pages.new)) }
        ensures err { IfErr result (WhyLeft (Stands stake.old.pass.hand []) ⊥ ⊥) }
        ensures unchanged { OnErr result (P.pages pages.new ≡ P.pages pages.old) }
    {
        let Some(no) = self.take(rt, stake, pages) else {
            return Err(SupplyError::NoFrame);
        };
        let (mut table, loan) = self.table.take(rt);
        let (done, hand) = copy_supplied(
            alloc,
            &self.books,
            &mut stake.share,
            pages,
            p,
            no,
            &mut table,
        );
        self.table.put_back(table, loan);
        self.give(rt, stake, pages, hand);
        done
    }

    // A swapped page gets a frame of its own, with the bytes of its slot.
    fn supply_swapped<P: Pages, R: Wait>(
        &self,
        rt: &R,
        alloc: Global,
        stake: &mut Stake,
        pages: &mut P,
        p: Ppn,
    ) -> Result<(), SupplyError>
        requires there { p < length (P.pages pages.old) }
        requires kind { kind_at (P.pages pages.old) p ≡ PageKind.Swapped }
        requires level { IsLevel self.now stake.old (P.pages pages.old) }
        ensures level { IsLevel self.now stake.new (P.pages pages.new) }
        ensures slot { slot_of (page_at (P.pages pages.old) p) < self.now.books.key.slots }
        ensures faithful { (view : ℕ → List ℕ) → Faithful view (P.pages pages.old) →
            OnOk result (shown (page_at (P.pages pages.new) p) ≡ view p) → Faithful view (P.pages pages.new) }
        ensures kept { S.true_to_digests self.now.first → (view : ℕ → List ℕ) →
            Kept (its_slots stake.old.contents) view (P.pages pages.old) → Kept (its_slots stake.new.contents) view (P.pages pages.new) }
        ensures rest { P.rest pages.new ≡ P.rest pages.old }
        ensures frames { KeepsEachFrame (P.pages pages.old) stake.old.pass (P.pages pages.new) stake.new.pass }
        ensures supplied { OnOk result (Supplies (P.pages pages.old) p (shown (page_at (P.pages pages.new) p)) (P.pages pages.new)) }
        ensures digest { OnOk result (sha256 (shown (page_at (P.pages pages.new) p)) ≡ digest_of (page_at (P.pages pages.old) p)) }
        ensures err { IfErr result (WhyLeft (Stands stake.old.pass.hand [])
            (HasFailed S.honest S.true_to_digests S.failed self.now.first)
            (HasDamaged S.honest S.true_to_digests S.gives S.held self.now.first (page_at (P.pages pages.old) p))) }
        ensures unchanged { OnErr result (P.pages pages.new ≡ P.pages pages.old) }
    {
        accounts::meet(&self.books, &mut stake.share);
        let Some(no) = self.take(rt, stake, pages) else {
            return Err(SupplyError::NoFrame);
        };
        let (mut swap, loan) = self.swap.take(rt);
        let (done, hand) = swapped_supplied(
            alloc,
            &self.books,
            &self.contents,
            &mut stake.share,
            &mut stake.contents,
            pages,
            p,
            no,
            &mut swap,
            &self.swap,
        );
        self.swap.put_back(swap, loan);
        self.give(rt, stake, pages, hand);
        done
    }

    /// A page gets a frame of its own, with its bytes: zeros where it was never touched or was given to the balloon, those of the frame
    /// that it shares, or those of its slot. A page that has one keeps it. A frame is taken from the pool, and then the one lock is held
    /// that the page's kind asks for: the table's for a shared page, the swap book's for a swapped one.
    ///
    /// `NoFrame` only where no frame was free at a moment of the call; `Memory` where a request for memory was refused; of a swapped
    /// page `SwapRead` where the store failed to read the slot, `SwapDamaged` where what was read has another SHA-256 than the page had.
    /// No page has changed then, and the frame is free again.
    ///
    /// Where the store was true to digests at first, a page comes back as it was written: pages that are kept by what was written to their
    /// slots are so still (`kept`).
    pub fn supply<P: Pages, R: Wait>(
        &self,
        rt: &R,
        alloc: Global,
        stake: &mut Stake,
        pages: &mut P,
        p: Ppn,
    ) -> Result<(), SupplyError>
        requires there { p < length (P.pages pages.old) }
        requires level { IsLevel self.now stake.old (P.pages pages.old) }
        ensures level { IsLevel self.now stake.new (P.pages pages.new) }
        ensures slot { kind_at (P.pages pages.old) p ≡ PageKind.Swapped → slot_of (page_at (P.pages pages.old) p) < self.now.books.key.slots }
        ensures faithful { (view : ℕ → List ℕ) → Faithful view (P.pages pages.old) →
            (kind_at (P.pages pages.old) p ≡ PageKind.Swapped → OnOk result (shown (page_at (P.pages pages.new) p) ≡ view p)) → Faithful view (P.pages pages.new) }
        ensures shown { (kind_at (P.pages pages.old) p ≡ PageKind.Swapped → ⊥) → shown (page_at (P.pages pages.new) p) ≡ shown (page_at (P.pages pages.old) p) }
        ensures digest { kind_at (P.pages pages.old) p ≡ PageKind.Swapped →
            OnOk result (sha256 (shown (page_at (P.pages pages.new) p)) ≡ digest_of (page_at (P.pages pages.old) p)) }
        ensures private { OnOk result (kind_at (P.pages pages.new) p ≡ PageKind.Private) }
        ensures others { (other : ℕ) → (other ≡ p → ⊥) → page_at (P.pages pages.new) other ≡ page_at (P.pages pages.old) other }
        ensures count { length (P.pages pages.new) ≡ length (P.pages pages.old) }
        ensures kept { S.true_to_digests self.now.first → (view : ℕ → List ℕ) →
            Kept (its_slots stake.old.contents) view (P.pages pages.old) → Kept (its_slots stake.new.contents) view (P.pages pages.new) }
        ensures rest { P.rest pages.new ≡ P.rest pages.old }
        ensures frames { KeepsEachFrame (P.pages pages.old) stake.old.pass (P.pages pages.new) stake.new.pass }
        ensures err { IfErr result (WhyLeft (Stands stake.old.pass.hand [])
            ((kind_at (P.pages pages.old) p ≡ PageKind.Swapped) × HasFailed S.honest S.true_to_digests S.failed self.now.first)
            ((kind_at (P.pages pages.old) p ≡ PageKind.Swapped) ×
            HasDamaged S.honest S.true_to_digests S.gives S.held self.now.first (page_at (P.pages pages.old) p))) }
        ensures unchanged { OnErr result (P.pages pages.new ≡ P.pages pages.old) }
    {
        match pages.kind(p) {
            PageKind::Zero => self.supply_first(rt, alloc, stake, pages, p),
            PageKind::Given => self.supply_first(rt, alloc, stake, pages, p),
            PageKind::Private => Ok(()),
            PageKind::Shared => self.supply_copy(rt, alloc, stake, pages, p),
            PageKind::Swapped => self.supply_swapped(rt, alloc, stake, pages, p),
        }
    }
}
