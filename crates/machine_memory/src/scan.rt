//! Pages of equal bytes that come to share one frame.
use crate::{MachineMemory, Stake};
use guest_number::GuestNo;
use lent_pages::scanned;
use page_moves::{Pages, Scan};
use std::sync::Wait;
use swapstore::SwapStore;
use word32::Ppn;

impl<S: SwapStore + Drop> MachineMemory<S> {
    ghost use Rattle.std.specs.Prelude.{◌≡◌, ℕ, List, length};
    ghost use Rattle.page_moves.specs.Faith.{Faithful, Kept};
    ghost use Rattle.lent_pages.specs.Contents.{its_slots};
    ghost use Rattle.machine_memory.specs.Memories.{IsLevel};
    ghost use Rattle.machine_memory.specs.Frames.{KeepsEachFrame};
    ghost use Rattle.lent_pages.specs.Scans.{WasScanned};

    /// Scans a page of a guest under the table's lock, as `page_moves`'s `scan_in` does, and the frame that came free is free from then on.
    /// The answer is that of the shared frames and the hints that were found.
    pub fn scan<P: Pages, R: Wait>(
        &self,
        rt: &R,
        stake: &mut Stake,
        pages: &mut P,
        guest: GuestNo,
        p: Ppn,
    ) -> Scan
        requires { IsLevel self.now stake.old (P.pages pages.old) }
        ensures level { IsLevel self.now stake.new (P.pages pages.new) }
        ensures faithful { (view : ℕ → List ℕ) → Faithful view (P.pages pages.old) → Faithful view (P.pages pages.new) }
        ensures kept { (view : ℕ → List ℕ) → Kept (its_slots stake.old.contents) view (P.pages pages.old) → Kept (its_slots stake.new.contents) view (P.pages pages.new) }
        ensures rest { P.rest pages.new ≡ P.rest pages.old }
        ensures frames { KeepsEachFrame (P.pages pages.old) stake.old.pass (P.pages pages.new) stake.new.pass }
        ensures count { length (P.pages pages.new) ≡ length (P.pages pages.old) }
        ensures answer { WasScanned (record { guest = guest; page = p }) (P.pages pages.old) result (P.pages pages.new) }
    {
        let (mut table, loan) = self.table.take(rt);
        let (scan, hand) = scanned(&self.books, &mut stake.share, pages, guest, p, &mut table);
        self.table.put_back(table, loan);
        self.give(rt, stake, pages, hand);
        scan
    }
}
