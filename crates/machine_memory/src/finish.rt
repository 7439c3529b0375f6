//! The end of machine memory.
use crate::{BookCounts, Gathered, MachineMemory};
use lent_pages::{Swap, Table};
use std::sync::Wait;
use swapstore::SwapStore;

impl<S: SwapStore + Drop> MachineMemory<S> {
    ghost use Rattle.std.specs.Prelude.{◌≡◌, List, length, map};
    ghost use Rattle.guest_pages.specs.declared.page.Page.{Page};
    ghost use Rattle.guest_pages.specs.Outline.{outline};
    ghost use Rattle.lent_pages.specs.Stores.{IsStill};
    ghost use Rattle.machine_memory.specs.Audits.{IsCountOf};

    /// Ends the memory, with all guests' accounts gathered: what the books count at last, as `books` has it, and the store. The free
    /// frames, the shared frames and the free slots are given up; what pages hold is for their owners to give up.
    pub fn finish<R: Wait>(self, rt: &R, mut gathered: Gathered) -> (BookCounts, S)
        requires ledger { gathered.ledger ≡ self.books.id }
        requires all { length gathered.pages ≡ self.books.key.guests }
        ensures counts { (all : List (List Page)) → gathered.pages ≡ map outline all → IsCountOf self.books.key all result.0 }
        ensures store { IsStill S.honest S.true_to_digests self.first result.1 }
        ensures slots { S.slots result.1 ≡ self.books.key.slots }
    {
        let counts = self.books(rt, &mut gathered);
        let MachineMemory {
            books: _,
            contents: _,
            pool: _,
            table,
            swap,
            extent: _,
        } = self;
        let (table, table_loan) = table.take(rt);
        table_loan.keep();
        let Table { shares, share: _ } = table;
        shares.close();
        let (swap, swap_loan) = swap.take(rt);
        swap_loan.keep();
        let Swap {
            slots,
            store,
            share: _,
            contents: _,
        } = swap;
        slots.close();
        (counts, store)
    }
}
