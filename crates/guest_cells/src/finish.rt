//! The end of the guests.
use crate::ending::end_all;
use crate::{GuestCells, Handles};
use cell::Ended;
use machine_memory::BookCounts;
use std::sync::Wait;
use swapstore::SwapStore;

/// What guests and their memory leave at their end.
pub struct Finished<S> {
    /// What the books count at last.
    pub books: BookCounts,
    /// What each guest leaves, that of number g at place g. Its stake has no account any more: the memory has ended with it.
    pub guests: Vec<Ended>,
    /// The swap store.
    pub store: S,
}

impl<S: SwapStore + Drop> GuestCells<S> {
    ghost use Rattle.std.specs.Prelude.{◌≡◌, All};
    ghost use Rattle.guest.specs.Guests.{Intact};
    ghost use Rattle.lent_pages.specs.Stores.{IsStill};
    ghost use Rattle.machine_memory.specs.Audits.{IsCountOf};
    ghost use Rattle.guest_cells.specs.Handles.{AreHandlesOfAll};
    ghost use Rattle.guest_cells.specs.Ends.{HaveEnded, pages_left};

    /// Ends the guests' locks and their memory, once no thread uses them: what each guest leaves, as `Cell::finish` has it; what the books
    /// of their pages count at last; and the swap store. The handles are those of all guests, in rising number.
    ///
    /// Where the swap store was true to digests when the memory was made, each guest is its run.
    pub fn finish<R: Wait>(self, rt: &R, handles: Vec<Handles>) -> Finished<S>
        requires handles { AreHandlesOfAll self.cells.items handles.items }
        ensures guests { HaveEnded S.true_to_digests self.cells.items handles.items result.guests.items }
        ensures runs { S.true_to_digests self.memory.first → All (λ e. Intact e.guest) result.guests.items }
        ensures books { IsCountOf self.memory.books.key (pages_left result.guests.items) result.books }
        ensures store { IsStill S.honest S.true_to_digests self.memory.first result.store }
        ensures slots { S.slots result.store ≡ self.memory.books.key.slots }
    {
        let GuestCells {
            mut cells,
            memory,
            auditor,
            ended,
        } = self;
        let mut handles = handles;
        let (auditor, loan) = auditor.take(rt);
        loan.keep();
        let mut gathered = auditor.into_gathered();
        let mut guests = ended.into_list();
        end_all(
            rt,
            &memory,
            &mut cells,
            &mut handles,
            &mut gathered,
            &mut guests,
        );
        let (books, store) = memory.finish(rt, gathered);
        Finished {
            books,
            guests,
            store,
        }
    }
}
