//! What a page handed back goes where it belongs.
ghost use Rattle.std.specs.Prelude.{◌≡◌, ℕ, ◌+◌, ◌<◌, List, length, slice_set};
ghost use Rattle.frames.specs.Counts.{count_of};
ghost use Rattle.sharetab.specs.Entries.{count_at, frames_shared, entry_count};
ghost use Rattle.sharetab.specs.Books.{Leaves};
ghost use Rattle.frames.specs.FreeList.{FreeList};
ghost use Rattle.sharetab.specs.Entries.{EntriesAre};
ghost use Rattle.guest_pages.specs.declared.page.Page.{Page};
ghost use Rattle.guest_pages.specs.declared.page.Page.TheVariants.{Given};
ghost use Rattle.guest_pages.specs.Pages.{page_at, handed_back};
ghost use Rattle.page_moves.specs.Moves.{Conserves};
ghost use Rattle.page_moves.specs.Returns.{IsOut, GoesBack};

use framepool::Pool;
use frames::ShareTicket;
use guest_pages::Returned;
use sharetab::Shares;
use swapstore::SlotBook;

// A ticket goes back to its entry, and the entry's frame to the pool where that was the last ticket.
pub(crate) fn ticket_back(ticket: ShareTicket, pool: &mut Pool, shares: &mut Shares)
    requires ticket { 0 < count_at shares.old.entries ticket }
    requires out { 0 < pool.old.out }
    ensures frames { (k : ℕ) → count_of k pool.new.free + frames_shared k shares.new.entries ≡ count_of k pool.old.free + frames_shared k shares.old.entries }
    ensures out { pool.new.out + entry_count shares.old.entries ≡ pool.old.out + entry_count shares.new.entries }
    ensures leaves { Leaves shares.old.entries ticket shares.new.entries }
    ensures hints { shares.new.hints ≡ shares.old.hints }
{
    match shares.leave(ticket) {
        Some(no) => pool.give(no),
        None => {}
    }
}

/// What a page handed back goes where it belongs: a frame to the pool, a ticket to its entry, with the entry's frame to the
/// pool where that was the last ticket, and a slot to the free slots.
pub fn give_back(returned: Returned, pool: &mut Pool, slots: &mut SlotBook, shares: &mut Shares)
    requires { IsOut pool.old slots.old shares.old.entries returned }
    ensures goes_back { GoesBack returned pool.old slots.old shares.old.entries pool.new slots.new shares.new.entries }
    ensures hints { shares.new.hints ≡ shares.old.hints }
{
    match returned {
        Returned::Nothing => {}
        Returned::Frame(frame) => pool.give(frame.strip()),
        Returned::Ticket(ticket) => ticket_back(ticket, pool, shares),
        Returned::Slot(slot) => slots.give(slot),
    }
}

/// A law: where a page is given and what it handed back has gone back, nothing is lost or made.
#[tactic(auto, using(crate::proofs::GoingBack::given_conserves))]
pub fn a_given_page_is_conserved()
    ensures { (pages pages' : List Page) (p : ℕ) (pool book : FreeList) (es : EntriesAre) (pool' book' : FreeList) (es' : EntriesAre) → p < length pages →
        pages' ≡ slice_set pages p Given → GoesBack (handed_back (page_at pages p)) pool book es pool' book' es' →
        Conserves pages pool book es pages' pool' book' es' }
{}
