//! A guest's account, which leaves its stake for those that are gathered and comes back.
ghost use Rattle.std.specs.Prelude.{◌≡◌, ◌∷◌, ◌<◌, [], length, take, drop};
ghost use Rattle.guest_pages.specs.Outline.{outline};
ghost use Rattle.machine_memory.specs.Memories.{IsLevel};
ghost use Rattle.machine_memory.specs.Gathered.{IsEmptied, AreCounted};

use guest::Guest;
use machine_memory::{Gathered, MachineMemory, PageCounts, Stake};
use swapstore::SwapStore;

// How many pages a guest has of each kind.
fn page_counts(guest: &Guest) -> PageCounts
    ensures { AreCounted guest.now.bus.pages result.private result.shared result.swapped }
{
    PageCounts {
        private: guest.private(),
        shared: guest.shared(),
        swapped: guest.swapped(),
    }
}

/// The account of a guest comes to those that are gathered. Until it has come back the stake serves for nothing else.
pub(crate) fn gather<S: SwapStore + Drop>(
    memory: &MachineMemory<S>,
    gathered: &mut Gathered,
    stake: &mut Stake,
    guest: &Guest,
)
    requires ledger { gathered.old.ledger ≡ memory.now.books.id }
    requires more { length gathered.old.pages < memory.now.books.key.guests }
    requires level { IsLevel memory.now stake.old guest.now.bus.pages }
    ensures gathered { gathered.new ≡ record gathered.old { pages = outline guest.now.bus.pages ∷ gathered.old.pages } }
    ensures stake { IsEmptied memory.now stake.new guest.now.bus.pages }
    ensures contents { stake.new.contents ≡ stake.old.contents }
{
    memory.gather(gathered, stake, guest, page_counts(guest));
}

/// The account that came last, which is a guest's, goes back to its stake.
pub(crate) fn scatter<S: SwapStore + Drop>(
    memory: &MachineMemory<S>,
    gathered: &mut Gathered,
    stake: &mut Stake,
    guest: &Guest,
)
    requires ledger { gathered.old.ledger ≡ memory.now.books.id }
    requires last { take 1 gathered.old.pages ≡ outline guest.now.bus.pages ∷ [] }
    requires stake { IsEmptied memory.now stake.old guest.now.bus.pages }
    ensures gathered { gathered.new ≡ record gathered.old { pages = drop 1 gathered.old.pages } }
    ensures stake { IsLevel memory.now stake.new guest.now.bus.pages }
    ensures contents { stake.new.contents ≡ stake.old.contents }
{
    memory.scatter(gathered, stake, guest, page_counts(guest));
}
