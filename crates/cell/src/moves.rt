//! Moves of a guest's pages for those who look after the memory.
ghost use Rattle.std.specs.Prelude.{◌≡◌, ◌≢◌, ◌<◌, ◌≤◌, true, IsTrue, length};
ghost use Rattle.sharetab.specs.declared.guest_page.GuestPage.{GuestPage};
ghost use Rattle.guest_pages.specs.Pages.{kind_at, is_resident};
ghost use Rattle.cell.specs.Level.{IsMemoryOf};
ghost use Rattle.cell.specs.Sitting.{Sits};

use crate::lending::{evict_over, scan_over};
use crate::{Cell, Front, Locked};
use guest_number::GuestNo;
use machine_memory::{EvictError, MachineMemory};
use page_moves::Scan;
use std::sync::Wait;
use swapstore::SwapStore;
use taxpolicy::SAMPLE_SIZE;
use victims::drawn_page;
use word32::Ppn;

/// Why no page of a guest has left its frame.
#[derive(Clone, Copy, Debug, PartialEq, Eq)]
pub enum Kept {
    /// The guest has no more pages in frames than it always keeps.
    AtMinimum,
    /// No slot was free.
    NoSwap,
    /// The store failed to write the slot.
    SwapWrite,
}

/// How many pages a guest has, and where.
#[derive(Clone, Copy, Debug, PartialEq, Eq)]
pub struct PageStat {
    /// All its pages.
    pub pages: u32,
    /// Those in a frame, their own or a shared one.
    pub resident: u32,
    /// Those that its balloon holds.
    pub given: u32,
    /// Those that its balloon is asked to hold.
    pub target: u32,
}

// A page that is in a frame leaves it for a slot.
#[tactic(auto, using(crate::proofs::Sitting::sits_on, crate::proofs::Level::to_memory, crate::proofs::Level::of_memory))]
fn evict_in<S: SwapStore + Drop, R: Wait>(
    rt: &R,
    memory: &MachineMemory<S>,
    front: &Front<S>,
    locked: &mut Locked,
    page: Ppn,
) -> Result<(), EvictError>
    requires sits { Sits S.true_to_digests front.now locked.old }
    requires memory { IsMemoryOf front.now.first.value memory.now }
    requires there { page < length locked.old.guest.value.bus.pages }
    requires resident { IsTrue (is_resident (kind_at locked.old.guest.value.bus.pages page)) }
    ensures sits { Sits S.true_to_digests front.now locked.new }
{
    evict_over(rt, memory, &mut locked.stake, &mut locked.guest, page)
}

// The page that is drawn leaves its frame, where the guest has one more than it keeps.
fn evict_drawn<S: SwapStore + Drop, R: Wait>(
    rt: &R,
    memory: &MachineMemory<S>,
    front: &Front<S>,
    locked: &mut Locked,
    word: u32,
) -> Result<Ppn, Kept>
    requires sits { Sits S.true_to_digests front.now locked.old }
    requires memory { IsMemoryOf front.now.first.value memory.now }
    ensures sits { Sits S.true_to_digests front.now locked.new }
{
    if locked.guest.resident() <= front.minimum.max(2) {
        return Err(Kept::AtMinimum);
    }
    let page = drawn_page(&locked.guest, &None, word);
    match evict_in(rt, memory, front, locked, page) {
        Ok(()) => Ok(page),
        Err(EvictError::NoSwap) => Err(Kept::NoSwap),
        Err(EvictError::SwapWrite) => Err(Kept::SwapWrite),
    }
}

// A page is scanned.
#[tactic(auto, using(crate::proofs::Sitting::sits_on, crate::proofs::Level::to_memory, crate::proofs::Level::of_memory))]
fn scan_in<S: SwapStore + Drop, R: Wait>(
    rt: &R,
    memory: &MachineMemory<S>,
    front: &Front<S>,
    locked: &mut Locked,
    guest: GuestNo,
    page: Ppn,
) -> Scan
    requires sits { Sits S.true_to_digests front.now locked.old }
    requires memory { IsMemoryOf front.now.first.value memory.now }
    ensures sits { Sits S.true_to_digests front.now locked.new }
    ensures another { (other : GuestPage) → result ≡ Scan.Admitted other → other ≢ record { guest = guest; page = page } }
{
    scan_over(
        rt,
        memory,
        &mut locked.stake,
        &mut locked.guest,
        guest,
        page,
    )
}

impl<S: SwapStore + Drop> Cell<S> {
    ghost use Rattle.std.specs.Prelude.{◌≡◌, ◌≢◌, ◌≤◌};
    ghost use Rattle.sharetab.specs.declared.guest_page.GuestPage.{GuestPage};
    ghost use Rattle.cell.specs.Level.{IsMemoryOf};

    /// A page of the guest leaves its frame for a slot, where the guest has more pages in frames than it always keeps: the first one in a
    /// frame at or after the word modulo its pages, going round, which is answered. The guest doesn't notice. It takes no memory.
    pub fn evict<R: Wait>(&self, rt: &R, memory: &MachineMemory<S>, word: u32) -> Result<Ppn, Kept>
        requires { IsMemoryOf self.now.front.first.value memory.now }
    {
        let (mut locked, loan) = self.lock.take(rt);
        let done = evict_drawn(rt, memory, &self.front, &mut locked, word);
        self.lock.put_back(locked, loan);
        done
    }

    /// Scans a page of the guest, of this number, for one of equal bytes, as `MachineMemory::scan` does. The guest doesn't notice. The
    /// page that `Admitted` names is another one.
    pub fn scan<R: Wait>(
        &self,
        rt: &R,
        memory: &MachineMemory<S>,
        guest: GuestNo,
        page: Ppn,
    ) -> Scan
        requires { IsMemoryOf self.now.front.first.value memory.now }
        ensures another { (other : GuestPage) → result ≡ Scan.Admitted other → other ≢ record { guest = guest; page = page } }
    {
        let (mut locked, loan) = self.lock.take(rt);
        let scan = scan_in(rt, memory, &self.front, &mut locked, guest, page);
        self.lock.put_back(locked, loan);
        scan
    }

    /// How many pages the guest has, how many of them are in a frame, how many its balloon holds, and how many it is asked to hold.
    pub fn stat<R: Wait>(&self, rt: &R) -> PageStat
        ensures { result.resident ≤ result.pages }
    {
        let (locked, loan) = self.lock.take(rt);
        let stat = PageStat {
            pages: locked.guest.page_count(),
            resident: locked.guest.resident(),
            given: locked.guest.view().devices.given(),
            target: locked.guest.view().devices.target(),
        };
        self.lock.put_back(locked, loan);
        stat
    }

    /// How many of these draws are of a page that was accessed since it was last drawn.
    pub fn touched<R: Wait>(&self, rt: &R, draws: &[u32; SAMPLE_SIZE]) -> u16
        ensures { result ≤ 100 }
    {
        let (locked, loan) = self.lock.take(rt);
        let touched = locked.guest.touched(draws);
        self.lock.put_back(locked, loan);
        touched
    }

    /// From now on none of the pages that were drawn counts as accessed, until it is again.
    #[tactic(auto, using(crate::proofs::Sitting::sits_still))]
    pub fn clear_touched<R: Wait>(&self, rt: &R, draws: &[u32; SAMPLE_SIZE]) {
        let (mut locked, loan) = self.lock.take(rt);
        locked.guest.clear_touched(draws);
        self.lock.put_back(locked, loan);
    }
}
