//! How guests leave their locks.
ghost use Rattle.std.specs.Prelude.{◌≡◌, ◌+◌, ◌≤◌, ◌++◌, [], length, map, vec_capacity};
ghost use Rattle.guest_pages.specs.Outline.{outline};
ghost use Rattle.machine_memory.specs.Memories.{IsLevel};
ghost use Rattle.guest_cells.specs.Handles.{AreOfMemory, AreHandlesOf, AreHandlesOfAll};
ghost use Rattle.guest_cells.specs.Ends.{HasEnded, HaveEnded, pages_left};
ghost use Rattle.cell.specs.Level.{IsMemoryOf};

use crate::Handles;
use crate::sitting::gather;
use cell::{Cell, Ended};
use machine_memory::{Gathered, MachineMemory};
use std::sync::Wait;
use swapstore::SwapStore;

/// Room for what guests leave when they end. Where it is dropped, they are given up.
pub(crate) struct EndedRoom {
    pub list: Vec<Ended>,
}

/// Gives up what a guest has left.
pub(crate) fn close(ended: Ended) {
    let Ended {
        guest,
        stake,
        seats,
        rest,
        keeper,
    } = ended;
    drop(stake);
    drop(seats);
    drop(rest);
    drop(keeper);
    guest.close();
}

impl EndedRoom {
    ghost use Rattle.std.specs.Prelude.{◌≡◌};

    /// The room.
    pub fn into_list(self) -> Vec<Ended>
        ensures { result ≡ self.list }
    {
        let EndedRoom { list } = self;
        list
    }
}

impl Drop for EndedRoom {
    fn drop(self) {
        let EndedRoom { mut list } = self;
        while let Some(ended) = list.pop() {
            close(ended);
        }
        list.destroy_empty();
    }
}

// A guest leaves its lock.
#[tactic(auto, using(cell::proofs::Level::to_memory))]
fn end<S: SwapStore + Drop, R: Wait>(
    rt: &R,
    memory: &MachineMemory<S>,
    cell: Cell<S>,
    handles: Handles,
) -> Ended
    requires its_memory { IsMemoryOf cell.front.first.value memory.now }
    requires handles { AreHandlesOf cell.front handles }
    ensures ended { HasEnded S.true_to_digests cell.front handles result }
    ensures level { IsLevel memory.now result.stake result.guest.bus.pages }
{
    let _memory = memory;
    let Handles { seats, feed } = handles;
    cell.finish(rt, seats, feed)
}

/// The guests leave their locks, and their accounts come to those that are gathered, that of the highest number first.
pub(crate) fn end_all<S: SwapStore + Drop, R: Wait>(
    rt: &R,
    memory: &MachineMemory<S>,
    cells: &mut Vec<Cell<S>>,
    handles: &mut Vec<Handles>,
    gathered: &mut Gathered,
    ended: &mut Vec<Ended>,
)
    requires its_memory { AreOfMemory memory.now cells.old.items }
    requires handles { AreHandlesOfAll cells.old.items handles.old.items }
    requires ledger { gathered.old.ledger ≡ memory.now.books.id }
    requires more { length gathered.old.pages + length cells.old.items ≤ memory.now.books.key.guests }
    requires none { ended.old.items ≡ [] }
    requires room { length cells.old.items ≤ vec_capacity ended.old }
    ensures cells { cells.new.items ≡ [] }
    ensures handles { handles.new.items ≡ [] }
    ensures ended { HaveEnded S.true_to_digests cells.old.items handles.old.items ended.new.items }
    ensures room { vec_capacity ended.new ≡ vec_capacity ended.old }
    ensures gathered { gathered.new ≡ record gathered.old { pages = map outline (pages_left ended.new.items) ++ gathered.old.pages } }
{
    let Some(cell) = cells.pop() else {
        return;
    };
    let Some(its_handles) = handles.pop() else {
        unreachable!()
    };
    let mut last = end(rt, memory, cell, its_handles);
    gather(memory, gathered, &mut last.stake, &last.guest);
    end_all(rt, memory, cells, handles, gathered, ended);
    ended.push_reserved(last);
}
