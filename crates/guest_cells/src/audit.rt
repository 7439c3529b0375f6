//! What the books of all guests count while their threads run.
ghost use Rattle.std.specs.Prelude.{◌≡◌, ◌+◌, List, length};
ghost use Rattle.guest_pages.specs.declared.page.Page.{Page};
ghost use Rattle.machine_memory.specs.Audits.{IsCountOf};
ghost use Rattle.guest_cells.specs.Handles.{AreOfMemory};
ghost use Rattle.guest_cells.specs.Audits.{AreOutlines};

use crate::GuestCells;
use crate::sitting::{gather, scatter};
use cell::Cell;
use machine_memory::{BookCounts, Gathered, MachineMemory};
use std::sync::Wait;
use swapstore::SwapStore;

// What the books count, with the accounts that are gathered and those of these guests, whose locks are taken in order and held for it.
#[tactic(auto, using(cell::proofs::Level::to_memory, cell::proofs::Level::of_memory, crate::proofs::Gathering::sits_again))]
fn books_with<S: SwapStore + Drop, R: Wait>(
    rt: &R,
    memory: &MachineMemory<S>,
    cells: &[Cell<S>],
    gathered: &mut Gathered,
) -> BookCounts
    requires its_memory { AreOfMemory memory.now cells.now }
    requires ledger { gathered.old.ledger ≡ memory.now.books.id }
    requires outlines { AreOutlines gathered.old.pages }
    requires count { length gathered.old.pages + length cells.now ≡ memory.now.books.key.guests }
    ensures counts { (all : List (List Page)) × (length all ≡ memory.now.books.key.guests) × IsCountOf memory.now.books.key all result }
    ensures gathered { gathered.new ≡ gathered.old }
{
    let Some((cell, rest)) = cells.split_first() else {
        return memory.books(rt, gathered);
    };
    let (mut locked, loan) = cell.lock.take(rt);
    gather(memory, gathered, &mut locked.stake, &locked.guest);
    let counts = books_with(rt, memory, rest, gathered);
    scatter(memory, gathered, &mut locked.stake, &locked.guest);
    cell.lock.put_back(locked, loan);
    counts
}

impl<S: SwapStore + Drop> GuestCells<S> {
    ghost use Rattle.std.specs.Prelude.{◌≡◌, List, length};
    ghost use Rattle.guest_pages.specs.declared.page.Page.{Page};
    ghost use Rattle.machine_memory.specs.Audits.{IsCountOf};

    /// How many frames, pages and slots there are, each kind counted for itself at one moment: the counts are those of exact books of pages of
    /// as many guests as there are, so they add up. Each guest's lock is held for it, taken in rising number, and then those of the memory;
    /// of two audits at once one waits for the other.
    pub fn audit<R: Wait>(&self, rt: &R) -> BookCounts
        ensures { (all : List (List Page)) × (length all ≡ self.now.memory.books.key.guests) × IsCountOf self.now.memory.books.key all result }
    {
        let (mut auditor, loan) = self.auditor.take(rt);
        let counts = books_with(rt, &self.memory, &self.cells, &mut auditor.gathered);
        self.auditor.put_back(auditor, loan);
        counts
    }
}
