//! The guests of a host.
ghost use Rattle.std.specs.Prelude.{◌≡◌, ◌<◌, ◌≤◌, [], length, vec_capacity};
ghost use Rattle.guest_cells.specs.Handles.{AreOfMemory};

use crate::auditor::{Auditor, AuditorKey};
use crate::ending::EndedRoom;
use cell::Cell;
use keyed_lock::KeyedLock;
use machine_memory::MachineMemory;
use swapstore::SwapStore;

/// The guests of a host, each behind a lock of its own, and the machine memory around them. Threads share it by reference.
#[derive(Drop)]
pub struct GuestCells<S: SwapStore + Drop> {
    /// The guests, that of number g at place g.
    pub cells: Vec<Cell<S>>,
    /// The memory that all of them are of.
    pub memory: MachineMemory<S>,
    // no account, for whoever audits
    pub(crate) auditor: KeyedLock<Auditor, AuditorKey>,
    // room for what the guests leave when they end
    pub(crate) ended: EndedRoom,
    /// Each guest is of the memory.
    pub ghost its_memory: { AreOfMemory memory cells.items },
    /// There are as many guests as the memory's books have.
    pub ghost count: { length cells.items ≡ memory.books.key.guests },
    /// There is one guest or more.
    pub ghost some: { 0 < length cells.items },
    /// There are 16 guests at most.
    pub ghost few: { length cells.items ≤ 16 },
    /// Whoever audits begins with no account of the memory's books.
    pub ghost none_gathered: { auditor.key.first.value ≡ record { ledger = memory.books.id; pages = [] } },
    /// There is room for what each guest leaves.
    pub ghost room: { length cells.items ≤ vec_capacity ended.list },
    /// That room is free.
    pub ghost none_ended: { ended.list.items ≡ [] },
}
