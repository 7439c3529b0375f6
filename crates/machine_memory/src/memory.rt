//! Machine memory.
use accounts::{Books, Extent};
use keyed_lock::KeyedLock;
use lent_pages::{Swap, SwapKey, Table, TableKey};
use shared_pool::SharedPool;
use slot_contents::Contents;
use std::marker::Model;
use swapstore::SwapStore;

/// The frames and slots of a machine, which the threads of a host share by reference. In clauses it is a record, `MemoryIs`. Where it is
/// dropped, its free frames, its shared frames and its free slots are given up, and so is the store.
#[derive(Drop)]
pub struct MachineMemory<S: SwapStore + Drop> {
    pub(crate) books: Books,
    pub(crate) contents: Contents,
    pub(crate) pool: SharedPool,
    pub(crate) table: KeyedLock<Table, TableKey>,
    pub(crate) swap: KeyedLock<Swap<S>, SwapKey<S>>,
    pub(crate) extent: Extent,
}

impl<S: SwapStore + Drop> Model for MachineMemory<S> {
    ghost use Rattle.std.specs.Prelude.{◌≡◌};
    ghost use Rattle.machine_memory.specs.Memories.{MemoryIs};

    ghost Value = { MemoryIs S };

    ghost view = { λ m. record { books = m.books; contents = m.contents; pool = m.pool; first = m.swap.key.first.value } };

    ghost invariant = { λ m. (m.table.key.books.value ≡ m.books) × (m.swap.key.books.value ≡ m.books) × (m.swap.key.contents.value ≡ m.contents) × (m.extent ≡ m.books.key) };
}

unsafe impl<S: SwapStore + Drop + Send> Sync for MachineMemory<S> {}
