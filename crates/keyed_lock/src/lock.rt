//! The lock.
ghost use Rattle.std.specs.Prelude.{◌≡◌, ◌≢◌, IfOk, IfErr, IfSome};

use crate::fits::{Close, Fits};
use crate::loan::Loan;
use crate::rule::{Held, LockRule};
use crate::table;
use atomic_table::{Refused, Table};
use std::alloc::Global;
use std::hint;
use std::marker::Model;
use std::sync::Wait;

/// How often a thread looks whether the lock is free before it sleeps. Who takes a lock again and again puts it back for a moment each
/// time, for which a thread that is woken then comes too late; one that looks on may meet it.
const LOOKS: u32 = 2000;

/// A value that one thread at a time has, which fits a key whenever the lock is free. Threads share the lock by reference. In
/// clauses it is a record, `LockIs`. Where it is dropped while it is free, its value is closed.
#[derive(Drop)]
pub struct KeyedLock<T: Fits<K> + Close, K> {
    table: Table<Option<Held<T>>, K, K, LockRule<T, K>, Global>,
}

impl<T: Fits<K> + Close, K> Model for KeyedLock<T, K> {
    ghost use Rattle.std.specs.Prelude.{◌≡◌};
    ghost use Rattle.keyed_lock.specs.Locks.{LockIs};

    ghost Value = { LockIs K };

    ghost view = { λ lock. record { key = lock.table.shared.key; id = lock.table.shared.table_id } };

    ghost invariant = { λ lock. (lock.table.shared.table_id.words ≡ 1) × (lock.table.shared.table_id.slots ≡ 1) };
}

impl<T: Fits<K> + Close, K> KeyedLock<T, K> {
    /// A free lock of this key, with a value that fits it. Where there is no memory the answer is the value.
    pub fn new(alloc: Global, value: T, key: &K) -> Result<KeyedLock<T, K>, T>
        requires fits { T.fits key.now value }
        ensures key { IfOk result (λ lock. lock.key ≡ key.now) }
        ensures back { IfErr result (λ back. back ≡ value) }
    {
        let Ok(mut slots) = Vec::with_capacity(alloc, 1) else {
            return Err(value);
        };
        slots.push_reserved(Some(Held { value }));
        match Table::new(alloc, &[0], slots, key) {
            Ok((table, _seat)) => Ok(KeyedLock { table }),
            Err(Refused { mut slots }) => {
                let Some(Some(held)) = slots.pop() else {
                    unreachable!()
                };
                slots.destroy_empty();
                Err(held.into_value())
            }
        }
    }

    // The value, which fits the key, as soon as a look finds the lock free, which gets this mark then; `None` where each found it held.
    fn take_awake(&self, mark: u64) -> Option<(T, Loan<T, K>)>
        requires { mark ≢ 0 }
        ensures fits { IfSome result (λ taken. T.fits self.now.key taken.0) }
        ensures loan { IfSome result (λ taken. taken.1 ≡ self.now.id) }
    {
        for _ in 0..LOOKS {
            if let Some((value, seat)) = table::take_if_free(&self.table.shared, mark) {
                return Some((value, Loan { seat }));
            }
            hint::spin_loop();
        }
        None
    }

    /// Waits until the lock is free, and takes the value, which fits the key. A thread that waits looks on for a short time, and then
    /// sleeps. No order is kept among those that wait.
    pub fn take<R: Wait>(&self, rt: &R) -> (T, Loan<T, K>)
        ensures fits { T.fits self.now.key result.0 }
        ensures loan { result.1 ≡ self.now.id }
    {
        if let Some(taken) = self.take_awake(1) {
            return taken;
        }
        let shared = &self.table.shared;
        for _ in rt.forever() {
            if let Some((value, seat)) = table::take_or_mark(shared) {
                return (value, Loan { seat });
            }
            shared.park(rt, 0, 2);
            // Others may sleep still: whoever has slept leaves the mark of that.
            if let Some(taken) = self.take_awake(2) {
                return taken;
            }
        }
        unreachable!()
    }

    /// Takes the value, which fits the key, where the lock is free; `None` where it is held. It never waits.
    pub fn try_take(&self) -> Option<(T, Loan<T, K>)>
        ensures fits { IfSome result (λ taken. T.fits self.now.key taken.0) }
        ensures loan { IfSome result (λ taken. taken.1 ≡ self.now.id) }
    {
        let (value, seat) = table::take_if_free(&self.table.shared, 1)?;
        Some((value, Loan { seat }))
    }

    /// Puts a value that fits the key under the lock, which is free then, and wakes a thread that sleeps until it is, where there is
    /// one. The value needn't be the one that was taken.
    pub fn put_back(&self, value: T, loan: Loan<T, K>)
        requires fits { T.fits self.now.key value }
        requires loan { loan ≡ self.now.id }
    {
        let Loan { seat } = loan;
        let shared = &self.table.shared;
        if table::release(shared, value, seat) {
            shared.wake_one(0);
        }
    }

    /// Ends the lock: its value, which fits the key; `None` where the lock is held, so that its value is out for good.
    pub fn into_inner(self) -> Option<T>
        ensures fits { IfSome result (λ value. T.fits self.key value) }
    {
        let KeyedLock { table } = self;
        let mut closed = table.close();
        let is_free = closed.word(0) == 0;
        let slot = closed.take(0);
        closed.free();
        if is_free {
            return Some(slot.unwrap().into_value());
        }
        drop(slot);
        None
    }
}
