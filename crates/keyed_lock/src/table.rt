//! The steps of a lock's table. Its word is 0 while the lock is free, 1 while it is held, and 2 while it is held and somebody may
//! sleep until it is free.
ghost use Rattle.std.specs.Prelude.{◌≡◌, ◌≢◌, ◌<◌, IfSome};
ghost use Rattle.keyed_lock.specs.Rule.{HoldsSlot, HasTaken};

use crate::fits::{Close, Fits};
use crate::rule::{Ask, Enter, Held, LockRule, Release};
use atomic_table::{Seat, Shared};

pub type LockTable<T, K> = Shared<Option<Held<T>>, K, K, LockRule<T, K>>;

// The value, which a seat has just taken, and the seat, which has the slot still.
fn carry_off<T: Fits<K> + Close, K>(
    table: &LockTable<T, K>,
    mut seat: Seat<Option<Held<T>>, K>,
) -> (T, Seat<Option<Held<T>>, K>)
    requires table { seat.table_id ≡ table.now.table_id }
    requires taken { HasTaken (λ held. T.fits table.now.key held.value) seat.me }
    ensures fits { T.fits table.now.key result.0 }
    ensures seat { (result.1.table_id ≡ table.now.table_id) × HoldsSlot result.1.me }
{
    let held = table.exchange(&mut seat, 0, None).unwrap();
    (held.into_value(), seat)
}

// The value, where the lock is free; the word is this mark then, 1 or 2. Where it isn't, the word stays as it is.
pub fn take_if_free<T: Fits<K> + Close, K>(
    table: &LockTable<T, K>,
    mark: u64,
) -> Option<(T, Seat<Option<Held<T>>, K>)>
    requires table { table.now.table_id.words ≡ 1 }
    requires mark { mark ≢ 0 }
    ensures fits { IfSome result (λ taken. T.fits table.now.key taken.0) }
    ensures seat { IfSome result (λ taken. (taken.1.table_id ≡ table.now.table_id) × HoldsSlot taken.1.me) }
{
    let (seen, mut seat) = table.load_new_seat::<Enter>(0);
    if seen != 0 {
        return None;
    }
    let found = table.compare_exchange::<Ask<T, K>>(&mut seat, 0, 0, mark);
    if found != 0 {
        return None;
    }
    Some(carry_off(table, seat))
}

// The value, where the lock is free. The word is 2 either way, so whoever puts the value back wakes somebody.
pub fn take_or_mark<T: Fits<K> + Close, K>(
    table: &LockTable<T, K>,
) -> Option<(T, Seat<Option<Held<T>>, K>)>
    requires table { table.now.table_id.words ≡ 1 }
    ensures fits { IfSome result (λ taken. T.fits table.now.key taken.0) }
    ensures seat { IfSome result (λ taken. (taken.1.table_id ≡ table.now.table_id) × HoldsSlot taken.1.me) }
{
    let (found, seat) = table.swap_new_seat::<Ask<T, K>>(0, 2);
    if found != 0 {
        return None;
    }
    Some(carry_off(table, seat))
}

// Puts the value into the slot, after which the word is 0. Whether somebody may sleep until then.
pub fn release<T: Fits<K> + Close, K>(
    table: &LockTable<T, K>,
    value: T,
    mut seat: Seat<Option<Held<T>>, K>,
) -> bool
    requires table { (table.now.table_id.words ≡ 1) × (table.now.table_id.slots ≡ 1) }
    requires seat { (seat.table_id ≡ table.now.table_id) × HoldsSlot seat.me }
    requires fits { T.fits table.now.key value }
{
    drop(table.exchange(&mut seat, 0, Some(Held { value })));
    table.swap::<Release>(&mut seat, 0, 0) == 2
}
