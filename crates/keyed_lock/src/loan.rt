//! The loan of a lock's value.
use crate::fits::Close;
use crate::rule::Held;
use atomic_table::Seat;
use std::marker::Model;

/// The value of a lock is out. A loan has no bytes and is not `Drop`, so it ends in `KeyedLock::put_back` or in `keep`. In clauses
/// it is which lock that is.
pub struct Loan<T: Close, K> {
    pub(crate) seat: Seat<Option<Held<T>>, K>,
}

impl<T: Close, K> Model for Loan<T, K> {
    ghost use Rattle.keyed_lock.specs.Locks.{LockId};
    ghost use Rattle.keyed_lock.specs.Rule.{HoldsSlot};

    ghost Value = { LockId };

    ghost view = { λ loan. loan.seat.table_id };

    ghost invariant = { λ loan. HoldsSlot loan.seat.me };
}

impl<T: Close, K> Loan<T, K> {
    /// The value stays out for good. The lock never comes free: `take` waits for ever, `try_take` and `into_inner` answer `None`.
    pub fn keep(self) {
        let Loan { seat } = self;
        drop(seat);
    }
}
