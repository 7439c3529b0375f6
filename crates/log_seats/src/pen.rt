//! The pen of a log.
ghost use Rattle.std.specs.Prelude.{◌≡◌, ◌==◌, length};

use crate::rule::Token;
use std::marker::Model;

/// The right to append to a log, which one value alone has. It knows the log, and how many seats there are. In clauses it is a
/// record, `PenIs`.
#[derive(Drop)]
pub struct Pen {
    pub(crate) token: Token,
    // The length of the log.
    pub(crate) count: u64,
    // What the head's word says: nothing else writes it.
    pub(crate) shown: u64,
    // The number of the next seat.
    pub(crate) next: u8,
}

impl Model for Pen {
    ghost use Rattle.std.specs.Prelude.{◌≡◌, true, length};
    ghost use Rattle.log_seats.specs.Heads.{PenIs};

    ghost Value = { PenIs };

    ghost view = { λ p. record { head = p.token.table_id; log = p.token.me.0.pen.log; next = p.token.me.0.pen.next } };

    ghost invariant = { λ p. (p.count ≡ length p.token.me.0.pen.log) × (p.next ≡ p.token.me.0.pen.next) × (p.token.me.0.pen.present ≡ true) };
}

impl Pen {
    /// How many items the log has.
    #[inline]
    pub fn len(&self) -> u64
        ensures { result ≡ length self.now.log }
    {
        self.count
    }

    /// Whether the log has no item.
    #[inline]
    pub fn is_empty(&self) -> bool
        ensures { result ≡ (length self.now.log == 0) }
    {
        self.count == 0
    }

    /// How many seats were made: the number of the next one.
    pub fn seats(&self) -> u8
        ensures { result ≡ self.now.next }
    {
        self.next
    }
}
