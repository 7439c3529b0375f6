//! The seats of a log.
ghost use Rattle.std.specs.Prelude.{◌≡◌, length};

use crate::rule::Token;
use items::SeatNo;
use std::marker::Model;

/// One seat of a log: its number, what it has seen of the log, which is a beginning of it, and what items it has made. In clauses
/// it is a record, `SeatIs`.
#[derive(Drop)]
pub struct Seat {
    pub(crate) token: Token,
    pub(crate) number: SeatNo,
    // The length of what it has seen.
    pub(crate) seen: u64,
}

impl Model for Seat {
    ghost use Rattle.std.specs.Prelude.{◌≡◌, true, length};
    ghost use Rattle.log_seats.specs.Heads.{SeatIs};

    ghost Value = { SeatIs };

    ghost view = { λ s.
        record { head = s.token.table_id; number = s.token.me.0.first.number; saw = s.token.me.0.first.saw; made = s.token.me.0.first.made } };

    ghost invariant = { λ s. (s.number ≡ s.token.me.0.first.number) × (s.seen ≡ length s.token.me.0.first.saw) × (s.token.me.0.first.present ≡ true) };
}

impl Seat {
    /// The number that its items have.
    #[inline]
    pub fn number(&self) -> SeatNo
        ensures { result ≡ self.now.number }
    {
        self.number
    }

    /// How long a beginning of the log it has seen.
    #[inline]
    pub fn seen_len(&self) -> u64
        ensures { result ≡ length self.now.saw }
    {
        self.seen
    }
}
