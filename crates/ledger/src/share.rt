//! Shares of a whole.
use crate::hand::Token;
use std::marker::Model;

/// Some parts of the whole of a ledger. It has no bytes. In clauses it is a record, `ShareIs`. The parts of a share that is dropped
/// are in no other share from then on.
#[derive(Drop)]
pub struct Share<H> {
    pub(crate) token: Token<H>,
}

impl<H> Model for Share<H> {
    ghost use Rattle.ledger.specs.Shares.{ShareIs};

    ghost Value = { ShareIs H };

    ghost view = { λ share. record { ledger = share.token.table_id; parts = share.token.me.0.parts } };
}
