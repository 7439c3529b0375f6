//! The passes of a console queue.
use crate::ring::RingPass;
use std::marker::Model;

/// The right to put bytes into a queue, which one value alone has. It has no bytes. In clauses it is a record, `FeedIs`.
#[derive(Drop)]
pub struct FeedPass {
    pub(crate) pass: RingPass,
}

impl Model for FeedPass {
    ghost use Rattle.std.specs.Prelude.{◌≡◌, true, false, []};
    ghost use Rattle.console_queue.specs.Rule.{log};
    ghost use Rattle.console_queue.specs.Queues.{FeedIs};

    ghost Value = { FeedIs };

    ghost view = { λ p. record { queue = p.pass.table_id; put = p.pass.me.0.client.put } };

    ghost invariant = { λ p. (p.pass.me.1 ≡ []) × (p.pass.me.0.client ≡ log true false p.pass.me.0.client.put []) };
}

/// The right to take bytes from a queue, which one value alone has. It has no bytes. In clauses it is a record, `TakeIs`.
#[derive(Drop)]
pub struct TakePass {
    pub(crate) pass: RingPass,
}

impl Model for TakePass {
    ghost use Rattle.std.specs.Prelude.{◌≡◌, true, false, []};
    ghost use Rattle.console_queue.specs.Rule.{log};
    ghost use Rattle.console_queue.specs.Queues.{TakeIs};

    ghost Value = { TakeIs };

    ghost view = { λ p. record { queue = p.pass.table_id; taken = p.pass.me.0.client.taken } };

    ghost invariant = { λ p. (p.pass.me.1 ≡ []) × (p.pass.me.0.client ≡ log false true [] p.pass.me.0.client.taken) };
}
