//! The passes of a pool.
use crate::queue::QueuePass;
use std::marker::Model;

/// The right to take frames from a pool and to give it some. It has no bytes. In clauses it is a record, `PassIs`. Where a pass is
/// dropped, nobody knows any more that all frames that are not out wait.
#[derive(Drop)]
pub struct PoolPass {
    pub(crate) pass: QueuePass,
}

impl Model for PoolPass {
    ghost use Rattle.std.specs.Prelude.{◌≡◌, ◌<◌, []};
    ghost use Rattle.shared_pool.specs.Pools.{PassIs};

    ghost Value = { PassIs };

    ghost view = { λ p. record { pool = p.pass.table_id; hand = p.pass.me.0.client } };

    ghost invariant = { λ p. (p.pass.me.1 ≡ []) × (0 < p.pass.me.0.client.parts) };
}
