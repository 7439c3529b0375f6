//! The keeper of a truth, and how it is narrowed.
ghost use Rattle.std.specs.Prelude.{Bool};

use crate::steps::PartShare;
use std::marker::{Brand, Model};

/// What alone knows whether a truth holds now. It has no bytes. In clauses it is a record, `KeeperIs`. Where it is dropped, what
/// witnesses know stays as it is.
#[derive(Drop)]
pub struct Keeper {
    pub(crate) share: PartShare,
}

impl Model for Keeper {
    ghost use Rattle.std.specs.Prelude.{◌≡◌, [], ◌∷◌};
    ghost use Rattle.lasting_truth.specs.declared.part.Part.TheVariants.{Keeper};
    ghost use Rattle.lasting_truth.specs.Truths.{KeeperIs};
    ghost use Rattle.lasting_truth.specs.Rule.{told};

    ghost Value = { KeeperIs };

    ghost view = { λ k. record { truth = k.share.ledger; holds = told k.share.parts } };

    ghost invariant = { λ k. k.share.parts ≡ Keeper (told k.share.parts) ∷ [] };
}

/// What a truth is narrowed by at `Truth::narrow`. It is a proof's choice at that call, for `Brand`, and nothing when it runs.
pub trait Narrowing {
    /// Whether it holds still, if it did.
    ghost still: { Bool };
}

impl Narrowing for Brand {
    ghost use Rattle.std.specs.Prelude.{true};

    ghost still = { true };
}
