//! The witnesses of a truth.
use crate::steps::PartShare;
use std::marker::Model;

/// What knows whether a truth held when it looked last. It has no bytes. In clauses it is a record, `WitnessIs`.
#[derive(Drop)]
pub struct Witness {
    pub(crate) share: PartShare,
}

impl Model for Witness {
    ghost use Rattle.std.specs.Prelude.{◌≡◌, [], ◌∷◌};
    ghost use Rattle.lasting_truth.specs.declared.part.Part.TheVariants.{Witness};
    ghost use Rattle.lasting_truth.specs.Truths.{WitnessIs};
    ghost use Rattle.lasting_truth.specs.Rule.{told};

    ghost Value = { WitnessIs };

    ghost view = { λ w. record { truth = w.share.ledger; held = told w.share.parts } };

    ghost invariant = { λ w. w.share.parts ≡ Witness (told w.share.parts) ∷ [] };
}
