//! The truth.
ghost use Rattle.std.specs.Prelude.{◌≡◌, ◌&&◌, true, IfOk};

use crate::keeper::{Keeper, Narrowing};
use crate::steps;
use crate::steps::PartLedger;
use crate::witness::Witness;
use ledger::Ledger;
use std::alloc::{AllocError, Global};
use std::marker::Model;

/// A truth value for proofs alone, which is true at first and can only be lost. Threads share it by reference. In clauses it is a
/// record, `TruthIs`; whether it holds is its keeper's.
#[derive(Drop)]
pub struct Truth {
    ledger: PartLedger,
}

impl Model for Truth {
    ghost use Rattle.lasting_truth.specs.Truths.{TruthIs};

    ghost Value = { TruthIs };

    ghost view = { λ t. record { id = t.ledger.id } };
}

impl Truth {
    /// A truth that holds, and its one keeper. `AllocError` where there is no memory for its word.
    pub fn new(alloc: Global) -> Result<(Truth, Keeper), AllocError>
        ensures keeper { IfOk result (λ made. made.1 ≡ record { truth = made.0.id; holds = true }) }
    {
        let (ledger, share) = Ledger::new(alloc, &())?;
        Ok((Truth { ledger }, Keeper { share }))
    }

    /// A new witness, which knows what its keeper knows.
    pub fn witness(&self, keeper: &mut Keeper) -> Witness
        requires keeper { keeper.old.truth ≡ self.now.id }
        ensures keeper { keeper.new ≡ keeper.old }
        ensures witness { result ≡ record { truth = self.now.id; held = keeper.old.holds } }
    {
        Witness {
            share: steps::witness(&self.ledger, &mut keeper.share),
        }
    }

    /// A witness looks: it knows what the keeper knows from then on, and where that still holds, what it knew before was true.
    pub fn look(&self, keeper: &mut Keeper, witness: &mut Witness)
        requires keeper { keeper.old.truth ≡ self.now.id }
        requires witness { witness.old.truth ≡ self.now.id }
        ensures keeper { keeper.new ≡ keeper.old }
        ensures witness { witness.new ≡ record witness.old { held = keeper.old.holds } }
        ensures lasted { keeper.old.holds ≡ true → witness.old.held ≡ true }
    {
        steps::look(&self.ledger, &mut keeper.share, &mut witness.share);
    }

    /// It holds from then on where it held before and what the proof chooses, `N`, is true. What witnesses know stays as it is.
    pub fn narrow<N: Narrowing>(&self, keeper: &mut Keeper)
        requires keeper { keeper.old.truth ≡ self.now.id }
        ensures keeper { keeper.new ≡ record keeper.old { holds = keeper.old.holds && N.still } }
    {
        steps::narrow::<N>(&self.ledger, &mut keeper.share);
    }
}
