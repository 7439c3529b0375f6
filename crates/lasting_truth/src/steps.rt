//! The steps of a truth's ledger.
ghost use Rattle.std.specs.Prelude.{◌≡◌, ◌&&◌, [], ◌∷◌, true};
ghost use Rattle.lasting_truth.specs.Rule.{told};

use crate::keeper::Narrowing;
use crate::part::{OneKeeper, Part};
use ledger::{Ledger, Share};
use std::marker::Brand;

/// The ledger whose parts are the keeper's and the witnesses'.
pub type PartLedger = Ledger<Part, (), OneKeeper>;

/// What a keeper or a witness takes its steps with. It has no bytes.
pub type PartShare = Share<Part>;

// A witness's share: what the keeper says holds.
pub fn witness(ledger: &PartLedger, keeper: &mut PartShare) -> PartShare
    requires ledger { keeper.old.ledger ≡ ledger.now.id }
    requires keeper { keeper.old.parts ≡ Part.Keeper (told keeper.old.parts) ∷ [] }
    ensures keeper { keeper.new ≡ keeper.old }
    ensures witness { result ≡ record keeper.old { parts = Part.Witness (told keeper.old.parts) ∷ [] } }
{
    ledger.settle::<Brand>(keeper);
    ledger.part(keeper)
}

// A witness's share says what the keeper's says.
pub fn look(ledger: &PartLedger, keeper: &mut PartShare, witness: &mut PartShare)
    requires ledger { (keeper.old.ledger ≡ ledger.now.id) × (witness.old.ledger ≡ ledger.now.id) }
    requires keeper { keeper.old.parts ≡ Part.Keeper (told keeper.old.parts) ∷ [] }
    requires witness { witness.old.parts ≡ Part.Witness (told witness.old.parts) ∷ [] }
    ensures keeper { keeper.new ≡ keeper.old }
    ensures witness { witness.new ≡ record witness.old { parts = Part.Witness (told keeper.old.parts) ∷ [] } }
    ensures lasted { told keeper.old.parts ≡ true → told witness.old.parts ≡ true }
{
    ledger.lend(keeper, witness);
    ledger.learn(keeper);
    ledger.settle::<Brand>(keeper);
    *witness = ledger.part(keeper);
}

// The keeper's share says what it said and what N says.
pub fn narrow<N: Narrowing>(ledger: &PartLedger, keeper: &mut PartShare)
    requires ledger { keeper.old.ledger ≡ ledger.now.id }
    requires keeper { keeper.old.parts ≡ Part.Keeper (told keeper.old.parts) ∷ [] }
    ensures keeper { keeper.new ≡ record keeper.old { parts = Part.Keeper (told keeper.old.parts && N.still) ∷ [] } }
{
    ledger.settle::<Brand>(keeper);
}
