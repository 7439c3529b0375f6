//! What the shares of a truth say, and the rule that they keep.
use ledger::{Rule, SoundRule};

/// What one share of a truth says. No value of it is made: the rule of the ledger speaks of it.
pub enum Part {
    /// The keeper's: whether it holds.
    Keeper(bool),
    /// A witness's: whether it held when that looked last.
    Witness(bool),
}

/// There is one keeper, and what it says to hold held whenever a witness looked.
pub struct OneKeeper;

impl Rule<Part, ()> for OneKeeper {
    ghost use Rattle.lasting_truth.specs.Rule.{IsKept, first_parts};

    ghost exact = { λ _ parts. IsKept parts };

    ghost first = { λ _. first_parts };
}

impl SoundRule<Part, ()> for OneKeeper {
    ghost use Rattle.lasting_truth.specs.Rule.{first_is_kept, kept_in_any_order};

    ghost begins = { λ _. first_is_kept };

    ghost in_any_order = { λ _. kept_in_any_order };
}
