//! The rule of the books.
use crate::account::{Account, Extent};
use ledger::{Ledger, Rule, Share, SoundRule};

/// All accounts together are exact books.
pub struct ExactBooks;

impl Rule<Account, Extent> for ExactBooks {
    ghost use Rattle.accounts.specs.Exact.{Exact, opening};

    ghost exact = { Exact };

    ghost first = { opening };
}

impl SoundRule<Account, Extent> for ExactBooks {
    ghost use Rattle.accounts.specs.Laws.{opening_is_exact, exact_in_any_order};

    ghost begins = { opening_is_exact };

    ghost in_any_order = { exact_in_any_order };
}

/// The books of all frames, slots and tickets. In clauses its key is an `Extent`.
pub type Books = Ledger<Account, Extent, ExactBooks>;

/// The accounts of one owner, or of several while they are settled.
pub type BookShare = Share<Account>;
