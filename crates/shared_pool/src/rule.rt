//! The rule of the free frames, how passes are cut and joined, and what their steps tell.
ghost use Rattle.std.specs.Prelude.{List, ℕ};
ghost use Rattle.ledger.specs.Shares.{LedgerId};

use crate::hand::Hand;
use crate::resting::Resting;
use crossbeam_queue::protocol::{Join, Lesson, Outcome, Protocol, Split};
use std::marker::{Brand, PhantomData};

/// Each frame waits, or is out with whoever took it.
pub struct EachOnce;

impl Protocol<Resting, Hand> for EachOnce {
    ghost use Rattle.shared_pool.specs.Balance.{Balanced, first_hand};

    ghost holds = { Balanced };

    ghost first = { first_hand };
}

/// Which frames there are, and the ledger of their accounts. It is a proof's choice when a pool is made, for `Brand`, and nothing
/// when it runs.
pub trait Founding {
    /// The numbers of all frames.
    ghost numbers: { List ℕ };

    /// The ledger.
    ghost ledger: { LedgerId };
}

impl Founding for Brand {
    ghost use Rattle.std.specs.Prelude.{[]};
    ghost use Rattle.shared_pool.specs.Balance.{no_ledger};

    ghost numbers = { [] };

    ghost ledger = { no_ledger };
}

/// The first pass knows which frames there are from then on, and counts as having taken them all. A second one has nothing.
pub struct Found<N> {
    marker: PhantomData<N>,
}

impl<N: Founding> Split<Hand> for Found<N> {
    ghost use Rattle.std.specs.Prelude.{[]};
    ghost use Rattle.shared_pool.specs.Balance.{hand, all_parts, spent_hand};

    ghost left = { λ _. hand all_parts N.numbers [] N.numbers N.ledger };

    ghost right = { λ _. spent_hand };
}

/// A pass of one part leaves another, and a pass takes in another.
pub struct Cut;

impl Split<Hand> for Cut {
    ghost use Rattle.std.specs.Prelude.{[], ◌-◌};
    ghost use Rattle.shared_pool.specs.Balance.{hand};

    ghost left = { λ v. hand (v.parts - 1) v.whole v.put v.taken v.of };

    ghost right = { λ v. hand 1 v.whole [] [] v.of };
}

impl Join<Hand> for Cut {
    ghost use Rattle.shared_pool.specs.Balance.{spent_hand, with_other};

    ghost both = { with_other };

    ghost spent = { spent_hand };
}

/// A frame is put. Where the queue was full, nothing is told.
pub struct Put;

impl Outcome<Resting, Hand> for Put {
    ghost use Rattle.std.specs.Prelude.{◌≡◌};
    ghost use Rattle.shared_pool.specs.Balance.{hand_put};

    ghost then = { λ v free w. w ≡ hand_put v free.number };
}

impl Lesson<Resting, Hand> for Put {
    ghost use Rattle.std.specs.Prelude.{⊤};

    ghost fact = { λ _ _. ⊤ };
}

/// A frame is taken, and its account is of the pass's ledger. Where none waited, the pass learns how it stands with none.
pub struct Take;

impl Outcome<Resting, Hand> for Take {
    ghost use Rattle.std.specs.Prelude.{◌≡◌};
    ghost use Rattle.shared_pool.specs.Balance.{hand_taken};

    ghost then = { λ v free w. (w ≡ hand_taken v free.number) × (free.ledger ≡ v.of) };
}

impl Lesson<Resting, Hand> for Take {
    ghost use Rattle.shared_pool.specs.Balance.{Stands};

    ghost fact = { Stands };
}
