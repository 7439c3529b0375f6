//! The rule of a ledger's table, how the parts in a hand are cut and joined, and what its steps tell.
ghost use Rattle.std.specs.Prelude.{List};

use crate::rule::{NewParts, SoundRule};
use atomic_table::{Join, Play, Seat, Shared, Split, TableRule};
use std::collections::LinkedList;
use std::marker::{Brand, PhantomData};

/// The parts that one token has, those that came last first. No value of it is made: the rule of the table speaks of it.
pub struct Hand<H> {
    pub parts: LinkedList<H>,
}

/// The word of a ledger, as threads share it. It stays 0.
pub type Word<H, K, R> = Shared<(), Hand<H>, K, LedgerRule<R>>;

/// What a share takes its steps with. It has no bytes.
pub type Token<H> = Seat<(), Hand<H>>;

/// The parts in all hands are right.
pub struct LedgerRule<R> {
    marker: PhantomData<R>,
}

impl<H, K, R: SoundRule<H, K>> TableRule<(), Hand<H>, K> for LedgerRule<R> {
    ghost use Rattle.ledger.specs.Hands.{IsKept, hand};

    ghost holds = { λ key s. IsKept (R.exact key) s };

    ghost first = { λ key. hand (R.first key) };
}

/// All parts leave a hand.
pub struct All;

impl<H> Split<Hand<H>> for All {
    ghost use Rattle.std.specs.Prelude.{[]};
    ghost use Rattle.ledger.specs.Hands.{hand};

    ghost left = { λ _. hand [] };

    ghost right = { λ v. v };
}

/// The first part leaves a hand.
pub struct First;

impl<H> Split<Hand<H>> for First {
    ghost use Rattle.std.specs.Prelude.{take, drop};
    ghost use Rattle.ledger.specs.Hands.{hand};

    ghost left = { λ v. hand (drop 1 v.parts) };

    ghost right = { λ v. hand (take 1 v.parts) };
}

/// The parts of another hand come before its own.
pub struct Gather;

impl<H> Join<Hand<H>> for Gather {
    ghost use Rattle.std.specs.Prelude.{[], ◌++◌};
    ghost use Rattle.ledger.specs.Hands.{hand};

    ghost both = { λ v w. hand (w.parts ++ v.parts) };

    ghost spent = { hand [] };
}

/// The parts of a hand become others.
pub struct Settle<N> {
    marker: PhantomData<N>,
}

impl<H, N: NewParts<H>> Play<(), Hand<H>> for Settle<N> {
    ghost use Rattle.std.specs.Prelude.{◌≡◌};
    ghost use Rattle.ledger.specs.Hands.{hand};

    ghost then = { λ _ _ _ after. after.0 ≡ hand N.parts };
}

/// What is said of parts.
pub trait Says<H> {
    ghost says: { List H → Type 0 };
}

impl<H> Says<H> for Brand {
    ghost use Rattle.std.specs.Prelude.{⊤};

    ghost says = { λ _. ⊤ };
}

/// With others, it is so of the parts of a hand, which stay.
pub struct Learn<A> {
    marker: PhantomData<A>,
}

impl<H, A: Says<H>> Play<(), Hand<H>> for Learn<A> {
    ghost use Rattle.std.specs.Prelude.{◌≡◌};
    ghost use Rattle.ledger.specs.Shares.{AreOf};

    ghost then = { λ _ before _ after. (after ≡ before) × AreOf A.says before.0.parts };
}
