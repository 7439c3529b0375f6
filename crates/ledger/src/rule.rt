//! What the parts of a whole are to be together.
ghost use Rattle.std.specs.Prelude.{List, ◌++◌};

use std::marker::Brand;

/// A rule for the parts H of a whole, about a key K.
pub trait Rule<H, K> {
    /// Of a key and of all parts in some order: they are right.
    ghost exact: { K → List H → Type 0 };

    /// The parts when the ledger is made.
    ghost first: { K → List H };
}

/// A rule that a ledger can keep.
pub trait SoundRule<H, K>: Rule<H, K> {
    /// The parts are right when the ledger is made.
    ghost begins: { (key : K) → Self.Rule.exact key (Self.Rule.first key) };

    /// They are right in any order.
    ghost in_any_order: { (key : K) (xs ys zs : List H) → Self.Rule.exact key (xs ++ (ys ++ zs)) → Self.Rule.exact key (ys ++ (xs ++ zs)) };
}

/// What a share's parts become at `Ledger::settle`. It is a proof's choice at that call, for `Brand`, and nothing when it runs.
pub trait NewParts<H> {
    /// The parts.
    ghost parts: { List H };
}

impl<H> NewParts<H> for Brand {
    ghost use Rattle.std.specs.Prelude.{[]};

    ghost parts = { [] };
}
