//! The ledger.
ghost use Rattle.std.specs.Prelude.{◌≡◌, [], ◌++◌, take, drop, IfOk};
ghost use Rattle.ledger.specs.Shares.{AreOf, Become};

use crate::hand::{Hand, LedgerRule};
use crate::rule::{NewParts, SoundRule};
use crate::share::Share;
use crate::tokens;
use atomic_table::Table;
use std::alloc::{AllocError, Global};
use std::marker::{Brand, Model};

/// A whole whose parts are in shares, and are right together by the rule R. Threads share it by reference. In clauses it is a
/// record, `LedgerIs`.
#[derive(Drop)]
pub struct Ledger<H, K, R: SoundRule<H, K>> {
    table: Table<(), Hand<H>, K, LedgerRule<R>, Global>,
}

impl<H, K, R: SoundRule<H, K>> Model for Ledger<H, K, R> {
    ghost use Rattle.std.specs.Prelude.{◌≡◌};
    ghost use Rattle.ledger.specs.Shares.{LedgerIs};

    ghost Value = { LedgerIs K };

    ghost view = { λ ledger. record { key = ledger.table.shared.key; id = ledger.table.shared.table_id } };

    ghost invariant = { λ ledger. ledger.table.shared.table_id.words ≡ 1 };
}

impl<H, K, R: SoundRule<H, K>> Ledger<H, K, R> {
    /// A ledger about this key, and a share with all parts that the rule has at first. `AllocError` where there is no memory.
    pub fn new(alloc: Global, key: &K) -> Result<(Ledger<H, K, R>, Share<H>), AllocError>
        ensures key { IfOk result (λ made. made.0.key ≡ key.now) }
        ensures share { IfOk result (λ made. made.1 ≡ record { ledger = made.0.id; parts = R.first key.now }) }
    {
        let (table, token) = Table::of_words(alloc, &[0], key)?;
        Ok((Ledger { table }, Share { token }))
    }

    /// All parts of one share go to another, before its own. The one is left with none.
    pub fn lend(&self, to: &mut Share<H>, from: &mut Share<H>)
        requires to { to.old.ledger ≡ self.now.id }
        requires from { from.old.ledger ≡ self.now.id }
        ensures to { to.new ≡ record to.old { parts = from.old.parts ++ to.old.parts } }
        ensures from { from.new ≡ record from.old { parts = [] } }
    {
        let word = &self.table.shared;
        let leaving = tokens::take_all(word, &mut from.token);
        tokens::put_all(word, &mut to.token, leaving);
    }

    /// A share with the first part of another, which keeps the others. Where that has no part, the new one has none either.
    pub fn part(&self, from: &mut Share<H>) -> Share<H>
        requires ledger { from.old.ledger ≡ self.now.id }
        ensures from { from.new ≡ record from.old { parts = drop 1 from.old.parts } }
        ensures part { result ≡ record from.old { parts = take 1 from.old.parts } }
    {
        Share {
            token: tokens::part(&self.table.shared, &mut from.token),
        }
    }

    /// The parts of a share become others, `N`, with which the rule holds as well, whatever the parts of other shares are.
    pub fn settle<N: NewParts<H>>(&self, share: &mut Share<H>)
        requires ledger { share.old.ledger ≡ self.now.id }
        requires right { Become (R.exact self.now.key) share.old.parts N.parts }
        ensures share { share.new ≡ record share.old { parts = N.parts } }
    {
        tokens::settle::<H, K, R, N>(&self.table.shared, &mut share.token);
    }

    /// Shows that a share's parts, with those that others have, are right. It changes nothing.
    pub fn learn(&self, share: &mut Share<H>)
        requires ledger { share.old.ledger ≡ self.now.id }
        ensures share { share.new ≡ share.old }
        ensures exact { AreOf (R.exact self.now.key) share.old.parts }
    {
        tokens::learn_of::<H, K, R, Brand>(&self.table.shared, &mut share.token);
    }
}
