//! The steps of a ledger's table.
ghost use Rattle.std.specs.Prelude.{◌≡◌, [], List, ◌++◌, take, drop};
ghost use Rattle.ledger.specs.Shares.{AreOf, Become};

use crate::hand::{All, First, Gather, Learn, Says, Settle, Token, Word};
use crate::rule::{NewParts, SoundRule};

// A token with all parts of another's.
pub fn take_all<H, K, R: SoundRule<H, K>>(word: &Word<H, K, R>, from: &mut Token<H>) -> Token<H>
    requires word { word.now.table_id.words ≡ 1 }
    requires token { from.old.table_id ≡ word.now.table_id }
    ensures table { (from.new.table_id ≡ from.old.table_id) × (result.table_id ≡ from.old.table_id) }
    ensures from { from.new.me.0.parts ≡ [] }
    ensures all { (result.me.0.parts ≡ from.old.me.0.parts) × (result.me.1 ≡ []) }
{
    word.split_seat::<All>(from)
}

// A token with the first part of another's.
pub fn part<H, K, R: SoundRule<H, K>>(word: &Word<H, K, R>, from: &mut Token<H>) -> Token<H>
    requires word { word.now.table_id.words ≡ 1 }
    requires token { from.old.table_id ≡ word.now.table_id }
    ensures table { (from.new.table_id ≡ from.old.table_id) × (result.table_id ≡ from.old.table_id) }
    ensures from { from.new.me.0.parts ≡ drop 1 from.old.me.0.parts }
    ensures part { (result.me.0.parts ≡ take 1 from.old.me.0.parts) × (result.me.1 ≡ []) }
{
    word.split_seat::<First>(from)
}

// The parts of one token go to another, before its own.
pub fn put_all<H, K, R: SoundRule<H, K>>(word: &Word<H, K, R>, to: &mut Token<H>, leaving: Token<H>)
    requires word { word.now.table_id.words ≡ 1 }
    requires tokens { (to.old.table_id ≡ word.now.table_id) × (leaving.table_id ≡ word.now.table_id) × (leaving.me.1 ≡ []) }
    ensures table { to.new.table_id ≡ to.old.table_id }
    ensures to { to.new.me.0.parts ≡ leaving.me.0.parts ++ to.old.me.0.parts }
{
    word.join_seat::<Gather>(to, leaving);
}

// The parts of a token become others.
pub fn settle<H, K, R: SoundRule<H, K>, N: NewParts<H>>(word: &Word<H, K, R>, token: &mut Token<H>)
    requires word { word.now.table_id.words ≡ 1 }
    requires token { token.old.table_id ≡ word.now.table_id }
    requires right { Become (R.exact word.now.key) token.old.me.0.parts N.parts }
    ensures table { token.new.table_id ≡ token.old.table_id }
    ensures parts { token.new.me.0.parts ≡ N.parts }
{
    word.load::<Settle<N>>(token, 0);
}

// What follows from the rule of a token's parts and of those that others have.
pub fn learn_of<H, K, R: SoundRule<H, K>, A: Says<H>>(word: &Word<H, K, R>, token: &mut Token<H>)
    requires word { word.now.table_id.words ≡ 1 }
    requires token { token.old.table_id ≡ word.now.table_id }
    requires says { (parts : List H) → R.exact word.now.key parts → A.says parts }
    ensures table { token.new.table_id ≡ token.old.table_id }
    ensures parts { token.new.me.0.parts ≡ token.old.me.0.parts }
    ensures says { AreOf A.says token.old.me.0.parts }
{
    word.load::<Learn<A>>(token, 0);
}
