//! What pens and seats do, by their tokens alone.
ghost use Rattle.std.specs.Prelude.{◌≡◌, ◌+◌, ◌^◌, ◌<◌, true, [], ◌∷◌, length, max, replicate};
ghost use Rattle.items.specs.Entries.{step_by};
ghost use Rattle.log_seats.specs.Views.{pen_of, new_seat, pen_with, seat_with, seat_seeing};
ghost use Rattle.log_seats.specs.Plays.{IsLegalFor, Looks};

use crate::rule::{
    AppendCopies, AppendStep, BesidePen, BesideSeat, Leave, Look, LookTogether, NextSeat, Publish,
    Settle, Token, Word,
};
use items::Item;

// The next seat's token.
pub(crate) fn next_seat(word: &Word, pen: &mut Token) -> Token
    requires word { (word.now.table_id.words ≡ 1) × (pen.old.table_id ≡ word.now.table_id) }
    requires present { pen.old.me.0.pen.present ≡ true }
    ensures table { (pen.new.table_id ≡ pen.old.table_id) × (result.table_id ≡ pen.old.table_id) }
    ensures pen { pen.new.me.0.pen ≡ pen_of pen.old.me.0.pen.log (pen.old.me.0.pen.next + 1) }
    ensures seat { result.me.0.first ≡ new_seat pen.old.me.0.pen.next }
{
    word.split_seat::<NextSeat>(pen)
}

// The seat comes to the pen's token.
#[inline]
fn lend(word: &Word, pen: &mut Token, seat: &mut Token)
    requires word { (word.now.table_id.words ≡ 1) × (pen.old.table_id ≡ word.now.table_id) × (seat.old.table_id ≡ word.now.table_id) }
    requires present { (pen.old.me.0.pen.present ≡ true) × (seat.old.me.0.first.present ≡ true) }
    ensures table { pen.new.table_id ≡ pen.old.table_id }
    ensures pen { pen.new.me.0.pen ≡ pen.old.me.0.pen }
    ensures seat { pen.new.me.0.first ≡ seat.old.me.0.first }
{
    let leaving = word.split_seat::<Leave>(seat);
    word.join_seat::<BesidePen>(pen, leaving);
}

// The seat leaves the pen's token.
#[inline]
fn take_back(word: &Word, pen: &mut Token) -> Token
    requires word { (word.now.table_id.words ≡ 1) × (pen.old.table_id ≡ word.now.table_id) }
    requires present { (pen.old.me.0.pen.present ≡ true) × (pen.old.me.0.first.present ≡ true) }
    ensures table { (pen.new.table_id ≡ pen.old.table_id) × (result.table_id ≡ pen.old.table_id) }
    ensures pen { pen.new.me.0.pen ≡ pen.old.me.0.pen }
    ensures seat { result.me.0.first ≡ pen.old.me.0.first }
{
    word.split_seat::<BesidePen>(pen)
}

// So many copies of an item of the seat are appended, and the word is the log's length. `count` is its length before, `shown` what
// the word says.
#[inline]
pub(crate) fn append_copies(
    word: &Word,
    pen: &mut Token,
    seat: &mut Token,
    item: &Item,
    shown: u64,
    count: u64,
    times: u64,
)
    requires word { (word.now.table_id.words ≡ 1) × (pen.old.table_id ≡ word.now.table_id) × (seat.old.table_id ≡ word.now.table_id) }
    requires present { (pen.old.me.0.pen.present ≡ true) × (seat.old.me.0.first.present ≡ true) }
    requires own { item.now.seat ≡ seat.old.me.0.first.number }
    requires count { count ≡ length pen.old.me.0.pen.log }
    requires room { count + times < 2 ^ 64 }
    ensures table { (pen.new.table_id ≡ pen.old.table_id) × (seat.new.table_id ≡ seat.old.table_id) }
    ensures pen { pen.new.me.0.pen ≡ pen_with pen.old.me.0.pen (replicate times item.now) }
    ensures seat { seat.new.me.0.first ≡ seat_with seat.old.me.0.first pen.old.me.0.pen.log (replicate times item.now) }
    ensures legal { IsLegalFor pen.old.me.0.pen.log seat.old.me.0.first }
{
    lend(word, pen, seat);
    word.compare_exchange_with::<AppendCopies>(pen, 0, shown, count + times, item);
    *seat = take_back(word, pen);
}

// A step of the processor by the seat is appended. The word stays as it is.
#[inline]
pub(crate) fn append_step(word: &Word, pen: &mut Token, seat: &mut Token)
    requires word { (word.now.table_id.words ≡ 1) × (pen.old.table_id ≡ word.now.table_id) × (seat.old.table_id ≡ word.now.table_id) }
    requires present { (pen.old.me.0.pen.present ≡ true) × (seat.old.me.0.first.present ≡ true) }
    ensures table { (pen.new.table_id ≡ pen.old.table_id) × (seat.new.table_id ≡ seat.old.table_id) }
    ensures pen { pen.new.me.0.pen ≡ pen_with pen.old.me.0.pen (step_by seat.old.me.0.first.number ∷ []) }
    ensures seat { seat.new.me.0.first ≡ seat_with seat.old.me.0.first pen.old.me.0.pen.log (step_by seat.old.me.0.first.number ∷ []) }
    ensures legal { IsLegalFor pen.old.me.0.pen.log seat.old.me.0.first }
{
    lend(word, pen, seat);
    word.load::<AppendStep>(pen, 0);
    *seat = take_back(word, pen);
}

// The seat has then seen the log.
#[inline]
pub(crate) fn settle(word: &Word, pen: &mut Token, seat: &mut Token)
    requires word { (word.now.table_id.words ≡ 1) × (pen.old.table_id ≡ word.now.table_id) × (seat.old.table_id ≡ word.now.table_id) }
    requires present { (pen.old.me.0.pen.present ≡ true) × (seat.old.me.0.first.present ≡ true) }
    ensures table { (pen.new.table_id ≡ pen.old.table_id) × (seat.new.table_id ≡ seat.old.table_id) }
    ensures pen { pen.new.me.0.pen ≡ pen.old.me.0.pen }
    ensures seat { seat.new.me.0.first ≡ seat_seeing seat.old.me.0.first pen.old.me.0.pen.log }
    ensures legal { IsLegalFor pen.old.me.0.pen.log seat.old.me.0.first }
{
    lend(word, pen, seat);
    word.load::<Settle>(pen, 0);
    *seat = take_back(word, pen);
}

// The word is the log's length, `count`.
#[inline]
pub(crate) fn publish(word: &Word, pen: &mut Token, count: u64)
    requires word { (word.now.table_id.words ≡ 1) × (pen.old.table_id ≡ word.now.table_id) }
    requires present { pen.old.me.0.pen.present ≡ true }
    requires count { count ≡ length pen.old.me.0.pen.log }
    ensures table { pen.new.table_id ≡ pen.old.table_id }
    ensures pen { pen.new.me.0.pen ≡ pen.old.me.0.pen }
{
    word.store::<Publish>(pen, 0, count);
}

// What the word says. The seat has then seen so much, or as much as it had seen.
#[inline]
pub(crate) fn look(word: &Word, seat: &mut Token) -> u64
    requires word { (word.now.table_id.words ≡ 1) × (seat.old.table_id ≡ word.now.table_id) }
    requires present { seat.old.me.0.first.present ≡ true }
    ensures table { seat.new.table_id ≡ seat.old.table_id }
    ensures seen { Looks seat.old.me.0 result seat.new.me.0 }
{
    word.load::<Look>(seat, 0)
}

// The second seat comes to the first one's token.
#[inline]
fn join(word: &Word, one: &mut Token, two: &mut Token)
    requires word { (word.now.table_id.words ≡ 1) × (one.old.table_id ≡ word.now.table_id) × (two.old.table_id ≡ word.now.table_id) }
    requires present { (one.old.me.0.first.present ≡ true) × (two.old.me.0.first.present ≡ true) }
    ensures table { one.new.table_id ≡ one.old.table_id }
    ensures first { one.new.me.0.first ≡ one.old.me.0.first }
    ensures second { one.new.me.0.second ≡ two.old.me.0.first }
{
    let leaving = word.split_seat::<Leave>(two);
    word.join_seat::<BesideSeat>(one, leaving);
}

// Two seats look at once. Both have then seen the same, as much as the word says or as the one that had seen more.
pub(crate) fn meet(word: &Word, one: &mut Token, two: &mut Token) -> u64
    requires word { (word.now.table_id.words ≡ 1) × (one.old.table_id ≡ word.now.table_id) × (two.old.table_id ≡ word.now.table_id) }
    requires present { (one.old.me.0.first.present ≡ true) × (two.old.me.0.first.present ≡ true) }
    ensures table { (one.new.table_id ≡ one.old.table_id) × (two.new.table_id ≡ two.old.table_id) }
    ensures one { one.new.me.0.first ≡ seat_seeing one.old.me.0.first one.new.me.0.first.saw }
    ensures two { two.new.me.0.first ≡ seat_seeing two.old.me.0.first one.new.me.0.first.saw }
    ensures long { length one.new.me.0.first.saw ≡ max (max (length one.old.me.0.first.saw) (length two.old.me.0.first.saw)) result }
    ensures one_legal { IsLegalFor one.new.me.0.first.saw one.old.me.0.first }
    ensures two_legal { IsLegalFor one.new.me.0.first.saw two.old.me.0.first }
{
    join(word, one, two);
    let found = word.load::<LookTogether>(one, 0);
    *two = word.split_seat::<BesideSeat>(one);
    found
}
