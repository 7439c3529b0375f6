//! The head of a log, and what is done with it.
ghost use Rattle.std.specs.Prelude.{◌≡◌, ◌+◌, ◌^◌, ◌<◌, ◌≤◌, [], ◌∷◌, ◌++◌, length, replicate, IfOk};
ghost use Rattle.items.specs.Entries.{step_by};
ghost use Rattle.log_seats.specs.Legal.{Legal};

use crate::pen::Pen;
use crate::rule::LogRule;
use crate::seat::Seat;
use crate::tokens;
use crate::view::View;
use atomic_table::Table;
use items::{Item, SeatNo};
use std::alloc::{AllocError, Global};
use std::marker::Model;

/// The head of a log, which threads share by reference. In clauses it is which head it is: a pen or a seat of it has the same
/// `head`.
#[derive(Drop)]
pub struct Head {
    // One word, at most the length of the log.
    table: Table<Item, View, (), LogRule, Global>,
}

impl Model for Head {
    ghost use Rattle.std.specs.Prelude.{◌≡◌};
    ghost use Rattle.log_seats.specs.Heads.{HeadId};

    ghost Value = { HeadId };

    ghost view = { λ h. h.table.shared.table_id };

    ghost invariant = { λ h. h.table.shared.table_id.words ≡ 1 };
}

impl Head {
    /// The head of an empty log, and the one pen of it. `AllocError` where there is no memory for it.
    pub fn new(alloc: Global) -> Result<(Head, Pen), AllocError>
        ensures { IfOk result (λ made. made.1 ≡ record { head = made.0; log = []; next = 0 }) }
    {
        let (table, token) = Table::of_words(alloc, &[0], &())?;
        let pen = Pen {
            token,
            count: 0,
            shown: 0,
            next: 0,
        };
        Ok((Head { table }, pen))
    }

    /// The next seat, which has seen nothing. The seats' numbers rise from 0, and a log has at most four.
    pub fn seat(&self, pen: &mut Pen) -> Seat
        requires head { pen.old.head ≡ self.now }
        requires room { pen.old.next < 4 }
        ensures pen { pen.new ≡ record pen.old { next = pen.old.next + 1 } }
        ensures seat { result ≡ record { head = self.now; number = pen.old.next; saw = []; made = [] } }
    {
        let number = SeatNo::new(pen.next);
        let token = tokens::next_seat(&self.table.shared, &mut pen.token);
        pen.next += 1;
        Seat {
            token,
            number,
            seen: 0,
        }
    }

    /// Appends an item of the seat's own. The seat has then seen the whole log, and so may every other that looks from now on.
    #[inline]
    pub fn append(&self, pen: &mut Pen, seat: &mut Seat, item: &Item)
        requires heads { (pen.old.head ≡ self.now) × (seat.old.head ≡ self.now) }
        requires own { item.now.seat ≡ seat.old.number }
        requires room { length pen.old.log < 2 ^ 62 }
        ensures pen { pen.new ≡ record pen.old { log = pen.old.log ++ item.now ∷ [] } }
        ensures seat { seat.new ≡ record seat.old { saw = pen.new.log; made = seat.old.made ++ item.now ∷ [] } }
        ensures before { Legal pen.old.log seat.old.number seat.old.saw seat.old.made }
        ensures after { Legal pen.new.log seat.new.number seat.new.saw seat.new.made }
    {
        self.append_many(pen, seat, item, 1);
    }

    /// Appends so many copies of an item of the seat's own, in one step. Of steps of the processor they are a run (`laws`).
    #[inline]
    pub fn append_many(&self, pen: &mut Pen, seat: &mut Seat, item: &Item, times: u64)
        requires heads { (pen.old.head ≡ self.now) × (seat.old.head ≡ self.now) }
        requires own { item.now.seat ≡ seat.old.number }
        requires room { length pen.old.log + times ≤ 2 ^ 62 }
        ensures pen { pen.new ≡ record pen.old { log = pen.old.log ++ replicate times item.now } }
        ensures seat { seat.new ≡ record seat.old { saw = pen.new.log; made = seat.old.made ++ replicate times item.now } }
        ensures before { Legal pen.old.log seat.old.number seat.old.saw seat.old.made }
        ensures after { Legal pen.new.log seat.new.number seat.new.saw seat.new.made }
    {
        let length = pen.count + times;
        tokens::append_copies(
            &self.table.shared,
            &mut pen.token,
            &mut seat.token,
            item,
            pen.shown,
            pen.count,
            times,
        );
        pen.count = length;
        pen.shown = length;
        seat.seen = length;
    }

    /// Appends a step of the processor by the seat. It costs less than `append`: other seats may not see it before `publish`.
    #[inline]
    pub fn append_step(&self, pen: &mut Pen, seat: &mut Seat)
        requires heads { (pen.old.head ≡ self.now) × (seat.old.head ≡ self.now) }
        requires room { length pen.old.log < 2 ^ 62 }
        ensures pen { pen.new ≡ record pen.old { log = pen.old.log ++ step_by seat.old.number ∷ [] } }
        ensures seat { seat.new ≡ record seat.old { saw = pen.new.log; made = seat.old.made ++ step_by seat.old.number ∷ [] } }
        ensures before { Legal pen.old.log seat.old.number seat.old.saw seat.old.made }
        ensures after { Legal pen.new.log seat.new.number seat.new.saw seat.new.made }
    {
        let length = pen.count + 1;
        tokens::append_step(&self.table.shared, &mut pen.token, &mut seat.token);
        pen.count = length;
        seat.seen = length;
    }

    /// Shows every seat that looks from now on the whole log. It is called after `append_step`, before anything that another seat
    /// must see.
    #[inline]
    pub fn publish(&self, pen: &mut Pen)
        requires { pen.old.head ≡ self.now }
        ensures { pen.new ≡ pen.old }
    {
        tokens::publish(&self.table.shared, &mut pen.token, pen.count);
        pen.shown = pen.count;
    }

    /// How long the log is that the seat has then seen: one that begins with what it had seen. No other thread is waited for.
    #[inline]
    pub fn look(&self, seat: &mut Seat) -> u64
        requires { seat.old.head ≡ self.now }
        ensures seat { seat.new ≡ record seat.old { saw = seat.new.saw } }
        ensures length { result ≡ length seat.new.saw }
        ensures legal { Legal seat.new.saw seat.old.number seat.old.saw seat.old.made }
    {
        let found = tokens::look(&self.table.shared, &mut seat.token);
        seat.seen = seat.seen.max(found);
        seat.seen
    }

    /// Shows each of two seats what the other has seen: both have then seen one log, which begins with what each had seen.
    pub fn meet(&self, one: &mut Seat, two: &mut Seat)
        requires { (one.old.head ≡ self.now) × (two.old.head ≡ self.now) }
        ensures one { one.new ≡ record one.old { saw = one.new.saw } }
        ensures two { two.new ≡ record two.old { saw = one.new.saw } }
        ensures one_legal { Legal one.new.saw one.old.number one.old.saw one.old.made }
        ensures two_legal { Legal one.new.saw two.old.number two.old.saw two.old.made }
    {
        let found = tokens::meet(&self.table.shared, &mut one.token, &mut two.token);
        one.seen = one.seen.max(two.seen).max(found);
        two.seen = one.seen;
    }

    /// Shows the seat the pen's log, for which it is legal.
    #[inline]
    pub fn settle(&self, pen: &mut Pen, seat: &mut Seat)
        requires { (pen.old.head ≡ self.now) × (seat.old.head ≡ self.now) }
        ensures pen { pen.new ≡ pen.old }
        ensures seat { seat.new ≡ record seat.old { saw = pen.old.log } }
        ensures legal { Legal pen.old.log seat.old.number seat.old.saw seat.old.made }
    {
        tokens::settle(&self.table.shared, &mut pen.token, &mut seat.token);
        seat.seen = pen.count;
    }
}
