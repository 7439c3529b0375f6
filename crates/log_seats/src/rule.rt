//! The rule of a head's table, how views are cut and joined, and what its steps tell.
use crate::view::View;
use atomic_table::{Join, Play, Shared, Split, TableRule};
use items::Item;

/// The word of a head, as threads share it. No slot holds an item: the steps that append one announce it.
pub type Word = Shared<Item, View, (), LogRule>;

/// What a pen or a seat takes its steps with. It has no bytes.
pub type Token = atomic_table::Seat<Item, View>;

/// There is one log, of which each token knows what its view says, and the word is at most its length.
pub struct LogRule;

impl TableRule<Item, View, ()> for LogRule {
    ghost use Rattle.std.specs.Prelude.{[]};
    ghost use Rattle.log_seats.specs.Rule.{IsKept};
    ghost use Rattle.log_seats.specs.Views.{pen_of, pen_alone};

    ghost holds = { λ _ s. IsKept s };

    ghost first = { λ _. pen_alone (pen_of [] 0) };
}

/// The pen makes the next seat.
pub struct NextSeat;

impl Split<View> for NextSeat {
    ghost use Rattle.std.specs.Prelude.{◌+◌};
    ghost use Rattle.log_seats.specs.Views.{pen_of, pen_alone, new_seat, seat_alone};

    ghost left = { λ v. pen_alone (pen_of v.pen.log (v.pen.next + 1)) };

    ghost right = { λ v. seat_alone (new_seat v.pen.next) };
}

/// A seat leaves its token, with which nothing stays.
pub struct Leave;

impl Split<View> for Leave {
    ghost use Rattle.log_seats.specs.Views.{nobody, seat_alone};

    ghost left = { λ _. nobody };

    ghost right = { λ v. seat_alone v.first };
}

/// A seat comes to the pen's token, and leaves it again.
pub struct BesidePen;

impl Join<View> for BesidePen {
    ghost use Rattle.log_seats.specs.Views.{nobody, pen_beside};

    ghost both = { λ v w. pen_beside v.pen w.first };

    ghost spent = { nobody };
}

impl Split<View> for BesidePen {
    ghost use Rattle.log_seats.specs.Views.{pen_alone, seat_alone};

    ghost left = { λ v. pen_alone v.pen };

    ghost right = { λ v. seat_alone v.first };
}

/// A seat comes to another seat's token, and leaves it again.
pub struct BesideSeat;

impl Join<View> for BesideSeat {
    ghost use Rattle.log_seats.specs.Views.{nobody, two_seats};

    ghost both = { λ v w. two_seats v.first w.first };

    ghost spent = { nobody };
}

impl Split<View> for BesideSeat {
    ghost use Rattle.log_seats.specs.Views.{seat_alone};

    ghost left = { λ v. seat_alone v.first };

    ghost right = { λ v. seat_alone v.second };
}

/// The pen appends copies of the item that is announced, which the seat beside it makes.
pub struct AppendCopies;

impl Play<Item, View> for AppendCopies {
    ghost use Rattle.log_seats.specs.Plays.{AppendsCopies};

    ghost then = { AppendsCopies };
}

/// The pen appends a step of the processor, which the seat beside it makes.
pub struct AppendStep;

impl Play<Item, View> for AppendStep {
    ghost use Rattle.log_seats.specs.Plays.{AppendsStep};

    ghost then = { AppendsStep };
}

/// The pen shows the seat beside it the log.
pub struct Settle;

impl Play<Item, View> for Settle {
    ghost use Rattle.log_seats.specs.Plays.{SeatSettles};

    ghost then = { SeatSettles };
}

/// The pen tells how long the log is.
pub struct Publish;

impl Play<Item, View> for Publish {
    ghost use Rattle.log_seats.specs.Plays.{Publishes};

    ghost then = { Publishes };
}

/// A seat looks how long the log is.
pub struct Look;

impl Play<Item, View> for Look {
    ghost use Rattle.log_seats.specs.Plays.{SeatLooks};

    ghost then = { SeatLooks };
}

/// Two seats look at once.
pub struct LookTogether;

impl Play<Item, View> for LookTogether {
    ghost use Rattle.log_seats.specs.Plays.{SeatsLook};

    ghost then = { SeatsLook };
}
