//! The rule of a console queue, how its passes are cut and joined, and what their steps tell.
use crossbeam_queue::protocol::{Join, Lesson, Outcome, Protocol, Split};
use std::collections::LinkedList;

/// What a pass may do, what it has put and what it has taken. No value of it is made: the rule of the queue speaks of it.
pub struct Log {
    /// Whether it may put.
    pub puts: bool,
    /// Whether it may take.
    pub takes: bool,
    /// What was put, where it may put.
    pub put: LinkedList<u8>,
    /// What was taken, where it may take.
    pub taken: LinkedList<u8>,
}

/// What was put is what was taken, and then what waits.
pub struct InOrder;

impl Protocol<u8, Log> for InOrder {
    ghost use Rattle.std.specs.Prelude.{true, []};
    ghost use Rattle.console_queue.specs.Rule.{log, IsKept};

    ghost holds = { IsKept };

    ghost first = { log true true [] [] };
}

/// One pass puts, and another takes.
pub struct Roles;

impl Split<Log> for Roles {
    ghost use Rattle.std.specs.Prelude.{true, false, []};
    ghost use Rattle.console_queue.specs.Rule.{log};

    ghost left = { λ v. log true false v.put [] };

    ghost right = { λ v. log false true [] v.taken };
}

impl Join<Log> for Roles {
    ghost use Rattle.std.specs.Prelude.{true, false, []};
    ghost use Rattle.console_queue.specs.Rule.{log};

    ghost both = { λ v w. log true true v.put w.taken };

    ghost spent = { log false false [] [] };
}

/// A byte is put. Where none could be, what waits is the end of what was put.
pub struct Put;

impl Outcome<u8, Log> for Put {
    ghost use Rattle.std.specs.Prelude.{◌≡◌};
    ghost use Rattle.console_queue.specs.Rule.{log_put};

    ghost then = { λ v byte w. w ≡ log_put v byte };
}

impl Lesson<u8, Log> for Put {
    ghost use Rattle.console_queue.specs.Queues.{Ends};

    ghost fact = { λ v waiting. Ends v.put waiting };
}

/// A byte is taken. Where there is none, nothing is told.
pub struct Take;

impl Outcome<u8, Log> for Take {
    ghost use Rattle.std.specs.Prelude.{◌≡◌};
    ghost use Rattle.console_queue.specs.Rule.{log_taken};

    ghost then = { λ v byte w. w ≡ log_taken v byte };
}

impl Lesson<u8, Log> for Take {
    ghost use Rattle.std.specs.Prelude.{⊤};

    ghost fact = { λ _ _. ⊤ };
}

/// A byte is taken by the pass that also puts: what it has put is what it has taken and then what waits.
pub struct TakeRest;

impl Outcome<u8, Log> for TakeRest {
    ghost use Rattle.console_queue.specs.Rule.{TakesRest};

    ghost then = { TakesRest };
}

impl Lesson<u8, Log> for TakeRest {
    ghost use Rattle.std.specs.Prelude.{◌≡◌, ◌++◌};

    ghost fact = { λ v waiting. v.put ≡ v.taken ++ waiting };
}
