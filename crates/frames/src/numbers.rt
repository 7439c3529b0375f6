//! Numbers that become tokens.
ghost use Rattle.std.specs.Prelude.{◌≡◌, ℕ, [], ◌++◌, IfNone, length};
ghost use Rattle.std.specs.List.{range_with_len};
ghost use Rattle.std.specs.Option.{option_to_list};
ghost use Rattle.frames.specs.Counts.{count_of, below};

use crate::{FrameNo, SlotTicket};
use std::marker::Model;

/// The numbers below a total that have no token yet; each becomes one token, in rising order. In clauses it is the list of
/// them.
pub struct Numbers {
    next: u32,
    total: u32,
}

impl Model for Numbers {
    ghost use Rattle.std.specs.Prelude.{List, ℕ, ◌-◌, ◌≤◌};
    ghost use Rattle.std.specs.List.{range_with_len};

    ghost Value = { List ℕ };

    ghost view = { λ n. range_with_len n.next (n.total - n.next) };

    ghost invariant = { λ n. n.next ≤ n.total };
}

impl Numbers {
    /// The numbers 0 to `total - 1`.
    #[tactic(auto, using(crate::proofs::Counting::count_range, crate::proofs::Numbering::length_of_range))]
    pub fn below(total: u32) -> Numbers
        ensures rising { result ≡ range_with_len 0 total }
        ensures each_once { (k : ℕ) → count_of k result ≡ below k total }
        ensures length { length result ≡ total }
    {
        Numbers { next: 0, total }
    }

    // The lowest number, which then has its token; None where each number has.
    #[tactic(auto, using(crate::proofs::Numbering::first_of_range))]
    fn next(&mut self) -> Option<u32>
        ensures taken { self.old ≡ option_to_list result ++ self.new }
        ensures none { IfNone result (self.old ≡ []) }
    {
        if self.next == self.total {
            return None;
        }
        let number = self.next;
        self.next += 1;
        Some(number)
    }

    /// The lowest number as that of a frame; None where each number has its token.
    pub fn next_frame(&mut self) -> Option<FrameNo>
        ensures taken { self.old ≡ option_to_list result ++ self.new }
        ensures none { IfNone result (self.old ≡ []) }
    {
        match self.next() {
            Some(number) => Some(FrameNo::of(number)),
            None => None,
        }
    }

    /// The lowest number as that of a slot; None where each number has its token.
    pub fn next_slot(&mut self) -> Option<SlotTicket>
        ensures taken { self.old ≡ option_to_list result ++ self.new }
        ensures none { IfNone result (self.old ≡ []) }
    {
        match self.next() {
            Some(number) => Some(SlotTicket::of(number)),
            None => None,
        }
    }

    /// Ends it, once each number has its token.
    pub fn close(self)
        requires { self ≡ [] }
    {
        let Numbers { next: _, total: _ } = self;
    }
}
