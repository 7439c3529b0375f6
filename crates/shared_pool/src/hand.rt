//! What a pass knows.
use accounts::BookShare;
use std::collections::LinkedList;
use std::marker::Model;

/// What a pass has put and taken, which frames there are, and its parts of the right to know all. No value of it is made: the rule
/// of the queue speaks of it.
pub struct Hand {
    /// How many parts it has. All passes have `all_parts` together.
    pub parts: u64,
    /// The numbers of all frames.
    pub whole: LinkedList<u32>,
    /// The numbers of the frames that it put.
    pub put: LinkedList<u32>,
    /// The numbers of the frames that it took.
    pub taken: LinkedList<u32>,
    /// The ledger of the frames' accounts.
    pub of: LedgerMark,
}

/// Which ledger it is, and nothing more. No value of it is made.
pub struct LedgerMark {
    share: BookShare,
}

impl Model for LedgerMark {
    ghost use Rattle.ledger.specs.Shares.{LedgerId};

    ghost Value = { LedgerId };

    ghost view = { λ mark. mark.share.ledger };
}
