//! The rule of the contents.
use crate::content::Content;
use ledger::{Ledger, Rule, Share, SoundRule};

/// Each owner's slots hold what it wrote to them.
pub struct RightContents;

impl Rule<Content, u32> for RightContents {
    ghost use Rattle.slot_contents.specs.Contents.{IsRight, opening};

    ghost exact = { IsRight };

    ghost first = { opening };
}

impl SoundRule<Content, u32> for RightContents {
    ghost use Rattle.slot_contents.specs.Laws.{opening_is_right, right_in_any_order};

    ghost begins = { opening_is_right };

    ghost in_any_order = { right_in_any_order };
}

/// What was written to the slots of a store. In clauses its key is the number of slots.
pub type Contents = Ledger<Content, u32, RightContents>;

/// What one owner wrote to its slots, or what the store holds with the free slots.
pub type ContentShare = Share<Content>;
