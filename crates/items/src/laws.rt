//! Laws of items and entries.
ghost use Rattle.std.specs.Prelude.{◌≡◌, ◌≢◌, ℕ, ◌+◌, List, [], ◌∷◌, ◌++◌, length};
ghost use Rattle.items.specs.declared.item.Item.{Item};
ghost use Rattle.items.specs.declared.entry.Entry.{Entry};
ghost use Rattle.items.specs.Items.{own};
ghost use Rattle.items.specs.Entries.{step_by, steps_of, items_of};

/// A law: no steps are no item, a run of m + n steps is m steps and then n, and a run has as many items as steps.
pub fn runs_of_steps_join()
    ensures none { (seat : ℕ) → steps_of seat 0 ≡ [] }
    ensures one { (seat : ℕ) → steps_of seat 1 ≡ step_by seat ∷ [] }
    ensures join { (seat m n : ℕ) → steps_of seat (m + n) ≡ steps_of seat m ++ steps_of seat n }
    ensures many { (seat n : ℕ) → length (steps_of seat n) ≡ n }
{}

/// A law: entries that follow one another keep the items of the first and then those of the second.
pub fn entries_keep_items_in_order()
    ensures { (xs ys : List Entry) → items_of (xs ++ ys) ≡ items_of xs ++ items_of ys }
{}

/// A law: the items of a seat are in the order of all items, and are that seat's alone.
pub fn a_seat_owns_its_items_in_order()
    ensures order { (seat : ℕ) (xs ys : List Item) → own seat (xs ++ ys) ≡ own seat xs ++ own seat ys }
    ensures all { (seat n : ℕ) → own seat (steps_of seat n) ≡ steps_of seat n }
    ensures none { (seat other n : ℕ) → seat ≢ other → own seat (steps_of other n) ≡ [] }
{}
