//! Laws of the definitions.
ghost use Rattle.std.specs.Prelude.{ℕ, ◌+◌, List};
ghost use Rattle.items.specs.declared.item.Item.{Item};
ghost use Rattle.items.specs.Entries.{steps_of};
ghost use Rattle.log_seats.specs.Heads.{SeatIs};
ghost use Rattle.seated.specs.Acts.{Acts, Sees, Slice};

/// A law: where nothing is added a slice of no step was made, steps that are added at once are a slice, and one slice after another is a slice
/// of the steps of both.
#[tactic(auto, using(crate::proofs::Slicing::none_made, crate::proofs::Slicing::some_made))]
pub fn slices_join()
    ensures none { (s s' : SeatIs) → Sees s s' → Slice s 0 s' }
    ensures at_once { (s : SeatIs) (before : List Item) (count : ℕ) (s' : SeatIs) → Acts s before (steps_of s.number count) s' → Slice s count s' }
    ensures join { (s : SeatIs) (j : ℕ) (s' : SeatIs) (k : ℕ) (s'' : SeatIs) → Slice s j s' → Slice s' k s'' → Slice s (j + k) s'' }
{}
