//! Laws of the definitions.
ghost use Rattle.std.specs.Prelude.{◌≡◌, ℕ, ◌+◌, List, [], ◌∷◌, ◌++◌};
ghost use Rattle.items.specs.declared.item.Item.{Item};
ghost use Rattle.items.specs.declared.item.What.TheVariants as what;
ghost use Rattle.items.specs.Entries.{steps_of};
ghost use Rattle.log_seats.specs.Heads.{SeatIs};
ghost use Rattle.seated.specs.Acts.{Acts, Sees};
ghost use Rattle.cell.specs.Inputs.{byte_in, bytes_in};
ghost use Rattle.cell.specs.Slices.{Slice};

/// A law: the input of items that follow one another is that of the first and then that of the second; steps have none.
#[tactic(auto, using(crate::proofs::Sitting::joined_bytes, crate::proofs::Slicing::no_byte_in_steps))]
pub fn input_is_in_order()
    ensures joined { (xs ys : List Item) → bytes_in (xs ++ ys) ≡ bytes_in xs ++ bytes_in ys }
    ensures one { (seat byte : ℕ) → bytes_in (record { seat = seat; what = what.In byte } ∷ []) ≡ byte ∷ [] }
    ensures steps { (seat n : ℕ) → bytes_in (steps_of seat n) ≡ [] }
{}

/// A law: where nothing is added a slice of no step was made; steps that are added at once are a slice of as many, and a byte of input one of
/// none; and one slice after another is a slice of the steps of both.
#[tactic(auto, using(crate::proofs::Slicing::none_made, crate::proofs::Slicing::steps_made, crate::proofs::Slicing::byte_made, crate::proofs::Slicing::joined))]
pub fn slices_join()
    ensures none { (s s' : SeatIs) → Sees s s' → Slice s 0 s' }
    ensures steps { (s : SeatIs) (before : List Item) (count : ℕ) (s' : SeatIs) → Acts s before (steps_of s.number count) s' → Slice s count s' }
    ensures byte { (s : SeatIs) (before : List Item) (byte : ℕ) (s' : SeatIs) → Acts s before (record { seat = s.number; what = what.In byte } ∷ []) s' → Slice s 0 s' }
    ensures join { (s : SeatIs) (j : ℕ) (s' : SeatIs) (k : ℕ) (s'' : SeatIs) → Slice s j s' → Slice s' k s'' → Slice s (j + k) s'' }
{}
