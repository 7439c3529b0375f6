//! Laws of the counts.
ghost use Rattle.std.specs.Prelude.{◌≡◌, ℕ, ◌+◌, ◌<◌, ◌≤◌, ◌↔◌, List, [], ◌∷◌, ◌++◌, length, slice_index, slice_set, remove, Contains, IsPermutation};
ghost use Rattle.std.specs.List.{range_with_len};
ghost use Rattle.frames.specs.Counts.{one_at, count_of, below};

/// A law: what two collections have of a number adds up.
#[tactic(auto, using(crate::proofs::Counting::count_append, crate::proofs::Counting::count_one))]
pub fn counts_add_up()
    ensures none { (k : ℕ) → count_of k [] ≡ 0 }
    ensures one { (k n : ℕ) → count_of k (n ∷ []) ≡ one_at k n }
    ensures joined { (k : ℕ) (first second : List ℕ) → count_of k (first ++ second) ≡ count_of k first + count_of k second }
{}

/// A law: a number is counted exactly where it stands.
#[tactic(auto, using(crate::proofs::Counting::counted_stands, crate::proofs::Counting::standing_counts))]
pub fn counted_where_it_stands()
    ensures there { (k : ℕ) (numbers : List ℕ) → 0 < count_of k numbers → Contains numbers k }
    ensures counted { (k : ℕ) (numbers : List ℕ) → Contains numbers k → 0 < count_of k numbers }
{}

/// A law: a number that is replaced or removed is lost, and the number in its place is gained; the order doesn't count.
#[tactic(auto, using(crate::proofs::Counting::count_set, crate::proofs::Counting::count_remove, crate::proofs::Counting::count_permutation))]
pub fn changes_are_counted()
    ensures replaced { (k : ℕ) (xs : List ℕ) (i n : ℕ) → i < length xs →
        count_of k (slice_set xs i n) + one_at k (slice_index xs i) ≡ count_of k xs + one_at k n }
    ensures removed { (k : ℕ) (xs : List ℕ) (i : ℕ) → i < length xs →
        count_of k (remove xs i) + one_at k (slice_index xs i) ≡ count_of k xs }
    ensures order { (k : ℕ) (first second : List ℕ) → IsPermutation first second → count_of k first ≡ count_of k second }
{}

/// A law: of the numbers below a total each is counted once, and no other.
#[tactic(auto, using(crate::proofs::Counting::count_range, crate::proofs::Counting::below_yes, crate::proofs::Counting::below_no))]
pub fn each_below_once()
    ensures list { (k total : ℕ) → count_of k (range_with_len 0 total) ≡ below k total }
    ensures once { (k total : ℕ) → k < total → below k total ≡ 1 }
    ensures no_other { (k total : ℕ) → total ≤ k → below k total ≡ 0 }
{}
