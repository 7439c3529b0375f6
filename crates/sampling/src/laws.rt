//! Laws of the definitions.
ghost use Rattle.std.specs.Prelude.{◌≡◌, ◌≢◌, ℕ, ◌≤◌, ◌+◌, Bool, List, ◌++◌, false, true, length, All, Contains};
ghost use Rattle.sampling.specs.Samples.{is_marked, marked_draws, cleared};

/// A law: of all draws no more can be of a marked page; none is where no page is marked, and pages that are cleared are not marked,
/// while all other pages stay as they are.
#[tactic(auto, using(crate::proofs::Clearing::drawn_is_clear, crate::proofs::Clearing::other_stays))]
pub fn marks_are_cleared_where_pages_are_drawn()
    ensures most { (marks : List Bool) (draws : List ℕ) → marked_draws marks draws ≤ length draws }
    ensures drawn { (marks : List Bool) (draws : List ℕ) (page : ℕ) → Contains draws page → is_marked (cleared draws marks) page ≡ false }
    ensures others { (marks : List Bool) (draws : List ℕ) (page : ℕ) → All (λ draw. draw ≢ page) draws → is_marked (cleared draws marks) page ≡ is_marked marks page }
    ensures cleared { (marks : List Bool) (draws : List ℕ) → marked_draws (cleared draws marks) draws ≡ 0 }
{}
