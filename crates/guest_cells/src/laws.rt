//! Laws of what stands at the places of guests.
ghost use Rattle.std.specs.Prelude.{◌≡◌, ℕ, List, Some, length};
ghost use Rattle.std.specs.List.{slice_get};
ghost use Rattle.cell.specs.declared.cell.Cell.{Cell};
ghost use Rattle.cell.specs.declared.ends.Ended.{Ended};
ghost use Rattle.booting.specs.declared.asked.NewGuest.{NewGuest};
ghost use Rattle.guest_cells.specs.declared.handles.Handles.{Handles};
ghost use Rattle.guest_cells.specs.Handles.{AreHandlesOf, AreHandlesOfAll};
ghost use Rattle.guest_cells.specs.Ends.{HasEnded, HaveEnded};
ghost use Rattle.guest_cells.specs.Asked.{IsAsAsked, AreAsAsked};

use swapstore::SwapStore;

/// A law: handles are those of all guests exactly where there are as many as guests, and those at each place are of the guest there.
#[tactic(auto, using(crate::proofs::ByPlace::handles_count, crate::proofs::ByPlace::handles_at, crate::proofs::ByPlace::handles_by_place))]
pub fn handles_go_by_place<S>()
    ensures count { (cells : List (Cell S)) (all : List Handles) → AreHandlesOfAll cells all → length cells ≡ length all }
    ensures place { (cells : List (Cell S)) (all : List Handles) (g : ℕ) (cell : Cell S) (handles : Handles) → AreHandlesOfAll cells all →
        slice_get cells g ≡ Some cell → slice_get all g ≡ Some handles → AreHandlesOf cell.front handles }
    ensures all { (cells : List (Cell S)) (all : List Handles) → length cells ≡ length all →
        ((g : ℕ) (cell : Cell S) (handles : Handles) → slice_get cells g ≡ Some cell → slice_get all g ≡ Some handles → AreHandlesOf cell.front handles) →
        AreHandlesOfAll cells all }
{}

/// A law: where guests are behind locks as they were asked for, there are as many, and the guest at each place is as what was asked for there.
/// What was handed out of them are their handles.
#[tactic(auto, using(crate::proofs::ByPlace::asked_count, crate::proofs::ByPlace::asked_at, crate::proofs::Housing::asked_handles))]
pub fn guests_are_as_asked_by_place<S>()
    ensures count { (log_runs : ℕ) (asked : List NewGuest) (cells : List (Cell S)) (all : List Handles) → AreAsAsked log_runs asked cells all →
        (length asked ≡ length cells) × (length cells ≡ length all) }
    ensures place { (log_runs : ℕ) (asked : List NewGuest) (cells : List (Cell S)) (all : List Handles) (g : ℕ) (it : NewGuest) (cell : Cell S) (handles : Handles) →
        AreAsAsked log_runs asked cells all → slice_get asked g ≡ Some it → slice_get cells g ≡ Some cell → slice_get all g ≡ Some handles →
        IsAsAsked log_runs it cell.front handles }
    ensures handles { (log_runs : ℕ) (asked : List NewGuest) (cells : List (Cell S)) (all : List Handles) → AreAsAsked log_runs asked cells all → AreHandlesOfAll cells all }
{}

/// A law: what guests leave is as much as there were guests, and what stands at each place is what the guest there left.
#[tactic(auto, using(crate::proofs::ByPlace::ended_count, crate::proofs::ByPlace::ended_at))]
pub fn guests_end_by_place<S: SwapStore>()
    ensures count { (cells : List (Cell S)) (all : List Handles) (ended : List Ended) → HaveEnded S.true_to_digests cells all ended →
        (length cells ≡ length all) × (length all ≡ length ended) }
    ensures place { (cells : List (Cell S)) (all : List Handles) (ended : List Ended) (g : ℕ) (cell : Cell S) (handles : Handles) (one : Ended) →
        HaveEnded S.true_to_digests cells all ended → slice_get cells g ≡ Some cell → slice_get all g ≡ Some handles → slice_get ended g ≡ Some one →
        HasEnded S.true_to_digests cell.front handles one }
{}
