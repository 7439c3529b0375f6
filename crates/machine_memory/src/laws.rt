//! Laws of stakes.
ghost use Rattle.std.specs.Prelude.{◌≡◌, ℕ, List, ◌∷◌, ◌++◌, [], Some, length, slice_set};
ghost use Rattle.std.specs.List.{slice_get};
ghost use Rattle.guest_pages.specs.declared.page.Page.{Page};
ghost use Rattle.guest_pages.specs.declared.page.Page.TheVariants.{Given};
ghost use Rattle.guest_pages.specs.declared.page.Returned.{Returned};
ghost use Rattle.guest_pages.specs.Pages.{page_at, handed_back};
ghost use Rattle.guest_pages.specs.Outline.{outline};
ghost use Rattle.machine_memory.specs.declared.stake.Stake.{Stake};
ghost use Rattle.machine_memory.specs.Memories.{MemoryIs, HasInHand, IsLevel, AreLevel};
ghost use Rattle.machine_memory.specs.Returns.{Lags};

/// A law: a stake goes by the outline of the pages alone, which no access of memory changes.
#[tactic(auto, using(crate::proofs::Stakes::level_by_outline))]
pub fn a_stake_goes_by_the_outline<S>()
    ensures { (memory : MemoryIs S) (stake : Stake) (pages pages' : List Page) (hand : List ℕ) → outline pages' ≡ outline pages →
        HasInHand memory stake pages hand → HasInHand memory stake pages' hand }
{}

/// A law: a stake that was level lags where pages with the same outline have become others of which one is given to the balloon, and
/// handed this back.
#[tactic(auto, using(crate::proofs::Stakes::level_lags))]
pub fn a_stake_lags_where_a_page_was_given<S>()
    ensures { (memory : MemoryIs S) (stake : Stake) (old before new : List Page) (p : ℕ) (returned : Returned) → IsLevel memory stake old →
        outline before ≡ outline old → new ≡ slice_set before p Given → returned ≡ handed_back (page_at before p) → Lags memory stake returned new }
{}

/// A law: of level stakes there are as many as guests, that of each guest at its place, and so they are without the last one of both.
#[tactic(auto, using(crate::proofs::Stakes::level_count, crate::proofs::Stakes::level_at, crate::proofs::Stakes::level_last))]
pub fn each_guest_has_its_stake<S>()
    ensures count { (memory : MemoryIs S) (stakes : List Stake) (all : List (List Page)) → AreLevel memory stakes all → length stakes ≡ length all }
    ensures place { (memory : MemoryIs S) (stakes : List Stake) (all : List (List Page)) (g : ℕ) (stake : Stake) (pages : List Page) → AreLevel memory stakes all →
        slice_get stakes g ≡ Some stake → slice_get all g ≡ Some pages → IsLevel memory stake pages }
    ensures last { (memory : MemoryIs S) (stakes : List Stake) (all : List (List Page)) (stake : Stake) (pages : List Page) →
        AreLevel memory (stakes ++ stake ∷ []) (all ++ pages ∷ []) → IsLevel memory stake pages × AreLevel memory stakes all }
{}
