//! Laws of the definitions.
ghost use Rattle.std.specs.Prelude.{◌≡◌, ℕ, ◌+◌, ◌*◌, ◌<◌, ◌^◌, List, length, slice_index};
ghost use Rattle.swapstore.specs.Places.{page_in};
ghost use Rattle.swapstore.specs.Memories.{with_inverted};

/// A law: the byte at a place of a slot is that of the medium `4096 * slot` further on; a slot has 4,096 bytes, and no two
/// share one.
#[tactic(auto, using(crate::proofs::Pages::page_byte, crate::proofs::Pages::page_length, crate::proofs::Pages::own_slot))]
pub fn slots_lie_one_after_another()
    ensures first { (byte_at : ℕ → ℕ) (slot i : ℕ) → i < 4096 → slice_index (page_in byte_at slot) i ≡ byte_at (4096 * slot + i) }
    ensures length { (byte_at : ℕ → ℕ) (slot : ℕ) → length (page_in byte_at slot) ≡ 4096 }
    ensures apart { (slot other i j : ℕ) → i < 4096 → j < 4096 → 4096 * slot + i ≡ 4096 * other + j → slot ≡ other }
{}

/// A law: a damaged byte is another one, and damaged again it is as before.
#[tactic(auto, using(crate::proofs::Inverted::inverted_differs, crate::proofs::Inverted::inverted_twice))]
pub fn damage_undoes_itself()
    ensures differs { (page : List ℕ) (at : ℕ) → at < length page → with_inverted page at ≡ page → ⊥ }
    ensures twice { (page : List ℕ) (at : ℕ) → at < length page → slice_index page at < 2 ^ 8 → with_inverted (with_inverted page at) at ≡ page }
{}
