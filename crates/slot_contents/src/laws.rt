//! Laws of the definitions.
ghost use Rattle.std.specs.Prelude.{◌≡◌, ℕ, ◌+◌, ◌<◌, List, ◌∷◌, Option, Some, IsSome, All};
ghost use Rattle.sha2.specs.Sha256.{sha256};
ghost use Rattle.frames.specs.Counts.{one_at, count_of};
ghost use Rattle.swapstore.specs.Holding.{AreHeld, AreHeldByDigest, OthersStay};
ghost use Rattle.slot_contents.specs.declared.content.Written.{Written};
ghost use Rattle.slot_contents.specs.Contents.{slots_of, written_to, without, HoldsIt};

/// A law: what is written to a slot was written there from then on, and to other slots what was before; and where it is taken away, what
/// was written to other slots is left.
#[tactic(auto, using(crate::proofs::Writings::at_its_slot, crate::proofs::Writings::elsewhere, crate::proofs::Writings::left_was_there, crate::proofs::Writings::is_written, crate::proofs::Writings::left_elsewhere))]
pub fn slots_are_written_apart()
    ensures here { (w : Written) (ws : List Written) → written_to (w ∷ ws) w.slot ≡ Some w.bytes }
    ensures elsewhere { (w : Written) (ws : List Written) → OthersStay w.slot (written_to ws) (written_to (w ∷ ws)) }
    ensures left { (slot : ℕ) (ws : List Written) → OthersStay slot (written_to ws) (written_to (without slot ws)) }
    ensures no_more { (slot : ℕ) (ws : List Written) (at : ℕ) (last : List ℕ) → written_to (without slot ws) at ≡ Some last → written_to ws at ≡ Some last }
    ensures there { (slot : ℕ) (ws : List Written) → 0 < count_of slot (slots_of ws) → IsSome (written_to ws slot) }
{}

/// A law: of slots that hold what was written to them, if it is known what they hold, one holds what was written to it; and bytes that are
/// what a slot holds or have another SHA-256 than it are those that were written to it, where it is known what it holds and they have their
/// SHA-256.
#[tactic(auto, using(crate::proofs::Writings::holds_written, crate::proofs::Writings::reads_written))]
pub fn what_is_read_was_written()
    ensures held { (held : ℕ → Option (List ℕ)) (ws : List Written) (slot : ℕ) (last : List ℕ) → All (HoldsIt held) ws → written_to ws slot ≡ Some last → AreHeld (held slot) last }
    ensures read { (held : ℕ → Option (List ℕ)) (ws : List Written) (slot : ℕ) (last bytes : List ℕ) → All (HoldsIt held) ws → written_to ws slot ≡ Some last →
        IsSome (held slot) → AreHeldByDigest (held slot) bytes → sha256 bytes ≡ sha256 last → bytes ≡ last }
{}
