//! Laws of the definitions.
ghost use Rattle.std.specs.Prelude.{◌≡◌, ◌*◌, ◌≤◌, ◌<◌, ◌↔◌, ℕ, List, IfSome, IsTrue};
ghost use Rattle.taxpolicy.specs.declared.stat.Stat.{Stat};
ghost use Rattle.taxpolicy.specs.Targets.{targets_of, AreLow};
ghost use Rattle.reclaim.specs.declared.level.Level.{Level};
ghost use Rattle.reclaim.specs.declared.level.Level.TheVariants.{High, Low};
ghost use Rattle.reclaim.specs.Levels.{Moves, Chain, LeadsTo, next_level_of};
ghost use Rattle.reclaim.specs.Plans.{action_of, actions_of, no_action, IsSwapping, left_of};

use taxpolicy::laws::targets_fill_the_frames;

/// A law: from each level, at each number of free frames, moves lead to exactly one level at which no move applies, and there
/// are three at most. From that level none leads on.
pub fn moves_lead_to_one_level()
    ensures leads { (free total : ℕ) (level : Level) → LeadsTo free total level (next_level_of free total level) }
    ensures one { (free total : ℕ) (from to : Level) → LeadsTo free total from to → to ≡ next_level_of free total from }
    ensures few { (free total moves : ℕ) (from to : Level) → Chain free total moves from to → moves ≤ 3 }
    ensures one_move { (free total : ℕ) (from a b : Level) → Moves free total from a → Moves free total from b → a ≡ b }
    ensures again { (free total : ℕ) (level : Level) → next_level_of free total (next_level_of free total level) ≡ next_level_of free total level }
{}

/// A law: no balloon is asked to grow above three quarters of the guest's pages, only guests above their targets are blocked,
/// and those at the lowest level, and nothing is asked of a guest that isn't above its target, unless balloons deflate.
pub fn guests_are_asked_for_what_they_owe()
    ensures balloon { (level : Level) (s : Stat) (target : ℕ) → IfSome (action_of level s target).balloon (λ pages. 4 * pages ≤ 3 * s.pages) }
    ensures blocked { (level : Level) (s : Stat) (target : ℕ) → IsTrue (action_of level s target).blocked ↔ ((level ≡ Low) × (target < s.resident)) }
    ensures no_more { (level : Level) (s : Stat) (target : ℕ) → ¬ (level ≡ High) → s.resident ≤ target → action_of level s target ≡ no_action }
{}

/// A law: where pages are swapped out, each guest is left its target. So six of each hundred frames come free, or each guest
/// has no more than its minimum.
pub fn swapping_out_leaves_the_targets()
    ensures left { (level : Level) (tax total : ℕ) (stats : List Stat) → tax < 100 → IsSwapping level →
        left_of stats (actions_of level tax total stats) ≡ targets_of tax total stats }
    ensures low { (level : Level) (tax total : ℕ) (stats : List Stat) → tax < 100 → IsSwapping level →
        AreLow total stats (left_of stats (actions_of level tax total stats)) }
{
    targets_fill_the_frames();
}
