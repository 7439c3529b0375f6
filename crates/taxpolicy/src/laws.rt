//! Laws of the definitions.
ghost use Rattle.std.specs.Prelude.{◌≡◌, [], ◌∷◌, ◌%◌, length, slice_index, ◌+◌, ◌-◌, ◌*◌, ◌≤◌, ◌<◌, ◌⊎◌, ◌↔◌, ℕ, List, All, Some, None, min, sum};
ghost use Rattle.taxpolicy.specs.declared.stat.Stat.{Stat};
ghost use Rattle.std.specs.List.{AllZip};
ghost use Rattle.rand_core.specs.Stream.{Stream, next_u32};
ghost use Rattle.taxpolicy.specs.Sample.{drawn, after_words};
ghost use Rattle.taxpolicy.specs.Targets.{frames_to_fill, residents, targets_of, IsTarget, AreLow};
ghost use Rattle.taxpolicy.specs.Worked.{active_guest, idle_guest, rich_guest};
ghost use Rattle.taxpolicy.specs.Victim.{IsEligible, IsLeast, victim_of};
ghost use Rattle.taxpolicy.specs.Ratio.{Fraction, RatioLess, SameRatio, IsLessActive, page_cost, ratio, shares_per_page, part};

/// A law: fractions stand in a strict order, in which any two of the same ratio stand alike.
#[tactic(auto, using(crate::proofs::Fractions::less_less, crate::proofs::Fractions::same_less, crate::proofs::Fractions::less_same, crate::proofs::Fractions::same_same))]
pub fn ratios_are_ordered()
    ensures irreflexive { (a : Fraction) → ¬ RatioLess a a }
    ensures transitive { (a b c : Fraction) → RatioLess a b → RatioLess b c → RatioLess a c }
    ensures compared { (a b : Fraction) → RatioLess a b ⊎ (SameRatio a b ⊎ RatioLess b a) }
    ensures same_before { (a b c : Fraction) → 0 < a.denominator → SameRatio a b → RatioLess b c → RatioLess a c }
    ensures same_after { (a b c : Fraction) → 0 < c.denominator → RatioLess a b → SameRatio b c → RatioLess a c }
    ensures same_as_same { (a b c : Fraction) → 0 < b.denominator → SameRatio a b → SameRatio b c → SameRatio a c }
{}

/// A law: without a tax, or where all pages are active, the ratio is that of shares to pages. The ratio of an idle guest is
/// (100 - tax) / 100 of that, since an idle page costs 100 / (100 - tax) times what an active one does. Of two guests that
/// are alike but for their active pages, the less active one has the smaller ratio where there is a tax.
#[tactic(auto, using(crate::proofs::Taxed::untaxed, crate::proofs::Taxed::all_active, crate::proofs::Taxed::idle, crate::proofs::Taxed::idle_page, crate::proofs::Taxed::less_active))]
pub fn tax_falls_on_idle_pages()
    ensures untaxed { (s : Stat) → SameRatio (ratio 0 s) (shares_per_page s) }
    ensures active { (tax : ℕ) (s : Stat) → s.active ≡ s.sample → SameRatio (ratio tax s) (shares_per_page s) }
    ensures idle { (tax : ℕ) (s : Stat) → s.active ≡ 0 → SameRatio (ratio tax s) (part (100 - tax) 100 (shares_per_page s)) }
    ensures idle_page { (tax : ℕ) (a b : Stat) → a.sample ≡ b.sample → a.active ≡ 0 → b.active ≡ b.sample →
        (100 - tax) * page_cost tax a ≡ 100 * page_cost tax b }
    ensures less_active { (tax : ℕ) (a b : Stat) → 0 < tax → tax < 100 → IsLessActive a b → RatioLess (ratio tax a) (ratio tax b) }
{}

/// A law: the victim of some guests is the one of the least ratio, of which there is one at most; there is none exactly where
/// nobody is eligible.
#[tactic(auto, using(crate::proofs::Existence::victim_of_nobody))]
pub fn victim_has_the_least_ratio()
    ensures least { (tax : ℕ) (stats : List Stat) (g : ℕ) → tax < 100 → (victim_of tax stats ≡ Some g) ↔ IsLeast tax stats g }
    ensures nobody { (tax : ℕ) (stats : List Stat) → tax < 100 → (victim_of tax stats ≡ None) ↔ All (λ s. ¬ IsEligible s) stats }
    ensures one { (tax : ℕ) (stats : List Stat) (g h : ℕ) → IsLeast tax stats g → IsLeast tax stats h → g ≡ h }
{}

/// A law: guests may fill the most frames of which at least six of each hundred stay free.
pub fn six_of_each_hundred_frames_stay_free()
    ensures free { (total : ℕ) → 6 * total ≤ 100 * (total - frames_to_fill total) }
    ensures most { (total : ℕ) → 0 < total → 100 * (total - (frames_to_fill total + 1)) < 6 * total }
{}

/// A law: a target lies between what the guest always keeps and what it has. In the end the guests fill no more frames than
/// they may, or each has no more than its minimum; and they lose no page more than that takes.
pub fn targets_fill_the_frames()
    ensures each { (tax total : ℕ) (stats : List Stat) → tax < 100 → AllZip IsTarget stats (targets_of tax total stats) }
    ensures ended { (tax total : ℕ) (stats : List Stat) → tax < 100 → AreLow total stats (targets_of tax total stats) }
    ensures least { (tax total : ℕ) (stats : List Stat) → tax < 100 →
        min (frames_to_fill total) (sum (residents stats)) ≤ sum (targets_of tax total stats) }
{}

/// A law: each draw of a sample is the generator's next word modulo the pages, so it is one of them.
#[tactic(auto, using(crate::proofs::Drawn::count, crate::proofs::Drawn::each_word, crate::proofs::Drawn::all_below))]
pub fn draws_are_the_next_words()
    ensures count { (pages n : ℕ) (stream : Stream) → length (drawn pages n stream) ≡ n }
    ensures each { (pages n k : ℕ) (stream : Stream) → k < n → slice_index (drawn pages n stream) k ≡ (next_u32 (after_words k stream)).0 % pages }
    ensures below { (pages n : ℕ) (stream : Stream) → 0 < pages → All (λ page. page < pages) (drawn pages n stream) }
{}

/// Worked ratios at a tax of 75 percent, and the victim of the three guests, which is another one without a tax.
#[tactic(auto, unfolding(crate::specs::Victim::victim_of))]
pub fn ratios_worked_out()
    ensures active { ratio 75 active_guest ≡ record { numerator = 2500000; denominator = 750000 } }
    ensures idle { ratio 75 idle_guest ≡ record { numerator = 2500000; denominator = 2550000 } }
    ensures rich { ratio 75 rich_guest ≡ record { numerator = 7500000; denominator = 3000000 } }
    ensures victim { victim_of 75 (active_guest ∷ idle_guest ∷ rich_guest ∷ []) ≡ Some 1 }
    ensures untaxed_victim { victim_of 0 (active_guest ∷ idle_guest ∷ rich_guest ∷ []) ≡ Some 0 }
{}
