//! Laws of the definitions.
ghost use Rattle.std.specs.Prelude.{◌≡◌, ℕ, ◌+◌, ◌≤◌, ◌≢◌, true, false, length};
ghost use Rattle.dev_balloon.specs.Balloon.{BalloonIs, fresh_balloon, is_given, given_count, can_be_given, page_given, page_taken};

/// A law: no page of a fresh balloon is given, and never are more pages given than there are.
pub fn given_pages_are_pages()
    ensures fresh { (pages : ℕ) → given_count (fresh_balloon pages) ≡ 0 }
    ensures pages { (pages : ℕ) → length (fresh_balloon pages).given ≡ pages }
    ensures within { (b : BalloonIs) → given_count b ≤ length b.given }
{}

/// A law: a page that can be given becomes given, which is one page more, and is given no second time. Where a page can't
/// be given, nothing changes.
pub fn given_page_is_one_more()
    ensures given { (page : ℕ) (b : BalloonIs) → can_be_given page b ≡ true → is_given page (page_given page b) ≡ true }
    ensures more { (page : ℕ) (b : BalloonIs) → can_be_given page b ≡ true → given_count (page_given page b) ≡ given_count b + 1 }
    ensures once { (page : ℕ) (b : BalloonIs) → can_be_given page (page_given page b) ≡ false }
    ensures same { (page : ℕ) (b : BalloonIs) → can_be_given page b ≡ false → page_given page b ≡ b }
{}

/// A law: a page that is given is taken, which is one page less. Where a page isn't given, nothing changes.
#[inline(always)]
#[tactic(auto, using(crate::proofs::Counting::taken_back))]
pub fn taken_page_is_one_less()
    ensures taken { (page : ℕ) (b : BalloonIs) → is_given page (page_taken page b) ≡ false }
    ensures less { (page : ℕ) (b : BalloonIs) → is_given page b ≡ true → given_count (page_taken page b) + 1 ≡ given_count b }
    ensures same { (page : ℕ) (b : BalloonIs) → is_given page b ≡ false → page_taken page b ≡ b }
    ensures back { (page : ℕ) (b : BalloonIs) → is_given page b ≡ false → page_taken page (page_given page b) ≡ b }
{}

/// A law: where no page is given, none of them is.
#[inline(always)]
#[tactic(auto, using(crate::proofs::Counting::none_is_given))]
pub fn none_is_given_of_none()
    ensures { (page : ℕ) (b : BalloonIs) → given_count b ≡ 0 → is_given page b ≡ false }
{}

/// A law: where no page is given, none is taken.
#[inline(always)]
#[tactic(auto, using(crate::proofs::Counting::none_to_take))]
pub fn none_is_taken_of_none()
    ensures { (page : ℕ) (b : BalloonIs) → given_count b ≡ 0 → page_taken page b ≡ b }
{}

/// A law: a page is given and taken alone.
pub fn other_pages_stay()
    ensures given { (page other : ℕ) (b : BalloonIs) → other ≢ page → is_given other (page_given page b) ≡ is_given other b }
    ensures taken { (page other : ℕ) (b : BalloonIs) → other ≢ page → is_given other (page_taken page b) ≡ is_given other b }
{}
