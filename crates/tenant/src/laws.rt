//! Laws of what is lent.
ghost use Rattle.std.specs.Prelude.{ℕ, ◌<◌, List, length};
ghost use Rattle.frames.specs.FreeList.{FreeList};
ghost use Rattle.sharetab.specs.Entries.{EntriesAre};
ghost use Rattle.guest_pages.specs.declared.page.Page.{Page};
ghost use Rattle.page_moves.specs.Books.{Books, pages_of};
ghost use Rattle.tenant.specs.Lent.{Lent};

/// A law: exact books of several owners say of the pages of each, and of what lies around them, all that a move of these pages asks for.
#[tactic(auto, using(crate::proofs::Lending::lent))]
pub fn books_lend()
    ensures { (frames slots : ℕ) (all : List (List Page)) (es : EntriesAre) (pool book : FreeList) (i : ℕ) →
        Books frames slots all es pool book → i < length all → Lent slots (pages_of all i) pool book es }
{}
