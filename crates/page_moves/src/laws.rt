//! Laws of the books.
ghost use Rattle.std.specs.Prelude.{◌≡◌, ℕ, ◌+◌, ◌<◌, List, [], ◌∷◌, ◌++◌, Option, None, IsSome, length, replicate, slice_index_or, slice_set, sum_by};
ghost use Rattle.sha2.specs.Sha256.{sha256};
ghost use Rattle.frames.specs.Counts.{count_of, below};
ghost use Rattle.frames.specs.FreeList.{FreeList};
ghost use Rattle.sharetab.specs.Entries.{EntriesAre, count_at, entry_count, ticket_count};
ghost use Rattle.guest_pages.specs.declared.page.Page.{Page};
ghost use Rattle.guest_pages.specs.declared.page.Page.TheVariants.{Zero};
ghost use Rattle.guest_pages.specs.declared.page.PageKind.TheVariants.{Private, Shared, Swapped};
ghost use Rattle.swapstore.specs.Holding.{AreHeld, AllStay, OthersStay};
ghost use Rattle.guest_pages.specs.Pages.{page_at, kind_at, slot_of, ticket_of, digest_of, handed_back};
ghost use Rattle.guest_pages.specs.Holdings.{slots_held, private_pages, shared_pages, swapped_pages};
ghost use Rattle.page_moves.specs.Moves.{Takes, Gives, MovesFrames, MovesSlots, Conserves, Reads, Covered, OwnOnce};
ghost use Rattle.page_moves.specs.Books.{Books, pages_of};
ghost use Rattle.page_moves.specs.Faith.{Kept};
ghost use Rattle.page_moves.specs.Returns.{IsOut};

/// A law: where a move of one owner's pages conserves, the books stay exact.
pub fn a_move_keeps_the_books()
    ensures { (frames slots : ℕ) (all : List (List Page)) (i : ℕ) (pages : List Page) (es es' : EntriesAre) (pool pool' book book' : FreeList) →
        i < length all → Conserves (pages_of all i) pool book es pages pool' book' es' → Reads es' pages →
        Books frames slots all es pool book → Books frames slots (slice_set all i pages) es' pool' book' }
{}

/// A law: what the books say of each owner's pages, which each move of them asks for.
#[tactic(auto, using(crate::proofs::Booking::covered, crate::proofs::Booking::own_once, crate::proofs::Booking::reads_each))]
pub fn books_tell_of_each_owner()
    ensures covered { (frames slots : ℕ) (all : List (List Page)) (es : EntriesAre) (pool book : FreeList) (i : ℕ) →
        Books frames slots all es pool book → i < length all → Covered es (pages_of all i) }
    ensures own_once { (frames slots : ℕ) (all : List (List Page)) (es : EntriesAre) (pool book : FreeList) (i : ℕ) →
        Books frames slots all es pool book → i < length all → OwnOnce es (pages_of all i) }
    ensures reads { (frames slots : ℕ) (all : List (List Page)) (es : EntriesAre) (pool book : FreeList) (i : ℕ) →
        Books frames slots all es pool book → i < length all → Reads es (pages_of all i) }
{}

/// A law: what the books say of a page of an owner: what it holds is out, and its slot is one of the store.
#[tactic(auto, using(crate::proofs::Booking::private_out, crate::proofs::Booking::shared_out, crate::proofs::Booking::ticket_out, crate::proofs::Booking::swapped_out))]
pub fn books_tell_of_each_page()
    ensures private { (frames slots : ℕ) (all : List (List Page)) (es : EntriesAre) (pool book : FreeList) (i p : ℕ) → Books frames slots all es pool book →
        i < length all → p < length (pages_of all i) → kind_at (pages_of all i) p ≡ Private → 0 < pool.out }
    ensures shared { (frames slots : ℕ) (all : List (List Page)) (es : EntriesAre) (pool book : FreeList) (i p : ℕ) → Books frames slots all es pool book →
        i < length all → kind_at (pages_of all i) p ≡ Shared → 0 < pool.out }
    ensures ticket { (frames slots : ℕ) (all : List (List Page)) (es : EntriesAre) (pool book : FreeList) (i p : ℕ) → Books frames slots all es pool book →
        i < length all → kind_at (pages_of all i) p ≡ Shared → 0 < count_at es (ticket_of (page_at (pages_of all i) p)) }
    ensures swapped { (frames slots : ℕ) (all : List (List Page)) (es : EntriesAre) (pool book : FreeList) (i p : ℕ) → Books frames slots all es pool book →
        i < length all → p < length (pages_of all i) → kind_at (pages_of all i) p ≡ Swapped → 0 < book.out }
    ensures slot { (frames slots : ℕ) (all : List (List Page)) (es : EntriesAre) (pool book : FreeList) (i p : ℕ) → Books frames slots all es pool book →
        i < length all → p < length (pages_of all i) → kind_at (pages_of all i) p ≡ Swapped → slot_of (page_at (pages_of all i) p) < slots }
{}

/// A law: a slot that is free is no page's, and one of the store.
#[tactic(auto, using(crate::proofs::Booking::slot_apart, crate::proofs::Booking::free_slot_inside))]
pub fn a_free_slot_is_nobodys()
    ensures apart { (frames slots : ℕ) (all : List (List Page)) (es : EntriesAre) (pool book : FreeList) (i slot : ℕ) → Books frames slots all es pool book →
        i < length all → 0 < count_of slot book.free → slots_held slot (pages_of all i) ≡ 0 }
    ensures inside { (frames slots : ℕ) (all : List (List Page)) (es : EntriesAre) (pool book : FreeList) (slot : ℕ) → Books frames slots all es pool book →
        0 < count_of slot book.free → slot < slots }
{}

/// A law: a frame that came free is given to the pool, and a slot that a page gets is taken from the book.
#[tactic(auto, using(crate::proofs::Booking::frame_given, crate::proofs::Booking::slot_taken))]
pub fn numbers_in_hand_are_counted()
    ensures frame { (pages : List Page) (pool : FreeList) (es : EntriesAre) (pages' : List Page) (pool' given : FreeList) (es' : EntriesAre) (no : ℕ) →
        MovesFrames pages pool es pages' pool' es' (no ∷ []) → Gives pool' no given → MovesFrames pages pool es pages' given es' [] }
    ensures slot { (pages : List Page) (book taken : FreeList) (pages' : List Page) (slot : ℕ) →
        Takes book slot taken → MovesSlots pages taken pages' taken (slot ∷ []) → MovesSlots pages book pages' taken [] }
{}

/// A law: pages stay kept where a slot is written that is none of theirs, and where slots are read; and what was last written
/// to the slot of a page that is kept, where that is known, has the page's SHA-256, so that an honest store never makes its
/// supply answer `SwapDamaged`.
#[tactic(auto, using(crate::proofs::Evicting::others_kept, crate::proofs::Keeping::all_kept, crate::proofs::Keeping::kept_is_sound))]
pub fn pages_stay_kept()
    ensures written { (held held' : ℕ → Option (List ℕ)) (view : ℕ → List ℕ) (pages : List Page) (slot : ℕ) →
        OthersStay slot held held' → slots_held slot pages ≡ 0 → Kept held view pages → Kept held' view pages }
    ensures read { (held held' : ℕ → Option (List ℕ)) (view : ℕ → List ℕ) (pages : List Page) → AllStay held held' → Kept held view pages →
        Kept held' view pages }
    ensures undamaged { (held : ℕ → Option (List ℕ)) (view : ℕ → List ℕ) (pages : List Page) (p : ℕ) (bytes : List ℕ) → p < length pages →
        kind_at pages p ≡ Swapped → IsSome (held (slot_of (page_at pages p))) → Kept held view pages → AreHeld (held (slot_of (page_at pages p))) bytes →
        sha256 bytes ≡ digest_of (page_at pages p) }
{}

/// A law: what a page hands back is out, and so is a frame that came free, so that each may go where it belongs.
#[tactic(auto, using(crate::proofs::Booking::came_free_out, crate::proofs::Booking::handed_back_out))]
pub fn what_comes_back_was_out()
    ensures frame { (frames slots : ℕ) (all : List (List Page)) (i : ℕ) (pages : List Page) (es es' : EntriesAre) (pool book : FreeList) (number : ℕ) →
        Books frames slots all es pool book → i < length all → MovesFrames (pages_of all i) pool es pages pool es' (number ∷ []) → 0 < pool.out }
    ensures page { (frames slots : ℕ) (all : List (List Page)) (es : EntriesAre) (pool book : FreeList) (i p : ℕ) → Books frames slots all es pool book →
        i < length all → p < length (pages_of all i) → IsOut pool book es (handed_back (page_at (pages_of all i) p)) }
{}

/// A law: with all frames and slots free and no entry, the books of no owner are exact; and those with one more owner, none of
/// whose pages was ever touched.
#[tactic(auto, using(crate::proofs::Starting::books_of_nothing, crate::proofs::Starting::books_with_owner))]
pub fn books_begin()
    ensures nothing { (frames slots : ℕ) (pool book : FreeList) → ((k : ℕ) → count_of k pool.free ≡ below k frames) → pool.out ≡ 0 →
        ((k : ℕ) → count_of k book.free ≡ below k slots) → book.out ≡ 0 → Books frames slots [] (replicate frames None) pool book }
    ensures owner { (frames slots : ℕ) (all : List (List Page)) (es : EntriesAre) (pool book : FreeList) (n : ℕ) →
        Books frames slots all es pool book → Books frames slots (all ++ replicate n Zero ∷ []) es pool book }
{}

/// A law: exact books add up. Frames that are free, pages' own, and entries' are all the frames; slots that are free and pages'
/// are all the slots; of each, those that are out and those that are free are all; tickets that are out are the pages that
/// read shared frames.
pub fn exact_books_add_up()
    ensures frames { (frames slots : ℕ) (all : List (List Page)) (entries : EntriesAre) (pool book : FreeList) → Books frames slots all entries pool book →
        length pool.free + sum_by private_pages all + entry_count entries ≡ frames }
    ensures pool_out { (frames slots : ℕ) (all : List (List Page)) (entries : EntriesAre) (pool book : FreeList) → Books frames slots all entries pool book →
        pool.out + length pool.free ≡ frames }
    ensures slots { (frames slots : ℕ) (all : List (List Page)) (entries : EntriesAre) (pool book : FreeList) → Books frames slots all entries pool book →
        length book.free + sum_by swapped_pages all ≡ slots }
    ensures slots_out { (frames slots : ℕ) (all : List (List Page)) (entries : EntriesAre) (pool book : FreeList) → Books frames slots all entries pool book →
        book.out + length book.free ≡ slots }
    ensures tickets { (frames slots : ℕ) (all : List (List Page)) (entries : EntriesAre) (pool book : FreeList) → Books frames slots all entries pool book →
        ticket_count entries ≡ sum_by shared_pages all }
{}
