//! Laws of the accounts: from a move of `page_moves` to what settling asks, and from the accounts of all owners to exact books.
ghost use Rattle.std.specs.Prelude.{◌≡◌, ℕ, ◌+◌, ◌<◌, List, Option, [], ◌∷◌, ◌++◌, length, map, slice_set, sum_by};
ghost use Rattle.std.specs.Option.{option_to_list};
ghost use Rattle.frames.specs.Counts.{one_at, count_of};
ghost use Rattle.frames.specs.Frames.{FrameIs};
ghost use Rattle.frames.specs.FreeList.{FreeList};
ghost use Rattle.sharetab.specs.Books.{Leaves};
ghost use Rattle.sharetab.specs.Entries.{EntriesAre, entry_at, freed_frame, entry_count, ticket_count};
ghost use Rattle.guest_pages.specs.declared.page.Page.{Page};
ghost use Rattle.guest_pages.specs.declared.page.Page.TheVariants.{Given};
ghost use Rattle.guest_pages.specs.declared.page.Returned.TheVariants as returned;
ghost use Rattle.guest_pages.specs.Outline.{outline};
ghost use Rattle.guest_pages.specs.Pages.{page_at, handed_back};
ghost use Rattle.guest_pages.specs.Holdings.{private_pages, shared_pages, swapped_pages};
ghost use Rattle.page_moves.specs.Moves.{Takes, Gives, MovesFrames, MovesSlots, MovesTickets, Conserves, Reads, Covered};
ghost use Rattle.page_moves.specs.Books.{Books};
ghost use Rattle.ledger.specs.Shares.{LedgerId, ShareIs, AreOf};
ghost use Rattle.accounts.specs.declared.account.Account.{Account};
ghost use Rattle.accounts.specs.declared.account.Account.TheVariants.{Table, Frame, Slots};
ghost use Rattle.accounts.specs.declared.account.Extent.{Extent};
ghost use Rattle.accounts.specs.Exact.{Exact, free_list};
ghost use Rattle.accounts.specs.OwnerShares.{share_of, guest_account, guest_share};
ghost use Rattle.accounts.specs.Settling.{Moved, MovedWithTable, MovedWithSlots, MovedWithBoth};

/// A law: what `supply_first`, `supply_copy` and `supply_swapped` of `page_moves` ensure, with the frame of number `no` in hand before, is
/// what settling asks; a frame that came free is in hand after, and the slot is free again.
pub fn supplies_settle()
    ensures first { (ledger : LedgerId) (guest : ShareIs Account) (pages pages' : List Page) (no : ℕ) → guest ≡ guest_share ledger pages (no ∷ []) →
        ((pool rest book : FreeList) (entries : EntriesAre) → Takes pool no rest → Conserves pages pool book entries pages' rest book entries) →
        ((entries : EntriesAre) → Reads entries pages → Reads entries pages') → Moved ledger guest pages' [] }
    ensures copy { (ledger : LedgerId) (guest table : ShareIs Account) (pages pages' : List Page) (no : ℕ) (entries entries' : EntriesAre) (came_free : List ℕ) →
        guest ≡ guest_share ledger pages (no ∷ []) → table ≡ share_of ledger (Table entries) →
        ((pool rest : FreeList) → Takes pool no rest → MovesFrames pages pool entries pages' rest entries' came_free) →
        ((book : FreeList) → MovesSlots pages book pages' book []) → MovesTickets pages entries pages' entries' →
        (Reads entries pages → Reads entries' pages') → MovedWithTable ledger guest table pages' came_free entries' }
    ensures swapped { (ledger : LedgerId) (guest slots : ShareIs Account) (pages pages' : List Page) (no slot : ℕ) (book book' : FreeList) →
        guest ≡ guest_share ledger pages (no ∷ []) → slots ≡ share_of ledger (Slots book) →
        ((pool rest book book' : FreeList) (entries : EntriesAre) → Takes pool no rest → Gives book slot book' → Conserves pages pool book entries pages' rest book' entries) →
        Gives book slot book' → ((entries : EntriesAre) → Reads entries pages → Reads entries pages') → MovedWithSlots ledger guest slots pages' [] book' }
{}

/// A law: what `scan_in` of `page_moves` ensures is what settling asks, with the frame that came free in hand.
pub fn scans_settle()
    ensures { (ledger : LedgerId) (guest table : ShareIs Account) (pages pages' : List Page) (entries entries' : EntriesAre) (came_free : List ℕ) →
        guest ≡ guest_share ledger pages [] → table ≡ share_of ledger (Table entries) →
        ((pool : FreeList) → MovesFrames pages pool entries pages' pool entries' came_free) →
        ((book : FreeList) → MovesSlots pages book pages' book []) → MovesTickets pages entries pages' entries' →
        (Reads entries pages → Reads entries' pages') → MovedWithTable ledger guest table pages' came_free entries' }
{}

/// A law: what `evict_in` of `page_moves` ensures, with a slot that was taken from the book, is what settling asks, with the frame that
/// came free in hand; and so it is where the slot was given back and no page changed.
pub fn evictions_settle()
    ensures evicted { (ledger : LedgerId) (guest table slots : ShareIs Account) (pages pages' : List Page) (entries entries' : EntriesAre) (slot : ℕ) (book taken : FreeList) (came_free : List ℕ) →
        guest ≡ guest_share ledger pages [] → table ≡ share_of ledger (Table entries) → slots ≡ share_of ledger (Slots book) →
        ((pool : FreeList) → MovesFrames pages pool entries pages' pool entries' came_free) →
        Takes book slot taken → ((book : FreeList) → MovesSlots pages book pages' book (slot ∷ [])) → MovesTickets pages entries pages' entries' →
        (Reads entries pages → Reads entries' pages') → MovedWithBoth ledger guest table slots pages' came_free entries' taken }
    ensures stays { (ledger : LedgerId) (guest slots : ShareIs Account) (pages pages' : List Page) (hand : List ℕ) (slot : ℕ) (book taken book' : FreeList) →
        guest ≡ guest_share ledger pages hand → slots ≡ share_of ledger (Slots book) → pages' ≡ pages →
        Takes book slot taken → Gives taken slot book' → MovedWithSlots ledger guest slots pages' hand book' }
{}

/// A law: a page that a step gave to the balloon settles, where the share is still that of the pages before the step, which have one
/// outline with those when the page left: it handed back nothing; a frame, which is in hand; a ticket, which has left its entry, with
/// the frame that came free in hand; or a slot, which is free again.
pub fn given_pages_settle()
    ensures nothing { (ledger : LedgerId) (guest : ShareIs Account) (pages then pages' : List Page) (p : ℕ) → guest ≡ guest_share ledger pages [] →
        outline then ≡ outline pages → pages' ≡ slice_set then p Given → handed_back (page_at then p) ≡ returned.Nothing → Moved ledger guest pages' [] }
    ensures frame { (ledger : LedgerId) (guest : ShareIs Account) (pages then pages' : List Page) (p : ℕ) (frame : FrameIs) → guest ≡ guest_share ledger pages [] →
        outline then ≡ outline pages → pages' ≡ slice_set then p Given → handed_back (page_at then p) ≡ returned.Frame frame → Moved ledger guest pages' (frame.number ∷ []) }
    ensures ticket { (ledger : LedgerId) (guest table : ShareIs Account) (pages then pages' : List Page) (p ticket : ℕ) (entries entries' : EntriesAre) (came_free : Option ℕ) →
        guest ≡ guest_share ledger pages [] → table ≡ share_of ledger (Table entries) → outline then ≡ outline pages → pages' ≡ slice_set then p Given →
        handed_back (page_at then p) ≡ returned.Ticket ticket → Covered entries pages → Leaves entries ticket entries' → came_free ≡ freed_frame (entry_at entries ticket) →
        MovedWithTable ledger guest table pages' (option_to_list came_free) entries' }
    ensures slot { (ledger : LedgerId) (guest slots : ShareIs Account) (pages then pages' : List Page) (p slot : ℕ) (book book' : FreeList) →
        guest ≡ guest_share ledger pages [] → slots ≡ share_of ledger (Slots book) → outline then ≡ outline pages → pages' ≡ slice_set then p Given →
        handed_back (page_at then p) ≡ returned.Slot slot → Gives book slot book' → MovedWithSlots ledger guest slots pages' [] book' }
{}

/// A law: a slot that was taken from a book was free, so that what `meet_slots` says of free slots is said of it.
pub fn a_slot_that_is_taken_was_free()
    ensures { (old new : List ℕ) (slot : ℕ) → ((k : ℕ) → count_of k old ≡ count_of k new + one_at k slot) → 0 < count_of slot old }
{}

/// A law: accounts that are right with others are so in any order.
pub fn accounts_are_right_in_any_order()
    ensures { (k : Extent) (these those more : List Account) → AreOf (Exact k) (these ++ (those ++ more)) → AreOf (Exact k) (those ++ (these ++ more)) }
{}

/// A law: who has the accounts of all guests, of the table and of the slot book, and of some free frames, finds exact books, in which
/// those frames are free, and others whose accounts lie elsewhere.
pub fn all_owners_are_exact_books()
    ensures { (k : Extent) (all : List (List Page)) (entries : EntriesAre) (book : FreeList) (numbers : List ℕ) → length all ≡ k.guests →
        AreOf (Exact k) (Slots book ∷ Table entries ∷ (map (λ pages. guest_account pages []) all ++ map Frame numbers)) →
        (others : List ℕ) × (out : ℕ) × Books k.frames k.slots all entries (free_list (numbers ++ others) out) book }
{}

/// A law: who has those accounts finds that the numbers add up. Frames whose accounts are there, others that are free, pages' own
/// and entries' are all the frames; slots that are free and pages' are all the slots; tickets that are out are the pages that read
/// shared frames.
pub fn the_numbers_of_all_owners_add_up()
    ensures frames { (k : Extent) (all : List (List Page)) (entries : EntriesAre) (book : FreeList) (numbers : List ℕ) → length all ≡ k.guests →
        AreOf (Exact k) (Slots book ∷ Table entries ∷ (map (λ pages. guest_account pages []) all ++ map Frame numbers)) →
        (others : List ℕ) × (length numbers + length others + sum_by private_pages all + entry_count entries ≡ k.frames) }
    ensures slots { (k : Extent) (all : List (List Page)) (entries : EntriesAre) (book : FreeList) (numbers : List ℕ) → length all ≡ k.guests →
        AreOf (Exact k) (Slots book ∷ Table entries ∷ (map (λ pages. guest_account pages []) all ++ map Frame numbers)) →
        length book.free + sum_by swapped_pages all ≡ k.slots }
    ensures tickets { (k : Extent) (all : List (List Page)) (entries : EntriesAre) (book : FreeList) (numbers : List ℕ) → length all ≡ k.guests →
        AreOf (Exact k) (Slots book ∷ Table entries ∷ (map (λ pages. guest_account pages []) all ++ map Frame numbers)) →
        ticket_count entries ≡ sum_by shared_pages all }
{}
