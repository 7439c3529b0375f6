//! Laws of the books: what the calls of a table of shared frames do to what it has of each number.
ghost use Rattle.std.specs.Prelude.{◌≡◌, ℕ, ◌+◌, ◌<◌, ◌↔◌, List, None, length};
ghost use Rattle.frames.specs.Frames.{FrameIs};
ghost use Rattle.frames.specs.Counts.{one_at, count_of};
ghost use Rattle.sharetab.specs.Entries.{EntriesAre, entry_at, count_at, one_entry, frames_shared, entry_count, ticket_count, AllFit};
ghost use Rattle.sharetab.specs.Hints.{OnePageEach};
ghost use Rattle.sharetab.specs.Books.{Admits, Joins, Leaves, KeepBytes, freed_at};
ghost use Rattle.sharetab.specs.Shares.{SharesAre, OneAnswer};
ghost use Rattle.sharetab.specs.declared.guest_page.GuestPage.{GuestPage};

/// A law: what `admit` puts in is the frame's number and one ticket of it; the other entries keep their bytes.
#[tactic(auto, using(crate::proofs::Books::admit_frames, crate::proofs::Books::admit_tickets, crate::proofs::Books::admit_entries, crate::proofs::Books::admit_all_tickets, crate::proofs::Books::admit_bytes, crate::proofs::Books::admit_places))]
pub fn admit_puts_a_frame_in()
    ensures frames { (k : ℕ) (old new : EntriesAre) (frame : FrameIs) → Admits old frame new →
        frames_shared k new ≡ frames_shared k old + one_at k frame.number }
    ensures tickets { (k : ℕ) (old new : EntriesAre) (frame : FrameIs) → Admits old frame new →
        count_at new k ≡ count_at old k + one_at k frame.number }
    ensures entries { (old new : EntriesAre) (frame : FrameIs) → Admits old frame new → entry_count new ≡ entry_count old + 1 }
    ensures all_tickets { (old new : EntriesAre) (frame : FrameIs) → Admits old frame new → ticket_count new ≡ ticket_count old + 1 }
    ensures bytes { (old new : EntriesAre) (frame : FrameIs) → Admits old frame new → KeepBytes old new }
    ensures places { (old new : EntriesAre) (frame : FrameIs) → Admits old frame new → length new ≡ length old }
{}

/// A law: `join` gives out one ticket, and moves no frame; each entry keeps its bytes.
#[tactic(auto, using(crate::proofs::Books::join_frames, crate::proofs::Books::join_tickets, crate::proofs::Books::join_entries, crate::proofs::Books::join_all_tickets, crate::proofs::Books::join_bytes, crate::proofs::Books::join_places))]
pub fn join_gives_a_ticket()
    ensures frames { (k place : ℕ) (old new : EntriesAre) → Joins old place new → frames_shared k new ≡ frames_shared k old }
    ensures tickets { (k place : ℕ) (old new : EntriesAre) → Joins old place new → count_at new k ≡ count_at old k + one_at k place }
    ensures entries { (place : ℕ) (old new : EntriesAre) → Joins old place new → entry_count new ≡ entry_count old }
    ensures all_tickets { (place : ℕ) (old new : EntriesAre) → Joins old place new → ticket_count new ≡ ticket_count old + 1 }
    ensures bytes { (place : ℕ) (old new : EntriesAre) → Joins old place new → KeepBytes old new }
    ensures places { (place : ℕ) (old new : EntriesAre) → Joins old place new → length new ≡ length old }
{}

/// A law: `leave` takes one ticket; what it leaves and the frame that it answers are together what was there; and an entry
/// of which a ticket is still out keeps its bytes.
#[tactic(auto, using(crate::proofs::Books::leave_frames, crate::proofs::Books::leave_tickets, crate::proofs::Books::leave_entries, crate::proofs::Books::leave_all_tickets, crate::proofs::Books::leave_bytes, crate::proofs::Books::leave_places))]
pub fn leave_takes_a_ticket()
    ensures frames { (k place : ℕ) (old new : EntriesAre) → Leaves old place new →
        frames_shared k new + count_of k (freed_at old place) ≡ frames_shared k old }
    ensures tickets { (k place : ℕ) (old new : EntriesAre) → Leaves old place new → count_at new k + one_at k place ≡ count_at old k }
    ensures entries { (place : ℕ) (old new : EntriesAre) → Leaves old place new → entry_count new + length (freed_at old place) ≡ entry_count old }
    ensures all_tickets { (place : ℕ) (old new : EntriesAre) → Leaves old place new → ticket_count new + 1 ≡ ticket_count old }
    ensures bytes { (place : ℕ) (old new : EntriesAre) → Leaves old place new → KeepBytes old new }
    ensures places { (place : ℕ) (old new : EntriesAre) → Leaves old place new → length new ≡ length old }
{}

/// A law: where each entry is at its place, a frame lies in the table once where its place has an entry, and else not; and
/// a ticket of it is out exactly where its place has an entry.
#[tactic(auto, using(crate::proofs::Books::frames_by_place, crate::proofs::Books::tickets_by_place, crate::proofs::Books::vacant_by_frames))]
pub fn a_frame_is_at_its_place()
    ensures frames { (k : ℕ) (entries : EntriesAre) → AllFit entries → frames_shared k entries ≡ one_entry (entry_at entries k) }
    ensures tickets { (k : ℕ) (entries : EntriesAre) → AllFit entries → 0 < count_at entries k ↔ (one_entry (entry_at entries k) ≡ 1) }
    ensures vacant { (k : ℕ) (entries : EntriesAre) → AllFit entries → frames_shared k entries ≡ 0 → entry_at entries k ≡ None }
{}

/// A law: an offer has one answer.
#[tactic(auto, using(crate::proofs::Offering::one_answer))]
pub fn an_offer_has_one_answer()
    ensures { (shares : SharesAre) (digest : List ℕ) (page : GuestPage) → OnePageEach shares.hints → OneAnswer shares digest page }
{}
