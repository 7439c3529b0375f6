//! Laws of the definitions.
ghost use Rattle.std.specs.Prelude.{◌≡◌, ℕ, ◌+◌, ◌*◌, ◌/◌, ◌%◌, ◌<◌, ◌≤◌, List, length, take, drop, slice_index, slice_set};
ghost use Rattle.word32.specs.Pages.{page_number, page_offset};
ghost use Rattle.word32.specs.Words.{patched, half_in, with_half, word_in, with_word};
ghost use Rattle.guest_pages.specs.declared.page.Page.{Page};
ghost use Rattle.guest_pages.specs.Pages.{page_at, kind_of, kinds_of, kind_at, shown, memory_of, page_part};
ghost use Rattle.guest_pages.specs.Pages.{AreWhole, HasOwnTicket, ticket_of, slot_of, digest_of};
ghost use Rattle.guest_pages.specs.Holdings.{IsExchanged, frame_in, ticket_in, slot_in, frames_held, tickets_held, slots_held};
ghost use Rattle.guest_pages.specs.Holdings.{one_private, one_shared, one_swapped, private_pages, shared_pages, swapped_pages};
ghost use Rattle.guest_pages.specs.Outline.{outlined, outline};

use crate::GuestPages;

impl GuestPages {
    /// A law of the type: each page has 4,096 bytes, and a shared page the ticket of the frame that it reads.
    #[tactic(auto, using(crate::proofs::Replacing::own_ticket))]
    pub fn sound(&self)
        ensures whole { AreWhole self.now }
        ensures tickets { (p : ℕ) → HasOwnTicket (page_at self.now p) }
    {
        // Who reads a field knows what the type says of all fields.
        let _pages = &self.pages;
    }
}

/// A law: the memory has the bytes of each page at 4,096 times its number, so a page that is replaced changes those bytes.
#[tactic(auto, using(crate::proofs::Memory::length_of_memory, crate::proofs::Replacing::page_of_memory, crate::proofs::Replacing::memory_patched))]
pub fn memory_is_its_pages()
    ensures length { (pages : List Page) → AreWhole pages → length (memory_of pages) ≡ length pages * 4096 }
    ensures page { (pages : List Page) (p : ℕ) → AreWhole pages → p < length pages → page_part p (memory_of pages) ≡ shown (page_at pages p) }
    ensures replaced { (pages : List Page) (p : ℕ) (new : Page) → AreWhole pages → p < length pages →
        memory_of (slice_set pages p new) ≡ patched (memory_of pages) (p * 4096) (shown new) 4096 }
{}

/// A law: a page that is replaced is the new one, and each other page stays where it is with what it holds.
#[tactic(auto, using(crate::proofs::Replacing::new_page, crate::proofs::Replacing::other_page, crate::proofs::Replacing::kinds_set, crate::proofs::Replacing::outline_set))]
pub fn one_page_is_replaced()
    ensures new { (pages : List Page) (p : ℕ) (page : Page) → p < length pages → page_at (slice_set pages p page) p ≡ page }
    ensures other { (pages : List Page) (p q : ℕ) (page : Page) → (q ≡ p → ⊥) → page_at (slice_set pages p page) q ≡ page_at pages q }
    ensures kinds { (pages : List Page) (p : ℕ) (page : Page) → kinds_of (slice_set pages p page) ≡ slice_set (kinds_of pages) p (kind_of page) }
    ensures outline { (pages : List Page) (p : ℕ) (page : Page) → outline (slice_set pages p page) ≡ slice_set (outline pages) p (outlined page) }
{}

/// A law: a read at an address that is a multiple of its size reads the page of the address alone.
#[tactic(auto, using(crate::proofs::Memory::byte_read, crate::proofs::Memory::half_read, crate::proofs::Memory::word_read))]
pub fn a_read_is_of_one_page()
    ensures byte { (pages : List Page) (at : ℕ) → AreWhole pages → at < length pages * 4096 →
        slice_index (memory_of pages) at ≡ slice_index (shown (page_at pages (at / 4096))) (at % 4096) }
    ensures half { (pages : List Page) (at : ℕ) → AreWhole pages → at < length pages * 4096 → at % 2 ≡ 0 →
        half_in (memory_of pages) at ≡ half_in (shown (page_at pages (at / 4096))) (at % 4096) }
    ensures word { (pages : List Page) (at : ℕ) → AreWhole pages → at < length pages * 4096 → at % 4 ≡ 0 →
        word_in (memory_of pages) at ≡ word_in (shown (page_at pages (at / 4096))) (at % 4096) }
{}

/// A law: a write at an address that is a multiple of its size leaves the bytes of every other page.
#[tactic(auto, using(crate::proofs::OtherPages::byte_leaves_others, crate::proofs::OtherPages::half_leaves_others, crate::proofs::OtherPages::word_leaves_others))]
pub fn a_write_leaves_other_pages()
    ensures byte { (memory : List ℕ) (at byte p : ℕ) → (p ≡ page_number at → ⊥) → page_part p (slice_set memory at byte) ≡ page_part p memory }
    ensures half { (memory : List ℕ) (at half p : ℕ) → at ≤ length memory → at % 2 ≡ 0 → (p ≡ page_number at → ⊥) →
        page_part p (with_half memory at half) ≡ page_part p memory }
    ensures word { (memory : List ℕ) (at word p : ℕ) → at ≤ length memory → at % 4 ≡ 0 → (p ≡ page_number at → ⊥) →
        page_part p (with_word memory at word) ≡ page_part p memory }
{}

/// A law: of a page that is replaced, what it held is lost, and what the new one holds is gained.
#[tactic(auto, using(crate::proofs::Holdings::frames_set, crate::proofs::Holdings::tickets_held_set, crate::proofs::Holdings::slots_set))]
pub fn holdings_change_by_one_page()
    ensures frames { (k : ℕ) → IsExchanged (frame_in k) }
    ensures tickets { (k : ℕ) → IsExchanged (ticket_in k) }
    ensures slots { (k : ℕ) → IsExchanged (slot_in k) }
{}

/// A law: the counts of pages change by the page that is replaced, and no page is counted twice.
#[tactic(auto, using(crate::proofs::Holdings::private_set, crate::proofs::Holdings::shared_set, crate::proofs::Holdings::swapped_set, crate::proofs::Holdings::counts_fit))]
pub fn counts_change_by_one_page()
    ensures private { IsExchanged one_private }
    ensures shared { IsExchanged one_shared }
    ensures swapped { IsExchanged one_swapped }
    ensures at_most { (pages : List Page) → private_pages pages + shared_pages pages + swapped_pages pages ≤ length pages }
{}

/// A law: the outline tells where each page is, and its ticket, slot and digest.
#[tactic(auto, using(crate::proofs::Outlines::outline_length, crate::proofs::Outlines::outline_at, crate::proofs::Outlines::outline_kind, crate::proofs::Outlines::outline_kinds, crate::proofs::Outlines::outline_ticket, crate::proofs::Outlines::outline_slot, crate::proofs::Outlines::outline_digest))]
pub fn outline_tells_where_pages_are()
    ensures length { (pages : List Page) → length (outline pages) ≡ length pages }
    ensures page { (pages : List Page) (p : ℕ) → page_at (outline pages) p ≡ outlined (page_at pages p) }
    ensures kind { (pages : List Page) (p : ℕ) → kind_at (outline pages) p ≡ kind_at pages p }
    ensures kinds { (pages : List Page) → kinds_of (outline pages) ≡ kinds_of pages }
    ensures ticket { (pages : List Page) (p : ℕ) → ticket_of (page_at (outline pages) p) ≡ ticket_of (page_at pages p) }
    ensures slot { (pages : List Page) (p : ℕ) → slot_of (page_at (outline pages) p) ≡ slot_of (page_at pages p) }
    ensures digest { (pages : List Page) (p : ℕ) → digest_of (page_at (outline pages) p) ≡ digest_of (page_at pages p) }
{}

/// A law: the outline tells what the pages hold.
#[tactic(auto, using(crate::proofs::Outlines::outline_frames, crate::proofs::Outlines::outline_tickets, crate::proofs::Outlines::outline_slots, crate::proofs::Outlines::outline_private, crate::proofs::Outlines::outline_shared, crate::proofs::Outlines::outline_swapped))]
pub fn outline_tells_what_pages_hold()
    ensures frames { (k : ℕ) (pages : List Page) → frames_held k (outline pages) ≡ frames_held k pages }
    ensures tickets { (k : ℕ) (pages : List Page) → tickets_held k (outline pages) ≡ tickets_held k pages }
    ensures slots { (k : ℕ) (pages : List Page) → slots_held k (outline pages) ≡ slots_held k pages }
    ensures private { (pages : List Page) → private_pages (outline pages) ≡ private_pages pages }
    ensures shared { (pages : List Page) → shared_pages (outline pages) ≡ shared_pages pages }
    ensures swapped { (pages : List Page) → swapped_pages (outline pages) ≡ swapped_pages pages }
{}

/// A law: outline and memory together are the pages.
#[tactic(auto, using(crate::proofs::Same::same_pages))]
pub fn outline_and_memory_are_the_pages()
    ensures { (ones others : List Page) → AreWhole ones → AreWhole others →
        outline ones ≡ outline others → memory_of ones ≡ memory_of others → ones ≡ others }
{}
