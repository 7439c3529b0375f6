//! Laws of the definitions.
ghost use Rattle.std.specs.Prelude.{◌≡◌, ℕ, ◌+◌, ◌*◌, ◌/◌, ◌%◌, ◌^◌, ◌<◌, ◌↔◌, All, IsTrue, true, false, List, position, find, slice_get, slice_index_or, Some, Ok, Err};
ghost use Rattle.mips_cp0.specs.Status.{is_user_mode};
ghost use Rattle.mips_cp0.specs.Registers.{SystemRegisters, boot_registers, current_asid};
ghost use Rattle.mips_cp0.specs.declared.profile.Profile.{Profile};
ghost use Rattle.mips_tlb.specs.Entries.{BelongTogether, boot_entries, zero_entry, matches};
ghost use Rattle.mips_tlb.specs.Segments.{is_refused, is_mapped};
ghost use Rattle.mips_tlb.specs.Translation.{tlb_exception, translation, probed, answer_of};
ghost use Rattle.mips_tlb.specs.Instructions.{entry_in, with_entry};
ghost use Rattle.mips_tlb.specs.declared.kind.Kind.{Kind};
ghost use Rattle.mips_tlb.specs.declared.kind.Kind.TheVariants.{Load};
ghost use Rattle.mips_tlb.specs.declared.tlb.Entry.{Entry};

/// A law: as a machine boots, its TLB has as many entries as its registers say.
#[tactic(auto, using(crate::proofs::Used::boot_together))]
pub fn profiles_belong_together()
    ensures { (profile : Profile) → BelongTogether (boot_entries profile) (boot_registers profile) }
{}

/// A law: where no entry matches an address that the mode may reach, its translation is a refill exactly in a mapped
/// segment.
#[tactic(auto, using(crate::proofs::Searches::find_none))]
pub fn no_match_is_refill()
    ensures { (entries : List Entry) (r : SystemRegisters) (kind : Kind) (address : ℕ) → is_refused r.status address ≡ false
        → All (λ entry. matches address (current_asid r) entry ≡ false) entries
        → (translation entries r kind address ≡ Err (tlb_exception kind address true)) ↔ IsTrue (is_mapped r.status address) }
{}

/// A law: an entry that was read into EntryHi, EntryLo0 and EntryLo1 is the entry in them.
pub fn registers_show_the_entry()
    ensures { (entry : Entry) (r : SystemRegisters) → entry.vpn2 < 2 ^ 19 → entry.asid < 2 ^ 8 → entry.even.pfn < 2 ^ 20 → entry.odd.pfn < 2 ^ 20
        → entry.even.coherence < 2 ^ 3 → entry.odd.coherence < 2 ^ 3 → entry_in (with_entry entry r) ≡ entry }
{}

/// A law: in kernel mode a probe gives what a load gets.
pub fn probe_is_a_kernel_load()
    ensures { (entries : List Entry) (r : SystemRegisters) (address : ℕ) → is_user_mode r.status ≡ false
        → probed entries r address ≡ answer_of (translation entries r Load address) }
{}

/// A law: translation goes by pages. Where an address of a page has a physical address, each other address of the page
/// has that of the same place in the same physical page.
#[tactic(auto, using(crate::proofs::Pages::translation_same))]
pub fn pages_stay_together()
    ensures { (entries : List Entry) (r : SystemRegisters) (kind : Kind) (address other physical : ℕ) → address / 2 ^ 12 ≡ other / 2 ^ 12
        → translation entries r kind address ≡ Ok physical → translation entries r kind other ≡ Ok (physical / 2 ^ 12 * 2 ^ 12 + other % 2 ^ 12) }
{}

/// A law: the entry at the index that a search finds is the one that translation goes through; it matches, and none
/// before it does.
#[tactic(auto, using(crate::proofs::Searches::passes_at_position, crate::proofs::Searches::find_at_position))]
pub fn least_index_is_found()
    ensures used { (entries : List Entry) (address asid index : ℕ) → position (matches address asid) entries ≡ Some index
        → find (matches address asid) entries ≡ slice_get entries index }
    ensures matching { (entries : List Entry) (address asid index : ℕ) → position (matches address asid) entries ≡ Some index
        → matches address asid (slice_index_or entries index zero_entry) ≡ true }
    ensures least { (entries : List Entry) (address asid index before : ℕ) → position (matches address asid) entries ≡ Some index → before < index
        → matches address asid (slice_index_or entries before zero_entry) ≡ false }
{}
