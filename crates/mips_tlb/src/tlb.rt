//! The entries.
ghost use Rattle.std.specs.Prelude.{◌≡◌, ◌<◌, ◌≤◌, position, find, IfSome, length, slice_get, slice_set, Some};
ghost use Rattle.mips_tlb.specs.Entries.{boot_entries, matches};

use crate::{Coherence, Vpn2};
use mips_cp0::{MOST_ENTRIES, Profile};
use std::marker::Model;
use word32::Ppn;

/// What an entry says of one of its two pages.
#[derive(Clone, Copy, Debug, PartialEq, Eq)]
pub struct PageHalf {
    /// PFN: the physical page number.
    pub pfn: Ppn,
    /// C: the coherence attribute.
    pub coherence: Coherence,
    /// D: stores are allowed.
    pub dirty: bool,
    /// V: the page is there.
    pub valid: bool,
}

/// An entry of the TLB: a pair of neighbouring pages of 4,096 bytes.
#[derive(Clone, Copy, Debug, PartialEq, Eq)]
pub struct Entry {
    /// VPN2: bits 31 to 13 of the addresses of the pair.
    pub vpn2: Vpn2,
    /// The address space that the pair belongs to, where it is not global.
    pub asid: u8,
    /// G: the pair belongs to all address spaces.
    pub global: bool,
    /// The page whose addresses have bit 12 clear.
    pub even: PageHalf,
    /// The page whose addresses have bit 12 set.
    pub odd: PageHalf,
}

impl Entry {
    /// Whether it is the entry of a virtual address in an address space: it has the address's VPN2, and it is global or
    /// has the address space's number.
    pub fn matches(&self, address: u32, asid: u8) -> bool
        ensures { result ≡ matches address asid self.now }
    {
        self.vpn2.number() == address >> 13 && (self.global || self.asid == asid)
    }
}

/// The TLB. In clauses it is the list of its entries, 16 or 32 by the profile.
#[derive(Drop)]
pub struct Tlb {
    entries: [Entry; MOST_ENTRIES],
    // How many of them the processor has; the others are nothing.
    len: usize,
}

impl Model for Tlb {
    ghost use Rattle.std.specs.Prelude.{◌≤◌, List, take};
    ghost use Rattle.mips_tlb.specs.declared.tlb.Entry.{Entry};

    ghost Value = { List Entry };

    ghost view = { λ t. take t.len t.entries };

    ghost invariant = { λ t. t.len ≤ 32 };
}

impl Tlb {
    /// The TLB as a machine of a profile boots: all zeros.
    #[tactic(auto, using(crate::proofs::Used::zeros_used))]
    pub fn boot(profile: Profile) -> Tlb
        ensures { result ≡ boot_entries profile }
    {
        let even = PageHalf {
            pfn: Ppn::new(0),
            coherence: Coherence::new(0),
            dirty: false,
            valid: false,
        };
        let odd = even;
        let entry = Entry {
            vpn2: Vpn2::new(0),
            asid: 0,
            global: false,
            even,
            odd,
        };
        Tlb {
            entries: [entry; MOST_ENTRIES],
            len: profile.numbers().entries as usize,
        }
    }

    /// The same TLB once more, for a snapshot.
    pub fn again(&self) -> Tlb
        ensures { result ≡ self.now }
    {
        let mut entries = [self.entries[0]; MOST_ENTRIES];
        entries.copy_from_slice(&self.entries);
        Tlb {
            entries,
            len: self.len,
        }
    }

    /// How many entries it has, 16 or 32 by the profile.
    pub fn len(&self) -> usize
        ensures value { result ≡ length self.now }
        ensures small { result ≤ MOST_ENTRIES }
    {
        self.entries().len()
    }

    /// Its entries.
    pub fn entries(&self) -> &[Entry]
        ensures entries { result.now ≡ self.now }
        ensures number { length result.now ≤ MOST_ENTRIES }
    {
        &self.entries[..self.len]
    }

    /// The entry of an index, which is below their number.
    pub fn read(&self, index: usize) -> Entry
        requires { index < length self.now }
        ensures { slice_get self.now index ≡ Some result }
    {
        self.entries()[index]
    }

    /// Writes the entry of an index, which is below their number.
    #[tactic(auto, using(crate::proofs::Used::write_used, crate::proofs::Used::index_used))]
    pub fn write(&mut self, index: usize, entry: Entry)
        requires { index < length self.old }
        ensures written { self.new ≡ slice_set self.old index entry }
        ensures number { length self.new ≡ length self.old }
    {
        let _ = &self.entries;
        self.entries[index] = entry;
    }

    /// The least index of an entry that matches a virtual address in an address space; None where none does.
    pub fn find(&self, address: u32, asid: u8) -> Option<usize>
        ensures value { result ≡ position (matches address asid) self.now }
        ensures small { IfSome result (λ index. index < MOST_ENTRIES) }
    {
        self.entries()
            .iter()
            .position(|entry| entry.matches(address, asid))
    }

    // The matching entry of least index.
    pub(crate) fn matching(&self, address: u32, asid: u8) -> Option<Entry>
        ensures { result ≡ find (matches address asid) self.now }
    {
        self.entries()
            .iter()
            .copied()
            .find(|entry| entry.matches(address, asid))
    }
}
