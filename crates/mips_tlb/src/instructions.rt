//! The TLB instructions.
ghost use Rattle.std.specs.Prelude.{◌≡◌};
ghost use Rattle.mips_tlb.specs.Entries.{BelongTogether};
ghost use Rattle.mips_tlb.specs.Instructions.{half_in, entry_in, entry_hi_of, entry_lo_of, after_read, after_write_indexed, after_write_random, after_probe};

use crate::{Coherence, Entry, PageHalf, Tlb, Vpn2};
use mips_cp0::Cp0;
use word32::Ppn;

impl Tlb {
    /// TLBR: the entry that Index numbers goes to EntryHi, EntryLo0 and EntryLo1.
    pub fn read_indexed(&self, cp0: &mut Cp0)
        requires { BelongTogether self.now cp0.old }
        ensures read { cp0.new ≡ after_read self.now cp0.old }
    {
        let entry = self.read(cp0.indexed() as usize);
        cp0.set_entry(
            entry.entry_hi(),
            entry.even.entry_lo(entry.global),
            entry.odd.entry_lo(entry.global),
        );
    }

    /// TLBWI: the entry in EntryHi, EntryLo0 and EntryLo1 becomes the one that Index numbers.
    pub fn write_indexed(&mut self, cp0: &Cp0)
        requires { BelongTogether self.old cp0.now }
        ensures written { self.new ≡ after_write_indexed cp0.now self.old }
        ensures together { BelongTogether self.new cp0.now }
    {
        self.write(cp0.indexed() as usize, entry_in(cp0));
    }

    /// TLBWR: the entry in EntryHi, EntryLo0 and EntryLo1 becomes the one that Random numbers.
    pub fn write_random(&mut self, cp0: &Cp0)
        requires { BelongTogether self.old cp0.now }
        ensures written { self.new ≡ after_write_random cp0.now self.old }
        ensures together { BelongTogether self.new cp0.now }
    {
        self.write(cp0.random() as usize, entry_in(cp0));
    }

    /// TLBP: Index becomes the least number of an entry with the VPN2 of EntryHi that is global or has its ASID, or
    /// 80000000 where there is none.
    pub fn probe_index(&self, cp0: &mut Cp0)
        ensures { cp0.new ≡ after_probe self.now cp0.old }
    {
        let index = match self.find(cp0.entry_hi(), cp0.asid()) {
            Some(index) => index as u32,
            None => 0x8000_0000,
        };
        cp0.set_index(index);
    }
}

impl Entry {
    /// EntryHi of the entry: VPN2 and ASID.
    pub fn entry_hi(&self) -> u32
        ensures { result ≡ entry_hi_of self.now }
    {
        let asid = self.asid;
        (self.vpn2.number() << 13) + u32::from(asid)
    }
}

impl PageHalf {
    /// EntryLo0 or EntryLo1 of the page of an entry, which is global or not.
    pub fn entry_lo(&self, global: bool) -> u32
        ensures { result ≡ entry_lo_of global self.now }
    {
        (self.pfn.number() << 6)
            + (u32::from(self.coherence.code()) << 3)
            + (u32::from(self.dirty) << 2)
            + (u32::from(self.valid) << 1)
            + u32::from(global)
    }

    /// The page that EntryLo0 or EntryLo1 gives.
    pub fn in_entry_lo(lo: u32) -> PageHalf
        ensures { result ≡ half_in lo }
    {
        PageHalf {
            pfn: Ppn::new((lo >> 6) & 0xf_ffff),
            coherence: Coherence::new(((lo >> 3) & 0x7) as u8),
            dirty: lo & 0x4 == 0x4,
            valid: lo & 0x2 == 0x2,
        }
    }
}

/// The entry in EntryHi, EntryLo0 and EntryLo1.
pub fn entry_in(cp0: &Cp0) -> Entry
    ensures { result ≡ entry_in cp0.now }
{
    let (lo0, lo1) = (cp0.entry_lo0(), cp0.entry_lo1());
    Entry {
        vpn2: Vpn2::new(cp0.entry_hi() >> 13),
        asid: cp0.asid(),
        global: lo0 & 0x1 == 0x1 && lo1 & 0x1 == 0x1,
        even: PageHalf::in_entry_lo(lo0),
        odd: PageHalf::in_entry_lo(lo1),
    }
}
