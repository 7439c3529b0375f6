//! Address translation.
ghost use Rattle.std.specs.Prelude.{◌≡◌, ℕ, List, Some, Ok};
ghost use Rattle.mips_tlb.specs.Segments.{is_refused, is_mapped, unmapped_address, direct_address};
ghost use Rattle.mips_tlb.specs.declared.kind.Kind.{Kind};
ghost use Rattle.mips_tlb.specs.declared.tlb.Entry.{Entry};
ghost use Rattle.mips_tlb.specs.Translation.{half_of, through_half, kernel_translation, translation, probed};

use crate::{Entry, Kind, PageHalf, PhysAddr, Tlb};
use mips_cp0::{Cp0, Exc, Status};
use word32::offset_of;

/// The first virtual address of kseg0, from which on user mode reaches none.
pub const KSEG0: u32 = 0x8000_0000;
/// The first virtual address of kseg2, before which kseg0 and kseg1 end, which go by no entry.
pub const KSEG2: u32 = 0xc000_0000;

impl Tlb {
    /// The physical address of an access at a virtual address, or the exception that it raises: an address error of an
    /// address that user mode may not reach; in a mapped segment a refill where no entry matches, and else, by the
    /// matching entry of least index, the exception of a page that is not valid, or that is not dirty and stored to
    /// (volume III, Virtual Memory).
    pub fn translate(&self, cp0: &Cp0, address: u32, kind: Kind) -> Result<PhysAddr, Exc>
        ensures { result ≡ translation self.now cp0.now kind address }
    {
        if cp0.is_user_mode() && address >= KSEG0 {
            return Err(kind.address_error(address));
        }
        self.translate_in_kernel_mode(cp0, address, kind)
    }

    /// The physical address of a load of kernel mode at a virtual address, whatever mode runs; None where the load
    /// would raise an exception.
    pub fn probe(&self, cp0: &Cp0, address: u32) -> Option<PhysAddr>
        ensures { result ≡ probed self.now cp0.now address }
    {
        self.translate_in_kernel_mode(cp0, address, Kind::Load).ok()
    }

    // What an access of kernel mode gets.
    fn translate_in_kernel_mode(&self, cp0: &Cp0, address: u32, kind: Kind) -> Result<PhysAddr, Exc>
        ensures { result ≡ kernel_translation self.now cp0.now kind address }
    {
        if !is_mapped(cp0, address) {
            return Ok(unmapped(address));
        }
        match self.matching(address, cp0.asid()) {
            Some(entry) => through_half(entry.half_of(address), address, kind),
            None => Err(kind.tlb_exception(address, true)),
        }
    }
}

impl Entry {
    // The page of the pair that an address is in.
    fn half_of(&self, address: u32) -> PageHalf
        ensures { result ≡ half_of address self.now }
    {
        if (address >> 12) % 2 == 0 {
            self.even
        } else {
            self.odd
        }
    }
}

/// The physical address of one in kseg0 or kseg1 that kernel mode reaches, which is that of each kind of access and
/// needs no entry; `None` of the others, which `Tlb::translate` tells.
#[inline(always)]
pub fn direct_address(cp0: &Cp0, address: u32) -> Option<PhysAddr>
    ensures value { result ≡ direct_address cp0.now.status address }
    ensures translated { (entries : List Entry) (kind : Kind) (at : ℕ) → result ≡ Some at → translation entries cp0.now kind address ≡ Ok at }
{
    if (KSEG0..KSEG2).contains(&address) && !cp0.is_user_mode() {
        Some(unmapped(address))
    } else {
        None
    }
}

// Whether an address goes through the TLB.
fn is_mapped(cp0: &Cp0, address: u32) -> bool
    ensures { result ≡ is_mapped cp0.now.status address }
{
    (address < KSEG0 && !cp0.is_error_level()) || address >= KSEG2
}

// The physical address of one that does not.
fn unmapped(address: u32) -> PhysAddr
    ensures { result ≡ unmapped_address address }
{
    if address < KSEG0 {
        PhysAddr::new(address)
    } else {
        PhysAddr::new(address & 0x1fff_ffff)
    }
}

// The physical address in a page, or the exception that the page raises.
fn through_half(half: PageHalf, address: u32, kind: Kind) -> Result<PhysAddr, Exc>
    ensures { result ≡ through_half kind address half }
{
    if !half.valid {
        Err(kind.tlb_exception(address, false))
    } else if kind == Kind::Store && !half.dirty {
        Err(Exc::Modified { address })
    } else {
        Ok(PhysAddr::in_page(half.pfn, offset_of(address)))
    }
}
