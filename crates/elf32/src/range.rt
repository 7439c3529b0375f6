//! The addresses of segments.
ghost use Rattle.std.specs.Prelude.{◌≡◌, ◌+◌};
ghost use Rattle.std.specs.List.{list_any};
ghost use Rattle.elf32.specs.Faults.{is_outside, share_address, has_address, overlap, has_wrong_entry, range_faults, first_fault_of};

use crate::SEGMENT_BASE;
use crate::fault::Fault;
use crate::image::PAGE_BYTES;

/// The virtual addresses from `address` on, `size` of them.
#[derive(Clone, Copy, Debug, PartialEq, Eq)]
pub struct AddressRange {
    /// The first.
    pub address: u32,
    /// How many.
    pub size: u32,
}

impl AddressRange {
    /// The address after the last, which can be 2^32 or more.
    fn end(&self) -> u64
        ensures { result ≡ self.now.address + self.now.size }
    {
        u64::from(self.address) + u64::from(self.size)
    }

    /// Whether a memory of this many pages hasn't all of them.
    pub(crate) fn is_outside(&self, pages: u32) -> bool
        ensures { result ≡ is_outside pages self.now }
    {
        self.address < SEGMENT_BASE
            || u64::from(SEGMENT_BASE) + PAGE_BYTES * u64::from(pages) < self.end()
    }

    /// Whether an address is in both, where neither is empty.
    pub(crate) fn shares_address(&self, other: &AddressRange) -> bool
        ensures { result ≡ share_address self.now other.now }
    {
        u64::from(self.address) < other.end() && u64::from(other.address) < self.end()
    }

    /// Whether this address is one of them.
    pub(crate) fn has_address(&self, address: u32) -> bool
        ensures { result ≡ has_address address self.now }
    {
        self.address <= address && u64::from(address) < self.end()
    }
}

/// Whether two of the ranges share an address.
pub(crate) fn overlap(ranges: &[AddressRange]) -> bool
    ensures { result ≡ overlap ranges.now }
{
    for i in 0..ranges.len() {
        if any_shares_address(ranges[i], &ranges[i + 1..]) {
            return true;
        }
    }
    false
}

/// Whether one of the others shares an address with the range.
fn any_shares_address(range: AddressRange, others: &[AddressRange]) -> bool
    ensures { result ≡ list_any (share_address range) others.now }
{
    others.iter().any(|other| range.shares_address(other))
}

/// Whether a memory of this many pages hasn't all addresses of one of the ranges.
fn any_is_outside(pages: u32, ranges: &[AddressRange]) -> bool
    ensures { result ≡ list_any (is_outside pages) ranges.now }
{
    ranges.iter().any(|range| range.is_outside(pages))
}

/// Whether the address is in one of the ranges.
fn any_has_address(address: u32, ranges: &[AddressRange]) -> bool
    ensures { result ≡ list_any (has_address address) ranges.now }
{
    ranges.iter().any(|range| range.has_address(address))
}

/// Whether the entry isn't a multiple of 4, or is in no range.
pub(crate) fn has_wrong_entry(entry: u32, ranges: &[AddressRange]) -> bool
    ensures { result ≡ has_wrong_entry entry ranges.now }
{
    entry % 4 != 0 || !any_has_address(entry, ranges)
}

/// The first fault of what is loaded at these ranges of a memory of some pages and entered at `entry`.
pub(crate) fn range_fault(pages: u32, entry: u32, ranges: &[AddressRange]) -> Option<Fault>
    ensures { result ≡ first_fault_of (range_faults pages entry ranges.now) }
{
    if ranges.is_empty() {
        Some(Fault::Empty)
    } else if any_is_outside(pages, ranges) {
        Some(Fault::Place)
    } else if overlap(ranges) {
        Some(Fault::Overlap)
    } else if has_wrong_entry(entry, ranges) {
        Some(Fault::Entry)
    } else {
        None
    }
}
