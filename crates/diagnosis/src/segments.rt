//! The segments of a file that is refused.
ghost use Rattle.std.specs.Prelude.{◌≡◌, ◌+◌, IfSome, true};
ghost use Rattle.elf32.specs.Faults.{has_wrong_contents, is_outside, share_address};

use crate::headers::is_loadable;
use crate::memory::{Memory, PAGE_BYTES};
use crate::pages::{least_pages, least_pages_for};
use crate::words::plural;
use elf32::SEGMENT_BASE;
use elf32::header::ProgramHeader;
use elf32::range::AddressRange;
use std::alloc::{AllocError, Global};

/// So many segments are listed at most.
const MOST_LISTED: usize = 4;

/// What links a program to where the memory is.
const PLACED: &str =
    "link with -T SCRIPT, a linker script that places it there (examples/gnu/vmhost.ld is one)";

/// The address after the last of a range.
fn end_of(range: &AddressRange) -> u64
    ensures { result ≡ range.now.address + range.now.size }
{
    u64::from(range.address) + u64::from(range.size)
}

/// A range in words.
fn range_text(alloc: Global, range: &AddressRange) -> Result<String, AllocError> {
    let address = range.address;
    let end = end_of(range);
    format!(in alloc; "{address:08x} to {end:08x}")
}

/// Whether a segment has more bytes in the file than in memory, or bytes past the end of a file of this length.
fn has_wrong_contents_in(header: &ProgramHeader, length: usize) -> bool
    ensures { result ≡ has_wrong_contents length header.now }
{
    is_loadable(header)
        && (header.memory_size < header.file_size
            || (header.file_size != 0
                && length < header.offset as usize + header.file_size as usize))
}

/// The first segment whose contents are wrong.
pub fn contents_text(
    alloc: Global,
    length: usize,
    headers: &[ProgramHeader],
) -> Result<String, AllocError> {
    let wrong = headers
        .iter()
        .position(|header| has_wrong_contents_in(header, length));
    match wrong {
        Some(k) => wrong_contents_text(alloc, length, k, &headers[k]),
        None => String::from_str(alloc, "a segment's bytes are not all in the file"),
    }
}

fn wrong_contents_text(
    alloc: Global,
    length: usize,
    number: usize,
    header: &ProgramHeader,
) -> Result<String, AllocError> {
    let ProgramHeader {
        address,
        offset,
        file_size,
        memory_size,
        ..
    } = *header;
    if memory_size < file_size {
        return format!(in alloc;
            "program header {number}, of a segment at {address:08x}, says {file_size} bytes in the file and fewer, {memory_size}, in memory"
        );
    }
    let end = u64::from(offset) + u64::from(file_size);
    format!(in alloc;
        "the segment of program header {number}, at {address:08x}, is bytes {offset} to {end} of the file, which has {length}: it is cut off"
    )
}

/// Whether a memory of so many pages hasn't all addresses of a range.
fn is_outside_of(range: &AddressRange, pages: u32) -> bool
    ensures { result ≡ is_outside pages range.now }
{
    range.address < SEGMENT_BASE
        || u64::from(SEGMENT_BASE) + PAGE_BYTES * u64::from(pages) < end_of(range)
}

/// The first range that a memory of so many pages hasn't.
fn first_outside(ranges: &[AddressRange], pages: u32) -> Option<AddressRange>
    ensures { IfSome result (λ range. is_outside pages range ≡ true) }
{
    ranges
        .iter()
        .find(|range| is_outside_of(range, pages))
        .copied()
}

/// A segment that the memory doesn't hold, and what does.
pub fn place_text(
    alloc: Global,
    memory: Memory,
    ranges: &[AddressRange],
) -> Result<String, AllocError> {
    let pages = memory.pages();
    let unheld = ranges
        .iter()
        .find(|range| least_pages(range, memory).is_none());
    match (
        unheld,
        first_outside(ranges, pages),
        least_pages_for(ranges, memory),
    ) {
        (None, Some(range), Some(wanted)) => {
            let range = range_text(alloc, &range)?;
            let s = plural(u64::from(pages));
            let limit = memory_end(pages);
            let advice = memory.with_pages(wanted);
            format!(in alloc;
                "a segment at {range} lies outside {pages} page{s} ({SEGMENT_BASE:08x} to {limit:08x}); {advice}"
            )
        }
        (Some(range), _, _) => unheld_text(alloc, range, memory),
        _ => String::from_str(alloc, "a segment lies outside the memory"),
    }
}

/// The address after the last of a memory.
fn memory_end(pages: u32) -> u64 {
    u64::from(SEGMENT_BASE) + PAGE_BYTES * u64::from(pages)
}

/// A segment that no such memory holds, whatever its pages.
fn unheld_text(alloc: Global, range: &AddressRange, memory: Memory) -> Result<String, AllocError> {
    let place = range_text(alloc, range)?;
    let pages = memory.most_pages();
    let limit = memory_end(pages);
    let of = memory.of_profile();
    let side = if range.address < SEGMENT_BASE {
        "begins below"
    } else {
        "ends past"
    };
    format!(in alloc;
        "a segment at {place} {side} the memory{of}, which lies at {SEGMENT_BASE:08x} to {limit:08x} at most ({pages} pages); {PLACED}"
    )
}

/// Whether an address is in both ranges, where neither is empty.
fn share(a: &AddressRange, b: &AddressRange) -> bool
    ensures { result ≡ share_address a.now b.now }
{
    u64::from(a.address) < end_of(b) && u64::from(b.address) < end_of(a)
}

/// Two segments that share an address: the first that shares one with a later one, and the first of those.
fn first_overlap(ranges: &[AddressRange]) -> Option<(AddressRange, AddressRange)>
    ensures { IfSome result (λ pair. share_address pair.0 pair.1 ≡ true) }
{
    for (i, range) in ranges.iter().enumerate() {
        if let Some(other) = first_sharing(range, &ranges[i + 1..]) {
            return Some((*range, other));
        }
    }
    None
}

/// The first of the others that shares an address with the range.
fn first_sharing(range: &AddressRange, others: &[AddressRange]) -> Option<AddressRange>
    ensures { IfSome result (λ other. share_address range.now other ≡ true) }
{
    others.iter().find(|other| share(range, other)).copied()
}

/// The two segments that overlap, and where.
pub fn overlap_text(alloc: Global, ranges: &[AddressRange]) -> Result<String, AllocError> {
    let Some((a, b)) = first_overlap(ranges) else {
        return String::from_str(alloc, "two segments overlap");
    };
    let first = range_text(alloc, &a)?;
    let second = range_text(alloc, &b)?;
    let from = a.address.max(b.address);
    let to = end_of(&a).min(end_of(&b));
    format!(in alloc;
        "the segments at {first} and at {second} overlap from {from:08x} to {to:08x}: place them apart in the linker script"
    )
}

/// The entry, and where segments lie.
pub fn entry_text(
    alloc: Global,
    entry: u32,
    ranges: &[AddressRange],
) -> Result<String, AllocError> {
    if entry % 4 != 0 {
        return format!(in alloc;
            "the entry, {entry:08x}, is no multiple of 4, as an instruction's address is (MIPS16 and microMIPS are not run)"
        );
    }
    let places = list_text(alloc, ranges)?;
    format!(in alloc;
        "the entry, {entry:08x}, lies in no segment, and these are at {places}: name the entry in the linker script (ENTRY) or by -e"
    )
}

/// The first few ranges.
fn list_text(alloc: Global, ranges: &[AddressRange]) -> Result<String, AllocError> {
    let mut text = String::new(alloc);
    for (i, range) in ranges.iter().enumerate() {
        if i == MOST_LISTED {
            text.push_str(" and more")?;
            break;
        }
        if i > 0 {
            text.push_str(", ")?;
        }
        text.push_str(&range_text(alloc, range)?)?;
    }
    Ok(text)
}
