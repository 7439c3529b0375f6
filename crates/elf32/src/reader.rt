//! Reading an image from a file.
ghost use Rattle.std.specs.Prelude.{◌≡◌, ◌≤◌, ◌+◌, ◌<◌, false, Some, length, map, IfOk, IfErr};
ghost use Rattle.std.specs.List.{list_any, filter};
ghost use Rattle.elf32.specs.Images.{FitsPages};
ghost use Rattle.elf32.specs.Headers.{file_header, program_headers, is_loaded, range_of, ranges, shown, segment_of};
ghost use Rattle.elf32.specs.Faults.{header_faults, first_fault_of, has_wrong_table, has_wrong_contents};
ghost use Rattle.elf32.specs.Files.{StandsFor, IsRefusal};

use crate::fault::{ElfError, Fault};
use crate::header::{FILE_HEADER_SIZE, FileHeader, ProgramHeader};
use crate::range::{AddressRange, range_fault};
use crate::{Image, Segment};
use std::alloc::{AllocError, Global};

/// The bytes that a little-endian ELF32 file of version 1 begins with: `e_ident` up to `EI_VERSION`.
pub(crate) const IDENTIFICATION: [u8; 7] = [0x7f, b'E', b'L', b'F', 1, 1, 1];

/// The first fault that the file's header has.
fn header_fault(file: &[u8]) -> Option<Fault>
    ensures { result ≡ first_fault_of (header_faults file.now) }
{
    if file.len() < usize::from(FILE_HEADER_SIZE) {
        return Some(Fault::Short);
    }
    let header = FileHeader::of(file);
    if !file.starts_with(&IDENTIFICATION) {
        Some(Fault::Identification)
    } else if header.is_wrong() {
        Some(Fault::Header)
    } else if header.has_wrong_table(file.len()) {
        Some(Fault::Table)
    } else {
        None
    }
}

/// The program headers of a file whose table lies within it.
fn read_headers(
    alloc: Global,
    file: &[u8],
    header: &FileHeader,
) -> Result<Vec<ProgramHeader>, AllocError>
    requires header { header.now ≡ file_header file.now }
    requires within { has_wrong_table (length file.now) header.now ≡ false }
    ensures { IfOk result (λ headers. headers.items ≡ program_headers file.now) }
{
    let mut headers = Vec::new(alloc);
    for k in 0..header.entries {
        headers.push(ProgramHeader::at(file, header.place(k)))?;
    }
    Ok(headers)
}

/// The segment of a program header whose bytes lie within the file.
fn read_segment(alloc: Global, file: &[u8], header: &ProgramHeader) -> Result<Segment, AllocError>
    requires { 0 < header.now.file_size → header.now.offset + header.now.file_size ≤ length file.now }
    ensures { IfOk result (λ segment. shown segment ≡ segment_of file.now header.now) }
{
    let start = header.offset as usize;
    let bytes = if header.file_size == 0 {
        Vec::new(alloc)
    } else {
        Vec::from_slice(alloc, &file[start..start + header.file_size as usize])?
    };
    Ok(Segment {
        address: header.address,
        bytes,
        size: header.memory_size,
    })
}

/// Whether the contents of one of the program headers are wrong in a file of this length.
fn any_has_wrong_contents(length: usize, headers: &[ProgramHeader]) -> bool
    ensures { result ≡ list_any (has_wrong_contents length) headers.now }
{
    headers
        .iter()
        .any(|header| header.has_wrong_contents(length))
}

/// The addresses of the segments that are loaded.
fn loaded_ranges(alloc: Global, headers: &[ProgramHeader]) -> Result<Vec<AddressRange>, AllocError>
    ensures { IfOk result (λ ranges. ranges.items ≡ map range_of (filter is_loaded headers.now)) }
{
    headers
        .iter()
        .filter(|header| header.is_loaded())
        .map(|header| header.range())
        .collect(alloc)
}

/// The segments that are loaded, of program headers whose bytes lie within the file.
fn read_segments(
    alloc: Global,
    file: &[u8],
    headers: &[ProgramHeader],
) -> Result<Vec<Segment>, AllocError>
    requires { list_any (has_wrong_contents (length file.now)) headers.now ≡ false }
    ensures { IfOk result (λ segments. map shown segments.items ≡ map (segment_of file.now) (filter is_loaded headers.now)) }
{
    let mut segments = Vec::new(alloc);
    for header in headers {
        if header.is_loaded() {
            segments.push(read_segment(alloc, file, header)?)?;
        }
    }
    Ok(segments)
}

/// Reads an executable for a memory of some pages, whose first byte has the virtual address 80000000 (System V ABI, Object
/// Files: ELF Header, Program Header). The image has the file's entry and its loaded segments, and lies within the memory.
///
/// An error is the first fault of the file, in the order short, identification, header, table, contents, empty, place,
/// overlap, entry, each over all headers before the next; or a request for memory was refused.
pub fn read(alloc: Global, file: &[u8], pages: u32) -> Result<Image, ElfError>
    ensures ok { IfOk result (StandsFor file.now pages) }
    ensures fits { IfOk result (λ image. FitsPages image pages) }
    ensures refused { IfErr result (IsRefusal file.now pages) }
{
    if let Some(fault) = header_fault(file) {
        return Err(ElfError::Fault(fault));
    }
    let header = FileHeader::of(file);
    let headers = read_headers(alloc, file, &header)?;
    if any_has_wrong_contents(file.len(), &headers) {
        return Err(ElfError::Fault(Fault::Contents));
    }
    let ranges = loaded_ranges(alloc, &headers)?;
    if let Some(fault) = range_fault(pages, header.entry, &ranges) {
        return Err(ElfError::Fault(fault));
    }
    let segments = read_segments(alloc, file, &headers)?;
    Ok(Image {
        entry: header.entry,
        segments,
    })
}
