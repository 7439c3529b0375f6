//! Writing an image as a file.
ghost use Rattle.std.specs.Prelude.{◌≡◌, ◌+◌, ◌*◌, ◌%◌, ◌^◌, ◌++◌, length, replicate, IfOk, OnOk};
ghost use Rattle.elf32.specs.Faults.{identification};
ghost use Rattle.elf32.specs.Files.{header_bytes, program_header_bytes, table_bytes, contents, file_of};

use crate::header::{
    CURRENT_VERSION, EXECUTABLE, FILE_HEADER_SIZE, LOAD, MIPS, PROGRAM_HEADER_SIZE,
};
use crate::reader::IDENTIFICATION;
use crate::{Image, Segment};
use std::alloc::{AllocError, Global};
use word32::{put_half, put_word};

/// The lowest 16 bits of a number.
fn low_half(number: usize) -> u16
    ensures { result ≡ number % 2 ^ 16 }
{
    (number % 0x1_0000) as u16
}

/// The lowest 32 bits of a number.
fn low_word(number: usize) -> u32
    ensures { result ≡ number % 2 ^ 32 }
{
    (number % 0x1_0000_0000) as u32
}

/// An ELF header with the identification alone.
fn identified() -> [u8; 52]
    ensures { result ≡ identification ++ replicate 45 0 }
{
    let mut bytes = [0; 52];
    bytes[..7].copy_from_slice(&IDENTIFICATION);
    bytes
}

/// The ELF header of a file with this entry and so many program headers right behind it.
fn header_bytes(entry: u32, entries: u16) -> [u8; 52]
    ensures { result ≡ header_bytes entry entries }
{
    let mut bytes = identified();
    put_half(&mut bytes, 16, EXECUTABLE);
    put_half(&mut bytes, 18, MIPS);
    put_word(&mut bytes, 20, CURRENT_VERSION);
    put_word(&mut bytes, 24, entry);
    put_word(&mut bytes, 28, u32::from(FILE_HEADER_SIZE));
    put_half(&mut bytes, 40, FILE_HEADER_SIZE);
    put_half(&mut bytes, 42, PROGRAM_HEADER_SIZE);
    put_half(&mut bytes, 44, entries);
    bytes
}

/// The program header of a segment whose bytes begin at an offset.
fn program_header_bytes(offset: u32, segment: &Segment) -> [u8; 32]
    ensures { result ≡ program_header_bytes offset segment.now }
{
    let mut bytes = [0; 32];
    put_word(&mut bytes, 0, LOAD);
    put_word(&mut bytes, 4, offset);
    put_word(&mut bytes, 8, segment.address);
    put_word(&mut bytes, 16, low_word(segment.bytes.len()));
    put_word(&mut bytes, 20, segment.size);
    bytes
}

/// Writes the program headers of segments, for bytes that stand one after the other behind the table.
fn write_table(file: &mut Vec<u8>, segments: &[Segment]) -> Result<(), AllocError>
    ensures { OnOk result (file.new.items ≡ file.old.items ++ table_bytes (52 + 32 * length segments.now) segments.now) }
{
    let table = low_word(segments.len()).wrapping_mul(u32::from(PROGRAM_HEADER_SIZE));
    let mut offset = table.wrapping_add(u32::from(FILE_HEADER_SIZE));
    for segment in segments {
        file.extend_from_slice(&program_header_bytes(offset, segment))?;
        offset = offset.wrapping_add(low_word(segment.bytes.len()));
    }
    Ok(())
}

/// Writes the bytes of segments, one after the other.
fn write_contents(file: &mut Vec<u8>, segments: &[Segment]) -> Result<(), AllocError>
    ensures { OnOk result (file.new.items ≡ file.old.items ++ contents segments.now) }
{
    for segment in segments {
        file.extend_from_slice(&segment.bytes)?;
    }
    Ok(())
}

/// The file of an image: the ELF header, the program headers and the segments' bytes, one after the other, and each field
/// that isn't read 0 (System V ABI, Object Files: ELF Header, Program Header). It reads back as the image where at most 64
/// segments, none of them empty, have no more bytes than memory, lie in the memory and don't overlap, and the entry is a
/// multiple of 4 in one of them (`IsLoadable`). Of a number that a field can't hold the lowest bits are written.
///
/// An error says that a request for memory was refused.
pub fn write(alloc: Global, image: &Image) -> Result<Vec<u8>, AllocError>
    ensures { IfOk result (λ file. file.items ≡ file_of image.now) }
{
    let entries = low_half(image.segments.len());
    let mut file = Vec::new(alloc);
    file.extend_from_slice(&header_bytes(image.entry, entries))?;
    write_table(&mut file, &image.segments)?;
    write_contents(&mut file, &image.segments)?;
    Ok(file)
}
