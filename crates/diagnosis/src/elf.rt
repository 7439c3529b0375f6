//! Executables.
ghost use Rattle.std.specs.Prelude.{◌≡◌, ◌≤◌, IfOk, IfSome, Some, length};
ghost use Rattle.elf32.specs.Faults.{first_fault};
ghost use Rattle.diagnosis.specs.Memories.{pages_of};

use crate::headers::{
    Doubt, HEADER_SIZE, MIPS, file_header, first_doubt, is_dynamic, loaded_ranges, processor,
    program_headers,
};
use crate::memory::Memory;
use crate::segments;
use crate::words::{Words, plural};
use elf32::header::{FileHeader, ProgramHeader};
use elf32::{ElfError, Fault};
use std::alloc::{AllocError, Global};

/// Why an executable is refused.
#[derive(Debug, Drop)]
pub struct Refusal {
    /// Its first fault.
    pub fault: Fault,
    /// Words for that.
    pub words: Words,
}

/// Why a file is refused as an executable for a memory, with words for what its bytes say of that; none where it is not
/// refused.
pub fn explain(alloc: Global, file: &[u8], memory: Memory) -> Result<Option<Refusal>, AllocError>
    ensures first { IfOk result (λ found. IfSome found (λ refusal. first_fault file.now (pages_of memory) ≡ Some refusal.fault)) }
{
    match elf32::read(alloc, file, memory.pages()) {
        Ok(_) => Ok(None),
        Err(ElfError::Memory) => Err(AllocError),
        Err(ElfError::Fault(fault)) => {
            let words = words_of(alloc, file, memory, fault)?;
            Ok(Some(Refusal { fault, words }))
        }
    }
}

/// Words for the executable of a guest, which has this number and file.
pub fn of_guest(
    alloc: Global,
    number: usize,
    file: &str,
    words: &Words,
) -> Result<Words, AllocError> {
    let text = format!(in alloc; "guest {number} ({file}): {words}")?;
    Words::of(alloc, &text)
}

/// Words for the first fault of a file.
fn words_of(alloc: Global, file: &[u8], memory: Memory, fault: Fault) -> Result<Words, AllocError> {
    let text = if file.len() < HEADER_SIZE {
        short_text(alloc, file.len(), memory)?
    } else {
        let header = file_header(file);
        match fault {
            Fault::Short | Fault::Identification => identification_text(alloc, file, memory)?,
            Fault::Header => header_text(alloc, &header)?,
            Fault::Table => table_text(alloc, file.len(), &header)?,
            _ => segments_text(alloc, file, memory, &header, fault)?,
        }
    };
    Words::of(alloc, &text)
}

fn short_text(alloc: Global, length: usize, memory: Memory) -> Result<String, AllocError> {
    if length == 0 {
        return String::from_str(alloc, "the file is empty");
    }
    let s = plural(length as u64);
    let other = memory.other_files();
    format!(in alloc;
        "the file has {length} byte{s}, fewer than the {HEADER_SIZE} of an ELF header{other}"
    )
}

/// What the first seven bytes of a file say, where they are not those of a little-endian ELF32 file.
fn identification_text(alloc: Global, file: &[u8], memory: Memory) -> Result<String, AllocError>
    requires { 52 ≤ length file.now }
{
    let other = memory.other_files();
    match &file[..7] {
        [0x7f, b'E', b'L', b'F', 2, _, _] => wide_text(alloc, file),
        [0x7f, b'E', b'L', b'F', 1, 2, _] => big_endian_text(alloc, file),
        [0x7f, b'E', b'L', b'F', class, order, version] => {
            format!(in alloc;
                "an ELF file of class {class}, byte order {order} and version {version}, where each is 1 in a little-endian 32-bit file"
            )
        }
        [a, b, c, d, ..] => {
            format!(in alloc;
                "no ELF file, which begins with the bytes 7f 45 4c 46, and this with {a:02x} {b:02x} {c:02x} {d:02x}{other}"
            )
        }
        _ => String::from_str(alloc, "no ELF file"),
    }
}

/// A 64-bit file, which has its processor where a 32-bit one has it.
fn wide_text(alloc: Global, file: &[u8]) -> Result<String, AllocError>
    requires { 52 ≤ length file.now }
{
    let machine = if file[5] == 2 {
        u16::from_be_bytes([file[18], file[19]])
    } else {
        u16::from_le_bytes([file[18], file[19]])
    };
    let made = made_for(alloc, machine)?;
    format!(in alloc;
        "a 64-bit ELF file {made}: compile and link for 32-bit little-endian MIPS (-mabi=32 -EL)"
    )
}

fn big_endian_text(alloc: Global, file: &[u8]) -> Result<String, AllocError>
    requires { 52 ≤ length file.now }
{
    let machine = u16::from_be_bytes([file[18], file[19]]);
    if machine == MIPS {
        return String::from_str(alloc, "big-endian: compile with -EL, and link with -EL");
    }
    let made = made_for(alloc, machine)?;
    format!(in alloc; "a big-endian ELF file {made}: compile and link for little-endian MIPS (-EL)")
}

/// For which processor a file is made.
fn made_for(alloc: Global, machine: u16) -> Result<String, AllocError> {
    match processor(machine) {
        Some(name) => format!(in alloc; "for {name} (machine {machine})"),
        None if machine == MIPS => String::from_str(alloc, "for MIPS"),
        None => format!(in alloc; "for machine {machine}"),
    }
}

/// Why a header is that of no executable for MIPS.
fn header_text(alloc: Global, header: &FileHeader) -> Result<String, AllocError> {
    match first_doubt(header) {
        Doubt::Machine => {
            let made = made_for(alloc, header.machine)?;
            format!(in alloc;
                "{made}, not for MIPS (machine {MIPS}): compile and link for little-endian MIPS"
            )
        }
        Doubt::Object => String::from_str(alloc, "an object file: link it"),
        Doubt::Shared => String::from_str(
            alloc,
            "a position-independent executable or shared library: link with -static -no-pie",
        ),
        Doubt::Core => String::from_str(alloc, "a core file, not an executable"),
        Doubt::Kind => {
            let kind = header.kind;
            format!(in alloc; "a file of type {kind}, not an executable (type 2): link it as one")
        }
        Doubt::Version => {
            let version = header.version;
            format!(in alloc;
                "the header says version {version} of the format, and there is version 1 alone"
            )
        }
        Doubt::Size => {
            let size = header.header_size;
            format!(in alloc;
                "the header says that it has {size} bytes, and an ELF32 header has {HEADER_SIZE}"
            )
        }
    }
}

/// What is wrong with the program header table of a file of this length.
fn table_text(alloc: Global, length: usize, header: &FileHeader) -> Result<String, AllocError> {
    let FileHeader {
        entry_size,
        entries,
        table,
        ..
    } = *header;
    if entry_size != 32 {
        return format!(in alloc;
            "the header says that a program header has {entry_size} bytes, and in ELF32 it has 32"
        );
    }
    if entries > 64 {
        return format!(in alloc;
            "the file has {entries} program headers, and at most 64 are read: link with fewer segments"
        );
    }
    let end = u64::from(table) + 32 * u64::from(entries);
    format!(in alloc;
        "the program headers are bytes {table} to {end} of the file, which has {length}: it is cut off"
    )
}

/// What is wrong with the segments or the entry.
fn segments_text(
    alloc: Global,
    file: &[u8],
    memory: Memory,
    header: &FileHeader,
    fault: Fault,
) -> Result<String, AllocError> {
    let headers = program_headers(alloc, file, header)?;
    let ranges = loaded_ranges(alloc, &headers)?;
    let text = match fault {
        Fault::Contents => segments::contents_text(alloc, file.len(), &headers)?,
        Fault::Place => segments::place_text(alloc, memory, &ranges)?,
        Fault::Overlap => segments::overlap_text(alloc, &ranges)?,
        Fault::Entry => segments::entry_text(alloc, header.entry, &ranges)?,
        _ => empty_text(alloc, &headers)?,
    };
    if is_dynamic(&headers) {
        return format!(in alloc; "{text}; the file is dynamic: link with -static");
    }
    Ok(text)
}

fn empty_text(alloc: Global, headers: &[ProgramHeader]) -> Result<String, AllocError> {
    let count = headers.len();
    let s = plural(count as u64);
    format!(in alloc;
        "the file has {count} program header{s}, and none that loads a segment with bytes: link it as an executable"
    )
}
