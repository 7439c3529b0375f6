//! The headers of a file that is refused.
ghost use Rattle.std.specs.Prelude.{◌≡◌, ◌≤◌, ◌+◌, ◌↔◌, IfOk, IfSome, IsTrue, length, map};
ghost use Rattle.std.specs.List.{filter};
ghost use Rattle.elf32.specs.Headers as elf;
ghost use Rattle.diagnosis.specs.Headers.{doubt_of, kind_doubt};

use elf32::header::{FileHeader, ProgramHeader};
use elf32::range::AddressRange;
use std::alloc::{AllocError, Global};
use word32::{half_at, word_at};

/// How many bytes the ELF header has.
pub const HEADER_SIZE: usize = 52;

/// `e_machine` of MIPS.
pub const MIPS: u16 = 8;

/// `p_type` of a segment to load, of what a dynamic linker reads, and of that linker's name.
const LOAD: u32 = 1;

const DYNAMIC: u32 = 2;

const INTERPRETER: u32 = 3;

/// Processors, by `e_machine` (System V ABI, Object Files: ELF Header).
static PROCESSORS: [(u16, &str); 7] = [
    (3, "x86"),
    (20, "PowerPC"),
    (21, "64-bit PowerPC"),
    (40, "ARM"),
    (62, "x86-64"),
    (183, "AArch64"),
    (243, "RISC-V"),
];

/// The name of a processor.
pub fn processor(machine: u16) -> Option<&'static str> {
    PROCESSORS
        .iter()
        .find(|(number, _)| *number == machine)
        .map(|(_, name)| *name)
}

/// Why a header is that of no executable for MIPS.
#[derive(Clone, Copy, Debug, PartialEq, Eq)]
pub enum Doubt {
    /// It is for another processor.
    Machine,
    /// It is an object file.
    Object,
    /// It is a position-independent executable or a shared library.
    Shared,
    /// It is a core file.
    Core,
    /// It is of another type that is no executable.
    Kind,
    /// It is of another version.
    Version,
    /// It has another size than 52 bytes.
    Size,
}

/// Why a header is that of no executable for MIPS, where it is none: the first of these that holds, in their order.
pub fn first_doubt(header: &FileHeader) -> Doubt
    ensures { result ≡ doubt_of header.now }
{
    if header.machine != MIPS {
        Doubt::Machine
    } else {
        doubt_of_kind(header)
    }
}

fn doubt_of_kind(header: &FileHeader) -> Doubt
    ensures { result ≡ kind_doubt header.now }
{
    match header.kind {
        1 => Doubt::Object,
        3 => Doubt::Shared,
        4 => Doubt::Core,
        2 if header.version != 1 => Doubt::Version,
        2 => Doubt::Size,
        _ => Doubt::Kind,
    }
}

/// The header of a file of 52 bytes or more.
#[tactic(auto, unfolding(elf32::specs::Headers::file_header))]
pub fn file_header(file: &[u8]) -> FileHeader
    requires { 52 ≤ length file.now }
    ensures { result ≡ elf.file_header file.now }
{
    FileHeader {
        kind: half_at(file, 16),
        machine: half_at(file, 18),
        version: word_at(file, 20),
        entry: word_at(file, 24),
        table: word_at(file, 28),
        header_size: half_at(file, 40),
        entry_size: half_at(file, 42),
        entries: half_at(file, 44),
    }
}

/// The program header at a place of a file, where it has 32 bytes there.
#[tactic(auto, unfolding(elf32::specs::Headers::program_header))]
fn program_header(file: &[u8], place: usize) -> Option<ProgramHeader>
    ensures { IfSome result (λ header. header ≡ elf.program_header file.now place) }
{
    if file.len() < 32 || file.len() - 32 < place {
        return None;
    }
    Some(ProgramHeader {
        kind: word_at(file, place),
        offset: word_at(file, place + 4),
        address: word_at(file, place + 8),
        file_size: word_at(file, place + 16),
        memory_size: word_at(file, place + 20),
    })
}

/// The program headers of a file, as far as it has them.
pub fn program_headers(
    alloc: Global,
    file: &[u8],
    header: &FileHeader,
) -> Result<Vec<ProgramHeader>, AllocError> {
    let mut headers = Vec::new(alloc);
    for k in 0..header.entries {
        let place = header.table as usize + 32 * usize::from(k);
        if let Some(found) = program_header(file, place) {
            headers.push(found)?;
        }
    }
    Ok(headers)
}

/// Whether a segment is one to load.
pub fn is_loadable(header: &ProgramHeader) -> bool
    ensures { result ≡ elf.is_loadable header.now }
{
    header.kind == LOAD
}

/// Whether a segment takes memory.
fn is_loaded(header: &ProgramHeader) -> bool
    ensures { result ≡ elf.is_loaded header.now }
{
    is_loadable(header) && header.memory_size != 0
}

/// The addresses of a segment.
pub fn range_of(header: &ProgramHeader) -> AddressRange
    ensures { result ≡ elf.range_of header.now }
{
    AddressRange {
        address: header.address,
        size: header.memory_size,
    }
}

/// The addresses of the segments that are loaded.
pub fn loaded_ranges(
    alloc: Global,
    headers: &[ProgramHeader],
) -> Result<Vec<AddressRange>, AllocError>
    ensures { IfOk result (λ ranges. ranges.items ≡ map elf.range_of (filter elf.is_loaded headers.now)) }
{
    headers
        .iter()
        .filter(|header| is_loaded(header))
        .map(|header| range_of(header))
        .collect(alloc)
}

/// Whether the file is one for a dynamic linker.
pub fn is_dynamic(headers: &[ProgramHeader]) -> bool {
    headers.iter().any(|header| header.kind == DYNAMIC || header.kind == INTERPRETER)
}
