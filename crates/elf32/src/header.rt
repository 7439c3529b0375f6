//! The headers of an ELF32 file.
ghost use Rattle.std.specs.Prelude.{◌≡◌, ◌+◌, ◌*◌, ◌≤◌, ◌<◌, ◌^◌, length};
ghost use Rattle.elf32.specs.Headers.{file_header, program_header, is_loaded, range_of};
ghost use Rattle.elf32.specs.Faults.{has_wrong_header, has_wrong_table, has_wrong_contents};

use crate::range::AddressRange;
use word32::{half_at, word_at};

/// How many bytes the ELF header has.
pub(crate) const FILE_HEADER_SIZE: u16 = 52;

/// How many bytes a program header has.
pub(crate) const PROGRAM_HEADER_SIZE: u16 = 32;

/// At most so many program headers are read.
pub(crate) const MAX_PROGRAM_HEADERS: u16 = 64;

/// `e_type` of an executable file.
pub(crate) const EXECUTABLE: u16 = 2;

/// `e_machine` of MIPS.
pub(crate) const MIPS: u16 = 8;

/// `e_version` of the current version.
pub(crate) const CURRENT_VERSION: u32 = 1;

/// `p_type` of a segment to load.
pub(crate) const LOAD: u32 = 1;

/// The fields of the ELF header that are read (System V ABI, Object Files: ELF Header).
#[derive(Clone, Copy, Debug, PartialEq, Eq)]
pub struct FileHeader {
    /// `e_type`: what kind of object file it is.
    pub kind: u16,
    /// `e_machine`: for which processor.
    pub machine: u16,
    /// `e_version`.
    pub version: u32,
    /// `e_entry`: the virtual address of the first instruction.
    pub entry: u32,
    /// `e_phoff`: where in the file the program header table begins.
    pub table: u32,
    /// `e_ehsize`: how many bytes the ELF header has.
    pub header_size: u16,
    /// `e_phentsize`: how many bytes a program header has.
    pub entry_size: u16,
    /// `e_phnum`: how many program headers there are.
    pub entries: u16,
}

/// The fields of a program header that are read (System V ABI, Object Files: Program Header).
#[derive(Clone, Copy, Debug, PartialEq, Eq)]
pub struct ProgramHeader {
    /// `p_type`: what kind of segment it is.
    pub kind: u32,
    /// `p_offset`: where in the file the segment's bytes begin.
    pub offset: u32,
    /// `p_vaddr`: the virtual address of its first byte.
    pub address: u32,
    /// `p_filesz`: how many bytes the file has of it.
    pub file_size: u32,
    /// `p_memsz`: how many bytes of memory it takes.
    pub memory_size: u32,
}

impl FileHeader {
    /// The header of a file of 52 bytes or more.
    #[tactic(auto, unfolding(crate::specs::Headers::file_header))]
    pub(crate) fn of(file: &[u8]) -> FileHeader
        requires { 52 ≤ length file.now }
        ensures { result ≡ file_header file.now }
    {
        FileHeader {
            kind: half_at(file, 16),
            machine: half_at(file, 18),
            version: word_at(file, 20),
            entry: word_at(file, 24),
            table: word_at(file, 28),
            header_size: half_at(file, 40),
            entry_size: half_at(file, 42),
            entries: half_at(file, 44),
        }
    }

    /// Whether it isn't that of an executable for MIPS of version 1, with a header of 52 bytes.
    pub(crate) fn is_wrong(&self) -> bool
        ensures { result ≡ has_wrong_header self.now }
    {
        self.kind != EXECUTABLE
            || self.machine != MIPS
            || self.version != CURRENT_VERSION
            || self.header_size != FILE_HEADER_SIZE
    }

    /// Whether the program headers aren't 32 bytes each, at most 64, and within a file of this length.
    pub(crate) fn has_wrong_table(&self, length: usize) -> bool
        ensures { result ≡ has_wrong_table length self.now }
    {
        self.entry_size != PROGRAM_HEADER_SIZE
            || self.entries > MAX_PROGRAM_HEADERS
            || (self.entries != 0 && length < self.place(self.entries))
    }

    /// Where in the file program header `k` begins.
    pub(crate) fn place(&self, k: u16) -> usize
        requires { k < 2 ^ 16 }
        ensures { result ≡ self.now.table + 32 * k }
    {
        self.table as usize + 32 * usize::from(k)
    }
}

impl ProgramHeader {
    /// The program header at a place of a file that has 32 bytes there.
    #[tactic(auto, unfolding(crate::specs::Headers::program_header))]
    pub(crate) fn at(file: &[u8], place: usize) -> ProgramHeader
        requires { place + 32 ≤ length file.now }
        ensures { result ≡ program_header file.now place }
    {
        ProgramHeader {
            kind: word_at(file, place),
            offset: word_at(file, place + 4),
            address: word_at(file, place + 8),
            file_size: word_at(file, place + 16),
            memory_size: word_at(file, place + 20),
        }
    }

    /// Whether its segment takes memory.
    pub(crate) fn is_loaded(&self) -> bool
        ensures { result ≡ is_loaded self.now }
    {
        self.kind == LOAD && self.memory_size != 0
    }

    /// Whether its segment is one to load that has more bytes in the file than in memory, or bytes past the end of a file
    /// of this length. A segment without bytes in the file has none past its end, wherever its offset points.
    pub(crate) fn has_wrong_contents(&self, length: usize) -> bool
        ensures { result ≡ has_wrong_contents length self.now }
    {
        self.kind == LOAD
            && (self.memory_size < self.file_size
                || (self.file_size != 0 && length < self.offset as usize + self.file_size as usize))
    }

    /// The addresses of its segment.
    pub(crate) fn range(&self) -> AddressRange
        ensures { result ≡ range_of self.now }
    {
        AddressRange {
            address: self.address,
            size: self.memory_size,
        }
    }
}
