//! Files with faults.
use super::single::SINGLE;
use super::{
    ADDRESS, FILE_SIZE, MEMORY_SIZE, OFFSET, TABLE, check_beginnings, check_changed, expect, taken,
    with_words,
};
use elf32::{ElfError, Fault};
use std::alloc::{AllocError, Global};
use std::fmt::Debug;
use std::process::Abort;

/// What is written into three copies of one program header.
static THREE: [(usize, u32); 10] = [
    (44, 3),
    (OFFSET, 148),
    (OFFSET + 32, 164),
    (ADDRESS + 32, 0x8000_1000),
    (FILE_SIZE + 32, 4),
    (MEMORY_SIZE + 32, 4),
    (OFFSET + 64, 0xffff_ffff),
    (ADDRESS + 64, 0x8000_2000),
    (FILE_SIZE + 64, 0),
    (MEMORY_SIZE + 64, 4096),
];

/// The file of three segments: 16 bytes at 80000000, 4 bytes at 80001000, and a page at 80002000 with none in the file.
/// Its program headers are the first one's with these words changed.
fn three(alloc: Global) -> Result<Vec<u8>, AllocError> {
    let mut file = SINGLE[..84].to_vec(alloc)?;
    file.extend_from_slice(&SINGLE[TABLE..84])?;
    file.extend_from_slice(&SINGLE[TABLE..84])?;
    file.extend_from_slice(&SINGLE[84..])?;
    file.extend_from_slice(&SINGLE[84..88])?;
    with_words(alloc, &file, &THREE)
}

/// A fault and what to write into that file for it; 0 where the file is still read.
type Row = (u32, &'static [(usize, u32)]);

/// Checks a file with each row's words written into it, in a memory of three pages. The case has the row's place.
fn check_rows<R: AllocGlobal + Abort, C: Debug + Copy + Drop>(
    rt: &R,
    case: C,
    file: &[u8],
    rows: &[Row],
) {
    for (place, (want, words)) in rows.iter().enumerate() {
        check_changed(rt, file, *words, 3, *want, (case, place));
    }
}

/// What to write into that file for each fault but the first, in the order in which faults are looked for. No two of them
/// stand in one another's way where the later is written first.
static FAULTS: [Row; 8] = [
    (2, &[(4, 0x0001_0102)]),
    (3, &[(16, 0x0009_0002)]),
    (4, &[(40, 0x0021_0034)]),
    (6, &[(FILE_SIZE, 17)]),
    (
        5,
        &[
            (FILE_SIZE, 0),
            (MEMORY_SIZE, 0),
            (FILE_SIZE + 32, 0),
            (MEMORY_SIZE + 32, 0),
            (MEMORY_SIZE + 64, 0),
        ],
    ),
    (7, &[(ADDRESS + 64, 0x7fff_f000)]),
    (8, &[(ADDRESS + 32, 0x8000_0008)]),
    (9, &[(24, 0x8000_0002)]),
];

/// Checks a file with the words of a later row and those of each earlier one. The case has the places of both.
fn check_later<R: AllocGlobal + Abort>(
    rt: &R,
    file: &[u8],
    later: usize,
    words: &[(usize, u32)],
    rows: &[Row],
) {
    let wrong = taken(rt, later, with_words(rt.alloc(), file, words));
    let earlier = taken(rt, later, rows.get(..later).ok_or("no such rows"));
    check_rows(rt, later, &wrong, earlier);
}

fn check_pairs<R: AllocGlobal + Abort>(rt: &R, file: &[u8], rows: &[Row]) {
    for (later, (_, words)) in rows.iter().enumerate() {
        check_later(rt, file, later, *words, rows);
    }
}

#[test]
fn the_first_of_two_faults_answers(rt: HostRuntime) {
    let file = taken(&rt, "file", three(rt.alloc()));
    check_pairs(&rt, &file, &FAULTS);
}

#[test]
fn each_fault_in_three_segments(rt: HostRuntime) {
    let file = taken(&rt, "file", three(rt.alloc()));
    check_changed(&rt, &file, &[], 3, 0, "unchanged");
    check_rows(&rt, "fault", &file, &FAULTS);
}

fn check_all_short<R: AllocGlobal + Abort>(rt: &R, file: &[u8], rows: &[Row]) {
    for (place, (_, words)) in rows.iter().enumerate() {
        check_changed(rt, file, *words, 3, 1, place);
    }
}

/// 51 bytes are too few for a header, whichever fault is in them.
#[test]
fn each_fault_in_51_bytes(rt: HostRuntime) {
    let file = taken(&rt, "file", three(rt.alloc()));
    let beginning = taken(&rt, "beginning", file.get(..51).ok_or("no such beginning"));
    check_all_short(&rt, beginning, &FAULTS);
}

static BEGINNINGS: [(usize, usize, u32); 4] = [
    (0, 51, 1),
    (52, 147, 4),
    (148, 167, 6),
    (168, 168, 0),
];

#[test]
fn each_beginning(rt: HostRuntime) {
    let file = taken(&rt, "file", three(rt.alloc()));
    expect(&rt, "length", file.len(), 168);
    check_beginnings(&rt, &file, 3, &BEGINNINGS);
}

/// The fault, and what to write into the file of three segments for it.
static ORDERED: [Row; 5] = [
    // the first segment is outside, the last has more bytes in the file than in memory
    (6, &[(ADDRESS, 0x7fff_0000), (FILE_SIZE + 64, 4097)]),
    // the first two overlap, the last is outside
    (
        7,
        &[(ADDRESS + 32, 0x8000_0000), (ADDRESS + 64, 0x9000_0000)],
    ),
    // the last two overlap, and the entry is in none
    (8, &[(ADDRESS + 64, 0x8000_0ffd), (24, 0x8000_4000)]),
    // the first and the last
    (8, &[(ADDRESS + 64, 0x8000_0000)]),
    // a header of no loaded segment comes first
    (
        0,
        &[(TABLE, 4), (24, 0x8000_1000), (ADDRESS + 32, 0x8000_0ffe)],
    ),
];

#[test]
fn each_test_covers_all_headers_before_the_next(rt: HostRuntime) {
    let file = taken(&rt, "file", three(rt.alloc()));
    check_rows(&rt, "order", &file, &ORDERED);
}

/// What stands in the file of one segment, the pages and the fault.
type Case = (&'static [(usize, u32)], u32, u32);

static HEADERS: [Case; 11] = [
    // the identification
    (&[(0, 0x464c_457e)], 1, 2),
    (&[(0, 0x474c_457f)], 1, 2),
    (&[(4, 0x0001_0201)], 1, 2),
    (&[(4, 0x0002_0101)], 1, 2),
    (
        &[(4, 0xff01_0101), (8, 0xffff_ffff), (12, 0xffff_ffff)],
        1,
        0,
    ),
    // the kind, the machine, the version and the size of the header
    (&[(16, 0x0008_0003)], 1, 3),
    (&[(16, 0x0108_0002)], 1, 3),
    (&[(20, 2)], 1, 3),
    (&[(20, 0x0100_0001)], 1, 3),
    (&[(40, 0x0020_0035)], 1, 3),
    // sections and flags are not read
    (
        &[(32, 0xffff_ffff), (36, 0xffff_ffff), (48, 0xffff_ffff)],
        1,
        0,
    ),
];

static TABLES: [Case; 14] = [
    // the table
    (&[(40, 0x0028_0034)], 1, 4),
    (&[(44, 65)], 1, 4),
    (&[(44, 64)], 1, 4),
    (&[(44, 0x0100)], 1, 4),
    (&[(44, 0x0101)], 1, 4),
    (&[(28, 69)], 1, 4),
    (&[(28, 0xffff_ffff)], 1, 4),
    (&[(28, 0xffff_ffe0)], 1, 4),
    (&[(44, 0)], 1, 5),
    (&[(44, 0), (28, 0xffff_ffff)], 1, 5),
    // nothing to load
    (&[(TABLE, 0)], 1, 5),
    (&[(FILE_SIZE, 0), (MEMORY_SIZE, 0)], 1, 5),
    (
        &[
            (FILE_SIZE, 0),
            (MEMORY_SIZE, 0),
            (OFFSET, 0xffff_ffff),
            (ADDRESS, 3),
        ],
        1,
        5,
    ),
    (&[(TABLE, 2), (FILE_SIZE, 0xffff_ffff)], 1, 5),
];

static CONTENTS: [Case; 8] = [
    // the bytes
    (&[(FILE_SIZE, 2), (MEMORY_SIZE, 1)], 1, 6),
    (&[(FILE_SIZE, 1), (MEMORY_SIZE, 0)], 1, 6),
    (&[(FILE_SIZE, 17), (MEMORY_SIZE, 32)], 1, 6),
    (&[(FILE_SIZE, 1), (OFFSET, 0xffff_ffff)], 1, 6),
    (&[(FILE_SIZE, 1), (OFFSET, 100)], 1, 6),
    (&[(FILE_SIZE, 1), (OFFSET, 99)], 1, 0),
    (&[(FILE_SIZE, 0), (OFFSET, 0xffff_ffff)], 1, 0),
    (&[(FILE_SIZE, 16), (OFFSET, 0xffff_fff0)], 1, 6),
];

static PLACES: [Case; 11] = [
    // the place
    (&[(MEMORY_SIZE, 0xffff_ffff)], 1, 7),
    (&[(MEMORY_SIZE, 0xffff_ffff)], 131_072, 7),
    (&[(MEMORY_SIZE, 4096)], 1, 0),
    (&[(MEMORY_SIZE, 4097)], 1, 7),
    (
        &[
            (ADDRESS, 0x8000_f000),
            (MEMORY_SIZE, 0x1000),
            (24, 0x8000_fffc),
        ],
        16,
        0,
    ),
    (
        &[
            (ADDRESS, 0x8000_f000),
            (MEMORY_SIZE, 0x1001),
            (24, 0x8000_fffc),
        ],
        16,
        7,
    ),
    (&[(ADDRESS, 0xffff_fff0)], 1, 7),
    (&[(ADDRESS, 0x7fff_ffff)], 1, 7),
    // the entry
    (&[(24, 0x8000_0001)], 1, 9),
    (&[(24, 0x8000_0010)], 1, 9),
    (&[(24, 0x8000_0ffc), (MEMORY_SIZE, 4096)], 1, 0),
];

fn check_cases<R: AllocGlobal + Abort>(rt: &R, table: &'static str, cases: &[Case]) {
    for (place, (words, pages, want)) in cases.iter().enumerate() {
        check_changed(rt, &SINGLE, *words, *pages, *want, (table, place));
    }
}

#[test]
fn each_fault_alone(rt: HostRuntime) {
    check_cases(&rt, "headers", &HEADERS);
    check_cases(&rt, "tables", &TABLES);
    check_cases(&rt, "contents", &CONTENTS);
    check_cases(&rt, "places", &PLACES);
}

/// The faults, each with its number and its text.
static TEXTS: [(Fault, u32, &'static str); 9] = [
    (Fault::Short, 1, "the file is shorter than an ELF header"),
    (
        Fault::Identification,
        2,
        "the file is no little-endian ELF32 file",
    ),
    (Fault::Header, 3, "the file is no executable for MIPS"),
    (
        Fault::Table,
        4,
        "the program header table is wrong or passes the end of the file",
    ),
    (Fault::Empty, 5, "no segment is loaded"),
    (
        Fault::Contents,
        6,
        "a segment has more bytes than memory, or bytes past the end of the file",
    ),
    (Fault::Place, 7, "a segment lies outside the memory"),
    (Fault::Overlap, 8, "two segments overlap"),
    (
        Fault::Entry,
        9,
        "the entry is no multiple of 4 in a segment",
    ),
];

/// What is printed for an error.
fn printed(alloc: Global, error: ElfError) -> Result<String, AllocError> {
    format!(in alloc; "{error}")
}

fn check_text<R: AllocGlobal + Abort>(rt: &R, error: ElfError, text: &str) {
    let said = taken(rt, text, printed(rt.alloc(), error));
    expect(rt, error, said.as_str(), text);
}

#[test]
fn faults_have_a_number_and_a_text(rt: HostRuntime) {
    for (fault, number, text) in &TEXTS {
        expect(&rt, *fault, fault.number(), *number);
        check_text(&rt, ElfError::Fault(*fault), text);
    }
    check_text(&rt, ElfError::Memory, "out of memory");
}
