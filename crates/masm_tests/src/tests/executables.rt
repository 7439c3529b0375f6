//! Executables: the file of a text, which is read back.
use super::{Verdict, expect, fault_of, taken};
use elf32::{Image, Segment, read};
use masm::assemble;
use std::alloc::{AllocError, Global};
use std::process::Abort;

/// A machine of so many pages has all addresses at which content may stand.
const PAGES: u32 = 131_072;

/// A segment's address and its bytes, which are all of its memory.
type Part = (u32, &'static [u8]);

/// A source, the length of its file, the entry and the segments.
type Row = (&'static str, usize, u32, &'static [Part]);

const LOOP: &str = "addiu $1,$0,5\nloop: addu $2,$2,$1\nbne $1,$0,loop\naddiu $1,$1,-1\n";

const THREE: &str =
    ".org 0x80000200\n.byte -1\n.byte 7\n.org 0x80000000\nmain: lui $1,0x8000\n.space 3\n.byte 0x41\n.org 0x80000100\n.word main\nhere: eret\n.entry here\n";

/// A segment has this address and these bytes, which are all of its memory.
fn is_part(rt: &impl Abort, case: &str, segment: &Segment, address: u32, bytes: &[u8]) {
    let found = (
        segment.address,
        segment.bytes.as_slice(),
        segment.size as usize,
    );
    expect(rt, case, found, (address, bytes, bytes.len()));
}

/// An image has this entry and these segments.
fn is_image(rt: &impl Abort, source: &str, image: &Image, entry: u32, parts: &[Part]) {
    let count = image.segments.len();
    expect(rt, source, (image.entry, count), (entry, parts.len()));
    for (segment, (address, bytes)) in image.segments.iter().zip(parts.iter()) {
        is_part(rt, source, segment, *address, bytes);
    }
}

/// A source is assembled to a file of this length, which is read as an image with this entry and these segments.
fn assembles_to(rt: &(impl Abort + AllocGlobal), (source, length, entry, parts): &Row) {
    let file = taken(rt, *source, assemble(rt.alloc(), source));
    expect(rt, *source, file.len(), *length);
    let image = taken(rt, *source, read(rt.alloc(), &file, PAGES));
    is_image(rt, source, &image, *entry, parts);
}

/// A header has 52 bytes, each program header 32.
static ROWS: [Row; 3] = [
    (
        "eret",
        88,
        0x8000_0000,
        &[(0x8000_0000, &[0x18, 0x00, 0x00, 0x42])],
    ),
    (
        LOOP,
        100,
        0x8000_0000,
        &[(
            0x8000_0000,
            &[
                0x05, 0x00, 0x01, 0x24, 0x21, 0x10, 0x41, 0x00, 0xfe, 0xff, 0x20, 0x14, 0xff, 0xff,
                0x21, 0x24,
            ],
        )],
    ),
    (
        THREE,
        166,
        0x8000_0104,
        &[
            (0x8000_0200, &[0xff, 0x07]),
            (
                0x8000_0000,
                &[0x00, 0x80, 0x01, 0x3c, 0x00, 0x00, 0x00, 0x41],
            ),
            (
                0x8000_0100,
                &[0x00, 0x00, 0x00, 0x80, 0x18, 0x00, 0x00, 0x42],
            ),
        ],
    ),
];

#[test]
fn read_back(rt: HostRuntime) {
    for row in &ROWS {
        assembles_to(&rt, row);
    }
}

/// Sixty-four segments of one byte each, their numbers, from the last address down. The last but one is the entry.
fn source_of_64(alloc: Global) -> Result<String, AllocError> {
    let mut source = String::new(alloc);
    for number in 0u32..64 {
        add_segment(&mut source, number, 0x8000_0400 - 16 * number)?;
    }
    source.push_str(".entry x62\n")?;
    Ok(source)
}

fn add_segment(source: &mut String, number: u32, address: u32) -> Result<(), AllocError> {
    writeln!(source, ".org {address}\nx{number}: .byte {number}")
}

/// The segment at a place has the place's number as its byte.
fn is_numbered(rt: &impl Abort, segments: &[Segment], number: u8) {
    let segment = segments.get(usize::from(number));
    let found = taken(rt, number, segment.ok_or("no such segment"));
    let address = 0x8000_0400 - 16 * u32::from(number);
    is_part(rt, "64 segments", found, address, &[number]);
}

fn is_of_64(rt: &impl Abort, image: &Image) {
    let count = image.segments.len();
    expect(rt, "the entry", (image.entry, count), (0x8000_0020, 64));
    for number in 0u8..64 {
        is_numbered(rt, &image.segments, number);
    }
}

#[test]
fn of_64_segments(rt: HostRuntime) {
    let source = taken(&rt, "the source", source_of_64(rt.alloc()));
    let file = taken(&rt, "its file", assemble(rt.alloc(), &source));
    expect(&rt, "its length", file.len(), 2_164);
    let image = taken(&rt, "its image", read(rt.alloc(), &file, 1));
    is_of_64(&rt, &image);
}

/// The byte 5 at 80000100, and behind it `eret` at 80000000, where it is entered: the ELF header, the two program headers
/// and the bytes (System V ABI, Object Files: ELF Header, Program Header).
const TWO: &str = ".org 0x80000100\n.byte 5\n.org 0x80000000\na: eret\n.entry a\n";

static TWO_FILE: [u8; 121] = [
    // e_ident
    0x7f, 0x45, 0x4c, 0x46, 0x01, 0x01, 0x01, 0x00, 0x00, 0x00, 0x00, 0x00, 0x00, 0x00, 0x00, 0x00,
    // e_type, e_machine, e_version, e_entry, e_phoff
    0x02, 0x00, 0x08, 0x00, 0x01, 0x00, 0x00, 0x00, 0x00, 0x00, 0x00, 0x80, 0x34, 0x00, 0x00, 0x00,
    // e_shoff, e_flags, e_ehsize, e_phentsize, e_phnum, e_shentsize
    0x00, 0x00, 0x00, 0x00, 0x00, 0x00, 0x00, 0x00, 0x34, 0x00, 0x20, 0x00, 0x02, 0x00, 0x00, 0x00,
    // e_shnum, e_shstrndx
    0x00, 0x00, 0x00, 0x00,
    // p_type, p_offset, p_vaddr, p_paddr, p_filesz, p_memsz, p_flags, p_align
    0x01, 0x00, 0x00, 0x00, 0x74, 0x00, 0x00, 0x00, 0x00, 0x01, 0x00, 0x80, 0x00, 0x00, 0x00, 0x00,
    0x01, 0x00, 0x00, 0x00, 0x01, 0x00, 0x00, 0x00, 0x00, 0x00, 0x00, 0x00, 0x00, 0x00, 0x00, 0x00,
    // the second segment's
    0x01, 0x00, 0x00, 0x00, 0x75, 0x00, 0x00, 0x00, 0x00, 0x00, 0x00, 0x80, 0x00, 0x00, 0x00, 0x00,
    0x04, 0x00, 0x00, 0x00, 0x04, 0x00, 0x00, 0x00, 0x00, 0x00, 0x00, 0x00, 0x00, 0x00, 0x00, 0x00,
    // the bytes
    0x05, 0x18, 0x00, 0x00, 0x42,
];

#[test]
fn byte_for_byte(rt: HostRuntime) {
    let file = taken(&rt, TWO, assemble(rt.alloc(), TWO));
    expect(&rt, TWO, file.as_slice(), TWO_FILE.as_slice());
}

static FAULTS: [Verdict; 3] = [("eret\nfoo\n", 2, 2), ("j x", 5, 1), ("", 8, 0)];

#[test]
fn faults(rt: HostRuntime) {
    for (source, kind, at) in &FAULTS {
        let found = fault_of(assemble(rt.alloc(), source));
        expect(&rt, *source, found, (*kind, *at));
    }
}
