//! Images: segments, their order, and the entry.
use super::{Listed, expect, listings, taken};
use elf32::{Image, Segment};
use masm::assemble_image;
use std::alloc::{AllocError, Global};
use std::process::Abort;

/// A source, the entry, and of each segment the address and the number of bytes.
pub type Row = (&'static str, u32, &'static [(u32, usize)]);

/// A segment has this address and so many bytes, which are all of its memory.
fn is_segment(rt: &impl Abort, source: &str, segment: &Segment, address: u32, size: usize) {
    let found = (segment.address, segment.bytes.len(), segment.size as usize);
    expect(rt, source, found, (address, size, size));
}

/// An image has this entry and these segments.
fn is_image(rt: &impl Abort, source: &str, image: &Image, entry: u32, segments: &[(u32, usize)]) {
    let count = image.segments.len();
    expect(rt, source, (image.entry, count), (entry, segments.len()));
    for (segment, (address, size)) in image.segments.iter().zip(segments.iter()) {
        is_segment(rt, source, segment, *address, *size);
    }
}

pub fn images(rt: &(impl Abort + AllocGlobal), rows: &[Row]) {
    for (source, entry, segments) in rows {
        let image = taken(rt, *source, assemble_image(rt.alloc(), source));
        is_image(rt, source, &image, *entry, segments);
    }
}

static SEGMENTS_AND_ENTRIES: [Row; 8] = [
    // The source's order, not that of the addresses; the entry is the first segment's start.
    (
        ".org 0x80000100\neret\n.org 0x80000000\neret\neret\n",
        0x8000_0100,
        &[(0x8000_0100, 4), (0x8000_0000, 8)],
    ),
    // Empty segments are dropped, one at the start and one of `.space 0` too.
    (
        ".org 0x80000010\n.org 0x80000020\n.space 0\n.org 0x80000030\neret",
        0x8000_0030,
        &[(0x8000_0030, 4)],
    ),
    // A `.org` at the next address begins a segment all the same.
    (
        "eret\n.org 0x80000004\neret",
        0x8000_0000,
        &[(0x8000_0000, 4), (0x8000_0004, 4)],
    ),
    // The last `.entry` counts, also before the name is there.
    (
        ".entry b\na: eret\nb: eret\n.entry a",
        0x8000_0000,
        &[(0x8000_0000, 8)],
    ),
    (
        ".entry a\na: eret\nb: eret\n.entry b",
        0x8000_0004,
        &[(0x8000_0000, 8)],
    ),
    // Zeros at the end are bytes of the file.
    (".space 7", 0x8000_0000, &[(0x8000_0000, 7)]),
    // The last bytes that may be.
    (
        ".org 0x9ffffffc\na: eret\n.entry a",
        0x9fff_fffc,
        &[(0x9fff_fffc, 4)],
    ),
    // A name on a `.org` line is the place before it.
    (
        "eret\na: .org 0x80000100\neret\n.entry b\nb: eret",
        0x8000_0104,
        &[(0x8000_0000, 4), (0x8000_0100, 8)],
    ),
];

#[test]
fn segments_and_entries(rt: HostRuntime) {
    images(&rt, &SEGMENTS_AND_ENTRIES);
}

static DATA: [Listed; 8] = [
    // Whole words from the segment's first byte on, and then bytes.
    (
        ".word -1\n.byte 0x7f\n.byte -1",
        "80000000 ffffffff .word 0xffffffff\n80000004 7f .byte 0x7f\n80000005 ff .byte 0xff\n",
    ),
    (
        ".org 0x80000001\n.byte 1\n.byte 2\n.byte 3\n.byte 4\n.byte 5\n.entry a\n.org 0x80000010\na: eret",
        "80000001 04030201 bgezl $0,0x80000809\n80000005 05 .byte 0x05\n80000010 42000018 eret\n",
    ),
    (
        ".space 6",
        "80000000 00000000 sll $0,$0,0\n80000004 00 .byte 0x00\n80000005 00 .byte 0x00\n",
    ),
    // Both ends of the ranges.
    (
        ".word -2147483648\n.word 4294967295",
        "80000000 80000000 lb $0,0($0)\n80000004 ffffffff .word 0xffffffff\n",
    ),
    (
        ".byte -128\n.byte 255\n.space 1",
        "80000000 80 .byte 0x80\n80000001 ff .byte 0xff\n80000002 00 .byte 0x00\n",
    ),
    // The address of a name, before it and behind it, and that of a name on a `.org` line.
    (
        "a: .word b\nb: .word a",
        "80000000 80000004 lb $0,4($0)\n80000004 80000000 lb $0,0($0)\n",
    ),
    (
        "eret\na: .org 0x80000100\n.word a",
        "80000000 42000018 eret\n80000100 80000004 lb $0,4($0)\n",
    ),
    (
        ".org 0xffffffff\na:\n.org 0x80000000\n.word a",
        "80000000 ffffffff .word 0xffffffff\n",
    ),
];

#[test]
fn data(rt: HostRuntime) {
    listings(&rt, &DATA);
}

fn source_of_many_lines(alloc: Global) -> Result<String, AllocError> {
    let mut source = String::new(alloc);
    for number in 0u32..11_000 {
        add_lines(&mut source, number)?;
    }
    Ok(source)
}

fn add_lines(source: &mut String, number: u32) -> Result<(), AllocError> {
    writeln!(
        source,
        "name_{number}: addiu $1,$1,-1 # {number}\n  bne $1 , $0 , name_{number}\n\tsll $0,$0,0"
    )
}

static MANY_LINES: [(u32, usize); 1] = [(0x8000_0000, 132_000)];

/// Thirty-three thousand lines with eleven thousand names.
#[test]
fn many_lines(rt: HostRuntime) {
    let source = taken(&rt, "the source", source_of_many_lines(rt.alloc()));
    let image = taken(&rt, "its image", assemble_image(rt.alloc(), &source));
    is_image(&rt, "its image", &image, 0x8000_0000, &MANY_LINES);
}
