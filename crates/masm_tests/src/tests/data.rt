//! Lists, and texts in quotes.
use super::{Verdict, expect, fault_of, taken, verdicts};
use elf32::Image;
use masm::assemble_image;
use std::alloc::{AllocError, Global};
use std::process::Abort;

/// A source, and the bytes of its only segment.
type Row = (&'static str, &'static [u8]);

fn has_bytes(rt: &impl Abort, source: &str, image: &Image, want: &[u8]) {
    expect(rt, source, image.segments.len(), 1);
    for segment in &image.segments {
        expect(rt, source, segment.bytes.as_slice(), want);
    }
}

static BYTES: [Row; 13] = [
    (
        ".word 1, -2 ,0x10",
        &[1, 0, 0, 0, 254, 255, 255, 255, 16, 0, 0, 0],
    ),
    (
        "a: .word a,b,4294967295\nb:",
        &[0, 0, 0, 128, 12, 0, 0, 128, 255, 255, 255, 255],
    ),
    (
        ".word -2147483648,2147483648",
        &[0, 0, 0, 128, 0, 0, 0, 128],
    ),
    (".byte 1,-1 , 255,\t-128", &[1, 255, 255, 128]),
    (".half 258", &[2, 1]),
    (".half -32768,65535 ,0x1234", &[0, 128, 255, 255, 52, 18]),
    (".ascii \"\\n\\t\\r\\0\\\\\\\"\"", &[10, 9, 13, 0, 92, 34]),
    (".asciiz \"Hi, # you\" # a comment", b"Hi, # you\0"),
    (".asciiz \"\"", &[0]),
    ("x:.ascii \"a:b\"", b"a:b"),
    (".ascii \"\"\n.byte 7", &[7]),
    (".ascii \" a \\\\\"#\"", b" a \\"),
    (".asciiz \"a\"\n.asciiz \"b\"", b"a\0b\0"),
];

#[test]
fn bytes(rt: HostRuntime) {
    for (source, want) in &BYTES {
        let image = taken(&rt, *source, assemble_image(rt.alloc(), source));
        has_bytes(&rt, source, &image, want);
    }
}

static PLACES: [Verdict; 14] = [
    (".byte 1\n.half 1", 7, 2),
    (".byte 1,2\n.half 1", 0, 0),
    (".byte 1\n.word 1,2", 7, 2),
    (".half 1\n.word 1,2", 7, 2),
    (".half 1,2,3\neret", 7, 2),
    (".half 1,2\neret", 0, 0),
    (".org 0x9ffffffc\n.word 1,2", 7, 2),
    (".org 0x9ffffffc\n.half 1,2", 0, 0),
    (".org 0x9ffffffc\n.half 1,2,3", 7, 2),
    (".org 0x9ffffffc\n.byte 1,2,3,4,5", 7, 2),
    (".org 0x9ffffffc\n.asciiz \"abc\"", 0, 0),
    (".org 0x9ffffffc\n.asciiz \"abcd\"", 7, 2),
    (".org 0x9ffffffc\n.ascii \"abcd\"", 0, 0),
    (".ascii \"abc\"\neret", 7, 2),
];

#[test]
fn places(rt: HostRuntime) {
    verdicts(&rt, &PLACES);
}

static FAULTS: [Verdict; 38] = [
    (".word 1,", 3, 1),
    (".word ,1", 3, 1),
    (".word 1,,2", 3, 1),
    (".word 1 2,3", 3, 1),
    (".word 1,$2", 3, 1),
    (".word 1,2($3)", 3, 1),
    // The form of each comes before the range of any.
    (".word 4294967296,$1", 3, 1),
    (".word 1,4294967296", 4, 1),
    (".word -2147483649,1", 4, 1),
    (".word 1,nowhere", 5, 1),
    (".word nowhere,4294967296", 4, 1),
    (".byte 1,a", 3, 1),
    (".byte 256,1", 4, 1),
    (".byte 1,-129", 4, 1),
    (".half", 3, 1),
    (".half a", 3, 1),
    (".half 1,", 3, 1),
    (".half 65536", 4, 1),
    (".half -32769", 4, 1),
    (".half 65535,-32768", 0, 0),
    (".ascii", 3, 1),
    (".asciiz", 3, 1),
    (".ascii a", 3, 1),
    (".ascii 'a'", 3, 1),
    (".ascii \"a", 3, 1),
    (".ascii \"", 3, 1),
    (".ascii \"a\" b", 3, 1),
    (".ascii \"a\",\"b\"", 3, 1),
    (".ascii \"a\\q\"", 3, 1),
    (".ascii \"a\\\"", 3, 1),
    (".ascii \"a\"\"", 3, 1),
    (".ascii \"é\"", 1, 1),
    (".space 1,2", 3, 1),
    (".entry a,b", 3, 1),
    // Quotes where none may stand, with a `#` in them or behind them.
    ("\"#", 1, 1),
    ("add \"#\"", 3, 1),
    (".words \"#\"", 2, 1),
    ("eret # \"", 0, 0),
];

#[test]
fn faults(rt: HostRuntime) {
    verdicts(&rt, &FAULTS);
}

/// A list of bytes with so many commas, all of whose elements are one digit.
fn list(alloc: Global, commas: u32) -> Result<String, AllocError> {
    let mut source = String::new(alloc);
    source.push_str(".byte ")?;
    for _ in 0..commas {
        source.push_str("1,")?;
    }
    source.push_str("1")?;
    Ok(source)
}

/// A list is at most 65536 characters long.
#[test]
fn longest(rt: HostRuntime) {
    let longest = taken(&rt, "longest", list(rt.alloc(), 32767));
    let found = fault_of(assemble_image(rt.alloc(), longest.as_str()));
    expect(&rt, "longest", found, (0, 0));
    let longer = taken(&rt, "longer", list(rt.alloc(), 32768));
    let found = fault_of(assemble_image(rt.alloc(), longer.as_str()));
    expect(&rt, "longer", found, (3, 1));
}
