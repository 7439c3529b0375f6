//! Calls that take memory: the answer is the right one, or says that memory was wanted, and is no other.
use super::expect;
use elf32::{Image, Segment};
use masm::{AsmError, assemble, assemble_image, disassembly_of, listing};
use std::alloc::{AllocError, Global};

/// Two segments, with two names, each used before its line.
const SOURCE: &str =
    ".org 0x80000010\n.entry here\n.byte 5\n.org 0x80000000\n.word there\nhere: eret\nthere: .space 1\n";

static FIRST: [u8; 1] = [0x05];

static SECOND: [u8; 9] = [0x08, 0x00, 0x00, 0x80, 0x18, 0x00, 0x00, 0x42, 0x00];

static FILE: [u8; 126] = [
    0x7f, 0x45, 0x4c, 0x46, 0x01, 0x01, 0x01, 0x00, 0x00, 0x00, 0x00, 0x00, 0x00, 0x00, 0x00, 0x00,
    0x02, 0x00, 0x08, 0x00, 0x01, 0x00, 0x00, 0x00, 0x04, 0x00, 0x00, 0x80, 0x34, 0x00, 0x00, 0x00,
    0x00, 0x00, 0x00, 0x00, 0x00, 0x00, 0x00, 0x00, 0x34, 0x00, 0x20, 0x00, 0x02, 0x00, 0x00, 0x00,
    0x00, 0x00, 0x00, 0x00, 0x01, 0x00, 0x00, 0x00, 0x74, 0x00, 0x00, 0x00, 0x10, 0x00, 0x00, 0x80,
    0x00, 0x00, 0x00, 0x00, 0x01, 0x00, 0x00, 0x00, 0x01, 0x00, 0x00, 0x00, 0x00, 0x00, 0x00, 0x00,
    0x00, 0x00, 0x00, 0x00, 0x01, 0x00, 0x00, 0x00, 0x75, 0x00, 0x00, 0x00, 0x00, 0x00, 0x00, 0x80,
    0x00, 0x00, 0x00, 0x00, 0x09, 0x00, 0x00, 0x00, 0x09, 0x00, 0x00, 0x00, 0x00, 0x00, 0x00, 0x00,
    0x00, 0x00, 0x00, 0x00, 0x05, 0x08, 0x00, 0x00, 0x80, 0x18, 0x00, 0x00, 0x42, 0x00,
];

const LINES: &str =
    "80000010 05 .byte 0x05\n80000000 80000008 lb $0,8($0)\n80000004 42000018 eret\n80000008 00 .byte 0x00\n";

/// Whether a segment has this address and these bytes, which are all of its memory.
fn is_segment(segment: &Segment, address: u32, bytes: &[u8]) -> bool {
    segment.address == address
        && segment.bytes.as_slice() == bytes
        && segment.size as usize == bytes.len()
}

/// Whether an image is that of the source.
fn is_image(image: &Image) -> bool {
    image.entry == 0x8000_0004
        && match image.segments.as_slice() {
            [first, second] => {
                is_segment(first, 0x8000_0010, &FIRST) && is_segment(second, 0x8000_0000, &SECOND)
            }
            _ => false,
        }
}

/// The image of the source.
fn image(alloc: Global) -> Result<Image, AllocError> {
    let mut segments = Vec::new(alloc);
    segments.push(Segment {
        address: 0x8000_0010,
        bytes: FIRST.to_vec(alloc)?,
        size: 1,
    })?;
    segments.push(Segment {
        address: 0x8000_0000,
        bytes: SECOND.to_vec(alloc)?,
        size: 9,
    })?;
    Ok(Image {
        entry: 0x8000_0004,
        segments,
    })
}

/// Whether an error says that memory was wanted.
fn is_memory(error: AsmError) -> bool {
    match error {
        AsmError::Memory(_) => true,
        AsmError::Fault { .. } => false,
    }
}

#[test]
fn wanted_by_assemble_image(rt: HostRuntime) {
    match assemble_image(rt.alloc(), SOURCE) {
        Ok(image) => expect(&rt, "image", is_image(&image), true),
        Err(error) => expect(&rt, "error", is_memory(error), true),
    }
}

#[test]
fn wanted_by_assemble(rt: HostRuntime) {
    match assemble(rt.alloc(), SOURCE) {
        Ok(file) => expect(&rt, "file", file.as_slice(), FILE.as_slice()),
        Err(error) => expect(&rt, "error", is_memory(error), true),
    }
}

#[test]
fn wanted_by_listing(rt: HostRuntime) {
    match listing(rt.alloc(), SOURCE) {
        Ok(lines) => expect(&rt, "lines", lines.as_str(), LINES),
        Err(error) => expect(&rt, "error", is_memory(error), true),
    }
}

/// Where memory is wanted for the image already, there is nothing to test.
#[test]
fn wanted_by_disassembly_of(rt: HostRuntime) {
    if let Ok(image) = image(rt.alloc()) {
        match disassembly_of(rt.alloc(), &image) {
            Ok(lines) => expect(&rt, "lines", lines.as_str(), LINES),
            Err(AllocError) => (),
        }
    }
}
