//! Images that are written and read back.
use super::memory::image;
use super::{expect, is_segment, refusal, taken, word_of};
use elf32::{Image, Segment, read, write};
use std::alloc::{AllocError, Global};
use std::process::Abort;

/// An image of so many segments, each of them 4 bytes with their number in 8 bytes of memory.
fn counted(alloc: Global, count: u8) -> Result<Image, AllocError> {
    let mut segments = Vec::new(alloc);
    for number in 0..count {
        segments.push(Segment {
            address: 0x8000_0000 + 16 * u32::from(count - number),
            bytes: vec![in alloc; number; 4]?,
            size: 8,
        })?;
    }
    Ok(Image {
        entry: 0x8000_0014,
        segments,
    })
}

/// Whether two images have the same entry and the same segments.
fn is_same(image: &Image, other: &Image) -> bool {
    image.entry == other.entry
        && image.segments.len() == other.segments.len()
        && image.segments.iter().zip(other.segments.iter()).all(|(s, o)| is_segment(
            s,
            o.address,
            o.bytes.as_slice(),
            o.size,
        ))
}

/// The case is the number of segments.
fn check_reads_back<R: AllocGlobal + Abort>(rt: &R, count: u8) {
    let image = taken(rt, count, counted(rt.alloc(), count));
    let file = taken(rt, count, write(rt.alloc(), &image));
    expect(rt, count, file.len(), 52 + 36 * usize::from(count));
    let back = taken(rt, count, read(rt.alloc(), &file, 1));
    expect(rt, count, is_same(&back, &image), true);
}

#[test]
fn up_to_64_segments_read_back_in_their_order(rt: HostRuntime) {
    for count in [1, 2, 3, 63, 64] {
        check_reads_back(&rt, count);
    }
}

#[test]
fn a_file_of_65_segments_is_refused(rt: HostRuntime) {
    let image = taken(&rt, "image", counted(rt.alloc(), 65));
    let file = taken(&rt, "file", write(rt.alloc(), &image));
    expect(&rt, "fault", refusal(rt.alloc(), &file, 1), 4);
}

/// Words of the file of `image`: its second program header is of a segment of 5 bytes after one of 3.
static WORDS: [(usize, u32); 16] = [
    (24, 0x8000_001c),
    (44, 2),
    (56, 116),
    (60, 0x8000_0100),
    (68, 3),
    (72, 4),
    (84, 1),
    (88, 119),
    (92, 0x8000_0000),
    (96, 0),
    (100, 5),
    (104, 0x20),
    (108, 0),
    (112, 0),
    (116, 0x5533_3333),
    (120, 0x5555_5555),
];

/// The case is the word's place.
fn check_words(rt: &impl Abort, file: &[u8]) {
    for (place, want) in &WORDS {
        expect(rt, *place, word_of(file, *place), Some(*want));
    }
}

/// The file of `image`.
fn written<R: AllocGlobal + Abort>(rt: &R) -> Vec<u8> {
    let image = taken(rt, "image", image(rt.alloc()));
    taken(rt, "file", write(rt.alloc(), &image))
}

#[test]
fn bytes_stand_one_after_the_other(rt: HostRuntime) {
    let file = written(&rt);
    check_words(&rt, &file);
    let back = taken(&rt, "read back", read(rt.alloc(), &file, 1));
    expect(&rt, "lengths", (file.len(), back.segments.len()), (124, 2));
}
