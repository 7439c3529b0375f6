//! Images at the edge of a memory, files that are read and files that are refused.
mod beginnings;
mod files;
mod memory;
mod refusals;
mod single;

use elf32::{ElfError, Image, Segment, read};
use std::alloc::{AllocError, Global};
use std::fmt::Debug;
use std::process::Abort;
use word32::{put_word, word_at};

/// Where the program header table of the files of these tests begins.
const TABLE: usize = 52;

/// Where its first entry has the fields offset, address, size in the file and size in memory.
const OFFSET: usize = TABLE + 4;

const ADDRESS: usize = TABLE + 8;

const FILE_SIZE: usize = TABLE + 16;

const MEMORY_SIZE: usize = TABLE + 20;

/// Asserts one case. The tests share it, since each assertion in a function's own body makes its proof much longer.
fn expect<C: Debug + Drop, T: PartialEq + Debug + Drop>(
    rt: &impl Abort,
    case: C,
    got: T,
    wanted: T,
) {
    assert!(rt; got == wanted, "{case:?}: {got:?}, not {wanted:?}");
}

/// What a case gives, which is no error.
fn taken<C: Debug + Drop, T, E: Debug + Drop>(rt: &impl Abort, case: C, given: Result<T, E>) -> T {
    match given {
        Ok(value) => value,
        Err(error) => panic!(rt; "{case:?}: {error:?}"),
    }
}

/// A copy of a file in which words were written at places within it.
fn with_words(alloc: Global, file: &[u8], words: &[(usize, u32)]) -> Result<Vec<u8>, AllocError> {
    let mut copy = file.to_vec(alloc)?;
    for (place, word) in words {
        if *place <= copy.len() && copy.len() - *place >= 4 {
            put_word(&mut copy, *place, *word);
        }
    }
    Ok(copy)
}

/// The word at a place of a file, if the file has one there.
fn word_of(file: &[u8], place: usize) -> Option<u32> {
    if place <= file.len() && file.len() - place >= 4 {
        Some(word_at(file, place))
    } else {
        None
    }
}

/// The number of the fault for which a file is refused in a memory of some pages, 0 where it is read, and 10 for want of
/// memory.
fn refusal(alloc: Global, file: &[u8], pages: u32) -> u32 {
    match read(alloc, file, pages) {
        Ok(_) => 0,
        Err(ElfError::Fault(fault)) => fault.number(),
        Err(ElfError::Memory) => 10,
    }
}

/// Checks the fault of a file with words written into it, in a memory of some pages.
fn check_changed<R: AllocGlobal + Abort, C: Debug + Copy + Drop>(
    rt: &R,
    file: &[u8],
    words: &[(usize, u32)],
    pages: u32,
    want: u32,
    case: C,
) {
    let changed = taken(rt, case, with_words(rt.alloc(), file, words));
    expect(rt, case, refusal(rt.alloc(), &changed, pages), want);
}

/// Checks the beginnings of a file, in a memory of some pages. A row has the least and the greatest of some lengths, and
/// the fault of each beginning of such a length.
fn check_beginnings<R: AllocGlobal + Abort>(
    rt: &R,
    file: &[u8],
    pages: u32,
    rows: &[(usize, usize, u32)],
) {
    for (least, greatest, want) in rows {
        for length in *least..=*greatest {
            check_beginning(rt, file, length, pages, *want);
        }
    }
}

/// The case is the beginning's length and the file's.
fn check_beginning<R: AllocGlobal + Abort>(
    rt: &R,
    file: &[u8],
    length: usize,
    pages: u32,
    want: u32,
) {
    let case = (length, file.len());
    let beginning = taken(rt, case, file.get(..length).ok_or("no such beginning"));
    expect(rt, case, refusal(rt.alloc(), beginning, pages), want);
}

/// Whether a segment has this address, these bytes and this size.
fn is_segment(segment: &Segment, address: u32, bytes: &[u8], size: u32) -> bool {
    segment.address == address && segment.bytes.as_slice() == bytes && segment.size == size
}

/// Whether an image has one segment alone, at 80000000, with these bytes and this size.
fn is_single(image: &Image, bytes: &[u8], size: u32) -> bool {
    match image.segments.as_slice() {
        [segment] => is_segment(segment, 0x8000_0000, bytes, size),
        _ => false,
    }
}

/// The raw image of so many zeros.
fn raw(alloc: Global, length: u16) -> Result<Image, AllocError> {
    Image::raw(alloc, vec![in alloc; 0; usize::from(length)]?)
}

/// The case is the image's length and the number of pages.
fn check_raw<R: AllocGlobal + Abort>(rt: &R, length: u16, pages: u32, want: bool) {
    let image = taken(rt, length, raw(rt.alloc(), length));
    expect(rt, (length, pages), image.fits(pages), want);
}

#[test]
fn a_raw_image_fits_up_to_its_last_byte(rt: HostRuntime) {
    check_raw(&rt, 1, 1, true);
    check_raw(&rt, 4096, 1, true);
    check_raw(&rt, 4097, 1, false);
    check_raw(&rt, 4097, 2, true);
}
