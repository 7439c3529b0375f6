//! Each beginning of a file.
use super::single::SINGLE;
use super::{
    FILE_SIZE, MEMORY_SIZE, OFFSET, check_beginnings, expect, is_single, taken, with_words,
};
use elf32::read;
use std::alloc::{AllocError, Global};

static OF_SINGLE: [(usize, usize, u32); 4] = [(0, 51, 1), (52, 83, 4), (84, 99, 6), (100, 100, 0)];

#[test]
fn of_a_file(rt: HostRuntime) {
    check_beginnings(&rt, &SINGLE, 1, &OF_SINGLE);
}

static WITHOUT_BYTES: [(usize, usize, u32); 3] = [(0, 51, 1), (52, 83, 4), (84, 84, 0)];

/// The file has no bytes behind its table, so that it ends with it.
#[test]
fn of_a_file_without_bytes(rt: HostRuntime) {
    let empty = taken(
        &rt,
        "file",
        with_words(rt.alloc(), &SINGLE[..84], &[(FILE_SIZE, 0)]),
    );
    check_beginnings(&rt, &empty, 1, &WITHOUT_BYTES);
}

/// A file whose segment's bytes are its header.
fn of_its_header(alloc: Global) -> Result<Vec<u8>, AllocError> {
    with_words(
        alloc,
        &SINGLE[..84],
        &[(OFFSET, 0), (FILE_SIZE, 52), (MEMORY_SIZE, 52)],
    )
}

#[test]
fn of_a_file_whose_bytes_are_in_its_header(rt: HostRuntime) {
    let file = taken(&rt, "file", of_its_header(rt.alloc()));
    let image = taken(&rt, "image", read(rt.alloc(), &file, 1));
    let header = taken(&rt, "header", file.get(..52).ok_or("no header"));
    expect(&rt, "image", is_single(&image, header, 52), true);
}
