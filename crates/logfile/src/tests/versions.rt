//! Log files of version 2, and of version 1 beside them.
use super::{BODY, DIGEST, expect, file_of, one, steps};
use crate::{LogFault, LogHeader, ReadError, read_entries_as, read_header, write_as};
use items::What;
use mips_cp0::Profile;
use std::alloc::{AllocError, Global};
use std::process::Abort;
use std::test::Fail;

/// A file of version 2 of the profile of this number, of 16 pages and the digest of `abc`, with these bytes behind its header.
fn second_file(alloc: Global, number: u8, body: &[u8]) -> Result<Vec<u8>, AllocError> {
    let mut file = Vec::new(alloc);
    file.extend_from_slice(b"MVL2")?;
    file.extend_from_slice(&[number, 0, 0, 0, 16, 0, 0, 0])?;
    file.extend_from_slice(&DIGEST)?;
    file.extend_from_slice(body)?;
    Ok(file)
}

/// The number of the fault of a file, or 0 where it has none.
fn fault_number(alloc: Global, file: &[u8]) -> Result<u32, AllocError> {
    match read_header(file, &DIGEST) {
        Err(fault) => Ok(fault.number()),
        Ok(_) => match read_entries_as(alloc, file) {
            Ok(_) => Ok(0),
            Err(ReadError::Fault(fault)) => Ok(fault.number()),
            Err(ReadError::Memory) => Err(AllocError),
        },
    }
}

/// Asserts which fault a file of a profile has of which bytes from a place on are others.
fn expect_header(
    rt: &impl Abort,
    alloc: Global,
    number: u8,
    changes: &[(usize, u8)],
    fault: u32,
) -> Result<(), AllocError> {
    let mut file = second_file(alloc, number, &BODY)?;
    for (place, byte) in changes {
        if *place < file.len() {
            file[*place] = *byte;
        }
    }
    expect(rt, changes, fault_number(alloc, &file)?, fault);
    Ok(())
}

#[test]
fn headers_say_the_machine(rt: HostRuntime) -> Result<(), Fail> {
    let alloc = rt.alloc();
    let (one, two) = (Profile::One, Profile::Two);
    let header = |profile| Ok(LogHeader { profile, pages: 16 });
    expect(
        &rt,
        "MVL1",
        read_header(&file_of(alloc, &BODY)?, &DIGEST),
        header(one),
    );
    expect(
        &rt,
        "one",
        read_header(&second_file(alloc, 1, &BODY)?, &DIGEST),
        header(one),
    );
    expect(
        &rt,
        "two",
        read_header(&second_file(alloc, 2, &BODY)?, &DIGEST),
        header(two),
    );
    let unknown = Err(LogFault::Profile);
    expect(
        &rt,
        "three",
        read_header(&second_file(alloc, 3, &BODY)?, &DIGEST),
        unknown,
    );
    Ok(())
}

/// The profile is checked before the pages and the image.
#[test]
fn files_are_refused_for_their_first_fault(rt: HostRuntime) -> Result<(), Fail> {
    let alloc = rt.alloc();
    expect_header(&rt, alloc, 1, &[], 0)?;
    expect_header(&rt, alloc, 2, &[(8, 0), (9, 0x80)], 0)?;
    expect_header(&rt, alloc, 2, &[(8, 1), (9, 0x80)], 2)?;
    expect_header(&rt, alloc, 1, &[(8, 0), (9, 0x40)], 0)?;
    expect_header(&rt, alloc, 1, &[(8, 1), (9, 0x40)], 2)?;
    expect_header(&rt, alloc, 1, &[(8, 1)], 2)?;
    expect_header(&rt, alloc, 0, &[], 6)?;
    expect_header(&rt, alloc, 3, &[], 6)?;
    expect_header(&rt, alloc, 1, &[(7, 1)], 6)?;
    expect_header(&rt, alloc, 3, &[(8, 1), (12, 0), (44, 7)], 6)?;
    expect_header(&rt, alloc, 3, &[(3, b'3')], 2)?;
    expect_header(&rt, alloc, 2, &[(8, 1), (12, 0)], 2)?;
    expect_header(&rt, alloc, 2, &[(12, 0)], 3)?;
    expect_header(&rt, alloc, 2, &[(43, 0), (44, 7)], 3)?;
    expect_header(&rt, alloc, 2, &[(44, 7)], 4)?;
    Ok(())
}

/// A beginning of fewer than 44 bytes has no whole header.
#[test]
fn beginnings_are_refused(rt: HostRuntime) -> Result<(), Fail> {
    let alloc = rt.alloc();
    let file = second_file(alloc, 3, &[])?;
    for length in 0..44 {
        if length < file.len() {
            expect(&rt, length, fault_number(alloc, &file[..length])?, 1);
        }
    }
    expect(&rt, "whole", fault_number(alloc, &file)?, 6);
    Ok(())
}

/// `a` and `b` on the console, and five steps: a file of 56 bytes.
#[test]
fn second_files_are_written(rt: HostRuntime) -> Result<(), Fail> {
    let alloc = rt.alloc();
    let log = [one(0, What::In(b'a')), one(0, What::In(b'b')), steps(0, 5)];
    let body = [2, 0, 0x61, 2, 0, 0x62, 1, 0, 5, 0, 0, 0];
    let file = write_as(alloc, Profile::Two, 16, &DIGEST, &log)?;
    let wanted = second_file(alloc, 2, &body)?;
    expect(&rt, "bytes", file.as_slice(), wanted.as_slice());
    expect(&rt, "length", file.len(), 56);
    expect(&rt, "fault", fault_number(alloc, &file)?, 0);
    Ok(())
}
