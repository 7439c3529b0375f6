//! Logs written out by hand.
ghost use Rattle.std.specs.Prelude.{◌≡◌, ◌<◌, ◌≤◌, All};
ghost use Rattle.items.specs.declared.item.What.{What};
ghost use Rattle.items.specs.declared.entry.Entry.TheVariants.{Steps, One};
ghost use Rattle.logfile.specs.Runs.{HasItems};

mod versions;

use crate::header::HEADER_SIZE;
use crate::{ReadError, check_header, image_digest, read_entries, write};
use items::{DebugRegister, Entry, Item, SeatNo, What, WriteBytes};
use std::alloc::{AllocError, Global};
use std::fmt::Debug;
use std::process::Abort;
use std::test::Fail;

/// The SHA-256 digest of the bytes `abc` (FIPS 180-2, appendix B.1).
const DIGEST: [u8; 32] = [
    0xba, 0x78, 0x16, 0xbf, 0x8f, 0x01, 0xcf, 0xea, 0x41, 0x41, 0x40, 0xde, 0x5d, 0xae, 0x22, 0x23,
    0xb0, 0x03, 0x61, 0xa3, 0x96, 0x17, 0x7a, 0x9c, 0xb4, 0x10, 0xff, 0x61, 0xf2, 0x00, 0x15, 0xad,
];

/// An item of each kind, and one more of steps.
const BODY: [u8; 40] = [
    0x02, 0x00, 0x41, // input
    0x03, 0x01, // output
    0x01, 0x00, 0xff, 0xff, 0xff, 0xff, // steps
    0x04, 0x02, 0x07, 0x00, 0x00, 0x00, // balloon target
    0x05, 0x03, 0x25, 0x04, 0x03, 0x02, 0x80, // register
    0x06, 0x03, 0x00, 0x10, 0x00, 0x80, 0x02, 0x00, 0xaa, 0xbb, // bytes
    0x01, 0x00, 0x01, 0x00, 0x00, 0x00, // steps
];

/// After how many of its bytes an item ends.
const ENDS: [usize; 8] = [0, 3, 5, 11, 17, 24, 34, 40];

/// Asserts one case.
fn expect<C: Debug + Drop, T: PartialEq + Debug + Drop>(
    rt: &impl Abort,
    case: C,
    got: T,
    wanted: T,
) {
    assert!(rt; got == wanted, "{case:?}: {got:?}, not {wanted:?}");
}

/// A file of 16 pages and the digest of `abc`, with these bytes behind its header.
fn file_of(alloc: Global, body: &[u8]) -> Result<Vec<u8>, AllocError> {
    let mut file = Vec::new(alloc);
    file.extend_from_slice(b"MVL1\x10\0\0\0")?;
    file.extend_from_slice(&DIGEST)?;
    file.extend_from_slice(body)?;
    Ok(file)
}

/// The number of the fault of a file, or 0 where it has none.
fn fault_number(alloc: Global, file: &[u8]) -> Result<u32, AllocError> {
    match check_header(file, &DIGEST) {
        Err(fault) => Ok(fault.number()),
        Ok(_) => match read_entries(alloc, file) {
            Ok(_) => Ok(0),
            Err(ReadError::Fault(fault)) => Ok(fault.number()),
            Err(ReadError::Memory) => Err(AllocError),
        },
    }
}

fn steps(seat: u8, count: u64) -> Entry
    requires seat { seat < 4 }
    requires some { 1 ≤ count }
    ensures { HasItems result }
{
    Entry::Steps {
        seat: SeatNo::new(seat),
        count,
    }
}

fn one(seat: u8, what: What) -> Entry
    requires { seat < 4 }
    ensures { HasItems result }
{
    Entry::One(Item {
        seat: SeatNo::new(seat),
        what,
    })
}

/// Asserts the body that is written for a log.
fn expect_written(
    rt: &impl Abort,
    alloc: Global,
    log: &[Entry],
    body: &[u8],
) -> Result<(), AllocError>
    requires { All HasItems log.now }
{
    let file = write(alloc, 16, &DIGEST, log)?;
    let wanted = file_of(alloc, body)?;
    expect(rt, body, file.as_slice(), wanted.as_slice());
    Ok(())
}

/// Asserts that a write of so many bytes is written, and is read as it was.
fn expect_write(rt: &impl Abort, alloc: Global, size: usize) -> Result<(), ReadError>
    requires { size ≤ 65535 }
{
    let bytes = WriteBytes::from_vec(vec![in alloc; 0xa5; size]?);
    let address = 0x8000_1000;
    let file = write(alloc, 2, &DIGEST, &[one(3, What::Write { address, bytes })])?;
    expect(rt, size, file.len(), 48 + size);
    expect(rt, size, check_header(&file, &DIGEST), Ok(2));
    let mut count = 0;
    if file.len() >= HEADER_SIZE {
        for entry in &read_entries(alloc, &file)? {
            if let Entry::One(
                Item {
                    seat,
                    what: What::Write { address, bytes },
                },
            ) = entry
            {
                expect(rt, size, (seat.number(), *address), (3, 0x8000_1000));
                expect(rt, size, bytes.len(), size);
                expect(
                    rt,
                    size,
                    bytes.as_slice().iter().all(|byte| *byte == 0xa5),
                    true,
                );
                count = 1;
            }
        }
    }
    expect(rt, size, count, 1);
    Ok(())
}

/// Asserts which fault a file with this body has.
fn expect_body(rt: &impl Abort, alloc: Global, body: &[u8], number: u32) -> Result<(), AllocError> {
    let file = file_of(alloc, body)?;
    expect(rt, body, fault_number(alloc, &file)?, number);
    Ok(())
}

/// Asserts which fault a file has of which bytes from a place on are others.
fn expect_header(
    rt: &impl Abort,
    alloc: Global,
    body: &[u8],
    changes: &[(usize, u8)],
    number: u32,
) -> Result<(), AllocError> {
    let mut file = file_of(alloc, body)?;
    for (place, byte) in changes {
        if *place < file.len() {
            file[*place] = *byte;
        }
    }
    expect(rt, changes, fault_number(alloc, &file)?, number);
    Ok(())
}

#[test]
fn digest_is_that_of_the_standard(rt: HostRuntime) {
    assert_eq!(rt; image_digest(b"abc"), DIGEST);
}

#[test]
fn headers_are_refused_for_their_first_fault(rt: HostRuntime) -> Result<(), Fail> {
    let alloc = rt.alloc();
    let good = file_of(alloc, &BODY)?;
    assert_eq!(rt; check_header(&good, &DIGEST), Ok(16));
    expect_header(&rt, alloc, &BODY, &[(4, 2)], 0)?;
    expect_header(&rt, alloc, &BODY, &[(4, 0), (5, 0x40)], 0)?;
    expect_header(&rt, alloc, &BODY, &[(0, b'm')], 2)?;
    expect_header(&rt, alloc, &BODY, &[(3, b'2')], 2)?;
    expect_header(&rt, alloc, &BODY, &[(4, 0)], 2)?;
    expect_header(&rt, alloc, &BODY, &[(4, 1)], 2)?;
    expect_header(&rt, alloc, &BODY, &[(4, 1), (5, 0x40)], 2)?;
    expect_header(&rt, alloc, &BODY, &[(7, 1)], 2)?;
    expect_header(&rt, alloc, &BODY, &[(3, b'2'), (39, 0)], 2)?;
    expect_header(&rt, alloc, &BODY, &[(4, 1), (8, 0)], 2)?;
    expect_header(&rt, alloc, &[7, 0], &[(3, b'2')], 2)?;
    expect_header(&rt, alloc, &BODY, &[(8, 0)], 3)?;
    expect_header(&rt, alloc, &BODY, &[(39, 0)], 3)?;
    expect_header(&rt, alloc, &[7, 0], &[(39, 0)], 3)?;
    expect(&rt, "39 zeros", fault_number(alloc, &[0; 39])?, 1);
    expect(&rt, "40 zeros", fault_number(alloc, &[0; 40])?, 2);
    expect(&rt, "no byte", fault_number(alloc, &[])?, 1);
    Ok(())
}

#[test]
fn bodies_are_refused(rt: HostRuntime) -> Result<(), Fail> {
    let alloc = rt.alloc();
    expect_body(&rt, alloc, &[0, 0], 4)?;
    expect_body(&rt, alloc, &[7, 0], 4)?;
    expect_body(&rt, alloc, &[0xff, 0, 0], 4)?;
    expect_body(&rt, alloc, &[1, 0, 0, 0, 0, 0], 4)?;
    expect_body(&rt, alloc, &[1, 0, 1, 0, 0, 0], 0)?;
    expect_body(&rt, alloc, &[1, 0, 0xff, 0xff, 0xff, 0xff], 0)?;
    expect_body(&rt, alloc, &[1, 3, 0, 0, 0, 1], 0)?;
    expect_body(&rt, alloc, &[1, 4, 1, 0, 0, 0], 4)?;
    expect_body(&rt, alloc, &[2, 4, 0], 4)?;
    expect_body(&rt, alloc, &[3, 0, 0], 4)?;
    expect_body(&rt, alloc, &[5, 0, 37, 1, 2, 3, 4], 0)?;
    expect_body(&rt, alloc, &[5, 0, 38, 1, 2, 3, 4], 4)?;
    expect_body(&rt, alloc, &[6, 0, 0, 0, 0, 0, 0, 0], 0)?;
    expect_body(&rt, alloc, &[6, 0, 0, 0, 0, 0, 0, 1], 4)?;
    expect_body(&rt, alloc, &[6, 0, 0, 0, 0, 0, 1, 0, 9, 9], 4)?;
    expect_body(&rt, alloc, &[2, 0, 0x41, 8, 0], 4)?;
    Ok(())
}

#[test]
fn beginnings_are_whole_or_refused(rt: HostRuntime) -> Result<(), Fail> {
    let alloc = rt.alloc();
    let file = file_of(alloc, &BODY)?;
    for length in 0..file.len() {
        let number = if length < 40 {
            1
        } else if ENDS.contains(&(length - 40)) {
            0
        } else {
            4
        };
        expect(&rt, length, fault_number(alloc, &file[..length])?, number);
    }
    expect(&rt, "whole", fault_number(alloc, &file)?, 0);
    Ok(())
}

/// Three steps, `A` on the console, and two steps.
#[test]
fn steps_and_input_are_written(rt: HostRuntime) -> Result<(), Fail> {
    let log = [steps(0, 3), one(0, What::In(0x41)), steps(0, 2)];
    let body = [1, 0, 3, 0, 0, 0, 2, 0, 0x41, 1, 0, 2, 0, 0, 0];
    expect_written(&rt, rt.alloc(), &log, &body)?;
    Ok(())
}

/// `a` and `b` on the console, and five steps: a file of 52 bytes.
#[test]
fn input_and_steps_are_written(rt: HostRuntime) -> Result<(), Fail> {
    let log = [one(0, What::In(b'a')), one(0, What::In(b'b')), steps(0, 5)];
    let body = [2, 0, 0x61, 2, 0, 0x62, 1, 0, 5, 0, 0, 0];
    expect_written(&rt, rt.alloc(), &log, &body)?;
    expect(
        &rt,
        "length",
        write(rt.alloc(), 16, &DIGEST, &log)?.len(),
        52,
    );
    Ok(())
}

#[test]
fn each_kind_of_item_is_written(rt: HostRuntime) -> Result<(), Fail> {
    let alloc = rt.alloc();
    let register = DebugRegister::new(37);
    let value = 0x8002_0304;
    let address = 0x8000_1000;
    let bytes = WriteBytes::from_vec([0xaa, 0xbb].to_vec(alloc)?);
    let log = [
        one(0, What::In(0x41)),
        one(1, What::Drain),
        steps(0, 0xffff_ffff),
        one(2, What::Target(7)),
        one(3, What::Poke { register, value }),
        one(3, What::Write { address, bytes }),
        one(0, What::Step),
    ];
    expect_written(&rt, alloc, &log, &BODY)?;
    Ok(())
}

/// A run of more than 4,294,967,295 steps is several items.
#[test]
fn long_runs_are_split(rt: HostRuntime) -> Result<(), Fail> {
    let alloc = rt.alloc();
    let most = [1, 2, 0xff, 0xff, 0xff, 0xff];
    let last = [1, 2, 1, 0, 0, 0];
    expect_written(&rt, alloc, &[steps(2, 1)], &last)?;
    expect_written(&rt, alloc, &[steps(2, 4_294_967_295)], &most)?;
    let two = [most, last];
    expect_written(&rt, alloc, &[steps(2, 4_294_967_296)], two.as_flattened())?;
    let two = [most, most];
    expect_written(&rt, alloc, &[steps(2, 8_589_934_590)], two.as_flattened())?;
    let three = [most, most, last];
    expect_written(&rt, alloc, &[steps(2, 8_589_934_591)], three.as_flattened())?;
    Ok(())
}

#[test]
fn writes_of_every_size_are_read_back(rt: HostRuntime) -> Result<(), Fail> {
    expect_write(&rt, rt.alloc(), 0)?;
    expect_write(&rt, rt.alloc(), 1024)?;
    expect_write(&rt, rt.alloc(), 65535)?;
    Ok(())
}

/// Each item of `BODY` is read as what it is.
#[test]
fn each_kind_of_item_is_read(rt: HostRuntime) -> Result<(), Fail> {
    let alloc = rt.alloc();
    let file = file_of(alloc, &BODY)?;
    assert!(rt; file.len() >= HEADER_SIZE);
    let entries = read_entries(alloc, &file)?;
    let text = format!(in alloc; "{entries:?}")?;
    let wanted = "[One(Item { seat: SeatNo { number: 0 }, what: In(65) }), \
        One(Item { seat: SeatNo { number: 1 }, what: Drain }), \
        Steps { seat: SeatNo { number: 0 }, count: 4294967295 }, \
        One(Item { seat: SeatNo { number: 2 }, what: Target(7) }), \
        One(Item { seat: SeatNo { number: 3 }, \
        what: Poke { register: DebugRegister { number: 37 }, value: 2147615492 } }), \
        One(Item { seat: SeatNo { number: 3 }, \
        what: Write { address: 2147487744, bytes: WriteBytes { bytes: [170, 187] } } }), \
        Steps { seat: SeatNo { number: 0 }, count: 1 }]";
    expect(&rt, "entries", text.as_str(), wanted);
    Ok(())
}
