//! A map of a few pages with ample memory: each remap, and accesses at the first and last places.
ghost use Rattle.std.specs.Prelude.{◌≡◌, ◌*◌, ◌%◌, ◌<◌, length};
ghost use Rattle.word32.specs.Zeros.{zeros};

use crate::{GuestPages, PageKind, Returned};
use frames::{Frame, FrameNo, Numbers, ShareTicket, SharedFrame, SlotTicket};
use guest_number::GuestNo;
use sha2::{Digest, Sha256};
use sharetab::{GuestPage, Offer, Shares};
use std::alloc::{AllocError, Global};
use std::fmt::Debug;
use std::process::Abort;
use std::test::Fail;
use word32::{Ppn, page_of};

/// Asserts one case. The tests share it, since each assertion in a function's own body makes its proof much longer.
fn expect<T: PartialEq + Debug + Drop>(rt: &impl Abort, case: &'static str, got: T, wanted: T) {
    assert!(rt; got == wanted, "{case}: {got:?}, not {wanted:?}");
}

/// The page of a number, which has to be in the map.
fn page(rt: &impl Abort, map: &GuestPages, number: u32) -> Ppn
    ensures { result < length map.now }
{
    if number >= map.len() || number >= 1 << 20 {
        panic!(rt; "there is no page {number}");
    }
    Ppn::new(number)
}

/// The kinds of the first four pages.
fn kinds(rt: &impl Abort, map: &GuestPages) -> [PageKind; 4] {
    [
        map.kind(page(rt, map, 0)),
        map.kind(page(rt, map, 1)),
        map.kind(page(rt, map, 2)),
        map.kind(page(rt, map, 3)),
    ]
}

/// How many pages are private, shared, swapped and resident.
fn counts(map: &GuestPages) -> [u32; 4] {
    [map.private(), map.shared(), map.swapped(), map.resident()]
}

/// The first and the last byte of a page, where it is in a frame.
fn ends(rt: &impl Abort, map: &GuestPages, number: u32) -> Option<[u8; 2]> {
    match map.peek(page(rt, map, number)) {
        Some(bytes) => Some([bytes[0], bytes[4095]]),
        None => None,
    }
}

fn frame_number(rt: &impl Abort, numbers: &mut Numbers) -> FrameNo {
    match numbers.next_frame() {
        Some(no) => no,
        None => panic!(rt; "no number is left"),
    }
}

fn slot_ticket(rt: &impl Abort, numbers: &mut Numbers) -> SlotTicket {
    match numbers.next_slot() {
        Some(slot) => slot,
        None => panic!(rt; "no number is left"),
    }
}

/// A frame of zeros.
fn zeroed(rt: &impl Abort, alloc: Global, numbers: &mut Numbers) -> Frame
    ensures { result.bytes ≡ zeros 4096 }
{
    match Frame::zeroed(alloc, frame_number(rt, numbers)) {
        Ok(frame) => frame,
        Err(no) => panic!(rt; "no memory for frame {}", no.close()),
    }
}

/// A frame with this first and last byte, zeros between.
fn with_ends(rt: &impl Abort, alloc: Global, numbers: &mut Numbers, ends: [u8; 2]) -> Frame {
    let mut frame = zeroed(rt, alloc, numbers);
    frame.bytes_mut()[0] = ends[0];
    frame.bytes_mut()[4095] = ends[1];
    frame
}

fn supply_zero(rt: &impl Abort, map: &mut GuestPages, number: u32, frame: Frame)
    requires { frame.bytes ≡ zeros 4096 }
{
    let p = page(rt, map, number);
    match map.kind(p) {
        PageKind::Zero | PageKind::Given => map.supply_zero(p, frame),
        other => panic!(rt; "page {number} is {other:?}"),
    }
}

fn supply_copy(rt: &impl Abort, map: &mut GuestPages, number: u32, frame: Frame) -> ShareTicket {
    let p = page(rt, map, number);
    match map.kind(p) {
        PageKind::Shared => map.supply_copy(p, frame),
        other => panic!(rt; "page {number} is {other:?}"),
    }
}

fn supply_swapped(rt: &impl Abort, map: &mut GuestPages, number: u32, frame: Frame) -> SlotTicket {
    let p = page(rt, map, number);
    match map.kind(p) {
        PageKind::Swapped => {
            let (slot, digest) = map.away(p);
            if Sha256::digest(frame.bytes()) == digest {
                map.supply_swapped(p, frame)
            } else {
                panic!(rt; "slot {slot} has other bytes")
            }
        }
        other => panic!(rt; "page {number} is {other:?}"),
    }
}

fn swap_out(rt: &impl Abort, map: &mut GuestPages, number: u32, slot: SlotTicket) -> Returned {
    let p = page(rt, map, number);
    match map.peek(p) {
        Some(bytes) => {
            let digest = Sha256::digest(bytes);
            map.swap_out(p, slot, digest)
        }
        None => panic!(rt; "page {number} is in no frame"),
    }
}

fn put_away(
    rt: &impl Abort,
    map: &mut GuestPages,
    number: u32,
    slot: SlotTicket,
    digest: [u8; 32],
) {
    let p = page(rt, map, number);
    match map.kind(p) {
        PageKind::Zero => map.put_away(p, slot, digest),
        other => panic!(rt; "page {number} is {other:?}"),
    }
}

fn share(rt: &impl Abort, map: &mut GuestPages, number: u32, shared: &mut SharedFrame) -> Frame {
    let p = page(rt, map, number);
    match map.kind(p) {
        PageKind::Private => {
            let (page, ticket) = shared.join().expect(rt, "a further reader");
            if map.peek(p) == Some(page.bytes()) {
                map.share(p, page, ticket)
            } else {
                panic!(rt; "the shared frame has other bytes")
            }
        }
        other => panic!(rt; "page {number} is {other:?}"),
    }
}

/// The frame of a page becomes a shared one, once the table has no entry of its digest.
fn admit(
    rt: &impl Abort,
    map: &mut GuestPages,
    number: u32,
    shares: &mut Shares,
) -> Result<(), AllocError> {
    let p = page(rt, map, number);
    match map.kind(p) {
        PageKind::Private => {
            let digest = match map.peek(p) {
                Some(bytes) => Sha256::digest(bytes),
                None => panic!(rt; "page {number} is in no frame"),
            };
            let noted = GuestPage {
                guest: GuestNo::new(0),
                page: p,
            };
            if shares.offer(&digest, noted)? == Offer::Taken {
                panic!(rt; "page {number} has the bytes of an entry");
            }
            if !shares.is_vacant(map.own_frame(p)) {
                panic!(rt; "the frame of page {number} is shared");
            }
            map.admit(p, shares)
        }
        other => panic!(rt; "page {number} is {other:?}"),
    }
}

fn returned_frame(rt: &impl Abort, returned: Returned) -> Frame {
    match returned {
        Returned::Frame(frame) => frame,
        other => {
            other.close();
            panic!(rt; "no frame came back")
        }
    }
}

fn returned_ticket(rt: &impl Abort, returned: Returned) -> ShareTicket {
    match returned {
        Returned::Ticket(ticket) => ticket,
        other => {
            other.close();
            panic!(rt; "no ticket came back")
        }
    }
}

fn returned_slot(rt: &impl Abort, returned: Returned) -> SlotTicket {
    match returned {
        Returned::Slot(slot) => slot,
        other => {
            other.close();
            panic!(rt; "no slot came back")
        }
    }
}

/// A shared frame with this first and last byte, whose first reader is gone.
fn shared_frame(
    rt: &impl Abort,
    alloc: Global,
    numbers: &mut Numbers,
    ends: [u8; 2],
) -> SharedFrame {
    match with_ends(rt, alloc, numbers, ends).share(alloc) {
        Ok((shared, _page, ticket)) => {
            ticket.close();
            shared
        }
        Err(frame) => panic!(rt; "no memory to share frame {}", frame.close()),
    }
}

fn ended(rt: &impl Abort, mut numbers: Numbers) {
    match numbers.next_frame() {
        Some(no) => panic!(rt; "number {} is left", no.close()),
        None => numbers.close(),
    }
}

fn give(rt: &impl Abort, map: &mut GuestPages, number: u32) -> Returned {
    let p = page(rt, map, number);
    map.give(p)
}

fn nothing(rt: &impl Abort, returned: Returned) {
    match returned {
        Returned::Nothing => {}
        other => {
            other.close();
            panic!(rt; "something came back")
        }
    }
}

fn away(rt: &impl Abort, map: &GuestPages, number: u32) -> (u32, [u8; 32]) {
    let p = page(rt, map, number);
    match map.kind(p) {
        PageKind::Swapped => map.away(p),
        other => panic!(rt; "page {number} is {other:?}"),
    }
}

fn own_number(rt: &impl Abort, map: &GuestPages, number: u32) -> u32 {
    let p = page(rt, map, number);
    match map.kind(p) {
        PageKind::Private => map.own_frame(p),
        other => panic!(rt; "page {number} is {other:?}"),
    }
}

fn shared_number(rt: &impl Abort, map: &GuestPages, number: u32) -> u32 {
    let p = page(rt, map, number);
    match map.kind(p) {
        PageKind::Shared => map.shared_frame(p),
        other => panic!(rt; "page {number} is {other:?}"),
    }
}

/// Page 0 becomes private, page 2 swapped and page 3 shared, with numbers 0 to 3.
fn each_kind(
    rt: &impl Abort,
    alloc: Global,
    map: &mut GuestPages,
    numbers: &mut Numbers,
) -> SharedFrame {
    supply_zero(rt, map, 0, zeroed(rt, alloc, numbers));
    supply_zero(rt, map, 2, zeroed(rt, alloc, numbers));
    let slot = slot_ticket(rt, numbers);
    returned_frame(rt, swap_out(rt, map, 2, slot)).close();
    let mut shared = shared_frame(rt, alloc, numbers, [0, 0]);
    supply_zero(rt, map, 3, zeroed(rt, alloc, numbers));
    share(rt, map, 3, &mut shared).close();
    shared
}

/// Asserts that an access of `size` bytes can be made at an address.
fn at(rt: &impl Abort, map: &GuestPages, address: u32, size: u32)
    requires { 0 < size }
    ensures there { address < length map.now * 4096 }
    ensures aligned { address % size ≡ 0 }
{
    if address / 4096 >= map.len() || address % size != 0 {
        panic!(rt; "no access of {size} bytes at {address}");
    }
}

fn get_byte(rt: &impl Abort, map: &GuestPages, address: u32) -> u8 {
    at(rt, map, address, 1);
    map.read_byte(address)
}

fn get_half(rt: &impl Abort, map: &GuestPages, address: u32) -> u16 {
    at(rt, map, address, 2);
    map.read_half(address)
}

fn get_word(rt: &impl Abort, map: &GuestPages, address: u32) -> u32 {
    at(rt, map, address, 4);
    map.read_word(address)
}

fn put_byte(rt: &impl Abort, map: &mut GuestPages, address: u32, byte: u8) {
    at(rt, map, address, 1);
    match map.kind(page_of(address)) {
        PageKind::Private => map.write_byte(address, byte),
        other => panic!(rt; "{address} is in a page that is {other:?}"),
    }
}

fn put_half(rt: &impl Abort, map: &mut GuestPages, address: u32, half: u16) {
    at(rt, map, address, 2);
    match map.kind(page_of(address)) {
        PageKind::Private => map.write_half(address, half),
        other => panic!(rt; "{address} is in a page that is {other:?}"),
    }
}

fn put_word(rt: &impl Abort, map: &mut GuestPages, address: u32, word: u32) {
    at(rt, map, address, 4);
    match map.kind(page_of(address)) {
        PageKind::Private => map.write_word(address, word),
        other => panic!(rt; "{address} is in a page that is {other:?}"),
    }
}

/// The SHA-256 of a page whose first byte is 1 and whose last is 0x5a, zeros between, by `sha256sum`.
const DIGEST: [u8; 32] = [
    0x31, 0x74, 0x4f, 0x20, 0x22, 0xa7, 0xc2, 0x04, 0x02, 0xd5, 0x08, 0x10, 0x75, 0x9b, 0xea, 0x02,
    0xb5, 0xe6, 0xc8, 0x5e, 0x79, 0x44, 0x64, 0xfe, 0x7a, 0x94, 0x0f, 0xf2, 0x7b, 0xfb, 0xf3, 0xd0,
];

#[test]
fn a_page_leaves_its_frame_and_comes_back(rt: HostRuntime) -> Result<(), Fail> {
    let mut map = GuestPages::new(rt.alloc(), 4)?;
    let mut numbers = Numbers::below(3);
    expect(&rt, "pages", map.len(), 4);
    expect(&rt, "untouched", kinds(&rt, &map), [PageKind::Zero; 4]);
    expect(&rt, "no frame", ends(&rt, &map, 0), None);

    supply_zero(&rt, &mut map, 0, zeroed(&rt, rt.alloc(), &mut numbers));
    supply_zero(&rt, &mut map, 3, zeroed(&rt, rt.alloc(), &mut numbers));
    put_byte(&rt, &mut map, 0, 1);
    put_byte(&rt, &mut map, 4095, 0x5a);
    let supplied = [
        PageKind::Private,
        PageKind::Zero,
        PageKind::Zero,
        PageKind::Private,
    ];
    expect(&rt, "supplied", kinds(&rt, &map), supplied);
    expect(&rt, "two frames", counts(&map), [2, 0, 0, 2]);

    let slot = slot_ticket(&rt, &mut numbers);
    let frame = returned_frame(&rt, swap_out(&rt, &mut map, 0, slot));
    let swapped = [
        PageKind::Swapped,
        PageKind::Zero,
        PageKind::Zero,
        PageKind::Private,
    ];
    expect(&rt, "swapped out", kinds(&rt, &map), swapped);
    expect(&rt, "one frame, one slot", counts(&map), [1, 0, 1, 1]);
    expect(&rt, "its slot and digest", away(&rt, &map, 0), (2, DIGEST));
    expect(&rt, "away", ends(&rt, &map, 0), None);
    expect(&rt, "zeros meanwhile", get_byte(&rt, &map, 4095), 0);
    expect(&rt, "its own frame", frame.number(), 0);
    expect(&rt, "with its bytes", frame.bytes()[4095], 0x5a);

    let slot = supply_swapped(&rt, &mut map, 0, frame);
    expect(&rt, "the slot again", slot.close(), 2);
    expect(&rt, "back", kinds(&rt, &map), supplied);
    expect(&rt, "the bytes again", ends(&rt, &map, 0), Some([1, 0x5a]));
    expect(&rt, "the other page", ends(&rt, &map, 3), Some([0, 0]));
    map.close();
    ended(&rt, numbers);
    Ok(())
}

#[test]
fn a_page_begins_in_a_slot(rt: HostRuntime) -> Result<(), Fail> {
    let mut map = GuestPages::new(rt.alloc(), 4)?;
    let mut numbers = Numbers::below(2);
    let slot = slot_ticket(&rt, &mut numbers);
    put_away(&rt, &mut map, 2, slot, DIGEST);
    let away_alone = [
        PageKind::Zero,
        PageKind::Zero,
        PageKind::Swapped,
        PageKind::Zero,
    ];
    expect(&rt, "put away", kinds(&rt, &map), away_alone);
    expect(&rt, "one slot, no frame", counts(&map), [0, 0, 1, 0]);
    expect(&rt, "its slot and digest", away(&rt, &map, 2), (0, DIGEST));
    expect(&rt, "in no frame", ends(&rt, &map, 2), None);
    expect(&rt, "zeros", get_byte(&rt, &map, 2 * 4096), 0);

    let frame = with_ends(&rt, rt.alloc(), &mut numbers, [1, 0x5a]);
    let slot = supply_swapped(&rt, &mut map, 2, frame);
    expect(&rt, "the slot again", slot.close(), 0);
    expect(&rt, "its bytes", ends(&rt, &map, 2), Some([1, 0x5a]));
    expect(&rt, "one frame", counts(&map), [1, 0, 0, 1]);
    map.close();
    ended(&rt, numbers);
    Ok(())
}

#[test]
fn a_page_shares_a_frame_and_gets_a_copy(rt: HostRuntime) -> Result<(), Fail> {
    let mut map = GuestPages::new(rt.alloc(), 4)?;
    let mut numbers = Numbers::below(3);
    supply_zero(&rt, &mut map, 3, zeroed(&rt, rt.alloc(), &mut numbers));
    put_byte(&rt, &mut map, 3 * 4096, 8);
    put_byte(&rt, &mut map, 3 * 4096 + 4095, 9);
    let mut shared = shared_frame(&rt, rt.alloc(), &mut numbers, [8, 9]);

    let frame = share(&rt, &mut map, 3, &mut shared);
    expect(&rt, "the frame that is free", frame.number(), 0);
    expect(&rt, "shared", kinds(&rt, &map)[3], PageKind::Shared);
    expect(&rt, "no frame of its own", counts(&map), [0, 1, 0, 1]);
    expect(&rt, "the same bytes", ends(&rt, &map, 3), Some([8, 9]));
    expect(&rt, "whose frame", shared_number(&rt, &map, 3), 1);

    let ticket = supply_copy(&rt, &mut map, 3, frame);
    expect(&rt, "its ticket", ticket.close(), 1);
    expect(&rt, "private", kinds(&rt, &map)[3], PageKind::Private);
    expect(&rt, "a copy", ends(&rt, &map, 3), Some([8, 9]));
    put_byte(&rt, &mut map, 3 * 4096, 7);
    expect(&rt, "written", ends(&rt, &map, 3), Some([7, 9]));
    expect(&rt, "the shared frame stays", shared.bytes()[0], 8);

    put_byte(&rt, &mut map, 3 * 4096, 8);
    share(&rt, &mut map, 3, &mut shared).close();
    let slot = slot_ticket(&rt, &mut numbers);
    let ticket = returned_ticket(&rt, swap_out(&rt, &mut map, 3, slot));
    expect(
        &rt,
        "the ticket of a page that is swapped out",
        ticket.close(),
        1,
    );
    expect(&rt, "in a slot", counts(&map), [0, 0, 1, 0]);
    shared.close();
    map.close();
    ended(&rt, numbers);
    Ok(())
}

#[test]
fn pages_of_each_kind_are_given(rt: HostRuntime) -> Result<(), Fail> {
    let mut map = GuestPages::new(rt.alloc(), 4)?;
    let mut numbers = Numbers::below(6);
    let shared = each_kind(&rt, rt.alloc(), &mut map, &mut numbers);
    let each = [
        PageKind::Private,
        PageKind::Zero,
        PageKind::Swapped,
        PageKind::Shared,
    ];
    expect(&rt, "each kind", kinds(&rt, &map), each);
    expect(&rt, "each counted", counts(&map), [1, 1, 1, 2]);

    let frame = returned_frame(&rt, give(&rt, &mut map, 0));
    expect(&rt, "its frame", frame.number(), 0);
    nothing(&rt, give(&rt, &mut map, 1));
    let slot = returned_slot(&rt, give(&rt, &mut map, 2));
    expect(&rt, "its slot", slot.close(), 2);
    let ticket = returned_ticket(&rt, give(&rt, &mut map, 3));
    expect(&rt, "its ticket", ticket.close(), 3);
    expect(&rt, "given", kinds(&rt, &map), [PageKind::Given; 4]);
    expect(&rt, "nothing is held", counts(&map), [0; 4]);
    nothing(&rt, give(&rt, &mut map, 0));

    supply_zero(&rt, &mut map, 0, zeroed(&rt, rt.alloc(), &mut numbers));
    expect(&rt, "zeros again", ends(&rt, &map, 0), Some([0, 0]));
    frame.close();
    shared.close();
    map.close();
    ended(&rt, numbers);
    Ok(())
}

#[test]
fn a_map_of_each_kind_is_closed(rt: HostRuntime) -> Result<(), Fail> {
    let mut map = GuestPages::new(rt.alloc(), 5)?;
    let mut numbers = Numbers::below(5);
    let shared = each_kind(&rt, rt.alloc(), &mut map, &mut numbers);
    nothing(&rt, give(&rt, &mut map, 4));
    map.close();
    shared.close();
    ended(&rt, numbers);
    Ok(())
}

#[test]
fn accesses_at_the_ends_of_the_first_and_the_last_page(rt: HostRuntime) -> Result<(), Fail> {
    let mut map = GuestPages::new(rt.alloc(), 4)?;
    let mut numbers = Numbers::below(2);
    supply_zero(&rt, &mut map, 0, zeroed(&rt, rt.alloc(), &mut numbers));
    supply_zero(&rt, &mut map, 3, zeroed(&rt, rt.alloc(), &mut numbers));
    for first in [0, 3 * 4096] {
        put_word(&rt, &mut map, first, 0x0403_0201);
        put_word(&rt, &mut map, first + 4092, 0x0807_0605);
        expect(&rt, "ends", ends(&rt, &map, first / 4096), Some([1, 8]));
        expect(&rt, "first word", get_word(&rt, &map, first), 0x0403_0201);
        expect(
            &rt,
            "last word",
            get_word(&rt, &map, first + 4092),
            0x0807_0605,
        );
        expect(&rt, "first half", get_half(&rt, &map, first), 0x0201);
        expect(&rt, "last half", get_half(&rt, &map, first + 4094), 0x0807);
        put_half(&rt, &mut map, first, 0xa1a0);
        put_half(&rt, &mut map, first + 4094, 0xa3a2);
        put_byte(&rt, &mut map, first + 1, 0xb1);
        put_byte(&rt, &mut map, first + 4095, 0xb3);
        expect(&rt, "first", get_word(&rt, &map, first), 0x0403_b1a0);
        expect(&rt, "last", get_word(&rt, &map, first + 4092), 0xb3a2_0605);
        expect(&rt, "first byte", get_byte(&rt, &map, first), 0xa0);
        expect(&rt, "last byte", get_byte(&rt, &map, first + 4095), 0xb3);
    }
    expect(&rt, "before", get_word(&rt, &map, 4096), 0);
    expect(&rt, "after", get_word(&rt, &map, 3 * 4096 - 4), 0);
    map.close();
    ended(&rt, numbers);
    Ok(())
}

#[test]
fn a_page_of_its_own_is_admitted(rt: HostRuntime) -> Result<(), Fail> {
    let mut shares = Shares::new(rt.alloc(), 1)?;
    let mut map = match GuestPages::new(rt.alloc(), 4) {
        Ok(map) => map,
        Err(refused) => {
            shares.close();
            return Err(refused.into());
        }
    };
    let mut numbers = Numbers::below(1);
    supply_zero(&rt, &mut map, 1, zeroed(&rt, rt.alloc(), &mut numbers));
    ended(&rt, numbers);
    put_byte(&rt, &mut map, 4096, 7);
    expect(&rt, "its frame", own_number(&rt, &map, 1), 0);
    let admitted = admit(&rt, &mut map, 1, &mut shares);
    expect(&rt, "admitted", admitted.is_ok(), true);
    expect(&rt, "shared", kinds(&rt, &map)[1], PageKind::Shared);
    expect(&rt, "whose frame", shared_number(&rt, &map, 1), 0);
    expect(&rt, "its byte", get_byte(&rt, &map, 4096), 7);
    expect(&rt, "how many", counts(&map), [0, 1, 0, 1]);
    expect(&rt, "entries", (shares.shared(), shares.tickets()), (1, 1));
    map.close();
    shares.close();
    Ok(())
}

/// The first page from a number on that is in a frame.
fn next(rt: &impl Abort, map: &GuestPages, from: u32) -> Option<u32> {
    if map.len() > 1 << 20 {
        panic!(rt; "{} are too many pages", map.len());
    }
    match map.next_resident(from) {
        Some(page) => Some(page.number()),
        None => None,
    }
}

/// How many pages a map has, and the number of the one page of it that is in a frame.
static ALONE: [(u32, u32); 9] = [
    (1, 0),
    (63, 62),
    (64, 63),
    (65, 64),
    (4_097, 0),
    (4_097, 63),
    (4_097, 4_095),
    (4_097, 4_096),
    (20_000, 19_999),
];

/// One page gets a frame and leaves it, in a map of otherwise untouched pages.
fn alone(rt: &impl Abort, alloc: Global, count: u32, number: u32) -> Result<(), AllocError> {
    let mut map = GuestPages::new(alloc, count)?;
    let mut numbers = Numbers::below(2);
    expect(rt, "at first", next(rt, &map, 0), None);
    supply_zero(rt, &mut map, number, zeroed(rt, alloc, &mut numbers));
    let past = number.saturating_add(1);
    expect(rt, "from the first page", next(rt, &map, 0), Some(number));
    expect(rt, "from itself", next(rt, &map, number), Some(number));
    expect(rt, "from past it", next(rt, &map, past), None);
    expect(rt, "from nowhere", next(rt, &map, u32::MAX), None);
    let slot = slot_ticket(rt, &mut numbers);
    returned_frame(rt, swap_out(rt, &mut map, number, slot)).close();
    expect(rt, "away", next(rt, &map, 0), None);
    map.close();
    ended(rt, numbers);
    Ok(())
}

#[test]
fn the_one_page_in_a_frame_is_found(rt: HostRuntime) -> Result<(), Fail> {
    for (count, number) in &ALONE {
        alone(&rt, rt.alloc(), *count, *number)?;
    }
    Ok(())
}

#[test]
fn pages_in_frames_are_found_one_after_another(rt: HostRuntime) -> Result<(), Fail> {
    let mut map = GuestPages::new(rt.alloc(), 4_097)?;
    let mut numbers = Numbers::below(5);
    for number in [3, 64, 4_096] {
        supply_zero(&rt, &mut map, number, zeroed(&rt, rt.alloc(), &mut numbers));
    }
    for (from, found) in [
        (0, 3),
        (3, 3),
        (4, 64),
        (64, 64),
        (65, 4_096),
        (4_096, 4_096),
    ] {
        expect(&rt, "of three", next(&rt, &map, from), Some(found));
    }
    expect(&rt, "past the last", next(&rt, &map, 4_097), None);
    let slot = slot_ticket(&rt, &mut numbers);
    returned_frame(&rt, swap_out(&rt, &mut map, 64, slot)).close();
    expect(&rt, "one is away", next(&rt, &map, 4), Some(4_096));
    let frame = zeroed(&rt, rt.alloc(), &mut numbers);
    supply_swapped(&rt, &mut map, 64, frame).close();
    expect(&rt, "it is back", next(&rt, &map, 4), Some(64));
    returned_frame(&rt, give(&rt, &mut map, 3)).close();
    expect(&rt, "one is given", next(&rt, &map, 0), Some(64));
    map.close();
    ended(&rt, numbers);
    Ok(())
}
