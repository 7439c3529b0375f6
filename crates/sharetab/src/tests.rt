//! Pages that are noted, shared and left. Each call that was refused memory is made again, so where one request for memory
//! is refused, all answers are those with ample memory.
ghost use Rattle.std.specs.Prelude.{◌≡◌, ◌<◌, ◌^◌};
ghost use Rattle.sharetab.specs.Shares.{Answers};

use crate::{GuestPage, Offer, Shares};
use frames::{Frame, FrameNo, Numbers, SharePage, ShareTicket};
use guest_number::GuestNo;
use sha2::{Digest, Sha256};
use std::alloc::Global;
use std::fmt::Debug;
use std::process::Abort;
use word32::Ppn;

/// Asserts one case. The tests share it, since each assertion in a function's own body makes its proof much longer.
fn expect<T: PartialEq + Debug + Drop>(rt: &impl Abort, case: &'static str, got: T, wanted: T) {
    assert!(rt; got == wanted, "{case}: {got:?}, not {wanted:?}");
}

fn guest_page(guest: u32, page: u32) -> GuestPage
    requires { page < 2 ^ 20 }
{
    GuestPage {
        guest: GuestNo::new(guest),
        page: Ppn::new(page),
    }
}

fn table(rt: &impl Abort, alloc: Global) -> Shares {
    match Shares::new(alloc, 4) {
        Ok(shares) => shares,
        Err(_) => match Shares::new(alloc, 4) {
            Ok(shares) => shares,
            Err(_) => panic!(rt; "no memory for the table"),
        },
    }
}

fn ended(rt: &impl Abort, mut numbers: Numbers) {
    match numbers.next_frame() {
        Some(no) => panic!(rt; "number {} is left", no.close()),
        None => numbers.close(),
    }
}

fn zeroed(rt: &impl Abort, alloc: Global, no: FrameNo) -> Frame {
    match Frame::zeroed(alloc, no) {
        Ok(frame) => frame,
        Err(no) => match Frame::zeroed(alloc, no) {
            Ok(frame) => frame,
            Err(no) => panic!(rt; "no memory for frame {}", no.close()),
        },
    }
}

/// A frame whose bytes are all the same.
fn frame_of(rt: &impl Abort, alloc: Global, numbers: &mut Numbers, byte: u8) -> Frame {
    match numbers.next_frame() {
        Some(no) => {
            let mut frame = zeroed(rt, alloc, no);
            frame.bytes_mut().fill(byte);
            frame
        }
        None => panic!(rt; "no number is left"),
    }
}

fn offered_of(rt: &impl Abort, shares: &mut Shares, digest: &[u8; 32], page: &GuestPage) -> Offer
    ensures answer { Answers shares.old digest.now page.now result }
    ensures entries { shares.new.entries ≡ shares.old.entries }
{
    match shares.offer(digest, *page) {
        Ok(offer) => offer,
        Err(_) => match shares.offer(digest, *page) {
            Ok(offer) => offer,
            Err(_) => panic!(rt; "no memory for the hint"),
        },
    }
}

fn offered(rt: &impl Abort, shares: &mut Shares, byte: u8, page: GuestPage) -> Offer {
    offered_of(rt, shares, &Sha256::digest(&[byte; 4096]), &page)
}

fn admitted(rt: &impl Abort, shares: &mut Shares, frame: Frame) -> (SharePage, ShareTicket) {
    let digest = Sha256::digest(frame.bytes());
    match offered_of(rt, shares, &digest, &guest_page(9, 9)) {
        Offer::Taken => panic!(rt; "the digest of frame {} is taken", frame.close()),
        Offer::Match(_other) => {}
        Offer::Noted => {}
    }
    if !shares.is_vacant(frame.number()) {
        panic!(rt; "the place of frame {} is not vacant", frame.close());
    }
    match shares.admit(frame) {
        Ok(admitted) => admitted,
        Err(frame) => match shares.admit(frame) {
            Ok(admitted) => admitted,
            Err(frame) => panic!(rt; "no memory to share frame {}", frame.close()),
        },
    }
}

fn joined(rt: &impl Abort, shares: &mut Shares, byte: u8) -> (SharePage, ShareTicket) {
    match shares.join(&[byte; 4096]) {
        Ok(Some(joined)) => joined,
        Ok(None) => panic!(rt; "no entry has the bytes"),
        Err(_) => panic!(rt; "no further reader"),
    }
}

fn not_joined(rt: &impl Abort, shares: &mut Shares, byte: u8) {
    match shares.join(&[byte; 4096]) {
        Ok(Some((_page, ticket))) => panic!(rt; "frame {} has the bytes", ticket.close()),
        Ok(None) => {}
        Err(_) => panic!(rt; "no further reader"),
    }
}

/// Takes a ticket back: the number of the frame, where it was the last.
fn left(rt: &impl Abort, shares: &mut Shares, ticket: ShareTicket) -> Option<u32> {
    if shares.tickets_of(ticket.number()) == 0 {
        panic!(rt; "no ticket of frame {} is out", ticket.close());
    }
    match shares.leave(ticket) {
        Some(no) => Some(no.close()),
        None => None,
    }
}

fn counts(rt: &impl Abort, case: &'static str, shares: &Shares, entries: u32, tickets: u64) {
    expect(
        rt,
        case,
        (shares.shared(), shares.tickets()),
        (entries, tickets),
    );
}

#[test]
fn pages_of_one_digest_are_offered(rt: HostRuntime) {
    let mut numbers = Numbers::below(1);
    let mut shares = table(&rt, rt.alloc());
    let frame = frame_of(&rt, rt.alloc(), &mut numbers, 7);
    ended(&rt, numbers);
    expect(
        &rt,
        "the first is noted",
        offered(&rt, &mut shares, 7, guest_page(0, 3)),
        Offer::Noted,
    );
    expect(
        &rt,
        "again",
        offered(&rt, &mut shares, 7, guest_page(0, 3)),
        Offer::Noted,
    );
    expect(
        &rt,
        "the second",
        offered(&rt, &mut shares, 7, guest_page(1, 3)),
        Offer::Match(guest_page(0, 3)),
    );
    expect(&rt, "no entry yet", shares.shared(), 0);
    let (page, ticket) = admitted(&rt, &mut shares, frame);
    expect(
        &rt,
        "the third",
        offered(&rt, &mut shares, 7, guest_page(2, 3)),
        Offer::Taken,
    );
    expect(
        &rt,
        "the fourth",
        offered(&rt, &mut shares, 7, guest_page(3, 3)),
        Offer::Taken,
    );
    expect(
        &rt,
        "another digest",
        offered(&rt, &mut shares, 8, guest_page(0, 3)),
        Offer::Noted,
    );
    expect(&rt, "the page to read", page.bytes()[4095], 7);
    expect(
        &rt,
        "the frame is free",
        left(&rt, &mut shares, ticket),
        Some(0),
    );
    expect(
        &rt,
        "its digest is no hint of page 3",
        offered(&rt, &mut shares, 7, guest_page(4, 3)),
        Offer::Noted,
    );
    shares.close();
}

#[test]
fn the_last_ticket_frees_the_frame(rt: HostRuntime) {
    let mut numbers = Numbers::below(1);
    let mut shares = table(&rt, rt.alloc());
    let frame = frame_of(&rt, rt.alloc(), &mut numbers, 7);
    ended(&rt, numbers);
    let (_page, first) = admitted(&rt, &mut shares, frame);
    let (_page, second) = joined(&rt, &mut shares, 7);
    let (page, third) = joined(&rt, &mut shares, 7);
    counts(&rt, "three tickets", &shares, 1, 3);
    expect(
        &rt,
        "the second is not the last",
        left(&rt, &mut shares, second),
        None,
    );
    expect(&rt, "nor is the first", left(&rt, &mut shares, first), None);
    counts(&rt, "one ticket", &shares, 1, 1);
    expect(&rt, "the third is", left(&rt, &mut shares, third), Some(0));
    counts(&rt, "no ticket", &shares, 0, 0);
    expect(&rt, "a vacant place", shares.is_vacant(0), true);
    expect(&rt, "a reader still reads", page.bytes()[0], 7);
    shares.close();
}

#[test]
fn two_frames_are_shared_and_freed(rt: HostRuntime) {
    let mut numbers = Numbers::below(2);
    let mut shares = table(&rt, rt.alloc());
    let first = frame_of(&rt, rt.alloc(), &mut numbers, 1);
    let second = frame_of(&rt, rt.alloc(), &mut numbers, 2);
    ended(&rt, numbers);
    let (_page, of_second) = admitted(&rt, &mut shares, second);
    let (_page, of_first) = admitted(&rt, &mut shares, first);
    counts(&rt, "two entries", &shares, 2, 2);
    not_joined(&rt, &mut shares, 3);
    let (page, again) = joined(&rt, &mut shares, 2);
    expect(
        &rt,
        "the second frame",
        (page.number(), page.bytes()[9], again.number()),
        (1, 2, 1),
    );
    expect(
        &rt,
        "its tickets",
        (shares.tickets_of(1), shares.tickets_of(0)),
        (2, 1),
    );
    expect(
        &rt,
        "the first goes",
        left(&rt, &mut shares, of_first),
        Some(0),
    );
    expect(
        &rt,
        "the second stays",
        left(&rt, &mut shares, of_second),
        None,
    );
    counts(&rt, "one entry", &shares, 1, 1);
    expect(
        &rt,
        "the second goes",
        left(&rt, &mut shares, again),
        Some(1),
    );
    expect(&rt, "a place is vacant", shares.is_vacant(1), true);
    expect(
        &rt,
        "there are four places",
        (shares.is_vacant(3), shares.is_vacant(4)),
        (true, false),
    );
    shares.close();
}

// Pages 5 of guests 0 and 1 are equal: the first is noted, the second becomes an entry, and the first joins it.
#[test]
fn two_equal_pages_become_one_entry(rt: HostRuntime) {
    let mut numbers = Numbers::below(2);
    let mut shares = table(&rt, rt.alloc());
    let of_guest_0 = frame_of(&rt, rt.alloc(), &mut numbers, 0x11);
    let of_guest_1 = frame_of(&rt, rt.alloc(), &mut numbers, 0x11);
    ended(&rt, numbers);
    expect(
        &rt,
        "of guest 0",
        offered(&rt, &mut shares, 0x11, guest_page(0, 5)),
        Offer::Noted,
    );
    expect(
        &rt,
        "of guest 1",
        offered(&rt, &mut shares, 0x11, guest_page(1, 5)),
        Offer::Match(guest_page(0, 5)),
    );
    let (_page, first) = admitted(&rt, &mut shares, of_guest_1);
    expect(
        &rt,
        "of guest 0 again",
        offered(&rt, &mut shares, 0x11, guest_page(0, 5)),
        Offer::Taken,
    );
    let (page, second) = joined(&rt, &mut shares, of_guest_0.bytes()[0]);
    expect(&rt, "its own frame is free", of_guest_0.strip().close(), 0);
    expect(
        &rt,
        "both read frame 1",
        (page.number(), first.number(), second.number()),
        (1, 1, 1),
    );
    counts(&rt, "one entry, two tickets", &shares, 1, 2);
    expect(&rt, "guest 1 leaves", left(&rt, &mut shares, first), None);
    counts(&rt, "one entry, one ticket", &shares, 1, 1);
    expect(
        &rt,
        "guest 0 leaves",
        left(&rt, &mut shares, second),
        Some(1),
    );
    shares.close();
}
