//! The way of a frame and of a slot with ample memory.
ghost use Rattle.std.specs.Prelude.{◌≡◌, ◌+◌};
ghost use Rattle.frames.specs.Frames.{SharedIs};

use crate::{Frame, FrameNo, Numbers, SharePage, ShareTicket, SharedFrame, SlotTicket};
use std::alloc::Global;
use std::fmt::Debug;
use std::process::Abort;

/// Asserts one case. The tests share it, since each assertion in a function's own body makes its proof much longer.
fn expect<T: PartialEq + Debug + Drop>(rt: &impl Abort, case: &'static str, got: T, wanted: T) {
    assert!(rt; got == wanted, "{case}: {got:?}, not {wanted:?}");
}

fn frame_number(rt: &impl Abort, numbers: &mut Numbers) -> FrameNo {
    match numbers.next_frame() {
        Some(no) => no,
        None => panic!(rt; "no number is left"),
    }
}

fn slot_ticket(rt: &impl Abort, numbers: &mut Numbers) -> SlotTicket {
    match numbers.next_slot() {
        Some(ticket) => ticket,
        None => panic!(rt; "no number is left"),
    }
}

fn zeroed(rt: &impl Abort, alloc: Global, no: FrameNo) -> Frame {
    match Frame::zeroed(alloc, no) {
        Ok(frame) => frame,
        Err(no) => panic!(rt; "no memory for frame {}", no.close()),
    }
}

fn shared(rt: &impl Abort, alloc: Global, frame: Frame) -> (SharedFrame, SharePage, ShareTicket)
    ensures tickets { result.0.tickets ≡ 1 }
    ensures ticket { result.2 ≡ result.0.number }
{
    match frame.share(alloc) {
        Ok(made) => made,
        Err(frame) => panic!(rt; "no memory to share frame {}", frame.close()),
    }
}

fn joined(rt: &impl Abort, shared: &mut SharedFrame) -> (SharePage, ShareTicket)
    ensures ticket { result.1 ≡ shared.old.number }
    ensures counted { shared.new ≡ record shared.old { tickets = shared.old.tickets + 1 } }
{
    match shared.join() {
        Ok(joined) => joined,
        Err(_) => panic!(rt; "no further reader"),
    }
}

fn ended(rt: &impl Abort, mut numbers: Numbers) {
    match numbers.next_frame() {
        Some(no) => panic!(rt; "number {} is left", no.close()),
        None => numbers.close(),
    }
}

#[test]
fn slots_have_their_numbers(rt: HostRuntime) {
    let mut numbers = Numbers::below(2);
    let first = slot_ticket(&rt, &mut numbers);
    let second = slot_ticket(&rt, &mut numbers);
    ended(&rt, numbers);
    expect(&rt, "the first number", first.number(), 0);
    expect(&rt, "in rising order", first < second, true);
    expect(&rt, "the first, given up", first.close(), 0);
    expect(&rt, "the second, given up", second.close(), 1);
}

#[test]
fn a_frame_holds_a_page(rt: HostRuntime) {
    let mut numbers = Numbers::below(2);
    let no = frame_number(&rt, &mut numbers);
    expect(&rt, "the first number", no.number(), 0);
    expect(&rt, "the first, given up", no.close(), 0);
    let no = frame_number(&rt, &mut numbers);
    ended(&rt, numbers);
    let mut frame = zeroed(&rt, rt.alloc(), no);
    expect(&rt, "bytes", frame.bytes().len(), 4096);
    expect(&rt, "zeros", frame.bytes().iter().all(|b| *b == 0), true);
    frame.bytes_mut()[4095] = 9;
    expect(&rt, "the last byte", frame.bytes()[4095], 9);
    frame.copy_from(&[7; 4096]);
    expect(&rt, "copied", frame.bytes().iter().all(|b| *b == 7), true);
    expect(&rt, "the number of the frame", frame.number(), 1);
    expect(&rt, "the frame, given up", frame.strip().close(), 1);
}

#[test]
fn a_shared_frame_counts_its_tickets(rt: HostRuntime) {
    let mut numbers = Numbers::below(1);
    let no = frame_number(&rt, &mut numbers);
    ended(&rt, numbers);
    let mut frame = zeroed(&rt, rt.alloc(), no);
    frame.bytes_mut()[5] = 1;
    let (mut shared, page, ticket) = shared(&rt, rt.alloc(), frame);
    expect(&rt, "one ticket", shared.tickets(), 1);
    expect(&rt, "its bytes", shared.bytes()[5], 1);
    let (other, second) = joined(&rt, &mut shared);
    expect(&rt, "two tickets", shared.tickets(), 2);
    expect(&rt, "the byte of a reader", page.bytes()[5], 1);
    expect(&rt, "the frame of a reader", other.number(), 0);
    expect(&rt, "the frame of a ticket", second.number(), 0);
    let copy = page.clone().expect(&rt, "a further reader");
    shared.leave(ticket);
    shared.leave(second);
    expect(&rt, "all tickets are back", shared.tickets(), 0);
    expect(&rt, "the number", shared.number(), 0);
    expect(&rt, "the frame again", shared.strip().close(), 0);
    expect(&rt, "a reader still reads", copy.bytes()[5], 1);
}
