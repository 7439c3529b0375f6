//! A pen and its seats with ample memory, in one thread and in two.
ghost use Rattle.std.specs.Prelude.{◌≡◌};

use crate::{Head, Pen, Seat};
use items::{Item, SeatNo, What, WriteBytes};
use std::process::Abort;
use std::sync::{Arc, Wait};
use std::test::Fail;
use std::thread;

// Longer than any log of these tests.
const LIMIT: u64 = 1 << 20;

// Copies of an item of the seat's own.
fn append(rt: &impl Abort, head: &Head, pen: &mut Pen, seat: &mut Seat, what: What, times: u64)
    requires { (pen.old.head ≡ head.now) × (seat.old.head ≡ head.now) }
    ensures { (pen.new.head ≡ head.now) × (seat.new.head ≡ head.now) }
{
    assert!(rt; pen.len() < LIMIT && times < LIMIT);
    let item = Item {
        seat: seat.number(),
        what,
    };
    if times == 1 {
        head.append(pen, seat, &item);
    } else {
        head.append_many(pen, seat, &item, times);
    }
}

// A step of the seat's own.
fn step(rt: &impl Abort, head: &Head, pen: &mut Pen, seat: &mut Seat)
    requires { (pen.old.head ≡ head.now) × (seat.old.head ≡ head.now) }
    ensures { (pen.new.head ≡ head.now) × (seat.new.head ≡ head.now) }
{
    assert!(rt; pen.len() < LIMIT);
    head.append_step(pen, seat);
}

#[test]
fn seats_see_what_others_append(rt: HostRuntime) -> Result<(), Fail> {
    let (head, mut pen) = Head::new(rt.alloc())?;
    assert!(rt; pen.is_empty() && pen.seats() == 0);
    let mut first = head.seat(&mut pen);
    let mut second = head.seat(&mut pen);
    let mut third = head.seat(&mut pen);
    assert_eq!(rt; first.number(), SeatNo::runner());
    assert_eq!(rt; third.number(), SeatNo::new(2));
    assert_eq!(rt; pen.seats(), 3);
    assert_eq!(rt; head.look(&mut first), 0);

    append(&rt, &head, &mut pen, &mut first, What::Step, 1);
    assert_eq!(rt; [pen.len(), first.seen_len(), second.seen_len()], [1, 1, 0]);
    assert_eq!(rt; head.look(&mut second), 1, "after an append");
    append(&rt, &head, &mut pen, &mut second, What::In(7), 5);
    assert_eq!(rt; [pen.len(), second.seen_len()], [6, 6]);
    assert_eq!(rt; head.look(&mut first), 6, "after several at once");
    let bytes = WriteBytes::from_vec([1, 2, 3].to_vec(rt.alloc())?);
    append(
        &rt,
        &head,
        &mut pen,
        &mut third,
        What::Write { address: 0, bytes },
        2,
    );
    append(&rt, &head, &mut pen, &mut first, What::Drain, 0);
    assert_eq!(rt; [pen.len(), first.seen_len(), third.seen_len()], [8, 8, 8]);
    assert_eq!(rt; head.look(&mut second), 8, "after none");
    assert!(rt; !pen.is_empty());
    Ok(())
}

#[test]
fn steps_are_seen_once_published(rt: HostRuntime) -> Result<(), Fail> {
    let (head, mut pen) = Head::new(rt.alloc())?;
    let mut first = head.seat(&mut pen);
    let mut second = head.seat(&mut pen);
    step(&rt, &head, &mut pen, &mut first);
    step(&rt, &head, &mut pen, &mut first);
    assert_eq!(rt; [pen.len(), first.seen_len()], [2, 2]);
    assert_eq!(rt; head.look(&mut first), 2, "a look never goes back");
    head.publish(&mut pen);
    assert_eq!(rt; head.look(&mut second), 2, "after publish");

    step(&rt, &head, &mut pen, &mut second);
    head.settle(&mut pen, &mut first);
    assert_eq!(rt; first.seen_len(), 3, "with the pen, at once");
    step(&rt, &head, &mut pen, &mut first);
    append(&rt, &head, &mut pen, &mut second, What::Drain, 1);
    assert_eq!(rt; head.look(&mut first), 5, "an append after steps");
    Ok(())
}

#[test]
fn seats_that_meet_have_seen_the_same(rt: HostRuntime) -> Result<(), Fail> {
    let (head, mut pen) = Head::new(rt.alloc())?;
    let mut first = head.seat(&mut pen);
    let mut second = head.seat(&mut pen);
    let mut third = head.seat(&mut pen);
    step(&rt, &head, &mut pen, &mut first);
    head.meet(&mut first, &mut second);
    assert_eq!(rt;
        [first.seen_len(), second.seen_len()],
        [1, 1],
        "what the first saw"
    );
    step(&rt, &head, &mut pen, &mut second);
    step(&rt, &head, &mut pen, &mut second);
    head.meet(&mut first, &mut second);
    assert_eq!(rt;
        [first.seen_len(), second.seen_len()],
        [3, 3],
        "what the second saw"
    );
    append(&rt, &head, &mut pen, &mut third, What::Drain, 1);
    head.meet(&mut first, &mut second);
    assert_eq!(rt;
        [first.seen_len(), second.seen_len()],
        [4, 4],
        "what the word says"
    );
    assert_eq!(rt; first.number(), SeatNo::new(0));
    assert_eq!(rt; second.number(), SeatNo::new(1));
    Ok(())
}

// Appends so many items, each in one of three ways, and answers how long the log then is.
fn append_all(rt: &impl Abort, head: &Head, mut pen: Pen, mut seat: Seat, count: u64) -> u64
    requires { (pen.head ≡ head.now) × (seat.head ≡ head.now) }
{
    for k in 0..count {
        if k % 3 == 0 {
            append(rt, head, &mut pen, &mut seat, What::In(1), 1);
        } else {
            step(rt, head, &mut pen, &mut seat);
        }
        if k % 64 == 0 {
            head.publish(&mut pen);
        }
    }
    head.publish(&mut pen);
    pen.len()
}

// Looks until so many items are seen. The greatest length that was seen, and whether none was less than the one before.
fn see_all(rt: &impl Wait, head: &Head, mut seat: Seat, count: u64) -> (u64, bool)
    requires { seat.head ≡ head.now }
{
    let mut rises = true;
    let mut last = 0;
    for _ in rt.forever() {
        let seen = head.look(&mut seat);
        rises = rises && last <= seen;
        last = seen;
        if seen >= count {
            break;
        }
        thread::yield_now();
    }
    (last, rises)
}

#[test]
fn a_look_beside_appends_never_goes_back(rt: HostRuntime) -> Result<(), Fail> {
    let (head, mut pen) = Head::new(rt.alloc())?;
    let writer = head.seat(&mut pen);
    let reader = head.seat(&mut pen);
    let (length, seen) = thread::join(
        &rt,
        || append_all(&rt, &head, pen, writer, 10_000),
        || see_all(&rt, &head, reader, 10_000),
    );
    assert_eq!(rt; length, 10_000);
    assert_eq!(rt; seen, (10_000, true));
    Ok(())
}

#[test]
fn a_head_is_shared_by_its_owners(rt: HostRuntime) -> Result<(), Fail> {
    let (head, mut pen) = Head::new(rt.alloc())?;
    let mut seat = head.seat(&mut pen);
    let head = Arc::new(rt.alloc(), head)?;
    let other = Arc::try_clone(&head)?;
    append(&rt, &head, &mut pen, &mut seat, What::Drain, 1);
    let reader = thread::spawn(&rt, move || other.look(&mut seat))?;
    assert_eq!(rt; reader.join(&rt), 1);
    Ok(())
}
