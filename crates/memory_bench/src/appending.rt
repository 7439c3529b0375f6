//! Rounds over the head of a log. Each is a call, so that pen and seat lie in memory, as they do between the steps of a guest.
ghost use Rattle.std.specs.Prelude.{◌≡◌, ◌+◌, ◌<◌, ◌^◌, length, IfOk};

use items::{Item, What};
use log_seats::{Head, Pen, Seat};
use std::alloc::{AllocError, Global};

#[inline(never)]
fn append_step(head: &Head, pen: &mut Pen, seat: &mut Seat)
    requires heads { (pen.old.head ≡ head.now) × (seat.old.head ≡ head.now) }
    requires room { length pen.old.log < 2 ^ 62 }
    ensures heads { (pen.new.head ≡ head.now) × (seat.new.head ≡ head.now) }
    ensures length { length pen.new.log ≡ length pen.old.log + 1 }
{
    head.append_step(pen, seat);
}

/// Appends so many steps, one after another; the length of the log.
pub fn append_steps(alloc: Global, count: u32) -> Result<u64, AllocError>
    ensures { IfOk result (λ answer. answer ≡ count) }
{
    let (head, mut pen) = Head::new(alloc)?;
    let mut seat = head.seat(&mut pen);
    for _round in 0..count {
        append_step(&head, &mut pen, &mut seat);
    }
    Ok(pen.len())
}

#[inline(never)]
fn append(head: &Head, pen: &mut Pen, seat: &mut Seat, item: &Item)
    requires heads { (pen.old.head ≡ head.now) × (seat.old.head ≡ head.now) }
    requires own { item.now.seat ≡ seat.old.number }
    requires room { length pen.old.log < 2 ^ 62 }
    ensures heads { (pen.new.head ≡ head.now) × (seat.new.head ≡ head.now) }
    ensures own { item.now.seat ≡ seat.new.number }
    ensures length { length pen.new.log ≡ length pen.old.log + 1 }
{
    head.append(pen, seat, item);
}

/// Appends so many items, one after another, each shown to other seats; the length of the log.
pub fn append_items(alloc: Global, count: u32) -> Result<u64, AllocError>
    ensures { IfOk result (λ answer. answer ≡ count) }
{
    let (head, mut pen) = Head::new(alloc)?;
    let mut seat = head.seat(&mut pen);
    let item = Item {
        seat: seat.number(),
        what: What::Drain,
    };
    for _round in 0..count {
        append(&head, &mut pen, &mut seat, &item);
    }
    Ok(pen.len())
}

#[inline(never)]
fn look(head: &Head, seat: &mut Seat) -> u64
    requires { seat.old.head ≡ head.now }
    ensures { seat.new.head ≡ head.now }
{
    head.look(seat)
}

/// Looks so many times at a log of one item; the sum of what was seen.
pub fn looks(alloc: Global, count: u32) -> Result<u64, AllocError> {
    let (head, mut pen) = Head::new(alloc)?;
    let mut maker = head.seat(&mut pen);
    let mut seat = head.seat(&mut pen);
    append_step(&head, &mut pen, &mut maker);
    head.publish(&mut pen);
    let mut sum: u64 = 0;
    for _round in 0..count {
        sum = sum.wrapping_add(look(&head, &mut seat));
    }
    Ok(sum)
}
