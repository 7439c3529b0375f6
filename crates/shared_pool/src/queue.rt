//! The steps of the queue of free frames.
ghost use Rattle.std.specs.Prelude.{◌≡◌, ◌-◌, ◌<◌, ◌≤◌, List, [], length, IfOk, OnOk, OnErr, IfErr, IfSome, IfNone};
ghost use Rattle.std.specs.List.{range_with_len};
ghost use Rattle.crossbeam_queue.specs.Passes.{view, IsPassOf, ruled_capacity};
ghost use Rattle.accounts.specs.declared.account.Account.TheVariants.{Frame};
ghost use Rattle.accounts.specs.OwnerShares.{share_of};
ghost use Rattle.shared_pool.specs.Resting.{RestingIs};
ghost use Rattle.shared_pool.specs.Balance.{hand, all_parts, first_hand, hand_put, hand_taken, with_other, Stands};

use crate::hand::Hand;
use crate::resting::Resting;
use crate::rule::{Cut, EachOnce, Found, Founding, Put, Take};
use accounts::{BookShare, Books};
use crossbeam_queue::{Pass, RuledArrayQueue};
use frames::FrameNo;
use std::alloc::{AllocError, Global};
use std::marker::Brand;
use std::sync::Wait;

/// The frames that wait.
pub type FrameQueue = RuledArrayQueue<Resting, Hand, EachOnce>;

/// What a pass takes its steps with. It has no bytes.
pub type QueuePass = Pass<Resting, Hand>;

// Says which frames there are, and of which books their accounts are; both are for the proof alone.
fn found<N: Founding>(queue: &FrameQueue, pass: &mut QueuePass, _frames: u32, _books: &Books)
    requires pass { IsPassOf queue.now pass.old }
    requires first { view pass.old ≡ first_hand }
    requires numbers { N.numbers ≡ range_with_len 0 _frames }
    requires ledger { N.ledger ≡ _books.now.id }
    ensures pass { IsPassOf queue.now pass.new }
    ensures founded { view pass.new ≡ hand all_parts (range_with_len 0 _frames) [] (range_with_len 0 _frames) _books.now.id }
{
    drop(queue.another::<Found<N>>(pass));
}

// A queue with room for so many frames, which has none, and the pass that has all parts.
pub fn new(alloc: Global, frames: u32, books: &Books) -> Result<(FrameQueue, QueuePass), AllocError>
    requires { 0 < frames }
    ensures room { IfOk result (λ made. ruled_capacity made.0 ≡ frames) }
    ensures pass { IfOk result (λ made. IsPassOf made.0 made.1) }
    ensures hand { IfOk result (λ made. view made.1 ≡ hand all_parts (range_with_len 0 frames) [] (range_with_len 0 frames) books.now.id) }
{
    let (queue, mut pass) = FrameQueue::ruled(alloc, frames as usize)?;
    found::<Brand>(&queue, &mut pass, frames, books);
    Ok((queue, pass))
}

// A pass of one part, which has put and taken nothing.
pub fn another(queue: &FrameQueue, pass: &mut QueuePass) -> QueuePass
    requires pass { IsPassOf queue.now pass.old }
    requires parts { 1 < (view pass.old).parts }
    ensures pass { IsPassOf queue.now pass.new × IsPassOf queue.now result }
    ensures left { view pass.new ≡ record (view pass.old) { parts = (view pass.old).parts - 1 } }
    ensures new { view result ≡ hand 1 (view pass.old).whole [] [] (view pass.old).of }
{
    queue.another::<Cut>(pass)
}

// A pass takes in another.
pub fn absorb(queue: &FrameQueue, pass: &mut QueuePass, other: QueuePass)
    requires passes { IsPassOf queue.now pass.old × IsPassOf queue.now other }
    requires part { 0 < (view pass.old).parts }
    ensures pass { IsPassOf queue.now pass.new }
    ensures both { view pass.new ≡ with_other (view pass.old) (view other) }
{
    queue.absorb::<Cut>(pass, other);
}

// Takes the frame that waits longest.
pub fn take<R: Wait>(
    rt: &R,
    queue: &FrameQueue,
    pass: &mut QueuePass,
) -> Option<(FrameNo, BookShare)>
    requires pass { IsPassOf queue.now pass.old }
    requires part { 0 < (view pass.old).parts }
    ensures pass { IsPassOf queue.now pass.new }
    ensures taken { IfSome result (λ free. view pass.new ≡ hand_taken (view pass.old) free.0) }
    ensures account { IfSome result (λ free. free.1 ≡ share_of (view pass.old).of (Frame free.0)) }
    ensures unchanged { IfNone result (view pass.new ≡ view pass.old) }
    ensures none { IfNone result (Stands (view pass.old) []) }
{
    match queue.pop_as::<Take, R>(rt, pass) {
        Some(resting) => Some(resting.into_parts()),
        None => None,
    }
}

// Puts a frame behind all that wait, if there is room.
pub fn put<R: Wait>(
    rt: &R,
    queue: &FrameQueue,
    pass: &mut QueuePass,
    no: FrameNo,
    share: BookShare,
) -> Result<(), (FrameNo, BookShare)>
    requires pass { IsPassOf queue.now pass.old }
    requires part { 0 < (view pass.old).parts }
    requires share { share ≡ share_of (view pass.old).of (Frame no) }
    ensures pass { IsPassOf queue.now pass.new }
    ensures put { OnOk result (view pass.new ≡ hand_put (view pass.old) no) }
    ensures unchanged { OnErr result (view pass.new ≡ view pass.old) }
    ensures back { IfErr result (λ back. (back.0 ≡ no) × (back.1 ≡ share)) }
{
    match queue.push_as::<Put, R>(rt, pass, Resting::new(no, share)) {
        Ok(()) => Ok(()),
        Err(resting) => Err(resting.into_parts()),
    }
}

// How many frames waited at a moment of the call.
pub fn len<R: Wait>(rt: &R, queue: &FrameQueue, pass: &mut QueuePass) -> usize
    requires pass { IsPassOf queue.now pass.old }
    requires part { 0 < (view pass.old).parts }
    ensures pass { IsPassOf queue.now pass.new }
    ensures unchanged { view pass.new ≡ view pass.old }
    ensures at_most { result ≤ ruled_capacity queue.now }
    ensures free { (free : List RestingIs) × (length free ≡ result) × Stands (view pass.old) free }
{
    queue.len_as::<Take, R>(rt, pass)
}
