//! The steps of a console queue's ring.
ghost use Rattle.std.specs.Prelude.{◌≡◌, ◌<◌, ◌≤◌, true, false, [], ◌++◌, vec_capacity, IfOk, OnOk, OnErr, IfSome, IfNone};
ghost use Rattle.crossbeam_queue.specs.Passes.{view, IsPassOf, ruled_capacity};
ghost use Rattle.console_queue.specs.Rule.{log, log_put, log_taken};
ghost use Rattle.console_queue.specs.Queues.{WasFull};

use crate::log::{InOrder, Log, Put, Roles, Take, TakeRest};
use crossbeam_queue::{Pass, RuledArrayQueue};
use std::alloc::{AllocError, Global};
use std::sync::Wait;

/// The bytes that wait.
pub type Ring = RuledArrayQueue<u8, Log, InOrder>;

/// What a pass takes its steps with. It has no bytes.
pub type RingPass = Pass<u8, Log>;

// A ring with room for so many bytes, the pass that puts and the pass that takes.
pub fn new(alloc: Global, room: usize) -> Result<(Ring, RingPass, RingPass), AllocError>
    requires room { 0 < room }
    ensures room { IfOk result (λ made. ruled_capacity made.0 ≡ room) }
    ensures feed { IfOk result (λ made. IsPassOf made.0 made.1 × (view made.1 ≡ log true false [] [])) }
    ensures take { IfOk result (λ made. IsPassOf made.0 made.2 × (view made.2 ≡ log false true [] [])) }
{
    let (ring, mut feed) = Ring::ruled(alloc, room)?;
    let taker = ring.another::<Roles>(&mut feed);
    Ok((ring, feed, taker))
}

// Puts a byte.
pub fn put<R: Wait>(rt: &R, ring: &Ring, pass: &mut RingPass, byte: u8) -> Result<(), u8>
    requires pass { IsPassOf ring.now pass.old }
    requires role { (view pass.old).puts ≡ true }
    ensures pass { IsPassOf ring.now pass.new }
    ensures put { OnOk result (view pass.new ≡ log_put (view pass.old) byte) }
    ensures unchanged { OnErr result (view pass.new ≡ view pass.old) }
    ensures full { OnErr result (WasFull (ruled_capacity ring.now) (view pass.old).put) }
{
    ring.push_as::<Put, R>(rt, pass, byte)
}

// Takes the byte that was put first.
pub fn take<R: Wait>(rt: &R, ring: &Ring, pass: &mut RingPass) -> Option<u8>
    requires pass { IsPassOf ring.now pass.old }
    requires role { (view pass.old).takes ≡ true }
    ensures pass { IsPassOf ring.now pass.new }
    ensures taken { IfSome result (λ byte. view pass.new ≡ log_taken (view pass.old) byte) }
    ensures unchanged { IfNone result (view pass.new ≡ view pass.old) }
{
    ring.pop_as::<Take, R>(rt, pass)
}

// Takes all that waits.
fn empty_into<R: Wait>(rt: &R, ring: &Ring, pass: &mut RingPass, waiting: &mut Vec<u8>)
    requires pass { IsPassOf ring.now pass.old }
    requires both { view pass.old ≡ log true true (view pass.old).put (view pass.old).taken }
    requires room { ruled_capacity ring.now ≤ vec_capacity waiting.old }
    requires empty { waiting.old.items ≡ [] }
    ensures { (view pass.old).put ≡ (view pass.old).taken ++ waiting.new.items }
{
    let _count = ring.len_as::<TakeRest, R>(rt, pass);
    for _ in rt.forever() {
        match ring.pop_as::<TakeRest, R>(rt, pass) {
            Some(byte) => waiting.push_reserved(byte),
            None => break,
        }
    }
}

// Takes all that waits, once neither pass is used any more.
pub fn rest<R: Wait>(
    rt: &R,
    ring: &Ring,
    mut feed: RingPass,
    taker: RingPass,
    waiting: &mut Vec<u8>,
)
    requires passes { IsPassOf ring.now feed × IsPassOf ring.now taker }
    requires feed { view feed ≡ log true false (view feed).put [] }
    requires taker { view taker ≡ log false true [] (view taker).taken }
    requires room { ruled_capacity ring.now ≤ vec_capacity waiting.old }
    requires empty { waiting.old.items ≡ [] }
    ensures { (view feed).put ≡ (view taker).taken ++ waiting.new.items }
{
    ring.absorb::<Roles>(&mut feed, taker);
    empty_into(rt, ring, &mut feed, waiting);
}
