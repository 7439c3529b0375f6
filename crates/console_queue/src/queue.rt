//! The console queue.
ghost use Rattle.std.specs.Prelude.{◌≡◌, ◌<◌, ◌≤◌, [], ◌∷◌, ◌++◌, take, length, vec_capacity, IfOk, OnOk, OnErr, IfSome, IfNone};
ghost use Rattle.console_queue.specs.Queues.{WasFull};

use crate::passes::{FeedPass, TakePass};
use crate::ring;
use crate::ring::Ring;
use std::alloc::{AllocError, Global};
use std::marker::Model;
use std::sync::Wait;

/// The bytes that wait for a guest's console. Threads share it by reference. In clauses it is a record, `QueueIs`.
#[derive(Drop)]
pub struct ConsoleQueue {
    ring: Ring,
}

impl Model for ConsoleQueue {
    ghost use Rattle.console_queue.specs.Queues.{QueueIs};

    ghost Value = { QueueIs };

    ghost view = { λ q. record { id = q.ring.table.shared.table_id; room = q.ring.cap } };
}

impl ConsoleQueue {
    /// A queue with room for so many bytes, 1 or more, with its one pass that puts and its one that takes. `AllocError` where there
    /// is no memory for it, and from 2^60 on.
    pub fn new(alloc: Global, room: usize) -> Result<(ConsoleQueue, FeedPass, TakePass), AllocError>
        requires room { 0 < room }
        ensures room { IfOk result (λ made. made.0.room ≡ room) }
        ensures feed { IfOk result (λ made. made.1 ≡ record { queue = made.0.id; put = [] }) }
        ensures take { IfOk result (λ made. made.2 ≡ record { queue = made.0.id; taken = [] }) }
    {
        let (ring, feed, taker) = ring::new(alloc, room)?;
        Ok((
            ConsoleQueue { ring },
            FeedPass { pass: feed },
            TakePass { pass: taker },
        ))
    }

    // Puts a byte.
    fn put<R: Wait>(&self, rt: &R, feed: &mut FeedPass, byte: u8) -> Result<(), u8>
        requires queue { feed.old.queue ≡ self.now.id }
        ensures put { OnOk result (feed.new ≡ record feed.old { put = feed.old.put ++ byte ∷ [] }) }
        ensures unchanged { OnErr result (feed.new ≡ feed.old) }
        ensures full { OnErr result (WasFull self.now.room feed.old.put) }
    {
        ring::put(rt, &self.ring, &mut feed.pass, byte)
    }

    /// Puts bytes, the first of them first, and answers how many it put: fewer than all only where the queue was full at a moment of
    /// the call. It takes no lock, but may wait a moment for a thread that is taking a byte.
    pub fn feed<R: Wait>(&self, rt: &R, feed: &mut FeedPass, bytes: &[u8]) -> usize
        requires queue { feed.old.queue ≡ self.now.id }
        ensures at_most { result ≤ length bytes.now }
        ensures put { feed.new ≡ record feed.old { put = feed.old.put ++ take result bytes.now } }
        ensures full { result < length bytes.now → WasFull self.now.room feed.new.put }
    {
        for (i, byte) in bytes.iter().enumerate() {
            if self.put(rt, feed, *byte).is_err() {
                return i;
            }
        }
        bytes.len()
    }

    /// Takes the byte that was put first of those that wait; `None` only where none waited at a moment of the call. It takes no
    /// lock, but may wait a moment for a thread that is putting a byte.
    pub fn take<R: Wait>(&self, rt: &R, taker: &mut TakePass) -> Option<u8>
        requires queue { taker.old.queue ≡ self.now.id }
        ensures taken { IfSome result (λ byte. taker.new ≡ record taker.old { taken = taker.old.taken ++ byte ∷ [] }) }
        ensures unchanged { IfNone result (taker.new ≡ taker.old) }
    {
        ring::take(rt, &self.ring, &mut taker.pass)
    }

    /// Ends both passes: what was put is what was taken and then what waits, which goes into an empty list with room for all that
    /// the queue has room for.
    pub fn rest<R: Wait>(&self, rt: &R, feed: FeedPass, taker: TakePass, waiting: &mut Vec<u8>)
        requires feed { feed.queue ≡ self.now.id }
        requires taker { taker.queue ≡ self.now.id }
        requires room { self.now.room ≤ vec_capacity waiting.old }
        requires empty { waiting.old.items ≡ [] }
        ensures waiting { feed.put ≡ taker.taken ++ waiting.new.items }
    {
        let FeedPass { pass: feed } = feed;
        let TakePass { pass: taker } = taker;
        ring::rest(rt, &self.ring, feed, taker, waiting);
    }
}
