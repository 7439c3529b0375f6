//! The pool.
ghost use Rattle.std.specs.Prelude.{◌≡◌, ◌-◌, ◌<◌, ◌≤◌, List, [], length, IfOk, OnOk, OnErr, IfErr, IfSome, IfNone};
ghost use Rattle.std.specs.List.{range_with_len};
ghost use Rattle.accounts.specs.declared.account.Account.TheVariants.{Frame};
ghost use Rattle.accounts.specs.OwnerShares.{share_of};
ghost use Rattle.shared_pool.specs.Resting.{RestingIs};
ghost use Rattle.shared_pool.specs.Balance.{hand, all_parts, hand_put, hand_taken, with_other, Stands};

use crate::pass::PoolPass;
use crate::queue;
use crate::queue::FrameQueue;
use accounts::{BookShare, Books};
use frames::FrameNo;
use std::alloc::{AllocError, Global};
use std::marker::Model;
use std::sync::Wait;
use std::thread;

/// The machine frames that are free. Threads share it by reference. In clauses it is a record, `PoolIs`. Where it is dropped, each
/// frame that waits in it is closed: its number stands nowhere from then on, and its account in no share.
#[derive(Drop)]
pub struct SharedPool {
    queue: FrameQueue,
}

impl Model for SharedPool {
    ghost use Rattle.std.specs.Prelude.{◌<◌, ◌^◌};
    ghost use Rattle.shared_pool.specs.Pools.{PoolIs};

    ghost Value = { PoolIs };

    ghost view = { λ p. record { id = p.queue.table.shared.table_id; room = p.queue.cap } };

    ghost invariant = { λ p. p.queue.cap < 2 ^ 32 };
}

impl SharedPool {
    /// A pool for frames of the numbers 0 to `frames - 1`, 1 or more, whose accounts are of these books. None waits yet: the pass
    /// with all parts counts as having taken them all, and gives those that are free. `AllocError` where there is no memory for
    /// the queue.
    pub fn new(
        alloc: Global,
        frames: u32,
        books: &Books,
    ) -> Result<(SharedPool, PoolPass), AllocError>
        requires frames { 0 < frames }
        ensures room { IfOk result (λ made. made.0.room ≡ frames) }
        ensures pass { IfOk result (λ made. made.1.pool ≡ made.0.id) }
        ensures hand { IfOk result (λ made. made.1.hand ≡ hand all_parts (range_with_len 0 frames) [] (range_with_len 0 frames) books.now.id) }
    {
        let (queue, pass) = queue::new(alloc, frames, books)?;
        Ok((SharedPool { queue }, PoolPass { pass }))
    }

    /// A new pass of one part, which has put and taken nothing.
    pub fn another(&self, pass: &mut PoolPass) -> PoolPass
        requires pool { pass.old.pool ≡ self.now.id }
        requires parts { 1 < pass.old.hand.parts }
        ensures pass { pass.new ≡ record pass.old { hand = record pass.old.hand { parts = pass.old.hand.parts - 1 } } }
        ensures new { result ≡ record pass.old { hand = hand 1 pass.old.hand.whole [] [] pass.old.hand.of } }
    {
        PoolPass {
            pass: queue::another(&self.queue, &mut pass.pass),
        }
    }

    /// A pass takes in another: it has the parts of both, and what both put and took.
    pub fn absorb(&self, pass: &mut PoolPass, other: PoolPass)
        requires pool { pass.old.pool ≡ self.now.id }
        requires other { other.pool ≡ self.now.id }
        ensures both { pass.new ≡ record pass.old { hand = with_other pass.old.hand other.hand } }
    {
        let PoolPass { pass: theirs } = other;
        queue::absorb(&self.queue, &mut pass.pass, theirs);
    }

    /// Takes a free frame with its account; `None` only where none waited at a moment of the call. It takes no lock, but may wait a
    /// moment for a thread that is giving a frame.
    pub fn take_as<R: Wait>(&self, rt: &R, pass: &mut PoolPass) -> Option<(FrameNo, BookShare)>
        requires pool { pass.old.pool ≡ self.now.id }
        ensures taken { IfSome result (λ free. pass.new ≡ record pass.old { hand = hand_taken pass.old.hand free.0 }) }
        ensures account { IfSome result (λ free. free.1 ≡ share_of pass.old.hand.of (Frame free.0)) }
        ensures unchanged { IfNone result (pass.new ≡ pass.old) }
        ensures none { IfNone result (Stands pass.old.hand []) }
    {
        queue::take(rt, &self.queue, &mut pass.pass)
    }

    // Gives a frame, if there is room.
    fn put<R: Wait>(
        &self,
        rt: &R,
        pass: &mut PoolPass,
        no: FrameNo,
        share: BookShare,
    ) -> Result<(), (FrameNo, BookShare)>
        requires pool { pass.old.pool ≡ self.now.id }
        requires share { share ≡ share_of pass.old.hand.of (Frame no) }
        ensures put { OnOk result (pass.new ≡ record pass.old { hand = hand_put pass.old.hand no }) }
        ensures unchanged { OnErr result (pass.new ≡ pass.old) }
        ensures back { IfErr result (λ back. (back.0 ≡ no) × (back.1 ≡ share)) }
    {
        queue::put(rt, &self.queue, &mut pass.pass, no, share)
    }

    /// Gives a frame with its account, free from then on. It takes no lock; where the queue is full, as it can be for a moment
    /// while a thread takes, it tries again.
    pub fn give_as<R: Wait>(&self, rt: &R, pass: &mut PoolPass, no: FrameNo, share: BookShare)
        requires pool { pass.old.pool ≡ self.now.id }
        requires share { share ≡ share_of pass.old.hand.of (Frame no) }
        ensures put { pass.new ≡ record pass.old { hand = hand_put pass.old.hand no } }
    {
        let mut again = no;
        let mut account = share;
        for _ in rt.forever() {
            match self.put(rt, pass, again, account) {
                Ok(()) => return,
                Err((no, share)) => {
                    again = no;
                    account = share;
                    thread::yield_now();
                }
            }
        }
        unreachable!()
    }

    /// How many frames were free at a moment of the call.
    pub fn len_as<R: Wait>(&self, rt: &R, pass: &mut PoolPass) -> u32
        requires pool { pass.old.pool ≡ self.now.id }
        ensures unchanged { pass.new ≡ pass.old }
        ensures at_most { result ≤ self.now.room }
        ensures free { (free : List RestingIs) × (length free ≡ result) × Stands pass.old.hand free }
    {
        queue::len(rt, &self.queue, &mut pass.pass) as u32
    }
}
