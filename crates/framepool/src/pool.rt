//! The pool of free frames.
ghost use Rattle.std.specs.Prelude.{◌≡◌, ℕ, ◌+◌, ◌<◌, IfOk, IfSome, IfNone, OnSome, [], length};
ghost use Rattle.frames.specs.Counts.{one_at, count_of, below};
ghost use Rattle.frames.specs.FreeList.{FreeList};

use frames::{FrameNo, Numbers};
use std::alloc::{AllocError, Global};
use std::marker::Model;

/// The machine frames that are free, and how many are out. In clauses it is a record, `FreeList`.
pub struct Pool {
    free: Vec<FrameNo>,
    out: u32,
}

impl Model for Pool {
    ghost use Rattle.std.specs.Prelude.{◌+◌, ◌≤◌, ◌<◌, ◌^◌, vec_len, vec_capacity};
    ghost use Rattle.frames.specs.FreeList.{FreeList};

    ghost Value = { FreeList };

    ghost view = { λ p. record { free = p.free.items; out = p.out } };

    ghost invariant = { λ p. (vec_len p.free + p.out ≤ vec_capacity p.free) × (vec_capacity p.free < 2 ^ 32) };
}

impl Pool {
    /// The frames 0 to `frames - 1`, all free. `AllocError` where there is no memory for their numbers.
    #[tactic(auto, using(frames::proofs::Counting::count_push, frames::proofs::Counting::count_cons))]
    pub fn new(alloc: Global, frames: u32) -> Result<Pool, AllocError>
        ensures each_once { IfOk result (λ pool. (k : ℕ) → count_of k pool.free ≡ below k frames) }
        ensures length { IfOk result (λ pool. length pool.free ≡ frames) }
        ensures none_out { IfOk result (λ pool. pool.out ≡ 0) }
    {
        let mut free = Vec::with_capacity(alloc, frames as usize)?;
        let mut numbers = Numbers::below(frames);
        while let Some(no) = numbers.next_frame() {
            free.push_reserved(no);
        }
        numbers.close();
        Ok(Pool { free, out: 0 })
    }

    /// How many frames are free.
    pub fn free(&self) -> u32
        ensures { result ≡ length self.now.free }
    {
        self.free.len() as u32
    }

    /// Takes a free frame, which is out from then on; None exactly where none is free.
    #[tactic(auto, using(frames::proofs::Counting::count_push))]
    pub fn take(&mut self) -> Option<FrameNo>
        ensures taken { IfSome result (λ no. (k : ℕ) → count_of k self.old.free ≡ count_of k self.new.free + one_at k no) }
        ensures length { OnSome result (length self.old.free ≡ length self.new.free + 1) }
        ensures out { OnSome result (self.new.out ≡ self.old.out + 1) }
        ensures none { IfNone result (self.old.free ≡ []) }
        ensures unchanged { IfNone result (self.new ≡ self.old) }
    {
        let taken = self.free.pop();
        if taken.is_some() {
            self.out += 1;
        }
        taken
    }

    /// Gives a frame back that is out, which is free from then on.
    #[tactic(auto, using(frames::proofs::Counting::count_push))]
    pub fn give(&mut self, no: FrameNo)
        requires { 0 < self.old.out }
        ensures given { (k : ℕ) → count_of k self.new.free ≡ count_of k self.old.free + one_at k no }
        ensures length { length self.new.free ≡ length self.old.free + 1 }
        ensures out { self.new.out + 1 ≡ self.old.out }
    {
        self.out -= 1;
        self.free.push_reserved(no);
    }

    /// Gives the pool up, and with it all free numbers.
    pub fn close(self) {
        let Pool { mut free, out: _ } = self;
        while let Some(no) = free.pop() {
            let _number = no.close();
        }
        free.destroy_empty();
    }
}
