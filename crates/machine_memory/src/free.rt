//! How many frames are free.
use crate::MachineMemory;
use shared_pool::PoolPass;
use std::sync::Wait;
use swapstore::SwapStore;

impl<S: SwapStore + Drop> MachineMemory<S> {
    ghost use Rattle.std.specs.Prelude.{◌≡◌, List, length};
    ghost use Rattle.shared_pool.specs.Resting.{RestingIs};
    ghost use Rattle.shared_pool.specs.Balance.{Stands};
    ghost use Rattle.machine_memory.specs.Memories.{IsPassOf};

    /// How many frames were free at a moment of the call, by any pass of the pool. No lock is taken.
    pub fn free_frames<R: Wait>(&self, rt: &R, pass: &mut PoolPass) -> u32
        requires { IsPassOf self.now pass.old }
        ensures unchanged { pass.new ≡ pass.old }
        ensures free { (free : List RestingIs) × (length free ≡ result) × Stands pass.old.hand free }
    {
        self.pool.len_as(rt, pass)
    }
}
