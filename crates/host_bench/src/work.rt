//! What can be done.
ghost use Rattle.std.specs.Prelude.{IfOk};
ghost use Rattle.host_bench.specs.Answers.{Answers};

use crate::alone::world_steps;
use crate::beside::{Call, calls};
use crate::moving::{evictions, scans};
use crate::slices::slices;
use std::alloc::{AllocError, Global};
use std::sync::Wait;
use std::thread::Threads;

/// What is done in each round.
#[derive(Clone, Copy)]
pub enum Work {
    /// 1,024 steps of a guest in a world.
    WorldSteps,
    /// A slice of 1,024 steps of a guest in a host.
    Slices,
    /// A call to a guest that another thread runs.
    Calls(Call),
    /// A page of a guest is scanned for one of equal bytes.
    Scan,
    /// A page of a guest leaves its frame, and comes back.
    Evict,
}

impl Work {
    /// The work of a name.
    pub fn named(name: &str) -> Option<Work> {
        match name {
            "world_steps" => Some(Work::WorldSteps),
            "slices" => Some(Work::Slices),
            "feed" => Some(Work::Calls(Call::Feed)),
            "seen" => Some(Work::Calls(Call::Seen)),
            "read" => Some(Work::Calls(Call::Read)),
            "scan" => Some(Work::Scan),
            "evict" => Some(Work::Evict),
            _ => None,
        }
    }

    /// Does so many rounds; a number that depends on them. `AllocError` where memory is refused.
    pub fn rounds<R: Threads + Wait + Sync>(
        self,
        rt: &R,
        alloc: Global,
        count: u32,
    ) -> Result<u64, AllocError>
        ensures { IfOk result (Answers self count) }
    {
        match self {
            Work::WorldSteps => world_steps(alloc, count),
            Work::Slices => slices(rt, alloc, count),
            Work::Calls(call) => calls(rt, alloc, call, count),
            Work::Scan => scans(rt, alloc, count),
            Work::Evict => evictions(rt, alloc, count),
        }
    }
}
