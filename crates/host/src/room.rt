//! Room for a page that is needed, where no frame is free: a page of another guest's, or of its own, leaves its frame.
ghost use Rattle.std.specs.Prelude.{◌≡◌, ◌≢◌, ◌+◌, ◌≤◌, OnOk, IfOk, IfErr};
ghost use Rattle.host_policy.specs.Evictions.{WereVictims};
ghost use Rattle.host.specs.Evictions.{WhyNoRoom, stop_of_eviction};

use crate::Stop;
use guest_cells::GuestCells;
use host_policy::{Evicted, Policy, evict_one};
use std::sync::Wait;
use swapstore::SwapStore;

/// How many pages at most leave their frames for one that is needed.
pub const MOST_EVICTIONS: u32 = 64;

// Why a guest stops that needed a frame, once an eviction was tried; None where a page has left its frame.
fn stop_of(evicted: Evicted) -> Option<Stop>
    ensures { result ≡ stop_of_eviction evicted }
{
    match evicted {
        Evicted::Page(_, _) => None,
        Evicted::Nobody => Some(Stop::NoFrame),
        Evicted::SwapWrite => Some(Stop::NoFrame),
        Evicted::NoSwap => Some(Stop::NoSwap),
    }
}

// A page of the policy's victim leaves its frame for a need for which so many have left theirs. How many have then; or why none does.
// No lock is held meanwhile.
#[tactic(auto, using(crate::proofs::Rooms::one_more, crate::proofs::Rooms::left, crate::proofs::Rooms::no_room))]
pub(crate) fn make_room<S: SwapStore + Drop, R: Wait>(
    rt: &R,
    guests: &GuestCells<S>,
    policy: &Policy,
    tried: u32,
) -> Result<u32, Stop>
    requires tried { tried ≤ 64 }
    requires victims { WereVictims guests.now.cells.items tried }
    ensures counted { IfOk result (λ now. now ≡ tried + 1) }
    ensures limit { IfOk result (λ now. now ≤ 64) }
    ensures victims { IfOk result (λ now. WereVictims guests.now.cells.items now) }
    ensures why { IfErr result (λ stop. WhyNoRoom guests.now.cells.items stop) }
{
    if tried >= MOST_EVICTIONS {
        return Err(Stop::NoFrame);
    }
    match stop_of(evict_one(rt, policy, &guests.cells, &guests.memory)) {
        None => Ok(tried + 1),
        Some(stop) => Err(stop),
    }
}
