//! A page of the policy's victim leaves its frame.
ghost use Rattle.std.specs.Prelude.{◌≡◌, ◌<◌, ◌≤◌, ℕ, All, IfSome, IsNone, MatchOption, length};
ghost use Rattle.cell.specs.Level.{IsMemoryOf};
ghost use Rattle.host_policy.specs.Evictions.{IsVictim, NobodyWasEligible, WereVictims, IsAnswer};

use crate::numbers::{NOBODY, read_stats};
use crate::policy::Policy;
use crate::state::MOST_GUESTS;
use cell::{Cell, Kept};
use machine_memory::MachineMemory;
use std::sync::Wait;
use swapstore::SwapStore;
use word32::Ppn;

/// How many victims are tried in a row.
const MOST_VICTIMS: u32 = 64;

/// What has become of a page of the policy's victim that was to leave its frame.
#[derive(Clone, Copy, Debug, PartialEq, Eq)]
pub enum Evicted {
    /// This page of the guest of this number has left its frame for a slot.
    Page(usize, Ppn),
    /// No page has left: no guest has more pages in frames than it always keeps, or 64 victims in a row had no more once they were chosen.
    Nobody,
    /// No slot was free.
    NoSwap,
    /// The store failed to write the slot.
    SwapWrite,
}

// The policy's victim, with the word that its page is drawn by.
fn choose_victim<S: SwapStore + Drop, R: Wait>(
    rt: &R,
    policy: &Policy,
    cells: &[Cell<S>],
) -> Option<(usize, u32)>
    requires few { length cells.now ≤ 16 }
    ensures victim { IfSome result (λ chosen. IsVictim cells.now chosen.0) }
    ensures nobody { IsNone result → NobodyWasEligible cells.now }
{
    let mut numbers = [NOBODY; MOST_GUESTS];
    let stats = &mut numbers[..cells.len()];
    read_stats(rt, cells, stats);
    policy.choose(rt, stats)
}

// A page of the policy's victim leaves its frame, unless the victim has no more pages in frames than it always keeps any more.
fn evict_victim<S: SwapStore + Drop, R: Wait>(
    rt: &R,
    policy: &Policy,
    cells: &[Cell<S>],
    memory: &MachineMemory<S>,
) -> Option<Evicted>
    requires few { length cells.now ≤ 16 }
    requires memory { All (λ c. IsMemoryOf c.front.first.value memory.now) cells.now }
    ensures { MatchOption result ((g : ℕ) × IsVictim cells.now g) (IsAnswer cells.now) }
{
    let Some((g, word)) = choose_victim(rt, policy, cells) else {
        return Some(Evicted::Nobody);
    };
    match cells[g].evict(rt, memory, word) {
        Ok(page) => Some(Evicted::Page(g, page)),
        Err(Kept::AtMinimum) => None,
        Err(Kept::NoSwap) => Some(Evicted::NoSwap),
        Err(Kept::SwapWrite) => Some(Evicted::SwapWrite),
    }
}

/// A page of the policy's victim leaves its frame for a slot. Each guest's numbers are read under its lock, one guest after another. Of those
/// that have more pages in frames than they always keep the victim is the one of the least ratio of shares to pages, taxed for idle ones
/// (`taxpolicy::victim`). Once it is chosen the generator's next word is drawn, under the policy's lock; and then, under the victim's, its
/// first page in a frame at or after the word modulo its pages leaves, going round (`Cell::evict`). Where the victim has no more pages
/// than it always keeps any more, the numbers are read anew, for 64 victims at most. It takes no memory.
pub fn evict_one<S: SwapStore + Drop, R: Wait>(
    rt: &R,
    policy: &Policy,
    cells: &[Cell<S>],
    memory: &MachineMemory<S>,
) -> Evicted
    requires few { length cells.now ≤ 16 }
    requires memory { All (λ c. IsMemoryOf c.front.first.value memory.now) cells.now }
    ensures { IsAnswer cells.now result }
{
    for _ in 0..MOST_VICTIMS {
        match evict_victim(rt, policy, cells, memory) {
            Some(evicted) => return evicted,
            None => {}
        }
    }
    Evicted::Nobody
}
