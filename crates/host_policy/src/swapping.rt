//! Pages that leave their frames in a turn.
ghost use Rattle.std.specs.Prelude.{◌≡◌, All, length};
ghost use Rattle.cell.specs.Level.{IsMemoryOf};
ghost use Rattle.host_policy.specs.Evictions.{refusal_of};

use crate::policy::Policy;
use cell::{Cell, Kept};
use machine_memory::{EvictError, MachineMemory};
use reclaim::Action;
use std::sync::Wait;
use swapstore::SwapStore;

// Why no page at all is tried after one that stays in its frame; none where only the rest of its guest's are passed over.
fn refusal(kept: Kept) -> Option<EvictError>
    ensures { result ≡ refusal_of kept }
{
    match kept {
        Kept::AtMinimum => None,
        Kept::NoSwap => Some(EvictError::NoSwap),
        Kept::SwapWrite => Some(EvictError::SwapWrite),
    }
}

// So many pages of a guest leave their frames, each by the generator's next word, or as many as it has above those that it always keeps;
// or up to the first one that stays for want of a slot or by a failed write, which is answered.
fn swap_out<S: SwapStore + Drop, R: Wait>(
    rt: &R,
    policy: &Policy,
    cell: &Cell<S>,
    memory: &MachineMemory<S>,
    count: u32,
) -> Option<EvictError>
    requires { IsMemoryOf cell.now.front.first.value memory.now }
{
    for _ in 0..count {
        let word = policy.next_word(rt);
        if let Err(kept) = cell.evict(rt, memory, word) {
            return refusal(kept);
        }
    }
    None
}

// The pages that the actions have leave their frames, guest after guest, or up to the first one that stays for want of a slot or by a
// failed write, which is answered.
pub(crate) fn swap_out_each<S: SwapStore + Drop, R: Wait>(
    rt: &R,
    policy: &Policy,
    cells: &[Cell<S>],
    memory: &MachineMemory<S>,
    actions: &[Action],
) -> Option<EvictError>
    requires actions { length actions.now ≡ length cells.now }
    requires memory { All (λ c. IsMemoryOf c.front.first.value memory.now) cells.now }
{
    for g in 0..cells.len() {
        let refused = swap_out(rt, policy, &cells[g], memory, actions[g].swap_out);
        if refused.is_some() {
            return refused;
        }
    }
    None
}
