//! The host.
ghost use Rattle.host_policy.specs.Policies.{IsPolicyOf};

use cell::Gate;
use guest_cells::GuestCells;
use host_policy::Policy;
use swapstore::SwapStore;

/// A host: guests that threads run at once, each behind a lock of its own, the memory around them, and the policy by which its pages go to
/// them. Threads share it by reference.
#[derive(Drop)]
pub struct Host<S: SwapStore + Drop, G: Gate + Drop> {
    /// The guests, that of number g at place g, and their memory.
    pub guests: GuestCells<S>,
    /// Level, tax, samples and generator.
    pub policy: Policy,
    /// Who is asked before the guests' steps.
    pub gate: G,
    /// The frames and slots that are left over by the minimums, where the guests were admitted by these.
    pub left_over: Option<(u32, u32)>,
    /// The policy is one of the guests' memory.
    pub ghost its_policy: { IsPolicyOf guests.memory policy },
}
