//! What the books count.
ghost use Rattle.std.specs.Prelude.{◌≡◌, sum_by, map};
ghost use Rattle.world.specs.Below.{TenantIs, pages_in, private_pages, shared_pages, swapped_pages};

use crate::World;
use swapstore::SwapStore;
use tenant::Tenant;

/// How many frames, pages and slots the books have, each kind counted for itself.
#[derive(Clone, Copy, Debug, PartialEq, Eq)]
pub struct BookCounts {
    /// All frames.
    pub frames: u64,
    /// Frames that are free.
    pub free: u64,
    /// Pages in frames of their own.
    pub private: u64,
    /// Shared frames.
    pub shared: u64,
    /// Pages that read shared frames.
    pub references: u64,
    /// Pages in slots.
    pub swapped: u64,
    /// All slots.
    pub slots: u64,
}

// How many pages of the guests are in frames of their own.
fn private_in(tenants: &[Tenant]) -> u128
    ensures { result ≡ sum_by private_pages (map pages_in tenants.now) }
{
    tenants
        .iter()
        .map(|tenant| u128::from(tenant.private()))
        .sum()
}

// How many pages of the guests are in shared frames.
fn shared_in(tenants: &[Tenant]) -> u128
    ensures { result ≡ sum_by shared_pages (map pages_in tenants.now) }
{
    tenants
        .iter()
        .map(|tenant| u128::from(tenant.shared()))
        .sum()
}

// How many pages of the guests are in slots.
fn swapped_in(tenants: &[Tenant]) -> u128
    ensures { result ≡ sum_by swapped_pages (map pages_in tenants.now) }
{
    tenants
        .iter()
        .map(|tenant| u128::from(tenant.swapped()))
        .sum()
}

impl<S: SwapStore> World<S> {
    ghost use Rattle.std.specs.Prelude.{◌≡◌, ◌+◌, ◌≤◌, length, sum_by, map};
    ghost use Rattle.world.specs.All.{TenantIs, entry_count, pages_in, private_pages, shared_pages, swapped_pages, ticket_count};

    /// What the books count: the free frames and the shared ones by pool and share table, and pages by the guests. They add up:
    /// the frames that are free, private and shared are all frames, as many tickets of shared frames are out as there are
    /// references, and as many slots are used as pages are in slots.
    pub fn books(&self) -> BookCounts
        ensures frames { result.frames ≡ self.now.frames }
        ensures free { result.free ≡ length self.now.pool.free }
        ensures private { result.private ≡ sum_by private_pages (map pages_in self.now.tenants) }
        ensures shared { result.shared ≡ entry_count self.now.shares.entries }
        ensures references { result.references ≡ sum_by shared_pages (map pages_in self.now.tenants) }
        ensures swapped { result.swapped ≡ sum_by swapped_pages (map pages_in self.now.tenants) }
        ensures slots { result.slots ≡ S.slots self.now.store }
        ensures all_frames { result.free + result.private + result.shared ≡ result.frames }
        ensures all_tickets { result.references ≡ ticket_count self.now.shares.entries }
        ensures used_slots { result.swapped ≡ self.now.slots.out }
        ensures few_used { result.swapped ≤ result.slots }
    {
        // Who asks how many tickets and slots there are knows that the counts of pages fit.
        let _tickets = self.shares.tickets();
        let slots = u64::from(self.slots.total());
        BookCounts {
            frames: u64::from(self.frames),
            free: u64::from(self.pool.free()),
            private: private_in(&self.tenants) as u64,
            shared: u64::from(self.shares.shared()),
            references: shared_in(&self.tenants) as u64,
            swapped: swapped_in(&self.tenants) as u64,
            slots,
        }
    }
}
