//! Where the pages of a guest are.
ghost use Rattle.std.specs.Prelude.{◌≡◌, ◌+◌, ◌<◌, ◌≤◌, length};
ghost use Rattle.world.specs.All.{TenantIs, kind_at, pages_at, private_pages, shared_pages, swapped_pages};
ghost use Rattle.simulation.specs.Pages.{given_pages, one_given};

use guest_pages::PageKind;
use swapstore::SwapStore;
use word32::Ppn;
use world::World;

/// How many pages of a guest are where: all of them together are the guest's pages.
#[derive(Clone, Copy, Debug, PartialEq, Eq)]
pub struct PageCounts {
    /// In frames of their own.
    pub private: u64,
    /// In frames that other pages read too.
    pub shared: u64,
    /// In slots.
    pub swapped: u64,
    /// Given to the balloon, and in no frame.
    pub given: u64,
    /// Never touched, and in no frame.
    pub zero: u64,
}

// 1 for a page of a guest that is given, 0 for another, or for none.
fn given_at<S: SwapStore>(world: &World<S>, g: usize, p: Ppn) -> u32
    requires { g < length world.now.tenants }
    ensures value { (t : TenantIs) → result ≡ one_given (kind_at (pages_at world.now g t) p) }
    ensures few { result ≤ 1 }
{
    match world.kind(g, p) {
        Some(PageKind::Given) => 1,
        _ => 0,
    }
}

// How many pages of a guest are given.
fn given_in<S: SwapStore>(world: &World<S>, g: usize) -> u32
    requires { g < length world.now.tenants }
    ensures { (t : TenantIs) → result ≡ given_pages (pages_at world.now g t) }
{
    let mut given = 0;
    for p in 0..world.guest(g).page_count() {
        given += given_at(world, g, Ppn::new(p));
    }
    given
}

/// How many pages of a guest are where.
#[tactic(auto, using(crate::proofs::GivenPages::few_places))]
pub fn page_counts<S: SwapStore>(world: &World<S>, g: usize) -> PageCounts
    requires { g < length world.now.tenants }
    ensures private { (t : TenantIs) → result.private ≡ private_pages (pages_at world.now g t) }
    ensures shared { (t : TenantIs) → result.shared ≡ shared_pages (pages_at world.now g t) }
    ensures swapped { (t : TenantIs) → result.swapped ≡ swapped_pages (pages_at world.now g t) }
    ensures given { (t : TenantIs) → result.given ≡ given_pages (pages_at world.now g t) }
    ensures all { (t : TenantIs) → result.private + result.shared + result.swapped + result.given + result.zero ≡ length (pages_at world.now g t) }
{
    let guest = world.guest(g);
    let private = u64::from(guest.private());
    let shared = u64::from(guest.shared());
    let swapped = u64::from(guest.swapped());
    let given = u64::from(given_in(world, g));
    PageCounts {
        private,
        shared,
        swapped,
        given,
        zero: u64::from(guest.page_count()) - private - shared - swapped - given,
    }
}
