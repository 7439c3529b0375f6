//! What becomes of the logs of guests whose world has ended.
use guest::Log;
use guest_number::GuestNo;
use swapstore::SwapStore;
use world::World;

/// Whoever keeps the logs of the guests of a world that has ended.
pub trait LogKeeper {
    /// Keeps the log of a guest, which has so many pages.
    fn keep(&mut self, guest: GuestNo, pages: u32, log: &Log);
}

// Has the log of each guest kept, in rising number.
pub(crate) fn keep_logs<S: SwapStore, K: LogKeeper>(world: &World<S>, keeper: &mut K) {
    let mut number = 0u32;
    for tenant in world.tenants() {
        let guest = tenant.guest();
        keeper.keep(GuestNo::new(number), guest.page_count(), guest.log());
        number = number.saturating_add(1);
    }
}
