//! The addresses where a debugger's slices stop.

use arrayvec::ArrayVec;

/// How many breakpoints a guest has at most.
pub const MOST_BREAKPOINTS: usize = 32;

/// At most 32 virtual addresses. It takes no memory.
#[derive(Drop)]
pub struct Breakpoints {
    addresses: ArrayVec<u32, MOST_BREAKPOINTS>,
}

impl Breakpoints {
    /// None.
    pub fn new() -> Breakpoints {
        Breakpoints {
            addresses: ArrayVec::new(),
        }
    }

    /// Whether there is none.
    pub fn is_empty(&self) -> bool {
        self.addresses.is_empty()
    }

    /// Whether there is one at this address.
    pub fn has(&self, address: u32) -> bool {
        self.addresses.as_slice().contains(&address)
    }

    /// One more at this address, where there is none yet. It answers false, and nothing has changed, where there are 32 others.
    pub fn set(&mut self, address: u32) -> bool {
        if self.has(address) {
            return true;
        }
        self.addresses.try_push(address).is_ok()
    }

    /// None at this address any more.
    pub fn clear(&mut self, address: u32) {
        self.addresses.retain(|it| *it != address);
    }

    /// None at all any more.
    pub fn clear_all(&mut self) {
        self.addresses.clear();
    }
}
