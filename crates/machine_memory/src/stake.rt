//! What stands beside a guest's pages.
use accounts::BookShare;
use shared_pool::PoolPass;
use slot_contents::ContentShare;

/// A guest's account in the books of machine memory, its right to take free frames and to give them, and what it wrote to the slots that
/// its pages are in. It has no bytes, and lies under the guest's lock.
#[derive(Drop)]
pub struct Stake {
    /// The account.
    pub share: BookShare,
    /// The right.
    pub pass: PoolPass,
    /// What it wrote to its slots.
    pub contents: ContentShare,
}

unsafe impl Send for Stake {}
