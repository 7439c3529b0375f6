//! What a guest is made of that is to come under a lock.
use elf32::Image;
use guest::{Guest, Seat};
use machine_memory::Stake;
use mips_cp0::Profile;
use std::alloc::Global;
use std::sync::Arc;

/// A guest at its boot, with its four seats and what its owner knows of it.
pub struct Parts {
    /// The guest, at whose boot nothing has happened yet.
    pub guest: Guest,
    /// Its seat 0.
    pub runner: Seat,
    /// Its seat 1.
    pub console: Seat,
    /// Its seat 2.
    pub policy: Seat,
    /// Its seat 3.
    pub debugger: Seat,
    /// Its stake in machine memory, which is level for its pages.
    pub stake: Stake,
    /// The profile of its processor.
    pub profile: Profile,
    /// What it boots.
    pub image: Arc<Image, Global>,
    /// How many pages it has.
    pub pages: u32,
    /// The greatest number of runs of its log.
    pub limit: u32,
    /// How many shares of the memory it has.
    pub shares: u32,
    /// How many of its resident pages it always keeps.
    pub minimum: u32,
}
