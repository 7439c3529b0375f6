//! What is asked for at a boot.
use elf32::Image;
use mips_cp0::Profile;
use std::alloc::Global;
use std::sync::Arc;

/// What there is for guests, but for the store.
#[derive(Clone, Copy, Debug, PartialEq, Eq)]
pub struct Config {
    /// How many frames of machine memory there are, 4 to 65,536.
    pub frames: u32,
    /// The greatest number of runs that a guest's log may have, 16 to 1,048,576.
    pub log_runs: u32,
    /// Whether guests are admitted by their minimums alone: only where there is a frame for each page that they always keep and one more
    /// for each guest, and a slot for each of their other pages.
    pub admit: bool,
}

/// A guest that is to be booted.
#[derive(Drop)]
pub struct NewGuest {
    /// The profile of its processor.
    pub profile: Profile,
    /// Its image. Guests may share one.
    pub image: Arc<Image, Global>,
    /// How many pages its memory has, 2 to the most of its profile (16,384 or 32,768).
    pub pages: u32,
    /// How many shares of the machine's memory it has, 1 to 1,000,000.
    pub shares: u32,
    /// How many resident pages it always keeps, 2 to its pages.
    pub minimum: u32,
}
