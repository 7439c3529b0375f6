//! What an input is run on, and how.
use crate::order::Shown;
use mips_cp0::Profile;
use reset_machine::Home;
use runs::Until;
use std::alloc::Global;
use std::sync::Arc;

/// What each input is run on, and how.
#[derive(Drop)]
pub struct Setting<'a> {
    /// The machine where it is ready for input: each machine that runs inputs begins there, and goes back to it.
    pub home: Arc<Home, Global>,
    /// How many steps it had made since its boot.
    pub made: u32,
    /// The profile of its processor.
    pub profile: Profile,
    /// How many pages its memory has.
    pub pages: u32,
    /// How many steps are to be made behind each input.
    pub steps: u32,
    /// The states that a run is to end at.
    pub until: &'a Until,
    /// How the output is shown.
    pub shown: Shown,
    /// Whether a machine keeps which words of memory PC led to.
    pub covers: bool,
    /// Whether they are shown.
    pub reached: bool,
    /// The digest of the image's file, where the logs of runs that end in an exception are kept.
    pub logs: Option<[u8; 32]>,
}
