//! What a turn of the policy answers.
use machine_memory::EvictError;
use reclaim::Level;

/// What became of a turn of the policy.
#[derive(Clone, Copy, Debug, PartialEq, Eq)]
pub struct Turn {
    /// The level in this turn.
    pub level: Level,
    /// How many guests keep their balloon targets though others were asked for: their logs have no room for the item, or there was no memory.
    pub left_out: usize,
    /// Why a page that was to be swapped out stayed in its frame, where one did: none was tried after it.
    pub refused: Option<EvictError>,
}
