//! What the policy knows of a guest.
ghost use Rattle.std.specs.Prelude.{◌<◌, ◌≤◌};

/// The minimum of a guest of which nobody says otherwise, in pages.
pub const DEFAULT_MINIMUM: u32 = 2;

/// What the policy knows of one guest. The ranges are a guest's; the policy is exact at every number of a field's type.
#[derive(Clone, Copy, Debug, PartialEq, Eq)]
pub struct Stat {
    /// Its shares of the machine's memory, 1 to 1,000,000.
    pub shares: u32,
    /// The pages that it was promised, 2 to 32,768.
    pub pages: u32,
    /// Its resident pages: those that have a frame, private or shared.
    pub resident: u32,
    /// The pages that it gave to its balloon.
    pub given: u32,
    /// How many draws of the sample had been touched in the last whole period.
    pub active: u16,
    /// The draws of the sample.
    pub sample: u16,
    /// The resident pages that it always keeps.
    pub minimum: u32,
    // a sample has a draw, and no more of them were touched than there are
    pub ghost sampled: { 0 < sample },
    pub ghost touched: { active ≤ sample },
}
