//! The levels of free memory.
ghost use Rattle.std.specs.Prelude.{◌≡◌, ◌≤◌, ℕ, Some, MatchOption};
ghost use Rattle.reclaim.specs.Levels.{level_name, Moves, Chain, IsSettled, next_level_of};

use std::fmt;

/// How scarce free memory is, and so how pages are reclaimed (Waldspurger, OSDI 2002, section 6.3).
#[derive(Clone, Copy, Debug, PartialEq, Eq)]
pub enum Level {
    /// Nothing is reclaimed, and balloons deflate.
    High,
    /// Pages are reclaimed by balloons.
    Soft,
    /// Pages are swapped out.
    Hard,
    /// Pages are swapped out, and guests above their targets are blocked.
    Low,
}

impl Level {
    /// The word for it: `high`, `soft`, `hard` or `low`.
    pub fn name(self) -> &'static str
        ensures { result.now ≡ level_name self }
    {
        match self {
            Level::High => "high",
            Level::Soft => "soft",
            Level::Hard => "hard",
            Level::Low => "low",
        }
    }
}

impl fmt::Display for Level {
    ghost output = { λ level. Some (level_name level) };

    fn fmt<W: fmt::Write>(&self, f: &mut fmt::Formatter<W>) -> fmt::Result {
        f.write_str(self.name())
    }
}

/// The level to which the move from a level leads, where one applies.
fn moved(level: Level, free: u32, total: u32) -> Option<Level>
    ensures { MatchOption result (IsSettled free total level) (λ next. Moves free total level next) }
{
    let free = 100 * u64::from(free);
    let total = u64::from(total);
    match level {
        Level::High if free < 4 * total => Some(Level::Soft),
        Level::Soft if free < 2 * total => Some(Level::Hard),
        Level::Soft if free >= 6 * total => Some(Level::High),
        Level::Hard if free < total => Some(Level::Low),
        Level::Hard if free >= 4 * total => Some(Level::Soft),
        Level::Low if free >= 2 * total => Some(Level::Hard),
        _ => None,
    }
}

/// The level in a turn in which `free` frames of `total` are free: moves lead to it from the level before, three at most, and
/// none leads on. High goes to soft below 4 percent, soft to hard below 2 and hard to low below 1; low goes to hard from 2
/// percent on, hard to soft from 4 and soft to high from 6.
pub fn next_level(level: Level, free: u32, total: u32) -> Level
    ensures chain { (moves : ℕ) × (moves ≤ 3) × Chain free total moves level result }
    ensures settled { IsSettled free total result }
    ensures value { result ≡ next_level_of free total level }
{
    let mut level = level;
    while let Some(next) = moved(level, free, total) {
        level = next;
    }
    level
}
