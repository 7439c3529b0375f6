//! The guests' numbers, each read under its guest's lock.
ghost use Rattle.std.specs.Prelude.{◌≡◌, length};
ghost use Rattle.host_policy.specs.Numbers.{IsStatOf, AreStatsOf};

use cell::Cell;
use std::sync::Wait;
use swapstore::SwapStore;
use taxpolicy::{SAMPLE_SIZE, Stat};

// The numbers of no guest.
pub(crate) const NOBODY: Stat = Stat {
    shares: 0,
    pages: 0,
    resident: 0,
    given: 0,
    active: SAMPLE_SIZE as u16,
    sample: SAMPLE_SIZE as u16,
    minimum: 0,
};

// A guest's numbers, with all draws of its sample touched.
fn stat_of<S: SwapStore + Drop, R: Wait>(rt: &R, cell: &Cell<S>) -> Stat
    ensures { IsStatOf cell.now.front result }
{
    let stat = cell.stat(rt);
    Stat {
        shares: cell.front.shares,
        pages: cell.front.pages,
        resident: stat.resident,
        given: stat.given,
        active: SAMPLE_SIZE as u16,
        sample: SAMPLE_SIZE as u16,
        minimum: cell.front.minimum.max(2),
    }
}

// The numbers of all guests, one after another.
pub(crate) fn read_stats<S: SwapStore + Drop, R: Wait>(
    rt: &R,
    cells: &[Cell<S>],
    stats: &mut [Stat],
)
    requires { length stats.old ≡ length cells.now }
    ensures { AreStatsOf cells.now stats.new }
{
    for g in 0..cells.len() {
        stats[g] = stat_of(rt, &cells[g]);
    }
}
