//! Samples of the guests' pages.
ghost use Rattle.std.specs.Prelude.{◌<◌, ◌≤◌, length};

use crate::policy::Policy;
use cell::Cell;
use std::sync::Wait;
use swapstore::SwapStore;

// A period of a guest's sample ends, and the next one begins: the draws are counted whose page was accessed since it was drawn, and a
// hundred pages are drawn anew.
fn sample_guest<S: SwapStore + Drop, R: Wait>(rt: &R, policy: &Policy, g: usize, cell: &Cell<S>)
    requires { g < 16 }
{
    let touched = match policy.draws(rt, g) {
        None => None,
        Some(draws) => Some(cell.touched(rt, &draws)),
    };
    // a guest has pages
    let pages = cell.front.pages.max(1);
    let draws = policy.next_sample(rt, g, touched, pages);
    cell.clear_touched(rt, &draws);
}

// The same of each guest, one after another.
pub(crate) fn sample_each<S: SwapStore + Drop, R: Wait>(rt: &R, policy: &Policy, cells: &[Cell<S>])
    requires { length cells.now ≤ 16 }
{
    for g in 0..cells.len() {
        sample_guest(rt, policy, g, &cells[g]);
    }
}
