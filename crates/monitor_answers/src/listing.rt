//! How the guests stand.
ghost use Rattle.std.specs.Prelude.{◌≡◌, ◌<◌, ◌≤◌, ℕ, Some, IfOk, length, slice_get};
ghost use Rattle.cell.specs.declared.cell.Cell.{Cell};
ghost use Rattle.monitor_answers.specs.Lines.{AreLines, IsLineOf};

use crate::{GuestLine, Way};
use cell::Gate;
use guest_number::GuestNo;
use host::{Host, Status};
use std::alloc::{AllocError, Global};
use std::sync::Wait;
use std::sync::atomic::{AtomicU32, Ordering};
use swapstore::SwapStore;

// Whether a guest makes steps that stands so, and whose runner's last slice ended by the stop of this number, or by none where it is 0.
fn way_of(status: &Status, stop: u32) -> Way {
    if status.held {
        Way::Held
    } else if status.blocked {
        Way::Blocked
    } else if stop > 0 {
        Way::Stopped(stop)
    } else {
        Way::Runs
    }
}

// How a guest stands.
fn line_of<S: SwapStore + Drop, R: Wait, G: Gate + Drop>(
    rt: &R,
    host: &Host<S, G>,
    guest: GuestNo,
    stop: u32,
) -> GuestLine
    requires { guest < length host.now.guests.cells.items }
    ensures { (cell : Cell S) → slice_get host.now.guests.cells.items guest ≡ Some cell → IsLineOf guest cell result }
{
    let status = host.status(rt, guest);
    GuestLine {
        guest,
        pages: status.pages,
        resident: status.resident,
        given: status.given,
        swapped: status.swapped,
        shares: status.shares,
        way: way_of(&status, stop),
    }
}

// How each guest stands, one after another.
#[tactic(auto, using(crate::proofs::Listed::none_first, crate::proofs::Listed::one_more, crate::proofs::Listed::all_first))]
pub(crate) fn lines_of<S: SwapStore + Drop, R: Wait, G: Gate + Drop>(
    rt: &R,
    alloc: Global,
    host: &Host<S, G>,
    stops: &[AtomicU32],
) -> Result<Vec<GuestLine>, AllocError>
    requires { length stops.now ≡ length host.now.guests.cells.items }
    ensures { IfOk result (λ lines. AreLines host.now.guests.cells.items lines.items) }
{
    let mut lines = Vec::new(alloc);
    for guest in 0..host.count() {
        let stop = stops[guest].load(Ordering::SeqCst);
        lines.push(line_of(rt, host, GuestNo::new(guest as u32), stop))?;
    }
    Ok(lines)
}
