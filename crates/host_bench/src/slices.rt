//! Slices of a guest.
ghost use Rattle.std.specs.Prelude.{◌≡◌, ◌<◌, ◌≤◌, ◌*◌, length, IfOk};
ghost use Rattle.cell.specs.Sitting.{IsOf};
ghost use Rattle.host.specs.Places.{AtGuest};
ghost use Rattle.host.specs.Slices.{steps_made};

use crate::guests::STEPS;
use crate::hosts::{Hosted, OneHost, boot_host};
use cell::{Seat, Seats};
use guest_cells::Handles;
use guest_number::GuestNo;
use host::Ran;
use std::alloc::{AllocError, Global};
use std::sync::Wait;

// How many steps a slice has made.
fn steps_of(ran: Ran) -> u32
    ensures { result ≡ steps_made ran }
{
    match ran {
        Ran::Ran(steps) => steps,
        Ran::Break(steps) => steps,
        Ran::Held(steps) => steps,
        Ran::Stopped(steps, _) => steps,
    }
}

// How many steps were made.
fn make_slices<R: Wait>(rt: &R, alloc: Global, host: &OneHost, mut seat: Seat, count: u32) -> u64
    requires guest { 0 < length host.now.guests.cells.items }
    requires seat { AtGuest host.now.guests.cells.items 0 (λ front. IsOf front seat) }
    ensures { result ≤ 1024 * count }
{
    let mut made: u64 = 0;
    for _round in 0..count {
        let ran = host.run_slice(rt, alloc, GuestNo::new(0), &mut seat, STEPS);
        made += u64::from(steps_of(ran));
    }
    made
}

/// Makes so many slices of 1,024 steps; how many steps were made. `AllocError` where memory is refused.
#[tactic(auto, using(crate::proofs::Seats::runner_of))]
pub fn slices<R: Wait>(rt: &R, alloc: Global, count: u32) -> Result<u64, AllocError>
    ensures { IfOk result (λ made. made ≤ 1024 * count) }
{
    let Hosted { host, handles } = boot_host(rt, alloc)?;
    let Handles { seats, feed } = handles;
    drop(feed);
    let Seats {
        runner,
        console: _,
        policy: _,
        debugger: _,
    } = seats;
    Ok(make_slices(rt, alloc, &host, runner, count))
}
