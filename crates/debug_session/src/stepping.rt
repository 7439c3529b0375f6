//! Lines by which the guest makes steps.
ghost use Rattle.std.specs.Prelude.{◌≡◌, ◌<◌, ◌++◌, true, IfOk, OnOk, length, string_bytes};
ghost use Rattle.cell.specs.Sitting.{IsOf, Lasts};
ghost use Rattle.host.specs.Places.{AtGuest};
ghost use Rattle.debug_session.specs.Goes.{Goes};
ghost use Rattle.debug_session.specs.Replies.{Adds, said_to_run, said_to_step, state_after};
ghost use Rattle.debug_session.specs.Talks.{HasRun, HasStepped};

use crate::State;
use crate::telling::{stop_error, tell};
use cell::{Gate, Seat};
use debugline::Answer;
use guest_number::GuestNo;
use host::{Host, Ran};
use std::alloc::{AllocError, Global};
use std::sync::Wait;
use swapstore::SwapStore;

/// How many steps a slice of a `cont` has at most.
pub const SLICE: u32 = 16_384;

// Tells how a slice of a `cont` has ended, unless the `cont` goes on. What the session does then.
fn tell_run(alloc: Global, ran: Ran, out: &mut String) -> Result<State, AllocError>
    ensures state { IfOk result (λ next. next ≡ state_after ran) }
    ensures said { OnOk result (string_bytes out.new ≡ string_bytes out.old ++ said_to_run ran) }
{
    match ran {
        Ran::Ran(_) => return Ok(State::Running),
        Ran::Break(_) => tell(alloc, out, &Answer::Break)?,
        Ran::Held(_) => tell(alloc, out, &Answer::Held)?,
        Ran::Stopped(_, stop) => tell(alloc, out, &Answer::Error(stop_error(stop)))?,
    }
    Ok(State::Ready)
}

// Makes a slice of a `cont`.
pub(crate) fn run_on<S: SwapStore + Drop, R: Wait, G: Gate + Drop>(
    rt: &R,
    alloc: Global,
    host: &Host<S, G>,
    guest: GuestNo,
    seat: &mut Seat,
    out: &mut String,
) -> Result<State, AllocError>
    requires guest { guest < length host.now.guests.cells.items }
    requires of { AtGuest host.now.guests.cells.items guest (λ front. IsOf front seat.old) }
    ensures of { AtGuest host.now.guests.cells.items guest (λ front. IsOf front seat.new) }
    ensures lasts { Lasts seat.old seat.new }
    ensures lasts_with_store { S.true_to_digests host.now.guests.memory.first → seat.old.witness.held ≡ true → seat.new.witness.held ≡ true }
    ensures goes { Goes seat.old.seat seat.new.seat }
    ensures ok { IfOk result (λ next. Adds (string_bytes out.old) (string_bytes out.new) (λ text. AtGuest host.now.guests.cells.items guest (λ front. HasRun front seat.old next seat.new text))) }
{
    let ran = host.run_slice(rt, alloc, guest, seat, SLICE);
    tell_run(alloc, ran, out)
}

// Tells how a `step` has ended.
fn tell_step(alloc: Global, ran: Ran, out: &mut String) -> Result<State, AllocError>
    ensures state { IfOk result (λ next. next ≡ State.Ready) }
    ensures said { OnOk result (string_bytes out.new ≡ string_bytes out.old ++ said_to_step ran) }
{
    match ran {
        Ran::Ran(_) => tell(alloc, out, &Answer::Break)?,
        Ran::Break(_) => tell(alloc, out, &Answer::Break)?,
        Ran::Held(_) => tell(alloc, out, &Answer::Held)?,
        Ran::Stopped(_, stop) => tell(alloc, out, &Answer::Error(stop_error(stop)))?,
    }
    Ok(State::Ready)
}

// Makes one step.
pub(crate) fn step<S: SwapStore + Drop, R: Wait, G: Gate + Drop>(
    rt: &R,
    alloc: Global,
    host: &Host<S, G>,
    guest: GuestNo,
    seat: &mut Seat,
    out: &mut String,
) -> Result<State, AllocError>
    requires guest { guest < length host.now.guests.cells.items }
    requires of { AtGuest host.now.guests.cells.items guest (λ front. IsOf front seat.old) }
    ensures of { AtGuest host.now.guests.cells.items guest (λ front. IsOf front seat.new) }
    ensures lasts { Lasts seat.old seat.new }
    ensures lasts_with_store { S.true_to_digests host.now.guests.memory.first → seat.old.witness.held ≡ true → seat.new.witness.held ≡ true }
    ensures goes { Goes seat.old.seat seat.new.seat }
    ensures ok { IfOk result (λ next. Adds (string_bytes out.old) (string_bytes out.new) (λ text. AtGuest host.now.guests.cells.items guest (λ front. HasStepped front seat.old next seat.new text))) }
{
    let ran = host.run_slice(rt, alloc, guest, seat, 1);
    tell_step(alloc, ran, out)
}
