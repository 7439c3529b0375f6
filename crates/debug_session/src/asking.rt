//! Lines that ask the host for something.
ghost use Rattle.std.specs.Prelude.{◌≡◌, ◌<◌, true, IfOk, length, string_bytes};
ghost use Rattle.cell.specs.Sitting.{IsOf, Lasts};
ghost use Rattle.host.specs.Debugging.{IsSmall};
ghost use Rattle.host.specs.Places.{AtGuest};
ghost use Rattle.debug_session.specs.Goes.{Goes};
ghost use Rattle.debug_session.specs.Replies.{Adds};
ghost use Rattle.debug_session.specs.Talks.{Asked};

use crate::State;
use crate::telling::{tell_done, tell_refused};
use cell::{Gate, Seat};
use guest_number::GuestNo;
use host::{Host, Request};
use items::DebugRegister;
use std::alloc::{AllocError, Global};
use std::sync::Wait;
use swapstore::SwapStore;

// Asks the host for something, and tells what it answers: of registers one or all.
pub(crate) fn ask<S: SwapStore + Drop, R: Wait, G: Gate + Drop>(
    rt: &R,
    alloc: Global,
    host: &Host<S, G>,
    guest: GuestNo,
    seat: &mut Seat,
    which: Option<DebugRegister>,
    request: Request,
    out: &mut String,
) -> Result<State, AllocError>
    requires guest { guest < length host.now.guests.cells.items }
    requires of { AtGuest host.now.guests.cells.items guest (λ front. IsOf front seat.old) }
    requires small { IsSmall request }
    ensures of { AtGuest host.now.guests.cells.items guest (λ front. IsOf front seat.new) }
    ensures lasts { Lasts seat.old seat.new }
    ensures lasts_with_store { S.true_to_digests host.now.guests.memory.first → seat.old.witness.held ≡ true → seat.new.witness.held ≡ true }
    ensures goes { Goes seat.old.seat seat.new.seat }
    ensures ok { IfOk result (λ next. Adds (string_bytes out.old) (string_bytes out.new) (λ text. AtGuest host.now.guests.cells.items guest (λ front. Asked front seat.old which request next seat.new text))) }
{
    match host.debug(rt, alloc, guest, seat, request) {
        Ok(done) => tell_done(alloc, which, done, out),
        Err(error) => tell_refused(alloc, error, out),
    }
}
