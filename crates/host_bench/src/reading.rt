//! Words of a guest, as a debugger reads them.
ghost use Rattle.std.specs.Prelude.{◌<◌, length};
ghost use Rattle.cell.specs.Sitting.{IsOf};
ghost use Rattle.host.specs.Places.{AtGuest};

use crate::guests::{START, first_word};
use crate::hosts::OneHost;
use cell::Seat;
use guest_number::GuestNo;
use host::{Reply, Request};
use std::alloc::Global;
use std::sync::Wait;

/// Reads the word of a guest at a place, counted in words; whether it is the one that stood there at first.
pub fn is_first_word<R: Wait>(
    rt: &R,
    alloc: Global,
    host: &OneHost,
    seat: &mut Seat,
    place: u32,
) -> bool
    requires guest { 0 < length host.now.guests.cells.items }
    requires seat { AtGuest host.now.guests.cells.items 0 (λ front. IsOf front seat.old) }
    requires place { place < 65536 }
    ensures { AtGuest host.now.guests.cells.items 0 (λ front. IsOf front seat.new) }
{
    let request = Request::Read(START + 4 * place, 4);
    match host.debug(rt, alloc, GuestNo::new(0), seat, request) {
        Ok(Reply::Bytes(bytes)) => bytes.as_slice() == &first_word(place).to_le_bytes()[..],
        Ok(_) => false,
        Err(_) => false,
    }
}
