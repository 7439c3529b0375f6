//! The calls of a debugger.
use crate::debugging::debug_of;
use crate::places::cell_of;
use crate::{DebugError, Host, Reply, Request, Stop};
use cell::{Gate, Seat};
use guest_number::GuestNo;
use std::alloc::Global;
use std::sync::Wait;
use swapstore::SwapStore;

impl<S: SwapStore + Drop, G: Gate + Drop> Host<S, G> {
    ghost use Rattle.std.specs.Prelude.{◌≡◌, ◌<◌, true, IfOk, IfErr, OnErr, IsErrOf, length};
    ghost use Rattle.seated.specs.Acts.{Sees};
    ghost use Rattle.cell.specs.Sitting.{IsOf, Lasts};
    ghost use Rattle.host.specs.Evictions.{WhyNoRoom};
    ghost use Rattle.host.specs.Debugging.{Did, WhyRefused, IsSmall};
    ghost use Rattle.host.specs.Places.{AtGuest};

    /// Does what a debugger asks of a guest: registers and bytes are those of the machine after the log that the seat has then seen; what is
    /// written is an item of the seat. A page that is read comes from its slot first, one that is written to gets a frame of its own; where
    /// no frame is free, pages leave theirs (`evict_one`), at most 64 for one request.
    ///
    /// `NoPlace` where one of the bytes has no place in memory; `NoBreakpoint` where the guest has 32 other breakpoints; else `Stop`. The
    /// seat has seen the log where it is refused, and has added nothing.
    pub fn debug<R: Wait>(
        &self,
        rt: &R,
        alloc: Global,
        guest: GuestNo,
        seat: &mut Seat,
        request: Request,
    ) -> Result<Reply, DebugError>
        requires guest { guest < length self.now.guests.cells.items }
        requires of { AtGuest self.now.guests.cells.items guest (λ front. IsOf front seat.old) }
        requires small { IsSmall request }
        ensures of { AtGuest self.now.guests.cells.items guest (λ front. IsOf front seat.new) }
        ensures lasts { Lasts seat.old seat.new }
        ensures lasts_with_store { S.true_to_digests self.now.guests.memory.first → seat.new.witness.held ≡ true }
        ensures ok { IfOk result (λ reply. AtGuest self.now.guests.cells.items guest (λ front. Did front seat.old request seat.new reply)) }
        ensures err { OnErr result (Sees seat.old.seat seat.new.seat) }
        ensures why { IfErr result (λ error. AtGuest self.now.guests.cells.items guest (λ front. WhyRefused front request seat.new error)) }
        ensures no_frame { IsErrOf result (DebugError.Stop Stop.NoFrame) → WhyNoRoom self.now.guests.cells.items Stop.NoFrame }
        ensures no_swap { IsErrOf result (DebugError.Stop Stop.NoSwap) → WhyNoRoom self.now.guests.cells.items Stop.NoSwap }
    {
        let cell = cell_of(&self.guests, guest);
        debug_of(rt, alloc, &self.guests, &self.policy, cell, seat, request)
    }

    /// Takes all breakpoints of a guest away.
    pub fn clear_breaks<R: Wait>(&self, rt: &R, guest: GuestNo)
        requires { guest < length self.now.guests.cells.items }
    {
        cell_of(&self.guests, guest).clear_breaks(rt);
    }

    /// Holds a guest: until `go` it makes no step but those of seat 3.
    pub fn hold<R: Wait>(&self, rt: &R, guest: GuestNo)
        requires { guest < length self.now.guests.cells.items }
    {
        cell_of(&self.guests, guest).hold(rt);
    }

    /// Lets a guest go on after `hold`.
    pub fn go<R: Wait>(&self, rt: &R, guest: GuestNo)
        requires { guest < length self.now.guests.cells.items }
    {
        cell_of(&self.guests, guest).go(rt);
    }
}
