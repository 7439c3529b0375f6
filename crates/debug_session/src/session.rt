//! A session.
use crate::State;
use crate::obeying::take_lines;
use crate::stepping::run_on;
use crate::telling::tell;
use cell::{Gate, Seat};
use debugline::{Answer, Framer};
use guest_number::GuestNo;
use host::Host;
use std::alloc::{AllocError, Global};
use std::sync::Wait;
use swapstore::SwapStore;

/// A debugger's connection to a guest.
#[derive(Drop)]
pub struct Session {
    /// It cuts what comes into lines.
    pub framer: Framer,
    /// How the session stands.
    pub state: State,
}

impl Session {
    ghost use Rattle.std.specs.Prelude.{◌≡◌, ◌<◌, ◌++◌, ℕ, [], List, true, OnOk, length, string_bytes};
    ghost use Rattle.cell.specs.declared.cell.Front.{Front};
    ghost use Rattle.cell.specs.declared.seat.Seat.{Seat};
    ghost use Rattle.cell.specs.Sitting.{IsOf, Lasts};
    ghost use Rattle.host.specs.Places.{AtGuest};
    ghost use Rattle.debug_session.specs.Goes.{Goes};
    ghost use Rattle.debug_session.specs.Replies.{Adds, said_at_end};
    ghost use Rattle.debug_session.specs.Talks.{HasTalked};

    /// A session with a guest, of which nothing has come yet. The guest is held from now on.
    pub fn open<S: SwapStore + Drop, R: Wait, G: Gate + Drop>(
        rt: &R,
        alloc: Global,
        host: &Host<S, G>,
        guest: GuestNo,
    ) -> Session
        requires { guest < length host.now.guests.cells.items }
        ensures state { result.state ≡ State.Ready }
        ensures talk { (front : Front S) (start : Seat) → HasTalked front start [] [] result start }
    {
        host.hold(rt, guest);
        Session {
            framer: Framer::new(alloc),
            state: State::Ready,
        }
    }

    /// Takes the next piece of what comes, and does each line that it ends, in order. The replies come behind `out`, each with its line feed.
    /// A line that comes while a `cont` goes on ends it. Where `cont` is asked for its first slice is made here.
    ///
    /// `AllocError` where memory is refused for a line or its reply: the connection is then to be closed, and what the line asked for may be
    /// done.
    pub fn take<S: SwapStore + Drop, R: Wait, G: Gate + Drop>(
        &mut self,
        rt: &R,
        alloc: Global,
        host: &Host<S, G>,
        guest: GuestNo,
        seat: &mut Seat,
        piece: &[u8],
        out: &mut String,
    ) -> Result<(), AllocError>
        requires guest { guest < length host.now.guests.cells.items }
        requires of { AtGuest host.now.guests.cells.items guest (λ front. IsOf front seat.old) }
        ensures of { AtGuest host.now.guests.cells.items guest (λ front. IsOf front seat.new) }
        ensures lasts { Lasts seat.old seat.new }
        ensures lasts_with_store { S.true_to_digests host.now.guests.memory.first → seat.old.witness.held ≡ true → seat.new.witness.held ≡ true }
        ensures goes { Goes seat.old.seat seat.new.seat }
        ensures talk { OnOk result (Adds (string_bytes out.old) (string_bytes out.new) (λ text. AtGuest host.now.guests.cells.items guest (λ front.
            (start : Seat) (came sent : List ℕ) → HasTalked front start came sent self.old seat.old → HasTalked front start (came ++ piece.now) (sent ++ text) self.new seat.new))) }
    {
        let lines = self.framer.feed(alloc, piece)?;
        self.state = take_lines(rt, alloc, host, guest, seat, self.state, &lines, out)?;
        Ok(())
    }

    /// Makes one more slice of the `cont` that goes on. Where it ends the `cont`, at a breakpoint, at a stop, or because the guest is blocked,
    /// the reply comes behind `out`.
    ///
    /// `AllocError` where memory is refused for the reply: the connection is then to be closed.
    pub fn go_on<S: SwapStore + Drop, R: Wait, G: Gate + Drop>(
        &mut self,
        rt: &R,
        alloc: Global,
        host: &Host<S, G>,
        guest: GuestNo,
        seat: &mut Seat,
        out: &mut String,
    ) -> Result<(), AllocError>
        requires running { self.old.state ≡ State.Running }
        requires guest { guest < length host.now.guests.cells.items }
        requires of { AtGuest host.now.guests.cells.items guest (λ front. IsOf front seat.old) }
        ensures of { AtGuest host.now.guests.cells.items guest (λ front. IsOf front seat.new) }
        ensures lasts { Lasts seat.old seat.new }
        ensures lasts_with_store { S.true_to_digests host.now.guests.memory.first → seat.old.witness.held ≡ true → seat.new.witness.held ≡ true }
        ensures goes { Goes seat.old.seat seat.new.seat }
        ensures talk { OnOk result (Adds (string_bytes out.old) (string_bytes out.new) (λ text. AtGuest host.now.guests.cells.items guest (λ front.
            (start : Seat) (came sent : List ℕ) → HasTalked front start came sent self.old seat.old → HasTalked front start came (sent ++ text) self.new seat.new))) }
    {
        self.state = run_on(rt, alloc, host, guest, seat, out)?;
        Ok(())
    }

    /// The connection ends: after `detach` the guest goes on, else it is held. It has no breakpoints any more. To a `cont` that still goes on
    /// the reply comes behind `out`.
    ///
    /// `AllocError` where memory is refused for that reply.
    pub fn leave<S: SwapStore + Drop, R: Wait, G: Gate + Drop>(
        self,
        rt: &R,
        alloc: Global,
        host: &Host<S, G>,
        guest: GuestNo,
        out: &mut String,
    ) -> Result<(), AllocError>
        requires { guest < length host.now.guests.cells.items }
        ensures { OnOk result (string_bytes out.new ≡ string_bytes out.old ++ said_at_end self.state) }
    {
        if self.state == State::Detached {
            return Ok(());
        }
        host.hold(rt, guest);
        host.clear_breaks(rt, guest);
        if self.state == State::Running {
            return tell(alloc, out, &Answer::Held);
        }
        Ok(())
    }
}
