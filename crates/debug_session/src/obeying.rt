//! What a line leads to.
ghost use Rattle.std.specs.Prelude.{◌≡◌, ◌<◌, ◌++◌, true, IfOk, OnOk, codes, length, map, string_bytes};
ghost use Rattle.cell.specs.Sitting.{IsOf, Lasts};
ghost use Rattle.debugline.specs.Commands.{command_of};
ghost use Rattle.debugline.specs.Lines.{ended};
ghost use Rattle.debugline.specs.Views.{command_view, line_view};
ghost use Rattle.host.specs.Places.{AtGuest};
ghost use Rattle.debug_session.specs.Goes.{Goes};
ghost use Rattle.debug_session.specs.Ranges.{IsInRange};
ghost use Rattle.debug_session.specs.Replies.{Adds};
ghost use Rattle.debug_session.specs.Talks.{Answers, Obeys, TakesLine, TakesLines};

use crate::State;
use crate::asking::ask;
use crate::stepping::{run_on, step};
use crate::telling::tell;
use cell::{Gate, Seat};
use debugline::laws::a_line_says_its_row;
use debugline::{Answer, Command, Line, parse};
use guest_number::GuestNo;
use host::{Host, Request};
use items::WriteBytes;
use std::alloc::{AllocError, Global};
use std::sync::Wait;
use swapstore::SwapStore;

// The debugger leaves, and the guest goes on.
fn detach<S: SwapStore + Drop, R: Wait, G: Gate + Drop>(
    rt: &R,
    alloc: Global,
    host: &Host<S, G>,
    guest: GuestNo,
    out: &mut String,
) -> Result<State, AllocError>
    requires { guest < length host.now.guests.cells.items }
    ensures state { IfOk result (λ next. next ≡ State.Detached) }
    ensures said { OnOk result (string_bytes out.new ≡ string_bytes out.old ++ ended (codes "ok")) }
{
    tell(alloc, out, &Answer::Done)?;
    host.clear_breaks(rt, guest);
    host.go(rt, guest);
    Ok(State::Detached)
}

// Does what a command asks for.
fn obey<S: SwapStore + Drop, R: Wait, G: Gate + Drop>(
    rt: &R,
    alloc: Global,
    host: &Host<S, G>,
    guest: GuestNo,
    seat: &mut Seat,
    command: Command,
    out: &mut String,
) -> Result<State, AllocError>
    requires guest { guest < length host.now.guests.cells.items }
    requires of { AtGuest host.now.guests.cells.items guest (λ front. IsOf front seat.old) }
    requires range { IsInRange (command_view command) }
    ensures of { AtGuest host.now.guests.cells.items guest (λ front. IsOf front seat.new) }
    ensures lasts { Lasts seat.old seat.new }
    ensures lasts_with_store { S.true_to_digests host.now.guests.memory.first → seat.old.witness.held ≡ true → seat.new.witness.held ≡ true }
    ensures goes { Goes seat.old.seat seat.new.seat }
    ensures ok { IfOk result (λ next. Adds (string_bytes out.old) (string_bytes out.new) (λ text. AtGuest host.now.guests.cells.items guest (λ front. Obeys front seat.old (command_view command) next seat.new text))) }
{
    match command {
        Command::Regs => ask(rt, alloc, host, guest, seat, None, Request::Regs, out),
        Command::Reg(register) => {
            ask(
                rt,
                alloc,
                host,
                guest,
                seat,
                Some(register),
                Request::Regs,
                out,
            )
        }
        Command::Set(register, word) => {
            let request = Request::Poke(register, word);
            ask(rt, alloc, host, guest, seat, None, request, out)
        }
        Command::Read { address, length } => {
            let request = Request::Read(address, length);
            ask(rt, alloc, host, guest, seat, None, request, out)
        }
        Command::Write { address, bytes } => {
            let request = Request::Write(address, WriteBytes::from_vec(bytes));
            ask(rt, alloc, host, guest, seat, None, request, out)
        }
        Command::Cont => run_on(rt, alloc, host, guest, seat, out),
        Command::Step => step(rt, alloc, host, guest, seat, out),
        Command::Break(address) => {
            ask(
                rt,
                alloc,
                host,
                guest,
                seat,
                None,
                Request::Break(address),
                out,
            )
        }
        Command::Clear(address) => {
            ask(
                rt,
                alloc,
                host,
                guest,
                seat,
                None,
                Request::Clear(address),
                out,
            )
        }
        Command::Detach => detach(rt, alloc, host, guest, out),
        Command::End => Ok(State::Ended),
    }
}

// Takes a line where the session waits for one.
fn answer<S: SwapStore + Drop, R: Wait, G: Gate + Drop>(
    rt: &R,
    alloc: Global,
    host: &Host<S, G>,
    guest: GuestNo,
    seat: &mut Seat,
    line: &Line,
    out: &mut String,
) -> Result<State, AllocError>
    requires guest { guest < length host.now.guests.cells.items }
    requires of { AtGuest host.now.guests.cells.items guest (λ front. IsOf front seat.old) }
    ensures of { AtGuest host.now.guests.cells.items guest (λ front. IsOf front seat.new) }
    ensures lasts { Lasts seat.old seat.new }
    ensures lasts_with_store { S.true_to_digests host.now.guests.memory.first → seat.old.witness.held ≡ true → seat.new.witness.held ≡ true }
    ensures goes { Goes seat.old.seat seat.new.seat }
    ensures ok { IfOk result (λ next. Adds (string_bytes out.old) (string_bytes out.new) (λ text. AtGuest host.now.guests.cells.items guest (λ front. Answers front seat.old (command_of (line_view line.now)) next seat.new text))) }
{
    a_line_says_its_row();
    match parse(alloc, line)? {
        Some(command) => obey(rt, alloc, host, guest, seat, command, out),
        None => {
            tell(alloc, out, &Answer::Error(1))?;
            Ok(State::Ready)
        }
    }
}

// Takes a line.
fn take_line<S: SwapStore + Drop, R: Wait, G: Gate + Drop>(
    rt: &R,
    alloc: Global,
    host: &Host<S, G>,
    guest: GuestNo,
    seat: &mut Seat,
    state: State,
    line: &Line,
    out: &mut String,
) -> Result<State, AllocError>
    requires guest { guest < length host.now.guests.cells.items }
    requires of { AtGuest host.now.guests.cells.items guest (λ front. IsOf front seat.old) }
    ensures of { AtGuest host.now.guests.cells.items guest (λ front. IsOf front seat.new) }
    ensures lasts { Lasts seat.old seat.new }
    ensures lasts_with_store { S.true_to_digests host.now.guests.memory.first → seat.old.witness.held ≡ true → seat.new.witness.held ≡ true }
    ensures goes { Goes seat.old.seat seat.new.seat }
    ensures ok { IfOk result (λ next. Adds (string_bytes out.old) (string_bytes out.new) (λ text. AtGuest host.now.guests.cells.items guest (λ front. TakesLine front state seat.old (line_view line.now) next seat.new text))) }
{
    match state {
        State::Ready => answer(rt, alloc, host, guest, seat, line, out),
        State::Running => {
            tell(alloc, out, &Answer::Held)?;
            answer(rt, alloc, host, guest, seat, line, out)
        }
        State::Detached => Ok(State::Detached),
        State::Ended => Ok(State::Ended),
    }
}

// Takes lines, one after another.
pub(crate) fn take_lines<S: SwapStore + Drop, R: Wait, G: Gate + Drop>(
    rt: &R,
    alloc: Global,
    host: &Host<S, G>,
    guest: GuestNo,
    seat: &mut Seat,
    state: State,
    lines: &[Line],
    out: &mut String,
) -> Result<State, AllocError>
    requires guest { guest < length host.now.guests.cells.items }
    requires of { AtGuest host.now.guests.cells.items guest (λ front. IsOf front seat.old) }
    ensures of { AtGuest host.now.guests.cells.items guest (λ front. IsOf front seat.new) }
    ensures lasts { Lasts seat.old seat.new }
    ensures lasts_with_store { S.true_to_digests host.now.guests.memory.first → seat.old.witness.held ≡ true → seat.new.witness.held ≡ true }
    ensures goes { Goes seat.old.seat seat.new.seat }
    ensures ok { IfOk result (λ next. Adds (string_bytes out.old) (string_bytes out.new) (λ text. AtGuest host.now.guests.cells.items guest (λ front. TakesLines front state seat.old (map line_view lines.now) next seat.new text))) }
{
    let mut now = state;
    for line in lines {
        now = take_line(rt, alloc, host, guest, seat, now, line, out)?;
    }
    Ok(now)
}
