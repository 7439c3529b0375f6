//! What is answered to an order.
ghost use Rattle.std.specs.Prelude.{◌≡◌, ◌<◌, true, length};
ghost use Rattle.cell.specs.Sitting.{Lasts};
ghost use Rattle.host.specs.Places.{AtGuest};
ghost use Rattle.monitor.specs.Views.{order_view};
ghost use Rattle.monitor_answers.specs.Hands.{IsHandOf, AreHands, AreKept, AtHand};
ghost use Rattle.monitor_answers.specs.Keeping.{HoldsOn};
ghost use Rattle.monitor_answers.specs.Orders.{IsOrderOf, IsList, IsLog, Leads, Targets, Drains, Puts};

use crate::listing::lines_of;
use crate::{Answer, MonitorHand};
use cell::Gate;
use guest_number::GuestNo;
use host::Host;
use monitor::{Fault, Order};
use std::alloc::Global;
use std::sync::Wait;
use std::sync::atomic::AtomicU32;
use swapstore::SwapStore;
use taxpolicy::Tax;

// How the guests stand.
fn list<S: SwapStore + Drop, R: Wait, G: Gate + Drop>(
    rt: &R,
    alloc: Global,
    host: &Host<S, G>,
    stops: &[AtomicU32],
) -> Answer
    requires { length stops.now ≡ length host.now.guests.cells.items }
    ensures { IsList host.now.guests.cells.items result }
{
    match lines_of(rt, alloc, host, stops) {
        Ok(lines) => Answer::Guests(lines),
        Err(_) => Answer::Refused(Fault::Memory),
    }
}

// How many pages a guest has.
fn pages_of<S: SwapStore + Drop, G: Gate + Drop>(host: &Host<S, G>, guest: GuestNo) -> u32
    requires { guest < length host.now.guests.cells.items }
    ensures { AtGuest host.now.guests.cells.items guest (λ front. result ≡ front.pages) }
{
    host.guests.cells[guest.index()].front.pages
}

// A guest is asked to give so many pages to its balloon.
#[tactic(auto, using(crate::proofs::Places::seat_at, crate::proofs::Places::with_seat, crate::proofs::Setting::out_of_range, crate::proofs::Setting::target_set, crate::proofs::Setting::target_stopped))]
fn target<S: SwapStore + Drop, R: Wait, G: Gate + Drop>(
    rt: &R,
    host: &Host<S, G>,
    guest: GuestNo,
    hand: &mut MonitorHand,
    pages: u32,
) -> Answer
    requires guest { guest < length host.now.guests.cells.items }
    requires hand { AtGuest host.now.guests.cells.items guest (λ front. IsHandOf front hand.old) }
    ensures hand { AtGuest host.now.guests.cells.items guest (λ front. IsHandOf front hand.new) }
    ensures lasts { Lasts hand.old.seat hand.new.seat }
    ensures lasts_with_store { S.true_to_digests host.now.guests.memory.first → hand.old.seat.witness.held ≡ true → hand.new.seat.witness.held ≡ true }
    ensures done { AtGuest host.now.guests.cells.items guest (λ front. Targets pages result front hand.old hand.new) }
{
    if pages > pages_of(host, guest) {
        return Answer::Refused(Fault::Range);
    }
    match host.set_target(rt, guest, &mut hand.seat, pages) {
        Ok(()) => Answer::Done,
        Err(stop) => Answer::Stopped(stop),
    }
}

// What a guest's console has put out.
#[tactic(auto, using(crate::proofs::Places::seat_at, crate::proofs::Places::with_seat, crate::proofs::Setting::drain_stopped))]
fn drain<S: SwapStore + Drop, R: Wait, G: Gate + Drop>(
    rt: &R,
    host: &Host<S, G>,
    guest: GuestNo,
    hand: &mut MonitorHand,
) -> Answer
    requires guest { guest < length host.now.guests.cells.items }
    requires hand { AtGuest host.now.guests.cells.items guest (λ front. IsHandOf front hand.old) }
    ensures hand { AtGuest host.now.guests.cells.items guest (λ front. IsHandOf front hand.new) }
    ensures lasts { Lasts hand.old.seat hand.new.seat }
    ensures lasts_with_store { S.true_to_digests host.now.guests.memory.first → hand.old.seat.witness.held ≡ true → hand.new.seat.witness.held ≡ true }
    ensures done { AtGuest host.now.guests.cells.items guest (λ front. Drains guest result front hand.old hand.new) }
{
    match host.drain(rt, guest, &mut hand.seat) {
        Ok(bytes) => Answer::Output { guest, bytes },
        Err(stop) => Answer::Stopped(stop),
    }
}

// Bytes for a guest's console.
#[tactic(auto, using(crate::proofs::Places::feed_at, crate::proofs::Places::with_feed))]
fn put<S: SwapStore + Drop, R: Wait, G: Gate + Drop>(
    rt: &R,
    host: &Host<S, G>,
    guest: GuestNo,
    hand: &mut MonitorHand,
    bytes: &[u8],
) -> Answer
    requires guest { guest < length host.now.guests.cells.items }
    requires hand { AtGuest host.now.guests.cells.items guest (λ front. IsHandOf front hand.old) }
    ensures hand { AtGuest host.now.guests.cells.items guest (λ front. IsHandOf front hand.new) }
    ensures lasts { Lasts hand.old.seat hand.new.seat }
    ensures lasts_with_store { S.true_to_digests host.now.guests.memory.first → hand.old.seat.witness.held ≡ true → hand.new.seat.witness.held ≡ true }
    ensures done { AtGuest host.now.guests.cells.items guest (λ front. Puts guest bytes.now result front hand.old hand.new) }
{
    Answer::Put {
        guest,
        count: host.feed(rt, guest, &mut hand.feed, bytes),
    }
}

// The same with the hand among all of them.
fn target_at<S: SwapStore + Drop, R: Wait, G: Gate + Drop>(
    rt: &R,
    host: &Host<S, G>,
    hands: &mut [MonitorHand],
    guest: GuestNo,
    pages: u32,
) -> Answer
    requires guest { guest < length host.now.guests.cells.items }
    requires hands { AreHands host.now.guests.cells.items hands.old }
    ensures hands { AreHands host.now.guests.cells.items hands.new }
    ensures lasts { AreKept Lasts hands.old hands.new }
    ensures lasts_with_store { S.true_to_digests host.now.guests.memory.first → AreKept HoldsOn hands.old hands.new }
    ensures done { AtHand host.now.guests.cells.items hands.old guest hands.new (Targets pages result) }
{
    target(rt, host, guest, &mut hands[guest.index()], pages)
}

// The same with the hand among all of them.
fn drain_at<S: SwapStore + Drop, R: Wait, G: Gate + Drop>(
    rt: &R,
    host: &Host<S, G>,
    hands: &mut [MonitorHand],
    guest: GuestNo,
) -> Answer
    requires guest { guest < length host.now.guests.cells.items }
    requires hands { AreHands host.now.guests.cells.items hands.old }
    ensures hands { AreHands host.now.guests.cells.items hands.new }
    ensures lasts { AreKept Lasts hands.old hands.new }
    ensures lasts_with_store { S.true_to_digests host.now.guests.memory.first → AreKept HoldsOn hands.old hands.new }
    ensures done { AtHand host.now.guests.cells.items hands.old guest hands.new (Drains guest result) }
{
    drain(rt, host, guest, &mut hands[guest.index()])
}

// The same with the hand among all of them.
fn put_at<S: SwapStore + Drop, R: Wait, G: Gate + Drop>(
    rt: &R,
    host: &Host<S, G>,
    hands: &mut [MonitorHand],
    guest: GuestNo,
    bytes: &[u8],
) -> Answer
    requires guest { guest < length host.now.guests.cells.items }
    requires hands { AreHands host.now.guests.cells.items hands.old }
    ensures hands { AreHands host.now.guests.cells.items hands.new }
    ensures lasts { AreKept Lasts hands.old hands.new }
    ensures lasts_with_store { S.true_to_digests host.now.guests.memory.first → AreKept HoldsOn hands.old hands.new }
    ensures done { AtHand host.now.guests.cells.items hands.old guest hands.new (Puts guest bytes.now result) }
{
    put(rt, host, guest, &mut hands[guest.index()], bytes)
}

// How long a guest's log is.
fn log<S: SwapStore + Drop, R: Wait, G: Gate + Drop>(
    rt: &R,
    host: &Host<S, G>,
    guest: GuestNo,
) -> Answer
    requires { guest < length host.now.guests.cells.items }
    ensures { IsLog guest result }
{
    let status = host.status(rt, guest);
    Answer::Log {
        guest,
        items: status.items,
        runs: status.runs,
    }
}

/// Does what an order asks for, and says what is answered. The hands are those of all guests, and the stops the numbers of the stops by which
/// the last slice of each guest's runner ended, 0 where it ended by none; both in the order of the guests. `quit` does nothing here.
#[tactic(auto, using(crate::proofs::Setting::kept_lasts, crate::proofs::Setting::kept_holds))]
pub fn carry_out<S: SwapStore + Drop, R: Wait, G: Gate + Drop>(
    rt: &R,
    alloc: Global,
    host: &Host<S, G>,
    hands: &mut [MonitorHand],
    stops: &[AtomicU32],
    order: Order,
) -> Answer
    requires hands { AreHands host.now.guests.cells.items hands.old }
    requires stops { length stops.now ≡ length host.now.guests.cells.items }
    requires order { IsOrderOf (length host.now.guests.cells.items) (order_view order) }
    ensures hands { AreHands host.now.guests.cells.items hands.new }
    ensures lasts { AreKept Lasts hands.old hands.new }
    ensures lasts_with_store { S.true_to_digests host.now.guests.memory.first → AreKept HoldsOn hands.old hands.new }
    ensures leads { Leads host.now hands.old (order_view order) hands.new result }
{
    match order {
        Order::List => list(rt, alloc, host, stops),
        Order::Books => Answer::Books(host.audit(rt)),
        Order::Level => Answer::Level(host.level(rt)),
        Order::Tax(percent) => {
            let tax = Tax {
                percent: percent as u8,
            };
            host.set_tax(rt, tax);
            Answer::Done
        }
        Order::Target { guest, pages } => { target_at(rt, host, hands, guest, pages) }
        Order::Hold(guest) => {
            host.hold(rt, guest);
            Answer::Done
        }
        Order::Go(guest) => {
            host.go(rt, guest);
            Answer::Done
        }
        Order::Log(guest) => log(rt, host, guest),
        Order::In { guest, bytes } => { put_at(rt, host, hands, guest, &bytes) }
        Order::Drain(guest) => drain_at(rt, host, hands, guest),
        Order::Room => Answer::Room(host.room()),
        Order::Help => Answer::Help,
        Order::Quit => Answer::Done,
    }
}
