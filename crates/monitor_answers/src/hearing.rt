//! What is answered to a line.
ghost use Rattle.std.specs.Prelude.{◌≡◌, Result, length};
ghost use Rattle.cell.specs.Sitting.{Lasts};
ghost use Rattle.monitor.specs.Orders as spec;
ghost use Rattle.monitor.specs.Views.{order_view};
ghost use Rattle.monitor_answers.specs.Hands.{AreHands, AreKept};
ghost use Rattle.monitor_answers.specs.Keeping.{HoldsOn};
ghost use Rattle.monitor_answers.specs.Orders.{IsOrderOf, HearsOrder, Hears, Reads};

use crate::{Answer, MonitorHand, carry_out};
use cell::Gate;
use host::Host;
use monitor::{Fault, Order, parse};
use std::alloc::Global;
use std::sync::Wait;
use std::sync::atomic::AtomicU32;
use swapstore::SwapStore;

// Does what an order asks for, unless the host is to end.
fn obey<S: SwapStore + Drop, R: Wait, G: Gate + Drop>(
    rt: &R,
    alloc: Global,
    host: &Host<S, G>,
    hands: &mut [MonitorHand],
    stops: &[AtomicU32],
    order: Order,
) -> Option<Answer>
    requires hands { AreHands host.now.guests.cells.items hands.old }
    requires stops { length stops.now ≡ length host.now.guests.cells.items }
    requires order { IsOrderOf (length host.now.guests.cells.items) (order_view order) }
    ensures hands { AreHands host.now.guests.cells.items hands.new }
    ensures lasts { AreKept Lasts hands.old hands.new }
    ensures lasts_with_store { S.true_to_digests host.now.guests.memory.first → AreKept HoldsOn hands.old hands.new }
    ensures hears { HearsOrder host.now hands.old (order_view order) hands.new result }
{
    match order {
        Order::Quit => None,
        other => Some(carry_out(rt, alloc, host, hands, stops, other)),
    }
}

// Does what a line of text asks for.
fn hear_text<S: SwapStore + Drop, R: Wait, G: Gate + Drop>(
    rt: &R,
    alloc: Global,
    host: &Host<S, G>,
    hands: &mut [MonitorHand],
    stops: &[AtomicU32],
    text: &str,
) -> Option<Answer>
    requires hands { AreHands host.now.guests.cells.items hands.old }
    requires stops { length stops.now ≡ length host.now.guests.cells.items }
    ensures hands { AreHands host.now.guests.cells.items hands.new }
    ensures lasts { AreKept Lasts hands.old hands.new }
    ensures lasts_with_store { S.true_to_digests host.now.guests.memory.first → AreKept HoldsOn hands.old hands.new }
    ensures hears { Hears host.now hands.old (spec.order_of (length host.now.guests.cells.items) text.now) hands.new result }
{
    match parse(alloc, text, host.count() as u32) {
        Ok(order) => obey(rt, alloc, host, hands, stops, order),
        Err(fault) => Some(Answer::Refused(fault)),
    }
}

/// Does what a line asks for, without its line feed, and says what is answered: as `carry_out`, or the first fault that the line has. A line
/// that isn't UTF-8 is no command. None where it is `quit`: the host is to end, and nothing is done here.
pub fn hear<S: SwapStore + Drop, R: Wait, G: Gate + Drop>(
    rt: &R,
    alloc: Global,
    host: &Host<S, G>,
    hands: &mut [MonitorHand],
    stops: &[AtomicU32],
    line: &[u8],
) -> Option<Answer>
    requires hands { AreHands host.now.guests.cells.items hands.old }
    requires stops { length stops.now ≡ length host.now.guests.cells.items }
    ensures hands { AreHands host.now.guests.cells.items hands.new }
    ensures lasts { AreKept Lasts hands.old hands.new }
    ensures lasts_with_store { S.true_to_digests host.now.guests.memory.first → AreKept HoldsOn hands.old hands.new }
    ensures hears { (found : Result spec.Order spec.LineFault) → Reads (length host.now.guests.cells.items) line.now found → Hears host.now hands.old found hands.new result }
{
    match str::from_utf8(line) {
        Ok(text) => hear_text(rt, alloc, host, hands, stops, text),
        Err(_) => Some(Answer::Refused(Fault::Command)),
    }
}
