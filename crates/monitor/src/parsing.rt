//! Lines as orders.
ghost use Rattle.std.specs.Prelude.{◌≡◌};
ghost use Rattle.monitor.specs.Answers.{Answers};
ghost use Rattle.monitor.specs.Orders as spec;
ghost use Rattle.monitor.specs.Views.{order_for, order_view};

use crate::fault::Fault;
use crate::order::{GuestOrder, Order};
use guest_number::GuestNo;
use line_words::{Words, are_bytes, bytes, decimal, is, words_of};
use std::alloc::Global;

/// How many bytes a line has at most.
pub const MOST_BYTES: usize = 4096;

/// The highest tax, in percent.
pub const MOST_TAX: u32 = 99;

/// The order that a line is, in a host of so many guests, or its first fault, in the order of `Fault`'s variants.
///
/// Whether a target is at most the guest's pages isn't looked at here. `Fault::Memory` comes only where memory is refused for
/// the bytes of an input.
pub fn parse(alloc: Global, line: &str, guests: u32) -> Result<Order, Fault>
    ensures { Answers result (spec.order_of guests line.now) }
{
    if line.len() > MOST_BYTES {
        return Err(Fault::Command);
    }
    match words_of(line.as_bytes()) {
        Words::One(name) => with_none(name),
        Words::Two(name, a) => with_one(guests, name, a),
        Words::Three(name, a, b) => with_two(alloc, guests, name, a, b),
        Words::More => Err(Fault::Command),
    }
}

/// An order of one word.
#[tactic(auto, unfolding(crate::specs::Orders::order_of_one))]
fn with_none(name: &[u8]) -> Result<Order, Fault>
    ensures { Answers result (spec.order_of_one name.now) }
{
    if is(name, "list") {
        Ok(Order::List)
    } else if is(name, "books") {
        Ok(Order::Books)
    } else if is(name, "level") {
        Ok(Order::Level)
    } else if is(name, "room") {
        Ok(Order::Room)
    } else if is(name, "help") {
        Ok(Order::Help)
    } else if is(name, "quit") {
        Ok(Order::Quit)
    } else {
        Err(Fault::Command)
    }
}

/// An order of two words.
#[tactic(auto, unfolding(crate::specs::Orders::order_of_two))]
fn with_one(guests: u32, name: &[u8], a: &[u8]) -> Result<Order, Fault>
    ensures { Answers result (spec.order_of_two guests name.now a.now) }
{
    if is(name, "tax") {
        tax(a)
    } else if is(name, "hold") {
        for_guest(GuestOrder::Hold, guests, a)
    } else if is(name, "go") {
        for_guest(GuestOrder::Go, guests, a)
    } else if is(name, "log") {
        for_guest(GuestOrder::Log, guests, a)
    } else if is(name, "drain") {
        for_guest(GuestOrder::Drain, guests, a)
    } else {
        Err(Fault::Command)
    }
}

/// An order of three words.
#[tactic(auto, unfolding(crate::specs::Orders::order_of_three))]
fn with_two(alloc: Global, guests: u32, name: &[u8], a: &[u8], b: &[u8]) -> Result<Order, Fault>
    ensures { Answers result (spec.order_of_three guests name.now a.now b.now) }
{
    if is(name, "target") {
        target(guests, a, b)
    } else if is(name, "in") {
        input(alloc, guests, a, b)
    } else {
        Err(Fault::Command)
    }
}

#[tactic(auto, unfolding(crate::specs::Orders::tax_of))]
fn tax(percent: &[u8]) -> Result<Order, Fault>
    ensures { Answers result (spec.tax_of percent.now) }
{
    let Some(percent) = decimal(percent) else {
        return Err(Fault::Number);
    };
    if percent > MOST_TAX {
        return Err(Fault::Range);
    }
    Ok(Order::Tax(percent))
}

#[tactic(auto, unfolding(crate::specs::Orders::for_guest))]
fn for_guest(order: GuestOrder, guests: u32, guest: &[u8]) -> Result<Order, Fault>
    ensures { Answers result (spec.for_guest (order_for order) guests guest.now) }
{
    let Some(guest) = decimal(guest) else {
        return Err(Fault::Number);
    };
    if guest >= guests {
        return Err(Fault::Guest);
    }
    Ok(of_guest(order, GuestNo::new(guest)))
}

fn of_guest(order: GuestOrder, guest: GuestNo) -> Order
    ensures { order_view result ≡ order_for order guest }
{
    match order {
        GuestOrder::Hold => Order::Hold(guest),
        GuestOrder::Go => Order::Go(guest),
        GuestOrder::Log => Order::Log(guest),
        GuestOrder::Drain => Order::Drain(guest),
    }
}

#[tactic(auto, unfolding(crate::specs::Orders::target_of))]
fn target(guests: u32, guest: &[u8], pages: &[u8]) -> Result<Order, Fault>
    ensures { Answers result (spec.target_of guests guest.now pages.now) }
{
    let Some(guest) = decimal(guest) else {
        return Err(Fault::Number);
    };
    let Some(pages) = decimal(pages) else {
        return Err(Fault::Number);
    };
    if guest >= guests {
        return Err(Fault::Guest);
    }
    let guest = GuestNo::new(guest);
    Ok(Order::Target { guest, pages })
}

#[tactic(auto, unfolding(crate::specs::Orders::input_of))]
fn input(alloc: Global, guests: u32, guest: &[u8], digits: &[u8]) -> Result<Order, Fault>
    ensures { Answers result (spec.input_of guests guest.now digits.now) }
{
    let Some(guest) = decimal(guest) else {
        return Err(Fault::Number);
    };
    if !are_bytes(digits) {
        return Err(Fault::Number);
    }
    if guest >= guests {
        return Err(Fault::Guest);
    }
    let guest = GuestNo::new(guest);
    match bytes(alloc, digits) {
        Ok(Some(bytes)) => Ok(Order::In { guest, bytes }),
        Ok(None) => Err(Fault::Number),
        Err(_) => Err(Fault::Memory),
    }
}
