//! Which events a header allows.
ghost use Rattle.std.specs.Prelude.{◌≡◌, map, length, nat_lt, slice_get};
ghost use Rattle.script.specs.Allowed as spec;
ghost use Rattle.script.specs.Views.{action_view, event_view, guest_view};

use crate::action::Action;
use crate::event::Event;
use crate::header::GuestLine;
use guest_number::GuestNo;

/// The greatest number of a register.
const LAST_REGISTER: u32 = 37;

/// How many bytes are written or probed at most.
const MOST_BYTES: usize = 1024;

/// The last byte of a slot.
const LAST_BYTE: u32 = 4095;

/// Whether a number is that of a guest.
fn has_guest(guests: &[GuestLine], guest: GuestNo) -> bool
    ensures { result ≡ nat_lt guest (length (map guest_view guests.now)) }
{
    guest.index() < guests.len()
}

/// Whether a guest is there, and has so many pages.
fn has_pages(guests: &[GuestLine], guest: GuestNo, pages: u32) -> bool
    ensures { result ≡ spec.has_pages (slice_get (map guest_view guests.now) guest) pages }
{
    match guests.get(guest.index()) {
        Some(line) => pages <= line.pages,
        None => false,
    }
}

/// Whether a header of these guests and slots allows an event.
#[tactic(auto, unfolding(crate::specs::Allowed::is_allowed))]
fn is_allowed(guests: &[GuestLine], slots: u32, event: &Event) -> bool
    ensures { result ≡ spec.is_allowed (map guest_view guests.now) slots (event_view event.now) }
{
    match event {
        Event::Step { guest, .. }
        | Event::Run { guest, .. }
        | Event::In { guest, .. }
        | Event::Drain { guest }
        | Event::Fault { guest }
        | Event::Scan { guest, .. }
        | Event::Evict { guest, .. }
        | Event::AuditGuest { guest }
        | Event::Dump { guest }
        | Event::Stats { guest } => has_guest(guests, *guest),
        Event::Target { guest, pages } => has_pages(guests, *guest, *pages),
        Event::Poke {
            guest,
            register,
            ..
        } => { has_guest(guests, *guest) && *register <= LAST_REGISTER }
        Event::Write { guest, bytes, .. } => {
            has_guest(guests, *guest) && 1 <= bytes.len() && bytes.len() <= MOST_BYTES
        }
        Event::Probe { guest, length, .. } => {
            has_guest(guests, *guest) && 1 <= *length && *length as usize <= MOST_BYTES
        }
        Event::Sample | Event::Level | Event::Audit => true,
        Event::Damage { slot, byte } => *slot < slots && *byte <= LAST_BYTE,
    }
}

/// Whether a header of these guests and slots allows what a line says is done.
#[tactic(auto, unfolding(crate::specs::Allowed::may_be_done))]
pub fn may_be_done(guests: &[GuestLine], slots: u32, action: &Action) -> bool
    ensures { result ≡ spec.may_be_done (map guest_view guests.now) slots (action_view action.now) }
{
    match action {
        Action::Single(event) => is_allowed(guests, slots, event),
        Action::StepEach(_) | Action::RunEach(_) => true,
    }
}
