//! What is done by the events of scripts.
ghost use Rattle.std.specs.Prelude.{◌≡◌, ◌^◌, nat_lt, Some, None, if◌then◌else◌};
ghost use Rattle.simulation.specs.Acts as spec;

use guest_number::GuestNo;
use items::{DebugRegister, Item, SeatNo, What};
use script::Event;
use word32::Ppn;
use world::Event as Happening;

/// What is done by an event of a script.
#[derive(Drop)]
pub enum Act {
    /// This happens in the world.
    World(Happening),
    /// Nothing: no memory has the page that the event names.
    Skip,
    /// The books are read.
    Audit,
    /// Where the pages of this guest are is counted.
    Pages(GuestNo),
    /// The state of this guest is read.
    Dump(GuestNo),
    /// How often the pages of this guest have moved is read.
    Stats(GuestNo),
    /// All bits of this slot's byte of this place are inverted.
    Damage(u32, u32),
}

// The page of this number, if some memory has such a page.
fn page_of(number: u32) -> Option<Ppn>
    ensures { result ≡ (if nat_lt number (2 ^ 20) then Some number else None) }
{
    if number < 1 << 20 {
        Some(Ppn::new(number))
    } else {
        None
    }
}

// What happens to a guest by an item of one of its seats.
fn item(guest: GuestNo, seat: SeatNo, what: What) -> Act
    ensures { result ≡ Act.World (spec.item_event guest seat what) }
{
    Act::World(Happening::Input(guest, Item { seat, what }))
}

fn scan(guest: GuestNo, page: u32) -> Act
    ensures { result ≡ spec.scan_act guest page }
{
    match page_of(page) {
        Some(page) => Act::World(Happening::Scan(guest, page)),
        None => Act::Skip,
    }
}

fn evict(guest: GuestNo, page: u32) -> Act
    ensures { result ≡ spec.evict_act guest page }
{
    match page_of(page) {
        Some(page) => Act::World(Happening::Evict(guest, page)),
        None => Act::Skip,
    }
}

/// What is done by an event: input and steps are items of seat 0, what is done to the console and the balloon is one of seat 1, and what
/// a debugger does of seat 3.
pub fn act_of(event: Event) -> Act
    requires { spec.HasRegister event }
    ensures { result ≡ spec.act_of event }
{
    match event {
        Event::Step { guest, count } => Act::World(Happening::Steps(guest, count)),
        Event::Run { guest, count } => Act::World(Happening::Run(guest, count)),
        Event::In { guest, bytes } => Act::World(Happening::Feed(guest, bytes)),
        Event::Drain { guest } => item(guest, SeatNo::new(1), What::Drain),
        Event::Target { guest, pages } => item(guest, SeatNo::new(1), What::Target(pages)),
        Event::Poke {
            guest,
            register,
            value,
        } => {
            let register = DebugRegister::new(register as u8);
            item(guest, SeatNo::new(3), What::Poke { register, value })
        }
        Event::Write {
            guest,
            address,
            bytes,
        } => Act::World(Happening::Write(guest, address, bytes)),
        Event::Probe {
            guest,
            address,
            length,
        } => Act::World(Happening::Probe(guest, address, length)),
        Event::Fault { guest } => Act::World(Happening::Fault(guest)),
        Event::Scan { guest, page } => scan(guest, page),
        Event::Evict { guest, page } => evict(guest, page),
        Event::Sample => Act::World(Happening::Sample),
        Event::Level => Act::World(Happening::Level),
        Event::Audit => Act::Audit,
        Event::AuditGuest { guest } => Act::Pages(guest),
        Event::Dump { guest } => Act::Dump(guest),
        Event::Stats { guest } => Act::Stats(guest),
        Event::Damage { slot, byte } => Act::Damage(slot, byte),
    }
}
