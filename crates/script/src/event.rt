//! Events.
ghost use Rattle.std.specs.Prelude.{◌≡◌, IfOk, option_map};
ghost use Rattle.script.specs.Answers.{Answers};
ghost use Rattle.script.specs.Events as spec;
ghost use Rattle.script.specs.Views.{arguments_view, event_view};
ghost use Rattle.script.specs.Words.{Zero, One, Two, Three};

use crate::error::LineError;
use crate::name::EventName;
use crate::number::{bytes, guest_of, hex_word, number};
use crate::words::Arguments;
use guest_number::GuestNo;
use std::alloc::{AllocError, Global};

/// What is to be done. The guests of the header count from 0.
#[derive(Debug, Drop, PartialEq, Eq)]
pub enum Event {
    /// At most so many steps of a guest, without faults supplied.
    Step {
        guest: GuestNo,
        count: u32,
    },
    /// At most so many steps of a guest, with faults supplied.
    Run {
        guest: GuestNo,
        count: u32,
    },
    /// Bytes for a guest's console, one at least.
    In {
        guest: GuestNo,
        bytes: Vec<u8>,
    },
    /// What a guest's console has put out.
    Drain {
        guest: GuestNo,
    },
    /// So many pages for a guest's balloon, at most its pages.
    Target {
        guest: GuestNo,
        pages: u32,
    },
    /// A write to a guest's register, 0 to 37.
    Poke {
        guest: GuestNo,
        register: u32,
        value: u32,
    },
    /// A write of 1 to 1,024 bytes to a guest's memory, at a virtual address.
    Write {
        guest: GuestNo,
        address: u32,
        bytes: Vec<u8>,
    },
    /// A read of 1 to 1,024 bytes of a guest's memory, at a virtual address.
    Probe {
        guest: GuestNo,
        address: u32,
        length: u32,
    },
    /// The page that a guest needs is supplied.
    Fault {
        guest: GuestNo,
    },
    /// A guest's page is offered for sharing.
    Scan {
        guest: GuestNo,
        page: u32,
    },
    /// A guest's page is evicted.
    Evict {
        guest: GuestNo,
        page: u32,
    },
    /// The touched pages are counted, and new samples drawn.
    Sample,
    /// The level of free frames is taken, and acted upon.
    Level,
    /// The books are compared with what the guests have.
    Audit,
    /// The pages of a guest are counted, by where they are.
    AuditGuest {
        guest: GuestNo,
    },
    /// A guest's state is printed.
    Dump {
        guest: GuestNo,
    },
    /// How often the pages of a guest have moved, and why, is printed.
    Stats {
        guest: GuestNo,
    },
    /// A byte of a slot, 0 to 4,095, is inverted.
    Damage {
        slot: u32,
        byte: u32,
    },
}

impl Event {
    /// The same event.
    pub fn try_clone(&self, alloc: Global) -> Result<Event, AllocError>
        ensures { IfOk result (λ event. event_view event ≡ event_view self.now) }
    {
        Ok(match *self {
            Event::Step { guest, count } => Event::Step { guest, count },
            Event::Run { guest, count } => Event::Run { guest, count },
            Event::In { guest, ref bytes } => {
                let bytes = copy_of(alloc, bytes)?;
                Event::In { guest, bytes }
            }
            Event::Drain { guest } => Event::Drain { guest },
            Event::Target { guest, pages } => Event::Target { guest, pages },
            Event::Poke {
                guest,
                register,
                value,
            } => Event::Poke {
                guest,
                register,
                value,
            },
            Event::Write {
                guest,
                address,
                ref bytes,
            } => {
                let bytes = copy_of(alloc, bytes)?;
                Event::Write {
                    guest,
                    address,
                    bytes,
                }
            }
            Event::Probe {
                guest,
                address,
                length,
            } => Event::Probe {
                guest,
                address,
                length,
            },
            Event::Fault { guest } => Event::Fault { guest },
            Event::Scan { guest, page } => Event::Scan { guest, page },
            Event::Evict { guest, page } => Event::Evict { guest, page },
            Event::Sample => Event::Sample,
            Event::Level => Event::Level,
            Event::Audit => Event::Audit,
            Event::AuditGuest { guest } => Event::AuditGuest { guest },
            Event::Dump { guest } => Event::Dump { guest },
            Event::Stats { guest } => Event::Stats { guest },
            Event::Damage { slot, byte } => Event::Damage { slot, byte },
        })
    }
}

/// The same bytes.
fn copy_of(alloc: Global, bytes: &[u8]) -> Result<Vec<u8>, AllocError>
    ensures { IfOk result (λ copy. copy.items ≡ bytes.now) }
{
    let mut copy = Vec::new(alloc);
    copy.extend_from_slice(bytes)?;
    Ok(copy)
}

/// The event of a name and the words behind it, if it has such words.
#[tactic(auto, unfolding(crate::specs::Events::event_of))]
pub fn event_of(alloc: Global, name: EventName, arguments: &Arguments) -> Result<Event, LineError>
    ensures { Answers event_view result (spec.event_of name (arguments_view arguments.now)) }
{
    match name {
        EventName::In => input(alloc, arguments),
        EventName::Write => write(alloc, arguments),
        _ => match event_of_numbers(name, arguments) {
            Some(event) => Ok(event),
            None => Err(LineError::Refused),
        },
    }
}

/// Bytes for a console.
#[tactic(auto, unfolding(crate::specs::Events::input_of))]
fn input(alloc: Global, arguments: &Arguments) -> Result<Event, LineError>
    ensures { Answers event_view result (spec.input_of (arguments_view arguments.now)) }
{
    let Arguments::Two(guest, digits) = *arguments else {
        return Err(LineError::Refused);
    };
    let Some(guest) = guest_of(guest) else {
        return Err(LineError::Refused);
    };
    match bytes(alloc, digits) {
        Ok(bytes) => Ok(Event::In { guest, bytes }),
        Err(error) => Err(error),
    }
}

/// Bytes for a memory.
#[tactic(auto, unfolding(crate::specs::Events::write_of))]
fn write(alloc: Global, arguments: &Arguments) -> Result<Event, LineError>
    ensures { Answers event_view result (spec.write_of (arguments_view arguments.now)) }
{
    let Arguments::Three(guest, address, digits) = *arguments else {
        return Err(LineError::Refused);
    };
    let (Some(guest), Some(address)) = (guest_of(guest), hex_word(address)) else {
        return Err(LineError::Refused);
    };
    match bytes(alloc, digits) {
        Ok(bytes) => Ok(Event::Write {
            guest,
            address,
            bytes,
        }),
        Err(error) => Err(error),
    }
}

/// The event of a name and the words behind it, all of them numbers.
fn event_of_numbers(name: EventName, arguments: &Arguments) -> Option<Event>
    ensures { option_map event_view result ≡ spec.event_of_numbers name (arguments_view arguments.now) }
{
    match *arguments {
        Arguments::Zero => with_none(name),
        Arguments::One(guest) => with_one(name, guest),
        Arguments::Two(a, b) => with_two(name, a, b),
        Arguments::Three(a, b, c) => with_three(name, a, b, c),
        Arguments::Four(_, _, _, _) => None,
    }
}

#[tactic(auto, unfolding(crate::specs::Events::event_of_numbers))]
fn with_none(name: EventName) -> Option<Event>
    ensures { option_map event_view result ≡ spec.event_of_numbers name Zero }
{
    match name {
        EventName::Sample => Some(Event::Sample),
        EventName::Level => Some(Event::Level),
        EventName::Audit => Some(Event::Audit),
        _ => None,
    }
}

#[tactic(auto, unfolding(crate::specs::Events::event_of_numbers))]
fn with_one(name: EventName, guest: &str) -> Option<Event>
    ensures { option_map event_view result ≡ spec.event_of_numbers name (One guest.now) }
{
    match name {
        EventName::Drain => Some(Event::Drain {
            guest: guest_of(guest)?,
        }),
        EventName::Fault => Some(Event::Fault {
            guest: guest_of(guest)?,
        }),
        EventName::Audit => Some(Event::AuditGuest {
            guest: guest_of(guest)?,
        }),
        EventName::Dump => Some(Event::Dump {
            guest: guest_of(guest)?,
        }),
        EventName::Stats => Some(Event::Stats {
            guest: guest_of(guest)?,
        }),
        _ => None,
    }
}

#[tactic(auto, unfolding(crate::specs::Events::event_of_numbers))]
fn with_two(name: EventName, a: &str, b: &str) -> Option<Event>
    ensures { option_map event_view result ≡ spec.event_of_numbers name (Two a.now b.now) }
{
    match name {
        EventName::Step => Some(Event::Step {
            guest: guest_of(a)?,
            count: number(b)?,
        }),
        EventName::Run => Some(Event::Run {
            guest: guest_of(a)?,
            count: number(b)?,
        }),
        EventName::Target => Some(Event::Target {
            guest: guest_of(a)?,
            pages: number(b)?,
        }),
        EventName::Scan => Some(Event::Scan {
            guest: guest_of(a)?,
            page: number(b)?,
        }),
        EventName::Evict => Some(Event::Evict {
            guest: guest_of(a)?,
            page: number(b)?,
        }),
        EventName::Damage => Some(Event::Damage {
            slot: number(a)?,
            byte: number(b)?,
        }),
        _ => None,
    }
}

#[tactic(auto, unfolding(crate::specs::Events::event_of_numbers))]
fn with_three(name: EventName, a: &str, b: &str, c: &str) -> Option<Event>
    ensures { option_map event_view result ≡ spec.event_of_numbers name (Three a.now b.now c.now) }
{
    match name {
        EventName::Poke => Some(Event::Poke {
            guest: guest_of(a)?,
            register: number(b)?,
            value: hex_word(c)?,
        }),
        EventName::Probe => Some(Event::Probe {
            guest: guest_of(a)?,
            address: hex_word(b)?,
            length: number(c)?,
        }),
        _ => None,
    }
}
