//! What the lines behind the header say is done.
ghost use Rattle.std.specs.Prelude.{◌≡◌, [], ◌∷◌, IfOk, map, option_map};
ghost use Rattle.script.specs.Actions as spec;
ghost use Rattle.script.specs.Answers.{Answers};
ghost use Rattle.script.specs.Courses.{action_events, of_each};
ghost use Rattle.script.specs.Events.{Run, Step};
ghost use Rattle.script.specs.Views.{action_view, arguments_view, event_view};

use crate::error::LineError;
use crate::event::{Event, event_of};
use crate::name::EventName;
use crate::number::number;
use crate::words::Arguments;
use guest_number::GuestNo;
use std::alloc::{AllocError, Global};

/// What a line says is done.
#[derive(Debug, Drop, PartialEq, Eq)]
pub enum Action {
    /// An event.
    Single(Event),
    /// At most so many steps of each guest, without faults supplied, one guest after another.
    StepEach(u32),
    /// At most so many steps of each guest, with faults supplied, one guest after another.
    RunEach(u32),
}

/// A line that says what is done.
#[derive(Debug, Drop, PartialEq, Eq)]
pub struct ActionLine {
    /// Its number: the lines of a script count from 1.
    pub number: u64,
    /// What it says is done.
    pub action: Action,
}

/// Lines that are done one after another, and all of them so many times.
#[derive(Debug, Drop, PartialEq, Eq)]
pub struct Block {
    /// How many times.
    pub times: u32,
    /// The lines, in their order.
    pub lines: Vec<ActionLine>,
}

impl Action {
    /// The events that it comes to where there are so many guests.
    pub fn events(&self, alloc: Global, guests: u32) -> Result<Vec<Event>, AllocError>
        ensures { IfOk result (λ events. map event_view events.items ≡ action_events guests (action_view self.now)) }
    {
        match self {
            Action::Single(event) => one_event(alloc, event),
            Action::StepEach(count) => steps_of_each(alloc, guests, *count),
            Action::RunEach(count) => runs_of_each(alloc, guests, *count),
        }
    }
}

fn one_event(alloc: Global, event: &Event) -> Result<Vec<Event>, AllocError>
    ensures { IfOk result (λ events. map event_view events.items ≡ event_view event.now ∷ []) }
{
    let mut events = Vec::new(alloc);
    events.push(event.try_clone(alloc)?)?;
    Ok(events)
}

fn steps_of_each(alloc: Global, guests: u32, count: u32) -> Result<Vec<Event>, AllocError>
    ensures { IfOk result (λ events. map event_view events.items ≡ of_each guests (λ g. Step g count)) }
{
    let mut events = Vec::new(alloc);
    for guest in 0..guests {
        let guest = GuestNo::new(guest);
        events.push(Event::Step { guest, count })?;
    }
    Ok(events)
}

fn runs_of_each(alloc: Global, guests: u32, count: u32) -> Result<Vec<Event>, AllocError>
    ensures { IfOk result (λ events. map event_view events.items ≡ of_each guests (λ g. Run g count)) }
{
    let mut events = Vec::new(alloc);
    for guest in 0..guests {
        let guest = GuestNo::new(guest);
        events.push(Event::Run { guest, count })?;
    }
    Ok(events)
}

/// What is done by a line of a name and the words behind it, if it has such words.
#[tactic(auto, unfolding(crate::specs::Actions::action_of))]
pub fn action_of(alloc: Global, name: EventName, arguments: &Arguments) -> Result<Action, LineError>
    ensures { Answers action_view result (spec.action_of name (arguments_view arguments.now)) }
{
    match each_of(name, arguments) {
        Some(action) => Ok(action),
        None => match event_of(alloc, name, arguments) {
            Ok(event) => Ok(Action::Single(event)),
            Err(error) => Err(error),
        },
    }
}

/// What is done of each guest, where a `*` stands for it.
#[tactic(auto, unfolding(crate::specs::Actions::each_of))]
fn each_of(name: EventName, arguments: &Arguments) -> Option<Action>
    ensures { option_map action_view result ≡ spec.each_of name (arguments_view arguments.now) }
{
    match (name, *arguments) {
        (EventName::Step, Arguments::Two("*", count)) => Some(Action::StepEach(number(count)?)),
        (EventName::Run, Arguments::Two("*", count)) => Some(Action::RunEach(number(count)?)),
        _ => None,
    }
}
