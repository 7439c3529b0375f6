//! What a line says.
ghost use Rattle.std.specs.Prelude.{◌≡◌};
ghost use Rattle.script.specs.Answers.{Answers};
ghost use Rattle.script.specs.Statements as spec;
ghost use Rattle.script.specs.Views.{arguments_view, statement_view};

use crate::action::{Action, action_of};
use crate::error::LineError;
use crate::name::{EventName, event_name, header_name};
use crate::number::number;
use crate::part::{Part, part_of};
use crate::words::{Arguments, parts_of, words_of};
use std::alloc::Global;

/// What a line can say.
#[derive(Drop)]
pub enum Statement<'a> {
    /// It is one of the header.
    OfHeader(Part<'a>),
    /// This is done.
    OfAction(Action),
    /// The lines up to the `end` are done so many times.
    OfRepeat(u32),
    /// The `repeat` ends.
    OfEnd,
}

/// What a line says, if it is in the language.
#[tactic(auto, unfolding(crate::specs::Statements::statement_of))]
pub fn statement_of<'a>(alloc: Global, line: &'a str) -> Result<Statement<'a>, LineError>
    ensures { Answers statement_view result (spec.statement_of line.now) }
{
    let words = words_of(alloc, line)?;
    match parts_of(&words) {
        Some((name, arguments)) => statement_in(alloc, name, &arguments),
        None => Err(LineError::Refused),
    }
}

/// What a first word and those behind it say.
#[tactic(auto, unfolding(crate::specs::Statements::statement_in))]
fn statement_in<'a>(
    alloc: Global,
    name: &str,
    arguments: &Arguments<'a>,
) -> Result<Statement<'a>, LineError>
    ensures { Answers statement_view result (spec.statement_in name.now (arguments_view arguments.now)) }
{
    match header_name(name) {
        Some(header) => match part_of(header, arguments) {
            Some(part) => Ok(Statement::OfHeader(part)),
            None => Err(LineError::Refused),
        },
        None => event_statement(alloc, name, arguments),
    }
}

/// The line behind the header that a first word and those behind it are.
#[tactic(auto, unfolding(crate::specs::Statements::event_statement))]
fn event_statement<'a>(
    alloc: Global,
    name: &str,
    arguments: &Arguments<'a>,
) -> Result<Statement<'a>, LineError>
    ensures { Answers statement_view result (spec.event_statement name.now (arguments_view arguments.now)) }
{
    match event_name(name) {
        Some(name) => later_statement(alloc, name, arguments),
        None => Err(LineError::Refused),
    }
}

/// The line behind the header of a name and the words behind it.
#[tactic(auto, unfolding(crate::specs::Statements::later_statement))]
fn later_statement<'a>(
    alloc: Global,
    name: EventName,
    arguments: &Arguments<'a>,
) -> Result<Statement<'a>, LineError>
    ensures { Answers statement_view result (spec.later_statement name (arguments_view arguments.now)) }
{
    match name {
        EventName::Repeat => repeat_of(arguments),
        EventName::End => end_of(arguments),
        _ => match action_of(alloc, name, arguments) {
            Ok(action) => Ok(Statement::OfAction(action)),
            Err(error) => Err(error),
        },
    }
}

/// How often the lines up to the `end` are done.
fn repeat_of<'a>(arguments: &Arguments<'a>) -> Result<Statement<'a>, LineError>
    ensures { Answers statement_view result (spec.repeat_of (arguments_view arguments.now)) }
{
    let Arguments::One(times) = *arguments else {
        return Err(LineError::Refused);
    };
    match number(times) {
        Some(times) => Ok(Statement::OfRepeat(times)),
        None => Err(LineError::Refused),
    }
}

/// The end of a `repeat`.
fn end_of<'a>(arguments: &Arguments<'a>) -> Result<Statement<'a>, LineError>
    ensures { Answers statement_view result (spec.end_of (arguments_view arguments.now)) }
{
    match *arguments {
        Arguments::Zero => Ok(Statement::OfEnd),
        _ => Err(LineError::Refused),
    }
}
