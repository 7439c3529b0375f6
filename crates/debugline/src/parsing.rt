//! Lines as commands.
ghost use Rattle.std.specs.Prelude.{◌≡◌, option_map, IfOk, OnErr};
ghost use Rattle.debugline.specs.Commands as spec;
ghost use Rattle.debugline.specs.Views.{command_view, line_view};

use crate::command::{Command, MOST_DATA, REGISTERS};
use crate::line::Line;
use items::DebugRegister;
use line_words::{Words, bytes, hexadecimal, is, words_of};
use std::alloc::{AllocError, Global};

/// The command that a line is, or none where it is no line of the table (`E01`).
///
/// `AllocError` where memory is refused for the bytes of a write. No other line wants memory.
pub fn parse(alloc: Global, line: &Line) -> Result<Option<Command>, AllocError>
    ensures command { IfOk result (λ command. option_map command_view command ≡ spec.command_of (line_view line.now)) }
    ensures only_a_write { OnErr result (spec.IsWrite (spec.command_of (line_view line.now))) }
{
    let Line::Text(text) = line else {
        return Ok(None);
    };
    match words_of(text) {
        Words::One(name) => Ok(with_none(name)),
        Words::Two(name, a) => Ok(with_one(name, a)),
        Words::Three(name, a, b) => with_two(alloc, name, a, b),
        Words::More => Ok(None),
    }
}

/// A command of one word.
#[tactic(auto, unfolding(crate::specs::Commands::command_of_one))]
fn with_none(name: &[u8]) -> Option<Command>
    ensures { option_map command_view result ≡ spec.command_of_one name.now }
{
    if is(name, "regs") {
        Some(Command::Regs)
    } else if is(name, "cont") {
        Some(Command::Cont)
    } else if is(name, "step") {
        Some(Command::Step)
    } else if is(name, "detach") {
        Some(Command::Detach)
    } else if is(name, "end") {
        Some(Command::End)
    } else {
        None
    }
}

/// A command of two words.
#[tactic(auto, unfolding(crate::specs::Commands::command_of_two))]
fn with_one(name: &[u8], a: &[u8]) -> Option<Command>
    ensures { option_map command_view result ≡ spec.command_of_two name.now a.now }
{
    if is(name, "reg") {
        Some(Command::Reg(register(a)?))
    } else if is(name, "break") {
        Some(Command::Break(hexadecimal(a)?))
    } else if is(name, "clear") {
        Some(Command::Clear(hexadecimal(a)?))
    } else {
        None
    }
}

/// A command of three words.
#[tactic(auto, unfolding(crate::specs::Commands::command_of_three))]
fn with_two(alloc: Global, name: &[u8], a: &[u8], b: &[u8]) -> Result<Option<Command>, AllocError>
    ensures command { IfOk result (λ command. option_map command_view command ≡ spec.command_of_three name.now a.now b.now) }
    ensures only_a_write { OnErr result (spec.IsWrite (spec.command_of_three name.now a.now b.now)) }
{
    if is(name, "set") {
        Ok(set(a, b))
    } else if is(name, "read") {
        Ok(read(a, b))
    } else if is(name, "write") {
        write(alloc, a, b)
    } else {
        Ok(None)
    }
}

#[tactic(auto, unfolding(crate::specs::Commands::set_of))]
fn set(register_word: &[u8], value: &[u8]) -> Option<Command>
    ensures { option_map command_view result ≡ spec.set_of register_word.now value.now }
{
    Some(Command::Set(register(register_word)?, hexadecimal(value)?))
}

#[tactic(auto, unfolding(crate::specs::Commands::read_of))]
fn read(address: &[u8], count: &[u8]) -> Option<Command>
    ensures { option_map command_view result ≡ spec.read_of address.now count.now }
{
    Some(Command::Read {
        address: hexadecimal(address)?,
        length: length(count)?,
    })
}

#[tactic(auto, unfolding(crate::specs::Commands::write_of, crate::specs::Commands::data_of))]
fn write(alloc: Global, address: &[u8], digits: &[u8]) -> Result<Option<Command>, AllocError>
    ensures command { IfOk result (λ command. option_map command_view command ≡ spec.write_of address.now digits.now) }
    ensures only_a_write { OnErr result (spec.IsWrite (spec.write_of address.now digits.now)) }
{
    let Some(address) = hexadecimal(address) else {
        return Ok(None);
    };
    if digits.len() > 2 * MOST_DATA {
        return Ok(None);
    }
    match bytes(alloc, digits) {
        Ok(Some(bytes)) => Ok(Some(Command::Write { address, bytes })),
        Ok(None) => Ok(None),
        Err(error) => Err(error),
    }
}

/// The register of a number, 0 to 37.
#[tactic(auto, unfolding(crate::specs::Commands::register_of))]
fn register(word: &[u8]) -> Option<DebugRegister>
    ensures { result ≡ spec.register_of word.now }
{
    let number = hexadecimal(word)?;
    if number < REGISTERS {
        Some(DebugRegister::new(number as u8))
    } else {
        None
    }
}

/// How many bytes are read, 1 to 1,024.
#[tactic(auto, unfolding(crate::specs::Commands::length_of))]
fn length(word: &[u8]) -> Option<u32>
    ensures { result ≡ spec.length_of word.now }
{
    let count = hexadecimal(word)?;
    if 1 <= count && count as usize <= MOST_DATA {
        Some(count)
    } else {
        None
    }
}
