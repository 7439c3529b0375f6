//! Reading one item from the front of bytes.
ghost use Rattle.std.specs.Prelude.{◌≡◌, ◌<◌, ◌≢◌};
ghost use Rattle.logfile.specs.Reading.{Gives, byte_at, half_at, word_at, input_at, target_at, poke_at, write_at, what_at, steps_at, fields_at, entry_at};

use crate::fault::{LogFault, ReadError};
use crate::tag;
use items::{DebugRegister, Entry, Item, SeatNo, What, WriteBytes};
use std::alloc::Global;

/// The bytes begin with no item.
const NO_ITEM: ReadError = ReadError::Fault(LogFault::Body);

/// A byte and the bytes behind it.
fn byte_at(bytes: &[u8]) -> Result<(u8, &[u8]), ReadError>
    ensures { Gives (λ x. (x.0, x.1.now)) result (byte_at bytes.now) }
{
    match bytes {
        [byte, rest @ ..] => Ok((*byte, rest)),
        [] => Err(NO_ITEM),
    }
}

/// A number of 2 bytes, the lowest first, and the bytes behind it.
fn half_at(bytes: &[u8]) -> Result<(u16, &[u8]), ReadError>
    ensures { Gives (λ x. (x.0, x.1.now)) result (half_at bytes.now) }
{
    if bytes.len() < 2 {
        return Err(NO_ITEM);
    }
    let (number, rest) = bytes.split_at(2);
    Ok((u16::from_le_bytes([number[0], number[1]]), rest))
}

/// A number of 4 bytes, the lowest first, and the bytes behind it.
fn word_at(bytes: &[u8]) -> Result<(u32, &[u8]), ReadError>
    ensures { Gives (λ x. (x.0, x.1.now)) result (word_at bytes.now) }
{
    if bytes.len() < 4 {
        return Err(NO_ITEM);
    }
    let (number, rest) = bytes.split_at(4);
    let number = u32::from_le_bytes([number[0], number[1], number[2], number[3]]);
    Ok((number, rest))
}

/// The fields of a byte of console input.
#[tactic(auto, unfolding(crate::specs::Reading::input_at))]
fn read_input(fields: &[u8]) -> Result<(What, &[u8]), ReadError>
    ensures { Gives (λ x. (x.0, x.1.now)) result (input_at fields.now) }
{
    let (byte, rest) = byte_at(fields)?;
    Ok((What::In(byte), rest))
}

/// The fields of a balloon target.
#[tactic(auto, unfolding(crate::specs::Reading::target_at))]
fn read_target(fields: &[u8]) -> Result<(What, &[u8]), ReadError>
    ensures { Gives (λ x. (x.0, x.1.now)) result (target_at fields.now) }
{
    let (pages, rest) = word_at(fields)?;
    Ok((What::Target(pages), rest))
}

/// The fields of a debugger's write of a register.
#[tactic(auto, unfolding(crate::specs::Reading::poke_at))]
fn read_poke(fields: &[u8]) -> Result<(What, &[u8]), ReadError>
    ensures { Gives (λ x. (x.0, x.1.now)) result (poke_at fields.now) }
{
    let (number, rest) = byte_at(fields)?;
    let Some(register) = DebugRegister::find(number) else {
        return Err(NO_ITEM);
    };
    let (value, rest) = word_at(rest)?;
    Ok((What::Poke { register, value }, rest))
}

/// The fields of a debugger's write of bytes.
#[tactic(auto, unfolding(crate::specs::Reading::write_at))]
fn read_write(alloc: Global, fields: &[u8]) -> Result<(What, &[u8]), ReadError>
    ensures { Gives (λ x. (x.0, x.1.now)) result (write_at fields.now) }
{
    let (address, rest) = word_at(fields)?;
    let (length, rest) = half_at(rest)?;
    let length = usize::from(length);
    if rest.len() < length {
        return Err(NO_ITEM);
    }
    let (bytes, rest) = rest.split_at(length);
    let bytes = WriteBytes::from_vec(bytes.to_vec(alloc)?);
    Ok((What::Write { address, bytes }, rest))
}

/// The fields of an item that isn't steps, by its tag.
#[tactic(auto, unfolding(crate::specs::Reading::what_at))]
fn read_what(alloc: Global, tag: u8, fields: &[u8]) -> Result<(What, &[u8]), ReadError>
    ensures { Gives (λ x. (x.0, x.1.now)) result (what_at tag fields.now) }
{
    match tag {
        tag::INPUT => read_input(fields),
        tag::DRAIN => Ok((What::Drain, fields)),
        tag::TARGET => read_target(fields),
        tag::POKE => read_poke(fields),
        tag::WRITE => read_write(alloc, fields),
        _ => Err(NO_ITEM),
    }
}

/// The fields of steps of a seat.
#[tactic(auto, unfolding(crate::specs::Reading::steps_at))]
fn read_steps(seat: SeatNo, fields: &[u8]) -> Result<(Entry, &[u8]), ReadError>
    ensures { Gives (λ x. (x.0, x.1.now)) result (steps_at seat fields.now) }
{
    let (count, rest) = word_at(fields)?;
    if count == 0 {
        return Err(NO_ITEM);
    }
    let count = u64::from(count);
    Ok((Entry::Steps { seat, count }, rest))
}

/// What stands behind a tag and a seat.
#[tactic(auto, unfolding(crate::specs::Reading::fields_at))]
fn read_fields(
    alloc: Global,
    tag: u8,
    seat: SeatNo,
    fields: &[u8],
) -> Result<(Entry, &[u8]), ReadError>
    ensures { Gives (λ x. (x.0, x.1.now)) result (fields_at tag seat fields.now) }
{
    if tag == tag::STEPS {
        return read_steps(seat, fields);
    }
    let (what, rest) = read_what(alloc, tag, fields)?;
    Ok((Entry::One(Item { seat, what }), rest))
}

/// The item that the bytes begin with, and the bytes behind it.
#[tactic(auto, unfolding(crate::specs::Reading::entry_at))]
pub(crate) fn read_entry(alloc: Global, bytes: &[u8]) -> Result<(Entry, &[u8]), ReadError>
    ensures { Gives (λ x. (x.0, x.1.now)) result (entry_at bytes.now) }
{
    let (tag, rest) = byte_at(bytes)?;
    let (seat, fields) = byte_at(rest)?;
    if seat >= 4 {
        return Err(NO_ITEM);
    }
    read_fields(alloc, tag, SeatNo::new(seat), fields)
}
