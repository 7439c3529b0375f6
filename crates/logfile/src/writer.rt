//! Writing a log.
ghost use Rattle.std.specs.Prelude.{◌≡◌, ◌≤◌, ◌<◌, ℕ, List, ◌∷◌, [], ◌++◌, All, IfOk, OnOk};
ghost use Rattle.items.specs.declared.entry.Entry.{Entry};
ghost use Rattle.items.specs.declared.entry.Entry.TheVariants.{Steps};
ghost use Rattle.items.specs.declared.item.What.TheVariants.{Write};
ghost use Rattle.logfile.specs.FileItems.{entry_bytes, body_bytes, IsFileEntry};
ghost use Rattle.logfile.specs.Files.{StandsFor};
ghost use Rattle.logfile.specs.Runs.{run_entries, what_entries, written_entries, file_entries, HasItems};

use crate::header::MAGIC;
use crate::tag;
use items::{Entry, Item, SeatNo, What, WriteBytes};
use std::alloc::{AllocError, Global};

/// The most steps that one item of the file holds.
const MAX_RUN: u64 = 0xffff_ffff;

/// Writes steps as one item.
#[tactic(auto, unfolding(crate::specs::FileItems::entry_bytes))]
fn write_steps(file: &mut Vec<u8>, seat: SeatNo, count: u32) -> Result<(), AllocError>
    ensures bytes { OnOk result (file.new.items ≡ file.old.items ++ entry_bytes (Steps seat count)) }
    ensures seat { seat < 4 }
{
    let seat = seat.number();
    file.extend_from_slice(&[tag::STEPS, seat])?;
    file.extend_from_slice(&count.to_le_bytes())
}

/// Writes a run of steps, as many items as it takes: all but the last have the most steps that one holds.
fn write_run(file: &mut Vec<u8>, seat: SeatNo, count: u64) -> Result<(), AllocError>
    requires { 1 ≤ count }
    ensures bytes { OnOk result (file.new.items ≡ file.old.items ++ body_bytes (run_entries seat count)) }
    ensures each { OnOk result (All IsFileEntry (run_entries seat count)) }
{
    let mut left = count;
    while left > MAX_RUN {
        write_steps(file, seat, u32::MAX)?;
        left -= MAX_RUN;
    }
    write_steps(file, seat, left as u32)
}

/// Writes the bytes that a debugger writes.
#[tactic(auto, unfolding(crate::specs::FileItems::entry_bytes))]
fn write_bytes(
    file: &mut Vec<u8>,
    seat: SeatNo,
    address: u32,
    bytes: &WriteBytes,
) -> Result<(), AllocError>
    ensures bytes { OnOk result (file.new.items ≡ file.old.items ++ body_bytes (what_entries seat (Write address bytes.now))) }
    ensures each { OnOk result (All IsFileEntry (what_entries seat (Write address bytes.now))) }
{
    let length = bytes.len() as u16;
    file.extend_from_slice(&[tag::WRITE, seat.number()])?;
    file.extend_from_slice(&address.to_le_bytes())?;
    file.extend_from_slice(&length.to_le_bytes())?;
    file.extend_from_slice(bytes.as_slice())
}

/// Writes an item, a step as a run of one.
#[tactic(auto, unfolding(crate::specs::FileItems::entry_bytes))]
fn write_item(file: &mut Vec<u8>, item: &Item) -> Result<(), AllocError>
    ensures bytes { OnOk result (file.new.items ≡ file.old.items ++ body_bytes (what_entries item.now.seat item.now.what)) }
    ensures each { OnOk result (All IsFileEntry (what_entries item.now.seat item.now.what)) }
{
    let seat = item.seat.number();
    match &item.what {
        What::Step => write_run(file, item.seat, 1),
        What::In(byte) => file.extend_from_slice(&[tag::INPUT, seat, *byte]),
        What::Drain => file.extend_from_slice(&[tag::DRAIN, seat]),
        What::Target(pages) => {
            file.extend_from_slice(&[tag::TARGET, seat])?;
            file.extend_from_slice(&pages.to_le_bytes())
        }
        What::Poke { register, value } => {
            file.extend_from_slice(&[tag::POKE, seat, register.number()])?;
            file.extend_from_slice(&value.to_le_bytes())
        }
        What::Write { address, bytes } => write_bytes(file, item.seat, *address, bytes),
    }
}

/// Writes an entry, which holds at least one item.
pub(crate) fn write_entry(file: &mut Vec<u8>, entry: &Entry) -> Result<(), AllocError>
    requires { HasItems entry.now }
    ensures bytes { OnOk result (file.new.items ≡ file.old.items ++ body_bytes (written_entries entry.now)) }
    ensures each { OnOk result (All IsFileEntry (written_entries entry.now)) }
{
    match entry {
        Entry::Steps { seat, count } => write_run(file, *seat, *count),
        Entry::One(item) => write_item(file, item),
    }
}

/// The file of a log, of a machine of so many pages and the image file of this digest. Each run of steps has at least one;
/// one of more than 4,294,967,295 is written as several items, all but the last of them with that count. The items that
/// the file holds are those of the entries, in order.
///
/// An error says that a request for memory was refused.
#[tactic(auto, unfolding(crate::specs::Files::header_bytes))]
pub fn write(
    alloc: Global,
    pages: u32,
    digest: &[u8; 32],
    entries: &[Entry],
) -> Result<Vec<u8>, AllocError>
    requires { All HasItems entries.now }
    ensures { IfOk result (λ file. StandsFor file.items pages digest.now (file_entries entries.now)) }
{
    let mut file = Vec::new(alloc);
    file.extend_from_slice(&MAGIC)?;
    file.extend_from_slice(&pages.to_le_bytes())?;
    file.extend_from_slice(digest)?;
    for entry in entries {
        write_entry(&mut file, entry)?;
    }
    Ok(file)
}

/// Adds an entry, which holds at least one item, to the end of the file of a log.
///
/// An error says that a request for memory was refused; a beginning of the entry may stand in the file then.
pub fn append(file: &mut Vec<u8>, entry: &Entry) -> Result<(), AllocError>
    requires { HasItems entry.now }
    ensures { OnOk result ((pages : ℕ) (digest : List ℕ) (entries : List Entry)
        → let longer = entries ++ entry.now ∷ [] in StandsFor file.old.items pages digest (file_entries entries)
        → StandsFor file.new.items pages digest (file_entries longer)) }
{
    write_entry(file, entry)
}
