//! The command `replay`.
ghost use Rattle.std.specs.Prelude.{◌≡◌, ◌<◌, ◌%◌, ◌^◌, IfErr, IfOk, OnOk, IsErrOf, string_bytes};
ghost use Rattle.sha2.specs.Sha256.{sha256};
ghost use Rattle.elf32.specs.Images.{FitsPages};
ghost use Rattle.items.specs.Items.{is_step};
ghost use Rattle.items.specs.Entries.{steps_of, items_in, items_of};
ghost use Rattle.machine.specs.Items.{run, AllAccepted};
ghost use Rattle.logfile.specs.Versions.{HasHeaderAs, IsLong};
ghost use Rattle.commands.specs.Faults.{IsReplayFault};
ghost use Rattle.commands.specs.Raw.{IsPageCount};
ghost use Rattle.dump.specs.Steps.{step_count};
ghost use Rattle.commands.specs.Replays.{IsReplay};
ghost use Rattle.commands.specs.Runs.{IsImageOf};

use crate::fault::{Fault, LogRefusal, log_file_fault, of_boot, of_file};
use crate::image_file::{image_in, raw_image_in, whole_file};
use crate::order::{Format, Replay};
use dump::dump;
use elf32::Image;
use flatvm::Flat;
use items::{Entry, SeatNo, What};
use logfile::{LogHeader, image_digest, read_entries_as, read_header};
use machine::Rejection;
use std::alloc::Global;
use std::fs::File;
use std::rt::Files;

/// Why a replay ends before the log's last item.
#[derive(Clone, Copy, Debug, PartialEq, Eq)]
pub enum Halt {
    /// The machine refuses an item where it stands.
    Item,
    /// A request for memory was refused.
    Memory,
}

/// Replays a log on the reference machine that boots its image, and gives the dump of the machine after the log's last item;
/// its steps are those of the log. The log's file is of either version; one of version 1 is of a machine of the first profile.
///
/// An error is `File` where a file can't be read, the image's before the log's; `Log` with the first fault of the log's
/// header; `Elf` or `Raw` where the image is refused for the log's pages; `Log` with the first fault of the log's items, of
/// which that of an item that the machine refuses is the last; `Boot` where the boot was refused memory, and `Memory` where
/// another request was.
pub fn replay_log<'a, R: Files + AllocGlobal>(
    rt: &R,
    order: Replay<'a>,
) -> Result<String, Fault<'a>>
    ensures { IfErr result (λ fault. IsReplayFault order.entry fault) }
{
    let image = of_file(order.image, File::open(rt, order.image))?;
    let image = of_file(order.image, whole_file(rt.alloc(), image))?;
    let log = of_file(order.log, File::open(rt, order.log))?;
    let log = of_file(order.log, whole_file(rt.alloc(), log))?;
    replay_bytes(rt.alloc(), image, &log, order)
}

/// What `replay` prints for the image and the log in files of these bytes, with the errors of `replay_log` but for files that
/// can't be read.
pub fn replay_bytes<'a>(
    alloc: Global,
    image: Vec<u8>,
    log: &[u8],
    order: Replay<'a>,
) -> Result<String, Fault<'a>>
    ensures replay { IfOk result (λ text. IsReplay image.items log.now order.entry (string_bytes text)) }
    ensures faults { IfErr result (λ fault. IsReplayFault order.entry fault) }
{
    let digest = image_digest(&image);
    match read_header(log, &digest) {
        Err(fault) => Err(log_file_fault(fault)),
        Ok(header) => replay_on(alloc, image, log, order, header),
    }
}

/// Replays the items of a log whose header says this of the machine, and names the image's digest.
#[tactic(auto, using(crate::proofs::Limits::most_few))]
fn replay_on<'a>(
    alloc: Global,
    image: Vec<u8>,
    log: &[u8],
    order: Replay<'a>,
    header: LogHeader,
) -> Result<String, Fault<'a>>
    requires pages { IsPageCount header.profile header.pages }
    requires long { IsLong log.now }
    requires header { HasHeaderAs log.now (sha256 image.items) header.profile header.pages }
    ensures replay { IfOk result (λ text. IsReplay image.items log.now order.entry (string_bytes text)) }
    ensures faults { IfErr result (λ fault. IsReplayFault order.entry fault) }
{
    let LogHeader { profile, pages } = header;
    let image = image_of(alloc, image, order, pages)?;
    let entries = read_entries_as(alloc, log)?;
    let mut flat = of_boot(Flat::boot(alloc, profile, &image, pages))?;
    match replay_entries(&mut flat, &entries) {
        Ok(steps) => Ok(dump(alloc, flat.view(), steps, None)?),
        Err(Halt::Item) => Err(Fault::Log {
            fault: LogRefusal::Item,
        }),
        Err(Halt::Memory) => Err(Fault::Memory),
    }
}

/// The image that a file of these bytes holds, by its format, for so many pages, fewer than 2^20.
fn image_of<'a>(
    alloc: Global,
    bytes: Vec<u8>,
    order: Replay<'a>,
    pages: u32,
) -> Result<Image, Fault<'a>>
    requires { pages < 2 ^ 20 }
    ensures stands { IfOk result (IsImageOf order.entry.format pages bytes.items) }
    ensures fits { IfOk result (λ image. FitsPages image pages) }
    ensures faults { IfErr result (λ fault. IsReplayFault order.entry fault) }
{
    match order.format {
        Format::Raw => raw_image_in(alloc, bytes, pages),
        Format::Elf => image_in(alloc, &bytes, pages),
    }
}

/// Replays the items that entries keep, in order, and tells how many of them are steps (modulo 2^64).
///
/// It answers `Item` where the machine does not accept an item where it stands, and `Memory` only where a request for memory
/// was refused; the machine is then as after the items before.
pub fn replay_entries(flat: &mut Flat, entries: &[Entry]) -> Result<u64, Halt>
    ensures run { OnOk result (flat.new ≡ run (items_of entries.now) flat.old) }
    ensures accepted { OnOk result (AllAccepted (items_of entries.now) flat.old) }
    ensures refused { IsErrOf result Halt.Item → ¬ AllAccepted (items_of entries.now) flat.old }
    ensures count { IfOk result (λ steps. steps ≡ step_count (items_of entries.now) % 2 ^ 64) }
{
    let mut steps: u64 = 0;
    for entry in entries {
        match replay_entry(flat, entry) {
            Ok(count) => steps = steps.wrapping_add(count),
            Err(halt) => return Err(halt),
        }
    }
    Ok(steps)
}

/// Replays the items that an entry keeps, and tells how many of them are steps.
#[tactic(auto, using(dump::proofs::Counting::steps_counted))]
fn replay_entry(flat: &mut Flat, entry: &Entry) -> Result<u64, Halt>
    ensures run { OnOk result (flat.new ≡ run (items_in entry.now) flat.old) }
    ensures accepted { OnOk result (AllAccepted (items_in entry.now) flat.old) }
    ensures refused { IsErrOf result Halt.Item → ¬ AllAccepted (items_in entry.now) flat.old }
    ensures count { IfOk result (λ steps. steps ≡ step_count (items_in entry.now) % 2 ^ 64) }
{
    match entry {
        Entry::Steps { seat, count } => {
            replay_steps(flat, *seat, *count);
            Ok(*count)
        }
        Entry::One(item) => match flat.input(&item.what) {
            Ok(_) => Ok(if is_step(&item.what) { 1 } else { 0 }),
            Err(Rejection::Machine) => Err(Halt::Item),
            Err(Rejection::Memory) => Err(Halt::Memory),
        },
    }
}

/// Whether something that happens is a step.
fn is_step(what: &What) -> bool
    ensures { result ≡ is_step what.now }
{
    match what {
        What::Step => true,
        What::In(_) | What::Drain | What::Target(_) | What::Poke { .. } | What::Write { .. } =>
            false,
    }
}

/// Makes the steps of a seat.
fn replay_steps(flat: &mut Flat, seat: SeatNo, count: u64)
    ensures run { flat.new ≡ run (steps_of seat count) flat.old }
    ensures accepted { AllAccepted (steps_of seat count) flat.old }
{
    for made in 0..count {
        // The turn is the number of steps that were made: the loop's invariant speaks of it.
        let _made = made;
        flat.step();
    }
}
