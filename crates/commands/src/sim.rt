//! The command `sim`.
ghost use Rattle.std.specs.Prelude.{◌≡◌, ◌⊎◌, All, IfErr, IfOk, IfSome, IsErrOf, Ok, OnOk, false, length, map, true};
ghost use Rattle.elf32.specs.Images.{FitsPages};
ghost use Rattle.mips_cp0.specs.declared.profile.Profile.{Profile};
ghost use Rattle.script.specs.Courses.{course_of};
ghost use Rattle.script.specs.Scripts.{script_of};
ghost use Rattle.script.specs.Views.{block_view, script_view};
ghost use Rattle.simulation.specs.Acts.{IsBlockFor};
ghost use Rattle.world.specs.Boots.{AreAdmitted, AreWithinLimits};
ghost use Rattle.commands.specs.Faults.{IsFileFault, IsLoadFault, IsScriptFault, IsSimFault, IsToldFault};
ghost use Rattle.commands.specs.Sims.{IsOver, IsProfileOf, IsSimulation, config_of, line_numbers, numbers_of};

use crate::fault::{Fault, of_file};
use crate::image_file::{Loaded, elf_image, whole_file};
use crate::log_file::{LogFiles, is_log};
use crate::order::{DEFAULT_PROFILE, Sim};
use elf32::Image;
use guest_number::GuestNo;
use mips_cp0::Profile;
use script::{Block, GuestLine, Header, Script, ScriptError, StoreCall};
use simulation::{LogKeeper, SimError, simulate};
use std::alloc::{AllocError, Global};
use std::fs::File;
use std::io::Write;
use std::rt::Files;
use std::sync::Arc;
use swapstore::{FaultStore, MemStore, Op};
use taxpolicy::DEFAULT_MINIMUM;
use tenant::BootError;
use world::{Config, NewGuest, are_within_limits};

/// The greatest number of runs that a guest's log may have.
const LOG_RUNS: u32 = 1_048_576;

/// The greatest number of guests.
const MOST_GUESTS: usize = 16;

/// The text of a script's file: each sequence of bytes that is no UTF-8 stands as U+FFFD.
///
/// An error is `File` where the file can't be read, and `Memory` where a request for memory was refused.
pub fn script_text<'a, R: Files + AllocGlobal>(rt: &R, order: Sim<'a>) -> Result<String, Fault<'a>>
    ensures { IfErr result (λ fault. (fault ≡ Fault.Memory) ⊎ (fault ≡ Fault.File order.entry.script)) }
{
    let file = of_file(order.script, File::open(rt, order.script))?;
    let bytes = of_file(order.script, whole_file(rt.alloc(), file))?;
    Ok(String::from_utf8_lossy(rt.alloc(), &bytes)?)
}

/// Why a script is not done to its end.
#[derive(Clone, Copy, Debug)]
pub enum SimFault<'a> {
    /// It is refused, and nothing was written.
    Refused(Fault<'a>),
    /// A request for memory was refused behind the boot: the replies to the first events are written.
    Memory,
    /// A reply could not be written.
    Output,
}

/// Does the events of a script of this text in a world of its guests, over a store in memory, and writes the reply to each as soon as it is
/// done, behind the number of its line where the order says so. At the end, also where it comes early, the guests' logs are written into
/// the directory of the order, if it names one. The answer is the first guest whose log could not be written.
///
/// An error is `Refused`, before anything is written: `Script` with the first line that is refused, and `Boot` where there are more than
/// 16 guests or the header says a number of no profile, before any other file is read; `File` with the script's name or a guest's file where
/// a log would be written over it; `File` where a guest's file can't be read and `Elf` with its first fault, guest after guest; `File` where
/// the directory of the logs can't be made; `Boot` where the world is refused; `Memory` where a request for memory was refused. Behind the
/// boot it is `Memory`, where the replies to the first events are written, or `Output` where a reply could not be.
pub fn run_script<'a, R: Files + AllocGlobal, O: Write>(
    rt: &R,
    order: Sim<'a>,
    text: &'a str,
    out: &mut O,
) -> Result<Option<GuestNo>, SimFault<'a>>
    ensures replies { OnOk result (IsSimulation true order.entry.numbered text.now (O.contents out.old) (O.contents out.new)) }
    ensures broken_off { IsErrOf result SimFault.Memory → IsSimulation false order.entry.numbered text.now (O.contents out.old) (O.contents out.new) }
    ensures unwritten { (fault : Fault) → IsErrOf result (SimFault.Refused fault) → out.new ≡ out.old }
    ensures faults { IfErr result (λ fault. IsSimFault text.now fault) }
{
    let (header, blocks, loaded) = match loaded(rt, order, text) {
        Ok(parts) => parts,
        Err(fault) => return Err(SimFault::Refused(fault)),
    };
    let LoadedGuests {
        profile,
        guests,
        digests,
    } = loaded;
    let mut files = match LogFiles::new(rt, order.logs, profile, digests) {
        Ok(files) => files,
        Err(fault) => return Err(SimFault::Refused(fault)),
    };
    match replies_to(
        rt.alloc(),
        &header,
        guests,
        &blocks,
        order.numbered,
        &mut files,
        out,
    ) {
        Ok(()) => Ok(files.unwritten()),
        Err(fault) => Err(fault),
    }
}

/// Guests with the images of their files, the profile that each of them has, and the digest of each file, by which a log names it.
#[derive(Drop)]
struct LoadedGuests {
    profile: Profile,
    guests: Vec<NewGuest>,
    digests: Vec<[u8; 32]>,
}

/// The script that a text is, and its guests, of the profile that it says, with the images of their files and these files' digests.
fn loaded<'a, R: Files + AllocGlobal>(
    rt: &R,
    order: Sim<'a>,
    text: &'a str,
) -> Result<(Header<'a>, Vec<Block>, LoadedGuests), Fault<'a>>
    ensures script { IfOk result (λ parts. script_of text.now ≡ Ok (script_view (record { header = parts.0; blocks = parts.1 }))) }
    ensures profile { IfOk result (λ parts. IsProfileOf parts.0.profile parts.2.profile) }
    ensures can { IfOk result (λ parts. All (IsBlockFor (length parts.2.guests.items) parts.0.slots) (map block_view parts.1.items)) }
    ensures guests { IfOk result (λ parts. map numbers_of parts.2.guests.items ≡ map line_numbers parts.0.guests.items) }
    ensures profiles { IfOk result (λ parts. All (λ g. g.profile ≡ parts.2.profile) parts.2.guests.items) }
    ensures faults { IfErr result (λ fault. IsLoadFault text.now fault) }
{
    let Script { header, blocks } = script_in(rt.alloc(), text)?;
    let profile = profile_of(&header)?;
    if header.guests.len() > MOST_GUESTS {
        return Err(Fault::Boot {
            error: BootError::Limits,
        });
    }
    logs_are_apart(rt, order, &header.guests)?;
    let loaded = load_guests(rt, profile, &header.guests)?;
    Ok((header, blocks, loaded))
}

/// The profile of the guests of a script with this header; an error is `Boot` with `Limits` where it says a number of no profile.
fn profile_of<'a>(header: &Header<'_>) -> Result<Profile, Fault<'a>>
    ensures said { IfOk result (IsProfileOf header.now.profile) }
    ensures none { IfErr result (λ fault. (fault ≡ Fault.Boot BootError.Limits) × ((profile : Profile) → ¬ IsProfileOf header.now.profile profile)) }
{
    let Some(number) = header.profile else {
        return Ok(DEFAULT_PROFILE);
    };
    match Profile::of_number(number) {
        Some(profile) => Ok(profile),
        None => Err(Fault::Boot {
            error: BootError::Limits,
        }),
    }
}

/// Whether no log, where the order wants them, is to be written over the script or the file of a guest.
fn logs_are_apart<'a, R: Files + AllocGlobal>(
    rt: &R,
    order: Sim<'a>,
    lines: &[GuestLine<'a>],
) -> Result<(), Fault<'a>>
    ensures faults { IfErr result (λ fault. IsFileFault fault) }
{
    let Some(directory) = order.logs else {
        return Ok(());
    };
    if is_log(rt, directory, lines.len(), order.script)? {
        return Err(Fault::File { name: order.script });
    }
    for line in lines {
        if is_log(rt, directory, lines.len(), line.file)? {
            return Err(Fault::File { name: line.file });
        }
    }
    Ok(())
}

/// The script that a text is.
fn script_in<'a>(alloc: Global, text: &'a str) -> Result<Script<'a>, Fault<'a>>
    ensures script { IfOk result (λ script. script_of text.now ≡ Ok (script_view script)) }
    ensures can { IfOk result (λ script. All (IsBlockFor (length script.header.guests.items) script.header.slots) (map block_view script.blocks.items)) }
    ensures faults { IfErr result (λ fault. IsScriptFault text.now fault) }
{
    match script::read(alloc, text) {
        Ok(script) => Ok(script),
        Err(ScriptError::Line(line)) => Err(Fault::Script { line }),
        Err(ScriptError::Memory) => Err(Fault::Memory),
    }
}

/// The guests of a script's header, of this profile, with the images of their files. A file is read once for all lines that have its name,
/// unless the pages of a line don't hold what was read: then it is read again, and refused.
fn load_guests<'a, R: Files + AllocGlobal>(
    rt: &R,
    profile: Profile,
    lines: &[GuestLine<'a>],
) -> Result<LoadedGuests, Fault<'a>>
    ensures profile { IfOk result (λ loaded. loaded.profile ≡ profile) }
    ensures guests { IfOk result (λ loaded. map numbers_of loaded.guests.items ≡ map line_numbers lines.now) }
    ensures profiles { IfOk result (λ loaded. All (λ g. g.profile ≡ profile) loaded.guests.items) }
    ensures faults { IfErr result (λ fault. IsFileFault fault) }
{
    let mut guests = Vec::with_capacity(rt.alloc(), lines.len())?;
    let mut digests = Vec::new(rt.alloc());
    for line in lines {
        let (image, digest) = match image_of_name(&guests, &digests, lines, *line)? {
            Some(found) => found,
            None => load_image(rt, *line)?,
        };
        if digests.push(digest).is_err() {
            return Err(Fault::Memory);
        }
        guests.push_reserved(new_guest(profile, *line, image));
    }
    Ok(LoadedGuests {
        profile,
        guests,
        digests,
    })
}

/// The image, and the digest, of an earlier guest whose file has the name of a line's, where the line's pages hold it.
fn image_of_name(
    guests: &[NewGuest],
    digests: &[[u8; 32]],
    lines: &[GuestLine<'_>],
    line: GuestLine<'_>,
) -> Result<Option<(Arc<Image, Global>, [u8; 32])>, AllocError>
    ensures { IfOk result (λ found. IfSome found (λ loaded. FitsPages loaded.0.value line.entry.pages)) }
{
    for ((guest, digest), earlier) in guests.iter().zip(digests).zip(lines) {
        if earlier.file == line.file && guest.image.fits(line.pages) {
            return Ok(Some((guest.image.clone()?, *digest)));
        }
    }
    Ok(None)
}

/// The image of the file of a guest of a script's header, and the file's digest.
fn load_image<'a, R: Files + AllocGlobal>(
    rt: &R,
    line: GuestLine<'a>,
) -> Result<(Arc<Image, Global>, [u8; 32]), Fault<'a>>
    ensures fits { IfOk result (λ loaded. FitsPages loaded.0.value line.entry.pages) }
    ensures faults { IfErr result (λ fault. IsFileFault fault) }
{
    let file = of_file(line.file, File::open(rt, line.file))?;
    let Loaded { image, digest } = elf_image(rt.alloc(), file, line.file, line.pages)?;
    match Arc::new(rt.alloc(), image) {
        Ok(image) => Ok((image, digest)),
        Err(_) => Err(Fault::Memory),
    }
}

/// A guest of a script's header, of this profile and with an image.
fn new_guest(profile: Profile, line: GuestLine<'_>, image: Arc<Image, Global>) -> NewGuest
    ensures profile { result.profile ≡ profile }
    ensures numbers { numbers_of result ≡ line_numbers line.entry }
    ensures image { result.image ≡ image }
{
    NewGuest {
        profile,
        image,
        pages: line.pages,
        shares: line.shares,
        minimum: line.minimum.unwrap_or(DEFAULT_MINIMUM),
    }
}

/// Does what blocks say in a world of these guests, and writes what is replied.
fn replies_to<'a, K: LogKeeper, O: Write>(
    alloc: Global,
    header: &Header<'_>,
    guests: Vec<NewGuest>,
    blocks: &[Block],
    numbered: bool,
    keeper: &mut K,
    out: &mut O,
) -> Result<(), SimFault<'a>>
    requires { All (IsBlockFor (length guests.items) header.now.slots) (map block_view blocks.now) }
    ensures replies { OnOk result (IsOver header.now.failure true numbered (config_of header.now) header.now.seed header.now.slots guests.items
        (course_of (length guests.items) (map block_view blocks.now)) (O.contents out.old) (O.contents out.new)) }
    ensures broken_off { IsErrOf result SimFault.Memory → IsOver header.now.failure false numbered (config_of header.now) header.now.seed header.now.slots guests.items
        (course_of (length guests.items) (map block_view blocks.now)) (O.contents out.old) (O.contents out.new) }
    ensures within { OnOk result (AreWithinLimits (config_of header.now) header.now.slots guests.items) }
    ensures admitted { OnOk result (AreAdmitted (config_of header.now) header.now.slots guests.items) }
    ensures begun_within { IsErrOf result SimFault.Memory → AreWithinLimits (config_of header.now) header.now.slots guests.items }
    ensures begun_admitted { IsErrOf result SimFault.Memory → AreAdmitted (config_of header.now) header.now.slots guests.items }
    ensures unwritten { (fault : Fault) → IsErrOf result (SimFault.Refused fault) → out.new ≡ out.old }
    ensures faults { IfErr result (λ fault. IsToldFault fault) }
{
    let config = Config {
        frames: header.frames,
        log_runs: LOG_RUNS,
        admit: header.admit,
    };
    // Slots beyond the limit want memory that there may not be.
    if !are_within_limits(config, header.slots, &guests) {
        return Err(unbooted(BootError::Limits));
    }
    let Ok(store) = MemStore::new(alloc, header.slots) else {
        return Err(unbooted(BootError::Memory));
    };
    let seed = header.seed;
    let told = match header.failure {
        None => simulate(
            alloc, config, seed, guests, store, blocks, numbered, keeper, out,
        ),
        Some(fail) => {
            let store = FaultStore::new(store, op_of(fail.call), u64::from(fail.count.max(1)));
            simulate(
                alloc, config, seed, guests, store, blocks, numbered, keeper, out,
            )
        }
    };
    match told {
        Ok(()) => Ok(()),
        Err(SimError::Boot(error)) => Err(unbooted(error)),
        Err(SimError::Memory) => Err(SimFault::Memory),
        Err(SimError::Output) => Err(SimFault::Output),
    }
}

/// A world that is not booted.
fn unbooted<'a>(error: BootError) -> SimFault<'a>
    ensures { result ≡ SimFault.Refused (Fault.Boot error) }
{
    SimFault::Refused(Fault::Boot { error })
}

/// The kind of calls of a store of which one is to fail.
fn op_of(call: StoreCall) -> Op {
    match call {
        StoreCall::Read => Op::Read,
        StoreCall::Write => Op::Write,
    }
}
