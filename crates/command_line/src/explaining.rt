//! Words behind the line of a refusal: what was found, where, and what to try.
//!
//! Files are read again for them, plain files alone: where that fails, where memory is refused or where nothing more can be told,
//! there are no words.
use commands::image_file::{elf_file, whole_file};
use commands::log_file::is_log;
use commands::{Asm, DEFAULT_PROFILE, Dis, Exec, Fault, Replay};
use diagnosis::{Excerpt, Memory, Words, boot, elf, file, log, raw, script_line, source};
use directory_files::{files_of, is_directory};
use fuzz_command::FuzzOrder;
use logfile::LogHeader;
use output_file::is_one_file;
use run_command::{GuestOrder, RunOrder};
use script::{GuestLine, Header, Script};
use std::alloc::Global;
use std::fs::File;
use std::io::{ErrorKind, Read};
use std::rt::Files;
use std::{fs, io};

/// What was asked for when it was refused.
#[derive(Clone, Copy)]
pub enum Subject<'a> {
    /// A source was to be assembled.
    Asm(Asm<'a>),
    /// An executable was to be printed.
    Dis(Dis<'a>),
    /// An image was to be run.
    Exec(Exec<'a>),
    /// A log was to be replayed.
    Replay(Replay<'a>),
    /// The file of a script was to be read.
    ScriptFile,
    /// The events of a script of this text were to be done, and the logs written into this directory, if any.
    Script(&'a str, Option<&'a str>),
    /// Guests were to be run.
    Run(&'a RunOrder<'a>),
    /// An image was to be run on many inputs.
    Fuzz(&'a FuzzOrder<'a>),
    /// A machine of a profile of this number was to be run.
    NoProfile(u32),
}

/// Words for a fault of what was asked for.
pub fn explain<R: Files + AllocGlobal>(
    rt: &R,
    subject: Subject<'_>,
    fault: &Fault<'_>,
) -> Option<Words> {
    match *fault {
        Fault::File { name } => file_words(rt, subject, name),
        Fault::Asm { fault, line } => source_words(rt, subject, fault.number(), line),
        Fault::Elf { fault } => executable_words(rt, subject, fault),
        Fault::Raw => raw_words(rt, subject),
        Fault::Script { line } => script_words(rt.alloc(), subject, line),
        Fault::Boot { error } => boot_words(rt, subject, error.number()),
        Fault::Log { fault } => log_words(rt.alloc(), fault.number()),
        Fault::Memory => Words::of(rt.alloc(), "the host has no memory left for it").ok(),
    }
}

/// The bytes of a plain file.
fn contents<R: Files + AllocGlobal>(rt: &R, name: &str) -> Option<Vec<u8>> {
    whole_file(rt.alloc(), plain_file(rt, name)?).ok()
}

/// The bytes of a plain file that was to be an executable; the first alone where they say that it is none.
fn executable<R: Files + AllocGlobal>(rt: &R, name: &str) -> Option<Vec<u8>> {
    match elf_file(rt.alloc(), plain_file(rt, name)?).ok()? {
        Some(bytes) => Some(bytes),
        None => whole_file(rt.alloc(), plain_file(rt, name)?.take(FIRST_BYTES)).ok(),
    }
}

/// How many bytes say what kind of file it is.
const FIRST_BYTES: u64 = 52;

/// A plain file: another kind, as a pipe, can't be read for the second time.
fn plain_file<R: Files>(rt: &R, name: &str) -> Option<R::File> {
    if fs::metadata(rt, name).ok()?.is_file() {
        File::open(rt, name).ok()
    } else {
        None
    }
}

/// Why a file can't be read or written.
fn file_words<R: Files + AllocGlobal>(rt: &R, subject: Subject<'_>, name: &str) -> Option<Words> {
    let reason = match own_reason(rt, subject, name) {
        Some(reason) => reason,
        None => match system_reason(rt, name) {
            Some(ErrorKind::NotFound) if is_output(subject, name) => file::UNMADE,
            found => file::reason(found?)?,
        },
    };
    Words::of(rt.alloc(), reason).ok()
}

/// Why the command refuses the names of its files.
fn own_reason<R: Files + AllocGlobal>(
    rt: &R,
    subject: Subject<'_>,
    name: &str,
) -> Option<&'static str> {
    match subject {
        Subject::Asm(order) => reason_of_asm(rt, order),
        Subject::Exec(order) => reason_of_exec(rt, order),
        Subject::Run(order) => reason_of_run(rt, order, name),
        Subject::Fuzz(order) => reason_of_fuzz(rt, order, name),
        Subject::Script(text, Some(logs)) => reason_of_script(rt, text, logs, name),
        _ => None,
    }
}

fn reason_of_asm<R: Files + AllocGlobal>(rt: &R, order: Asm<'_>) -> Option<&'static str> {
    if order.source == order.output {
        Some(file::SOURCE_IS_OUTPUT)
    } else if is_one_file(rt, order.source, order.output) {
        Some(file::SOURCE_LEADS_TO_OUTPUT)
    } else {
        None
    }
}

fn reason_of_exec<R: Files + AllocGlobal>(rt: &R, order: Exec<'_>) -> Option<&'static str> {
    let log = order.log?;
    if log == order.image {
        Some(file::IMAGE_IS_LOG)
    } else if is_one_file(rt, log, order.image) {
        Some(file::IMAGE_LEADS_TO_LOG)
    } else {
        None
    }
}

fn reason_of_run<R: Files + AllocGlobal>(
    rt: &R,
    order: &RunOrder<'_>,
    name: &str,
) -> Option<&'static str> {
    if name == order.swap && is_image(rt, order) {
        Some(SWAP_IS_IMAGE)
    } else {
        reason_of_logs(rt, order.logs, order.guests.len(), name)
    }
}

fn reason_of_fuzz<R: Files + AllocGlobal>(
    rt: &R,
    order: &FuzzOrder<'_>,
    name: &str,
) -> Option<&'static str> {
    if is_input(order, name) && is_directory(rt, name) {
        return reason_of_directory(rt, name);
    }
    let directory = order.logs.unwrap_or("");
    if name == directory {
        return match fs::metadata(rt, directory) {
            Ok(found) if !found.is_dir() => Some(NO_DIRECTORY),
            _ => None,
        };
    }
    let found = fs::metadata(rt, name).ok()?;
    if !found.is_file() {
        return None;
    }
    if is_input(order, name) && found.len() > MOST_INPUT {
        return Some(LONG_INPUT);
    }
    if let Some(coverage) = order.coverage
        && is_one_file(rt, coverage, name)
    {
        return Some(COVERAGE_IS_FUZZED);
    }
    match order.logs {
        Some(_) if File::open(rt, name).is_ok() => Some(LOG_IS_FUZZED),
        _ => None,
    }
}

/// Why a directory has no inputs.
fn reason_of_directory<R: Files + AllocGlobal>(rt: &R, name: &str) -> Option<&'static str> {
    match files_of(rt, name) {
        Ok(files) if files.is_empty() => Some(NO_FILES),
        Ok(_) => None,
        Err(error) => match error.kind() {
            ErrorKind::InvalidFilename => Some(NO_UTF8),
            kind => file::reason(kind),
        },
    }
}

const NO_FILES: &str = "there is no plain file in the directory";

const NO_UTF8: &str = "a name in the directory is not UTF-8";

/// Whether an order has an input in the file of this name.
fn is_input(order: &FuzzOrder<'_>, name: &str) -> bool {
    for input in &order.inputs {
        if input.place == name {
            return true;
        }
    }
    false
}

/// The greatest number of bytes of an input.
const MOST_INPUT: u64 = 256;

const LONG_INPUT: &str = "it has more than the 256 bytes that the input of a run has at most";

const COVERAGE_IS_FUZZED: &str =
    "the words of memory that PC led to would be written over it: give them another file";

const LOG_IS_FUZZED: &str =
    "the log of an input would be written over it: give the logs another directory";

fn reason_of_script<R: Files + AllocGlobal>(
    rt: &R,
    text: &str,
    logs: &str,
    name: &str,
) -> Option<&'static str> {
    let Script { header, blocks: _ } = script::read(rt.alloc(), text).ok()?;
    reason_of_logs(rt, logs, header.guests.len(), name)
}

/// Why the logs of so many guests can't be written into a directory, where a file of this name is in the way.
fn reason_of_logs<R: Files + AllocGlobal>(
    rt: &R,
    directory: &str,
    guests: usize,
    name: &str,
) -> Option<&'static str> {
    if name != directory {
        return match is_log(rt, directory, guests, name) {
            Ok(true) => Some(LOG_IS_INPUT),
            _ => None,
        };
    }
    match fs::metadata(rt, directory) {
        Ok(found) if !found.is_dir() => Some(NO_DIRECTORY),
        _ => None,
    }
}

const SWAP_IS_IMAGE: &str = "the swap file is the image of a guest too: give it another name";

const NO_DIRECTORY: &str = "it is no directory";

const LOG_IS_INPUT: &str =
    "the log of a guest would be written over it: give the logs another directory";

/// Whether the swap file of a run is the image of a guest too.
fn is_image<R: Files + AllocGlobal>(rt: &R, order: &RunOrder<'_>) -> bool {
    for guest in &order.guests {
        if is_one_file(rt, order.swap, guest.image) {
            return true;
        }
    }
    false
}

/// Whether the log of an execution has this name.
fn is_exec_log(order: Exec<'_>, name: &str) -> bool {
    match order.log {
        Some(log) => log == name,
        None => false,
    }
}

/// Whether a file of this name was to be written.
fn is_output(subject: Subject<'_>, name: &str) -> bool {
    match subject {
        Subject::Asm(order) => order.output == name,
        Subject::Exec(order) => is_exec_log(order, name),
        _ => false,
    }
}

/// The kind of error by which the system refuses to open a file for reading.
fn system_reason<R: Files>(rt: &R, name: &str) -> Option<ErrorKind> {
    match fs::metadata(rt, name) {
        Err(error) => Some(error.kind()),
        Ok(found) if found.is_dir() => Some(ErrorKind::IsADirectory),
        Ok(found) if found.is_file() => match File::open(rt, name) {
            Err(error) => Some(error.kind()),
            Ok(_) => None,
        },
        Ok(_) => None,
    }
}

/// What is wrong with a line of a source.
fn source_words<R: Files + AllocGlobal>(
    rt: &R,
    subject: Subject<'_>,
    number: u32,
    line: u64,
) -> Option<Words> {
    let Subject::Asm(order) = subject else {
        return None;
    };
    let bytes = contents(rt, order.source)?;
    source::explain(rt.alloc(), number, line, &bytes).ok()?
}

/// The line of a source that has its first fault, with a caret under the word that is wrong.
pub fn excerpt_of<R: Files + AllocGlobal>(
    rt: &R,
    subject: Subject<'_>,
    fault: &Fault<'_>,
) -> Option<Excerpt> {
    let (Subject::Asm(order), Fault::Asm { fault, line }) = (subject, *fault) else {
        return None;
    };
    let bytes = contents(rt, order.source)?;
    source::excerpt_of(rt.alloc(), fault, line, &bytes).ok()?
}

/// Words for the lines of a source behind its first fault that are wrong too; none where there can be none.
pub fn explain_later<R: Files + AllocGlobal>(
    rt: &R,
    subject: Subject<'_>,
    fault: &Fault<'_>,
) -> Vec<Words> {
    match later_words(rt, subject, fault) {
        Some(words) => words,
        None => Vec::new(rt.alloc()),
    }
}

fn later_words<R: Files + AllocGlobal>(
    rt: &R,
    subject: Subject<'_>,
    fault: &Fault<'_>,
) -> Option<Vec<Words>> {
    let (Subject::Asm(order), Fault::Asm { line, .. }) = (subject, *fault) else {
        return None;
    };
    let bytes = contents(rt, order.source)?;
    source::explain_later(rt.alloc(), line, &bytes).ok()
}

/// What is wrong with an executable.
fn executable_words<R: Files + AllocGlobal>(
    rt: &R,
    subject: Subject<'_>,
    fault: elf32::Fault,
) -> Option<Words> {
    match subject {
        Subject::Exec(order) => image_words(rt, order.image, exec_memory(order), fault),
        Subject::Replay(order) => {
            let memory = replay_memory(rt, order)?;
            image_words(rt, order.image, memory, fault)
        }
        Subject::Dis(order) => image_words(rt, order.image, Memory::Kseg0, fault),
        Subject::Script(text, _) => guest_words(rt, text, fault),
        Subject::Run(order) => run_guest_words(rt, order, fault),
        Subject::Fuzz(order) => image_words(rt, order.run.image, exec_memory(order.run), fault),
        Subject::Asm(_) | Subject::ScriptFile | Subject::NoProfile(_) => None,
    }
}

/// What is wrong with the executable of a file, where that has this fault.
fn image_words<R: Files + AllocGlobal>(
    rt: &R,
    name: &str,
    memory: Memory,
    fault: elf32::Fault,
) -> Option<Words> {
    let bytes = executable(rt, name)?;
    let refusal = elf::explain(rt.alloc(), &bytes, memory).ok()??;
    if refusal.fault == fault {
        Some(refusal.words)
    } else {
        None
    }
}

/// The memory of the machine that an image is to be run on.
fn exec_memory(order: Exec<'_>) -> Memory {
    Memory::Exec {
        profile: order.profile,
        pages: order.pages,
    }
}

/// What is wrong with the first executable that is refused of a script's guests, where it has this fault.
fn guest_words<R: Files + AllocGlobal>(rt: &R, text: &str, fault: elf32::Fault) -> Option<Words> {
    let Script { header, blocks: _ } = script::read(rt.alloc(), text).ok()?;
    let profile = boot::profile_of(&header, DEFAULT_PROFILE).ok()?;
    for (number, guest) in header.guests.iter().enumerate() {
        let bytes = executable(rt, guest.file)?;
        let memory = Memory::Guest {
            profile,
            pages: guest.pages,
        };
        if let Some(refusal) = elf::explain(rt.alloc(), &bytes, memory).ok()? {
            if refusal.fault != fault {
                return None;
            }
            return elf::of_guest(rt.alloc(), number, guest.file, &refusal.words).ok();
        }
    }
    None
}

/// What is wrong with the first executable that is refused of a run's guests, where it has this fault.
fn run_guest_words<R: Files + AllocGlobal>(
    rt: &R,
    order: &RunOrder<'_>,
    fault: elf32::Fault,
) -> Option<Words> {
    for (number, guest) in order.guests.iter().enumerate() {
        let bytes = executable(rt, guest.image)?;
        let memory = Memory::Guest {
            profile: order.profile,
            pages: guest.pages,
        };
        if let Some(refusal) = elf::explain(rt.alloc(), &bytes, memory).ok()? {
            if refusal.fault != fault {
                return None;
            }
            return elf::of_guest(rt.alloc(), number, guest.image, &refusal.words).ok();
        }
    }
    None
}

/// What a log says of the machine that it is of.
fn log_header<R: Files + AllocGlobal>(rt: &R, order: Replay<'_>) -> Option<LogHeader> {
    log::header(&contents(rt, order.log)?)
}

/// The memory of the machine that a log is of.
fn replay_memory<R: Files + AllocGlobal>(rt: &R, order: Replay<'_>) -> Option<Memory> {
    let LogHeader { profile, pages } = log_header(rt, order)?;
    Some(Memory::Replay { profile, pages })
}

/// What is wrong with a raw image.
fn raw_words<R: Files + AllocGlobal>(rt: &R, subject: Subject<'_>) -> Option<Words> {
    let (name, memory) = match subject {
        Subject::Exec(order) => (order.image, exec_memory(order)),
        Subject::Fuzz(order) => (order.run.image, exec_memory(order.run)),
        Subject::Replay(order) => (order.image, replay_memory(rt, order)?),
        _ => return None,
    };
    let file = plain_file(rt, name)?;
    let length = io::copy(&mut file.take(memory.most_bytes() + 1), &mut io::sink()).ok()?;
    raw::explain(rt.alloc(), length, memory).ok()
}

/// What is wrong with a line of a script.
fn script_words(alloc: Global, subject: Subject<'_>, line: u64) -> Option<Words> {
    let Subject::Script(text, _) = subject else {
        return None;
    };
    script_line::explain(alloc, text, line).ok()
}

/// The number of the refusal of guests a page of whose images the store failed to write.
const BOOT_STORE: u32 = 4;

/// What a run's order says, as the header of a script says it.
fn header_of<'a>(alloc: Global, order: &RunOrder<'a>) -> Option<Header<'a>> {
    let mut guests = Vec::new(alloc);
    for guest in &order.guests {
        guests.push(line_of(*guest)).ok()?;
    }
    Some(Header {
        frames: order.frames,
        slots: order.slots,
        seed: order.seed,
        guests,
        profile: Some(order.profile.numbers().number),
        admit: order.admit,
        failure: None,
    })
}

fn line_of<'a>(guest: GuestOrder<'a>) -> GuestLine<'a> {
    GuestLine {
        file: guest.image,
        pages: guest.pages,
        shares: guest.shares,
        minimum: guest.minimum,
    }
}

/// Why the guests of a run are not booted.
fn run_boot_words(alloc: Global, order: &RunOrder<'_>, number: u32) -> Option<Words> {
    if number == BOOT_STORE {
        Words::of(alloc, "the swap file did not take a page of an image").ok()
    } else {
        boot::of_guests(alloc, number, &header_of(alloc, order)?, order.profile).ok()?
    }
}

/// Why a machine, or the guests of a script or a run, are not booted.
fn boot_words<R: Files + AllocGlobal>(rt: &R, subject: Subject<'_>, number: u32) -> Option<Words> {
    match subject {
        Subject::Exec(order) => {
            boot::of_machine(rt.alloc(), number, order.profile, order.pages).ok()?
        }
        Subject::Fuzz(order) => {
            boot::of_machine(rt.alloc(), number, order.run.profile, order.run.pages).ok()?
        }
        Subject::Replay(order) => {
            let LogHeader { profile, pages } = log_header(rt, order)?;
            boot::of_machine(rt.alloc(), number, profile, pages).ok()?
        }
        Subject::NoProfile(profile) => boot::of_number(rt.alloc(), profile).ok(),
        Subject::Script(text, _) => {
            let Script { header, blocks: _ } = script::read(rt.alloc(), text).ok()?;
            boot::of_guests(rt.alloc(), number, &header, DEFAULT_PROFILE).ok()?
        }
        Subject::Run(order) => run_boot_words(rt.alloc(), order, number),
        _ => None,
    }
}

/// Why a log can't be written or replayed.
fn log_words(alloc: Global, number: u32) -> Option<Words> {
    Words::of(alloc, log::reason(number)?).ok()
}
