//! The files of logs.
ghost use Rattle.std.specs.Prelude.{◌≡◌, ◌⊎◌, IfErr, IfOk};
ghost use Rattle.commands.specs.Faults.{IsDirectoryFault};
ghost use Rattle.commands.specs.LogFiles.{IsLogFile};

use crate::fault::{Fault, of_file};
use guest::Log;
use guest_number::GuestNo;
use logfile::{append_as, write_as};
use mips_cp0::Profile;
use output_file::{is_one_file, write_file};
use simulation::LogKeeper;
use std::alloc::{AllocError, Global};
use std::rt::Files;
use std::{fs, io};

/// The name of the file of a log in a directory, by the number of its guest or of its input: `0.log`, and so on.
pub fn log_name(alloc: Global, directory: &str, number: usize) -> Result<String, AllocError> {
    format!(in alloc; "{directory}/{number}.log")
}

/// Whether the file of this name is one that the log of one of so many guests is written to, in a directory: by that name, or by another one.
pub fn is_log<R: Files + AllocGlobal>(
    rt: &R,
    directory: &str,
    guests: usize,
    name: &str,
) -> Result<bool, AllocError> {
    for guest in 0..guests {
        let log = log_name(rt.alloc(), directory, guest)?;
        if is_one_file(rt, &log, name) {
            return Ok(true);
        }
    }
    Ok(false)
}

/// Makes a directory for logs, where it is not there.
///
/// An error is `File` where it can't be made, or is no directory, and `Memory` where a request for memory was refused.
pub fn make_directory<'a, R: Files>(rt: &R, name: &'a str) -> Result<(), Fault<'a>>
    ensures { IfErr result (λ fault. (fault ≡ Fault.Memory) ⊎ (fault ≡ Fault.File name.entry)) }
{
    of_file(name, directory(rt, name))
}

fn directory<R: Files>(rt: &R, name: &str) -> io::Result<()> {
    match fs::metadata(rt, name) {
        Ok(found) if found.is_dir() => Ok(()),
        Ok(_) => Err(io::Error::from(io::ErrorKind::NotADirectory)),
        Err(_) => fs::create_dir(rt, name),
    }
}

/// The files of the logs of a script's guests, in a directory; or none, where there is no directory for them.
#[derive(Drop)]
pub(crate) struct LogFiles<'r, 'a, R: Files + AllocGlobal> {
    rt: &'r R,
    directory: Option<&'a str>,
    profile: Profile,
    digests: Vec<[u8; 32]>,
    unwritten: Option<GuestNo>,
}

impl<'r, 'a, R: Files + AllocGlobal> LogFiles<'r, 'a, R> {
    /// Files in this directory, if it is given, which is made where it is not there, of logs of guests of this profile and of images of these
    /// digests, guest after guest.
    pub(crate) fn new(
        rt: &'r R,
        directory: Option<&'a str>,
        profile: Profile,
        digests: Vec<[u8; 32]>,
    ) -> Result<LogFiles<'r, 'a, R>, Fault<'a>>
        ensures { IfErr result IsDirectoryFault }
    {
        if let Some(name) = directory {
            make_directory(rt, name)?;
        }
        Ok(LogFiles {
            rt,
            directory,
            profile,
            digests,
            unwritten: None,
        })
    }

    /// The first guest whose log could not be written; None where each was, or none was to be.
    pub(crate) fn unwritten(&self) -> Option<GuestNo> {
        self.unwritten
    }

    /// Whether the log of a guest is written.
    fn write(&self, directory: &str, guest: GuestNo, pages: u32, log: &Log) -> bool {
        let Some(digest) = self.digests.get(guest.index()) else {
            return false;
        };
        match log_name(self.rt.alloc(), directory, guest.index()) {
            Ok(name) => {
                write_log(self.rt, name.as_str(), log, self.profile, pages, digest).is_ok()
            }
            Err(_) => false,
        }
    }
}

impl<R: Files + AllocGlobal> LogKeeper for LogFiles<'_, '_, R> {
    fn keep(&mut self, guest: GuestNo, pages: u32, log: &Log) {
        let Some(directory) = self.directory else {
            return;
        };
        if !self.write(directory, guest, pages, log) && self.unwritten.is_none() {
            self.unwritten = Some(guest);
        }
    }
}

/// Writes the log of a guest of this profile, of so many pages and of the image file of this digest into the file of this name, in version 2.
///
/// An error is `File` where it can't be written, and `Memory` where a request for memory was refused.
pub fn write_log<'a, R: Files + AllocGlobal>(
    rt: &R,
    name: &'a str,
    log: &Log,
    profile: Profile,
    pages: u32,
    digest: &[u8; 32],
) -> Result<(), Fault<'a>>
    ensures { IfErr result (λ fault. (fault ≡ Fault.Memory) ⊎ (fault ≡ Fault.File name.entry)) }
{
    let bytes = log_bytes(rt.alloc(), log, profile, pages, digest)?;
    of_file(name, write_file(rt, name, &bytes))
}

/// The bytes of the file of the log of a guest of this profile, of so many pages and of the image file of this digest, in version 2: it
/// stands for entries with the log's items, in order. An error says that a request for memory was refused.
pub fn log_bytes(
    alloc: Global,
    log: &Log,
    profile: Profile,
    pages: u32,
    digest: &[u8; 32],
) -> Result<Vec<u8>, AllocError>
    ensures { IfOk result (λ bytes. IsLogFile bytes.items profile pages digest.now log.now.items) }
{
    let mut bytes = write_as(alloc, profile, pages, digest, log.entries())?;
    match log.last_steps() {
        None => Ok(bytes),
        Some(last) => {
            append_as(&mut bytes, &last)?;
            Ok(bytes)
        }
    }
}
