//! Log files of both versions.
ghost use Rattle.std.specs.Prelude.{◌≡◌, ◌≤◌, ℕ, true, false, List, ◌∷◌, [], ◌++◌, length, All, IfOk, IfErr, OnOk};
ghost use Rattle.items.specs.declared.entry.Entry.{Entry};
ghost use Rattle.logfile.specs.Runs.{file_entries, HasItems};
ghost use Rattle.mips_cp0.specs.declared.profile.Profile.{Profile};
ghost use Rattle.logfile.specs.Versions.{profile_in, IsSecond, IsNotSecond, HasFields, HasHeaderAs, HasEntriesAs, IsLong, StandsForAs, IsFieldsFault, IsFaultAs, IsRefusalAs};

use crate::fault::{LogFault, ReadError};
use crate::header::{HEADER_SIZE, MIN_PAGES, check_header, pages_in};
use crate::reader::read_entries;
use crate::writer::write_entry;
use items::Entry;
use mips_cp0::Profile;
use std::alloc::{AllocError, Global};

/// What a log file of version 2 begins with.
const SECOND_MAGIC: [u8; 4] = [b'M', b'V', b'L', b'2'];

/// What the header of a log file says of the machine.
#[derive(Clone, Copy, Debug, PartialEq, Eq)]
pub struct LogHeader {
    /// Its profile, the first where the file is of version 1.
    pub profile: Profile,
    /// How many pages its memory has, 2 to the most of the profile.
    pub pages: u32,
}

/// Whether a file is one of version 2.
fn is_second(file: &[u8]) -> bool
    ensures yes { result ≡ true → IsSecond file.now }
    ensures no { result ≡ false → IsNotSecond file.now }
{
    file.len() >= 4 && file[..4] == SECOND_MAGIC[..]
}

/// The number of the profile that the fields of a file of version 2 name.
fn profile_in(fields: &[u8]) -> u32
    requires { 40 ≤ length fields.now }
    ensures { result ≡ profile_in fields.now }
{
    u32::from_le_bytes([fields[0], fields[1], fields[2], fields[3]])
}

/// Checks the fields of a file of version 2, which stand behind its magic number.
#[tactic(auto, using(crate::proofs::SecondVersion::one_number))]
fn check_fields(fields: &[u8], digest: &[u8; 32]) -> Result<LogHeader, LogFault>
    ensures ok { IfOk result (λ header. HasFields fields.now digest.now header.profile header.pages) }
    ensures long { OnOk result (40 ≤ length fields.now) }
    ensures refused { IfErr result (IsFieldsFault fields.now digest.now) }
{
    if fields.len() < HEADER_SIZE {
        return Err(LogFault::Short);
    }
    let Some(profile) = Profile::of_number(profile_in(fields)) else {
        return Err(LogFault::Profile);
    };
    let pages = pages_in(fields);
    if pages < MIN_PAGES || profile.numbers().most_pages < pages {
        return Err(LogFault::Header);
    }
    if fields[8..HEADER_SIZE] != digest[..] {
        return Err(LogFault::Image);
    }
    Ok(LogHeader { profile, pages })
}

/// Checks the header of a file, and gives what it says of the machine. The digest is that of the image file that the log is to be of.
///
/// An error is the first of: the file has fewer than 40 bytes, or begins with `MVL2` and has fewer than 44; it begins with `MVL2`
/// and names no profile; it begins with neither `MVL1` nor `MVL2`, or its pages aren't 2 to the most of the profile; its digest is
/// another.
#[tactic(auto, using(crate::proofs::SecondVersion::second_fault, crate::proofs::SecondVersion::first_fault))]
pub fn read_header(file: &[u8], digest: &[u8; 32]) -> Result<LogHeader, LogFault>
    ensures ok { IfOk result (λ header. HasHeaderAs file.now digest.now header.profile header.pages) }
    ensures long { OnOk result (IsLong file.now) }
    ensures refused { IfErr result (IsFaultAs file.now digest.now) }
{
    if is_second(file) {
        return check_fields(&file[4..], digest);
    }
    match check_header(file, digest) {
        Ok(pages) => Ok(LogHeader {
            profile: Profile::One,
            pages,
        }),
        Err(fault) => Err(fault),
    }
}

/// Reads the entries behind the header of a file, one for each of its items.
///
/// An error is that an item is cut off, its tag is unknown, its seat is above 3, its register is above 37, or its steps are
/// none; or a request for memory was refused.
pub fn read_entries_as(alloc: Global, file: &[u8]) -> Result<Vec<Entry>, ReadError>
    requires { IsLong file.now }
    ensures ok { IfOk result (λ entries. HasEntriesAs file.now entries.items) }
    ensures refused { IfErr result (IsRefusalAs file.now) }
{
    if is_second(file) {
        return read_entries(alloc, &file[4..]);
    }
    read_entries(alloc, file)
}

/// The file of a log, of a machine of this profile and of so many pages, and the image file of this digest, in version 2. Each run of
/// steps has at least one; one of more than 4,294,967,295 is written as several items, all but the last of them with that count. The
/// items that the file holds are those of the entries, in order.
///
/// An error says that a request for memory was refused.
#[tactic(auto, unfolding(crate::specs::Versions::field_bytes))]
pub fn write_as(
    alloc: Global,
    profile: Profile,
    pages: u32,
    digest: &[u8; 32],
    entries: &[Entry],
) -> Result<Vec<u8>, AllocError>
    requires { All HasItems entries.now }
    ensures { IfOk result (λ file. StandsForAs file.items profile pages digest.now (file_entries entries.now)) }
{
    let mut file = Vec::new(alloc);
    file.extend_from_slice(&SECOND_MAGIC)?;
    file.extend_from_slice(&profile.numbers().number.to_le_bytes())?;
    file.extend_from_slice(&pages.to_le_bytes())?;
    file.extend_from_slice(digest)?;
    for entry in entries {
        write_entry(&mut file, entry)?;
    }
    Ok(file)
}

/// Adds an entry, which holds at least one item, to the end of the file of a log.
///
/// An error says that a request for memory was refused; a beginning of the entry may stand in the file then.
pub fn append_as(file: &mut Vec<u8>, entry: &Entry) -> Result<(), AllocError>
    requires { HasItems entry.now }
    ensures { OnOk result ((profile : Profile) (pages : ℕ) (digest : List ℕ) (entries : List Entry)
        → let longer = entries ++ entry.now ∷ [] in StandsForAs file.old.items profile pages digest (file_entries entries)
        → StandsForAs file.new.items profile pages digest (file_entries longer)) }
{
    write_entry(file, entry)
}
