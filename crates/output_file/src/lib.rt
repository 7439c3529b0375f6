//! Files that a program writes.
//!
//! `write_file` writes the bytes of a plain file whole beside it, under a name of their own, and only then gives them its name: where the disk
//! is full or the program ends on the way, the old file is as it was, and so is each other name that it has. What stands there else, as a pipe
//! or a device, is written as it is. `is_one_file` tells names of one file. No contract can say what the file system does: `write_bytes`
//! has the one of what is written, over any writer.
#![tactic(auto)]

ghost use Rattle.std.specs.Prelude.{◌≡◌, OnOk, true};
ghost use Rattle.std.specs.Io.KnownBytes.{Appends};

use std::fs::File;
use std::io::{ErrorKind, Write};
use std::rt::Files;
use std::{fs, io};

/// How many names are tried for the bytes that are written beside a file.
const MOST_NAMES: u32 = 100;

/// Whether two names are of one file: they are the same, or lead to one place by way of directories and symbolic links.
pub fn is_one_file<R: Files + AllocGlobal>(rt: &R, one: &str, other: &str) -> bool
    ensures { one.now ≡ other.now → result ≡ true }
{
    if one == other {
        return true;
    }
    match (fs::canonicalize(rt, one), fs::canonicalize(rt, other)) {
        (Ok(one), Ok(other)) => one.as_str() == other.as_str(),
        _ => false,
    }
}

/// Writes these bytes into the file of a name, which is made where it is not there.
///
/// An error is the system's reason. A plain file is then as it was; anything else may have a beginning of the bytes.
pub fn write_file<R: Files + AllocGlobal>(rt: &R, name: &str, bytes: &[u8]) -> io::Result<()> {
    let Some(place) = place_of(rt, name)? else {
        return write_bytes(&mut File::create(rt, name)?, bytes);
    };
    let old = fs::metadata(rt, place.as_str());
    if old.is_ok() {
        // A file that may not be written is not replaced.
        drop(File::options().write(true).open(rt, place.as_str())?);
    }
    let Some((beside, mut file)) = new_beside(rt, &place)? else {
        return write_bytes(&mut File::create(rt, name)?, bytes);
    };
    let mut written = write_bytes(&mut file, bytes);
    drop(file);
    if let (Ok(()), Ok(old)) = (&written, &old) {
        written = fs::set_permissions(rt, beside.as_str(), old.permissions());
    }
    if written.is_ok() {
        written = fs::rename(rt, beside.as_str(), place.as_str());
    }
    if written.is_err() {
        drop(fs::remove_file(rt, beside.as_str()));
    }
    written
}

/// Writes bytes through to a writer.
pub fn write_bytes<W: Write>(to: &mut W, bytes: &[u8]) -> io::Result<()>
    ensures whole { OnOk result (Appends (W.contents to.old) (W.contents to.new) bytes.now) }
{
    to.write_all(bytes)
}

/// The place of the plain file that a name leads to, or that it makes where it leads nowhere; none where it leads to something else, or to
/// nothing by a symbolic link.
fn place_of<R: Files + AllocGlobal>(rt: &R, name: &str) -> io::Result<Option<String>> {
    match fs::canonicalize(rt, name) {
        Ok(path) => {
            if fs::metadata(rt, path.as_str())?.is_file() {
                Ok(Some(String::from_str(rt.alloc(), path.as_str())?))
            } else {
                Ok(None)
            }
        }
        Err(error) if error.kind() == ErrorKind::NotFound => {
            if fs::symlink_metadata(rt, name).is_ok() {
                return Ok(None);
            }
            Ok(Some(String::from_str(rt.alloc(), name)?))
        }
        Err(_) => Ok(None),
    }
}

/// A new file beside the one of a place, with its name; none where no file can be made there.
fn new_beside<R: Files + AllocGlobal>(
    rt: &R,
    place: &str,
) -> io::Result<Option<(String, R::File)>> {
    for number in 0..MOST_NAMES {
        let name = format!(in rt.alloc(); "{place}.new{number}")?;
        match File::create_new(rt, name.as_str()) {
            Ok(file) => return Ok(Some((name, file))),
            Err(error) => {
                if error.kind() != ErrorKind::AlreadyExists {
                    return Ok(None);
                }
            }
        }
    }
    Ok(None)
}
