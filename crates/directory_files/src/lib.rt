//! The files of a directory, in the order of their names.
//!
//! No contract can say what the file system holds: that of `files_of` has the order alone.
#![tactic(auto)]

ghost use Rattle.std.specs.Prelude.{IfOk, IsSorted, string_cmp};

#[cfg(test)]
mod tests;

use std::rt::Files;
use std::{fs, io};

/// Whether a name leads to a directory, by symbolic links too.
pub fn is_directory<R: Files>(rt: &R, name: &str) -> bool {
    match fs::metadata(rt, name) {
        Ok(found) => found.is_dir(),
        Err(_) => false,
    }
}

/// The plain files of a directory, and what leads to one by symbolic links: each by the directory's name and its own, with a slash between them, in the
/// order of the bytes of these. What else is in the directory is left out.
///
/// An error is the system's reason why it can't be read, `InvalidFilename` where a name in it is not UTF-8, and `OutOfMemory` where a request for memory
/// was refused.
pub fn files_of<R: Files + AllocGlobal>(rt: &R, directory: &str) -> io::Result<Vec<String>>
    ensures sorted { IfOk result (λ files. IsSorted string_cmp files.items) }
{
    let mut files = Vec::new(rt.alloc());
    for entry in fs::read_dir(&rt, directory)? {
        let entry = entry?;
        let path = String::from_str(rt.alloc(), entry.path().to_string_lossy())?;
        if is_file(rt, path.as_str()) {
            files.push(path)?;
        }
    }
    files.sort_unstable();
    Ok(files)
}

/// Whether a name leads to a plain file, by symbolic links too.
fn is_file<R: Files>(rt: &R, name: &str) -> bool {
    match fs::metadata(rt, name) {
        Ok(found) => found.is_file(),
        Err(_) => false,
    }
}
