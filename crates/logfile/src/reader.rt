//! Reading a log.
ghost use Rattle.std.specs.Prelude.{◌≤◌, length, IfOk, IfErr};
ghost use Rattle.logfile.specs.Files.{HasEntries};
ghost use Rattle.logfile.specs.Faults.{IsRefusal};

use crate::fault::ReadError;
use crate::header::HEADER_SIZE;
use crate::item_reader::read_entry;
use items::Entry;
use std::alloc::Global;

/// Reads the entries behind the header of a file, one for each of its items.
///
/// An error is that an item is cut off, its tag is unknown, its seat is above 3, its register is above 37, or its steps are
/// none; or a request for memory was refused.
pub fn read_entries(alloc: Global, file: &[u8]) -> Result<Vec<Entry>, ReadError>
    requires { HEADER_SIZE ≤ length file.now }
    ensures ok { IfOk result (λ entries. HasEntries file.now entries.items) }
    ensures refused { IfErr result (IsRefusal file.now) }
{
    let mut rest = &file[HEADER_SIZE..];
    let mut entries = Vec::new(alloc);
    while !rest.is_empty() {
        let (entry, behind) = read_entry(alloc, rest)?;
        entries.push(entry)?;
        rest = behind;
    }
    Ok(entries)
}
