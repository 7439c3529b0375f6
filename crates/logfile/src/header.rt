//! The header of a log file.
ghost use Rattle.std.specs.Prelude.{◌≡◌, ◌≤◌, length, IfOk, IfErr, OnOk};
ghost use Rattle.sha2.specs.Sha256.{sha256};
ghost use Rattle.logfile.specs.Files.{HasHeader};
ghost use Rattle.logfile.specs.Faults.{number_of, pages_in, IsFault};

use crate::fault::LogFault;
use sha2::{Digest, Sha256};

/// How many bytes the header has: `MVL1`, the pages, and the digest of the image file.
pub const HEADER_SIZE: usize = 40;

/// The fewest pages that a machine has.
pub const MIN_PAGES: u32 = 2;

/// The most pages that a machine has.
pub const MAX_PAGES: u32 = 16384;

/// What a log file of version 1 begins with.
pub(crate) const MAGIC: [u8; 4] = [b'M', b'V', b'L', b'1'];

/// The SHA-256 digest of an image file, by which the header of a log names it.
pub fn image_digest(file: &[u8]) -> [u8; 32]
    ensures { result ≡ sha256 file.now }
{
    Sha256::digest(file)
}

/// The pages that the header of a file names.
pub(crate) fn pages_in(file: &[u8]) -> u32
    requires { HEADER_SIZE ≤ length file.now }
    ensures { result ≡ pages_in file.now }
{
    u32::from_le_bytes([file[4], file[5], file[6], file[7]])
}

/// Checks the header of a file, and gives the number of pages that it names, 2 to 16384. The digest is that of the image
/// file that the log is to be of.
///
/// An error is the first of: the file has fewer than 40 bytes; it doesn't begin with `MVL1`, or its pages aren't 2 to 16384;
/// its digest is another.
pub fn check_header(file: &[u8], digest: &[u8; 32]) -> Result<u32, LogFault>
    ensures ok { IfOk result (HasHeader file.now digest.now) }
    ensures long { OnOk result (HEADER_SIZE ≤ length file.now) }
    ensures refused { IfErr result (IsFault file.now digest.now) }
    ensures of_the_header { IfErr result (λ fault. number_of fault ≤ 3) }
{
    if file.len() < HEADER_SIZE {
        return Err(LogFault::Short);
    }
    if file[..4] != MAGIC[..] {
        return Err(LogFault::Header);
    }
    let pages = pages_in(file);
    if pages < MIN_PAGES || MAX_PAGES < pages {
        return Err(LogFault::Header);
    }
    if file[8..HEADER_SIZE] != digest[..] {
        return Err(LogFault::Image);
    }
    Ok(pages)
}
