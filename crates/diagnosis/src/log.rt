//! Logs.
ghost use Rattle.std.specs.Prelude.{◌≡◌, ◌+◌, ◌≤◌, ◌↔◌, ℕ, List, IfSome, IsSome};
ghost use Rattle.logfile.specs.Versions.{HasHeaderAs};

use logfile::{LogHeader, read_header};

/// Why a log can't be written or replayed, by the number of the refusal, 0 to 6.
static REASONS: [&str; 7] = [
    "the reference machine keeps no log: leave out --flat or --log",
    "the log has fewer than the bytes of a log's header, 40, or 44 where it begins with MVL2",
    "no log of this program, which begins with MVL1 or MVL2, or its pages are not 2 to 16384, or 32768 in profile 2",
    "the log is of another image: it has the SHA-256 digest of another file",
    "an item is cut off, or has an unknown tag, a seat above 3, a register above 37, or no steps",
    "an item that the machine does not accept where it stands: console input where 256 bytes wait, or a write of more than 1024 bytes or of a byte with no place in memory",
    "the log is of a machine of another profile than 1 and 2",
];

/// Why a log can't be written or replayed, by the number of its refusal.
pub fn reason(number: u32) -> Option<&'static str>
    ensures { IsSome result ↔ (number ≤ 6) }
{
    REASONS.get(number as usize).copied()
}

/// Where the digest begins in a log of version 1, and in one of version 2.
const FIRST_DIGEST: usize = 8;

const SECOND_DIGEST: usize = 12;

/// What a log says of the machine that it is of, where it begins with a header, of whatever image.
pub fn header(log: &[u8]) -> Option<LogHeader>
    ensures { IfSome result (λ header. (digest : List ℕ) × HasHeaderAs log.now digest header.profile header.pages) }
{
    match header_by(log, FIRST_DIGEST) {
        Some(header) => Some(header),
        None => header_by(log, SECOND_DIGEST),
    }
}

/// The same, of a log whose digest begins at this byte.
fn header_by(log: &[u8], start: usize) -> Option<LogHeader>
    requires { start ≤ SECOND_DIGEST }
    ensures { IfSome result (λ header. (digest : List ℕ) × HasHeaderAs log.now digest header.profile header.pages) }
{
    if log.len() < start + 32 {
        return None;
    }
    let mut digest = [0; 32];
    digest.copy_from_slice(&log[start..start + 32]);
    read_header(log, &digest).ok()
}
