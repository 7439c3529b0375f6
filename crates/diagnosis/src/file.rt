//! Files that can't be read or written.
use std::io::ErrorKind;

/// A file that was to be written is not there, and so could not be made.
pub const UNMADE: &str =
    "it can't be made there: its directory is missing, or may not be written to";

/// The executable would be written over its source.
pub const SOURCE_IS_OUTPUT: &str =
    "the source and the executable have one name: give the executable another";

/// The log would be written over its image.
pub const IMAGE_IS_LOG: &str = "the image and its log have one name: give the log another";

/// The executable would be written over its source, by another name.
pub const SOURCE_LEADS_TO_OUTPUT: &str =
    "the source and the executable are one file by two names: give the executable another";

/// The log would be written over its image, by another name.
pub const IMAGE_LEADS_TO_LOG: &str =
    "the image and its log are one file by two names: give the log another";

/// What the system says of a file by an error of this kind, where that is known here.
pub fn reason(kind: ErrorKind) -> Option<&'static str> {
    match kind {
        ErrorKind::NotFound => Some("no such file or directory"),
        ErrorKind::PermissionDenied => Some("no permission"),
        ErrorKind::IsADirectory => Some("a directory, where a file is wanted"),
        ErrorKind::NotADirectory => Some("a part of its name before the last is no directory"),
        _ => None,
    }
}
