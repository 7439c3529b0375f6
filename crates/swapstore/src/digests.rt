//! The digest of a page.
ghost use Rattle.std.specs.Prelude.{◌≡◌};
ghost use Rattle.sha2.specs.Sha256.{sha256};

use sha2::{Digest, Sha256};

/// The SHA-256 of bytes (FIPS 180-4).
pub fn digest(bytes: &[u8]) -> [u8; 32]
    ensures { result ≡ sha256 bytes.now }
{
    Sha256::digest(bytes)
}
