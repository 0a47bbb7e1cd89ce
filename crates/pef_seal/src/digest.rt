//! A digest tells whether bytes are still those that were.

ghost use Rattle.std.specs.Prelude.{◌≡◌};
ghost use Rattle.sha2.specs.Sha256.{sha256};

use crate::Digest32;
use sha2::{Digest, Sha256};

/// The SHA-256 digest of bytes.
pub fn digest_of(bytes: &[u8]) -> Digest32
    ensures { result.bytes ≡ sha256 bytes.now }
{
    Digest32 {
        bytes: Sha256::digest(bytes),
    }
}
