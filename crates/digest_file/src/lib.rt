//! Files against their digest: SHA-256 (FIPS 180-4) of bytes, and of the file that blocks make up.
#![tactic(auto)]

ghost use Rattle.std.specs.Prelude.{◌≡◌};
ghost use Rattle.sha2.specs.Sha256.{sha256};

mod check;
mod feed;
#[cfg(test)]
mod tests;

pub use check::{Checked, check_blocks};
use sha2::{Digest, Sha256};

/// The SHA-256 of bytes (FIPS 180-4). It takes no memory.
pub fn digest(bytes: &[u8]) -> [u8; 32]
    ensures { result ≡ sha256 bytes.now }
{
    Sha256::digest(bytes)
}
