//! The blocks of a file against the manifest's digest, which is SHA-256 (FIPS 180-4).
ghost use Rattle.std.specs.Prelude.{◌≡◌, ◌≢◌, ◌↔◌, take};
ghost use Rattle.std.specs.List.{flat_map};
ghost use Rattle.sha2.specs.Sha256.{sha256};
ghost use Rattle.linear_spec.specs.Symbols.{be_bytes_of};
ghost use Rattle.generation.specs.Blocks.{AreBlocks, file_of};
ghost use Rattle.digest_file.specs.Checked.{IfMismatch};

use crate::feed::feed;
use linear_spec::{List, SymVec};
use packet_wire::Manifest;
use sha2::{Digest, Sha256};

/// What a file's digest shows.
#[derive(Clone, Copy, Debug, PartialEq, Eq)]
pub enum Checked {
    /// The file has the manifest's digest.
    Match,
    /// The file has another digest: the one found.
    Mismatch { found: [u8; 32] },
}

/// Tests the file of all blocks in order, generation after generation, against the manifest's digest. It joins no file and
/// takes no memory. `blocks` are G * K blocks of S symbols.
#[tactic(auto, unfolding(generation::specs::Blocks::file_of))]
pub fn check_blocks(manifest: &Manifest, blocks: &List<SymVec>) -> Checked
    requires blocks { AreBlocks manifest.now.shape blocks.now.items }
    ensures equal { result ≡ Checked.Match
        ↔ (sha256 (file_of manifest.now.shape blocks.now.items) ≡ manifest.now.digest) }
    ensures found { IfMismatch result (λ found. found ≡ sha256 (file_of manifest.now.shape blocks.now.items)) }
    ensures differs { IfMismatch result (λ found. found ≢ manifest.now.digest) }
{
    let found = digest_of_blocks(blocks.as_slice(), manifest.shape.len() as usize);
    if found == manifest.digest {
        Checked::Match
    } else {
        Checked::Mismatch { found }
    }
}

/// The digest of the bytes of blocks in order, cut to `len`.
fn digest_of_blocks(blocks: &[SymVec], len: usize) -> [u8; 32]
    ensures { result ≡ sha256 (take len (flat_map be_bytes_of blocks.now)) }
{
    let mut hasher = Sha256::new();
    let mut left = len;
    for block in blocks {
        feed(&mut hasher, block.as_slice(), left);
        left = left.saturating_sub(2 * block.len());
    }
    hasher.finalize()
}
