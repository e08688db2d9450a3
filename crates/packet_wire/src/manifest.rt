//! Manifests: the shape and the digest of a file.
use generation::Shape;

/// What a stream says of its file: its shape, and the SHA-256 of its bytes.
#[derive(Clone, Copy, Debug, PartialEq, Eq)]
pub struct Manifest {
    pub shape: Shape,
    pub digest: [u8; 32],
}
