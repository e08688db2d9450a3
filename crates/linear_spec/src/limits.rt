//! The limits of the product (docs/FORMATS.md), each of them here alone.
ghost use Rattle.std.specs.Prelude.{◌≡◌};
ghost use Rattle.linear_spec.specs.Limits.{most_blocks, most_block_bytes, most_checks, most_file_bytes, most_generations, most_stream_bytes};

/// K, the blocks of a generation.
pub const MOST_BLOCKS: u16 = 64;

/// The bytes of a block, two for each of its S symbols.
pub const MOST_BLOCK_BYTES: u16 = 4096;

/// G, the generations of a file.
pub const MOST_GENERATIONS: u16 = 256;

/// The bytes of a file.
pub const MOST_FILE_BYTES: u64 = 16_777_216;

/// T, the checks of a ticket.
pub const MOST_CHECKS: u8 = 8;

/// The bytes of a stream that is read whole.
pub const MOST_STREAM_BYTES: u64 = 67_108_864;

/// A law: the limits are those of the definitions.
pub fn limits()
    ensures blocks { MOST_BLOCKS ≡ most_blocks }
    ensures block_bytes { MOST_BLOCK_BYTES ≡ most_block_bytes }
    ensures generations { MOST_GENERATIONS ≡ most_generations }
    ensures file_bytes { MOST_FILE_BYTES ≡ most_file_bytes }
    ensures checks { MOST_CHECKS ≡ most_checks }
    ensures stream_bytes { MOST_STREAM_BYTES ≡ most_stream_bytes }
{}
