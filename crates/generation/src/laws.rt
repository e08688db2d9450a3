//! Laws over the definitions alone: each is the contract of a function that does nothing.
ghost use Rattle.std.specs.Prelude.{◌≡◌, ◌+◌, ◌*◌, ◌<◌, ℕ, List, Some, slice_get};
ghost use Rattle.generation.specs.Shape.{Dimensions, IsShape, generations_of};
ghost use Rattle.generation.specs.Blocks.{AreBlocks, AreZeroPadded, IsFile, block_of, blocks_of, file_of};

use linear_spec::laws::bytes_spell_symbols;

/// A file and its blocks determine each other.
pub fn cut_and_join()
    ensures are_blocks { (d : Dimensions) (file : List ℕ)
        → IsShape d → IsFile d file → AreBlocks d (blocks_of d file) }
    ensures zero_padded { (d : Dimensions) (file : List ℕ)
        → IsShape d → IsFile d file → AreZeroPadded d (blocks_of d file) }
    ensures in_order { (d : Dimensions) (file : List ℕ) (g i : ℕ) → g < generations_of d → i < d.k
        → slice_get (blocks_of d file) (g * d.k + i) ≡ Some (block_of d file g i) }

    ensures file { (d : Dimensions) (file : List ℕ)
        → IsShape d → IsFile d file → file_of d (blocks_of d file) ≡ file }
    ensures blocks { (d : Dimensions) (blocks : List (List ℕ))
        → IsShape d → AreBlocks d blocks → AreZeroPadded d blocks
        → blocks_of d (file_of d blocks) ≡ blocks }
{
    bytes_spell_symbols();
}
