//! Solving by back substitution: from the last row to the first, each row tells the block at its pivot.
ghost use Rattle.std.specs.Prelude.{◌≡◌, length, replicate, slice_set, IfOk};
ghost use Rattle.std.specs.List.{All};
ghost use Rattle.gf16.specs.Sums.{plus_scaled};
ghost use Rattle.linear_spec.specs.Symbols.{IsVector};
ghost use Rattle.linear_spec.specs.Combination.{combination_of};
ghost use Rattle.linear_spec.specs.Solving.{Solves, IsOnlySolution};
ghost use Rattle.plain_basis.specs.BackSubstitution.{AreRows};

use gf16::{Gf, Memory, add_scaled};
use linear_spec::{List, Packet, SymVec};
use std::alloc::Global;

/// The K blocks of S symbols that solve K rows, each of K coefficients and S symbols, which stand for some packets in their
/// order: there are no others. The blocks take memory of `alloc`.
pub fn solve_rows(
    alloc: Global,
    k: usize,
    s: usize,
    rows: &List<Packet>,
) -> Result<List<SymVec>, Memory>
    requires rows { AreRows k s rows.now.items }
    requires full { length rows.now.items ≡ k }
    ensures solves { IfOk result (λ blocks. Solves k s rows.now.items blocks.items) }
    ensures only { IfOk result (λ blocks. IsOnlySolution k s rows.now.items blocks.items) }
{
    linear_spec::laws::combinations();
    linear_spec::laws::solving();
    let mut blocks = zero_blocks(alloc, k, s)?;
    let rows = rows.as_slice();
    for at in (0..rows.len()).rev() {
        let row = &rows[at];
        let block = block_of(alloc, row, &blocks)?;
        if let Some(pivot) = row.pivot() {
            put_block(&mut blocks, pivot, block);
        }
    }
    Ok(blocks)
}

/// Blocks of zeros.
fn zero_blocks(alloc: Global, count: usize, len: usize) -> Result<List<SymVec>, Memory>
    ensures { IfOk result (λ blocks. blocks.items ≡ replicate count (replicate len 0)) }
{
    let mut blocks = List::new(alloc);
    for _block in 0..count {
        blocks.push(SymVec::zeros(alloc, len)?)?;
    }
    Ok(blocks)
}

/// What the row lacks at its pivot while that block is zero: its payload plus the combination of the blocks. To subtract is
/// to add here.
fn block_of(alloc: Global, row: &Packet, blocks: &List<SymVec>) -> Result<SymVec, Memory>
    requires count { length blocks.now.items ≡ length row.now.coeffs }
    requires vectors { All (IsVector (length row.now.payload)) blocks.now.items }
    ensures { IfOk result (λ block. block ≡ plus_scaled (combination_of (length row.now.payload) row.now.coeffs blocks.now.items) 1 row.now.payload) }
{
    linear_spec::laws::combinations();
    let mut block = SymVec::zeros(alloc, row.payload.len())?;
    let blocks = blocks.as_slice();
    for (i, coeff) in row.coeffs.as_slice().iter().enumerate() {
        add_scaled(block.as_mut_slice(), Gf(*coeff), blocks[i].as_slice());
    }
    add_scaled(block.as_mut_slice(), Gf(1), row.payload.as_slice());
    Ok(block)
}

/// Replaces the block at a place.
fn put_block(blocks: &mut List<SymVec>, place: usize, block: SymVec)
    ensures { blocks.new.items ≡ slice_set blocks.old.items place block }
{
    if let Some(old) = blocks.get_mut(place) {
        *old = block;
    }
}
