//! Files cut into blocks, and joined again.
ghost use Rattle.std.specs.Prelude.{◌≡◌, ◌*◌, ◌<◌, IfOk, length, take};
ghost use Rattle.linear_spec.specs.Symbols.{IsVector};
ghost use Rattle.generation.specs.Shape.{generations_of, symbols_per_block};
ghost use Rattle.generation.specs.Blocks.{AreBlocks, block_at, block_of, file_of, zero_padded};

use crate::Shape;
use gf16::Memory;
use linear_spec::{List, SymVec, laws};
use std::alloc::Global;

impl Shape {
    /// Block `i` of generation `g` of the file, with zeros past the file's end.
    pub fn symbols(&self, alloc: Global, file: &[u8], g: u16, i: u16) -> Result<SymVec, Memory>
        requires file { length file.now ≡ self.now.len }
        requires generation { g < generations_of self.now }
        requires block { i < self.now.k }
        ensures value { IfOk result (λ v. v ≡ block_of self.now file.now g i) }
        ensures vector { IfOk result (IsVector (symbols_per_block self.now)) }
    {
        let number = usize::from(g) * usize::from(self.k()) + usize::from(i);
        self.block_at(alloc, file, number)
    }

    /// Block `number` of the file, counted over all generations.
    fn block_at(&self, alloc: Global, file: &[u8], number: usize) -> Result<SymVec, Memory>
        requires { number < generations_of self.now * self.now.k }
        ensures value { IfOk result (λ v. v ≡ block_at self.now file.now number) }
        ensures vector { IfOk result (IsVector (symbols_per_block self.now)) }
    {
        let block = usize::from(self.block());
        let start = (number * block).min(file.len());
        let bytes = padded_with_zeros(alloc, &file[start..], block)?;
        SymVec::from_be_bytes(alloc, bytes.as_slice())
    }

    /// The file of all blocks in order, generation after generation.
    #[tactic(auto, unfolding(crate::specs::Blocks::file_of))]
    pub fn join_blocks(&self, alloc: Global, blocks: &List<SymVec>) -> Result<List<u8>, Memory>
        requires { AreBlocks self.now blocks.now.items }
        ensures file { IfOk result (λ file. file.items ≡ file_of self.now blocks.now.items) }
        ensures len { IfOk result (λ file. length file.items ≡ self.now.len) }
    {
        let len = self.len() as usize;
        let mut file = List::new(alloc);
        file.reserve(len + usize::from(self.block()))?;
        for block in blocks.as_slice() {
            block.append_be_bytes(&mut file)?;
            cut(&mut file, len);
        }
        // A law for the proof: the call does nothing.
        laws::bytes_spell_symbols();
        Ok(file)
    }
}

/// The first `len` bytes, with zeros for those that there are not.
fn padded_with_zeros(alloc: Global, bytes: &[u8], len: usize) -> Result<Vec<u8>, Memory>
    ensures { IfOk result (λ padded. padded.items ≡ zero_padded len bytes.now) }
{
    let there = len.min(bytes.len());
    let mut padded = Vec::with_capacity(alloc, len)?;
    padded.extend_from_slice(&bytes[..there])?;
    padded.resize(len, 0)?;
    Ok(padded)
}

/// Drops the bytes past `len`.
fn cut(bytes: &mut List<u8>, len: usize)
    ensures { bytes.new.items ≡ take len bytes.old.items }
{
    while bytes.len() > len {
        let _past = bytes.pop();
    }
}
