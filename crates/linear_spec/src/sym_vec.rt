//! Vectors of symbols, and their bytes.
ghost use Rattle.std.specs.Prelude.{◌≡◌, ◌≤◌, ◌+◌, ◌*◌, ◌++◌, ◌/◌, ◌%◌, length, replicate, IfOk, IsOk, OnOk, OnErr};
ghost use Rattle.std.specs.Borrow.{sem};
ghost use Rattle.linear_spec.specs.Symbols.{AreSymbols, IsVector, be_bytes_of, symbols_of};

use crate::List;
use gf16::Memory;
use std::alloc::{AllocError, Global};
use std::marker::Model;

/// A vector of symbols of the field, which contracts see as their list.
#[derive(Debug, Drop)]
pub struct SymVec {
    symbols: Vec<u16>,
}

impl Model for SymVec {
    ghost use Rattle.std.specs.Prelude.{List, ℕ};

    ghost Value = { List ℕ };

    ghost view = { λ v. v.symbols.items };
}

impl SymVec {
    ghost use Rattle.linear_spec.specs.SymVecLends.{lends_symbols};

    /// The zero vector of `len` symbols.
    pub fn zeros(alloc: Global, len: usize) -> Result<SymVec, Memory>
        ensures { IfOk result (λ v. v ≡ replicate len 0) }
    {
        let symbols = vec![in alloc; 0; len]?;
        Ok(SymVec { symbols })
    }

    /// A vector of these symbols.
    pub fn from_slice(alloc: Global, symbols: &[u16]) -> Result<SymVec, Memory>
        ensures { IfOk result (λ v. v ≡ symbols.now) }
    {
        let symbols = Vec::from_slice(alloc, symbols)?;
        Ok(SymVec { symbols })
    }

    /// The symbols that bytes spell, two bytes each, the high one first. A last odd byte is left out.
    pub fn from_be_bytes(alloc: Global, bytes: &[u8]) -> Result<SymVec, Memory>
        ensures symbols { IfOk result (λ v. v ≡ symbols_of bytes.now) }
        ensures count { IfOk result (λ v. length v ≡ length bytes.now / 2) }
        ensures are_symbols { IfOk result AreSymbols }
        ensures spelled { length bytes.now % 2 ≡ 0 → IfOk result (λ v. be_bytes_of v ≡ bytes.now) }
    {
        let symbols = symbols_in(alloc, bytes)?;
        Ok(SymVec { symbols })
    }

    /// Appends the bytes of the symbols, two bytes each, the high one first. On refusal `out` is as before.
    #[tactic(auto, unfolding(crate::specs::Symbols::be_bytes_of))]
    pub fn append_be_bytes(&self, out: &mut List<u8>) -> Result<(), Memory>
        ensures ok { OnOk result (out.new.items ≡ out.old.items ++ be_bytes_of self.now) }
        ensures err { OnErr result (out.new.items ≡ out.old.items) }
        ensures spare { out.old.spare ≤ out.new.spare + 2 * length self.now }
        ensures succeeds { 2 * length self.now ≤ out.old.spare → IsOk result }
    {
        let _spare = out.spare();
        let room = self.symbols.len().checked_mul(2).ok_or(Memory)?;
        out.reserve(room)?;
        for symbol in &self.symbols {
            let [high, low] = symbol.to_be_bytes();
            out.put(high);
            out.put(low);
        }
        Ok(())
    }

    /// An equal vector.
    pub fn copy(&self, alloc: Global) -> Result<SymVec, Memory>
        ensures { IfOk result (λ v. v ≡ self.now) }
    {
        SymVec::from_slice(alloc, self.as_slice())
    }

    /// A law: each number of the vector is a symbol, by its type.
    pub fn is_vector(&self)
        ensures { IsVector (length self.now) self.now }
    {
        are_symbols(self.as_slice());
    }

    /// The number of symbols.
    pub fn len(&self) -> usize
        ensures { result ≡ length self.now }
    {
        self.symbols.len()
    }

    /// The symbols.
    pub fn as_slice(&self) -> &[u16]
        ensures { result.now ≡ self.now }
    {
        self.symbols.as_slice()
    }

    /// The symbols, for writing: the length stays.
    pub fn as_mut_slice(&mut self) -> &mut [u16]
        ensures* writes_back { sem 𝓛 (lends_symbols self.entry result) }
        ensures value { result.now ≡ self.old }
    {
        self.symbols.as_mut_slice()
    }
}

/// A law: numbers of 16 bits are symbols.
fn are_symbols(symbols: &[u16])
    ensures { AreSymbols symbols.now }
{
    let _len = symbols.len();
}

#[tactic(auto, unfolding(crate::specs::Symbols::symbols_of))]
fn symbols_in(alloc: Global, bytes: &[u8]) -> Result<Vec<u16>, AllocError>
    ensures { IfOk result (λ symbols. symbols.items ≡ symbols_of bytes.now) }
{
    let mut symbols = Vec::with_capacity(alloc, bytes.len() / 2)?;
    let mut rest = bytes;
    while let [high, low, after @ ..] = rest {
        symbols.push(u16::from_be_bytes([*high, *low]))?;
        rest = after;
    }
    Ok(symbols)
}
