//! The shape of a file: how many generations of how many blocks of how many symbols.
ghost use Rattle.std.specs.Prelude.{◌≡◌, ◌*◌, ◌<◌, ◌≤◌, ◌↔◌, IfOk, IsErrOf, IsOk};
ghost use Rattle.generation.specs.Shape.{IsBlockCount, IsBlockLength, IsShape, generations_of, symbols_per_block};

use std::marker::Model;
use thiserror::Error;

const MAX_LEN: u64 = 16_777_216;

const MAX_K: u16 = 64;

const MAX_BLOCK: u16 = 4096;

const MAX_GENERATIONS: u64 = 256;

/// Why numbers make no shape. `as u8` gives each error's number.
#[derive(Clone, Copy, Debug, PartialEq, Eq, Error)]
pub enum ShapeError {
    #[error("a generation has 1 to 64 blocks")]
    BadK = 1,
    #[error("a block has 2 to 4096 bytes, an even number")]
    BadBlock = 2,
    #[error("a file has at most 256 generations")]
    TooManyGenerations = 3,
    #[error("a file has at most 16777216 bytes")]
    TooLong = 4,
}

/// How a file is cut into generations of K blocks of equal length.
///
/// Contracts see its dimensions, which keep the limits of `IsShape`.
#[derive(Clone, Copy, Debug, PartialEq, Eq)]
pub struct Shape {
    len: u64,
    k: u16,
    block: u16,
}

impl Model for Shape {
    ghost use Rattle.generation.specs.Shape.{Dimensions, IsShape};

    ghost Value = { Dimensions };

    ghost view = { λ s. record { len = s.len; k = s.k; block = s.block } };

    ghost invariant = { λ s. IsShape (record { len = s.len; k = s.k; block = s.block }) };

    ghost inverse = { λ d. record { len = d.len; k = d.k; block = d.block } };
}

impl Shape {
    /// The shape of a file of `len` bytes, cut into generations of `k` blocks of `block` bytes.
    ///
    /// The numbers are judged in the order `k`, `block`, `len`, generations. It takes no memory.
    pub fn new(len: u64, k: u16, block: u16) -> Result<Shape, ShapeError>
        ensures ok { IfOk result (λ shape. shape ≡ record { len = len; k = k; block = block }) }
        ensures shape { IfOk result IsShape }
        ensures succeeds { IsShape (record { len = len; k = k; block = block }) → IsOk result }

        ensures bad_k { IsErrOf result ShapeError.BadK ↔ ¬ IsBlockCount k }
        ensures bad_block { IsErrOf result ShapeError.BadBlock ↔ (IsBlockCount k × ¬ IsBlockLength block) }
        ensures too_long { IsErrOf result ShapeError.TooLong
            ↔ (IsBlockCount k × IsBlockLength block × (16777216 < len)) }
        ensures too_many_generations { IsErrOf result ShapeError.TooManyGenerations
            ↔ (IsBlockCount k × IsBlockLength block × (len ≤ 16777216)
            × (256 < generations_of (record { len = len; k = k; block = block }))) }
    {
        if !(1..=MAX_K).contains(&k) {
            return Err(ShapeError::BadK);
        }
        if block % 2 != 0 || !(2..=MAX_BLOCK).contains(&block) {
            return Err(ShapeError::BadBlock);
        }
        if len > MAX_LEN {
            return Err(ShapeError::TooLong);
        }
        if generation_count(len, k, block) > MAX_GENERATIONS {
            return Err(ShapeError::TooManyGenerations);
        }
        Ok(Shape { len, k, block })
    }

    /// The bytes of the file.
    pub fn len(&self) -> u64
        ensures value { result ≡ self.now.len }
        ensures shape { IsShape self.now }
    {
        self.len
    }

    /// The blocks of a generation, K.
    pub fn k(&self) -> u16
        ensures value { result ≡ self.now.k }
        ensures shape { IsShape self.now }
    {
        self.k
    }

    /// The bytes of a block, B.
    pub fn block(&self) -> u16
        ensures value { result ≡ self.now.block }
        ensures shape { IsShape self.now }
    {
        self.block
    }

    /// The symbols of a block, S.
    pub fn symbols_per_block(&self) -> u16
        ensures value { result ≡ symbols_per_block self.now }
        ensures shape { IsShape self.now }
    {
        self.block / 2
    }

    /// The generations of the file, G: 0 where the file is empty.
    pub fn generations(&self) -> u16
        ensures value { result ≡ generations_of self.now }
        ensures shape { IsShape self.now }
    {
        generation_count(self.len, self.k, self.block) as u16
    }
}

#[tactic(auto, unfolding(crate::specs::Shape::generations_of))]
fn generation_count(len: u64, k: u16, block: u16) -> u64
    requires { 0 < k * block }
    ensures { result ≡ generations_of (record { len = len; k = k; block = block }) }
{
    len.div_ceil(u64::from(k) * u64::from(block))
}
