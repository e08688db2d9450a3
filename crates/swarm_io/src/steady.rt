//! Sources and sinks in memory that never fail.
ghost use Rattle.std.specs.Prelude.{◌≡◌, ◌≤◌, ◌<◌, ℕ, [], Some, length, IfOk, IsOk, IsErrOf};
ghost use Rattle.std.specs.Io.KnownBytes.{ReadConsumes, WriteAppends};
ghost use Rattle.swarm_io.specs.Counts.{CountsWhere, Rose};

use crate::{Failed, Sink, SinkRefusal, Source};
use linear_spec::List;
use std::alloc::Global;
use std::marker::Model;

/// A source in memory that never fails.
///
/// Contracts see the bytes that are left, and how many a read gives at most.
#[derive(Debug, Drop)]
pub struct SteadySource {
    bytes: List<u8>,
    given: usize,
    piece: usize,
}

impl Model for SteadySource {
    ghost use Rattle.std.specs.Prelude.{◌<◌, ◌≤◌, drop, length};
    ghost use Rattle.swarm_io.specs.Steady.{SteadySourceValue};

    ghost Value = { SteadySourceValue };

    ghost view = { λ s. record { left = drop s.given s.bytes.items; piece = s.piece } };

    ghost invariant = { λ s. (s.given ≤ length s.bytes.items) × (0 < s.piece) };
}

impl SteadySource {
    /// A source of these bytes, which gives at most `piece` of them a call.
    pub fn new(bytes: List<u8>, piece: usize) -> SteadySource
        requires { 1 ≤ piece }
        ensures left { result.left ≡ bytes.items }
        ensures same_piece { result.piece ≡ piece }
    {
        SteadySource {
            bytes,
            given: 0,
            piece,
        }
    }
}

impl Source for SteadySource {
    ghost remaining = { λ s. Some s.left };

    ghost faults = { λ _. 0 };

    #[tactic(auto, using(crate::proofs::MovedLemmas::moves))]
    fn read(&mut self, buf: &mut [u8]) -> Result<usize, Failed>
        requires { 0 < length buf.old }
        ensures bound { IfOk result (λ n. n ≤ length buf.old) }
        ensures bytes { ReadConsumes (Some self.old.left) (Some self.new.left) result buf.new }
        ensures steady { IsOk result }
        ensures at_most { IfOk result (λ n. n ≤ self.old.piece) }
        ensures same_piece { self.new.piece ≡ self.old.piece }
    {
        let left = &self.bytes.as_slice()[self.given..];
        let count = left.len().min(buf.len()).min(self.piece);
        buf[..count].copy_from_slice(&left[..count]);
        self.given += count;
        Ok(count)
    }
}

/// A sink in memory that never fails but for want of memory.
///
/// Contracts see the bytes that it holds, how many a write takes at most, and its count of wants.
#[derive(Debug, Drop)]
pub struct SteadySink {
    held: List<u8>,
    wants: u64,
    piece: usize,
}

impl Model for SteadySink {
    ghost use Rattle.std.specs.Prelude.{◌<◌};
    ghost use Rattle.swarm_io.specs.Steady.{SteadySinkValue};

    ghost Value = { SteadySinkValue };

    ghost view = { λ s. record { bytes = s.held.items; piece = s.piece; wants = s.wants } };

    ghost invariant = { λ s. 0 < s.piece };
}

impl SteadySink {
    /// An empty sink, which takes at most `piece` bytes a call.
    pub fn new(alloc: Global, piece: usize) -> SteadySink
        requires { 1 ≤ piece }
        ensures bytes { result.bytes ≡ [] }
        ensures same_piece { result.piece ≡ piece }
        ensures wants { result.wants ≡ 0 }
    {
        SteadySink {
            held: List::new(alloc),
            wants: 0,
            piece,
        }
    }

    /// The bytes that it holds.
    pub fn bytes(&self) -> &[u8]
        ensures { result.now ≡ self.now.bytes }
    {
        self.held.as_slice()
    }
}

impl Sink for SteadySink {
    ghost contents = { λ s. Some s.bytes };

    ghost faults = { λ _. 0 };

    ghost wants = { λ s. s.wants };

    fn write(&mut self, piece: &[u8]) -> Result<usize, SinkRefusal>
        requires { 0 < length piece.now }
        ensures bound { IfOk result (λ n. (0 < n) × (n ≤ length piece.now)) }
        ensures bytes { WriteAppends (Some self.old.bytes) (Some self.new.bytes) result piece.now }
        ensures steady { ¬ IsErrOf result SinkRefusal.Failed }
        ensures memory { IsErrOf result SinkRefusal.Memory → Rose self.old.wants self.new.wants }
        ensures want_count { CountsWhere (IsErrOf result SinkRefusal.Memory) self.old.wants self.new.wants }
        ensures wants { self.old.wants ≤ self.new.wants }
        ensures at_most { IfOk result (λ n. n ≤ self.old.piece) }
        ensures same_piece { self.new.piece ≡ self.old.piece }
    {
        let count = piece.len().min(self.piece);
        if self.held.extend_from_slice(&piece[..count]).is_err() {
            self.wants = self.wants.saturating_add(1);
            return Err(SinkRefusal::Memory);
        }
        Ok(count)
    }
}
