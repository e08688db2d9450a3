//! Sources and sinks in memory whose calls can be told to fail.
ghost use Rattle.std.specs.Prelude.{◌≡◌, ◌≤◌, ◌<◌, ◌↔◌, ℕ, [], Some, length, Contains, IsTrue, IsErr, IfOk, OnErr, IsErrOf, if◌then◌else◌};
ghost use Rattle.std.specs.Io.KnownBytes.{ReadConsumes, WriteAppends};
ghost use Rattle.swarm_io.specs.Counts.{CountsWhere, Rose, one_more};

use crate::{Failed, Sink, SinkRefusal, Source};
use linear_spec::List;
use std::alloc::Global;
use std::marker::Model;

/// The calls of a form in memory, numbered from 0, and those numbers that are told to fail.
#[derive(Debug, Drop)]
struct Calls {
    fails: List<u64>,
    made: u64,
    failed: u64,
}

impl Calls {
    /// No call so far.
    fn new(fails: List<u64>) -> Calls
        ensures fails { result.fails ≡ fails }
        ensures made { result.made ≡ 0 }
        ensures failed { result.failed ≡ 0 }
    {
        Calls {
            fails,
            made: 0,
            failed: 0,
        }
    }

    /// Counts a call, and answers whether it is told to fail. Then it counts as failed too.
    fn next_fails(&mut self) -> bool
        ensures told { IsTrue result ↔ Contains self.old.fails.items self.old.made }
        ensures fails { self.new.fails ≡ self.old.fails }
        ensures made { self.new.made ≡ one_more self.old.made }
        ensures failed { self.new.failed ≡ (if result then one_more self.old.failed else self.old.failed) }
        ensures never_falls { self.old.failed ≤ self.new.failed }
    {
        let fails = self.fails.as_slice().contains(&self.made);
        self.made = self.made.saturating_add(1);
        if fails {
            self.failed = self.failed.saturating_add(1);
        }
        fails
    }
}

/// A source in memory, whose reads can be told to fail.
///
/// Contracts see the bytes that are left, the number of reads, those that are to fail, and the count of faults.
#[derive(Debug, Drop)]
pub struct MemSource {
    bytes: List<u8>,
    given: usize,
    piece: usize,
    calls: Calls,
}

impl Model for MemSource {
    ghost use Rattle.std.specs.Prelude.{◌<◌, ◌≤◌, drop, length};
    ghost use Rattle.swarm_io.specs.Mem.{MemSourceValue};

    ghost Value = { MemSourceValue };

    ghost view = { λ s. record {
      left = drop s.given s.bytes.items;
      piece = s.piece;
      fails = s.calls.fails.items;
      calls = s.calls.made;
      faults = s.calls.failed;
    } };

    ghost invariant = { λ s. (s.given ≤ length s.bytes.items) × (0 < s.piece) };
}

impl MemSource {
    /// A source of these bytes, which gives at most `piece` of them a read. The reads are numbered from 0, and those
    /// whose numbers are in `fails` fail, whatever their order there.
    pub fn new(bytes: List<u8>, piece: usize, fails: List<u64>) -> MemSource
        requires { 1 ≤ piece }
        ensures left { result.left ≡ bytes.items }
        ensures same_piece { result.piece ≡ piece }
        ensures fails { result.fails ≡ fails.items }
        ensures calls { result.calls ≡ 0 }
        ensures faults { result.faults ≡ 0 }
    {
        MemSource {
            bytes,
            given: 0,
            piece,
            calls: Calls::new(fails),
        }
    }
}

impl Source for MemSource {
    ghost remaining = { λ s. Some s.left };

    ghost faults = { λ s. s.faults };

    #[tactic(auto, using(crate::proofs::MovedLemmas::moves))]
    fn read(&mut self, buf: &mut [u8]) -> Result<usize, Failed>
        requires { 0 < length buf.old }
        ensures bound { IfOk result (λ n. n ≤ length buf.old) }
        ensures bytes { ReadConsumes (Some self.old.left) (Some self.new.left) result buf.new }
        ensures cause { OnErr result (Rose self.old.faults self.new.faults) }
        ensures fault_count { CountsWhere (IsErr result) self.old.faults self.new.faults }
        ensures faults { self.old.faults ≤ self.new.faults }

        ensures told { IsErr result ↔ Contains self.old.fails self.old.calls }
        ensures calls { self.new.calls ≡ one_more self.old.calls }
        ensures fails { self.new.fails ≡ self.old.fails }
        ensures at_most { IfOk result (λ n. n ≤ self.old.piece) }
        ensures same_piece { self.new.piece ≡ self.old.piece }
    {
        if self.calls.next_fails() {
            return Err(Failed);
        }
        let left = &self.bytes.as_slice()[self.given..];
        let count = left.len().min(buf.len()).min(self.piece);
        buf[..count].copy_from_slice(&left[..count]);
        self.given += count;
        Ok(count)
    }
}

/// A sink in memory, whose writes can be told to fail.
///
/// Contracts see the bytes that it holds, the number of writes, those that are to fail, and the counts of faults and
/// of wants.
#[derive(Debug, Drop)]
pub struct MemSink {
    held: List<u8>,
    wants: u64,
    piece: usize,
    calls: Calls,
}

impl Model for MemSink {
    ghost use Rattle.std.specs.Prelude.{◌<◌};
    ghost use Rattle.swarm_io.specs.Mem.{MemSinkValue};

    ghost Value = { MemSinkValue };

    ghost view = { λ s. record {
      held = s.held.items;
      piece = s.piece;
      fails = s.calls.fails.items;
      calls = s.calls.made;
      faults = s.calls.failed;
      wants = s.wants;
    } };

    ghost invariant = { λ s. 0 < s.piece };
}

impl MemSink {
    /// An empty sink, which takes at most `piece` bytes a write. The writes are numbered from 0, and those whose
    /// numbers are in `fails` fail, whatever their order there.
    pub fn new(alloc: Global, piece: usize, fails: List<u64>) -> MemSink
        requires { 1 ≤ piece }
        ensures held { result.held ≡ [] }
        ensures same_piece { result.piece ≡ piece }
        ensures fails { result.fails ≡ fails.items }
        ensures calls { result.calls ≡ 0 }
        ensures faults { result.faults ≡ 0 }
        ensures wants { result.wants ≡ 0 }
    {
        MemSink {
            held: List::new(alloc),
            wants: 0,
            piece,
            calls: Calls::new(fails),
        }
    }

    /// The bytes that it holds.
    pub fn bytes(&self) -> &[u8]
        ensures { result.now ≡ self.now.held }
    {
        self.held.as_slice()
    }
}

impl Sink for MemSink {
    ghost contents = { λ s. Some s.held };

    ghost faults = { λ s. s.faults };

    ghost wants = { λ s. s.wants };

    fn write(&mut self, piece: &[u8]) -> Result<usize, SinkRefusal>
        requires { 0 < length piece.now }
        ensures bound { IfOk result (λ n. (0 < n) × (n ≤ length piece.now)) }
        ensures bytes { WriteAppends (Some self.old.held) (Some self.new.held) result piece.now }
        ensures failed { IsErrOf result SinkRefusal.Failed → Rose self.old.faults self.new.faults }
        ensures memory { IsErrOf result SinkRefusal.Memory → Rose self.old.wants self.new.wants }
        ensures fault_count { CountsWhere (IsErrOf result SinkRefusal.Failed) self.old.faults self.new.faults }
        ensures want_count { CountsWhere (IsErrOf result SinkRefusal.Memory) self.old.wants self.new.wants }
        ensures faults { self.old.faults ≤ self.new.faults }
        ensures wants { self.old.wants ≤ self.new.wants }

        ensures told { IsErrOf result SinkRefusal.Failed ↔ Contains self.old.fails self.old.calls }
        ensures calls { self.new.calls ≡ one_more self.old.calls }
        ensures fails { self.new.fails ≡ self.old.fails }
        ensures at_most { IfOk result (λ n. n ≤ self.old.piece) }
        ensures same_piece { self.new.piece ≡ self.old.piece }
    {
        if self.calls.next_fails() {
            return Err(SinkRefusal::Failed);
        }
        let count = piece.len().min(self.piece);
        if self.held.extend_from_slice(&piece[..count]).is_err() {
            self.wants = self.wants.saturating_add(1);
            return Err(SinkRefusal::Memory);
        }
        Ok(count)
    }
}

#[cfg(test)]
mod tests;
