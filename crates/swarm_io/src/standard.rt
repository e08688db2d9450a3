//! Sources and sinks over readers and writers of std.
ghost use Rattle.std.specs.Prelude.{◌≡◌, ◌<◌, ◌≤◌, ℕ, None, length, take, IfOk, IfErr, IsErr};
ghost use Rattle.std.specs.Io.KnownBytes.{Appends, ReadConsumes};
ghost use Rattle.swarm_io.specs.Counts.{CountsWhere};

use crate::{Failed, Sink, SinkRefusal, Source};
use std::io::{Read, Write};
use std::marker::Model;

/// A source over a reader of std: a read is one call of it.
///
/// Each error is a fault, an interrupted call too. Contracts see the count of faults.
#[derive(Debug, Drop)]
pub struct StdSource<R> {
    inner: R,
    faults: u64,
}

impl<R> Model for StdSource<R> {
    ghost use Rattle.std.specs.Prelude.{ℕ};

    ghost Value = { ℕ };

    ghost view = { λ s. s.faults };
}

impl<R> StdSource<R> {
    /// A source over this reader, with no fault so far.
    pub fn new(inner: R) -> StdSource<R>
        ensures { result ≡ 0 }
    {
        StdSource { inner, faults: 0 }
    }
}

impl<R: Read> Source for StdSource<R> {
    ghost remaining = { λ _. None };

    ghost faults = { λ s. s };

    fn read(&mut self, buf: &mut [u8]) -> Result<usize, Failed> {
        read_once(&mut self.inner, &mut self.faults, buf)
    }
}

/// A sink over a writer of std: a write is one call of `write` and one of `flush`.
///
/// Each error is a fault, an interrupted call too, and so is a write that takes nothing. After a
/// failing flush the bytes may have gone out. Contracts see the count of faults.
#[derive(Debug, Drop)]
pub struct StdSink<W> {
    inner: W,
    faults: u64,
}

impl<W> Model for StdSink<W> {
    ghost use Rattle.std.specs.Prelude.{ℕ};

    ghost Value = { ℕ };

    ghost view = { λ s. s.faults };
}

impl<W> StdSink<W> {
    /// A sink over this writer, with no fault so far.
    pub fn new(inner: W) -> StdSink<W>
        ensures { result ≡ 0 }
    {
        StdSink { inner, faults: 0 }
    }
}

impl<W: Write> Sink for StdSink<W> {
    ghost contents = { λ _. None };

    ghost faults = { λ s. s };

    ghost wants = { λ _. 0 };

    fn write(&mut self, piece: &[u8]) -> Result<usize, SinkRefusal> {
        write_once(&mut self.inner, &mut self.faults, piece)
    }
}

// One read. A failure counts.
fn read_once<R: Read>(reader: &mut R, faults: &mut u64, buf: &mut [u8]) -> Result<usize, Failed>
    ensures bound { IfOk result (λ n. n ≤ length buf.old) }
    ensures bytes { ReadConsumes (R.remaining reader.old) (R.remaining reader.new) result buf.new }
    ensures fault_count { CountsWhere (IsErr result) faults.old faults.new }
    ensures faults { faults.old ≤ faults.new }
{
    match reader.read(buf) {
        Ok(count) => Ok(count),
        Err(_) => {
            *faults = faults.saturating_add(1);
            Err(Failed)
        }
    }
}

// One write and one flush. A failure of either counts, and so does a write that takes nothing.
fn write_once<W: Write>(
    writer: &mut W,
    faults: &mut u64,
    piece: &[u8],
) -> Result<usize, SinkRefusal>
    ensures bound { IfOk result (λ n. (0 < n) × (n ≤ length piece.now)) }
    ensures bytes { IfOk result (λ n.
        Appends (W.contents writer.old) (W.contents writer.new) (take n piece.now)) }
    ensures failed { IfErr result (λ refusal. refusal ≡ SinkRefusal.Failed) }
    ensures fault_count { CountsWhere (IsErr result) faults.old faults.new }
    ensures faults { faults.old ≤ faults.new }
{
    match writer.write(piece) {
        Ok(count) if count > 0 && writer.flush().is_ok() => Ok(count),
        _ => {
            *faults = faults.saturating_add(1);
            Err(SinkRefusal::Failed)
        }
    }
}

#[cfg(test)]
mod tests;
