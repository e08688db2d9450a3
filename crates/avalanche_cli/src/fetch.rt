//! `fetch`: from the bytes of a stream to the file of its packets.
ghost use Rattle.std.specs.Prelude.{◌≡◌, ◌+◌, ◌≤◌, IfOk, IfErr, OnOk};
ghost use Rattle.std.specs.Io.KnownBytes.{IsAtEnd};
ghost use Rattle.swarm_io.specs.Counts.{Rose};
ghost use Rattle.swarm_io.specs.Moved.{TakesAtMost};
ghost use Rattle.avalanche_args.specs.Ranges.{AreFetchWords};
ghost use Rattle.avalanche_cli.specs.Fetch.{HasReadSound, stream_limit};
ghost use Rattle.avalanche_cli.specs.FetchSteps.{IsAfterNoFile, IsEnd, IsFinished, IsReceptionOf, IsUnread};
ghost use Rattle.avalanche_cli.specs.Run.{IsKeptFetch};

use crate::delivery::{after_delivery, deliver};
use crate::reading::{NoStream, read_stream};
use crate::reception::{NoFile, Reception, receive};
use crate::stream::Stream;
use crate::{End, Outcome, Trace};
use avalanche_args::FetchWords;
use receive_pass::Gate;
use std::alloc::Global;
use std::thread::Threads;
use swarm_io::{Sink, Source};

/// Reads a stream, receives its packets, and writes its file.
pub(crate) fn fetch<R: Threads + Sync, G: Gate, I: Source, O: Sink>(
    rt: &R,
    alloc: Global,
    gate: &G,
    words: &FetchWords,
    input: &mut I,
    output: &mut O,
) -> Outcome
    requires { AreFetchWords words.now }
    ensures end { IsEnd words.now.receivers (I.remaining input.old) result.trace (O.contents output.old) (O.contents output.new)
        (output.new ≡ output.old) (Rose (I.faults input.old) (I.faults input.new))
        (HasReadSound (I.remaining input.old) (I.remaining input.new)) (Rose (O.faults output.old) (O.faults output.new))
        (Rose (O.wants output.old) (O.wants output.new)) result.end }
    ensures kept { IsKeptFetch words.now.receivers result.end (I.remaining input.old) result.trace }
    ensures done_reads_all { result.end ≡ End.Done → IsAtEnd (I.remaining input.new) }
    ensures input_faults { I.faults input.old ≤ I.faults input.new }
    ensures output_faults { O.faults output.old ≤ O.faults output.new }
    ensures output_wants { O.wants output.old ≤ O.wants output.new }
    ensures taken { TakesAtMost (I.remaining input.old) (I.remaining input.new) (stream_limit + 1) }
{
    match received(rt, alloc, gate, words.receivers, input) {
        Ok(reception) => finished(alloc, reception, output),
        Err(reason) => Outcome::without_trace(alloc, End::from(reason)),
    }
}

/// Reads the stream that the input has, and receives its packets.
fn received<R: Threads + Sync, G: Gate, I: Source>(
    rt: &R,
    alloc: Global,
    gate: &G,
    receivers: u32,
    input: &mut I,
) -> Result<Reception, NoStream>
    requires some { 1 ≤ receivers }
    requires few { receivers ≤ 8 }
    ensures received { IfOk result (λ r. IsReceptionOf receivers (I.remaining input.old) r.trace r.file) }
    ensures at_end { OnOk result (IsAtEnd (I.remaining input.new)) }
    ensures unread { IfErr result (IsUnread (I.remaining input.old) (Rose (I.faults input.old) (I.faults input.new))
        (HasReadSound (I.remaining input.old) (I.remaining input.new))) }
    ensures taken { TakesAtMost (I.remaining input.old) (I.remaining input.new) (stream_limit + 1) }
    ensures faults { I.faults input.old ≤ I.faults input.new }
{
    let Stream {
        manifest,
        ticket,
        packets,
    } = read_stream(alloc, input)?;
    Ok(receive(rt, alloc, gate, &manifest, &ticket, packets, receivers)?)
}

/// Writes the file of received packets where they have one.
fn finished<O: Sink>(alloc: Global, reception: Reception, output: &mut O) -> Outcome
    ensures finished { IsFinished reception.trace (O.contents output.old) (O.contents output.new) (output.new ≡ output.old)
        (Rose (O.faults output.old) (O.faults output.new)) (Rose (O.wants output.old) (O.wants output.new)) result reception.file }
    ensures faults { O.faults output.old ≤ O.faults output.new }
    ensures wants { O.wants output.old ≤ O.wants output.new }
{
    let Reception { trace, file } = reception;
    match file {
        Ok(file) => after_delivery(alloc, trace, deliver(output, file.as_slice())),
        Err(reason) => after_no_file(alloc, trace, reason),
    }
}

/// The outcome where there is no file to write.
fn after_no_file(alloc: Global, trace: Trace, reason: NoFile) -> Outcome
    ensures { IsAfterNoFile trace result reason }
{
    match reason {
        NoFile::Incomplete { generation, rank } => Outcome {
            end: End::Incomplete { generation, rank },
            trace,
        },
        NoFile::Mismatch { found } => Outcome {
            end: End::Mismatch { found },
            trace,
        },
        NoFile::Memory => Outcome::without_trace(alloc, End::Memory),
    }
}
