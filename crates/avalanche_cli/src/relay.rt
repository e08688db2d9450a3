//! `relay`: from the bytes of a stream to a stream of what is drawn from its packets.
ghost use Rattle.std.specs.Prelude.{◌≡◌, ◌+◌, ◌≤◌, IfOk, IfErr, OnOk};
ghost use Rattle.std.specs.Io.KnownBytes.{IsAtEnd};
ghost use Rattle.swarm_io.specs.Counts.{Rose};
ghost use Rattle.swarm_io.specs.Moved.{TakesAtMost};
ghost use Rattle.avalanche_args.specs.Ranges.{AreRelayWords};
ghost use Rattle.avalanche_cli.specs.Fetch.{HasReadSound, stream_limit};
ghost use Rattle.avalanche_cli.specs.FetchSteps.{IsUnread};
ghost use Rattle.avalanche_cli.specs.Relay.{IsKeptRelay, IsRelayEnd, Relays};

use crate::delivery::{after_delivery, deliver};
use crate::reading::{NoStream, read_stream};
use crate::sending::{Relaying, receive_and_draw};
use crate::stream::Stream;
use crate::{End, Outcome};
use avalanche_args::RelayWords;
use receive_pass::Gate;
use shared_reception::Sending;
use src_check::number_key;
use std::alloc::Global;
use std::thread::Threads;
use swarm_io::{Sink, Source};

/// Reads a stream, receives its packets, and writes the stream of what it then draws.
pub(crate) fn relay<R: Threads + Sync, G: Gate, I: Source, O: Sink>(
    rt: &R,
    alloc: Global,
    gate: &G,
    words: &RelayWords,
    input: &mut I,
    output: &mut O,
) -> Outcome
    requires { AreRelayWords words.now }
    ensures end { IsRelayEnd words.now (I.remaining input.old) result.trace (O.contents output.old) (O.contents output.new)
        (output.new ≡ output.old) (Rose (I.faults input.old) (I.faults input.new))
        (HasReadSound (I.remaining input.old) (I.remaining input.new)) (Rose (O.faults output.old) (O.faults output.new))
        (Rose (O.wants output.old) (O.wants output.new)) result.end }
    ensures kept { IsKeptRelay words.now result.end (I.remaining input.old) result.trace }
    ensures done_reads_all { result.end ≡ End.Done → IsAtEnd (I.remaining input.new) }
    ensures input_faults { I.faults input.old ≤ I.faults input.new }
    ensures output_faults { O.faults output.old ≤ O.faults output.new }
    ensures output_wants { O.wants output.old ≤ O.wants output.new }
    ensures taken { TakesAtMost (I.remaining input.old) (I.remaining input.new) (stream_limit + 1) }
{
    match relayed(rt, alloc, gate, words, input) {
        Ok(Relaying { trace, stream }) => {
            after_delivery(alloc, trace, deliver(output, stream.as_slice()))
        }
        Err(reason) => Outcome::without_trace(alloc, End::from(reason)),
    }
}

/// Reads the stream that the input has, and makes the stream that is to be written.
fn relayed<R: Threads + Sync, G: Gate, I: Source>(
    rt: &R,
    alloc: Global,
    gate: &G,
    words: &RelayWords,
    input: &mut I,
) -> Result<Relaying, NoStream>
    requires { AreRelayWords words.now }
    ensures relayed { IfOk result (λ r. Relays words.now (I.remaining input.old) r.trace (λ stream. r.stream.items ≡ stream)) }
    ensures at_end { OnOk result (IsAtEnd (I.remaining input.new)) }
    ensures unread { IfErr result (IsUnread (I.remaining input.old) (Rose (I.faults input.old) (I.faults input.new))
        (HasReadSound (I.remaining input.old) (I.remaining input.new))) }
    ensures taken { TakesAtMost (I.remaining input.old) (I.remaining input.new) (stream_limit + 1) }
    ensures faults { I.faults input.old ≤ I.faults input.new }
{
    let Stream {
        manifest,
        ticket,
        packets,
    } = read_stream(alloc, input)?;
    let sending = Sending {
        key: number_key(words.key),
        link: words.link,
        coded: words.coded,
    };
    Ok(receive_and_draw(
        rt,
        alloc,
        gate,
        &manifest,
        &ticket,
        packets,
        words.receivers,
        &sending,
    )?)
}
