//! The stream of an input, read in pieces and decoded as they come.
ghost use Rattle.std.specs.Prelude.{◌≡◌, ◌+◌, ◌≤◌, ◌<◌, ◌^◌, length, IfOk, IfErr, OnOk};
ghost use Rattle.std.specs.Io.KnownBytes.{IsAtEnd};
ghost use Rattle.swarm_io.specs.Counts.{Rose};
ghost use Rattle.swarm_io.specs.Moved.{TakesAtMost};
ghost use Rattle.packet_wire.specs.Decoding.{taken_by};
ghost use Rattle.avalanche_cli.specs.Fetch.{HasReadSound, Holds, stream_limit};
ghost use Rattle.avalanche_cli.specs.FetchSteps.{IsUnread};
ghost use Rattle.avalanche_cli.specs.Reading.{HoldsFrames, TakesIn, contents_of};

use crate::End;
use crate::stream::Stream;
use gf16::Memory;
use linear_spec::List;
use packet_wire::{Decoder, FeedError, Frame, WireFault};
use std::alloc::Global;
use swarm_io::{Failed, Source};

/// The most bytes that a stream may have.
const MAX_STREAM: u64 = 67_108_864;

/// The most bytes of one read, whose buffer stands on the stack.
const PIECE: usize = 65_536;

/// Why an input gave no stream.
#[derive(Clone, Copy, Debug, PartialEq, Eq)]
pub(crate) enum NoStream {
    /// A read failed.
    ReadFault,
    /// There are more bytes than a stream may have.
    TooLarge,
    /// The bytes are no stream: their first fault.
    BadStream(WireFault),
    /// Memory was wanted and refused.
    Memory,
}

impl From<Failed> for NoStream {
    ghost use Rattle.std.specs.Prelude.{◌≡◌};
    ghost use Rattle.avalanche_cli.specs.declared.reading.NoStream.TheVariants as variants;

    ghost from_gives = { λ _ reason. reason ≡ variants.ReadFault };

    fn from(_failed: Failed) -> NoStream {
        NoStream::ReadFault
    }
}

impl From<Memory> for NoStream {
    ghost use Rattle.std.specs.Prelude.{◌≡◌};
    ghost use Rattle.avalanche_cli.specs.declared.reading.NoStream.TheVariants as variants;

    ghost from_gives = { λ _ reason. reason ≡ variants.Memory };

    fn from(_want: Memory) -> NoStream {
        NoStream::Memory
    }
}

impl From<FeedError> for NoStream {
    ghost use Rattle.std.specs.Prelude.{◌≡◌};
    ghost use Rattle.avalanche_cli.specs.Reading.{reason_of};

    ghost from_gives = { λ error reason. reason ≡ reason_of error };

    fn from(error: FeedError) -> NoStream {
        match error {
            FeedError::Fault(fault) => NoStream::BadStream(fault),
            FeedError::Memory => NoStream::Memory,
        }
    }
}

impl From<NoStream> for End {
    ghost use Rattle.std.specs.Prelude.{◌≡◌};
    ghost use Rattle.avalanche_cli.specs.FetchSteps.{end_of_reading};

    ghost from_gives = { λ reason end. end ≡ end_of_reading reason };

    fn from(reason: NoStream) -> End {
        match reason {
            NoStream::ReadFault => End::ReadFault,
            NoStream::TooLarge => End::TooLarge { limit: MAX_STREAM },
            NoStream::BadStream(fault) => End::BadStream(fault),
            NoStream::Memory => End::Memory,
        }
    }
}

/// Reads the stream that the input has, all of it.
pub(crate) fn read_stream<I: Source>(alloc: Global, input: &mut I) -> Result<Stream, NoStream>
    ensures holds { IfOk result (λ stream. Holds (I.remaining input.old) (contents_of stream)) }
    ensures few { IfOk result (λ stream. length stream.packets.items < 2 ^ 32) }
    ensures at_end { OnOk result (IsAtEnd (I.remaining input.new)) }
    ensures unread { IfErr result (IsUnread (I.remaining input.old) (Rose (I.faults input.old) (I.faults input.new))
        (HasReadSound (I.remaining input.old) (I.remaining input.new))) }
    ensures taken { TakesAtMost (I.remaining input.old) (I.remaining input.new) (stream_limit + 1) }
    ensures faults { I.faults input.old ≤ I.faults input.new }
{
    let frames = read_frames(alloc, input)?;
    packet_wire::laws::readings();
    packet_wire::laws::sizes();
    Ok(Stream::of_frames(alloc, frames)?)
}

/// Reads the frames of the stream that the input has.
fn read_frames<I: Source>(alloc: Global, input: &mut I) -> Result<List<Frame>, NoStream>
    ensures holds { IfOk result (λ frames. HoldsFrames (I.remaining input.old) frames.items) }
    ensures at_end { OnOk result (IsAtEnd (I.remaining input.new)) }
    ensures unread { IfErr result (IsUnread (I.remaining input.old) (Rose (I.faults input.old) (I.faults input.new))
        (HasReadSound (I.remaining input.old) (I.remaining input.new))) }
    ensures taken { TakesAtMost (I.remaining input.old) (I.remaining input.new) (stream_limit + 1) }
    ensures faults { I.faults input.old ≤ I.faults input.new }
{
    let mut decoder = Decoder::new(alloc);
    let mut frames = List::new(alloc);
    let mut buffer = [0; PIECE];
    let mut room = MAX_STREAM;
    loop {
        let want = (room + 1).min(PIECE as u64) as usize;
        let count = input.read(&mut buffer[..want])?;
        packet_wire::laws::extensions();
        packet_wire::laws::failures();
        if count == 0 {
            decoder.finish()?;
            return Ok(frames);
        }
        room = take_in(&mut decoder, &buffer[..count], room, &mut frames)?;
    }
}

/// Decodes the bytes of a piece that the limit lets in, and answers how many more it lets in.
fn take_in(
    decoder: &mut Decoder,
    piece: &[u8],
    room: u64,
    frames: &mut List<Frame>,
) -> Result<u64, NoStream>
    requires { taken_by decoder.old + room ≤ stream_limit }
    ensures taken { IfOk result (λ left. taken_by decoder.new + left ≤ stream_limit) }
    ensures taken_in { TakesIn decoder.old frames.old.items piece.now room decoder.new frames.new.items result }
{
    let within = room.min(piece.len() as u64) as usize;
    decoder.feed(&piece[..within], frames)?;
    match room.checked_sub(piece.len() as u64) {
        Some(left) => Ok(left),
        None => Err(NoStream::TooLarge),
    }
}
