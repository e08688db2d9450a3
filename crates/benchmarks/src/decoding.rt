//! A stream decoded, and its frames counted.
ghost use Rattle.std.specs.Prelude.{◌≡◌, ◌+◌, ◌*◌, ◌^◌, ◌<◌, ◌≤◌, IfErr, IfOk, IsErrOf, OnOk, length};
ghost use Rattle.packet_wire.specs.Decoding.{GoesOn, HasGrown, taken_by};
ghost use Rattle.packet_wire.specs.Faults.{IsFirstFault};
ghost use Rattle.packet_wire.specs.Frames.{frames_of};
ghost use Rattle.packet_wire.specs.Stream.{Contents, IsStream};
ghost use Rattle.packet_wire.specs.declared.fault.WireFault as faults;

use linear_spec::List;
use packet_wire::{Decoder, FeedError, Frame};
use std::alloc::Global;

/// Turns of a decoder over a stream, which it is fed in pieces of `piece` bytes.
#[derive(Clone, Copy, Debug, PartialEq, Eq)]
pub struct Decoding {
    piece: usize,
    turns: u32,
    ghost some_bytes: { 1 ≤ piece },
    ghost some_turns: { 1 ≤ turns },
}

impl Decoding {
    /// The work that words name, or `None` where they name none: from 1 to 65536 bytes in a piece, and one turn or more.
    pub fn named(piece: &str, turns: &str) -> Option<Decoding> {
        let piece = piece.parse::<usize>().ok()?;
        let turns = turns.parse::<u32>().ok()?;
        if piece < 1 || piece > 65536 || turns < 1 {
            return None;
        }
        Some(Decoding { piece, turns })
    }

    /// The number of frames that all turns give. Each turn has a decoder of its own.
    pub fn frames_given(&self, alloc: Global, bytes: &[u8]) -> Result<u64, FeedError>
        requires { length bytes.now ≤ 67108864 }
        ensures stream { OnOk result ((contents : Contents) × IsStream bytes.now contents) }
        ensures number { IfOk result (λ n. (contents : Contents) → IsStream bytes.now contents
            → n ≡ self.now.turns * length (frames_of contents)) }
        ensures fault { (fault : faults.WireFault) → IsErrOf result (FeedError.Fault fault) → IsFirstFault bytes.now fault }
    {
        let mut given = 0;
        for _turn in 0..self.turns {
            given += count_frames(alloc, bytes, self.piece)?;
        }
        Ok(given)
    }
}

/// The number of frames that a new decoder gives.
fn count_frames(alloc: Global, bytes: &[u8], size: usize) -> Result<u64, FeedError>
    requires size { 1 ≤ size }
    requires bytes { length bytes.now ≤ 67108864 }
    ensures stream { OnOk result ((contents : Contents) × IsStream bytes.now contents) }
    ensures number { IfOk result (λ n. (contents : Contents) → IsStream bytes.now contents
        → n ≡ length (frames_of contents)) }
    ensures few { IfOk result (λ n. n ≤ 67108867) }
    ensures fault { (fault : faults.WireFault) → IsErrOf result (FeedError.Fault fault) → IsFirstFault bytes.now fault }
{
    let mut decoder = Decoder::new(alloc);
    let mut frames = List::new(alloc);
    let mut rest = bytes;
    while !rest.is_empty() {
        let (piece, after) = rest.split_at(size.min(rest.len()));
        feed_piece(&mut decoder, piece, &mut frames)?;
        rest = after;
    }
    decoder.finish()?;
    packet_wire::laws::readings();
    packet_wire::laws::sizes();
    Ok(frames.len() as u64)
}

/// Feeds a decoder. A fault is left to `finish`, which tells it too.
fn feed_piece(
    decoder: &mut Decoder,
    piece: &[u8],
    frames: &mut List<Frame>,
) -> Result<(), FeedError>
    requires { taken_by decoder.old + length piece.now < 2 ^ 64 }
    ensures appended { HasGrown frames.old.items frames.new.items }
    ensures after { OnOk result (GoesOn decoder.old piece.now decoder.new frames.old.items frames.new.items) }
    ensures memory { IfErr result (λ error. error ≡ FeedError.Memory) }
    ensures taken { taken_by decoder.new ≤ taken_by decoder.old + length piece.now }
{
    match decoder.feed(piece, frames) {
        Err(FeedError::Memory) => Err(FeedError::Memory),
        _ => Ok(()),
    }
}
