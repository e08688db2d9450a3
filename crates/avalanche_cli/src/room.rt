//! The room that a stream takes.
ghost use Rattle.std.specs.Prelude.{◌≡◌, ◌≤◌, ◌<◌, ◌^◌};
ghost use Rattle.avalanche_cli.specs.Seed.{stream_room_of};

use generation::Shape;

/// The bytes of the frames of the manifest, of a ticket with no sums, and of the end.
const FIXED: usize = 107;

/// The bytes of a packet's frame before its symbols.
const PACKET_FRONT: usize = 12;

/// The bytes of a stream of this shape, with so many checks and so many packets.
pub(crate) fn stream_room(shape: &Shape, checks: u8, packets: usize) -> usize
    requires checks { checks ≤ 8 }
    requires packets { packets < 2 ^ 32 }
    ensures { result ≡ stream_room_of shape.now checks packets }
{
    let (generations, k) = (usize::from(shape.generations()), usize::from(shape.k()));
    let packet = PACKET_FRONT + 2 * k + usize::from(shape.block());
    FIXED + 2 * (generations * usize::from(checks) * k) + packets * packet
}
