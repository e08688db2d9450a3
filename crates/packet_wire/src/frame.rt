//! Frames and their kinds.
ghost use Rattle.std.specs.Prelude.{◌≡◌};
ghost use Rattle.packet_wire.specs.Frame.{head, number_of};

use crate::Manifest;
use generation::Ticket;
use linear_spec::Packet;

/// A frame of a stream.
#[derive(Debug, Drop)]
pub enum Frame {
    Manifest(Manifest),
    Ticket(Ticket),
    Packet(Packet),
    End,
}

/// What a frame holds.
#[derive(Clone, Copy, Debug, PartialEq, Eq)]
pub(crate) enum Kind {
    Manifest = 1,
    Ticket = 2,
    Packet = 3,
    End = 4,
}

/// The ten bytes before a body of `len` bytes.
#[tactic(auto, unfolding(crate::specs::Frame::head))]
pub(crate) fn head_of(kind: Kind, len: u32) -> [u8; 10]
    ensures { result ≡ head (number_of kind) len }
{
    let [a, b, c, d] = len.to_be_bytes();
    [b'A', b'V', b'L', b'N', 1, kind as u8, a, b, c, d]
}
