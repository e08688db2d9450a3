//! What a stream holds, taken out of its frames.
ghost use Rattle.std.specs.Prelude.{◌≡◌, IfOk};
ghost use Rattle.packet_wire.specs.Frames.{frames_of};
ghost use Rattle.packet_wire.specs.declared.frame.Frame as declared;
ghost use Rattle.avalanche_cli.specs.Reading.{AreStreamFrames, IsBody, IsManifestFrame, IsPacketFrame, IsTicketFrame, TakesPackets, contents_of};

use gf16::Memory;
use linear_spec::{List, Packet};
use packet_wire::{Frame, Manifest, Ticket};
use std::alloc::Global;

/// A stream that was read: its manifest, its ticket, and its packets in order.
#[derive(Debug, Drop)]
pub(crate) struct Stream {
    pub manifest: Manifest,
    pub ticket: Ticket,
    pub packets: List<Packet>,
}

impl Stream {
    /// The stream that has these frames.
    pub(crate) fn of_frames(alloc: Global, mut frames: List<Frame>) -> Result<Stream, Memory>
        requires { AreStreamFrames frames.items }
        ensures { IfOk result (λ stream. frames.items ≡ frames_of (contents_of stream)) }
    {
        let _end = frames.pop();
        let packets = take_packets(alloc, &mut frames)?;
        let ticket = ticket_of(frames.pop().unwrap());
        let manifest = manifest_of(frames.pop().unwrap());
        Ok(Stream {
            manifest,
            ticket,
            packets,
        })
    }
}

/// Takes the packets out of the frames, the last one first, and gives them in their order.
fn take_packets(alloc: Global, frames: &mut List<Frame>) -> Result<List<Packet>, Memory>
    requires { IsBody frames.old.items }
    ensures { IfOk result (λ packets. TakesPackets frames.old.items frames.new.items packets.items) }
{
    let mut packets = List::new(alloc);
    packets.reserve(frames.len())?;
    while frames.len() > 2 {
        packets.put(packet_of(frames.pop().unwrap()));
    }
    packets.as_mut_slice().reverse();
    Ok(packets)
}

/// The packet of a frame that is one.
fn packet_of(frame: Frame) -> Packet
    requires { IsPacketFrame frame }
    ensures { frame ≡ declared.Frame.Packet result }
{
    match frame {
        Frame::Packet(packet) => packet,
        _ => unreachable!(),
    }
}

fn ticket_of(frame: Frame) -> Ticket
    requires { IsTicketFrame frame }
    ensures { frame ≡ declared.Frame.Ticket result }
{
    match frame {
        Frame::Ticket(ticket) => ticket,
        _ => unreachable!(),
    }
}

fn manifest_of(frame: Frame) -> Manifest
    requires { IsManifestFrame frame }
    ensures { frame ≡ declared.Frame.Manifest result }
{
    match frame {
        Frame::Manifest(manifest) => manifest,
        _ => unreachable!(),
    }
}
