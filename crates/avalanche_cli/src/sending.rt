//! The packets of a stream, received by threads on shared bases, and the stream of what is drawn from them.
ghost use Rattle.std.specs.Prelude.{◌≡◌, ◌<◌, ◌≤◌, ◌^◌, ◌++◌, length, map, IfOk, OnOk};
ghost use Rattle.std.specs.List.{All, flat_map};
ghost use Rattle.linear_spec.specs.Packet.{Fits};
ghost use Rattle.generation.specs.Shape.{symbols_per_block};
ghost use Rattle.packet_wire.specs.Stream.{IsManifest, IsPacket, IsTicket, packet_frame, spelling_of};
ghost use Rattle.avalanche_cli.specs.Sends.{packets_sent};
ghost use Rattle.avalanche_cli.specs.SendSteps.{FitsFrame, entry_of, packets_of_draws};
ghost use Rattle.avalanche_cli.specs.Trace.{IsLegalRelay};

use crate::reception::traces_of;
use crate::room::stream_room;
use crate::{SendEntry, Trace};
use generation::Ticket;
use gf16::Memory;
use linear_spec::{Drawn, List, Packet};
use packet_wire::{Manifest, write_end, write_manifest, write_packet, write_ticket};
use receive_pass::Gate;
use shared_reception::{Relayed, Sending, SentDraw, relay_packets};
use src_check::make_equations;
use std::alloc::Global;
use std::thread::Threads;

/// What relaying the packets of a stream gave: the calls, the records and the draws, and the stream that is to be written.
#[derive(Debug, Drop)]
pub(crate) struct Relaying {
    pub trace: Trace,
    pub stream: List<u8>,
}

/// Receives the packets of a stream on the bases of their generations, which the receivers share, draws from each basis once
/// they are done, and makes the stream of what was drawn: with the manifest and the ticket that were read.
pub(crate) fn receive_and_draw<R: Threads + Sync, G: Gate>(
    rt: &R,
    alloc: Global,
    gate: &G,
    manifest: &Manifest,
    ticket: &Ticket,
    packets: List<Packet>,
    receivers: u32,
    sending: &Sending,
) -> Result<Relaying, Memory>
    requires manifest { IsManifest manifest.now }
    requires ticket { IsTicket manifest.now.shape ticket.now }
    requires packets { All (IsPacket manifest.now.shape) packets.items }
    requires few { length packets.items < 2 ^ 32 }
    requires receivers { (1 ≤ receivers) × (receivers ≤ 8) }
    requires sending { (sending.now.link ≤ 65535) × (sending.now.coded ≤ 1024) }
    ensures legal { IfOk result (λ r. IsLegalRelay receivers sending.now
        (record { manifest = manifest.now; ticket = ticket.now; packets = packets.items }) r.trace) }
    ensures stream { IfOk result (λ r. r.stream.items ≡ spelling_of (record {
      manifest = manifest.now;
      ticket = ticket.now;
      packets = packets_sent manifest.now.shape sending.now.key r.trace;
    })) }
{
    let equations = make_equations(alloc, &manifest.shape, ticket)?;
    let Relayed { bases, sent } = relay_packets(
        rt, alloc, gate, &equations, packets, receivers, sending,
    )?;
    let sent = sent.as_slice();
    let stream = stream_of(alloc, manifest, ticket, sent)?;
    let sends = entries_of(alloc, sending, sent)?;
    let bases = traces_of(alloc, bases)?;
    Ok(Relaying {
        trace: Trace { bases, sends },
        stream,
    })
}

/// The stream of the packets that were drawn.
fn stream_of(
    alloc: Global,
    manifest: &Manifest,
    ticket: &Ticket,
    sent: &[SentDraw],
) -> Result<List<u8>, Memory>
    requires manifest { IsManifest manifest.now }
    requires ticket { IsTicket manifest.now.shape ticket.now }
    requires few { length sent.now < 2 ^ 32 }
    requires fit { All (λ draw. Fits manifest.now.shape.k (symbols_per_block manifest.now.shape) draw.packet) sent.now }
    ensures { IfOk result (λ stream. stream.items ≡ spelling_of (record {
      manifest = manifest.now;
      ticket = ticket.now;
      packets = packets_of_draws sent.now;
    })) }
{
    let mut stream = List::new(alloc);
    stream.reserve(stream_room(&manifest.shape, ticket.checks, sent.len()))?;
    write_manifest(manifest, &mut stream)?;
    write_ticket(ticket, &mut stream)?;
    append_sent(sent, &mut stream)?;
    write_end(&mut stream)?;
    Ok(stream)
}

/// Appends the frames of the packets of the draws that are `Sent`.
fn append_sent(sent: &[SentDraw], stream: &mut List<u8>) -> Result<(), Memory>
    requires { All (λ draw. FitsFrame draw.packet) sent.now }
    ensures { OnOk result (stream.new.items ≡ stream.old.items ++ flat_map packet_frame (packets_of_draws sent.now)) }
{
    for draw in sent {
        if let Drawn::Sent { .. } = draw.drawn {
            write_packet(&draw.packet, stream)?;
        }
    }
    Ok(())
}

/// The draws as a trace has them.
fn entries_of(
    alloc: Global,
    sending: &Sending,
    sent: &[SentDraw],
) -> Result<List<SendEntry>, Memory>
    ensures { IfOk result (λ sends. sends.items ≡ map (entry_of sending.now) sent.now) }
{
    let mut sends = List::new(alloc);
    sends.reserve(sent.len())?;
    for draw in sent {
        sends.put(SendEntry {
            round: 1,
            link: sending.link,
            peer: 0,
            generation: draw.generation,
            q: draw.q,
            drawn: draw.drawn,
        });
    }
    Ok(sends)
}
