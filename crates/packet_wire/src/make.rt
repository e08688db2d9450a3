//! Frames made of bodies that were judged.
ghost use Rattle.std.specs.Prelude.{◌≡◌, ◌+◌, ◌*◌, ◌≤◌, length, IfOk};
ghost use Rattle.generation.specs.Shape.{IsShape};
ghost use Rattle.packet_wire.specs.Frames.{phase_after};
ghost use Rattle.packet_wire.specs.Judgements.{shape_in};
ghost use Rattle.packet_wire.specs.Making.{IsWholeFrame, frame_in, manifest_in, packet_in, ticket_in};

use crate::Manifest;
use crate::fields::{are_bytes, array32, number16_at, number64_at};
use crate::frame::{Frame, Kind};
use crate::phase::Phase;
use generation::{Shape, Ticket};
use gf16::Memory;
use linear_spec::laws::bytes_spell_symbols;
use linear_spec::{Packet, SymVec};
use std::alloc::Global;

/// The frame that these bytes are, all of them.
pub(crate) fn make(alloc: Global, phase: &Phase, held: &[u8]) -> Result<Frame, Memory>
    requires { IsWholeFrame phase.now held.now }
    ensures { IfOk result (λ frame. frame ≡ frame_in phase.now held.now) }
{
    bytes_spell_symbols();
    are_bytes(held);
    match phase {
        Phase::BeforeManifest => Ok(Frame::Manifest(make_manifest(held))),
        Phase::BeforeTicket(_) => Ok(Frame::Ticket(make_ticket(alloc, held)?)),
        Phase::BeforeEnd(shape) if held[5] == Kind::Packet as u8 => {
            Ok(Frame::Packet(make_packet(alloc, shape, held)?))
        }
        Phase::BeforeEnd(_) => Ok(Frame::End),
        Phase::Ended => unreachable!(),
    }
}

fn make_manifest(held: &[u8]) -> Manifest
    requires count { length held.now ≡ 54 }
    requires shape { IsShape (shape_in held.now) }
    ensures { result ≡ manifest_in held.now }
{
    let (len, k, block) = (
        number64_at(held, 10),
        number16_at(held, 18),
        number16_at(held, 20),
    );
    let Ok(shape) = Shape::new(len, k, block) else {
        unreachable!()
    };
    let digest = array32(&held[22..]);
    Manifest { shape, digest }
}

fn make_ticket(alloc: Global, held: &[u8]) -> Result<Ticket, Memory>
    requires { 43 ≤ length held.now }
    ensures { IfOk result (λ ticket. ticket ≡ ticket_in held.now) }
{
    let key = array32(&held[10..42]);
    let checks = held[42];
    let sums = SymVec::from_be_bytes(alloc, &held[43..])?;
    Ok(Ticket { key, checks, sums })
}

fn make_packet(alloc: Global, shape: &Shape, held: &[u8]) -> Result<Packet, Memory>
    requires { 12 + 2 * shape.now.k ≤ length held.now }
    ensures { IfOk result (λ packet. packet ≡ packet_in shape.now held.now) }
{
    let generation = number16_at(held, 10);
    let (coeffs, payload) = held[12..].split_at(2 * usize::from(shape.k()));
    let coeffs = SymVec::from_be_bytes(alloc, coeffs)?;
    let payload = SymVec::from_be_bytes(alloc, payload)?;
    Ok(Packet {
        generation,
        coeffs,
        payload,
    })
}

/// How far the stream has come after a frame.
pub(crate) fn next_phase(phase: &Phase, frame: &Frame) -> Phase
    ensures { result ≡ phase_after phase.now frame.now }
{
    match frame {
        Frame::Manifest(manifest) => Phase::BeforeTicket(manifest.shape),
        Frame::Ticket(_) => match phase {
            Phase::BeforeTicket(shape) => Phase::BeforeEnd(*shape),
            _ => *phase,
        },
        Frame::Packet(_) => *phase,
        Frame::End => Phase::Ended,
    }
}
