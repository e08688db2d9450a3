//! Streams of docs/FORMATS.md written and read.
ghost use Rattle.std.specs.Prelude.{◌≡◌, length, IfOk};

mod decoding;

use super::*;
use generation::Shape;
use gf16::Memory;
use linear_spec::{List, Packet, SymVec};
use std::alloc::{AllocError, Global};
use std::test::Fail;

// The 143 bytes of `abc` in two blocks of two bytes, frame by frame.
const MANIFEST: [u8; 54] = [
    0x41, 0x56, 0x4C, 0x4E, 1, 1, 0, 0, 0, 0x2C, 0, 0, 0, 0, 0, 0, 0, 3, 0, 2, 0, 2, 0xba, 0x78,
    0x16, 0xbf, 0x8f, 0x01, 0xcf, 0xea, 0x41, 0x41, 0x40, 0xde, 0x5d, 0xae, 0x22, 0x23, 0xb0, 0x03,
    0x61, 0xa3, 0x96, 0x17, 0x7a, 0x9c, 0xb4, 0x10, 0xff, 0x61, 0xf2, 0x00, 0x15, 0xad,
];

const TICKET: [u8; 43] = [
    0x41, 0x56, 0x4C, 0x4E, 1, 2, 0, 0, 0, 0x21, 0, 0, 0, 0, 0, 0, 0, 1, 0, 0, 0, 0, 0, 0, 0, 1, 0,
    0, 0, 0, 0, 0, 0, 0, 0, 0, 0, 0, 0, 0, 0, 0, 0,
];

const PACKETS: [u8; 36] = [
    0x41, 0x56, 0x4C, 0x4E, 1, 3, 0, 0, 0, 8, 0, 0, 0, 1, 0, 0, 0x61, 0x62, 0x41, 0x56, 0x4C, 0x4E,
    1, 3, 0, 0, 0, 8, 0, 0, 0, 0, 0, 1, 0x63, 0x00,
];

const END: [u8; 10] = [0x41, 0x56, 0x4C, 0x4E, 1, 4, 0, 0, 0, 0];

fn abc_stream(alloc: Global) -> Result<Vec<u8>, AllocError> {
    let mut bytes = Vec::new(alloc);
    bytes.extend_from_slice(&MANIFEST)?;
    bytes.extend_from_slice(&TICKET)?;
    bytes.extend_from_slice(&PACKETS)?;
    bytes.extend_from_slice(&END)?;
    Ok(bytes)
}

fn is_packet(packet: &Packet, coeffs: &[u16], payload: &[u16]) -> bool {
    packet.generation == 0
        && packet.coeffs.as_slice() == coeffs
        && packet.payload.as_slice() == payload
}

fn packet(alloc: Global, coeffs: &[u16], payload: &[u16]) -> Result<Packet, Memory>
    ensures coeffs { IfOk result (λ packet. packet.coeffs ≡ coeffs.now) }
    ensures payload { IfOk result (λ packet. packet.payload ≡ payload.now) }
{
    let coeffs = SymVec::from_slice(alloc, coeffs)?;
    let payload = SymVec::from_slice(alloc, payload)?;
    Ok(Packet {
        generation: 0,
        coeffs,
        payload,
    })
}

// The 32 bytes from a place on, which are there.
fn bytes_at(bytes: &[u8], at: usize) -> [u8; 32] {
    let mut array = [0; 32];
    for (to, from) in array.iter_mut().zip(bytes.iter().skip(at)) {
        *to = *from;
    }
    array
}

fn abc_manifest() -> Option<Manifest> {
    let shape = Shape::new(3, 2, 2).ok()?;
    let digest = bytes_at(&MANIFEST, 22);
    Some(Manifest { shape, digest })
}

#[test]
fn writes_abc_frame_by_frame(rt: HostRuntime) -> Result<(), Fail> {
    let alloc = rt.alloc();
    let manifest = abc_manifest().ok_or("a manifest")?;
    let key = bytes_at(&TICKET, 10);
    let sums = SymVec::zeros(alloc, 0)?;
    let ticket = Ticket {
        key,
        checks: 0,
        sums,
    };
    let mut out = List::new(alloc);
    write_manifest(&manifest, &mut out)?;
    assert_eq!(rt; out.as_slice(), MANIFEST.as_slice());
    write_ticket(&ticket, &mut out)?;
    assert_eq!(rt; out.len(), 97);
    write_packet(&packet(alloc, &[1, 0], &[0x6162])?, &mut out)?;
    assert_eq!(rt; out.len(), 115);
    write_packet(&packet(alloc, &[0, 1], &[0x6300])?, &mut out)?;
    assert_eq!(rt; out.len(), 133);
    write_end(&mut out)?;
    assert_eq!(rt; out.as_slice(), abc_stream(alloc)?.as_slice());
    Ok(())
}

// Eight checks of one generation of one block: eight sums, so a body of 49 bytes.
#[test]
fn writes_a_ticket_of_eight_checks(rt: HostRuntime) -> Result<(), Fail> {
    let alloc = rt.alloc();
    let key = [0x5A; 32];
    let sums = SymVec::from_slice(
        alloc,
        &[
            0x0001, 0x0203, 0x0405, 0x0607, 0x0809, 0x0A0B, 0x0C0D, 0xFFFE,
        ],
    )?;
    let ticket = Ticket {
        key,
        checks: 8,
        sums,
    };
    let mut out = List::new(alloc);
    write_ticket(&ticket, &mut out)?;
    let (head, body) = out.as_slice().split_at(out.len().min(10));
    assert_eq!(rt; head, b"AVLN\x01\x02\x00\x00\x00\x31".as_slice());
    let (written, body) = body.split_at(body.len().min(32));
    assert_eq!(rt; written, key.as_slice());
    let expected = [
        8, 0, 1, 2, 3, 4, 5, 6, 7, 8, 9, 0x0A, 0x0B, 0x0C, 0x0D, 0xFF, 0xFE,
    ];
    assert_eq!(rt; body, expected.as_slice());
    Ok(())
}
