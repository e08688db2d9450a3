//! The file `abc` in two generations, each of one block of two bytes, with two checks. By the ChaCha20 words of the ticket's
//! key the checks have the weights 0xA54E and 0xF7E8, so a payload that is not the block's times the coefficient fails the
//! first.
ghost use Rattle.std.specs.Prelude.{◌≡◌, ◌<◌, ◌≤◌, ◌^◌, IfOk, length};
ghost use Rattle.std.specs.List.{All};
ghost use Rattle.linear_spec.specs.Symbols.{AreBytes};
ghost use Rattle.packet_wire.specs.Stream.{IsPacket};

use crate::reception::{NoFile, Reception, receive};
use basis_core::{Answer, Call};
use generation::Shape;
use gf16::Memory;
use linear_spec::{List, Packet, Reply, SymVec};
use packet_wire::Manifest;
use receive_pass::NoGate;
use src_check::{make_ticket, ticket_key};
use std::alloc::Global;
use std::test::Fail;
use std::thread::Threads;

// The digest comes from sha256sum.
const OF_ABC: [u8; 32] = [
    0xba, 0x78, 0x16, 0xbf, 0x8f, 0x01, 0xcf, 0xea, 0x41, 0x41, 0x40, 0xde, 0x5d, 0xae, 0x22, 0x23,
    0xb0, 0x03, 0x61, 0xa3, 0x96, 0x17, 0x7a, 0x9c, 0xb4, 0x10, 0xff, 0x61, 0xf2, 0x00, 0x15, 0xad,
];

/// A packet of the first generation or the last, with one coefficient and one payload symbol.
#[derive(Clone, Copy)]
struct SmallPacket {
    last: bool,
    coefficient: u16,
    payload: u16,
}

#[tactic(auto, unfolding(generation::specs::Shape::generations_of))]
fn packet_of(alloc: Global, small_packet: SmallPacket) -> Result<Packet, Memory>
    ensures { IfOk result (IsPacket (record { len = 3; k = 1; block = 2 })) }
{
    let coeffs = SymVec::from_slice(alloc, &[small_packet.coefficient])?;
    let payload = SymVec::from_slice(alloc, &[small_packet.payload])?;
    // Laws for the proof: the calls do nothing.
    coeffs.is_vector();
    payload.is_vector();
    Ok(Packet {
        generation: if small_packet.last { 1 } else { 0 },
        coeffs,
        payload,
    })
}

fn packets_of(alloc: Global, small_packets: &[SmallPacket]) -> Result<List<Packet>, Memory>
    ensures count { IfOk result (λ packets. length packets.items ≡ length small_packets.now) }
    ensures packets { IfOk result (λ packets. All (IsPacket (record { len = 3; k = 1; block = 2 })) packets.items) }
{
    let mut packets = List::new(alloc);
    for small_packet in small_packets {
        packets.push(packet_of(alloc, *small_packet)?)?;
    }
    Ok(packets)
}

/// A law for proofs: the call does nothing.
fn are_bytes(bytes: &[u8])
    ensures { AreBytes bytes.now }
{
    let _len = bytes.len();
}

/// What the packets give, with this digest in the manifest.
fn received<R: Threads + Sync>(
    rt: &R,
    alloc: Global,
    digest: [u8; 32],
    small_packets: &[SmallPacket],
    receivers: u32,
) -> Result<Reception, Fail>
    requires few { length small_packets.now < 2 ^ 32 }
    requires some { 1 ≤ receivers }
    requires at_most { receivers ≤ 8 }
{
    let shape = Shape::new(3, 1, 2)?;
    let key = ticket_key(1, 0);
    let ticket = make_ticket(alloc, &shape, b"abc", key, 2)?;
    are_bytes(&ticket.key);
    are_bytes(&digest);
    let packets = packets_of(alloc, small_packets)?;
    let manifest = Manifest { shape, digest };
    Ok(receive(rt, alloc, &NoGate, &manifest, &ticket, packets, receivers)?)
}

fn offered(tag: u64, reply: Reply) -> Call {
    Call {
        tag,
        answer: Answer::Offered(reply),
    }
}

/// The calls of a receiver on the basis of a generation.
fn calls_of(reception: &Reception, generation: usize, receiver: usize) -> &[Call] {
    let Some(basis) = reception.trace.bases.get(generation) else {
        return &[];
    };
    match basis.callers.get(receiver) {
        Some(caller) => caller.calls.as_slice(),
        None => &[],
    }
}

fn small(last: bool, coefficient: u16, payload: u16) -> SmallPacket {
    SmallPacket {
        last,
        coefficient,
        payload,
    }
}

// A receiver has seen only what its own calls brought: so the last packet, the first of its receiver's on its generation, fails at
// the empty front.
#[test]
fn each_packet_is_received_on_its_generation(rt: HostRuntime) -> Result<(), Fail> {
    let small_packets = [
        small(true, 1, 0x6301),
        small(true, 1, 0x6300),
        small(false, 0, 0),
        small(false, 2, 0xC2C4),
        small(false, 1, 0x6163),
    ];
    let reception = received(&rt, rt.alloc(), OF_ABC, &small_packets, 3)?;
    let calls = [
        (0, 0, offered(3, Reply::Innovative { at: 0 })),
        (0, 1, offered(4, Reply::FailedCheck { check: 0, front: 0 })),
        (0, 2, offered(2, Reply::NotInnovative { front: 0 })),
        (1, 0, offered(0, Reply::FailedCheck { check: 0, front: 0 })),
        (1, 1, offered(1, Reply::Innovative { at: 0 })),
    ];
    for (generation, receiver, call) in calls {
        assert_eq!(rt;
            calls_of(&reception, generation, receiver),
            [call].as_slice()
        );
    }
    assert!(rt; calls_of(&reception, 1, 2).is_empty());
    let file = reception.file.ok().ok_or("a file")?;
    assert_eq!(rt; file.as_slice(), b"abc".as_slice());
    Ok(())
}

#[test]
fn the_first_generation_that_lacks_packets_is_told(rt: HostRuntime) -> Result<(), Fail> {
    let small_packets = [small(true, 1, 0x6300), small(false, 1, 0x6163)];
    let reception = received(&rt, rt.alloc(), OF_ABC, &small_packets, 8)?;
    let want = NoFile::Incomplete {
        generation: 0,
        rank: 0,
    };
    assert_eq!(rt; reception.file.err(), Some(want));
    assert_eq!(rt; reception.trace.bases.len(), 2);
    Ok(())
}

#[test]
fn another_digest_is_told(rt: HostRuntime) -> Result<(), Fail> {
    let small_packets = [small(false, 1, 0x6162), small(true, 1, 0x6300)];
    let reception = received(&rt, rt.alloc(), [0; 32], &small_packets, 1)?;
    let want = NoFile::Mismatch { found: OF_ABC };
    assert_eq!(rt; reception.file.err(), Some(want));
    Ok(())
}
