//! Packets received and drawn from.
ghost use Rattle.std.specs.Prelude.{◌≡◌, ◌<◌, length, IfOk};
ghost use Rattle.std.specs.List.{All};
ghost use Rattle.linear_spec.specs.Passing.{AreEquations, IsTestable};

use super::*;
use gf16::Memory;
use linear_spec::{Drawn, Equations, List, Packet, SymVec};
use receive_pass::NoGate;
use shared_basis::Closed;
use std::alloc::Global;
use std::test::Fail;

/// Equations with no checks, for two generations of packets of one coefficient and one symbol.
fn small_equations(alloc: Global) -> Result<Equations, Memory>
    ensures equations { IfOk result AreEquations }
    ensures shape { IfOk result (λ e. (e.k ≡ 1) × (e.s ≡ 1) × (e.generations ≡ 2)) }
{
    Ok(Equations {
        checks: 0,
        k: 1,
        s: 1,
        generations: 2,
        weights: SymVec::zeros(alloc, 0)?,
        sums: SymVec::zeros(alloc, 0)?,
    })
}

/// A packet of this generation.
fn small_packet(alloc: Global, equations: &Equations, generation: u16) -> Result<Packet, Memory>
    requires equations { AreEquations equations.now }
    requires shape { (equations.now.k ≡ 1) × (equations.now.s ≡ 1) × (equations.now.generations ≡ 2) }
    requires generation { generation < 2 }
    ensures { IfOk result (IsTestable equations.now) }
{
    let packet = Packet {
        generation,
        coeffs: SymVec::from_slice(alloc, &[1])?,
        payload: SymVec::from_slice(alloc, &[0x6162])?,
    };
    linear_spec::laws::packet_fits(&packet);
    Ok(packet)
}

/// That packet and no other.
fn one_packet(alloc: Global, equations: &Equations, generation: u16) -> Result<List<Packet>, Memory>
    requires equations { AreEquations equations.now }
    requires shape { (equations.now.k ≡ 1) × (equations.now.s ≡ 1) × (equations.now.generations ≡ 2) }
    requires generation { generation < 2 }
    ensures count { IfOk result (λ packets. length packets.items ≡ 1) }
    ensures testable { IfOk result (λ packets. All (IsTestable equations.now) packets.items) }
{
    let packet = small_packet(alloc, equations, generation)?;
    let mut packets = List::new(alloc);
    packets.push(packet)?;
    Ok(packets)
}

/// The generation of a draw, its number, the front that it tells, or 0 where it tells nothing, its coefficient and its symbol.
fn told(draw: &SentDraw) -> (u16, u32, u16, u16, u16) {
    let front = match draw.drawn {
        Drawn::Sent { front } => front,
        Drawn::Nothing => 0,
    };
    let coefficient = draw.packet.coeffs.as_slice().first().copied();
    let symbol = draw.packet.payload.as_slice().first().copied();
    (
        draw.generation,
        draw.q,
        front,
        coefficient.unwrap_or(0xFFFF),
        symbol.unwrap_or(0xFFFF),
    )
}

/// How many calls each caller has, of three.
fn call_counts(closed: &Closed) -> [usize; 3] {
    let mut counts = [0; 3];
    for (count, caller) in counts.iter_mut().zip(closed.callers.as_slice()) {
        *count = caller.calls.len();
    }
    counts
}

// The words are from a Python script after the block function of RFC 8439: with the key of zero bytes those of stream 16 at
// places 0 and 256 are E55922C0 and 0EC439BE, and those of stream 19 at places 512 and 768 are BE290DD6 and
// 58FD2DC6. Products are from a script that divides polynomials.
#[test]
fn a_relay_draws_over_all_records(rt: HostRuntime) -> Result<(), Fail> {
    let alloc = rt.alloc();
    let equations = small_equations(alloc)?;
    let packets = one_packet(alloc, &equations, 0)?;
    let sending = Sending {
        key: [0; 32],
        link: 0,
        coded: 2,
    };
    let relayed = relay_packets(&rt, alloc, &NoGate, &equations, packets, 2, &sending)?;
    let sent = relayed.sent.as_slice();
    assert_eq!(rt; sent.len(), 4);
    assert_eq!(rt; told(&sent[0]), (0, 0, 1, 0x22C0, 0x79BA));
    assert_eq!(rt; told(&sent[1]), (0, 1, 1, 0x39BE, 0xF09D));
    assert_eq!(rt; told(&sent[2]), (1, 2, 0, 0, 0));
    assert_eq!(rt; told(&sent[3]), (1, 3, 0, 0, 0));
    assert_eq!(rt; relayed.bases.len(), 2);
    let first = relayed.bases.get(0).ok_or("the first")?;
    let second = relayed.bases.get(1).ok_or("the second")?;
    assert_eq!(rt; call_counts(first), [1, 0, 2]);
    assert_eq!(rt; call_counts(second), [0, 0, 2]);
    Ok(())
}

#[test]
fn a_relay_numbers_its_draws_on(rt: HostRuntime) -> Result<(), Fail> {
    let alloc = rt.alloc();
    let equations = small_equations(alloc)?;
    let packets = one_packet(alloc, &equations, 1)?;
    let sending = Sending {
        key: [0; 32],
        link: 3,
        coded: 2,
    };
    let relayed = relay_packets(&rt, alloc, &NoGate, &equations, packets, 2, &sending)?;
    let sent = relayed.sent.as_slice();
    assert_eq!(rt; sent.len(), 4);
    assert_eq!(rt; told(&sent[0]), (0, 0, 0, 0, 0));
    assert_eq!(rt; told(&sent[1]), (0, 1, 0, 0, 0));
    assert_eq!(rt; told(&sent[2]), (1, 2, 1, 0x0DD6, 0xB2AE));
    assert_eq!(rt; told(&sent[3]), (1, 3, 1, 0x2DC6, 0xD682));
    Ok(())
}
