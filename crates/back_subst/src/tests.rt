//! Closed bases solved, and held against the plain solution.
ghost use Rattle.std.specs.Prelude.{◌≡◌, ◌<◌, ◌≤◌, ◌^◌, length, IfOk};
ghost use Rattle.std.specs.List.{All};
ghost use Rattle.linear_spec.specs.Packet.{Fits};
ghost use Rattle.linear_spec.specs.Passing.{AreEquations};
ghost use Rattle.linear_spec.specs.Rows.{StandForAll};
ghost use Rattle.linear_spec.specs.SequentialBasis.{packets_of};
ghost use Rattle.shared_basis.specs.Passes.{IsFor, IsPassOf};

use super::*;
use gf16::Memory;
use linear_spec::{Equations, List, Packet, SymVec};
use plain_basis::PlainBasis;
use shared_basis::{Closed, Created, Params, Pass, SharedBasis};
use std::alloc::Global;
use std::test::Fail;
use std::thread::Threads;

/// Equations with no checks, for one generation.
fn no_checks(alloc: Global, k: u16, s: u16) -> Result<Equations, Memory>
    ensures equations { IfOk result AreEquations }
    ensures shape { IfOk result (λ e. (e.k ≡ k) × (e.s ≡ s) × (e.generations ≡ 1) × (e.checks ≡ 0)) }
{
    Ok(Equations {
        checks: 0,
        k,
        s,
        generations: 1,
        weights: SymVec::zeros(alloc, 0)?,
        sums: SymVec::zeros(alloc, 0)?,
    })
}

fn packet(alloc: Global, coeffs: &[u16], payload: &[u16]) -> Result<Packet, Memory>
    ensures { IfOk result (λ packet. Fits (length coeffs.now) (length payload.now) packet × (packet.generation ≡ 0)) }
{
    let packet = Packet {
        generation: 0,
        coeffs: SymVec::from_slice(alloc, coeffs)?,
        payload: SymVec::from_slice(alloc, payload)?,
    };
    linear_spec::laws::packet_fits(&packet);
    Ok(packet)
}

/// Offers packets in order with one pass.
fn offer_all(basis: &SharedBasis, pass: &mut Pass, packets: &[Packet])
    requires checks { basis.now.parameters.equations.value.checks ≡ 0 }
    requires pass { IsPassOf basis.now pass.old × (length packets.now ≤ pass.old.spare) }
    requires packets { All (IsFor basis.now.parameters) packets.now }
    ensures { IsPassOf basis.now pass.new × (pass.new.number ≡ pass.old.number) }
{
    for packet in packets {
        basis.offer(pass, 0, packet);
    }
}

/// The closed basis of one pass that offered these packets.
fn closed_over(alloc: Global, k: u16, s: u16, packets: &[Packet]) -> Result<Closed, Memory>
    requires blocks { (1 ≤ k) × (k ≤ 64) }
    requires few { length packets.now < 2 ^ 32 }
    requires packets { All (λ packet. Fits k s packet × (packet.generation ≡ 0)) packets.now }
    ensures fit { IfOk result (λ closed. All (Fits k s) (packets_of closed.records.items)) }
    ensures rows { IfOk result (λ closed. StandForAll k s (packets_of closed.records.items) closed.rows.items) }
{
    let params = Params {
        peer: 0,
        generation: 0,
        k,
        s,
    };
    let equations = no_checks(alloc, k, s)?;
    let room = packets.len() as u32;
    let Created { basis, mut passes } = SharedBasis::create(alloc, &params, &equations, 1, room)?;
    offer_all(&basis, &mut passes.as_mut_slice()[0], packets);
    let Ok(closed) = basis.close(alloc, passes) else {
        return Err(Memory);
    };
    Ok(closed)
}

/// The blocks of a closed basis that is found to be full.
fn solved<R: Threads + Sync>(
    rt: &R,
    alloc: Global,
    k: u16,
    s: u16,
    closed: &Closed,
) -> Result<List<SymVec>, Fail>
    requires some { 0 < k }
    requires fit { All (Fits k s) (packets_of closed.now.records.items) }
    requires rows { StandForAll k s (packets_of closed.now.records.items) closed.now.rows.items }
{
    let _ = s;
    if closed.records.len() != usize::from(k) {
        return Err("a basis that is not full")?;
    }
    Ok(solve(rt, alloc, closed)?)
}

/// The blocks of a plain basis that is offered these packets, and found to be full.
fn plainly_solved(alloc: Global, k: u16, s: u16, packets: &[Packet]) -> Result<List<SymVec>, Fail>
    requires { All (λ packet. Fits k s packet × (packet.generation ≡ 0)) packets.now }
{
    let mut basis = PlainBasis::new(alloc, k, s);
    for packet in packets {
        basis.offer(packet.copy(alloc)?)?;
    }
    if basis.rank() != k {
        return Err("a basis that is not full")?;
    }
    Ok(basis.solve()?)
}

/// Whether each block is its symbol alone.
fn are_blocks(blocks: &List<SymVec>, symbols: &[u16], len: usize) -> bool {
    if blocks.len() != symbols.len() {
        return false;
    }
    for (block, symbol) in blocks.as_slice().iter().zip(symbols) {
        if block.len() != len || block.as_slice().iter().any(|own| own != symbol) {
            return false;
        }
    }
    true
}

#[test]
fn solves_two_packets(rt: HostRuntime) -> Result<(), Fail> {
    let alloc = rt.alloc();
    let packets = [
        packet(alloc, &[1, 1], &[0x0262])?,
        packet(alloc, &[1, 2], &[0xA762])?,
    ];
    let closed = closed_over(alloc, 2, 1, &packets)?;
    let blocks = solved(&rt, alloc, 2, 1, &closed)?;
    assert!(rt; are_blocks(&blocks, &[0x6162, 0x6300], 1));
    let plain = plainly_solved(alloc, 2, 1, &packets)?;
    assert!(rt; are_blocks(&plain, &[0x6162, 0x6300], 1));
    Ok(())
}

#[test]
fn solves_three_packets_of_five_symbols(rt: HostRuntime) -> Result<(), Fail> {
    let alloc = rt.alloc();
    let packets = [
        packet(alloc, &[1, 0, 0], &[1; 5])?,
        packet(alloc, &[1, 1, 0], &[3; 5])?,
        packet(alloc, &[0, 1, 1], &[6; 5])?,
    ];
    let closed = closed_over(alloc, 3, 5, &packets)?;
    let blocks = solved(&rt, alloc, 3, 5, &closed)?;
    assert!(rt; are_blocks(&blocks, &[1, 2, 4], 5));
    let plain = plainly_solved(alloc, 3, 5, &packets)?;
    assert!(rt; are_blocks(&plain, &[1, 2, 4], 5));
    Ok(())
}
