//! Packets dealt to receivers, and what each basis keeps.
ghost use Rattle.std.specs.Prelude.{◌≡◌, ◌<◌, ◌≤◌, ◌^◌, length, IfOk};
ghost use Rattle.std.specs.List.{All};
ghost use Rattle.linear_spec.specs.Passing.{AreEquations, IsTestable};

use super::*;
use gf16::Memory;
use linear_spec::{Equations, List, Packet, SymVec};
use receive_pass::NoGate;
use shared_basis::Closed;
use std::alloc::Global;
use std::test::Fail;
use std::thread::Threads;

/// Equations with no checks, for packets of two coefficients and one symbol.
fn no_checks(alloc: Global, generations: u16) -> Result<Equations, Memory>
    ensures equations { IfOk result AreEquations }
    ensures shape { IfOk result (λ e. (e.k ≡ 2) × (e.s ≡ 1) × (e.generations ≡ generations)) }
{
    Ok(Equations {
        checks: 0,
        k: 2,
        s: 1,
        generations,
        weights: SymVec::zeros(alloc, 0)?,
        sums: SymVec::zeros(alloc, 0)?,
    })
}

fn make_packet(
    alloc: Global,
    equations: &Equations,
    row: &(u16, [u16; 2], u16),
) -> Result<Packet, Fail>
    requires equations { AreEquations equations.now }
    requires shape { (equations.now.k ≡ 2) × (equations.now.s ≡ 1) }
    ensures { IfOk result (IsTestable equations.now) }
{
    let (generation, coeffs, symbol) = row;
    if *generation >= equations.generations {
        return Err("a generation too high")?;
    }
    let packet = Packet {
        generation: *generation,
        coeffs: SymVec::from_slice(alloc, coeffs)?,
        payload: SymVec::from_slice(alloc, &[*symbol])?,
    };
    linear_spec::laws::packet_fits(&packet);
    Ok(packet)
}

/// Packets by generation, coefficients and symbol.
fn make_packets(
    alloc: Global,
    equations: &Equations,
    rows: &[(u16, [u16; 2], u16)],
) -> Result<List<Packet>, Fail>
    requires equations { AreEquations equations.now }
    requires shape { (equations.now.k ≡ 2) × (equations.now.s ≡ 1) }
    ensures { IfOk result (λ packets. All (IsTestable equations.now) packets.items) }
{
    let mut packets = List::new(alloc);
    for row in rows {
        packets.push(make_packet(alloc, equations, row)?)?;
    }
    Ok(packets)
}

fn received<R: Threads + Sync>(
    rt: &R,
    alloc: Global,
    generations: u16,
    receivers: u32,
    rows: &[(u16, [u16; 2], u16)],
) -> Result<List<Closed>, Fail>
    requires { (1 ≤ receivers) × (receivers ≤ 16) }
{
    let equations = no_checks(alloc, generations)?;
    let packets = make_packets(alloc, &equations, rows)?;
    if packets.len() > 100 {
        return Err("too many packets")?;
    }
    Ok(receive_packets(rt, alloc, &NoGate, &equations, packets, receivers)?)
}

/// Whether the callers have so many calls, in order.
fn has_counts(closed: &Closed, counts: &[usize]) -> bool {
    let callers = closed.callers.as_slice();
    callers.len() == counts.len()
        && callers
            .iter()
            .zip(counts)
            .all(|(caller, count)| caller.calls.len() == *count)
}

#[test]
fn two_receivers_share_a_basis(rt: HostRuntime) -> Result<(), Fail> {
    let rows = [(0, [1, 1], 0x0262), (0, [1, 2], 0xA762)];
    let list = received(&rt, rt.alloc(), 1, 2, &rows)?;
    assert_eq!(rt; list.len(), 1);
    let closed = list.get(0).ok_or("a closed basis")?;
    assert_eq!(rt; closed.records.len(), 2);
    assert!(rt; has_counts(closed, &[1, 1]));
    Ok(())
}

#[test]
fn packets_go_by_turns_and_generations(rt: HostRuntime) -> Result<(), Fail> {
    let rows = [
        (0, [1, 0], 5),
        (1, [0, 1], 6),
        (0, [1, 1], 7),
        (1, [1, 1], 8),
        (1, [2, 1], 9),
        (0, [0, 1], 10),
        (1, [1, 3], 11),
    ];
    let list = received(&rt, rt.alloc(), 2, 3, &rows)?;
    assert_eq!(rt; list.len(), 2);
    assert!(rt; has_counts(list.get(0).ok_or("the first")?, &[1, 0, 2]));
    assert!(rt; has_counts(list.get(1).ok_or("the second")?, &[2, 2, 0]));
    Ok(())
}

#[test]
fn no_packets_leave_empty_bases(rt: HostRuntime) -> Result<(), Fail> {
    let list = received(&rt, rt.alloc(), 2, 2, &[])?;
    assert_eq!(rt; list.len(), 2);
    for closed in list.as_slice() {
        assert_eq!(rt; closed.records.len(), 0);
        assert!(rt; has_counts(closed, &[0, 0]));
    }
    Ok(())
}
