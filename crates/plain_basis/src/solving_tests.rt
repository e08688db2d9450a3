//! Tests of solving, and packets for tests.
ghost use Rattle.std.specs.Prelude.{◌≡◌, ◌<◌, length, IfOk};
ghost use Rattle.std.specs.List.{All};
ghost use Rattle.linear_spec.specs.Packet.{Fits};

use super::*;
use gf16::Memory;
use linear_spec::{List, Packet, SymVec, combine};
use std::alloc::Global;
use std::test::Fail;

const BLOCKS: u16 = 64;

const SYMBOLS: u16 = 512;

pub fn packet(alloc: Global, coeffs: &[u16], payload: &[u16]) -> Result<Packet, Memory>
    ensures { IfOk result (λ packet. Fits (length coeffs.now) (length payload.now) packet) }
{
    let packet = Packet::from_slices(alloc, 0, coeffs, payload)?;
    linear_spec::laws::packet_fits(&packet);
    Ok(packet)
}

/// Writes symbols of a linear congruential generator.
fn randomize(symbols: &mut [u16], state: &mut u32) {
    for symbol in symbols.iter_mut() {
        *state = state.wrapping_mul(1_664_525).wrapping_add(1_013_904_223);
        *symbol = (*state >> 16) as u16;
    }
}

fn random_symbols(alloc: Global, len: u16, state: &mut u32) -> Result<SymVec, Memory>
    ensures { IfOk result (λ symbols. length symbols ≡ len) }
{
    let mut symbols = SymVec::zeros(alloc, len as usize)?;
    randomize(symbols.as_mut_slice(), state);
    Ok(symbols)
}

/// A packet of one block alone.
fn unit_packet(alloc: Global, block: u16, state: &mut u32) -> Result<Packet, Memory>
    requires { block < 64 }
    ensures { IfOk result (λ packet. Fits 64 512 packet) }
{
    let mut unit = SymVec::zeros(alloc, BLOCKS as usize)?;
    unit.as_mut_slice()[block as usize] = 1;
    let payload = random_symbols(alloc, SYMBOLS, state)?;
    packet(alloc, unit.as_slice(), payload.as_slice())
}

fn source_of(alloc: Global, state: &mut u32) -> Result<List<Packet>, Memory>
    ensures count { IfOk result (λ source. length source.items ≡ 64) }
    ensures fit { IfOk result (λ source. All (Fits 64 512) source.items) }
{
    let mut source = List::new(alloc);
    for block in 0..BLOCKS {
        let packet = unit_packet(alloc, block, state)?;
        source.push(packet)?;
    }
    Ok(source)
}

/// A combination of the source with coefficients from the generator.
fn dense_packet(alloc: Global, source: &List<Packet>, state: &mut u32) -> Result<Packet, Memory>
    requires count { length source.now.items ≡ 64 }
    requires fit { All (Fits 64 512) source.now.items }
{
    let coeffs = random_symbols(alloc, BLOCKS, state)?;
    let mut dense = Packet::zeros(alloc, BLOCKS as usize, SYMBOLS as usize, 0)?;
    combine(coeffs.as_slice(), source, &mut dense);
    Ok(dense)
}

#[test]
fn two_packets_solve_to_their_blocks(rt: HostRuntime) -> Result<(), Fail> {
    let alloc = rt.alloc();
    let mut basis = PlainBasis::new(alloc, 2, 1);
    basis.offer(packet(alloc, &[1, 0], &[0x6162])?)?;
    basis.offer(packet(alloc, &[0, 1], &[0x6300])?)?;
    assert!(rt; basis.rank() == 2);
    let blocks = basis.solve()?;
    assert_eq!(rt; blocks.len(), 2);
    assert_eq!(rt;
        blocks.get(0).ok_or("a block")?.as_slice(),
        [0x6162].as_slice()
    );
    assert_eq!(rt;
        blocks.get(1).ok_or("a block")?.as_slice(),
        [0x6300].as_slice()
    );
    Ok(())
}

#[test]
fn dense_packets_solve_to_the_source(rt: HostRuntime) -> Result<(), Fail> {
    let alloc = rt.alloc();
    let mut state = 2026;
    let source = source_of(alloc, &mut state)?;
    let mut basis = PlainBasis::new(alloc, BLOCKS, SYMBOLS);
    for _packet in 0..BLOCKS {
        let dense = dense_packet(alloc, &source, &mut state)?;
        assert!(rt; dense.coeffs.len() == 64);
        assert!(rt; dense.payload.len() == 512);
        linear_spec::laws::packet_fits(&dense);
        basis.offer(dense)?;
    }
    assert!(rt; basis.rank() == BLOCKS);
    let blocks = basis.solve()?;
    assert_eq!(rt; blocks.len(), source.len());
    for (block, packet) in blocks.as_slice().iter().zip(source.as_slice()) {
        assert_eq!(rt; block.as_slice(), packet.payload.as_slice());
    }
    Ok(())
}
