//! Tests of draws over a basis and over a list, against words of RFC 8439 from outside.
ghost use Rattle.std.specs.Prelude.{◌≡◌, ◌≤◌, IfOk};
ghost use Rattle.linear_spec.specs.Packet.{Fits};
ghost use Rattle.shared_basis.specs.Passes.{IsNewPass};

use super::*;
use generation::Shape;
use gf16::{Gf, Memory};
use linear_spec::{Drawn, Equations, List, Packet};
use shared_basis::{Created, Params, Pass, SharedBasis};
use std::alloc::Global;
use std::test::Fail;

const ZERO_KEY: [u8; 32] = [0; 32];

/// A packet of one coefficient and one symbol.
fn small_packet(alloc: Global, coefficient: u16, symbol: u16) -> Result<Packet, Memory>
    ensures { IfOk result (λ packet. Fits 1 1 packet × (packet.generation ≡ 0)) }
{
    let packet = Packet::from_slices(alloc, 0, &[coefficient], &[symbol])?;
    linear_spec::laws::packet_fits(&packet);
    Ok(packet)
}

/// A packet of two coefficients and one symbol.
fn pair_packet(alloc: Global, coefficients: [u16; 2], symbol: u16) -> Result<Packet, Memory>
    ensures { IfOk result (λ packet. Fits 2 1 packet × (packet.generation ≡ 0)) }
{
    let packet = Packet::from_slices(alloc, 0, &coefficients, &[symbol])?;
    linear_spec::laws::packet_fits(&packet);
    Ok(packet)
}

/// Whether a packet has these symbols.
fn holds(packet: &Packet, coefficients: &[u16], symbol: u16) -> bool {
    packet.coeffs.as_slice() == coefficients && packet.payload.as_slice() == [symbol].as_slice()
}

/// A new basis for packets of `k` coefficients and one symbol, with no checks, and its pass.
fn small_basis(alloc: Global, k: u16, room: u32) -> Result<(SharedBasis, Pass), Memory>
    requires { (1 ≤ k) × (k ≤ 64) }
    ensures shape { IfOk result (λ made. (made.0.parameters.k ≡ k) × (made.0.parameters.s ≡ 1) × (made.0.parameters.generation ≡ 0)) }
    ensures checks { IfOk result (λ made. made.0.parameters.equations.value.checks ≡ 0) }
    ensures pass { IfOk result (λ made. IsNewPass made.0 0 room made.1) }
{
    let equations = Equations::without_checks(alloc, k, 1, 1)?;
    let params = Params {
        peer: 0,
        generation: 0,
        k,
        s: 1,
    };
    let Created { basis, mut passes } = SharedBasis::create(alloc, &params, &equations, 1, room)?;
    let pass = passes.pop().unwrap();
    Ok((basis, pass))
}

/// What a new basis draws into a packet.
fn drawn_from_nothing(alloc: Global, out: &mut Packet) -> Result<Drawn, Memory>
    requires { Fits 1 1 out.old × (out.old.generation ≡ 0) }
{
    let (basis, mut pass) = small_basis(alloc, 1, 1)?;
    Ok(draw(&basis, &mut pass, &ZERO_KEY, 0, 0, out))
}

/// What a basis draws with this packet as its one record, and what it draws polluted with the same key, link and number.
fn drawn_from_one(
    alloc: Global,
    only: &Packet,
    plain: &mut Packet,
    polluted: &mut Packet,
) -> Result<(Drawn, Drawn), Memory>
    requires only { Fits 1 1 only.now × (only.now.generation ≡ 0) }
    requires plain { Fits 1 1 plain.old × (plain.old.generation ≡ 0) }
    requires polluted { Fits 1 1 polluted.old × (polluted.old.generation ≡ 0) }
{
    let (basis, mut pass) = small_basis(alloc, 1, 3)?;
    basis.offer(&mut pass, 0, only);
    let drawn = draw(&basis, &mut pass, &ZERO_KEY, 0, 0, plain);
    let again = draw_polluted(&basis, &mut pass, &ZERO_KEY, 0, 0, polluted);
    Ok((drawn, again))
}

/// What a basis with these packets as its records draws as draw 5 of link 2.
fn drawn_from_two(
    alloc: Global,
    first: &Packet,
    second: &Packet,
    out: &mut Packet,
) -> Result<Drawn, Memory>
    requires first { Fits 2 1 first.now × (first.now.generation ≡ 0) }
    requires second { Fits 2 1 second.now × (second.now.generation ≡ 0) }
    requires out { Fits 2 1 out.old × (out.old.generation ≡ 0) }
{
    let (basis, mut pass) = small_basis(alloc, 2, 3)?;
    basis.offer(&mut pass, 0, first);
    basis.offer(&mut pass, 1, second);
    Ok(draw(&basis, &mut pass, &ZERO_KEY, 2, 5, out))
}

/// The sum of the symbols, each times its coefficient.
fn combined(coefficients: &[u16], symbols: &[u16]) -> u16 {
    let mut sum = Gf(0);
    for (coefficient, symbol) in coefficients.iter().zip(symbols) {
        sum = sum.add(Gf(*coefficient).mul(Gf(*symbol)));
    }
    sum.0
}

#[test]
fn coefficients_are_low_halves_and_not_all_zero(rt: HostRuntime) {
    let mut out = [0; 2];
    coefficients_of(&[0xADE0_B876, 0x903D_F1A0], &mut out);
    assert!(rt; out == [0xB876, 0xF1A0]);
    coefficients_of(&[0x0001_0000, 0], &mut out);
    assert!(rt; out == [0, 1]);
}

#[test]
fn an_empty_basis_draws_nothing(rt: HostRuntime) -> Result<(), Fail> {
    let mut out = small_packet(rt.alloc(), 7, 8)?;
    let drawn = drawn_from_nothing(rt.alloc(), &mut out)?;
    assert_eq!(rt; drawn, Drawn::Nothing);
    assert!(rt; holds(&out, &[7], 8));
    Ok(())
}

// The words of the tests below come from a Python script after the block function of RFC 8439, with the number of the block in
// the last row's 64 low bits and the stream in the 64 high ones; it gives the words of the standard's appendix A.1. With the key of
// zero bytes the word of stream 16 at place 0 is E55922C0, and at place 255 EADF2809; that of stream 65551 at place 256 (2^32 - 1)
// is 47891BD8; those of stream 17 at places 0 and 1 are 8D35F17F and B7F3F8BC; those of stream 18 at places 1280 and 1281 are
// 22E49A41 and 664A7469; and those of stream 19 from place 1792 on are the four that stand in its test. Products are from a script
// that divides polynomials.
#[test]
fn a_record_is_drawn_and_polluted(rt: HostRuntime) -> Result<(), Fail> {
    let alloc = rt.alloc();
    let only = small_packet(alloc, 1, 0x6162)?;
    let mut plain = small_packet(alloc, 7, 8)?;
    let mut polluted = small_packet(alloc, 9, 10)?;
    let drawn = drawn_from_one(alloc, &only, &mut plain, &mut polluted)?;
    assert_eq!(rt; drawn, (Drawn::Sent { front: 1 }, Drawn::Sent { front: 1 }));
    assert!(rt; holds(&plain, &[0x22C0], 0x79BA));
    assert!(rt; holds(&polluted, &[0x22C0], 0x51B3));
    Ok(())
}

#[test]
fn a_list_is_drawn(rt: HostRuntime) -> Result<(), Fail> {
    let alloc = rt.alloc();
    let mut packets = List::new(alloc);
    packets.push(pair_packet(alloc, [1, 0], 0x0001)?)?;
    packets.push(pair_packet(alloc, [0, 1], 0x8000)?)?;
    let mut out = pair_packet(alloc, [7, 8], 9)?;
    draw_plain(&ZERO_KEY, 1, 0, &packets, &mut out);
    assert!(rt; holds(&out, &[0xF17F, 0xF8BC], 0x9242));
    Ok(())
}

#[test]
fn the_last_draw_of_the_last_link(rt: HostRuntime) -> Result<(), Fail> {
    let alloc = rt.alloc();
    let mut packets = List::new(alloc);
    packets.push(small_packet(alloc, 1, 0)?)?;
    let mut out = small_packet(alloc, 0, 0)?;
    draw_plain(&ZERO_KEY, 65535, 0xFFFF_FFFF, &packets, &mut out);
    assert!(rt; holds(&out, &[0x1BD8], 0));
    Ok(())
}

#[test]
fn a_basis_and_a_list_give_the_same_draw(rt: HostRuntime) -> Result<(), Fail> {
    let alloc = rt.alloc();
    let first = pair_packet(alloc, [1, 0], 0x6162)?;
    let second = pair_packet(alloc, [0, 1], 0x6300)?;
    let mut shared = pair_packet(alloc, [7, 8], 9)?;
    let drawn = drawn_from_two(alloc, &first, &second, &mut shared)?;
    let mut packets = List::new(alloc);
    packets.push(first)?;
    packets.push(second)?;
    let mut plain = pair_packet(alloc, [10, 11], 12)?;
    draw_plain(&ZERO_KEY, 2, 5, &packets, &mut plain);
    assert_eq!(rt; drawn, Drawn::Sent { front: 2 });
    assert!(rt; holds(&shared, &[0x9A41, 0x7469], 0xAB5B));
    assert!(rt; holds(&plain, &[0x9A41, 0x7469], 0xAB5B));
    Ok(())
}

#[test]
fn a_longer_list_is_combined(rt: HostRuntime) -> Result<(), Fail> {
    let alloc = rt.alloc();
    let mut packets = List::new(alloc);
    packets.push(pair_packet(alloc, [1, 2], 3)?)?;
    packets.push(pair_packet(alloc, [4, 5], 6)?)?;
    packets.push(pair_packet(alloc, [0x8000, 7], 8)?)?;
    packets.push(pair_packet(alloc, [9, 0xFFFF], 10)?)?;
    let mut out = pair_packet(alloc, [0, 0], 0)?;
    draw_plain(&ZERO_KEY, 3, 7, &packets, &mut out);
    let mut coefficients = [0; 4];
    coefficients_of(
        &[0x9E3A_20CE, 0x6B51_BD65, 0xF7AE_1666, 0x966F_4774],
        &mut coefficients,
    );
    let first = combined(&coefficients, &[1, 4, 0x8000, 9]);
    let second = combined(&coefficients, &[2, 5, 7, 0xFFFF]);
    let symbol = combined(&coefficients, &[3, 6, 8, 10]);
    assert!(rt; holds(&out, &[first, second], symbol));
    assert!(rt; holds(&out, &[0x594B, 0xD22E], 0xF87F));
    Ok(())
}

#[test]
#[tactic(auto, unfolding(generation::specs::Shape::generations_of))]
fn the_blocks_of_abc_are_packets(rt: HostRuntime) -> Result<(), Fail> {
    let shape = Shape::new(3, 2, 2)?;
    let first = systematic(rt.alloc(), &shape, b"abc", 0, 0)?;
    let second = systematic(rt.alloc(), &shape, b"abc", 0, 1)?;
    assert!(rt; holds(&first, &[1, 0], 0x6162));
    assert!(rt; holds(&second, &[0, 1], 0x6300));
    Ok(())
}
