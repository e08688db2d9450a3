//! Weights, sums and checks against values of another tool.
ghost use Rattle.std.specs.Prelude.{◌≡◌, ◌*◌, ◌<◌, ◌≤◌, IfOk, length};
ghost use Rattle.linear_spec.specs.Packet.{Fits};
ghost use Rattle.linear_spec.specs.Passing.{AreEquations};

use super::*;
use generation::Shape;
use gf16::{Gf, Memory};
use linear_spec::{Equations, Packet, SymVec};
use std::alloc::Global;
use std::process::Abort;
use std::test::Fail;

#[test]
fn keys_begin_with_their_numbers(rt: HostRuntime) {
    let key = number_key(0x0102_0304_0506_0708);
    let bytes = [
        1, 2, 3, 4, 5, 6, 7, 8, 0, 0, 0, 0, 0, 0, 0, 0, 0, 0, 0, 0, 0, 0, 0, 0, 0, 0, 0, 0, 0, 0,
        0, 0,
    ];
    assert_eq!(rt; key, bytes);
    let key = ticket_key(0x0102_0304_0506_0708, 0x1112_1314_1516_1718);
    let bytes = [
        1, 2, 3, 4, 5, 6, 7, 8, 17, 18, 19, 20, 21, 22, 23, 24, 0, 0, 0, 0, 0, 0, 0, 0, 0, 0, 0, 0,
        0, 0, 0, 0,
    ];
    assert_eq!(rt; key, bytes);
}

fn has_word(rt: &impl Abort, key: [u8; 32], check: u8, place: u16, word: u32)
    requires { check < 8 }
{
    let low = Gf((word % 0x1_0000) as u16);
    assert_eq!(rt;
        weight(&key, check, place),
        low,
        "of check {check}, place {place}"
    );
}

// The words are those of RFC 8439, appendix A.1, and of `openssl enc -chacha20` of OpenSSL 3.0.19, whose initial value was
// the number of the block of 16 words and then the stream, 8 bytes each, the low one first.
#[test]
fn weights_are_low_halves_of_words(rt: HostRuntime) {
    let zero = [0; 32];
    has_word(&rt, zero, 0, 0, 0xADE0_B876);
    has_word(&rt, zero, 0, 1, 0x903D_F1A0);
    has_word(&rt, zero, 0, 16, 0xBEE7_079F);
    has_word(&rt, zero, 7, 0, 0xBFCA_B1D8);
    has_word(&rt, zero, 7, 2047, 0x0BCE_33FC);
    has_word(&rt, ticket_key(1, 1), 7, 2047, 0x892E_B4A2);
    has_word(&rt, ticket_key(1, 1), 3, 65535, 0xAD26_BCED);
    let other = ticket_key(0x0102_0304_0506_0708, 0x1112_1314_1516_1718);
    has_word(&rt, other, 5, 1000, 0xC752_4F75);
}

#[test]
#[tactic(auto, unfolding(generation::specs::Shape::generations_of))]
fn a_ticket_of_one_check(rt: HostRuntime) -> Result<(), Fail> {
    let alloc = rt.alloc();
    let shape = Shape::new(4, 2, 2)?;
    let ticket = make_ticket(alloc, &shape, &[0x00, 0x01, 0x00, 0x02], [0; 32], 1)?;
    assert_eq!(rt; ticket.sums.as_slice(), [0xB876, 0x60E7].as_slice());
    let equations = make_equations(alloc, &shape, &ticket)?;
    assert_eq!(rt; equations.weights.as_slice(), [0xB876].as_slice());
    assert_eq!(rt; equations.sums.as_slice(), [0xB876, 0x60E7].as_slice());
    Ok(())
}

// The weights are the low halves of words of `openssl enc -chacha20`; the sums were reckoned from them by a python script
// over the field's definition.
#[test]
#[tactic(auto, unfolding(generation::specs::Shape::generations_of))]
fn sums_stand_by_generation_then_check(rt: HostRuntime) -> Result<(), Fail> {
    let alloc = rt.alloc();
    let shape = Shape::new(12, 2, 4)?;
    let file = [1, 2, 3, 4, 5, 6, 7, 8, 9, 10, 11, 12];
    let ticket = make_ticket(alloc, &shape, &file, ticket_key(1, 1), 2)?;
    let sums = [
        0xC421, 0x1D58, 0xA869, 0x7709, 0x9237, 0x0000, 0x6025, 0x0000,
    ];
    assert_eq!(rt; ticket.sums.as_slice(), sums.as_slice());
    let equations = make_equations(alloc, &shape, &ticket)?;
    assert_eq!(rt;
        equations.weights.as_slice(),
        [0x3B98, 0xD249, 0xED11, 0x536A].as_slice()
    );
    assert_eq!(rt; equations.sums.as_slice(), sums.as_slice());
    Ok(())
}

/// Equations of one block and one symbol.
fn small_equations(
    alloc: Global,
    checks: u8,
    generations: u16,
    weights: &[u16],
    sums: &[u16],
) -> Result<Equations, Memory>
    requires weights { length weights.now ≡ checks }
    requires sums { length sums.now ≡ generations * checks }
    ensures equations { IfOk result AreEquations }
    ensures k { IfOk result (λ equations. equations.k ≡ 1) }
    ensures s { IfOk result (λ equations. equations.s ≡ 1) }
    ensures generations { IfOk result (λ equations. equations.generations ≡ generations) }
{
    let weights = SymVec::from_slice(alloc, weights)?;
    let sums = SymVec::from_slice(alloc, sums)?;
    weights.is_vector();
    sums.is_vector();
    Ok(Equations {
        checks,
        k: 1,
        s: 1,
        generations,
        weights,
        sums,
    })
}

fn small_packet(alloc: Global, generation: u16, coeff: u16, symbol: u16) -> Result<Packet, Memory>
    ensures fits { IfOk result (Fits 1 1) }
    ensures generation { IfOk result (λ packet. packet.generation ≡ generation) }
{
    let packet = Packet {
        generation,
        coeffs: SymVec::from_slice(alloc, &[coeff])?,
        payload: SymVec::from_slice(alloc, &[symbol])?,
    };
    linear_spec::laws::packet_fits(&packet);
    Ok(packet)
}

#[test]
fn the_first_failing_check_is_told(rt: HostRuntime) -> Result<(), Fail> {
    let alloc = rt.alloc();
    let one = small_equations(alloc, 1, 1, &[0x0002], &[0x100B])?;
    let packet = small_packet(alloc, 0, 1, 0x8000)?;
    assert_eq!(rt; first_failed(&one, &packet), None);
    let packet = small_packet(alloc, 0, 1, 0x8001)?;
    assert_eq!(rt; first_failed(&one, &packet), Some(0));

    let two = small_equations(
        alloc,
        2,
        2,
        &[0x0001, 0x0002],
        &[0x0000, 0x0000, 0x8000, 0x100A],
    )?;
    let packet = small_packet(alloc, 1, 1, 0x8000)?;
    assert_eq!(rt; first_failed(&two, &packet), Some(1));
    let packet = small_packet(alloc, 0, 1, 0x8000)?;
    assert_eq!(rt; first_failed(&two, &packet), Some(0));
    Ok(())
}
