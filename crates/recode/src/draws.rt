//! Draws over the records of a shared basis.
ghost use Rattle.std.specs.Prelude.{◌≡◌, ◌<◌, ◌≤◌, length};
ghost use Rattle.linear_spec.specs.Combination.{combination_of};
ghost use Rattle.linear_spec.specs.Packet.{coefficients_of, payloads_of};
ghost use Rattle.linear_spec.specs.SequentialBasis.{packets_of};
ghost use Rattle.basis_core.specs.Calls.{IsDrawnAt, KeptDraw};
ghost use Rattle.shared_basis.specs.Desks.{HasLengths};
ghost use Rattle.shared_basis.specs.Passes.{HasCalled, HasKept, HasLooked, IsFor, IsPassOf, SeesOn};
ghost use Rattle.recode.specs.Draws.{drawn_packet, left_by, polluted_packet, tag_of_draw};

use crate::coefficients::draw_coefficients;
use crate::pollution::pollute;
use gf16::Gf;
use linear_spec::{Drawn, Packet};
use shared_basis::{Pass, SharedBasis};

/// Draws over the records that a look has then seen: `out`, a packet of the basis's K coefficients, S symbols and generation,
/// becomes the combination of their packets with the draw's coefficients. Where there are none, it stays as it is. The pass keeps
/// the draw, under the tag `link * 2^32 + q`; a link is at most 65,535. Takes no memory.
pub fn draw(
    basis: &SharedBasis,
    pass: &mut Pass,
    key: &[u8; 32],
    link: u32,
    q: u32,
    out: &mut Packet,
) -> Drawn
    requires pass { IsPassOf basis.now pass.old }
    requires room { 0 < pass.old.spare }
    requires out { IsFor basis.now.parameters out.old }
    requires link { link ≤ 65535 }
    ensures drawn { IsDrawnAt (packets_of pass.new.seen) result }
    ensures packet { let p = basis.now.parameters in
        out.new ≡ left_by result (drawn_packet p.k p.s p.generation key.now link q (packets_of pass.new.seen)) out.old }
    ensures prefix { SeesOn pass.old pass.new }
    ensures call { HasCalled pass.old pass.new (KeptDraw (tag_of_draw link q) result) }
    ensures looked { HasLooked pass.old pass.new }
{
    let tag = u64::from(link) * 0x1_0000_0000 + u64::from(q);
    let drawn = basis.draw_front(pass, tag);
    match drawn {
        Drawn::Sent { front } => {
            draw_records(basis, pass, key, link, q, front, out);
            drawn
        }
        Drawn::Nothing => drawn,
    }
}

/// Draws as `draw` does, and then changes the first symbol of the payload that was drawn as `pollute` does. At `Nothing` it changes
/// nothing.
pub fn draw_polluted(
    basis: &SharedBasis,
    pass: &mut Pass,
    key: &[u8; 32],
    link: u32,
    q: u32,
    out: &mut Packet,
) -> Drawn
    requires pass { IsPassOf basis.now pass.old }
    requires room { 0 < pass.old.spare }
    requires out { IsFor basis.now.parameters out.old }
    requires link { link ≤ 65535 }
    requires symbols { 1 ≤ basis.now.parameters.s }
    ensures drawn { IsDrawnAt (packets_of pass.new.seen) result }
    ensures packet { let p = basis.now.parameters in out.new
        ≡ left_by result (polluted_packet key.now link q (drawn_packet p.k p.s p.generation key.now link q (packets_of pass.new.seen))) out.old }
    ensures prefix { SeesOn pass.old pass.new }
    ensures call { HasCalled pass.old pass.new (KeptDraw (tag_of_draw link q) result) }
    ensures looked { HasLooked pass.old pass.new }
{
    let drawn = draw(basis, pass, key, link, q, out);
    match drawn {
        Drawn::Sent { front: _ } => {
            pollute(key, link, q, out);
            drawn
        }
        Drawn::Nothing => drawn,
    }
}

/// Writes into `out` what this draw makes of the records that were seen.
fn draw_records(
    basis: &SharedBasis,
    pass: &mut Pass,
    key: &[u8; 32],
    link: u32,
    q: u32,
    front: u16,
    out: &mut Packet,
)
    requires pass { IsPassOf basis.now pass.old }
    requires some { 0 < front }
    requires front { front ≡ length pass.old.seen }
    requires out { IsFor basis.now.parameters out.old }
    ensures pass { HasKept pass.old pass.new }
    ensures counts { (pass.new.empty_looks ≡ pass.old.empty_looks) × (pass.new.last_empty ≡ pass.old.last_empty) }
    ensures packet { let p = basis.now.parameters in
        out.new ≡ drawn_packet p.k p.s p.generation key.now link q (packets_of pass.old.seen) }
{
    basis.is_basis();
    pass.has_seen();
    let mut coefficients = [0; 64];
    let coefficients = &mut coefficients[..usize::from(front)];
    draw_coefficients(key, link, q, coefficients);
    combine_records(basis, pass, coefficients, front, out);
}

/// Writes the combination of the records' packets with these coefficients into `out`, whose generation stays.
fn combine_records(
    basis: &SharedBasis,
    pass: &mut Pass,
    coefficients: &[u16],
    front: u16,
    out: &mut Packet,
)
    requires pass { IsPassOf basis.now pass.old }
    requires front { front ≡ length pass.old.seen }
    requires count { length coefficients.now ≡ length pass.old.seen }
    requires lengths { HasLengths basis.now.parameters out.old }
    ensures pass { HasKept pass.old pass.new }
    ensures counts { (pass.new.empty_looks ≡ pass.old.empty_looks) × (pass.new.last_empty ≡ pass.old.last_empty) }
    ensures coeffs { out.new.coeffs ≡ combination_of basis.now.parameters.k coefficients.now (coefficients_of (packets_of pass.old.seen)) }
    ensures payload { out.new.payload ≡ combination_of basis.now.parameters.s coefficients.now (payloads_of (packets_of pass.old.seen)) }
    ensures generation { out.new.generation ≡ out.old.generation }
{
    linear_spec::laws::combinations();
    out.clear();
    for n in 0..front {
        basis.add_packet(pass, n, Gf(coefficients[usize::from(n)]), out);
    }
}
