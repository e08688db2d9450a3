//! The sender of one basis: it meets the receivers, and draws.
ghost use Rattle.std.specs.Prelude.{◌≡◌, ◌≤◌, ◌<◌, [], IfOk};
ghost use Rattle.std.specs.List.{All};
ghost use Rattle.linear_spec.specs.Packet.{zeros_of};
ghost use Rattle.linear_spec.specs.SequentialBasis.{packets_of};
ghost use Rattle.basis_core.specs.Calls.{IsDrawnAt, KeptDraw};
ghost use Rattle.recode.specs.Draws.{drawn_packet, left_by, tag_of_draw};
ghost use Rattle.shared_basis.specs.Passes.{HasCalled, HasNotCalled, IsPassOf, SeesOn};
ghost use Rattle.shared_reception.specs.Relaying.{HasDrawn, HaveMet};

use crate::sends::{Sending, SentDraw};
use gf16::Memory;
use linear_spec::{List, Packet};
use recode::draw;
use shared_basis::{Pass, SharedBasis};
use std::alloc::Global;

/// Lets the sender meet each receiver: it has then seen whatever any of them has.
pub(crate) fn meet_receivers(basis: &SharedBasis, receivers: &mut [Pass], sender: &mut Pass)
    requires receivers { All (IsPassOf basis.now) receivers.old }
    requires sender { IsPassOf basis.now sender.old }
    ensures receivers { HaveMet receivers.old receivers.new sender.new }
    ensures sees { SeesOn sender.old sender.new }
    ensures quiet { HasNotCalled sender.old sender.new }
{
    for receiver in receivers.iter_mut() {
        basis.meet(sender, receiver);
        receiver.is_legal();
    }
}

/// Draws as often as is to be sent of the basis's generation.
pub(crate) fn draw_all(
    alloc: Global,
    basis: &SharedBasis,
    sender: &mut Pass,
    sending: &Sending,
) -> Result<List<SentDraw>, Memory>
    requires pass { IsPassOf basis.now sender.old }
    requires calls { sender.old.calls ≡ [] }
    requires room { sending.now.coded ≤ sender.old.spare }
    requires sending { (sending.now.link ≤ 65535) × (sending.now.coded ≤ 1024) }
    ensures { IfOk result (λ sent. let p = basis.now.parameters in HasDrawn p.k p.s sending.now p.generation sender.old sender.new sent.items) }
{
    let mut sent = List::new(alloc);
    let params = basis.params();
    let first = u32::from(params.generation) * sending.coded;
    for place in 0..sending.coded {
        sent.push(draw_one(alloc, basis, sender, sending, first + place)?)?;
    }
    Ok(sent)
}

/// The draw with this number.
fn draw_one(
    alloc: Global,
    basis: &SharedBasis,
    sender: &mut Pass,
    sending: &Sending,
    q: u32,
) -> Result<SentDraw, Memory>
    requires pass { IsPassOf basis.now sender.old }
    requires room { 0 < sender.old.spare }
    requires link { sending.now.link ≤ 65535 }
    ensures sees { IfOk result (λ sent. SeesOn sender.old sender.new) }
    ensures drawn { IfOk result (λ sent. IsDrawnAt (packets_of sender.new.seen) sent.drawn) }
    ensures call { IfOk result (λ sent. HasCalled sender.old sender.new (KeptDraw (tag_of_draw sending.now.link q) sent.drawn)) }
    ensures generation { IfOk result (λ sent. sent.generation ≡ basis.now.parameters.generation) }
    ensures number { IfOk result (λ sent. sent.q ≡ q) }
    ensures packet { let p = basis.now.parameters in IfOk result (λ sent. sent.packet
        ≡ left_by sent.drawn (drawn_packet p.k p.s p.generation sending.now.key sending.now.link q (packets_of sender.new.seen)) (zeros_of p.k p.s p.generation)) }
{
    let params = basis.params();
    let k = usize::from(params.k);
    let s = usize::from(params.s);
    let mut packet = Packet::zeros(alloc, k, s, params.generation)?;
    linear_spec::laws::packet_fits(&packet);
    let drawn = draw(basis, sender, &sending.key, sending.link, q, &mut packet);
    let generation = params.generation;
    Ok(SentDraw {
        generation,
        q,
        drawn,
        packet,
    })
}
