//! The generations' bases closed, once the sender has drawn from them.
ghost use Rattle.std.specs.Prelude.{◌≡◌, ◌<◌, ◌≤◌, ◌+◌, ◌++◌, ℕ, length, reverse, slice_index_or, IfOk, OnOk};
ghost use Rattle.shared_basis.specs.declared.params.Closed.{Closed as closed_type};
ghost use Rattle.shared_basis.specs.Close.{AreAllPasses};
ghost use Rattle.shared_reception.specs.Relayed.{sent_of, sent_of_all};
ghost use Rattle.shared_reception.specs.Relaying.{HasSender, HaveSender, IsRelayOf, IsRelayedOf};
ghost use Rattle.shared_reception.specs.Steps.{AreMadeWith, HaveAllPasses};

use crate::closing::{close, take_passes};
use crate::drawing::{draw_all, meet_receivers};
use crate::sends::{Relayed, Sending, SentDraw};
use gf16::Memory;
use linear_spec::{Equations, List};
use receive_pass::Worker;
use shared_basis::{Closed, Pass, SharedBasis};
use std::alloc::Global;

/// Lets the last worker, the sender, meet the others on each basis and then draw, and closes the basis.
pub(crate) fn relay_bases(
    alloc: Global,
    equations: &Equations,
    mut bases: List<SharedBasis>,
    mut workers: List<Worker>,
    sending: &Sending,
) -> Result<Relayed, Memory>
    requires made { AreMadeWith equations.now (length workers.items) bases.items }
    requires passes { HaveAllPasses bases.items workers.items }
    requires sender { HaveSender sending.now.coded workers.items }
    requires sending { (sending.now.link ≤ 65535) × (sending.now.coded ≤ 1024) }
    ensures count { IfOk result (λ r. length r.bases.items ≡ length bases.items) }
    ensures each { IfOk result (λ r. (generation : ℕ) (other : closed_type) → generation < length bases.items
        → IsRelayedOf sending.now bases.items workers.items generation (slice_index_or r.bases.items generation other)) }
    ensures sent { IfOk result (λ r. r.sent.items ≡ sent_of_all equations.now.k equations.now.s sending.now r.bases.items) }
{
    let _ = equations;
    let mut list = List::new(alloc);
    let mut sent = List::new(alloc);
    while let Some(basis) = bases.pop() {
        let passes = take_passes(alloc, workers.as_mut_slice())?;
        let (closed, draws) = relay_basis(alloc, basis, passes, sending)?;
        pour(draws, &mut sent)?;
        list.push(closed)?;
    }
    list.as_mut_slice().reverse();
    sent.as_mut_slice().reverse();
    Ok(Relayed { bases: list, sent })
}

/// Lets the last pass meet the others and then draw, and closes the basis.
fn relay_basis(
    alloc: Global,
    basis: SharedBasis,
    mut passes: List<Pass>,
    sending: &Sending,
) -> Result<(Closed, List<SentDraw>), Memory>
    requires passes { AreAllPasses basis passes.items }
    requires sender { HasSender sending.now.coded passes.items }
    requires sending { (sending.now.link ≤ 65535) × (sending.now.coded ≤ 1024) }
    ensures closed { IfOk result (λ relayed. IsRelayOf sending.now basis passes.items relayed.0) }
    ensures draws { IfOk result (λ relayed. let p = basis.parameters in
        relayed.1.items ≡ sent_of p.k p.s sending.now p.generation relayed.0.records.items) }
{
    basis_core::laws::records();
    basis_core::laws::callers();
    basis_core::laws::calls();
    linear_spec::laws::spans();
    basis.is_basis();
    let mut sender = passes.pop().unwrap();
    meet_receivers(&basis, passes.as_mut_slice(), &mut sender);
    let draws = draw_all(alloc, &basis, &mut sender, sending)?;
    passes.push(sender)?;
    let closed = close(alloc, basis, passes)?;
    Ok((closed, draws))
}

/// Appends the draws, the last one first.
fn pour(mut draws: List<SentDraw>, sent: &mut List<SentDraw>) -> Result<(), Memory>
    ensures { OnOk result (sent.new.items ≡ sent.old.items ++ reverse draws.items) }
{
    while let Some(draw) = draws.pop() {
        sent.push(draw)?;
    }
    Ok(())
}
