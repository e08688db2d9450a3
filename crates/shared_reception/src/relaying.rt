//! A stream's packets received by threads, and packets drawn for a relay.
ghost use Rattle.std.specs.Prelude.{◌≡◌, ◌<◌, ◌≤◌, ◌^◌, ℕ, length, slice_index_or, IfOk};
ghost use Rattle.std.specs.List.{All};
ghost use Rattle.linear_spec.specs.Packet.{Fits};
ghost use Rattle.linear_spec.specs.Passing.{AreEquations, IsTestable};
ghost use Rattle.shared_basis.specs.declared.params.Closed.{Closed as closed_type};
ghost use Rattle.shared_reception.specs.Relayed.{IsRelayedBy, sent_of_all};

use crate::dealing::{deal, longest_inbox};
use crate::making::make_bases;
use crate::relays::relay_bases;
use crate::sends::{Relayed, Sending};
use gf16::Memory;
use linear_spec::{Equations, List, Packet};
use receive_pass::{Gate, receive_all};
use std::alloc::Global;
use std::thread::Threads;

/// Receives packets as `receive_packets` does, with a caller more, the sender, numbered after the receivers. Once all receivers
/// are done, the sender meets each of them on each generation's basis, and then draws from it as often as is to be sent: so
/// each draw is over all the records. The draws are numbered on over all generations. There are 1 to 15 receivers. The one error
/// is want of memory.
pub fn relay_packets<R: Threads + Sync, G: Gate>(
    rt: &R,
    alloc: Global,
    gate: &G,
    equations: &Equations,
    packets: List<Packet>,
    receivers: u32,
    sending: &Sending,
) -> Result<Relayed, Memory>
    requires equations { AreEquations equations.now }
    requires blocks { (1 ≤ equations.now.k) × (equations.now.k ≤ 64) }
    requires testable { All (IsTestable equations.now) packets.items }
    requires few { length packets.items < 2 ^ 32 }
    requires receivers { (1 ≤ receivers) × (receivers ≤ 15) }
    requires sending { (sending.now.link ≤ 65535) × (sending.now.coded ≤ 1024) }
    ensures count { IfOk result (λ r. length r.bases.items ≡ equations.now.generations) }
    ensures each { IfOk result (λ r. (generation : ℕ) (other : closed_type) → generation < equations.now.generations
        → IsRelayedBy equations.now receivers generation packets.items sending.now (slice_index_or r.bases.items generation other)) }
    ensures sent { IfOk result (λ r. r.sent.items ≡ sent_of_all equations.now.k equations.now.s sending.now r.bases.items) }
    ensures fits { IfOk result (λ r. All (λ draw. Fits equations.now.k equations.now.s draw.packet) r.sent.items) }
{
    basis_core::laws::histories();
    recode::laws::spans();
    let mut workers = deal(alloc, packets, receivers, receivers + 1)?;
    let room = longest_inbox(workers.as_slice()).max(sending.coded);
    let bases = make_bases(alloc, equations, workers.as_mut_slice(), room)?;
    receive_all(rt, gate, &bases, equations, &mut workers);
    relay_bases(alloc, equations, bases, workers, sending)
}
