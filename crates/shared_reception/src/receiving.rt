//! A stream's packets received by threads, and the bases closed.
ghost use Rattle.std.specs.Prelude.{◌≡◌, ◌<◌, ◌≤◌, ◌^◌, ℕ, length, slice_index_or, IfOk};
ghost use Rattle.std.specs.List.{All};
ghost use Rattle.linear_spec.specs.Passing.{AreEquations, IsTestable};
ghost use Rattle.shared_basis.specs.declared.params.Closed.{Closed as closed_type};
ghost use Rattle.shared_reception.specs.Received.{IsReceivedBy};

use crate::closing::close_bases;
use crate::dealing::{deal, longest_inbox};
use crate::making::make_bases;
use gf16::Memory;
use linear_spec::{Equations, List, Packet};
use receive_pass::{Gate, receive_all};
use shared_basis::Closed;
use std::alloc::Global;
use std::thread::Threads;

/// Deals packets to receivers in turn, whatever their generations, and lets each receiver take its own in order, in a thread of
/// its own where threads can be made: on the generations' bases, which the receivers share. The bases are closed at the end, in
/// the order of the generations. There are 1 to 16 receivers. The one error is want of memory.
pub fn receive_packets<R: Threads + Sync, G: Gate>(
    rt: &R,
    alloc: Global,
    gate: &G,
    equations: &Equations,
    packets: List<Packet>,
    receivers: u32,
) -> Result<List<Closed>, Memory>
    requires equations { AreEquations equations.now }
    requires blocks { (1 ≤ equations.now.k) × (equations.now.k ≤ 64) }
    requires testable { All (IsTestable equations.now) packets.items }
    requires few { length packets.items < 2 ^ 32 }
    requires receivers { (1 ≤ receivers) × (receivers ≤ 16) }
    ensures count { IfOk result (λ list. length list.items ≡ equations.now.generations) }
    ensures each { IfOk result (λ list. (generation : ℕ) (other : closed_type) → generation < equations.now.generations
        → IsReceivedBy equations.now receivers generation packets.items (slice_index_or list.items generation other)) }
{
    basis_core::laws::histories();
    let mut workers = deal(alloc, packets, receivers, receivers)?;
    let room = longest_inbox(workers.as_slice());
    let bases = make_bases(alloc, equations, workers.as_mut_slice(), room)?;
    receive_all(rt, gate, &bases, equations, &mut workers);
    close_bases(alloc, bases, workers)
}
