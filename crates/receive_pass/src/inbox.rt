//! Whole inboxes.
ghost use Rattle.std.specs.Prelude.{◌≡◌, ◌<◌, ◌^◌, ℕ, [], ◌∷◌, length, slice_index_or};
ghost use Rattle.std.specs.List.{All};
ghost use Rattle.receive_pass.specs.declared.worker.Worker.{Worker as worker_type};
ghost use Rattle.receive_pass.specs.Workers.{AreBases, HasReceived, HaveOffered, HavePasses, IsReady, IsReceivable};

use crate::receiving::receive;
use crate::{Gate, TaggedPacket, Worker};
use linear_spec::{Equations, List};
use shared_basis::{Pass, SharedBasis};
use std::thread;
use std::thread::Threads;

/// Receives the inbox in order, each packet on its generation's basis with the worker's pass of that generation, and passes the
/// gate before and after each.
pub fn receive_inbox<G: Gate>(
    gate: &G,
    bases: &List<SharedBasis>,
    equations: &Equations,
    worker: &mut Worker,
)
    requires { IsReady equations.now bases.now.items worker.old }
    ensures { HasReceived worker.old worker.new }
{
    has_room(bases, equations, worker);
    let caller = worker.caller;
    let inbox = worker.inbox.as_slice();
    let passes = &mut worker.passes;
    for (place, tagged) in inbox.iter().enumerate() {
        gate.before(caller, place as u32);
        receive_one(bases, equations, passes, tagged);
        gate.after(caller, place as u32);
    }
}

/// A law: an inbox for which each pass has room has fewer than 2^32 packets.
fn has_room(bases: &List<SharedBasis>, equations: &Equations, worker: &Worker)
    requires { IsReady equations.now bases.now.items worker.now }
    ensures { length worker.now.inbox.items < 2 ^ 32 }
{
    let _ = bases;
    let _ = equations;
    if let Some(first) = worker.inbox.as_slice().first() {
        worker.passes.as_slice()[usize::from(first.packet.generation)].has_seen();
    }
}

/// Receives one packet on its generation's basis.
fn receive_one(
    bases: &List<SharedBasis>,
    equations: &Equations,
    passes: &mut List<Pass>,
    tagged: &TaggedPacket,
)
    requires bases { AreBases equations.now bases.now.items }
    requires passes { HavePasses bases.now.items 1 passes.old.items }
    requires packet { IsReceivable equations.now bases.now.items tagged.now }
    ensures { HaveOffered (tagged.now ∷ []) passes.old.items passes.new.items }
{
    let generation = usize::from(tagged.packet.generation);
    let basis = &bases.as_slice()[generation];
    let pass = &mut passes.as_mut_slice()[generation];
    basis.is_basis();
    receive(basis, pass, equations, tagged.tag, &tagged.packet);
}

/// Receives the inboxes of all workers, each worker in a thread of its own where threads can be made.
pub fn receive_all<R: Threads + Sync, G: Gate>(
    rt: &R,
    gate: &G,
    bases: &List<SharedBasis>,
    equations: &Equations,
    workers: &mut List<Worker>,
)
    requires { All (IsReady equations.now bases.now.items) workers.old.items }
    ensures count { length workers.new.items ≡ length workers.old.items }
    ensures each { (at : ℕ) (other : worker_type) → at < length workers.old.items
        → HasReceived (slice_index_or workers.old.items at other) (slice_index_or workers.new.items at other) }
{
    let threads = workers.len().max(1);
    thread::for_each_mut(
        rt,
        workers.as_mut_slice(),
        threads,
        &|_: usize, worker: &mut Worker|
            requires { IsReady equations.now bases.now.items worker.now }
            ensures { HasReceived worker.entry.now worker.exit.now }
        { receive_inbox(gate, bases, equations, worker) },
    );
}
