//! The generations' bases, and their passes into the hands of workers.
ghost use Rattle.std.specs.Prelude.{◌≡◌, ◌<◌, ◌≤◌, ℕ, [], length, slice_index_or, IfOk, OnOk};
ghost use Rattle.linear_spec.specs.Passing.{AreEquations};
ghost use Rattle.receive_pass.specs.declared.worker.Worker.{Worker as worker_type};
ghost use Rattle.shared_reception.specs.Steps.{HaveBases, HaveGained};

use gf16::Memory;
use linear_spec::{Equations, List};
use receive_pass::Worker;
use shared_basis::{Created, Params, Pass, SharedBasis};
use std::alloc::Global;

/// A basis for each generation. Each worker gets the passes of its number, each with this room.
pub(crate) fn make_bases(
    alloc: Global,
    equations: &Equations,
    workers: &mut [Worker],
    room: u32,
) -> Result<List<SharedBasis>, Memory>
    requires equations { AreEquations equations.now }
    requires blocks { (1 ≤ equations.now.k) × (equations.now.k ≤ 64) }
    requires workers { (1 ≤ length workers.old) × (length workers.old ≤ 16) }
    requires no_passes { (number : ℕ) (other : worker_type) → number < length workers.old → (slice_index_or workers.old number other).passes.items ≡ [] }
    ensures count { IfOk result (λ bases. length bases.items ≡ equations.now.generations) }
    ensures bases { IfOk result (λ bases. HaveBases equations.now room bases.items workers.old workers.new) }
{
    let receivers = workers.len() as u32;
    let mut bases = List::new(alloc);
    for generation in 0..equations.generations {
        let params = Params {
            peer: 0,
            generation,
            k: equations.k,
            s: equations.s,
        };
        let Created { basis, passes } = SharedBasis::create(
            alloc, &params, equations, receivers, room,
        )?;
        hand_out(passes, workers)?;
        bases.push(basis)?;
    }
    Ok(bases)
}

/// Gives each worker the pass at its place.
fn hand_out(mut passes: List<Pass>, workers: &mut [Worker]) -> Result<(), Memory>
    requires { length passes.items ≡ length workers.old }
    ensures { OnOk result (HaveGained passes.items workers.old workers.new) }
{
    passes.as_mut_slice().reverse();
    for worker in workers.iter_mut() {
        worker.passes.push(passes.pop().unwrap())?;
    }
    Ok(())
}
