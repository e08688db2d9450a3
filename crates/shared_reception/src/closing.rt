//! The generations' bases closed, with the passes that workers had.
ghost use Rattle.std.specs.Prelude.{◌≡◌, ◌<◌, ◌≤◌, ℕ, length, slice_index_or, IfOk};
ghost use Rattle.shared_basis.specs.Close.{AreAllPasses, IsCloseOf};
ghost use Rattle.shared_basis.specs.declared.params.Closed.{Closed as closed_type};
ghost use Rattle.receive_pass.specs.declared.worker.Worker.{Worker as worker_type};
ghost use Rattle.shared_reception.specs.Steps.{HaveAllPasses, HaveGained, IsClosedOf};

use gf16::Memory;
use linear_spec::List;
use receive_pass::Worker;
use shared_basis::{Closed, Pass, SharedBasis};
use std::alloc::Global;

/// Closes each basis with the workers' passes, in the order of the bases.
pub(crate) fn close_bases(
    alloc: Global,
    mut bases: List<SharedBasis>,
    mut workers: List<Worker>,
) -> Result<List<Closed>, Memory>
    requires { HaveAllPasses bases.items workers.items }
    ensures count { IfOk result (λ list. length list.items ≡ length bases.items) }
    ensures each { IfOk result (λ list. (generation : ℕ) (other : closed_type) → generation < length bases.items
        → IsClosedOf bases.items workers.items generation (slice_index_or list.items generation other)) }
{
    let mut list = List::new(alloc);
    while let Some(basis) = bases.pop() {
        let passes = take_passes(alloc, workers.as_mut_slice())?;
        list.push(close(alloc, basis, passes)?)?;
    }
    list.as_mut_slice().reverse();
    Ok(list)
}

/// Takes each worker's last pass.
pub(crate) fn take_passes(alloc: Global, workers: &mut [Worker]) -> Result<List<Pass>, Memory>
    requires { (number : ℕ) (other : worker_type) → number < length workers.old → 1 ≤ length (slice_index_or workers.old number other).passes.items }
    ensures { IfOk result (λ passes. HaveGained passes.items workers.new workers.old) }
{
    let mut passes = List::new(alloc);
    for worker in workers.iter_mut() {
        passes.push(worker.passes.pop().unwrap())?;
    }
    Ok(passes)
}

/// Closes a basis, or lets it go where memory is wanting.
pub(crate) fn close(alloc: Global, basis: SharedBasis, passes: List<Pass>) -> Result<Closed, Memory>
    requires { AreAllPasses basis passes.items }
    ensures { IfOk result (IsCloseOf basis passes.items) }
{
    let Ok(closed) = basis.close(alloc, passes) else {
        return Err(Memory);
    };
    Ok(closed)
}
