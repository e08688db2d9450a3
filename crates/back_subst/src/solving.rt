//! The blocks of a closed basis.
ghost use Rattle.std.specs.Prelude.{◌<◌, length, IfOk};
ghost use Rattle.std.specs.List.{All};
ghost use Rattle.linear_spec.specs.Packet.{Fits};
ghost use Rattle.linear_spec.specs.Rows.{StandForAll};
ghost use Rattle.linear_spec.specs.SequentialBasis.{packets_of};
ghost use Rattle.linear_spec.specs.Solving.{Solves, IsOnlySolution};
ghost use Rattle.back_subst.specs.Shape.{payload_length};

use gf16::Memory;
use linear_spec::{List, SymVec};
use plain_basis::solve_rows;
use shared_basis::Closed;
use std::alloc::Global;
use std::thread::Threads;

/// The K blocks that solve every record of a closed basis with K records, of K coefficients each: there are no others, so they
/// do not depend on how many threads there are. So far one thread does the work.
pub fn solve<R: Threads + Sync>(
    rt: &R,
    alloc: Global,
    closed: &Closed,
) -> Result<List<SymVec>, Memory>
    requires some { 0 < length closed.now.records.items }
    requires fit { All (Fits (length closed.now.records.items) (payload_length closed.now.records.items)) (packets_of closed.now.records.items) }
    requires rows { StandForAll (length closed.now.records.items) (payload_length closed.now.records.items) (packets_of closed.now.records.items) closed.now.rows.items }
    ensures solves { IfOk result (λ blocks. Solves (length closed.now.records.items) (payload_length closed.now.records.items)
        (packets_of closed.now.records.items) blocks.items) }
    ensures only { IfOk result (λ blocks. IsOnlySolution (length closed.now.records.items) (payload_length closed.now.records.items)
        (packets_of closed.now.records.items) blocks.items) }
{
    let _ = rt;
    linear_spec::laws::solving();
    let records = closed.records.as_slice();
    let payload = records[0].packet.payload.len();
    solve_rows(alloc, records.len(), payload, &closed.rows)
}
