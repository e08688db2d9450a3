//! All passes taken in by the founder, at the end of a basis.
ghost use Rattle.std.specs.Prelude.{◌≡◌, ◌≤◌, [], length};
ghost use Rattle.shared_basis.specs.Close.{AreAllPasses};
ghost use Rattle.shared_basis.specs.Gathering.{AreParts, HasGathered};

use crate::desk::Desk;
use crate::{Pass, SharedBasis};
use basis_core::CallerTrace;
use linear_spec::List;
use table_rows::{CallerSeat, FounderSeat};

/// What a closing keeps of a pass.
#[derive(Drop)]
pub(crate) struct Parts {
    pub seat: CallerSeat,
    pub founder: Option<FounderSeat>,
    pub caller: CallerTrace,
}

/// Takes a pass apart.
fn take_apart(pass: Pass) -> Parts
    ensures { AreParts pass result }
{
    let Pass {
        desk,
        founder,
        number,
        calls,
        ..
    } = pass;
    let Desk { seat, .. } = desk;
    Parts {
        seat,
        founder,
        caller: CallerTrace { number, calls },
    }
}

/// Takes all passes in, the last one first, since the founder's seat is with it, and keeps the calls of each in that order.
pub(crate) fn gather(
    basis: &SharedBasis,
    mut passes: List<Pass>,
    callers: &mut List<CallerTrace>,
) -> FounderSeat
    requires passes { AreAllPasses basis.now passes.items }
    requires room { (callers.old.items ≡ []) × (length passes.items ≤ callers.old.spare) }
    ensures { HasGathered basis.now passes.items result [] callers.new.items }
{
    basis.is_basis();
    let last = take_apart(passes.pop().unwrap());
    let mut founder = last.founder.unwrap();
    basis.table.join_caller(&mut founder, last.seat);
    callers.put(last.caller);
    while passes.len() > 0 {
        let parts = take_apart(passes.pop().unwrap());
        basis.table.join_caller(&mut founder, parts.seat);
        callers.put(parts.caller);
    }
    founder
}
