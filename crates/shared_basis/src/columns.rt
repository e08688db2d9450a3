//! The columns at which no row that was seen has its pivot.
ghost use Rattle.std.specs.Prelude.{◌≡◌, ◌<◌, ◌≤◌, ◌+◌, ◌↔◌, ℕ, false, length, slice_index_or, Contains, IsTrue};
ghost use Rattle.linear_spec.specs.declared.packet.Packet.{Packet};
ghost use Rattle.linear_spec.specs.Rows.{missing_columns_of, pivot_of};
ghost use Rattle.table_rows.specs.Seats.{IsCallerAt};
ghost use Rattle.shared_basis.specs.Desks.{IsDesk};
ghost use Rattle.shared_basis.specs.Regions.{rows_seen};

use crate::desk::Desk;
use table_rows::BasisTable;

/// Tells of each column whether no row that was seen has its pivot there. Each pivot is read again, which is one word.
pub(crate) fn mark_missing(table: &BasisTable, desk: &mut Desk, out: &mut [bool])
    requires desk { IsDesk desk.old }
    requires seat { IsCallerAt table.now desk.old.seat }
    requires few { table.now.parameters.k ≤ 64 }
    requires columns { length out.old ≡ table.now.parameters.k }
    ensures desk { IsDesk desk.new }
    ensures seat { IsCallerAt table.now desk.new.seat }
    ensures view { desk.new.seat.view ≡ record desk.old.seat.view { reads = desk.old.seat.view.reads + length desk.old.known.items } }
    ensures missing { (column : ℕ) → column < table.now.parameters.k
        → IsTrue (slice_index_or out.new column false) ↔ Contains (missing_columns_of table.now.parameters.k (rows_seen desk.old.seat.view)) column }
{
    out.fill(true);
    for n in 0..desk.known.len() {
        let pivot = pivot_again(table, desk, n);
        out[pivot] = false;
    }
}

/// Reads again at which column the row of record `n` has its pivot.
pub(crate) fn pivot_again(table: &BasisTable, desk: &mut Desk, n: usize) -> usize
    requires desk { IsDesk desk.old }
    requires seat { IsCallerAt table.now desk.old.seat }
    requires known { n < length desk.old.known.items }
    requires few { table.now.parameters.k ≤ 64 }
    ensures desk { IsDesk desk.new }
    ensures seat { IsCallerAt table.now desk.new.seat }
    ensures view { desk.new.seat.view ≡ record desk.old.seat.view { reads = desk.old.seat.view.reads + 1 } }
    ensures known { desk.new.known ≡ desk.old.known }
    ensures left { desk.new.left ≡ desk.old.left }
    ensures pivot { (row : Packet) → result ≡ pivot_of (slice_index_or (rows_seen desk.old.seat.view) n row) }
    ensures below { result < table.now.parameters.k }
{
    table_rows::laws::records();
    table_rows::laws::reading();
    let region = desk.known.as_slice()[n];
    table.read(&mut desk.seat, n as u16, region, 1) as usize
}
