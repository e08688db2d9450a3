//! The columns at which no row has its pivot.
ghost use Rattle.std.specs.Prelude.{◌≡◌, ◌<◌, ◌↔◌, ℕ, false, length, slice_index_or, slice_set, IsTrue};
ghost use Rattle.std.specs.List.{All, Contains};
ghost use Rattle.linear_spec.specs.Rows.{pivot_of, missing_columns_of};

use linear_spec::{List, Packet};

/// Writes for each column whether no row has its pivot there.
pub fn mark_missing(rows: &List<Packet>, out: &mut [bool])
    requires { All (λ row. pivot_of row < length row.coeffs) rows.now.items }
    ensures { (column : ℕ) → column < length out.old
        → IsTrue (slice_index_or out.new column false) ↔ Contains (missing_columns_of (length out.old) rows.now.items) column }
{
    out.fill(true);
    let rows = rows.as_slice();
    for row in rows {
        unmark_pivot(row, out);
    }
}

/// Writes that the column of the row's pivot, if it is one of the columns, is not missing.
fn unmark_pivot(row: &Packet, out: &mut [bool])
    requires { pivot_of row.now < length row.now.coeffs }
    ensures { out.new ≡ slice_set out.old (pivot_of row.now) false }
{
    if let Some(pivot) = row.pivot() {
        unmark(pivot, out);
    }
}

/// Writes that a column is not missing.
fn unmark(column: usize, out: &mut [bool])
    ensures { out.new ≡ slice_set out.old column false }
{
    if column < out.len() {
        out[column] = false;
    }
}
