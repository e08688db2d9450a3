//! What a pass has seen, read again.
ghost use Rattle.std.specs.Prelude.{◌≡◌, ◌<◌, ◌↔◌, ℕ, false, length, slice_index_or, Contains, IsTrue};
ghost use Rattle.gf16.specs.Sums.{plus_scaled};
ghost use Rattle.linear_spec.specs.declared.packet.Packet.{Packet as packet_type};
ghost use Rattle.linear_spec.specs.declared.record.Record.{Record};
ghost use Rattle.linear_spec.specs.Rows.{missing_columns_of};
ghost use Rattle.shared_basis.specs.Desks.{HasLengths};
ghost use Rattle.shared_basis.specs.Passes.{HasKept, IsPassOf};

use crate::columns::mark_missing;
use crate::looking::read_again;
use crate::{Pass, SharedBasis};
use gf_lanes::Lanes;
use gf16::Gf;
use linear_spec::Packet;
use table_rows::{take_packet, take_row};

impl SharedBasis {
    /// Writes the packet of record `n` into `out`, its generation too.
    pub fn read_packet(&self, pass: &mut Pass, n: u16, out: &mut Packet)
        requires pass { IsPassOf self.now pass.old }
        requires seen { n < length pass.old.seen }
        requires lengths { HasLengths self.now.parameters out.old }
        ensures pass { HasKept pass.old pass.new }
        ensures packet { (other : Record) → out.new ≡ (slice_index_or pass.old.seen n other).packet }
    {
        read_again(&self.table, &mut pass.desk, usize::from(n));
        out.generation = self.params.generation;
        take_packet(pass.desk.words.as_slice(), out);
    }

    /// Each symbol of record n's packet, times c, is added to the one of `out` at its place. The generation of `out` is not touched.
    pub fn add_packet(&self, pass: &mut Pass, n: u16, c: Gf, out: &mut Packet)
        requires pass { IsPassOf self.now pass.old }
        requires seen { n < length pass.old.seen }
        requires lengths { HasLengths self.now.parameters out.old }
        ensures pass { HasKept pass.old pass.new }
        ensures counts { (pass.new.moves ≡ pass.old.moves) × (pass.new.empty_looks ≡ pass.old.empty_looks) × (pass.new.last_empty ≡ pass.old.last_empty) }
        ensures generation { out.new.generation ≡ out.old.generation }
        ensures coeffs { (other : Record) → out.new.coeffs ≡ plus_scaled out.old.coeffs c.0 (slice_index_or pass.old.seen n other).packet.coeffs }
        ensures payload { (other : Record) → out.new.payload ≡ plus_scaled out.old.payload c.0 (slice_index_or pass.old.seen n other).packet.payload }
    {
        table_rows::laws::records();
        read_again(&self.table, &mut pass.desk, usize::from(n));
        take_packet(pass.desk.words.as_slice(), &mut pass.desk.row);
        out.add_scaled::<Lanes<16>>(c, &pass.desk.row);
    }

    /// Writes the row of record `n` into `out`, with the basis's generation.
    pub fn read_row(&self, pass: &mut Pass, n: u16, out: &mut Packet)
        requires pass { IsPassOf self.now pass.old }
        requires seen { n < length pass.old.seen }
        requires lengths { HasLengths self.now.parameters out.old }
        ensures pass { HasKept pass.old pass.new }
        ensures row { (other : packet_type) → out.new ≡ slice_index_or pass.old.rows n other }
    {
        read_again(&self.table, &mut pass.desk, usize::from(n));
        out.generation = self.params.generation;
        take_row(pass.desk.words.as_slice(), out);
    }

    /// Tells of each column whether no row that was seen has its pivot there.
    pub fn missing_columns(&self, pass: &mut Pass, out: &mut [bool])
        requires pass { IsPassOf self.now pass.old }
        requires columns { length out.old ≡ self.now.parameters.k }
        ensures pass { HasKept pass.old pass.new }
        ensures missing { (column : ℕ) → column < self.now.parameters.k
            → IsTrue (slice_index_or out.new column false) ↔ Contains (missing_columns_of self.now.parameters.k pass.old.rows) column }
    {
        mark_missing(&self.table, &mut pass.desk, out);
    }
}
