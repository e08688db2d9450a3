//! A pass: what one caller has seen, and the calls that it made.
ghost use Rattle.std.specs.Prelude.{◌≡◌, ◌+◌, ◌<◌, ◌≤◌, ◌^◌, length, map, OnOk, OnErr};
ghost use Rattle.std.specs.List.{All};
ghost use Rattle.linear_spec.specs.Packet.{Fits};
ghost use Rattle.linear_spec.specs.Rows.{StandForAll};
ghost use Rattle.linear_spec.specs.SequentialBasis.{packets_of};
ghost use Rattle.basis_core.specs.Calls.{call_of};
ghost use Rattle.basis_core.specs.Legal.{HaveSeenAtMost, IsLegalHistory};
ghost use Rattle.basis_core.specs.Merge.{only};
ghost use Rattle.basis_core.specs.Run.{AreInnovative};
ghost use Rattle.shared_basis.specs.Bases.{AreParameters};
ghost use Rattle.shared_basis.specs.Passes.{HasKept};

use crate::desk::Desk;
use basis_core::Call;
use gf16::Memory;
use linear_spec::{List, Packet};
use std::marker::Model;
use std::snapshot::Snapshot;
use table_rows::FounderSeat;

/// One caller's part in a basis: what it has seen, and the calls that it made. It may go to another thread.
///
/// Contracts see beside each offer its packet, which the running pass does not keep.
#[derive(Drop)]
pub struct Pass {
    pub(crate) desk: Desk,
    /// With the last pass: the seat that takes all callers in at the end.
    pub(crate) founder: Option<FounderSeat>,
    pub(crate) number: u32,
    pub(crate) calls: List<Call>,
    /// The packet of each offer, for contracts alone.
    pub(crate) offered: List<Snapshot<Packet>>,
    pub(crate) spare: u32,
}

impl Model for Pass {
    ghost use Rattle.std.specs.Prelude.{map};
    ghost use Rattle.shared_basis.specs.Bases.{IsPass, PassValue, kept_calls};
    ghost use Rattle.shared_basis.specs.Regions.{records_seen, rows_seen};

    ghost Value = { PassValue };

    ghost view = { λ p. record {
      table = p.desk.seat.table;
      parameters = p.desk.seat.view.sight.parameters;
      number = p.number;
      seen = records_seen p.desk.seat.view;
      rows = rows_seen p.desk.seat.view;
      calls = kept_calls p.calls.items (map (λ packet. packet.value) p.offered.items);
      spare = p.spare;
      moves = p.desk.seat.view.moves;
      reads = p.desk.seat.view.reads;
      empty_looks = p.desk.seat.view.empty_looks;
      last_empty = p.desk.seat.view.last_empty;
    } };

    ghost invariant = { λ p. IsPass p.desk p.founder p.number p.calls (map (λ packet. packet.value) p.offered.items) p.offered.spare p.spare };
}

impl Pass {
    /// The caller's number.
    pub fn number(&self) -> u32
        ensures { result ≡ self.now.number }
    {
        self.number
    }

    /// How many records the pass has seen.
    pub fn seen(&self) -> u16
        ensures { result ≡ length self.now.seen }
    {
        self.desk.known.len() as u16
    }

    /// The calls that were made with this pass, in order.
    pub fn calls(&self) -> &List<Call>
        ensures { result.now.items ≡ map call_of self.now.calls }
    {
        &self.calls
    }

    /// For how many calls there is room.
    pub fn spare(&self) -> u32
        ensures { result ≡ self.now.spare }
    {
        self.spare
    }

    /// Makes room for `room` calls. On refusal all is as before.
    pub fn reserve(&mut self, room: u32) -> Result<(), Memory>
        requires few { length self.old.calls + room < 2 ^ 32 }
        ensures room { OnOk result (room ≤ self.new.spare) }
        ensures kept { HasKept (record self.old { spare = self.new.spare }) self.new }
        ensures grown { self.old.spare ≤ self.new.spare }
        ensures err { OnErr result (self.new ≡ self.old) }
    {
        if room <= self.spare {
            return Ok(());
        }
        self.calls.reserve(room as usize)?;
        self.offered.reserve(room as usize)?;
        self.spare = room;
        Ok(())
    }

    /// A law: the calls of every pass are by themselves a legal history over the records that it has seen.
    pub fn is_legal(&self)
        ensures history { IsLegalHistory self.now.parameters.equations.value (only self.now.number self.now.calls) self.now.seen }
        ensures seen { HaveSeenAtMost (length self.now.seen) self.now.calls }
    {
        let _ = &self.calls;
    }

    /// A law: what every pass has seen are packets that fit and pass, each fresh at those before it, and the rows that stand
    /// for them; and its number is one of those that the basis gave.
    pub fn has_seen(&self)
        ensures parameters { AreParameters self.now.parameters }
        ensures number { self.now.number < self.now.parameters.passes }
        ensures at_most { length self.now.seen ≤ self.now.parameters.k }
        ensures fit { All (Fits self.now.parameters.k self.now.parameters.s) (packets_of self.now.seen) }
        ensures innovative { AreInnovative self.now.parameters.equations.value (packets_of self.now.seen) }
        ensures stand { StandForAll self.now.parameters.k self.now.parameters.s (packets_of self.now.seen) self.now.rows }
        ensures few { length self.now.calls + self.now.spare < 2 ^ 32 }
    {
        table_rows::laws::records();
        let _ = &self.desk;
    }
}
