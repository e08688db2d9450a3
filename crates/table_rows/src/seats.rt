//! The seats at a table, by the kind of their view. A seat has no bytes: it is the right to step, and what it knows.
ghost use Rattle.std.specs.Prelude.{◌≡◌, []};
ghost use Rattle.table_rows.specs.declared.view.CallerView.{CallerView};
ghost use Rattle.table_rows.specs.declared.view.FounderView.{FounderView};
ghost use Rattle.table_rows.specs.declared.view.Sight.{Sight};
ghost use Rattle.table_rows.specs.declared.view.View.TheVariants.{Caller, Founder, Note};
ghost use Rattle.table_rows.specs.Seats.{SeatValue};
ghost use Rattle.table_rows.specs.Steps.{IsCaller, IsSight};
ghost use Rattle.table_rows.specs.Views.{as_caller, as_founder, as_sight};

use crate::view::View;
use atomic_table::Seat;
use std::marker::Model;

/// The seat that gives numbers, and takes callers in at the end.
#[derive(Drop)]
pub struct FounderSeat {
    pub(crate) seat: Seat<(), View>,
}

impl Model for FounderSeat {
    ghost Value = { SeatValue FounderView };

    ghost view = { λ s. record { table = s.seat.table_id; view = as_founder s.seat.me.0 } };

    ghost invariant = { λ s. (s.seat.me ≡ (Founder (as_founder s.seat.me.0), [])) × IsSight (as_founder s.seat.me.0).sight };
}

/// The seat of one caller, which writes its draft and appends.
#[derive(Drop)]
pub struct CallerSeat {
    pub(crate) seat: Seat<(), View>,
}

impl Model for CallerSeat {
    ghost Value = { SeatValue CallerView };

    ghost view = { λ s. record { table = s.seat.table_id; view = as_caller s.seat.me.0 } };

    ghost invariant = { λ s. (s.seat.me ≡ (Caller (as_caller s.seat.me.0), [])) × IsCaller (as_caller s.seat.me.0) };
}

/// What a caller had seen, for another seat to take in.
#[derive(Drop)]
pub struct NoteSeat {
    pub(crate) seat: Seat<(), View>,
}

impl Model for NoteSeat {
    ghost Value = { SeatValue Sight };

    ghost view = { λ s. record { table = s.seat.table_id; view = as_sight s.seat.me.0 } };

    ghost invariant = { λ s. (s.seat.me ≡ (Note (as_sight s.seat.me.0), [])) × IsSight (as_sight s.seat.me.0) };
}

impl FounderSeat {
    /// A law: what every founder's view is, whatever the words are.
    pub fn is_sight(&self)
        ensures { IsSight self.now.view.sight }
    {
        let _ = &self.seat;
    }
}

impl CallerSeat {
    /// A law: what every caller's view is, whatever the words are.
    pub fn is_caller(&self)
        ensures { IsCaller self.now.view }
    {
        let _ = &self.seat;
    }
}

impl NoteSeat {
    /// A law: what every note's view is, whatever the words are.
    pub fn is_sight(&self)
        ensures { IsSight self.now.view }
    {
        let _ = &self.seat;
    }
}
