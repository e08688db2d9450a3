//! Seats that take in what others have seen, and the end of a table.
ghost use Rattle.std.specs.Prelude.{◌≡◌, ◌+◌, ◌≤◌, ◌++◌, length, take, drop, IsSome};
ghost use Rattle.std.specs.List.{All};
ghost use Rattle.std.specs.Slots.{slots_items, slots_len, IsFull};
ghost use Rattle.table_rows.specs.Closing.{IsClosed};
ghost use Rattle.table_rows.specs.Layout.{basis_length};
ghost use Rattle.table_rows.specs.Seats.{IsCallerAt, IsFounderAt, IsNoteAt};
ghost use Rattle.table_rows.specs.Steps.{after_join_caller, after_join_note};
ghost use Rattle.table_rows.specs.Views.{noted};

use crate::rule::{JoinCaller, JoinNote, TakeNote};
use crate::seats::{CallerSeat, FounderSeat, NoteSeat};
use crate::table::BasisTable;
use atomic_table::Closed;
use linear_spec::List;
use std::alloc::Global;

impl BasisTable {
    /// A note of what the caller knows and has read.
    pub fn note(&self, seat: &mut CallerSeat) -> NoteSeat
        requires { IsCallerAt self.now seat.old }
        ensures seat { IsCallerAt self.now seat.new × (seat.new.view ≡ seat.old.view) }
        ensures note { IsNoteAt self.now result × (result.view ≡ noted seat.old.view.sight) }
    {
        let seat = self.table.shared.split_seat::<TakeNote>(&mut seat.seat);
        NoteSeat { seat }
    }

    /// Takes a note in: the caller knows what either knew. A step afterwards, such as a write, tells that both are parts of it.
    pub fn join_note(&self, seat: &mut CallerSeat, note: NoteSeat)
        requires seat { IsCallerAt self.now seat.old }
        requires note { IsNoteAt self.now note }
        ensures seat { IsCallerAt self.now seat.new }
        ensures joined { seat.new.view ≡ after_join_note seat.old.view note.view }
    {
        self.table
            .shared
            .join_seat::<JoinNote>(&mut seat.seat, note.seat);
    }

    /// Takes a caller in: the founder knows what either knew, and has the caller's own list under its number.
    pub fn join_caller(&self, founder: &mut FounderSeat, seat: CallerSeat)
        requires founder { IsFounderAt self.now founder.old }
        requires seat { IsCallerAt self.now seat }
        ensures founder { IsFounderAt self.now founder.new }
        ensures joined { founder.new.view ≡ after_join_caller founder.old.view seat.view }
    {
        self.table
            .shared
            .join_seat::<JoinCaller>(&mut founder.seat, seat.seat);
    }

    /// Appends the words in order, and ends the table. Every number that was given was joined. The words meet the rule with the
    /// founder's view, so they have all records, and what each caller had seen.
    pub fn close(self, founder: FounderSeat, out: &mut List<u64>)
        requires founder { IsFounderAt self founder }
        requires joined { All IsSome founder.view.joined }
        requires room { basis_length self.parameters.k self.parameters.s self.parameters.passes ≤ out.old.spare }
        ensures before { take (length out.old.items) out.new.items ≡ out.old.items }
        ensures closed { IsClosed self.parameters founder.view (drop (length out.old.items) out.new.items) }
        ensures spare { out.new.spare + basis_length self.parameters.k self.parameters.s self.parameters.passes ≡ out.old.spare }
    {
        let closed = self.table.close_with(founder.seat);
        copy_words(&closed, out);
        closed.free();
    }
}

/// Appends the words of a closed table.
fn copy_words(closed: &Closed<(), Global>, out: &mut List<u64>)
    requires words { IsFull closed.now.words }
    requires room { slots_len closed.now.words ≤ out.old.spare }
    ensures items { out.new.items ≡ out.old.items ++ slots_items closed.now.words }
    ensures spare { out.new.spare + slots_len closed.now.words ≡ out.old.spare }
{
    for at in 0..closed.words.len() {
        out.put(closed.word(at));
    }
}
