//! Two passes brought together.
ghost use Rattle.std.specs.Prelude.{◌≡◌, ◌≤◌, ◌+◌, [], ◌∷◌, ◌++◌, drop, length};
ghost use Rattle.basis_core.specs.Legal.{IsLegalHistory};
ghost use Rattle.basis_core.specs.Merge.{given_by};
ghost use Rattle.table_rows.specs.Seats.{IsCallerAt};
ghost use Rattle.shared_basis.specs.Desks.{IsBrought, IsDesk};
ghost use Rattle.shared_basis.specs.Passes.{HasNotCalled, IsPassOf, SeesOn, calls_of};

use crate::desk::Desk;
use crate::{Pass, SharedBasis};
use linear_spec::List;
use table_rows::BasisTable;

impl SharedBasis {
    /// Lets two passes see what either has seen: the longer front of the two. Their calls stand in one legal history over it.
    pub fn meet(&self, a: &mut Pass, b: &mut Pass)
        requires a { IsPassOf self.now a.old }
        requires b { IsPassOf self.now b.old }
        ensures a { SeesOn a.old a.new × HasNotCalled a.old a.new }
        ensures b { SeesOn b.old b.new × HasNotCalled b.old b.new }
        ensures one_front { b.new.seen ≡ a.new.seen }
        ensures longer { (length b.old.seen ≤ length a.old.seen → a.new.seen ≡ a.old.seen) × (length a.old.seen ≤ length b.old.seen → a.new.seen ≡ b.old.seen) }
        ensures history { IsLegalHistory self.now.parameters.equations.value (given_by (calls_of a.new ∷ calls_of b.new ∷ [])) a.new.seen }
    {
        basis_core::laws::histories();
        basis_core::laws::steps();
        table_rows::laws::records();
        bring_together(&self.table, &mut a.desk, &mut b.desk);
        take_over(&mut a.desk.known, &b.desk.known);
        take_over(&mut b.desk.known, &a.desk.known);
    }
}

/// Lets each of two seats take in a note of the other, and writes a word of either's draft, which tells what it then knows.
fn bring_together(table: &BasisTable, a: &mut Desk, b: &mut Desk)
    requires a { IsDesk a.old × IsCallerAt table.now a.old.seat }
    requires b { IsDesk b.old × IsCallerAt table.now b.old.seat }
    ensures a { IsBrought a.old b.old a.new × IsCallerAt table.now a.new.seat }
    ensures b { IsBrought b.old a.old b.new × IsCallerAt table.now b.new.seat }
    ensures one_front { b.new.seat.view.sight.front ≡ a.new.seat.view.sight.front }
{
    table_rows::laws::meeting();
    let note = table.note(&mut a.seat);
    table.join_note(&mut b.seat, note);
    let note = table.note(&mut b.seat);
    table.join_note(&mut a.seat, note);
    table.write(&mut a.seat, a.draft, 0, 0);
    table.write(&mut b.seat, b.draft, 0, 0);
}

/// Appends what the other list has beyond the end of this one.
fn take_over(regions: &mut List<u64>, others: &List<u64>)
    requires room { length others.now.items ≤ length regions.old.items + regions.old.spare }
    ensures items { regions.new.items ≡ regions.old.items ++ drop (length regions.old.items) others.now.items }
    ensures room { length regions.new.items + regions.new.spare ≡ length regions.old.items + regions.old.spare }
{
    for at in regions.len()..others.len() {
        regions.put(others.as_slice()[at]);
    }
}
