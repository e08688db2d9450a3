//! Draws: a look, and then the question how many records there are to combine.
ghost use Rattle.std.specs.Prelude.{◌≡◌, ◌<◌, ◌≤◌, ◌+◌, ◌-◌, ◌*◌, [], ◌∷◌, ◌++◌, length};
ghost use Rattle.linear_spec.specs.SequentialBasis.{packets_of};
ghost use Rattle.basis_core.specs.Calls.{IsDrawnAt, KeptDraw};
ghost use Rattle.table_rows.specs.Views.{width_of};
ghost use Rattle.shared_basis.specs.Passes.{HasCalled, HasLooked, IsPassOf, SeesOn};

use crate::{Pass, SharedBasis};
use basis_core::{Answer, Call};
use linear_spec::Drawn;
use std::snapshot::Snapshot;

impl SharedBasis {
    /// Looks as `look` does, and keeps a draw over the records that were then seen. It is answered `Nothing` exactly where
    /// there were none.
    pub fn draw_front(&self, pass: &mut Pass, tag: u64) -> Drawn
        requires pass { IsPassOf self.now pass.old }
        requires room { 0 < pass.old.spare }
        ensures drawn { IsDrawnAt (packets_of pass.new.seen) result }
        ensures prefix { SeesOn pass.old pass.new }
        ensures call { HasCalled pass.old pass.new (KeptDraw tag result) }
        ensures looked { HasLooked pass.old pass.new }
        ensures moves { pass.new.moves ≤ pass.old.moves + self.now.parameters.k + 1 }
        ensures reads { pass.new.reads ≤ pass.old.reads + length pass.new.seen * width_of self.now.parameters }
    {
        let front = self.look(pass);
        let drawn = if front == 0 {
            Drawn::Nothing
        } else {
            Drawn::Sent { front }
        };
        keep_draw(pass, tag, drawn);
        drawn
    }
}

/// Keeps a draw that was answered over the records that were seen.
fn keep_draw(pass: &mut Pass, tag: u64, drawn: Drawn)
    requires drawn { IsDrawnAt (packets_of pass.old.seen) drawn }
    requires room { 0 < pass.old.spare }
    ensures { pass.new ≡ record pass.old { calls = pass.old.calls ++ KeptDraw tag drawn ∷ []; spare = pass.old.spare - 1 } }
{
    basis_core::laws::steps();
    pass.calls.put(Call {
        tag,
        answer: Answer::Drew(drawn),
    });
    // Only an offer has a packet beside it: what stands beside a draw is any one.
    pass.offered.put(Snapshot::of(&pass.desk.left));
    pass.spare -= 1;
}
